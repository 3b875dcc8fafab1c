ghost use Rattle.std.specs.Prelude.{◌≡◌};

use std::marker::Model;

/// The number of a Deferred, in order of making from 0, which contracts see as that number.
#[derive(Clone, Copy, Debug, PartialEq, Eq)]
pub struct DeferredId(u32);

impl Model for DeferredId {
    ghost use Rattle.std.specs.Prelude.{ℕ};

    ghost Value = { ℕ };

    ghost view = { λ d. d.0 };

    ghost inverse = { λ n. record { 0 = n } };
}

impl DeferredId {
    /// The Deferred of this number.
    pub fn new(number: u32) -> DeferredId
        ensures { result ≡ number }
    {
        DeferredId(number)
    }

    /// Its number.
    pub fn number(self) -> u32
        ensures { result ≡ self }
    {
        self.0
    }
}
