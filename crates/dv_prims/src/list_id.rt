ghost use Rattle.std.specs.Prelude.{◌≡◌};

use std::marker::Model;

/// The number of a DeferredList, in order of making from 0, which contracts see as that number.
#[derive(Clone, Copy, Debug, PartialEq, Eq)]
pub struct ListId(usize);

impl Model for ListId {
    ghost use Rattle.std.specs.Prelude.{ℕ};

    ghost Value = { ℕ };

    ghost view = { λ d. d.0 };

    ghost inverse = { λ n. record { 0 = n } };
}

impl ListId {
    /// The list of this number.
    pub fn new(number: usize) -> ListId
        ensures { result ≡ number }
    {
        ListId(number)
    }

    /// Its number.
    pub fn number(self) -> usize
        ensures { result ≡ self }
    {
        self.0
    }
}
