ghost use Rattle.std.specs.Prelude.{◌≡◌};

use dv_journal::deferred_id::DeferredId;
use std::marker::Model;

/// The number of an inline body, in order of making from 0, which contracts see as that number.
#[derive(Clone, Copy, Debug, PartialEq, Eq)]
pub struct InlineId(usize);

impl Model for InlineId {
    ghost use Rattle.std.specs.Prelude.{ℕ};

    ghost Value = { ℕ };

    ghost view = { λ i. i.0 };

    ghost inverse = { λ n. record { 0 = n } };
}

impl InlineId {
    /// The inline body of this number.
    pub fn new(number: usize) -> InlineId
        ensures { result ≡ number }
    {
        InlineId(number)
    }

    /// Its number.
    pub fn number(self) -> usize
        ensures { result ≡ self }
    {
        self.0
    }
}

/// An inline body and the Deferred that it is for.
#[derive(Clone, Copy, Debug, PartialEq, Eq)]
pub struct Inline {
    pub id: InlineId,
    /// The Deferred that is fired with the body's result (Twisted: what the function under
    /// `inlineCallbacks` answers).
    pub of: DeferredId,
}
