ghost use Rattle.std.specs.Prelude.{◌≡◌};

use std::marker::Model;

/// The number of a Cooperator, which contracts see as that number: 0 is the one that each script
/// has, and those that a script declares follow in order from 1.
#[derive(Clone, Copy, Debug, PartialEq, Eq)]
pub struct CooperatorId(usize);

impl Model for CooperatorId {
    ghost use Rattle.std.specs.Prelude.{ℕ};

    ghost Value = { ℕ };

    ghost view = { λ c. c.0 };

    ghost inverse = { λ n. record { 0 = n } };
}

impl CooperatorId {
    /// The Cooperator of this number.
    pub fn new(number: usize) -> CooperatorId
        ensures { result ≡ number }
    {
        CooperatorId(number)
    }

    /// Its number.
    pub fn number(self) -> usize
        ensures { result ≡ self }
    {
        self.0
    }
}
