ghost use Rattle.std.specs.Prelude.{◌≡◌};

use std::marker::Model;

/// The number of a task of any Cooperator, in order of making from 0, which contracts see as that
/// number.
#[derive(Clone, Copy, Debug, PartialEq, Eq)]
pub struct TaskId(u32);

impl Model for TaskId {
    ghost use Rattle.std.specs.Prelude.{ℕ};

    ghost Value = { ℕ };

    ghost view = { λ t. t.0 };

    ghost inverse = { λ n. record { 0 = n } };
}

impl TaskId {
    /// The task of this number.
    pub fn new(number: u32) -> TaskId
        ensures { result ≡ number }
    {
        TaskId(number)
    }

    /// Its number.
    pub fn number(self) -> u32
        ensures { result ≡ self }
    {
        self.0
    }
}
