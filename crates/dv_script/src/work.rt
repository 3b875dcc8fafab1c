ghost use Rattle.std.specs.Prelude.{◌≡◌, IfOk};

use dv_value::class_id::ClassId;
use dv_value::text::Text;
use dv_value::value::Value;
use std::alloc::{AllocError, Global};

/// As many jobs as a run has at most.
pub const MOST_JOBS: usize = 4_096;

/// What a thread runs (Twisted: the function of `deferToThread`).
#[derive(Debug, Drop)]
pub enum Work {
    /// It returns the value.
    Value(Value),
    /// It fails with this class and message.
    Raise(ClassId, Text),
    /// It returns the sum of the integers from 1 to this one.
    Sum(u32),
}

impl Work {
    /// A work that equals this one, in memory of its own.
    pub fn copy(&self, alloc: Global) -> Result<Work, AllocError>
        ensures { IfOk result (λ work. work ≡ self.now) }
    {
        match self {
            Work::Value(value) => Ok(Work::Value(value.copy(alloc)?)),
            Work::Raise(class, message) => Ok(Work::Raise(*class, message.copy(alloc)?)),
            Work::Sum(n) => Ok(Work::Sum(*n)),
        }
    }
}
