ghost use Rattle.std.specs.Prelude.{◌≡◌};
ghost use Rattle.dv_value.specs.declared.class_fault.ClassFault.TheVariants.{OutOfMemory};

use std::alloc::AllocError;
use thiserror::Error;

/// Why a class isn't declared.
#[derive(Clone, Copy, Debug, PartialEq, Eq, Drop, Error)]
pub enum ClassFault {
    /// The table has a class of this name.
    #[error("1 Taken")]
    Taken,
    /// The table has no class of the parent's name.
    #[error("2 NoParent")]
    NoParent,
    /// Out of memory.
    #[error("3 OutOfMemory")]
    OutOfMemory,
}

impl From<AllocError> for ClassFault {
    ghost from_gives = { λ _ fault. fault ≡ OutOfMemory };

    fn from(_error: AllocError) -> ClassFault {
        ClassFault::OutOfMemory
    }
}
