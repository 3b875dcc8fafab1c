use std::alloc::AllocError;

/// Why a reader fails.
#[derive(Clone, Copy, Drop)]
pub enum ShapeFault {
    /// The value doesn't have the shape.
    BadShape,
    /// An allocation failed.
    OutOfMemory,
}

impl From<AllocError> for ShapeFault {
    ghost use Rattle.std.specs.Prelude.{◌≡◌};
    ghost use Rattle.dv_forms.specs.declared.shape_fault.ShapeFault.TheVariants.{OutOfMemory};

    ghost from_gives = { λ _ stop. stop ≡ OutOfMemory };

    fn from(_error: AllocError) -> ShapeFault {
        ShapeFault::OutOfMemory
    }
}
