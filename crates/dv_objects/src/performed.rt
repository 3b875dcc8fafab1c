ghost use Rattle.std.specs.Prelude.{◌≡◌, IfOk};

use crate::given::Given;
use dv_journal::deferred_id::DeferredId;
use dv_value::boxed::Boxed;
use dv_value::failure::Failure;
use std::alloc::{AllocError, Global};

/// What performing something resulted in.
#[derive(Drop)]
pub enum Performed<'s> {
    /// It is done, and returns nothing.
    Done,
    /// A body gave this, a failure where its value is one.
    Gave(Given<'s>),
    /// It raised this, and the rest of it is left out.
    Raised(Boxed<Failure>),
    /// A body gave this Deferred.
    Awaits(DeferredId),
}

impl<'s> Performed<'s> {
    ghost use Rattle.dv_objects.specs.Performed.{failed_with};

    /// Returns the failure that it resulted in, where it raised or returned one. AllocError where
    /// it returned one that isn't made yet and the allocation fails.
    pub fn into_failure(self, alloc: Global) -> Result<Option<Boxed<Failure>>, AllocError>
        ensures { IfOk result (λ f. f ≡ failed_with self.entry) }
    {
        match self {
            Performed::Gave(value) => value.into_failure(alloc),
            Performed::Raised(failure) => Ok(Some(failure)),
            Performed::Done | Performed::Awaits(_) => Ok(None),
        }
    }
}
