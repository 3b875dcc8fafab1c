ghost use Rattle.std.specs.Prelude.{◌≡◌, IfOk};
ghost use Rattle.std.specs.Arc.{arc_value};

use std::alloc::{AllocError, Global};
use std::marker::Model;
use std::sync::Arc;

/// An `Arc` that contracts see as what it holds, without its address and its other owners.
#[derive(Debug, Drop)]
pub struct Shared<T> {
    held: Arc<T>,
}

impl<T> Model for Shared<T> {
    ghost Value = { T };

    ghost coded = { T.code };

    ghost view = { λ s. arc_value s.held };
}

impl<T> Shared<T> {
    /// What it holds.
    pub fn get(&self) -> &T
        ensures { result.now ≡ self.now }
    {
        &self.held
    }

    /// One more owner of what it holds. AllocError where the count of owners is full.
    pub fn share(&self) -> Result<Shared<T>, AllocError>
        ensures { IfOk result (λ s. s ≡ self.now) }
    {
        Ok(Shared {
            held: Arc::try_clone(&self.held)?,
        })
    }
}

impl<T: Drop> Shared<T> {
    /// Moves the value to the heap, with one owner. On allocation failure, it is dropped.
    pub fn new(alloc: Global, value: T) -> Result<Shared<T>, AllocError>
        ensures { IfOk result (λ s. s ≡ value) }
    {
        Ok(Shared {
            held: Arc::new(alloc, value)?,
        })
    }
}
