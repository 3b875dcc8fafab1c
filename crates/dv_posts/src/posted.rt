ghost use Rattle.std.specs.Prelude.{◌≡◌, IfOk};

use dv_value::items::Items;
use std::alloc::{AllocError, Global};

/// A post, by its caller and its index among that caller's posts.
#[derive(Debug, Drop, PartialEq)]
pub struct Posted {
    pub caller: u32,
    pub index: u32,
}

/// Returns a copy of a batch.
pub fn copy_of_batch(alloc: Global, batch: &[Posted]) -> Result<Items<Posted>, AllocError>
    ensures { IfOk result (λ copy. copy ≡ batch.now) }
{
    let mut copy = Items::with_capacity(alloc, batch.len())?;
    for posted in batch {
        copy.push(Posted {
            caller: posted.caller,
            index: posted.index,
        })?;
    }
    Ok(copy)
}
