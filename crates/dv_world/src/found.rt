ghost use Rattle.std.specs.Prelude.{◌≡◌, IfOk};
ghost use Rattle.dv_world.specs.Found.{deferreds_at};

use crate::world::World;
use dv_journal::deferred_id::DeferredId;
use dv_script::lent::TextRef;
use dv_value::items::Items;
use dv_value::text::Text;
use std::alloc::{AllocError, Global};

/// What several names stand for.
#[derive(Drop)]
pub enum Found<'s> {
    /// These Deferreds, in the same order.
    All(Items<DeferredId>),
    /// The first of them that isn't bound.
    Unbound(TextRef<'s>),
}

/// The Deferreds that names stand for, looked up from left to right; `@` is the one that is given,
/// where one is.
#[tactic(auto, using(crate::proofs::FoundLemmas::none_before, crate::proofs::FoundLemmas::one_more))]
pub fn find_all<'s>(
    alloc: Global,
    world: &World<'s>,
    itself: &Option<DeferredId>,
    names: &'s [Text],
) -> Result<Found<'s>, AllocError>
    ensures { IfOk result (λ found. found ≡ deferreds_at itself.now names.now world.now) }
{
    let mut found = Items::new(alloc);
    for name in names {
        let Some(id) = world.find(*itself, name.as_str()) else {
            return Ok(Found::Unbound(TextRef::new(name)));
        };
        found.push(id)?;
    }
    Ok(Found::All(found))
}
