//! The orders of a script, from one to the next.

ghost use Rattle.std.specs.Prelude.{◌≡◌, ◌∷◌, [], true, IfOk, MatchBool};
ghost use Rattle.dv_orders.specs.Orders.{orders};
ghost use Rattle.dv_orders.specs.Ordering.{IsWhole, batches_of, later_orders};

use crate::batching::{Cut, batches};
use crate::checking::drains_of;
use crate::sequencing::Sequence;
use dv_posts::posted::Posted;
use dv_script::script::Script;
use dv_value::items::Items;
use std::alloc::{AllocError, Global};

/// An order: a sequence of all posts, and a way to cut it.
#[derive(Drop)]
pub(crate) struct Order {
    /// How many posts each drain takes at most.
    pub(crate) drains: Vec<u32>,
    pub(crate) sequence: Sequence,
    pub(crate) cut: Cut,
}

impl Order {
    /// The first order of a script.
    pub(crate) fn first(alloc: Global, script: &Script) -> Result<Order, AllocError>
        ensures whole { IfOk result IsWhole }
        ensures first { IfOk result
            (λ order. orders script.now ≡ batches_of order ∷ later_orders order) }
    {
        let drains = drains_of(alloc, script.events.as_slice())?;
        let sequence = Sequence::first(alloc, script.callers.as_slice())?;
        let cut = Cut::first(alloc, drains.as_slice(), sequence.posts.len())?;
        Ok(Order {
            drains,
            sequence,
            cut,
        })
    }

    /// Goes on to the next order. Returns false at the last one.
    pub(crate) fn advance(&mut self) -> Result<bool, AllocError>
        requires { IsWhole self.old }
        ensures whole { IfOk result (λ more. more ≡ true → IsWhole self.new) }
        ensures next { IfOk result (λ more. MatchBool more (later_orders self.old
            ≡ batches_of self.new ∷ later_orders self.new) (later_orders self.old ≡ [])) }
    {
        if self.cut.advance(self.drains.as_slice()) {
            return Ok(true);
        }
        let more = self.sequence.advance()?;
        Ok(more)
    }

    /// Its batches.
    pub(crate) fn batches(&self, alloc: Global) -> Result<Vec<Items<Posted>>, AllocError>
        requires { IsWhole self.now }
        ensures { IfOk result (λ batches. batches.items ≡ batches_of self.now) }
    {
        batches(
            alloc,
            self.cut.lengths.as_slice(),
            self.sequence.posts.as_slice(),
        )
    }
}
