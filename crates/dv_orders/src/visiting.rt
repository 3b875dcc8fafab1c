//! Has a visitor see orders of a script: every one, once, in the order of the list; or a sample.

ghost use Rattle.std.specs.Prelude.{◌≡◌, ◌+◌, ◌<◌, ◌^◌, [], ◌∷◌, length, IfOk, OnOk};
ghost use Rattle.dv_orders.specs.Listed.{AreOrder};
ghost use Rattle.dv_orders.specs.Orders.{orders};
ghost use Rattle.dv_orders.specs.Ordering.{IsWhole, batches_of};
ghost use Rattle.dv_orders.specs.Sampled.{drawn_at, sampled};
ghost use Rattle.dv_orders.specs.Sampling.{next_state, state_used};
ghost use Rattle.dv_orders.specs.Visiting.{SeesMore};

use crate::order::Order;
use crate::ranking::order_of;
use crate::sampling::Generator;
use dv_posts::posted::Posted;
use dv_script::script::Script;
use dv_value::items::Items;
use std::alloc::{AllocError, Global};

/// Why not every order of a script was visited.
#[derive(Debug, PartialEq, Eq, Drop)]
pub enum VisitFault<Reason> {
    /// Out of memory.
    OutOfMemory,
    /// A visit failed, for a reason of the visitor's own.
    Failed(Reason),
}

impl<Reason> From<AllocError> for VisitFault<Reason> {
    ghost use Rattle.std.specs.Prelude.{◌≡◌};
    ghost use Rattle.dv_orders.specs.declared.visiting.VisitFault.TheVariants.{OutOfMemory};

    ghost from_gives = { λ _ fault. fault ≡ OutOfMemory };

    fn from(_error: AllocError) -> VisitFault<Reason> {
        VisitFault::OutOfMemory
    }
}

/// Visits orders of a script, one after the other.
pub trait Visitor {
    /// Why a visit fails.
    type Error;

    ghost use Rattle.std.specs.Prelude.{◌≡◌, ℕ, List, [], ◌∷◌, OnOk};
    ghost use Rattle.dv_posts.specs.Batches.{Batch};
    ghost use Rattle.dv_script.specs.declared.script.Script.{Script};
    ghost use Rattle.dv_orders.specs.Listed.{AreOrder};
    ghost use Rattle.dv_orders.specs.Visiting.{SeesMore};

    /// The script whose orders it visits.
    ghost script_of: { Self → Script };

    /// Whether these are the orders that it has visited so far, as far as it says. The mark stands
    /// for what it was made for, and stays.
    ghost has_seen: { Self → List ℕ → List (List Batch) → Type 0 };

    /// Visits an order: the batches in which all posts of the script are taken.
    fn visit(&mut self, script: &Script, batches: &[Items<Posted>]) -> Result<(), Self::Error>
        requires known { script.now ≡ script_of self.old }
        requires order { AreOrder script.now batches.now }
        ensures same { script_of self.new ≡ script_of self.old }
        ensures ok { OnOk result (SeesMore has_seen self.old self.new (batches.now ∷ [])) };
}

/// Has the visitor visit every order of its script, each once, in the order of the list. It keeps
/// one of them at a time in memory. Returns early where a visit fails, and when out of memory.
pub fn each_order<V: Visitor>(
    alloc: Global,
    script: &Script,
    visitor: &mut V,
) -> Result<(), VisitFault<V::Error>>
    requires { script.now ≡ V.script_of visitor.old }
    ensures same { V.script_of visitor.new ≡ V.script_of visitor.old }
    ensures ok { OnOk result (SeesMore V.has_seen visitor.old visitor.new (orders script.now)) }
{
    let mut order = Order::first(alloc, script)?;
    loop {
        visit(alloc, script, &order, visitor)?;
        if !order.advance()? {
            return Ok(());
        }
    }
}

/// Has the visitor visit this order.
fn visit<V: Visitor>(
    alloc: Global,
    script: &Script,
    order: &Order,
    visitor: &mut V,
) -> Result<(), VisitFault<V::Error>>
    requires known { script.now ≡ V.script_of visitor.old }
    requires whole { IsWhole order.now }
    requires order { AreOrder script.now (batches_of order.now) }
    ensures same { V.script_of visitor.new ≡ V.script_of visitor.old }
    ensures ok { OnOk result
        (SeesMore V.has_seen visitor.old visitor.new (batches_of order.now ∷ [])) }
{
    let batches = order.batches(alloc)?;
    match visitor.visit(script, batches.as_slice()) {
        Ok(()) => Ok(()),
        Err(error) => Err(VisitFault::Failed(error)),
    }
}

/// Has the visitor visit so many orders of its script, of which there are `count`. Each is drawn
/// from all of them, so one may come again; the same seed draws the same ones. It keeps one of them
/// at a time in memory. Returns early where a visit fails, and when out of memory.
pub fn each_sampled<V: Visitor>(
    alloc: Global,
    script: &Script,
    count: u64,
    size: u32,
    seed: u64,
    visitor: &mut V,
) -> Result<(), VisitFault<V::Error>>
    requires known { script.now ≡ V.script_of visitor.old }
    requires number { count ≡ length (orders script.now) }
    requires fits { count + 1 < 2 ^ 64 }
    ensures same { V.script_of visitor.new ≡ V.script_of visitor.old }
    ensures ok { OnOk result
        (SeesMore V.has_seen visitor.old visitor.new (sampled script.now size seed)) }
{
    let mut generator = Generator::new(seed);
    let mut left = size;
    while left > 0 {
        visit_drawn(alloc, script, count, &mut generator, visitor)?;
        left -= 1;
    }
    Ok(())
}

/// Has the visitor visit the order that is drawn next.
fn visit_drawn<V: Visitor>(
    alloc: Global,
    script: &Script,
    count: u64,
    generator: &mut Generator,
    visitor: &mut V,
) -> Result<(), VisitFault<V::Error>>
    requires known { script.now ≡ V.script_of visitor.old }
    requires number { count ≡ length (orders script.now) }
    requires fits { count + 1 < 2 ^ 64 }
    ensures state { generator.new ≡ state_used count 63 (next_state generator.old) }
    ensures same { V.script_of visitor.new ≡ V.script_of visitor.old }
    ensures ok { OnOk result
        (SeesMore V.has_seen visitor.old visitor.new (drawn_at script.now generator.new ∷ [])) }
{
    let batches = match drawn(alloc, script, count, generator) {
        Ok(batches) => batches,
        Err(AllocError) => return Err(VisitFault::OutOfMemory),
    };
    match visitor.visit(script, batches.as_slice()) {
        Ok(()) => Ok(()),
        Err(error) => Err(VisitFault::Failed(error)),
    }
}

/// Draws the next order.
fn drawn(
    alloc: Global,
    script: &Script,
    count: u64,
    generator: &mut Generator,
) -> Result<Items<Items<Posted>>, AllocError>
    requires number { count ≡ length (orders script.now) }
    requires fits { count + 1 < 2 ^ 64 }
    ensures state { generator.new ≡ state_used count 63 (next_state generator.old) }
    ensures drawn { IfOk result (λ batches. batches ≡ drawn_at script.now generator.new) }
    ensures order { IfOk result (AreOrder script.now) }
{
    let number = generator.below(count);
    match order_of(alloc, script, number) {
        Ok(Some(batches)) => Ok(batches),
        Ok(None) => unreachable!(),
        Err(AllocError) => Err(AllocError),
    }
}
