ghost use Rattle.std.specs.Prelude.{◌≡◌, Some, IfOk, OnOk};
ghost use Rattle.std.specs.Option.{option_map};
ghost use Rattle.dv_definition.specs.Definition as page;
ghost use Rattle.dv_definition.specs.Rule.{Fires, Unpauses, after, ◌next◌};
ghost use Rattle.dv_definition.specs.Steps.{Make, Note, Pause};
ghost use Rattle.dv_definition.specs.Words.{finished, on_deferred};
ghost use Rattle.dv_frames.specs.Bounds.{Bounded};
ghost use Rattle.dv_objects.specs.Pair.{chain};
ghost use Rattle.dv_objects.specs.declared.performed.Performed.TheVariants.{Done};
ghost use Rattle.dv_objects.specs.declared.canceller.Canceller.TheVariants.{Body as CancellerBody};
ghost use Rattle.dv_world.specs.World.{fire};

use crate::cancelling::cancel;
use dv_frames::following::{add_and_settle, fire_and_settle, settle_next};
use dv_frames::frame::Purpose;
use dv_frames::maybe::perform_for;
use dv_frames::turn::Turn;
use dv_journal::deferred_id::DeferredId;
use dv_journal::entry::Entry;
use dv_objects::canceller::Canceller;
use dv_objects::given::Given;
use dv_objects::pair::Pair;
use dv_script::body::Body;
use dv_script::lent::{BodyRef, TextRef};
use dv_value::text::Text;
use dv_value::value::Value;
use dv_world::world::World;
use std::alloc::{AllocError, Global};

/// Notes a text.
pub fn note(turn: &mut Turn<'_>, text: &Text) -> Result<(), AllocError>
    requires done { turn.old.performed ≡ Done }
    ensures { OnOk result (turn.new ≡ after (Note text.now next finished) turn.old) }
{
    let noted = text.copy(turn.alloc)?;
    turn.world.tell(Entry::Note(noted))
}

/// Makes a Deferred, with a canceller where there is one (Twisted: `Deferred(canceller)`).
pub fn make<'s>(
    turn: &mut Turn<'s>,
    name: &'s Text,
    canceller: &'s Option<Body>,
) -> Result<(), AllocError>
    requires bounded { Bounded turn.old.world }
    requires done { turn.old.performed ≡ Done }
    ensures { OnOk result (turn.new ≡ after (Make (Some name.now)
        (option_map CancellerBody canceller.now) next finished) turn.old) }
{
    turn.world
        .make(Some(TextRef::new(name)), canceller_of(canceller))
}

/// Performs a body that is to become a Deferred (Twisted: `maybeDeferred`).
pub fn maybe<'s>(turn: &mut Turn<'s>, name: &'s Text, body: &'s Body) -> Result<(), AllocError>
    requires done { turn.old.performed ≡ Done }
    ensures { OnOk result (turn.new ≡ after (page.maybe name.now body.now) turn.old) }
{
    let purpose = Purpose::Named(TextRef::new(name));
    perform_for(turn, purpose, BodyRef::new(body))
}

/// A canceller of the script, as one of a Deferred.
fn canceller_of<'s>(canceller: &'s Option<Body>) -> Option<Canceller<'s>>
    ensures { result ≡ option_map CancellerBody canceller.now }
{
    match canceller {
        None => None,
        Some(body) => Some(Canceller::Body(BodyRef::new(body))),
    }
}

/// Fires a Deferred by its name (Twisted: `Deferred.callback`, and `Deferred.errback` where the
/// value is a failure).
pub fn fire<'s>(
    turn: &mut Turn<'s>,
    itself: Option<DeferredId>,
    name: &str,
    given: Given<'s>,
) -> Result<(), AllocError>
    requires done { turn.old.performed ≡ Done }
    ensures { OnOk result
        (turn.new ≡ after (on_deferred itself name.now λ d. Fires d given.entry) turn.old) }
{
    let Some(id) = turn.find(itself, name)? else {
        drop(given);
        return Ok(());
    };
    let kept = value_to_fire_with(turn.alloc, &turn.world, id, given)?;
    fire_and_settle(turn, id, kept)
}

/// The value that a Deferred is to be fired with; null if the firing is refused or swallowed, since
/// no value is kept then.
#[tactic(auto, using(crate::proofs::FireLemmas::fires_alike))]
fn value_to_fire_with<'s>(
    alloc: Global,
    world: &World<'s>,
    id: DeferredId,
    given: Given<'s>,
) -> Result<Value, AllocError>
    ensures { IfOk result (λ kept. fire id kept world.now ≡ fire id given.entry world.now) }
{
    if world.is_unfired(id) {
        given.make(alloc)
    } else {
        drop(given);
        Ok(Value::Null)
    }
}

/// Adds a pair to a Deferred by its name (Twisted: `Deferred.addCallbacks`).
pub fn add<'s>(
    turn: &mut Turn<'s>,
    itself: Option<DeferredId>,
    name: &str,
    pair: Pair<'s>,
) -> Result<(), AllocError>
    requires done { turn.old.performed ≡ Done }
    ensures { OnOk result
        (turn.new ≡ after (on_deferred itself name.now λ d. page.add d pair.entry) turn.old) }
{
    let Some(id) = turn.find(itself, name)? else {
        drop(pair);
        return Ok(());
    };
    add_and_settle(turn, id, pair)
}

/// Adds a pair to a Deferred that fires another, both by their names (Twisted:
/// `Deferred.chainDeferred`).
pub fn chain<'s>(
    turn: &mut Turn<'s>,
    itself: Option<DeferredId>,
    name: &str,
    other: &str,
) -> Result<(), AllocError>
    requires done { turn.old.performed ≡ Done }
    ensures { OnOk result (turn.new ≡ after (on_deferred itself name.now λ d.
        on_deferred itself other.now λ e. page.add d (chain e)) turn.old) }
{
    let bound = &itself;
    let Some(id) = turn.find(*bound, name)? else {
        return Ok(());
    };
    chain_found(turn, id, bound, other)
}

/// Adds a pair to a Deferred that fires another, which is given by its name.
fn chain_found<'s>(
    turn: &mut Turn<'s>,
    id: DeferredId,
    itself: &Option<DeferredId>,
    other: &str,
) -> Result<(), AllocError>
    requires done { turn.old.performed ≡ Done }
    ensures { OnOk result
        (turn.new ≡ after (on_deferred itself.now other.now λ e. page.add id (chain e)) turn.old) }
{
    let Some(to) = turn.find(*itself, other)? else {
        return Ok(());
    };
    add_and_settle(turn, id, Pair::chain(to))
}

/// Pauses a Deferred by its name (Twisted: `Deferred.pause`).
#[tactic(auto, using(crate::proofs::BoundsLemmas::pauses_within))]
pub fn pause<'s>(
    turn: &mut Turn<'s>,
    itself: Option<DeferredId>,
    name: &str,
) -> Result<(), AllocError>
    requires bounded { Bounded turn.old.world }
    requires done { turn.old.performed ≡ Done }
    ensures { OnOk result
        (turn.new ≡ after (on_deferred itself name.now λ d. Pause d next finished) turn.old) }
{
    let Some(id) = turn.find(itself, name)? else {
        return Ok(());
    };
    turn.world.pause(id)
}

/// Unpauses a Deferred by its name (Twisted: `Deferred.unpause`).
pub fn unpause<'s>(
    turn: &mut Turn<'s>,
    itself: Option<DeferredId>,
    name: &str,
) -> Result<(), AllocError>
    requires done { turn.old.performed ≡ Done }
    ensures { OnOk result (turn.new ≡ after (on_deferred itself name.now Unpauses) turn.old) }
{
    let Some(id) = turn.find(itself, name)? else {
        return Ok(());
    };
    let unpaused = turn.world.unpause(id)?;
    settle_next(turn, id, unpaused)
}

/// Cancels a Deferred by its name (Twisted: `Deferred.cancel`).
pub fn cancel_named<'s>(
    turn: &mut Turn<'s>,
    itself: Option<DeferredId>,
    name: &str,
) -> Result<(), AllocError>
    requires done { turn.old.performed ≡ Done }
    ensures { OnOk result (turn.new ≡ after (on_deferred itself name.now page.cancel) turn.old) }
{
    let Some(id) = turn.find(itself, name)? else {
        return Ok(());
    };
    cancel(turn, id)
}
