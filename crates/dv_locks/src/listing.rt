ghost use Rattle.std.specs.Prelude.{◌≡◌, ◌++◌, [], length, Some, OnOk};
ghost use Rattle.dv_frames.specs.Bounds.{Bounded};
ghost use Rattle.dv_definition.specs.Definition as page;
ghost use Rattle.dv_definition.specs.Rule.{after, ◌next◌};
ghost use Rattle.dv_definition.specs.Steps.{Make, NewList};
ghost use Rattle.dv_definition.specs.Words.{calls, fire_if, on_all};
ghost use Rattle.dv_definition.specs.Flags.{list_flags, gather_flags};
ghost use Rattle.dv_objects.specs.declared.canceller.Canceller.TheVariants.{Children};
ghost use Rattle.dv_objects.specs.declared.performed.Performed.TheVariants.{Done};
ghost use Rattle.dv_value.specs.declared.value.Value.TheVariants.{List as ListValue};

use crate::flags::{gather_flags, list_flags};
use dv_frames::following::{fire_and_settle, unbound};
use dv_frames::frame::Frame;
use dv_frames::frames::Frames;
use dv_frames::turn::Turn;
use dv_journal::deferred_id::DeferredId;
use dv_objects::canceller::Canceller;
use dv_objects::given::Given;
use dv_objects::pair::{Child, Pair};
use dv_objects::performed::Performed;
use dv_objects::refusals::not_gathered;
use dv_prims::gather::{AfterChild, Flags, seconds};
use dv_prims::list_id::ListId;
use dv_script::action::{GatherFlag, ListFlag};
use dv_script::lent::TextRef;
use dv_value::boxed::Boxed;
use dv_value::items::Items;
use dv_value::text::Text;
use dv_value::value::Value;
use dv_world::found::{Found, find_all};
use std::alloc::AllocError;

/// Makes a DeferredList of children, all by their names (Twisted: `DeferredList`).
pub fn list<'s>(
    turn: &mut Turn<'s>,
    itself: Option<DeferredId>,
    name: &'s Text,
    children: &'s Items<Text>,
    flags: &[ListFlag],
) -> Result<(), AllocError>
    requires bounded { Bounded turn.old.world }
    requires done { turn.old.performed ≡ Done }
    ensures { OnOk result (turn.new ≡ after
        (on_all itself children.now λ ds. page.list name.now ds (list_flags flags.now)) turn.old) }
{
    match find_all(turn.alloc, &turn.world, &itself, children.as_slice())? {
        Found::Unbound(name) => unbound(turn, name.as_str()),
        Found::All(children) => {
            let flags = list_flags(flags);
            make(turn, TextRef::new(name), children, flags)
        }
    }
}

/// Makes a DeferredList of children, all by their names, whose result becomes what they gave
/// (Twisted: `gatherResults`).
#[tactic(auto, using(dv_frames::proofs::BoundsLemmas::records_within))]
pub fn gather<'s>(
    turn: &mut Turn<'s>,
    itself: Option<DeferredId>,
    name: &'s Text,
    children: &'s Items<Text>,
    flags: &[GatherFlag],
) -> Result<(), AllocError>
    requires bounded { Bounded turn.old.world }
    requires done { turn.old.performed ≡ Done }
    ensures { OnOk result (turn.new ≡ after (on_all itself children.now λ ds.
        page.gather name.now ds (gather_flags flags.now)) turn.old) }
{
    match find_all(turn.alloc, &turn.world, &itself, children.as_slice())? {
        Found::Unbound(name) => unbound(turn, name.as_str()),
        Found::All(children) => {
            turn.stack
                .push(Frame::Add(turn.world.next_id(), Pair::results()))?;
            let flags = gather_flags(flags);
            make(turn, TextRef::new(name), children, flags)
        }
    }
}

/// Makes a DeferredList of children, each of which is to get its pair.
#[tactic(auto, using(dv_frames::proofs::BoundsLemmas::records_within))]
fn make<'s>(
    turn: &mut Turn<'s>,
    name: TextRef<'s>,
    children: Items<DeferredId>,
    flags: Flags,
) -> Result<(), AllocError>
    requires bounded { Bounded turn.old.world }
    requires done { turn.old.performed ≡ Done }
    ensures { OnOk result (turn.new ≡ after (page.list name.entry children flags) turn.old) }
{
    let id = turn.world.next_id();
    let at_once = has_all_at_once(children.as_slice(), flags);
    make_unfired(turn, id, name, children, flags)?;
    fire_at_once(turn, id, at_once)
}

/// Whether a DeferredList fires at once: it has no children, and doesn't wait for one that
/// succeeds.
fn has_all_at_once(children: &[DeferredId], flags: Flags) -> bool
    ensures { result ≡ page.has_all_at_once children.now flags }
{
    children.is_empty() && !flags.fire_on_one_callback
}

/// Makes a DeferredList and its Deferred, unfired; the pairs of its children are to be added.
#[tactic(auto, using(dv_frames::proofs::BoundsLemmas::arranged_within))]
fn make_unfired<'s>(
    turn: &mut Turn<'s>,
    id: DeferredId,
    name: TextRef<'s>,
    children: Items<DeferredId>,
    flags: Flags,
) -> Result<(), AllocError>
    requires bounded { Bounded turn.old.world }
    requires done { turn.old.performed ≡ Done }
    ensures { OnOk result (turn.new ≡ after
        (NewList (length children) flags next Make (Some name.entry) (Some (Children children)) next
        calls (page.add_children (length turn.old.world.objects.lists) id 0 children)) turn.old) }
{
    let list = turn.world.make_list(children.as_slice().len(), flags)?;
    add_to_children(&mut turn.stack, list, id, children.as_slice())?;
    let children = Boxed::new(turn.alloc, children)?;
    turn.world
        .make(Some(name), Some(Canceller::Children(children)))
}

/// A pair is to be added to each child, in order, by which it reports to a DeferredList. AllocError
/// if there are more than numbers of 32 bits.
fn add_to_children<'s>(
    stack: &mut Frames<'s>,
    list: ListId,
    of: DeferredId,
    children: &[DeferredId],
) -> Result<(), AllocError>
    ensures { OnOk result (stack.new ≡ page.add_children list of 0 children.now ++ stack.old) }
{
    if children.len() > u32::MAX as usize {
        return Err(AllocError);
    }
    for place in (0..children.len()).rev() {
        let child = Child {
            list,
            place: place as u32,
            of,
        };
        stack.push(Frame::Add(children[place], Pair::reporting(child)))?;
    }
    Ok(())
}

/// Fires a DeferredList that has all at once with nothing.
fn fire_at_once<'s>(turn: &mut Turn<'s>, id: DeferredId, at_once: bool) -> Result<(), AllocError>
    requires done { turn.old.performed ≡ Done }
    ensures { OnOk result (turn.new ≡ after (fire_if at_once id (ListValue [])) turn.old) }
{
    if !at_once {
        return Ok(());
    }
    let none = Value::list(turn.alloc, Items::new(turn.alloc))?;
    fire_and_settle(turn, id, none)
}

/// A child of a DeferredList fired with this value, which may fire the list; then the child goes on
/// with what the list leaves it (Twisted: `DeferredList._cbDeferred`).
pub fn child_fired<'s>(turn: &mut Turn<'s>, child: Child, value: Value) -> Result<(), AllocError>
    requires done { turn.old.performed ≡ Done }
    ensures { OnOk result (turn.new ≡ after (page.report child value) turn.old) }
{
    let AfterChild { fire, pass } = turn.world.child_fired(child.list, child.place, value)?;
    let give = Frame::Give(Performed::Gave(Given::own(pass)));
    if turn.stack.push(give).is_err() {
        drop(fire);
        return Err(AllocError);
    }
    fire_by_child(turn, child.of, fire)
}

/// Fires a DeferredList with what is due, unless it is fired already.
fn fire_by_child<'s>(
    turn: &mut Turn<'s>,
    id: DeferredId,
    due: Option<Value>,
) -> Result<(), AllocError>
    requires done { turn.old.performed ≡ Done }
    ensures { OnOk result (turn.new ≡ after (page.fire_list id due) turn.old) }
{
    let Some(value) = due else {
        return Ok(());
    };
    if !turn.world.is_unfired(id) {
        drop(value);
        return Ok(());
    }
    fire_and_settle(turn, id, value)
}

/// What the children of a DeferredList gave, from its result. TypeError where the value is no such
/// result.
pub fn results<'s>(turn: &mut Turn<'s>, value: Value) -> Result<(), AllocError>
    requires done { turn.old.performed ≡ Done }
    ensures { OnOk result (turn.new ≡ after (page.give_gathered value) turn.old) }
{
    let seconds = seconds(turn.alloc, &value);
    drop(value);
    match seconds? {
        None => {
            turn.performed = not_gathered(turn.alloc)?;
            Ok(())
        }
        Some(seconds) => {
            turn.performed = Performed::Gave(Given::own(seconds));
            Ok(())
        }
    }
}
