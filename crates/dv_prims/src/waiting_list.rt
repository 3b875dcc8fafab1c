ghost use Rattle.std.specs.Prelude.{◌≡◌, ◌-◌, ◌↔◌, IsTrue, IfOk, OnOk, OnErr, [], ◌∷◌, ◌++◌};
ghost use Rattle.std.specs.Prelude.{length, slice_get, take, drop};

use dv_journal::deferred_id::DeferredId;
use dv_journal::entry::Entry;
use dv_journal::error::Stop;
use dv_journal::journal::Journal;
use dv_value::items::Items;
use std::alloc::{AllocError, Global};
use std::collections::{BTreeMap, BTreeSet};
use std::marker::Model;

/// The waiters, in order of asking, which contracts see as their numbers, from the one that has
/// waited longest. One that asks twice waits twice.
///
/// Each has a ticket, whose number grows with each that is given. The first waiter, and the first
/// ticket of any number, is found without a walk.
#[derive(Drop)]
pub struct WaitingList {
    order: BTreeMap<u64, u32>,
    tickets: BTreeSet<(u32, u64)>,
    given: u64,
}

impl Model for WaitingList {
    ghost use Rattle.std.specs.Prelude.{List, ℕ};
    ghost use Rattle.dv_prims.specs.Tickets.{IsKept, waiting_of};

    ghost Value = { List ℕ };

    ghost view = { λ w. waiting_of w.order.entries };

    ghost invariant = { λ w. IsKept w.order w.tickets w.given };
}

impl WaitingList {
    ghost use Rattle.dv_prims.specs.Tokens.{is_waiting, without};

    /// Nobody waits. It takes no memory before the first does.
    pub fn new(alloc: Global) -> WaitingList
        ensures { result ≡ [] }
    {
        WaitingList {
            order: BTreeMap::new(alloc),
            tickets: BTreeSet::new(alloc),
            given: 0,
        }
    }

    /// Whether nobody waits.
    pub fn is_empty(&self) -> bool
        ensures { IsTrue result ↔ (self.now ≡ []) }
    {
        self.order.is_empty()
    }

    /// How many wait.
    pub fn len(&self) -> usize
        ensures { result ≡ length self.now }
    {
        self.order.len()
    }

    /// The one that has waited longest.
    pub fn first(&self) -> Option<DeferredId>
        ensures { result ≡ slice_get self.now 0 }
    {
        match self.order.first_key_value() {
            Some((_, number)) => Some(DeferredId::new(*number)),
            None => None,
        }
    }

    /// All waiters, from the one that has waited longest.
    pub fn into_items(self, alloc: Global) -> Result<Items<DeferredId>, AllocError>
        ensures { IfOk result (λ items. items ≡ self) }
    {
        let mut items = Items::new(alloc);
        for number in self.order.into_values() {
            items.push(DeferredId::new(number))?;
        }
        Ok(items)
    }

    /// A Deferred waits, last. Where the allocation fails, or as the 2^64th of this list, it
    /// doesn't.
    pub fn push_back(&mut self, id: DeferredId) -> Result<(), AllocError>
        ensures ok { OnOk result (self.new ≡ self.old ++ id ∷ []) }
        ensures err { OnErr result (self.new ≡ self.old) }
    {
        let Some(given) = self.given.checked_add(1) else {
            return Err(AllocError);
        };
        keep(&mut self.order, &mut self.tickets, self.given, id.number())?;
        self.given = given;
        Ok(())
    }

    /// Takes the one that has waited longest.
    pub fn pop_front(&mut self) -> Option<DeferredId>
        ensures value { result ≡ slice_get self.old 0 }
        ensures rest { self.new ≡ drop 1 self.old }
    {
        let (ticket, number) = self.order.pop_first()?;
        self.tickets.remove(&(number, ticket));
        Some(DeferredId::new(number))
    }

    /// The last in line waits no longer, if there is one.
    pub fn drop_back(&mut self)
        ensures { self.new ≡ take (length self.old - 1) self.old }
    {
        if let Some((ticket, number)) = self.order.pop_last() {
            self.tickets.remove(&(number, ticket));
        }
    }

    /// A Deferred waits no longer, or once less where it waits more than once, and whether it
    /// waited is answered.
    pub fn remove(&mut self, id: DeferredId) -> bool
        ensures waited { result ≡ is_waiting id self.old }
        ensures rest { self.new ≡ without id self.old }
    {
        let number = id.number();
        let Some(ticket) = first_ticket(&self.tickets, number) else {
            return false;
        };
        self.tickets.remove(&(number, ticket));
        self.order.remove(&ticket);
        true
    }
}

ghost use Rattle.dv_prims.specs.Tickets.{IsFirstTicket};

/// The first ticket of a Deferred, if it has one.
fn first_ticket(tickets: &BTreeSet<(u32, u64)>, number: u32) -> Option<u64>
    ensures { IsFirstTicket tickets.now number result }
{
    let (holder, ticket) = tickets.range((number, 0)..).next()?;
    if *holder == number {
        Some(*ticket)
    } else {
        None
    }
}

ghost use Rattle.std.specs.Prelude.{true, false};
ghost use Rattle.std.specs.BTreeMap.{insert_entry, IsOrdered};
ghost use Rattle.std.specs.BTreeSet.{contains};
ghost use Rattle.std.specs.Ordering.{nat_cmp};
ghost use Rattle.dv_prims.specs.Tickets.{by_number, Gives, Joins, Keeps};

/// Keeps a new ticket, with its waiter. If the allocation fails, it isn't kept.
fn keep(
    order: &mut BTreeMap<u64, u32>,
    tickets: &mut BTreeSet<(u32, u64)>,
    ticket: u64,
    number: u32,
) -> Result<(), AllocError>
    requires new { contains by_number tickets.old (number, ticket) ≡ false }
    ensures ordered { OnOk result
        (order.new.entries ≡ insert_entry nat_cmp order.old.entries ticket number) }
    ensures ascends { OnOk result (IsOrdered nat_cmp order.new) }
    ensures holds { OnOk result (Gives order.old order.new ticket number) }
    ensures found { OnOk result (Joins tickets.old tickets.new (number, ticket)) }
    ensures same_order { OnErr result (order.new.entries ≡ order.old.entries) }
    ensures same_found { OnErr result (Keeps tickets.old tickets.new) }
{
    let Ok(_) = tickets.insert((number, ticket)) else {
        return Err(AllocError);
    };
    let Ok(_) = order.insert(ticket, number) else {
        tickets.remove(&(number, ticket));
        return Err(AllocError);
    };
    Ok(())
}

ghost use Rattle.dv_journal.specs.Journal.{fits, with_entry};

/// A Deferred joins those that wait, and that is logged. Where the allocation fails, it doesn't.
#[tactic(auto, using(crate::proofs::WaitingLemmas::item_taken_back))]
pub fn join(
    journal: &mut Journal,
    entry: Entry,
    waiting: &mut WaitingList,
    id: DeferredId,
) -> Result<(), AllocError>
    requires room { fits journal.old entry ≡ true }
    ensures joined { OnOk result (waiting.new ≡ waiting.old ++ id ∷ []) }
    ensures written { OnOk result (journal.new ≡ with_entry journal.old entry) }
    ensures kept { OnErr result (waiting.new ≡ waiting.old) }
    ensures err { OnErr result (journal.new ≡ journal.old) }
{
    if waiting.push_back(id).is_err() {
        entry.discard();
        return Err(AllocError);
    }
    match journal.write(entry) {
        Ok(()) => Ok(()),
        Err(Stop::Limit) => unreachable!(),
        Err(Stop::OutOfMemory) => {
            waiting.drop_back();
            Err(AllocError)
        }
    }
}
