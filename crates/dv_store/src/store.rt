ghost use Rattle.std.specs.Prelude.{◌≡◌, ◌↔◌, ◌+◌, ◌≤◌, true, false, [], ◌<◌, ◌^◌, ◌-◌, length};
ghost use Rattle.std.specs.Prelude.{slice_get, vec_len, vec_capacity, IfOk, OnOk, OnErr, IsErrOf};
ghost use Rattle.std.specs.Option.{option_copied};
ghost use Rattle.dv_journal.specs.Journal.{fits, with_entry};
ghost use Rattle.dv_store.specs.Callbacks.{is_ready};
ghost use Rattle.dv_store.specs.Chaining.{is_pending};
ghost use Rattle.dv_journal.specs.declared.entry.Entry.TheVariants.{New};

use crate::boxed_deque::BoxedDeque;
use crate::error::{AlreadyCalled, FireFault, NotPaused, UnpauseFault};
use crate::record::{Item, Record};
use crate::sides::Sides;
use crate::telling::{tell_fire, tell_hand, tell_set, tell_take};
use dv_journal::deferred_id::DeferredId;
use dv_journal::entry::Entry;
use dv_journal::error::{Fault, Stop};
use dv_journal::journal::Journal;
use dv_value::text::Text;
use dv_value::value::Value;
use std::alloc::{AllocError, Global};
use std::marker::Model;
use std::mem;

/// What one step of a Deferred did.
#[derive(Debug, Drop)]
pub enum Step<P> {
    /// There is nothing to do for now.
    Nothing,
    /// The first pair had no side for the value, and is used up.
    Passed,
    /// The first pair is taken out, and its side for the value is to be run.
    Run(P),
    /// The value is handed over to this Deferred, which waits no longer and is to be settled before
    /// this one goes on.
    Handed(DeferredId),
}

/// What became of a firing that wasn't refused.
#[derive(Clone, Copy, Debug, PartialEq, Eq)]
pub enum Fired {
    /// The Deferred has the value.
    Set,
    /// The Deferred was fired already, and the value is dropped, since a cancel has asked for that.
    Swallowed,
}

/// What became of a side that gave a Deferred.
#[derive(Clone, Copy, Debug, PartialEq, Eq)]
pub enum Placed {
    /// The given Deferred's value was taken at once.
    Taken,
    /// The value comes when the given Deferred hands it over.
    Waits,
}

/// The records of all Deferreds, in order of making.
///
/// An id that isn't of this store means nothing to it: no call changes anything for it, `record`
/// answers None, `step` answers Nothing, `fire` answers Set, `put_deferred` answers Waits,
/// `end_of_chain` answers the id, and the others answer Ok.
#[derive(Drop)]
pub struct Store<P, K> {
    alloc: Global,
    records: Vec<Record<P, K>>,
}

impl<P, K> Model for Store<P, K> {
    ghost use Rattle.std.specs.Prelude.{List};
    ghost use Rattle.std.specs.Coded.{codes};
    ghost use Rattle.dv_value.specs.contracts.value.Value as value;
    ghost use Rattle.dv_store.specs.declared.record.Record.{Record};

    ghost Value = { List (Record P K) };

    ghost coded = { Prim.hlevel (codes, P.code, K.code, value.the_row.coded) };

    ghost view = { λ s. s.records.items };
}

impl<P: Sides + Drop, K: Drop> Store<P, K> {
    ghost use Rattle.dv_store.specs.Record.{make, log_name, append, changing, with_item};
    ghost use Rattle.dv_store.specs.Record.{without_last};
    ghost use Rattle.dv_store.specs.Fire.{fire, fire_again_found, with_firing, with_swallows};
    ghost use Rattle.dv_store.specs.Fire.{FiresUnlessMemory};
    ghost use Rattle.dv_store.specs.Callbacks.{step, first_of, is_pair, run_found, without_first};
    ghost use Rattle.dv_store.specs.Callbacks.{hand_found, put, with_handed, with_result};
    ghost use Rattle.dv_store.specs.Cancelling.{swallow_next, link, end_of_chain};
    ghost use Rattle.dv_store.specs.Chaining.{put_deferred, with_wait, waiting, taking, value_at};
    ghost use Rattle.dv_store.specs.Pausing.{pauses_of, with_pauses, pause, unpause};
    ghost use Rattle.dv_store.specs.Pausing.{UnpausesUnlessMemory};
    ghost use Rattle.dv_journal.specs.Telling.{UnlessMemory, telling};
    ghost use Rattle.dv_store.specs.declared.store.Placed.TheVariants.{Taken, Waits};
    ghost use Rattle.dv_journal.specs.declared.entry.Entry.TheVariants.{Wait, Take};

    /// No records. It takes no memory before the first Deferred is made.
    pub fn new(alloc: Global) -> Store<P, K>
        ensures { result ≡ [] }
    {
        Store {
            alloc,
            records: Vec::new(alloc),
        }
    }

    /// No records, with room for this many where that isn't refused. A page of the room takes memory
    /// once it is written to.
    pub fn with_capacity(alloc: Global, capacity: usize) -> Store<P, K>
        ensures { result ≡ [] }
    {
        match Vec::with_capacity(alloc, capacity) {
            Ok(records) => Store { alloc, records },
            Err(AllocError) => Store::new(alloc),
        }
    }

    /// How many Deferreds there are.
    pub fn len(&self) -> usize
        ensures { result ≡ length self.now }
    {
        self.records.len()
    }

    /// The record of a Deferred; None for an id that isn't of this store.
    pub fn record(&self, id: DeferredId) -> Option<&Record<P, K>>
        ensures { option_copied result ≡ slice_get self.now id }
    {
        self.records.get(id.number() as usize)
    }

    /// Makes an unfired Deferred without pairs, and gives it the next number (Twisted: `Deferred`).
    ///
    /// Where it is refused, its name and its canceller are dropped.
    pub fn make(
        &mut self,
        journal: &mut Journal,
        name: Option<Text>,
        canceller: Option<K>,
    ) -> Result<DeferredId, Stop>
        requires room { length self.old < 2 ^ 32 - 1 }
        ensures { UnlessMemory result (self.old, journal.old) (self.new, journal.new)
            (make name canceller (self.old, journal.old)) }
    {
        let id = DeferredId::new(self.len() as u32);
        reserve_and_tell(self.alloc, journal, &mut self.records, id, &name)?;
        let record = Record {
            name,
            fired: false,
            value: Value::Null,
            items: BoxedDeque::new(),
            pauses: 0,
            waits_for: None,
            running: false,
            swallows: false,
            canceller,
        };
        self.records.push(record).unwrap();
        Ok(id)
    }

    /// Logs one more name of a Deferred. Its record keeps the name of its making.
    pub fn log_name(&self, journal: &mut Journal, id: DeferredId, name: Text) -> Result<(), Stop>
        ensures { UnlessMemory result (self.now, journal.old) (self.now, journal.new)
            (log_name id name (self.now, journal.old)) }
    {
        journal.write(Entry::Name(id, Some(name)))
    }

    /// Adds a pair after the others, and uses none (Twisted: `Deferred.addCallbacks`, which also
    /// runs what it can).
    ///
    /// Where it is refused, the pair is dropped.
    #[tactic(auto, using(crate::proofs::StoreLemmas::put_back))]
    pub fn append(&mut self, journal: &mut Journal, id: DeferredId, pair: P) -> Result<(), Stop>
        ensures { UnlessMemory result (self.old, journal.old) (self.new, journal.new)
            (append id pair (self.old, journal.old)) }
    {
        if id.number() as usize >= self.records.len() {
            return Ok(());
        }
        if !journal.fits_plain() {
            return Err(Stop::Limit);
        }
        self.push_item(id, Item::Pair(pair))?;
        if let Err(stop) = journal.write(Entry::Add(id)) {
            self.drop_last(id);
            return Err(stop);
        }
        Ok(())
    }

    /// Adds an item after the others.
    fn push_item(&mut self, id: DeferredId, item: Item<P>) -> Result<(), AllocError>
        requires within { id < length self.old }
        ensures ok { OnOk result (self.new ≡ changing id (with_item item) self.old) }
        ensures err { OnErr result (self.new ≡ self.old) }
    {
        let alloc = self.alloc;
        self.records[id.number() as usize]
            .items
            .push_back(alloc, item)
    }

    /// Drops the item that was added last.
    fn drop_last(&mut self, id: DeferredId)
        ensures { self.new ≡ changing id without_last self.old }
    {
        if let Some(record) = self.records.get_mut(id.number() as usize) {
            record.items.drop_back();
        }
    }

    /// Fires a Deferred, with a failure too, and uses no pair (Twisted: `Deferred.callback` and
    /// `Deferred.errback`, which also run what they can). A Deferred that is fired already keeps
    /// its value, and the new value is dropped: `refuse` is logged, or `swallow` if this firing is
    /// one to be swallowed, which the next one isn't.
    pub fn fire(
        &mut self,
        journal: &mut Journal,
        id: DeferredId,
        value: Value,
    ) -> Result<Fired, FireFault>
        ensures { FiresUnlessMemory result (self.old, journal.old) (self.new, journal.new)
            (fire id value (self.old, journal.old)) }
    {
        let Some(record) = self.record(id) else {
            drop(value);
            return Ok(Fired::Set);
        };
        if record.fired {
            drop(value);
            return self.fire_again(journal, id);
        }
        if let Err(stop) = tell_fire(self.alloc, journal, id, &value) {
            drop(value);
            return Err(stop.into());
        }
        self.set_fired(id, value);
        Ok(Fired::Set)
    }

    /// Fires a Deferred that is fired already: the firing is swallowed, and the next one isn't, or
    /// it is refused.
    fn fire_again(&mut self, journal: &mut Journal, id: DeferredId) -> Result<Fired, FireFault>
        requires within { id < length self.old }
        ensures { FiresUnlessMemory result (self.old, journal.old) (self.new, journal.new)
            (fire_again_found id (slice_get self.old id) (self.old, journal.old)) }
    {
        let record = &self.records[id.number() as usize];
        if !record.swallows {
            journal.write(Entry::Refuse(id))?;
            return Err(Fault::Refused(AlreadyCalled));
        }
        journal.write(Entry::Swallow(id))?;
        self.set_swallows(id, false);
        Ok(Fired::Swallowed)
    }

    /// The next firing of a Deferred that is fired already is swallowed (Twisted:
    /// `_suppressAlreadyCalled`, which `Deferred.cancel` sets if there is no canceller). It logs
    /// nothing.
    pub fn swallow_next(&mut self, id: DeferredId)
        ensures { self.new ≡ swallow_next id self.old }
    {
        self.set_swallows(id, true);
    }

    /// Whether the next firing of a Deferred after its first is swallowed.
    fn set_swallows(&mut self, id: DeferredId, swallows: bool)
        ensures { self.new ≡ changing id (with_swallows swallows) self.old }
    {
        if let Some(record) = self.records.get_mut(id.number() as usize) {
            record.swallows = swallows;
        }
    }

    /// A Deferred is fired, and has the value that it was fired with.
    fn set_fired(&mut self, id: DeferredId, value: Value)
        ensures { self.new ≡ changing id (with_firing value) self.old }
    {
        let Some(record) = self.records.get_mut(id.number() as usize) else {
            return drop(value);
        };
        record.fired = true;
        drop(mem::replace(&mut record.value, value));
    }

    /// The first Deferred that doesn't wait, from this one on along those that are waited for; None
    /// where the walk reaches one for a second time (Twisted: `Deferred.cancel`, which follows
    /// `_chainedTo`). It takes as many steps as there are on the walk, or three times as many on
    /// one that comes back.
    #[tactic(auto, using(crate::proofs::ChainLemmas::leads_nowhere, crate::proofs::ChainLemmas::leads_on, crate::proofs::ChainLemmas::ends_here, crate::proofs::ChainLemmas::goes_on, crate::proofs::ChainLemmas::comes_back, crate::proofs::ChainLemmas::no_more))]
    pub fn end_of_chain(&self, id: DeferredId) -> Option<DeferredId>
        ensures { result ≡ end_of_chain id self.now }
    {
        let mut here = id;
        let mut mark = id;
        let mut until = 1;
        let mut links = 0;
        while links <= self.records.len() {
            let Some(next) = self.link(here) else {
                return Some(here);
            };
            if next == mark {
                return None;
            }
            here = next;
            links += 1;
            if links == until {
                mark = here;
                until = links.saturating_mul(2);
            }
        }
        None
    }

    /// The Deferred that one waits for.
    fn link(&self, id: DeferredId) -> Option<DeferredId>
        ensures { result ≡ link self.now id }
    {
        self.record(id)?.waits_for
    }

    /// Uses the first unused item of a Deferred, where it is fired, no side of it runs, it isn't
    /// paused and it waits for no other.
    ///
    /// After `Run` the side is the caller's to run, on the record's value, and `put` or
    /// `put_deferred` ends it. After `Handed` this Deferred's value is `Null`. Where it is refused,
    /// the item isn't used.
    #[tactic(auto, unfolding(crate::specs::Callbacks::step))]
    pub fn step(&mut self, journal: &mut Journal, id: DeferredId) -> Result<Step<P>, Stop>
        ensures { UnlessMemory result (self.old, journal.old) (self.new, journal.new)
            (step P.passes_at id (self.old, journal.old)) }
    {
        let Some(record) = self.record(id) else {
            return Ok(Step::Nothing);
        };
        if !is_ready(record) {
            return Ok(Step::Nothing);
        }
        match record.items.front() {
            None => Ok(Step::Nothing),
            Some(Item::Pair(pair)) => {
                if pair.passes(record.value.is_fault()) {
                    self.drop_first(id);
                    return Ok(Step::Passed);
                }
                self.run_first(journal, id)
            }
            Some(Item::HandOver(to)) => {
                let to = *to;
                self.hand_over(journal, id, to)
            }
        }
    }

    /// The first item of a Deferred is used up.
    fn drop_first(&mut self, id: DeferredId)
        ensures { self.new ≡ changing id without_first self.old }
    {
        if let Some(record) = self.records.get_mut(id.number() as usize) {
            let _ = record.items.take_front();
        }
    }

    /// Takes out the first item of a Deferred, which is a pair, and whose side runs from now on.
    fn run_first(&mut self, journal: &mut Journal, id: DeferredId) -> Result<Step<P>, Stop>
        requires within { id < length self.old }
        requires pair { is_pair (first_of id self.old) ≡ true }
        ensures { UnlessMemory result (self.old, journal.old) (self.new, journal.new)
            (run_found id (slice_get self.old id) (self.old, journal.old)) }
    {
        let place = id.number() as usize;
        journal.write(Entry::Run(id))?;
        let record = &mut self.records[place];
        record.running = true;
        match record.items.take_front() {
            Some(Item::Pair(pair)) => Ok(Step::Run(pair)),
            Some(Item::HandOver(_)) | None => unreachable!(),
        }
    }

    /// Uses up the first item of a Deferred, which hands its value over to another.
    fn hand_over(
        &mut self,
        journal: &mut Journal,
        id: DeferredId,
        to: DeferredId,
    ) -> Result<Step<P>, Stop>
        requires within { id < length self.old }
        ensures { UnlessMemory result (self.old, journal.old) (self.new, journal.new)
            (hand_found id to (slice_get self.old id) (self.old, journal.old)) }
    {
        let place = id.number() as usize;
        tell_hand(self.alloc, journal, id, to, &self.records[place].value)?;
        let record = &mut self.records[place];
        let _ = record.items.take_front();
        let value = mem::replace(&mut record.value, Value::Null);
        self.set_handed(to, value);
        Ok(Step::Handed(to))
    }

    /// Ends the running side of a Deferred with what it gave, a plain result or a failure, which
    /// becomes the value.
    ///
    /// Where it is refused, the side runs on, and what it gave is dropped.
    pub fn put(&mut self, journal: &mut Journal, id: DeferredId, value: Value) -> Result<(), Stop>
        ensures { UnlessMemory result (self.old, journal.old) (self.new, journal.new)
            (put id value (self.old, journal.old)) }
    {
        if id.number() as usize >= self.records.len() {
            drop(value);
            return Ok(());
        }
        if let Err(stop) = tell_set(self.alloc, journal, id, &value) {
            drop(value);
            return Err(stop);
        }
        self.set_result(id, value);
        Ok(())
    }

    /// Ends the running side of a Deferred with another that it gave, itself too: its value is
    /// taken, which leaves it `Null`, or the Deferred waits for it, where it is itself, unfired,
    /// paused or waiting (Twisted: `Deferred._runCallbacks`, which chains the two).
    ///
    /// Where it is refused, the side runs on.
    #[tactic(auto, unfolding(crate::specs::Chaining::put_deferred))]
    pub fn put_deferred(
        &mut self,
        journal: &mut Journal,
        id: DeferredId,
        given: DeferredId,
    ) -> Result<Placed, Stop>
        ensures { UnlessMemory result (self.old, journal.old) (self.new, journal.new)
            (put_deferred id given (self.old, journal.old)) }
    {
        let Some(_) = self.record(id) else {
            return Ok(Placed::Waits);
        };
        let Some(record) = self.record(given) else {
            return Ok(Placed::Waits);
        };
        if is_pending(id, given, record) {
            self.wait_for(journal, id, given)
        } else {
            self.take_from(journal, id, given)
        }
    }

    /// The given Deferred is to hand its value over.
    #[tactic(auto, using(crate::proofs::StoreLemmas::put_back))]
    fn wait_for(
        &mut self,
        journal: &mut Journal,
        id: DeferredId,
        given: DeferredId,
    ) -> Result<Placed, Stop>
        requires within { given < length self.old }
        ensures { UnlessMemory result (self.old, journal.old) (self.new, journal.new)
            (telling (Wait id given) Waits (waiting id given self.old) (self.old, journal.old)) }
    {
        if !journal.fits_plain() {
            return Err(Stop::Limit);
        }
        self.push_item(given, Item::HandOver(id))?;
        if let Err(stop) = journal.write(Entry::Wait(id, given)) {
            self.drop_last(given);
            return Err(stop);
        }
        self.set_waiting(id, given);
        Ok(Placed::Waits)
    }

    /// The value of the given Deferred is moved.
    fn take_from(
        &mut self,
        journal: &mut Journal,
        id: DeferredId,
        given: DeferredId,
    ) -> Result<Placed, Stop>
        requires within { given < length self.old }
        ensures { UnlessMemory result (self.old, journal.old) (self.new, journal.new)
            (telling (Take id given (value_at given self.old)) Taken
            (taking id given (value_at given self.old) self.old) (self.old, journal.old)) }
    {
        let place = given.number() as usize;
        tell_take(self.alloc, journal, id, given, &self.records[place].value)?;
        let value = mem::replace(&mut self.records[place].value, Value::Null);
        self.set_result(id, value);
        Ok(Placed::Taken)
    }

    /// A Deferred gets the value that was handed over to it.
    fn set_handed(&mut self, id: DeferredId, value: Value)
        ensures { self.new ≡ changing id (with_handed value) self.old }
    {
        let Some(record) = self.records.get_mut(id.number() as usize) else {
            return drop(value);
        };
        drop(mem::replace(&mut record.value, value));
        record.waits_for = None;
    }

    /// A side of a Deferred has ended with another that it is to wait for.
    fn set_waiting(&mut self, id: DeferredId, given: DeferredId)
        ensures { self.new ≡ changing id (with_wait given) self.old }
    {
        if let Some(record) = self.records.get_mut(id.number() as usize) {
            record.waits_for = Some(given);
            record.running = false;
        }
    }

    /// A side of a Deferred has ended, and this is its value now.
    fn set_result(&mut self, id: DeferredId, value: Value)
        ensures { self.new ≡ changing id (with_result value) self.old }
    {
        let Some(record) = self.records.get_mut(id.number() as usize) else {
            return drop(value);
        };
        drop(mem::replace(&mut record.value, value));
        record.running = false;
    }

    /// Pauses a Deferred once more: it uses no items until it is unpaused as often (Twisted:
    /// `Deferred.pause`).
    pub fn pause(&mut self, journal: &mut Journal, id: DeferredId) -> Result<(), Stop>
        requires room { pauses_of id self.old < 2 ^ 32 - 1 }
        ensures { UnlessMemory result (self.old, journal.old) (self.new, journal.new)
            (pause id (self.old, journal.old)) }
    {
        let Some(record) = self.record(id) else {
            return Ok(());
        };
        let pauses = record.pauses;
        journal.write(Entry::Pause(id))?;
        self.set_pauses(id, pauses + 1);
        Ok(())
    }

    /// Pauses a Deferred once less, and uses no item (Twisted: `Deferred.unpause`, which also runs
    /// what it can). One that isn't paused stays as it is, and nothing is written.
    pub fn unpause(&mut self, journal: &mut Journal, id: DeferredId) -> Result<(), UnpauseFault>
        ensures { UnpausesUnlessMemory result (self.old, journal.old) (self.new, journal.new)
            (unpause id (self.old, journal.old)) }
    {
        let Some(record) = self.record(id) else {
            return Ok(());
        };
        let pauses = record.pauses;
        if pauses == 0 {
            return Err(Fault::Refused(NotPaused));
        }
        journal.write(Entry::Unpause(id))?;
        self.set_pauses(id, pauses - 1);
        Ok(())
    }

    /// A Deferred is paused so often.
    fn set_pauses(&mut self, id: DeferredId, pauses: u32)
        ensures { self.new ≡ changing id (with_pauses pauses) self.old }
    {
        if let Some(record) = self.records.get_mut(id.number() as usize) {
            record.pauses = pauses;
        }
    }

    /// All records, in order of making, with their values moved.
    pub fn into_records(self) -> Vec<Record<P, K>>
        ensures { result.items ≡ self }
    {
        let Store { alloc: _, records } = self;
        records
    }
}

/// A name of its own for the journal.
fn name_copy(alloc: Global, name: &Option<Text>) -> Result<Option<Text>, AllocError>
    ensures { IfOk result (λ copy. copy ≡ name.now) }
{
    match name {
        None => Ok(None),
        Some(name) => Ok(Some(name.copy(alloc)?)),
    }
}

/// Whether a Deferred may use an item: it is fired, no side of it runs, it isn't paused and it
/// waits for no other.
fn is_ready<P, K>(record: &Record<P, K>) -> bool
    ensures { result ≡ is_ready «record».now }
{
    record.fired && !record.running && record.pauses == 0 && record.waits_for.is_none()
}

/// Whether a Deferred that a side of another gave has no value to take yet.
fn is_pending<P, K>(id: DeferredId, given: DeferredId, record: &Record<P, K>) -> bool
    ensures { result ≡ is_pending id given «record».now }
{
    id == given || !record.fired || record.pauses != 0 || record.waits_for.is_some()
}

/// Makes room for a record, and logs that it is made.
fn reserve_and_tell<R>(
    alloc: Global,
    journal: &mut Journal,
    records: &mut Vec<R>,
    id: DeferredId,
    name: &Option<Text>,
) -> Result<(), Stop>
    ensures room { OnOk result (vec_len records.new + 1 ≤ vec_capacity records.new) }
    ensures kept { records.new.items ≡ records.old.items }
    ensures len { vec_len records.new ≡ vec_len records.old }
    ensures ok { OnOk result (journal.new ≡ with_entry journal.old (New id name.now)) }
    ensures limit { IsErrOf result Stop.Limit ↔ (fits journal.old (New id name.now) ≡ false) }
    ensures err { OnErr result (journal.new ≡ journal.old) }
{
    if !journal.fits_plain() {
        return Err(Stop::Limit);
    }
    records.try_reserve(1)?;
    let shown = name_copy(alloc, name)?;
    journal.write(Entry::New(id, shown))
}
