ghost use Rattle.std.specs.Prelude.{◌≡◌, IfOk};

use crate::error::{Overflow, PutFault};
use crate::waiting_list::{WaitingList, join};
use dv_journal::deferred_id::DeferredId;
use dv_journal::entry::Entry;
use dv_journal::error::{Fault, Stop};
use dv_journal::journal::Journal;
use dv_value::boxed::Boxed;
use dv_value::deque::Deque;
use dv_value::items::Items;
use dv_value::text::Text;
use dv_value::value::Value;
use std::alloc::{AllocError, Global};
use std::marker::Model;

/// What a queue has when it is dropped.
#[derive(Drop)]
pub struct QueueParts {
    /// Its name at its making.
    pub name: Text,
    /// The values that are stored, from the one that was put first.
    pub stored: Deque<Value>,
    /// The Deferreds that wait for a value, from the one that has waited longest.
    pub waiting: Items<DeferredId>,
}

/// A queue of values (Twisted: `DeferredQueue`). Those that wait for a value get it in the order in
/// which they asked; one that asks twice waits twice.
#[derive(Drop)]
pub struct Queue {
    alloc: Global,
    name: Text,
    size: Option<u32>,
    backlog: Option<u32>,
    stored: Deque<Value>,
    waiting: WaitingList,
}

impl Model for Queue {
    ghost use Rattle.std.specs.Prelude.{◌≡◌, ◌⊎◌, []};
    ghost use Rattle.std.specs.Coded.{codes};
    ghost use Rattle.dv_prims.specs.Queue.{Queue as Seen};
    ghost use Rattle.dv_value.specs.contracts.value.Value as value_contract;

    ghost Value = { Seen };

    ghost coded = { Prim.hlevel (codes, value_contract.the_row.coded) };

    ghost view = { λ q. record {
      name = q.name;
      size = q.size;
      backlog = q.backlog;
      stored = q.stored;
      waiting = q.waiting;
    } };

    ghost invariant = { λ q. (q.stored ≡ []) ⊎ (q.waiting ≡ []) };
}

impl Queue {
    ghost use Rattle.dv_prims.specs.Laws.{StoresOrIsWaitedFor};
    ghost use Rattle.dv_prims.specs.Queue.{make_queue, may_put, may_get, put, PutsUnlessMemory};
    ghost use Rattle.dv_prims.specs.Queue.{get, withdrawn};
    ghost use Rattle.dv_journal.specs.Telling.{UnlessMemory};
    ghost use Rattle.dv_prims.specs.Tokens.{is_waiting};
    ghost use Rattle.dv_journal.specs.declared.entry.Entry.TheVariants as entry;

    /// Makes a queue in which nothing is stored, and logs it. It stores at most as many values as
    /// its size, and at most as many Deferreds wait for one as its backlog; None is no bound
    /// (Twisted: `DeferredQueue`).
    pub fn new(
        alloc: Global,
        journal: &mut Journal,
        name: &str,
        size: Option<u32>,
        backlog: Option<u32>,
    ) -> Result<Queue, Stop>
        ensures { UnlessMemory result journal.old journal.new
            (make_queue name.now size backlog journal.old) }
    {
        if !journal.fits_plain() {
            return Err(Stop::Limit);
        }
        let kept = Text::of(alloc, name)?;
        let shown = Boxed::new(alloc, Text::of(alloc, name)?)?;
        journal.write(Entry::Queue(shown, size, backlog))?;
        Ok(empty(alloc, kept, size, backlog))
    }

    /// Its name.
    pub fn name(&self) -> &str
        ensures { result.now ≡ self.now.name }
    {
        self.name.as_str()
    }

    /// Whether a value may be put: somebody waits for one, or fewer are stored than may be.
    pub fn may_put(&self) -> bool
        ensures { result ≡ may_put self.now }
    {
        match self.waiting.first() {
            Some(_) => true,
            None => has_room(self.stored.len(), self.size),
        }
    }

    /// Whether a value may be asked for: one is stored, or fewer wait than may (Twisted:
    /// `QueueUnderflow` where not).
    pub fn may_get(&self) -> bool
        ensures { result ≡ may_get self.now }
    {
        match self.stored.front() {
            Some(_) => true,
            None => has_room(self.waiting.len(), self.backlog),
        }
    }

    /// Puts a value: the first Deferred that waits gets it, and both are answered, for it to be
    /// fired; with nobody waiting the value is stored (Twisted: `DeferredQueue.put`). Where as many
    /// are stored as may be, nothing is logged.
    pub fn put(
        &mut self,
        journal: &mut Journal,
        value: Value,
    ) -> Result<Option<(DeferredId, Value)>, PutFault>
        ensures { PutsUnlessMemory result (self.old, journal.old) (self.new, journal.new)
            (put value (self.old, journal.old)) }
    {
        if !self.may_put() {
            drop(value);
            return Err(Fault::Refused(Overflow));
        }
        if !journal.fits_value(&value) {
            drop(value);
            return Err(Fault::Limit);
        }
        let Ok(entry) = self.putting(&value) else {
            drop(value);
            return Err(Fault::OutOfMemory);
        };
        if self.waiting.is_empty() {
            store(journal, entry, &mut self.stored, value)?;
            return Ok(None);
        }
        if let Err(stop) = journal.write(entry) {
            drop(value);
            return Err(stop.into());
        }
        match self.waiting.pop_front() {
            Some(id) => Ok(Some((id, value))),
            None => unreachable!(),
        }
    }

    /// The entry that logs a value that is put.
    fn putting(&self, value: &Value) -> Result<Entry, AllocError>
        ensures { IfOk result (λ told. told ≡ entry.Put self.now.name value.now) }
    {
        let name = self.name.copy(self.alloc)?;
        let shown = Boxed::new(self.alloc, value.copy(self.alloc)?)?;
        Ok(Entry::Put(name, shown))
    }

    /// A Deferred asks for a value: the first that is stored is taken and answered, for it to be
    /// fired with; with none stored it waits (Twisted: `DeferredQueue.get`).
    pub fn get(&mut self, journal: &mut Journal, id: DeferredId) -> Result<Option<Value>, Stop>
        ensures { UnlessMemory result (self.old, journal.old) (self.new, journal.new)
            (get id (self.old, journal.old)) }
    {
        if !journal.fits_plain() {
            return Err(Stop::Limit);
        }
        let entry = Entry::Get(self.name.copy(self.alloc)?, id);
        if self.stored.is_empty() {
            join(journal, entry, &mut self.waiting, id)?;
            return Ok(None);
        }
        journal.write(entry)?;
        Ok(self.stored.pop_front())
    }

    /// A Deferred waits no longer, or once less where it asked more than once, and whether it
    /// waited is answered (Twisted: `DeferredQueue._cancelGet`).
    pub fn forget(&mut self, id: DeferredId) -> bool
        ensures waited { result ≡ is_waiting id self.old.waiting }
        ensures rest { self.new ≡ withdrawn id self.old }
    {
        self.waiting.remove(id)
    }

    /// Drops it, and returns what it had.
    pub fn into_parts(self) -> Result<QueueParts, AllocError>
        ensures name { IfOk result (λ parts. parts.name ≡ self.name) }
        ensures stored { IfOk result (λ parts. parts.stored ≡ self.stored) }
        ensures waiting { IfOk result (λ parts. parts.waiting ≡ self.waiting) }
    {
        let Queue {
            alloc,
            name,
            size: _,
            backlog: _,
            stored,
            waiting,
        } = self;
        Ok(QueueParts {
            name,
            stored,
            waiting: waiting.into_items(alloc)?,
        })
    }

    /// Values are stored, or Deferreds wait, or neither.
    pub fn stores_or_is_waited_for(&self)
        ensures { StoresOrIsWaitedFor self.now }
    {
        let _ = &self.alloc;
    }
}

ghost use Rattle.std.specs.Prelude.{true, ◌∷◌, ◌++◌, [], OnOk, OnErr};
ghost use Rattle.dv_journal.specs.Journal.{fits, with_entry};
ghost use Rattle.dv_prims.specs.Queue.{new_queue, has_room};

/// A queue in which nothing is stored.
fn empty(alloc: Global, name: Text, size: Option<u32>, backlog: Option<u32>) -> Queue
    ensures { result ≡ new_queue name size backlog }
{
    Queue {
        alloc,
        name,
        size,
        backlog,
        stored: Deque::new(alloc),
        waiting: WaitingList::new(alloc),
    }
}

/// Whether there is room for one more than so many.
fn has_room(number: usize, most: Option<u32>) -> bool
    ensures { result ≡ has_room number most }
{
    match most {
        None => true,
        Some(most) => number < most as usize,
    }
}

/// A value is stored after the others, and that is logged. Where the allocation fails, it isn't.
#[tactic(auto, using(crate::proofs::WaitingLemmas::item_taken_back))]
fn store(
    journal: &mut Journal,
    entry: Entry,
    stored: &mut Deque<Value>,
    value: Value,
) -> Result<(), AllocError>
    requires room { fits journal.old entry ≡ true }
    ensures stored { OnOk result (stored.new ≡ stored.old ++ value ∷ []) }
    ensures written { OnOk result (journal.new ≡ with_entry journal.old entry) }
    ensures kept { OnErr result (stored.new ≡ stored.old) }
    ensures err { OnErr result (journal.new ≡ journal.old) }
{
    if stored.push_back(value).is_err() {
        entry.discard();
        return Err(AllocError);
    }
    match journal.write(entry) {
        Ok(()) => Ok(()),
        Err(Stop::Limit) => unreachable!(),
        Err(Stop::OutOfMemory) => {
            stored.drop_back();
            Err(AllocError)
        }
    }
}
