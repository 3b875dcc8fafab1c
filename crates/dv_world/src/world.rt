ghost use Rattle.std.specs.Prelude.{◌≡◌, ◌<◌, ◌^◌, ◌-◌, Some, length, slice_get, IfOk, OnOk, OnErr};

use dv_clock::call::Call;
use dv_clock::call_id::CallId;
use dv_clock::clock::Clock;
use dv_clock::loop_id::LoopId;
use dv_journal::deferred_id::DeferredId;
use dv_journal::entry::Entry;
use dv_journal::error::{Fault, Stop};
use dv_journal::journal::Journal;
use dv_objects::canceller::Canceller;
use dv_objects::cooperators::Cooperators;
use dv_objects::follow::Follow;
use dv_objects::inlines::Inlines;
use dv_objects::looping_call::LoopingCall;
use dv_objects::names::Names;
use dv_objects::pair::Pair;
use dv_objects::reached::Reached;
use dv_objects::refusals::{cancelled, refused_firing, refused_unpausing};
use dv_objects::stopping::stopped;
use dv_objects::task::Task;
use dv_objects::works::Works;
use dv_prims::error::{NotHeld, Overflow};
use dv_prims::gather::{AfterChild, Flags, Gather};
use dv_prims::list_id::ListId;
use dv_prims::lock_id::LockId;
use dv_prims::queue::Queue;
use dv_prims::queue_id::QueueId;
use dv_prims::semaphore::Semaphore;
use dv_script::lent::{BodyRef, TextRef};
use dv_script::script::{Cooperator as Settings, NamedBody, NamedCooperator};
use dv_store::error::{AlreadyCalled, NotPaused};
use dv_store::record::Record;
use dv_store::store::{Fired, Step, Store};
use dv_value::classes::Classes;
use dv_value::text::Text;
use dv_value::value::Value;
use std::alloc::{AllocError, Global};
use std::hash::RandomState;
use std::marker::Model;
use std::mem;

mod clock;
pub mod cooperating;
mod declaring;
pub mod expecting;
pub mod inlining;
pub mod jobs;
pub mod looping;

/// The number of Deferreds for which room is asked at once.
const FIRST_RECORDS: usize = 16_384;

/// The world of a run: its Deferreds, locks, queues, lists, delayed calls, loops and tasks with
/// their names, what inline bodies wait for, the works of its jobs, the classes of failures and the
/// journal. Once an entry doesn't fit into the journal, or a Deferred isn't as the script expects,
/// the run has stopped: from then on nothing changes.
///
/// Where a call answers AllocError, nothing is promised of what the world holds then: its clauses
/// speak of the other answers only. An engine that is out of memory asks no more of its world.
#[derive(Drop)]
pub struct World<'s> {
    alloc: Global,
    classes: &'s Classes,
    declared: &'s [NamedBody],
    ends_throw: bool,
    names: Names<'s, DeferredId>,
    locks: Names<'s, LockId>,
    semaphores: Vec<Semaphore>,
    queue_names: Names<'s, QueueId>,
    queues: Vec<Queue>,
    lists: Vec<Gather>,
    clock: Clock,
    call_names: Names<'s, CallId>,
    bodies: Vec<BodyRef<'s>>,
    loop_names: Names<'s, LoopId>,
    loops: Vec<LoopingCall<'s>>,
    cooperators: Cooperators<'s>,
    inlines: Inlines<'s>,
    works: Works<'s>,
    store: Store<Pair<'s>, Canceller<'s>>,
    journal: Journal,
    stopped: bool,
}

/// What a world has when it is dropped: its journal, and all that was made.
#[derive(Drop)]
pub struct Parts<'s> {
    pub journal: Journal,
    /// Whether the run stopped: at an entry that didn't fit into the journal, or at a Deferred that
    /// wasn't as the script expects.
    pub stopped: bool,
    /// The Deferreds, in order of making.
    pub records: Vec<Record<Pair<'s>, Canceller<'s>>>,
    /// The locks and semaphores, in order of making.
    pub semaphores: Vec<Semaphore>,
    /// The queues, in order of making.
    pub queues: Vec<Queue>,
    /// All calls that were scheduled, in order of scheduling.
    pub calls: Vec<Call>,
    /// The loops, in order of making.
    pub loops: Vec<LoopingCall<'s>>,
    /// The tasks, in order of making.
    pub tasks: Vec<Task<'s>>,
    /// What inline bodies wait for, in order of making.
    pub inlines: Inlines<'s>,
}

impl<'s> Model for World<'s> {
    ghost use Rattle.dv_world.specs.World.{World as Seen};
    ghost use Rattle.dv_script.specs.contracts.body.Body as body_contract;
    ghost use Rattle.dv_script.specs.contracts.body.Statement as statement_contract;
    ghost use Rattle.dv_script.specs.contracts.work.Work as work_contract;
    ghost use Rattle.dv_value.specs.contracts.classes.Class as class_contract;
    ghost use Rattle.dv_value.specs.contracts.failure.Failure as failure_contract;
    ghost use Rattle.dv_value.specs.contracts.value.Value as value_contract;
    ghost use Rattle.std.specs.Coded.{codes};

    ghost Value = { Seen };

    ghost coded = { Prim.hlevel (
      codes,
      body_contract.the_row.coded,
      statement_contract.the_row.coded,
      work_contract.the_row.coded,
      class_contract.the_row.coded,
      failure_contract.the_row.coded,
      value_contract.the_row.coded,
    ) };

    ghost view = { λ w. record {
      classes = w.classes.now;
      declared = w.declared.now;
      ends_throw = w.ends_throw;
      objects = record {
        names = w.names;
        locks = w.locks;
        semaphores = w.semaphores.items;
        queue_names = w.queue_names;
        queues = w.queues.items;
        lists = w.lists.items;
        clock = w.clock;
        call_names = w.call_names;
        bodies = w.bodies.items;
        loop_names = w.loop_names;
        loops = w.loops.items;
        cooperators = w.cooperators;
        inlines = w.inlines;
      };
      works = w.works.works;
      pools = w.works.pools;
      records = w.store;
      journal = w.journal;
      stopped = w.stopped;
    } };
}

impl<'s> World<'s> {
    ghost use Rattle.dv_store.specs.Pausing.{pauses_of};
    ghost use Rattle.dv_world.specs.World.{first_world, value_of, deferred_at, step, put};
    ghost use Rattle.dv_world.specs.World.{put_deferred, append, make, fire, fire_then_swallow};
    ghost use Rattle.dv_world.specs.World.{is_unfired, reached_from, cancel, pause, unpause, aside};
    ghost use Rattle.dv_world.specs.World.{arrange, tell, ask, release, forget, put_into, get_from};
    ghost use Rattle.dv_world.specs.World.{withdraw, child_fired_in, with_stop};
    ghost use Rattle.dv_objects.specs.Objects.{naming, naming_where, with_new_list, with_new_lock};
    ghost use Rattle.dv_objects.specs.Objects.{with_added_lock, with_new_queue, with_added_queue};
    ghost use Rattle.dv_objects.specs.Names.{number_of};
    ghost use Rattle.std.specs.Option.{option_copied};
    ghost use Rattle.dv_journal.specs.declared.entry.Entry.TheVariants as entry;

    /// A world in which nothing is made, of a script with these classes and declared bodies, in
    /// which an end of an inline body throws its failure or leaves the body with it, whose journal
    /// takes so much weight, whose Cooperator takes its steps so, and which names these others.
    /// Names are hashed with these keys.
    pub fn new(
        alloc: Global,
        keys: RandomState,
        classes: &'s Classes,
        declared: &'s [NamedBody],
        ends_throw: bool,
        limit: u64,
        settings: Settings,
        named: &'s [NamedCooperator],
    ) -> Result<World<'s>, AllocError>
        requires { limit < 2 ^ 32 }
        ensures { IfOk result (λ world. world
            ≡ first_world classes.now declared.now ends_throw limit settings named.now) }
    {
        let cooperators = Cooperators::new(alloc, keys, settings, named)?;
        Ok(World {
            alloc,
            classes,
            declared,
            ends_throw,
            names: Names::new(alloc, keys),
            locks: Names::new(alloc, keys),
            semaphores: Vec::new(alloc),
            queue_names: Names::new(alloc, keys),
            queues: Vec::new(alloc),
            lists: Vec::new(alloc),
            clock: Clock::new(alloc),
            call_names: Names::new(alloc, keys),
            bodies: Vec::new(alloc),
            loop_names: Names::new(alloc, keys),
            loops: Vec::new(alloc),
            cooperators,
            inlines: Inlines::new(alloc),
            works: Works::new(alloc),
            store: Store::with_capacity(alloc, FIRST_RECORDS),
            journal: Journal::new(alloc, limit),
            stopped: false,
        })
    }

    /// The classes of the script's failures.
    pub fn classes(&self) -> &'s Classes
        ensures { result.now ≡ self.now.classes }
    {
        self.classes
    }

    /// Whether an end of an inline body that fails throws its failure there. Else it leaves the
    /// body with it.
    pub fn ends_throw(&self) -> bool
        ensures { result ≡ self.now.ends_throw }
    {
        self.ends_throw
    }

    /// Whether an entry didn't fit into the journal, or a Deferred wasn't as the script expects, so
    /// that nothing changes any more.
    pub fn is_stopped(&self) -> bool
        ensures { result ≡ self.now.stopped }
    {
        self.stopped
    }

    /// How many entries are logged.
    pub fn entries_logged(&self) -> usize
        ensures { result ≡ length self.now.journal.entries }
    {
        self.journal.entries().len()
    }

    /// The Deferred that a name stands for; `@` is the one that is given, where one is.
    pub fn find(&self, itself: Option<DeferredId>, name: &str) -> Option<DeferredId>
        ensures { result ≡ deferred_at itself name.now self.now }
    {
        if name == "@" {
            itself
        } else {
            self.names.find(name)
        }
    }

    /// The number that the next Deferred gets.
    pub fn next_id(&self) -> DeferredId
        requires { length self.now.records < 2 ^ 32 }
        ensures { result ≡ length self.now.records }
    {
        DeferredId::new(self.store.len() as u32)
    }

    /// The value of a Deferred, copied; null where there is none.
    pub fn value(&self, id: DeferredId) -> Result<Value, AllocError>
        ensures { IfOk result (λ value. value ≡ value_of id self.now) }
    {
        match self.store.record(id) {
            None => Ok(Value::Null),
            Some(record) => record.value.copy(self.alloc),
        }
    }

    /// The first move of settling a Deferred.
    #[tactic(auto, unfolding(crate::specs::World::step))]
    pub fn step(&mut self, id: DeferredId) -> Result<Step<Pair<'s>>, AllocError>
        ensures { IfOk result (λ move. (move, self.new) ≡ step id self.old) }
    {
        if self.stopped {
            return Ok(Step::Nothing);
        }
        match self.store.step(&mut self.journal, id) {
            Ok(move_made) => Ok(move_made),
            Err(stop) => self.stopped_by(stop, Step::Nothing),
        }
    }

    /// What a side gave becomes the value of its Deferred.
    #[tactic(auto, unfolding(crate::specs::World::put))]
    pub fn put(&mut self, id: DeferredId, value: Value) -> Result<(), AllocError>
        ensures { OnOk result (self.new ≡ put id value self.old) }
    {
        if self.stopped {
            drop(value);
            return Ok(());
        }
        match self.store.put(&mut self.journal, id, value) {
            Ok(()) => Ok(()),
            Err(stop) => self.stopped_by(stop, ()),
        }
    }

    /// A side of a Deferred gave another, whose value it takes or waits for.
    #[tactic(auto, unfolding(crate::specs::World::put_deferred))]
    pub fn put_deferred(&mut self, id: DeferredId, given: DeferredId) -> Result<(), AllocError>
        ensures { OnOk result (self.new ≡ put_deferred id given self.old) }
    {
        if self.stopped {
            return Ok(());
        }
        match self.store.put_deferred(&mut self.journal, id, given) {
            Ok(_) => Ok(()),
            Err(stop) => self.stopped_by(stop, ()),
        }
    }

    /// Adds a pair, and doesn't settle.
    #[tactic(auto, unfolding(crate::specs::World::append))]
    pub fn append(&mut self, id: DeferredId, pair: Pair<'s>) -> Result<(), AllocError>
        ensures { OnOk result (self.new ≡ append id pair.entry self.old) }
    {
        if self.stopped {
            drop(pair);
            return Ok(());
        }
        match self.store.append(&mut self.journal, id, pair) {
            Ok(()) => Ok(()),
            Err(stop) => self.stopped_by(stop, ()),
        }
    }

    /// Makes a Deferred, which may have a canceller, and binds its name to it, where it has one,
    /// also where that was bound to another.
    #[tactic(auto, unfolding(crate::specs::World::make))]
    pub fn make(
        &mut self,
        name: Option<TextRef<'s>>,
        canceller: Option<Canceller<'s>>,
    ) -> Result<(), AllocError>
        requires { length self.old.records < 2 ^ 32 - 1 }
        ensures { OnOk result (self.new ≡ make name.entry canceller.entry self.old) }
    {
        if self.stopped {
            drop(canceller);
            return Ok(());
        }
        let Ok(kept) = text_of(self.alloc, &name) else {
            drop(canceller);
            return Err(AllocError);
        };
        match self.store.make(&mut self.journal, kept, canceller) {
            Ok(id) => self.bind_where(name, id),
            Err(stop) => self.stopped_by(stop, ()),
        }
    }

    /// Binds a name to a Deferred, where there is one.
    fn bind_where(&mut self, name: Option<TextRef<'s>>, id: DeferredId) -> Result<(), AllocError>
        ensures { OnOk result (self.new ≡ record self.old {
          objects = naming_where name.entry id self.old.objects;
        }) }
    {
        match name {
            None => Ok(()),
            Some(name) => self.names.bind(name.as_str(), id),
        }
    }

    /// Fires a Deferred, and doesn't settle. A further firing raises AlreadyCalledError, unless a
    /// cancel has asked for it to be swallowed, and the value is dropped.
    #[tactic(auto, unfolding(crate::specs::World::fire))]
    pub fn fire(&mut self, id: DeferredId, value: Value) -> Result<Follow, AllocError>
        ensures { IfOk result (λ follow. (follow, self.new) ≡ fire id value self.old) }
    {
        if self.stopped {
            drop(value);
            return Ok(Follow::Nothing);
        }
        match self.store.fire(&mut self.journal, id, value) {
            Ok(Fired::Set) => Ok(Follow::Settle),
            Ok(Fired::Swallowed) => Ok(Follow::Nothing),
            Err(Fault::Refused(AlreadyCalled)) => refused_firing(self.alloc),
            Err(Fault::Limit) => {
                self.stopped = true;
                Ok(Follow::Nothing)
            }
            Err(Fault::OutOfMemory) => Err(AllocError),
        }
    }

    /// Fires a Deferred with CancelledError, has its next firing swallowed, and doesn't settle. It
    /// is for one that is cancelled, unfired, and without a canceller (Twisted: `Deferred.cancel`).
    #[tactic(auto, unfolding(crate::specs::World::fire_then_swallow))]
    pub fn fire_then_swallow(&mut self, id: DeferredId) -> Result<(), AllocError>
        ensures { OnOk result (self.new ≡ fire_then_swallow id self.old) }
    {
        if self.stopped {
            return Ok(());
        }
        let value = cancelled(self.alloc)?;
        match self.store.fire(&mut self.journal, id, value) {
            Ok(Fired::Set) => {
                self.store.swallow_next(id);
                Ok(())
            }
            Ok(Fired::Swallowed) | Err(Fault::Refused(AlreadyCalled)) => Ok(()),
            Err(Fault::Limit) => {
                self.stopped = true;
                Ok(())
            }
            Err(Fault::OutOfMemory) => Err(AllocError),
        }
    }

    /// Whether a Deferred may still be fired; a stranger may not.
    pub fn is_unfired(&self, id: DeferredId) -> bool
        ensures { result ≡ is_unfired id self.now }
    {
        match self.store.record(id) {
            None => false,
            Some(record) => !record.fired,
        }
    }

    /// Logs a cancel, and returns what it reaches: the first Deferred that doesn't wait, on the
    /// walk along those that are waited for, if there is one and it is unfired.
    #[tactic(auto, unfolding(crate::specs::World::cancel))]
    pub fn cancel(&mut self, id: DeferredId) -> Result<Reached<'s>, AllocError>
        ensures { IfOk result (λ reached. (reached, self.new) ≡ cancel id self.old) }
    {
        if self.stopped {
            return Ok(Reached::Nothing);
        }
        match self.journal.write(Entry::Cancel(id)) {
            Ok(()) => self.reached(id),
            Err(stop) => self.stopped_by(stop, Reached::Nothing),
        }
    }

    /// What a cancel reaches.
    fn reached(&self, id: DeferredId) -> Result<Reached<'s>, AllocError>
        ensures { IfOk result (λ reached. reached ≡ reached_from id self.now.records) }
    {
        let Some(end) = self.store.end_of_chain(id) else {
            return Ok(Reached::Nothing);
        };
        match self.store.record(end) {
            None => Ok(Reached::Nothing),
            Some(record) => Reached::at(self.alloc, end, record),
        }
    }

    /// Pauses a Deferred once more.
    #[tactic(auto, unfolding(crate::specs::World::pause))]
    pub fn pause(&mut self, id: DeferredId) -> Result<(), AllocError>
        requires room { pauses_of id self.old.records < 2 ^ 32 - 1 }
        ensures { OnOk result (self.new ≡ pause id self.old) }
    {
        if self.stopped {
            return Ok(());
        }
        match self.store.pause(&mut self.journal, id) {
            Ok(()) => Ok(()),
            Err(stop) => self.stopped_by(stop, ()),
        }
    }

    /// Pauses a Deferred once less, and doesn't settle. One that isn't paused raises
    /// AssertionError.
    #[tactic(auto, unfolding(crate::specs::World::unpause))]
    pub fn unpause(&mut self, id: DeferredId) -> Result<Follow, AllocError>
        ensures { IfOk result (λ follow. (follow, self.new) ≡ unpause id self.old) }
    {
        if self.stopped {
            return Ok(Follow::Nothing);
        }
        match self.store.unpause(&mut self.journal, id) {
            Ok(()) => Ok(Follow::Settle),
            Err(Fault::Refused(NotPaused)) => refused_unpausing(self.alloc),
            Err(Fault::Limit) => {
                self.stopped = true;
                Ok(Follow::Nothing)
            }
            Err(Fault::OutOfMemory) => Err(AllocError),
        }
    }

    /// Writes an entry by which no Deferred changes.
    #[tactic(auto, unfolding(crate::specs::World::aside))]
    pub fn tell(&mut self, entry: Entry) -> Result<(), AllocError>
        ensures { OnOk result (self.new ≡ tell entry self.old) }
    {
        if self.stopped {
            entry.discard();
            return Ok(());
        }
        match self.journal.write(entry) {
            Ok(()) => Ok(()),
            Err(stop) => self.stopped_by(stop, ()),
        }
    }

    /// Binds a name to a Deferred that was made already, and logs it.
    #[tactic(auto, unfolding(crate::specs::World::aside))]
    pub fn bind_name(&mut self, name: &'s str, id: DeferredId) -> Result<(), AllocError>
        ensures { OnOk result (self.new ≡ aside (entry.Name id (Some name.now))
            (naming name.now id) self.old) }
    {
        if self.stopped {
            return Ok(());
        }
        let shown = Text::of(self.alloc, name)?;
        match self.store.log_name(&mut self.journal, id, shown) {
            Ok(()) => self.names.bind(name, id),
            Err(stop) => self.stopped_by(stop, ()),
        }
    }

    /// Makes a lock, and binds its name to it, also where that was bound to another (Twisted:
    /// `DeferredLock`).
    #[tactic(auto, unfolding(crate::specs::World::aside))]
    pub fn make_lock(&mut self, name: &'s str) -> Result<(), AllocError>
        ensures { OnOk result (self.new ≡ aside (entry.Lock name.now)
            (with_new_lock name.now 1) self.old) }
    {
        if self.stopped {
            return Ok(());
        }
        match Semaphore::lock(self.alloc, &mut self.journal, name) {
            Ok(lock) => self.add_lock(name, lock),
            Err(stop) => self.stopped_by(stop, ()),
        }
    }

    /// Makes a semaphore, and binds its name to it, also where that was bound to another (Twisted:
    /// `DeferredSemaphore`).
    #[tactic(auto, unfolding(crate::specs::World::aside))]
    pub fn make_semaphore(&mut self, name: &'s str, tokens: u32) -> Result<(), AllocError>
        ensures { OnOk result (self.new ≡ aside (entry.Semaphore name.now tokens)
            (with_new_lock name.now tokens) self.old) }
    {
        if self.stopped {
            return Ok(());
        }
        match Semaphore::new(self.alloc, &mut self.journal, name, tokens) {
            Ok(semaphore) => self.add_lock(name, semaphore),
            Err(stop) => self.stopped_by(stop, ()),
        }
    }

    /// Adds a lock that was logged, and binds its name to it.
    fn add_lock(&mut self, name: &'s str, lock: Semaphore) -> Result<(), AllocError>
        ensures { OnOk result (self.new ≡ record self.old {
          objects = with_added_lock name.now lock self.old.objects;
        }) }
    {
        self.locks.bind(name, LockId::new(self.semaphores.len()))?;
        self.semaphores.push(lock)?;
        Ok(())
    }

    /// The lock that a name stands for.
    pub fn find_lock(&self, name: &str) -> Option<LockId>
        ensures { result ≡ number_of name.now self.now.objects.locks }
    {
        self.locks.find(name)
    }

    /// A lock by its id.
    pub fn lock(&self, lock: LockId) -> Option<&Semaphore>
        ensures { option_copied result ≡ slice_get self.now.objects.semaphores lock }
    {
        self.semaphores.get(lock.number())
    }

    /// A Deferred asks a lock for a token, and has it or waits for it.
    #[tactic(auto, unfolding(crate::specs::World::aside))]
    pub fn ask(&mut self, lock: LockId, id: DeferredId) -> Result<(), AllocError>
        ensures { OnOk result (self.new ≡ ask lock id self.old) }
    {
        if self.stopped {
            return Ok(());
        }
        let place = lock.number();
        if place >= self.semaphores.len() {
            return Ok(());
        }
        if !self.journal.fits_plain() {
            self.stopped = true;
            return Ok(());
        }
        match self.semaphores[place].acquire(&mut self.journal, id) {
            Ok(_) => Ok(()),
            // (the entry fits, so it is memory that was refused)
            Err(Stop::Limit | Stop::OutOfMemory) => Err(AllocError),
        }
    }

    /// Releases a token of a lock, which gives it to the first that waits, where one does.
    #[tactic(auto, unfolding(crate::specs::World::aside))]
    pub fn release(&mut self, lock: LockId) -> Result<(), AllocError>
        ensures { OnOk result (self.new ≡ release lock self.old) }
    {
        if self.stopped {
            return Ok(());
        }
        let place = lock.number();
        if place >= self.semaphores.len() || self.semaphores[place].is_unheld() {
            return Ok(());
        }
        if !self.journal.fits_plain() {
            self.stopped = true;
            return Ok(());
        }
        match self.semaphores[place].release(&mut self.journal) {
            Ok(_) => Ok(()),
            // (a token is held and the entry fits, so it is out of memory)
            Err(Fault::Refused(NotHeld) | Fault::Limit | Fault::OutOfMemory) => { Err(AllocError) }
        }
    }

    /// A Deferred waits for a token of a lock no longer.
    #[tactic(auto, unfolding(crate::specs::World::arrange))]
    pub fn forget(&mut self, lock: LockId, id: DeferredId)
        ensures { self.new ≡ forget lock id self.old }
    {
        if self.stopped {
            return;
        }
        if let Some(semaphore) = self.semaphores.get_mut(lock.number()) {
            let _ = semaphore.forget(id);
        }
    }

    /// Makes a queue, and binds its name to it, also where that was bound to another (Twisted:
    /// `DeferredQueue`).
    #[tactic(auto, unfolding(crate::specs::World::aside))]
    pub fn make_queue(
        &mut self,
        name: &'s str,
        size: Option<u32>,
        backlog: Option<u32>,
    ) -> Result<(), AllocError>
        ensures { OnOk result (self.new ≡ aside (entry.Queue name.now size backlog)
            (with_new_queue name.now size backlog) self.old) }
    {
        if self.stopped {
            return Ok(());
        }
        match Queue::new(self.alloc, &mut self.journal, name, size, backlog) {
            Ok(queue) => self.add_queue(name, queue),
            Err(stop) => self.stopped_by(stop, ()),
        }
    }

    /// Adds a queue that was logged, and binds its name to it.
    fn add_queue(&mut self, name: &'s str, queue: Queue) -> Result<(), AllocError>
        ensures { OnOk result (self.new ≡ record self.old {
          objects = with_added_queue name.now queue self.old.objects;
        }) }
    {
        self.queue_names
            .bind(name, QueueId::new(self.queues.len()))?;
        self.queues.push(queue)?;
        Ok(())
    }

    /// The queue that a name stands for.
    pub fn find_queue(&self, name: &str) -> Option<QueueId>
        ensures { result ≡ number_of name.now self.now.objects.queue_names }
    {
        self.queue_names.find(name)
    }

    /// A queue by its id.
    pub fn queue(&self, queue: QueueId) -> Option<&Queue>
        ensures { option_copied result ≡ slice_get self.now.objects.queues queue }
    {
        self.queues.get(queue.number())
    }

    /// Puts a value into a queue, where it may be: the first that waits gets it, and both are
    /// returned, or it is stored.
    #[tactic(auto, unfolding(crate::specs::World::aside))]
    pub fn put_into(
        &mut self,
        queue: QueueId,
        value: Value,
    ) -> Result<Option<(DeferredId, Value)>, AllocError>
        ensures { IfOk result (λ given. (given, self.new) ≡ put_into queue value self.old) }
    {
        let place = queue.number();
        if self.stopped || place >= self.queues.len() || !self.queues[place].may_put() {
            drop(value);
            return Ok(None);
        }
        if !self.journal.fits_value(&value) {
            drop(value);
            self.stopped = true;
            return Ok(None);
        }
        match self.queues[place].put(&mut self.journal, value) {
            Ok(given) => Ok(given),
            // (a value may be put and the entry fits, so it is memory that was refused)
            Err(Fault::Refused(Overflow) | Fault::Limit | Fault::OutOfMemory) => Err(AllocError),
        }
    }

    /// A Deferred asks a queue for a value: the first that is stored is answered, or the Deferred
    /// waits.
    #[tactic(auto, unfolding(crate::specs::World::aside))]
    pub fn get_from(&mut self, queue: QueueId, id: DeferredId) -> Result<Option<Value>, AllocError>
        ensures { IfOk result (λ value. (value, self.new) ≡ get_from queue id self.old) }
    {
        let place = queue.number();
        if self.stopped || place >= self.queues.len() {
            return Ok(None);
        }
        if !self.journal.fits_plain() {
            self.stopped = true;
            return Ok(None);
        }
        match self.queues[place].get(&mut self.journal, id) {
            Ok(value) => Ok(value),
            // (the entry fits, so it is memory that was refused)
            Err(Stop::Limit | Stop::OutOfMemory) => Err(AllocError),
        }
    }

    /// A Deferred waits for a value of a queue no longer.
    #[tactic(auto, unfolding(crate::specs::World::arrange))]
    pub fn withdraw(&mut self, queue: QueueId, id: DeferredId)
        ensures { self.new ≡ withdraw queue id self.old }
    {
        if self.stopped {
            return;
        }
        if let Some(queue) = self.queues.get_mut(queue.number()) {
            let _ = queue.forget(id);
        }
    }

    /// Makes what a DeferredList of so many children has of them, which isn't logged.
    #[tactic(auto, unfolding(crate::specs::World::arrange))]
    pub fn make_list(&mut self, children: usize, flags: Flags) -> Result<ListId, AllocError>
        ensures list { OnOk result (self.new ≡ arrange (with_new_list children flags) self.old) }
        ensures id { IfOk result (λ list. list ≡ length self.old.objects.lists) }
    {
        let list = ListId::new(self.lists.len());
        if !self.stopped {
            self.lists.push(Gather::new(self.alloc, children, flags)?)?;
        }
        Ok(list)
    }

    /// A child of a DeferredList fired with this value. Returns what follows.
    #[tactic(auto, unfolding(crate::specs::World::child_fired_in, crate::specs::World::arrange))]
    pub fn child_fired(
        &mut self,
        list: ListId,
        place: u32,
        value: Value,
    ) -> Result<AfterChild, AllocError>
        ensures { IfOk result
            (λ after. (after, self.new) ≡ child_fired_in list place value self.old) }
    {
        if self.stopped {
            return Ok(AfterChild {
                fire: None,
                pass: value,
            });
        }
        match self.lists.get_mut(list.number()) {
            None => Ok(AfterChild {
                fire: None,
                pass: value,
            }),
            Some(gather) => gather.child_fired(place, value),
        }
    }

    /// Returns this for a change that couldn't be logged, and stops the run; AllocError where
    /// memory was refused.
    fn stopped_by<T: Drop>(&mut self, stop: Stop, otherwise: T) -> Result<T, AllocError>
        ensures stopped { OnOk result ((stop ≡ Stop.Limit) × (self.new ≡ with_stop self.old)) }
        ensures value { IfOk result (λ x. x ≡ otherwise) }
        ensures err { OnErr result ((stop ≡ Stop.OutOfMemory) × (self.new ≡ self.old)) }
    {
        self.stopped = stopped(stop)?;
        Ok(otherwise)
    }

    /// Drops a world. Prefer this to an implicit drop: the caller's crate then doesn't re-prove how
    /// its fields are dropped.
    pub fn discard(self) {
        drop(self);
    }

    /// Its journal, whether it has stopped, and all records in order of making.
    pub fn into_parts(self) -> (Journal, bool, Vec<Record<Pair<'s>, Canceller<'s>>>)
        ensures journal { result.0 ≡ self.entry.journal }
        ensures stopped { result.1 ≡ self.entry.stopped }
        ensures records { result.2.items ≡ self.entry.records }
    {
        let mut world = self;
        let alloc = world.alloc;
        let journal = mem::replace(&mut world.journal, Journal::new(alloc, 0));
        let store = mem::replace(&mut world.store, Store::new(alloc));
        let stopped = world.stopped;
        world.discard();
        (journal, stopped, store.into_records())
    }

    /// Drops it, and returns all that it had, but for names, bodies, lists and works.
    pub fn into_all(self) -> Parts<'s>
        ensures journal { result.journal ≡ self.entry.journal }
        ensures stopped { result.stopped ≡ self.entry.stopped }
        ensures records { result.records.items ≡ self.entry.records }
        ensures semaphores { result.semaphores.items ≡ self.entry.objects.semaphores }
        ensures queues { result.queues.items ≡ self.entry.objects.queues }
        ensures calls { result.calls.items ≡ self.entry.objects.clock.calls }
        ensures loops { result.loops.items ≡ self.entry.objects.loops }
        ensures tasks { result.tasks.items ≡ self.entry.objects.cooperators.tasks }
        ensures inlines { result.inlines ≡ self.entry.objects.inlines }
    {
        let World {
            alloc: _,
            classes: _,
            declared: _,
            ends_throw: _,
            names: _,
            locks: _,
            semaphores,
            queue_names: _,
            queues,
            lists: _,
            clock,
            call_names: _,
            bodies: _,
            loop_names: _,
            loops,
            cooperators,
            inlines,
            works: _,
            store,
            journal,
            stopped,
        } = self;
        Parts {
            journal,
            stopped,
            records: store.into_records(),
            semaphores,
            queues,
            calls: clock.into_calls(),
            loops,
            tasks: cooperators.into_tasks(),
            inlines,
        }
    }
}

/// The text of a name, where there is one.
fn text_of<'s>(alloc: Global, name: &Option<TextRef<'s>>) -> Result<Option<Text>, AllocError>
    ensures { IfOk result (λ text. text ≡ name.now) }
{
    match name {
        None => Ok(None),
        Some(name) => Ok(Some(Text::of(alloc, name.as_str())?)),
    }
}
