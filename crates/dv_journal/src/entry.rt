ghost use Rattle.std.specs.Prelude.{◌≡◌, ◌^◌, ◌-◌, min};
ghost use Rattle.dv_journal.specs.Borrowed.{parts_in};
ghost use Rattle.dv_journal.specs.Entry.{weight_of};
ghost use Rattle.dv_journal.specs.Forms.{form_in, form_of};
ghost use Rattle.dv_journal.specs.Parts.{parts_of};
ghost use Rattle.dv_journal.specs.Told.{is_unhandled, is_unmet};

use crate::deferred_id::DeferredId;
use crate::form::Naming::{Any, Last, Made};
use crate::form::ObjectKind::{Body, Call, Cooperator, Lock, Loop, Queue, Task};
use crate::forms;
use crate::part::Part::{
    Bound, Deferred, Due, Fired, Job, Name, NewName, Number, Object, Outcome, Time,
};
use crate::part::Parts::{Nothing, One, Three, Two};
use crate::part::{Line, Part};
use crate::state::State;
use dv_value::boxed::Boxed;
use dv_value::expected::Expected;
use dv_value::failure::Failure;
use dv_value::text::Text;
use dv_value::value::Value;

/// What one line of the journal logs. An entry is written before the change that it logs.
///
/// In the lines below `N` and `E` are numbers of Deferreds, `O` is what an outcome shows of a value
/// (`ok` and its JSON, or `fail` and its failure), `F` is a failure, `J` is the JSON of a value,
/// and `TIME` is in ticks of the virtual clock. A name is that of the object at its making.
#[derive(Drop)]
pub enum Entry {
    /// `new #N NAME`: a Deferred is made; the name is `-` for one without.
    New(DeferredId, Option<Text>),
    /// `name #N NAME`: a Deferred that was made already gets a name.
    Name(DeferredId, Option<Text>),
    /// `add #N`: a pair is added.
    Add(DeferredId),
    /// `fire #N O`: an unfired Deferred is fired.
    Fire(DeferredId, Value),
    /// `swallow #N`: a fired Deferred is fired again, for the one time that its cancellation
    /// allows.
    Swallow(DeferredId),
    /// `refuse #N`: a fired Deferred is fired again, and the firing is refused.
    Refuse(DeferredId),
    /// `run #N`: the side of a pair runs.
    Run(DeferredId),
    /// `set #N O`: a side's plain result or failure becomes the Deferred's value.
    Set(DeferredId, Value),
    /// `take #N #E O`: a side of N gave E, whose value N takes at once.
    Take(DeferredId, DeferredId, Boxed<Value>),
    /// `wait #N #E`: a side of N gave E, and N waits for it.
    Wait(DeferredId, DeferredId),
    /// `hand #E #N O`: E hands its value over to N, which waited for it.
    Hand(DeferredId, DeferredId, Boxed<Value>),
    /// `pause #N`: the count of pauses goes up by one.
    Pause(DeferredId),
    /// `unpause #N`: the count of pauses goes down by one.
    Unpause(DeferredId),
    /// `cancel #N`: a Deferred is cancelled, whatever that results in.
    Cancel(DeferredId),
    /// `note J`: the script notes a text.
    Note(Text),
    /// `unhandled F`: a failure left an event, a delayed call, a delivery or a post.
    Unhandled(Boxed<Failure>),
    /// `lock L`: a lock is made.
    Lock(Text),
    /// `semaphore L TOKENS`: a semaphore of so many tokens is made.
    Semaphore(Text, u32),
    /// `acquire L #N`: a Deferred asks for a token of a lock or a semaphore.
    Acquire(Text, DeferredId),
    /// `release L`: a token of a lock or a semaphore is released.
    Release(Text),
    /// `queue Q SIZE BACKLOG`: a queue is made, with its bounds on what is stored and on who waits,
    /// `none` for no bound.
    Queue(Boxed<Text>, Option<u32>, Option<u32>),
    /// `put Q J`: a value is put into a queue.
    Put(Text, Boxed<Value>),
    /// `get Q #N`: a Deferred asks for a value of a queue.
    Get(Text, DeferredId),
    /// `later call C TIME`: a call of the script is scheduled, due at that time.
    LaterCall(Text, u64),
    /// `later loop P TIME`: the next turn of a loop is scheduled, due at that time.
    LaterLoop(Text, u64),
    /// `later tick TIME`: the cooperator's next tick is scheduled, due at that time.
    LaterTick(u64),
    /// `later tickin W TIME`: the next tick of the cooperator W is scheduled, due at that time.
    LaterTickIn(Text, u64),
    /// `later job K TIME`: the delivery of a job's result is scheduled, due at that time.
    LaterJob(u32, u64),
    /// `later timeout #N TIME`: a timer is set on a Deferred, due at that time.
    LaterTimeout(DeferredId, u64),
    /// `uncall C`: a delayed call is cancelled.
    Uncall(Text),
    /// `reset C TIME`: a delayed call that waits is due at that time from now on.
    Reset(Text, u64),
    /// `call C`: a delayed call runs.
    Call(Text),
    /// `tick`: the cooperator ticks.
    Tick,
    /// `tickin W`: the cooperator W ticks.
    TickIn(Text),
    /// `deliver K`: a job's result is delivered.
    Deliver(u32),
    /// `timeout #N`: the time of a timer on a Deferred has come.
    Timeout(DeferredId),
    /// `loop P #N`: a loop starts, and its Deferred fires when it ends.
    Loop(Text, DeferredId),
    /// `turn P`: a loop takes a turn.
    Turn(Text),
    /// `stop P`: a loop is stopped.
    Stop(Text),
    /// `task T`: a task is added to the cooperator.
    Task(Text),
    /// `taskin T W`: a task is added to the cooperator W.
    TaskIn(Text, Boxed<Text>),
    /// `step T`: a task takes a step.
    Step(Text),
    /// `hold T #N`: a step gave a Deferred, and the task is paused until that has come.
    Hold(Text, DeferredId),
    /// `end T O`: a task ends with this outcome.
    End(Text, Boxed<Value>),
    /// `pausetask T`: a task's count of pauses goes up by one.
    PauseTask(Text),
    /// `resumetask T`: a task's count of pauses goes down by one.
    ResumeTask(Text),
    /// `whendone T #N`: a Deferred is made that fires when the task ends.
    WhenDone(Text, DeferredId),
    /// `await #N #E`: the inline body of N awaits E.
    Await(DeferredId, DeferredId),
    /// `job K #N`: a job is submitted, and N fires with its result.
    Job(u32, DeferredId),
    /// `advance TIME`: the clock advances to that time.
    Advance(u64),
    /// `drain`: a batch of posts is performed.
    Drain,
    /// `post C K`: the K-th post of caller C is performed, both counted from 0.
    Post(u32, u32),
    /// `body NAME`: the body of this name in the script runs.
    Body(Text),
    /// `units N`: from its next tick on the cooperator takes so many steps a tick, at most.
    Units(u32),
    /// `unitsin W N`: from its next tick on the cooperator W takes so many steps a tick, at most.
    UnitsIn(Text, u32),
    /// `stopcooperator W`: the cooperator W is stopped.
    StopCooperator(Text),
    /// `expect #N S`: a Deferred is as the script expects, and S is what has become of it: an
    /// outcome, `unfired`, or `waiting #E`.
    Expect(DeferredId, Boxed<State>),
    /// `unmet #N S expected T`: a Deferred isn't as the script expects, which is T, and the run
    /// ends.
    Unmet(DeferredId, Boxed<State>, Boxed<Expected>),
    /// `unbound J`: the script expects something of a name that isn't bound, and the run ends.
    Unbound(Text),
}

impl Entry {
    /// Drops an entry that isn't written. A caller of it needs no proof of its own of what an entry
    /// holds.
    pub fn discard(self) {
        drop(self);
    }

    /// Whether the entry logs an unhandled failure.
    pub fn is_unhandled(&self) -> bool
        ensures { result ≡ is_unhandled self.now }
    {
        matches!(self, Entry::Unhandled(_))
    }

    /// Whether the entry logs that a Deferred isn't as the script expects, so that the run ends.
    pub fn is_unmet(&self) -> bool
        ensures { result ≡ is_unmet self.now }
    {
        matches!(self, Entry::Unmet(_, _, _) | Entry::Unbound(_))
    }

    /// The line of the entry in parts.
    #[inline(always)]
    pub fn line(&self) -> Line<'_>
        ensures form { form_in result.0 ≡ form_of self.now }
        ensures parts { parts_in result.1 ≡ parts_of self.now }
    {
        match self {
            Entry::New(id, name) => Line(forms::NEW, Two(Deferred(*id), NewName(name))),
            Entry::Name(id, name) => Line(forms::NAME, Two(Deferred(*id), Name(name))),
            Entry::Add(id) => Line(forms::ADD, One(Deferred(*id))),
            Entry::Fire(id, value) => Line(forms::FIRE, Two(Fired(*id), Outcome(value))),
            Entry::Swallow(id) => Line(forms::SWALLOW, One(Deferred(*id))),
            Entry::Refuse(id) => Line(forms::REFUSE, One(Deferred(*id))),
            Entry::Run(id) => Line(forms::RUN, One(Deferred(*id))),
            Entry::Set(id, value) => Line(forms::SET, Two(Deferred(*id), Outcome(value))),
            Entry::Take(id, from, value) => Line(
                forms::TAKE,
                Three(Deferred(*id), Deferred(*from), Outcome(value.get())),
            ),
            Entry::Wait(id, on) => Line(forms::WAIT, Two(Deferred(*id), Deferred(*on))),
            Entry::Hand(from, id, value) => Line(
                forms::HAND,
                Three(Deferred(*from), Deferred(*id), Outcome(value.get())),
            ),
            Entry::Pause(id) => Line(forms::PAUSE, One(Deferred(*id))),
            Entry::Unpause(id) => Line(forms::UNPAUSE, One(Deferred(*id))),
            Entry::Cancel(id) => Line(forms::CANCEL, One(Deferred(*id))),
            Entry::Note(text) => Line(forms::NOTE, One(Part::Text(text))),
            Entry::Unhandled(failure) => Line(forms::UNHANDLED, One(Part::Failure(failure.get()))),
            Entry::Lock(name) => Line(forms::LOCK, One(Object(Lock, Made, name))),
            Entry::Semaphore(name, tokens) => Line(
                forms::SEMAPHORE,
                Two(Object(Lock, Made, name), Number(*tokens)),
            ),
            Entry::Acquire(name, id) => Line(
                forms::ACQUIRE,
                Two(Object(Lock, Last, name), Deferred(*id)),
            ),
            Entry::Release(name) => Line(forms::RELEASE, One(Object(Lock, Any, name))),
            Entry::Queue(name, most_stored, most_waiting) => Line(
                forms::QUEUE,
                Three(
                    Object(Queue, Made, name.get()),
                    Bound(*most_stored),
                    Bound(*most_waiting),
                ),
            ),
            Entry::Put(name, value) => Line(
                forms::PUT,
                Two(Object(Queue, Last, name), Part::Value(value.get())),
            ),
            Entry::Get(name, id) => Line(forms::GET, Two(Object(Queue, Last, name), Deferred(*id))),
            Entry::LaterCall(name, due) => Line(
                forms::LATER_CALL,
                Two(Object(Call, Made, name), Due(*due)),
            ),
            Entry::LaterLoop(name, due) => Line(
                forms::LATER_LOOP,
                Two(Object(Loop, Any, name), Due(*due)),
            ),
            Entry::LaterTick(due) => Line(forms::LATER_TICK, One(Due(*due))),
            Entry::LaterTickIn(name, due) => Line(
                forms::LATER_TICK_IN,
                Two(Object(Cooperator, Any, name), Due(*due)),
            ),
            Entry::LaterJob(job, due) => Line(forms::LATER_JOB, Two(Job(*job), Due(*due))),
            Entry::LaterTimeout(id, due) => Line(
                forms::LATER_TIMEOUT,
                Two(Deferred(*id), Due(*due)),
            ),
            Entry::Uncall(name) => Line(forms::UNCALL, One(Object(Call, Last, name))),
            Entry::Reset(name, due) => Line(forms::RESET, Two(Object(Call, Last, name), Due(*due))),
            Entry::Call(name) => Line(forms::CALL, One(Object(Call, Any, name))),
            Entry::Tick => Line(forms::TICK, Nothing),
            Entry::TickIn(name) => Line(forms::TICK_IN, One(Object(Cooperator, Any, name))),
            Entry::Deliver(job) => Line(forms::DELIVER, One(Job(*job))),
            Entry::Timeout(id) => Line(forms::TIMEOUT, One(Deferred(*id))),
            Entry::Loop(name, id) => Line(
                forms::LOOP,
                Two(Object(Loop, Made, name), Deferred(*id)),
            ),
            Entry::Turn(name) => Line(forms::TURN, One(Object(Loop, Any, name))),
            Entry::Stop(name) => Line(forms::STOP, One(Object(Loop, Last, name))),
            Entry::Task(name) => Line(forms::TASK, One(Object(Task, Made, name))),
            Entry::TaskIn(name, of) => Line(
                forms::TASK_IN,
                Two(Object(Task, Made, name), Object(Cooperator, Any, of.get())),
            ),
            Entry::Step(name) => Line(forms::STEP, One(Object(Task, Any, name))),
            Entry::Hold(name, id) => Line(forms::HOLD, Two(Object(Task, Any, name), Deferred(*id))),
            Entry::End(name, value) => Line(
                forms::END,
                Two(Object(Task, Any, name), Outcome(value.get())),
            ),
            Entry::PauseTask(name) => Line(forms::PAUSE_TASK, One(Object(Task, Last, name))),
            Entry::ResumeTask(name) => Line(forms::RESUME_TASK, One(Object(Task, Any, name))),
            Entry::WhenDone(name, id) => Line(
                forms::WHEN_DONE,
                Two(Object(Task, Last, name), Deferred(*id)),
            ),
            Entry::Await(id, on) => Line(forms::AWAIT, Two(Deferred(*id), Deferred(*on))),
            Entry::Job(job, id) => Line(forms::JOB, Two(Job(*job), Deferred(*id))),
            Entry::Advance(time) => Line(forms::ADVANCE, One(Time(*time))),
            Entry::Drain => Line(forms::DRAIN, Nothing),
            Entry::Post(caller, index) => Line(forms::POST, Two(Number(*caller), Number(*index))),
            Entry::Body(name) => Line(forms::BODY, One(Object(Body, Any, name))),
            Entry::Units(units) => Line(forms::UNITS, One(Number(*units))),
            Entry::UnitsIn(name, units) => Line(
                forms::UNITS_IN,
                Two(Object(Cooperator, Any, name), Number(*units)),
            ),
            Entry::StopCooperator(name) => Line(
                forms::STOP_COOPERATOR,
                One(Object(Cooperator, Any, name)),
            ),
            Entry::Expect(id, state) => Line(
                forms::EXPECT,
                Two(Deferred(*id), Part::State(state.get())),
            ),
            Entry::Unmet(id, state, expected) => Line(
                forms::UNMET,
                Three(
                    Deferred(*id),
                    Part::State(state.get()),
                    Part::Expected(expected.get()),
                ),
            ),
            Entry::Unbound(name) => Line(forms::UNBOUND, One(Part::Text(name))),
        }
    }

    /// How much the entry counts against the journal's limit: one, and the size of the value, the
    /// failure or the noted text that its line shows. It stops at `u64::MAX`.
    pub fn weight(&self) -> u64
        ensures { result ≡ min (weight_of self.now) (2 ^ 64 - 1) }
    {
        match self.line().1 {
            Nothing => 1,
            One(part) => part.weight_with(1),
            Two(part, other) => other.weight_with(part.weight_with(1)),
            Three(part, other, last) => last.weight_with(other.weight_with(part.weight_with(1))),
        }
    }
}
