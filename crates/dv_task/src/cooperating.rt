ghost use Rattle.std.specs.Prelude.{◌≡◌, ◌++◌, OnOk};
ghost use Rattle.dv_frames.specs.Bounds.{Bounded};
ghost use Rattle.dv_definition.specs.Definition as page;
ghost use Rattle.dv_definition.specs.Rule.{after, ◌next◌};
ghost use Rattle.dv_definition.specs.Steps.{NewTask, SetUnitsIn, WantTick};
ghost use Rattle.dv_definition.specs.Words.{finished, is_over, on_cooperator, on_task};
ghost use Rattle.dv_objects.specs.declared.performed.Performed.TheVariants.{Done, Awaits};

use dv_clock::cooperator_id::CooperatorId;
use dv_clock::task_id::TaskId;
use dv_frames::following::{fire_and_settle, whole};
use dv_frames::frame::Frame;
use dv_frames::frames::Frames;
use dv_frames::turn::Turn;
use dv_journal::deferred_id::DeferredId;
use dv_objects::input::Input;
use dv_objects::pair::Pair;
use dv_objects::performed::Performed;
use dv_objects::task::TaskEnd;
use dv_script::lent::{BodiesRef, BodyRef, TextRef};
use dv_value::boxed::Boxed;
use dv_value::failure::Failure;
use dv_world::world::World;
use dv_world::world::cooperating::not_paused;
use std::alloc::AllocError;

/// Makes a task, which takes turns (Twisted: `Cooperator.cooperate`).
pub fn cooperate<'s>(
    turn: &mut Turn<'s>,
    name: TextRef<'s>,
    bodies: BodiesRef<'s>,
) -> Result<(), AllocError>
    requires done { turn.old.performed ≡ Done }
    ensures { OnOk result (turn.new
        ≡ after (NewTask name.entry bodies.entry next WantTick 0 next finished) turn.old) }
{
    turn.world.make_task(name, bodies)?;
    turn.world.want_tick(CooperatorId::new(0))
}

/// Makes a task in a Cooperator that the script names (Twisted: `Cooperator.cooperate`).
pub fn cooperate_in<'s>(
    turn: &mut Turn<'s>,
    name: TextRef<'s>,
    called: &str,
    bodies: BodiesRef<'s>,
) -> Result<(), AllocError>
    requires done { turn.old.performed ≡ Done }
    ensures { OnOk result (turn.new ≡ after (on_cooperator called.now
        λ k. page.cooperate_in k name.entry called.now bodies.entry) turn.old) }
{
    let Some(of) = turn.find_cooperator(called)? else {
        return Ok(());
    };
    let task = turn.world.next_task()?;
    turn.world.make_task_in(of, name, called, bodies)?;
    end_joining(turn, of, task)
}

/// Each tick of a Cooperator that the script names has so many steps from the next one on (Twisted:
/// `Cooperator`, its `terminationPredicateFactory`).
pub fn set_units_in<'s>(turn: &mut Turn<'s>, name: &str, units: u32) -> Result<(), AllocError>
    requires done { turn.old.performed ≡ Done }
    ensures { OnOk result (turn.new ≡ after (on_cooperator name.now
        λ k. SetUnitsIn k name.now units next finished) turn.old) }
{
    let Some(of) = turn.find_cooperator(name)? else {
        return Ok(());
    };
    turn.world.set_units_in(of, name, units)
}

/// Stops a Cooperator that the script names, and ends its tasks that take turns, in order (Twisted:
/// `Cooperator.stop`).
pub fn stop_cooperator<'s>(turn: &mut Turn<'s>, name: &str) -> Result<(), AllocError>
    requires done { turn.old.performed ≡ Done }
    ensures { OnOk result
        (turn.new ≡ after (on_cooperator name.now (page.stop_cooperator name.now)) turn.old) }
{
    let Some(of) = turn.find_cooperator(name)? else {
        return Ok(());
    };
    halt(turn, of, name)
}

/// Stops a Cooperator, and ends its tasks that take turns, in order.
fn halt<'s>(turn: &mut Turn<'s>, of: CooperatorId, name: &str) -> Result<(), AllocError>
    requires done { turn.old.performed ≡ Done }
    ensures { OnOk result (turn.new ≡ after (page.stop_cooperator name.now of) turn.old) }
{
    let Some(one) = turn.world.cooperator(of) else {
        return Ok(());
    };
    let tasks = one.turns.to_items(turn.alloc)?;
    turn.world.halt(of, name)?;
    halt_all(&mut turn.stack, tasks.as_slice())
}

/// Each of these tasks is to end, in order, since its Cooperator was stopped.
fn halt_all<'s>(stack: &mut Frames<'s>, tasks: &[TaskId]) -> Result<(), AllocError>
    ensures { OnOk result (stack.new ≡ page.halt_all tasks.now ++ stack.old) }
{
    for place in (0..tasks.len()).rev() {
        stack.push(Frame::Halt(tasks[place]))?;
    }
    Ok(())
}

/// Ends a task with SchedulerStopped, unless it is paused or has ended.
pub fn halt_task<'s>(turn: &mut Turn<'s>, task: TaskId) -> Result<(), AllocError>
    requires done { turn.old.performed ≡ Done }
    ensures { OnOk result (turn.new ≡ after (page.halt_task task) turn.old) }
{
    let Some(found) = turn.world.task(task) else {
        return Ok(());
    };
    if found.pauses != 0 {
        return Ok(());
    }
    end(turn, task, TaskEnd::Halted)
}

/// A task has joined a Cooperator: it takes turns there, and in one that was stopped it ends.
fn end_joining<'s>(turn: &mut Turn<'s>, of: CooperatorId, task: TaskId) -> Result<(), AllocError>
    requires done { turn.old.performed ≡ Done }
    ensures { OnOk result (turn.new ≡ after (page.joined_in of task) turn.old) }
{
    let Some(one) = turn.world.cooperator(of) else {
        return Ok(());
    };
    if one.stopped {
        return halt_task(turn, task);
    }
    turn.world.want_tick(of)
}

/// Makes a Deferred that is fired when a task ends, which is given by its name (Twisted:
/// `CooperativeTask.whenDone`).
pub fn when_done<'s>(turn: &mut Turn<'s>, name: TextRef<'s>, task: &str) -> Result<(), AllocError>
    requires bounded { Bounded turn.old.world }
    requires done { turn.old.performed ≡ Done }
    ensures { OnOk result
        (turn.new ≡ after (on_task task.now λ t. page.when_done name.entry t) turn.old) }
{
    let Some(found) = turn.find_task(task)? else {
        return Ok(());
    };
    ask_when(turn, name, found)
}

/// Makes a Deferred that is fired when a task ends, at once where it has ended.
#[tactic(auto, using(dv_frames::proofs::BoundsLemmas::records_within))]
fn ask_when<'s>(turn: &mut Turn<'s>, name: TextRef<'s>, task: TaskId) -> Result<(), AllocError>
    requires bounded { Bounded turn.old.world }
    requires done { turn.old.performed ≡ Done }
    ensures { OnOk result (turn.new ≡ after (page.when_done name.entry task) turn.old) }
{
    let id = turn.world.next_id();
    turn.world.make(Some(name), None)?;
    turn.world.await_task(task, id)?;
    notify(turn, id, task)
}

/// Fires a Deferred with how a task has ended, if it has.
pub fn notify<'s>(turn: &mut Turn<'s>, id: DeferredId, task: TaskId) -> Result<(), AllocError>
    requires done { turn.old.performed ≡ Done }
    ensures { OnOk result (turn.new ≡ after (page.notify id task) turn.old) }
{
    let Some(found) = turn.world.task(task) else {
        return Ok(());
    };
    let Some(end) = &found.end else {
        return Ok(());
    };
    let result = end.result(turn.alloc, found.name.as_str())?;
    fire_and_settle(turn, id, result)
}

/// Pauses a task by its name (Twisted: `CooperativeTask.pause`).
pub fn pause_task<'s>(turn: &mut Turn<'s>, name: &str) -> Result<(), AllocError>
    requires done { turn.old.performed ≡ Done }
    ensures { OnOk result (turn.new ≡ after (on_task name.now page.pause_task) turn.old) }
{
    let Some(task) = turn.find_task(name)? else {
        return Ok(());
    };
    pause(turn, task)
}

/// Pauses a task, unless it has ended.
fn pause<'s>(turn: &mut Turn<'s>, task: TaskId) -> Result<(), AllocError>
    requires done { turn.old.performed ≡ Done }
    ensures { OnOk result (turn.new ≡ after (page.pause_task task) turn.old) }
{
    let Some(found) = turn.world.task(task) else {
        return Ok(());
    };
    if let Some(end) = &found.end {
        return {
            turn.performed = Performed::Raised(end.raised(turn.alloc)?);
            Ok(())
        };
    }
    let of = found.of;
    turn.world.pause_task(task)?;
    turn.world.keep_tick(of)
}

/// Resumes a task by its name (Twisted: `CooperativeTask.resume`).
pub fn resume_task<'s>(turn: &mut Turn<'s>, name: &str) -> Result<(), AllocError>
    requires done { turn.old.performed ≡ Done }
    ensures { OnOk result (turn.new ≡ after (on_task name.now page.resume_task) turn.old) }
{
    let Some(task) = turn.find_task(name)? else {
        return Ok(());
    };
    resume(turn, task)
}

/// Resumes a task, which is to be paused.
fn resume<'s>(turn: &mut Turn<'s>, task: TaskId) -> Result<(), AllocError>
    requires done { turn.old.performed ≡ Done }
    ensures { OnOk result (turn.new ≡ after (page.resume_task task) turn.old) }
{
    let Some(found) = turn.world.task(task) else {
        return Ok(());
    };
    if found.pauses == 0 {
        turn.performed = not_paused(turn.alloc)?;
        return Ok(());
    }
    let of = found.of;
    let again = found.takes_turns_again();
    turn.world.resume_task(task)?;
    if !again {
        return Ok(());
    }
    end_joining(turn, of, task)
}

/// Stops a task by its name (Twisted: `CooperativeTask.stop`).
pub fn stop_task<'s>(turn: &mut Turn<'s>, name: &str) -> Result<(), AllocError>
    requires done { turn.old.performed ≡ Done }
    ensures { OnOk result (turn.new ≡ after (on_task name.now page.stop_task) turn.old) }
{
    let Some(task) = turn.find_task(name)? else {
        return Ok(());
    };
    stop(turn, task)
}

/// Stops a task, unless it has ended.
fn stop<'s>(turn: &mut Turn<'s>, task: TaskId) -> Result<(), AllocError>
    requires done { turn.old.performed ≡ Done }
    ensures { OnOk result (turn.new ≡ after (page.stop_task task) turn.old) }
{
    let Some(found) = turn.world.task(task) else {
        return Ok(());
    };
    if let Some(end) = &found.end {
        return {
            turn.performed = Performed::Raised(end.raised(turn.alloc)?);
            Ok(())
        };
    }
    end(turn, task, TaskEnd::Stopped)
}

/// Ends a task, unless it has ended, and fires each that waits for that, in order.
fn end<'s>(turn: &mut Turn<'s>, task: TaskId, end: TaskEnd) -> Result<(), AllocError>
    requires done { turn.old.performed ≡ Done }
    ensures { OnOk result (turn.new ≡ after (page.end_task task end) turn.old) }
{
    let Some(found) = turn.world.task(task) else {
        drop(end);
        return Ok(());
    };
    let of = found.of;
    let waiting = turn.world.end_task(task, end)?;
    notify_all(&mut turn.stack, task, waiting.as_slice())?;
    turn.world.keep_tick(of)
}

/// Each Deferred that waits for the end of a task is to be fired, in order.
fn notify_all<'s>(
    stack: &mut Frames<'s>,
    task: TaskId,
    waiting: &[DeferredId],
) -> Result<(), AllocError>
    ensures { OnOk result (stack.new ≡ page.notify_all task waiting.now ++ stack.old) }
{
    for place in (0..waiting.len()).rev() {
        stack.push(Frame::Tell)?;
        stack.push(Frame::Notify(waiting[place], task))?;
    }
    Ok(())
}

/// Resumes a task when what it waited for has a value, unless the task has ended.
pub fn end_hold<'s>(turn: &mut Turn<'s>, task: TaskId) -> Result<(), AllocError>
    requires done { turn.old.performed ≡ Done }
    ensures { OnOk result (turn.new ≡ after (page.resume_held task) turn.old) }
{
    if has_ended(&turn.world, task) {
        return Ok(());
    }
    resume(turn, task)
}

/// A task ends with a failure, where there is one, unless it has ended.
pub fn fail_where<'s>(
    turn: &mut Turn<'s>,
    task: TaskId,
    failure: Option<Boxed<Failure>>,
) -> Result<(), AllocError>
    requires done { turn.old.performed ≡ Done }
    ensures { OnOk result (turn.new ≡ after (page.fail_task task failure) turn.old) }
{
    match failure {
        None => Ok(()),
        Some(failure) => end(turn, task, TaskEnd::Failed(failure)),
    }
}

/// A body of a task has ended: a failure ends the task, and a Deferred that it gave is waited for.
pub fn end_step<'s>(
    turn: &mut Turn<'s>,
    task: TaskId,
    performed: Performed<'s>,
) -> Result<(), AllocError>
    requires done { turn.old.performed ≡ Done }
    ensures { OnOk result (turn.new ≡ after (page.step_ended task performed.entry) turn.old) }
{
    if has_ended(&turn.world, task) {
        drop(performed);
        return Ok(());
    }
    use_step(turn, task, performed)
}

/// A body of a task that hasn't ended has ended.
fn use_step<'s>(
    turn: &mut Turn<'s>,
    task: TaskId,
    performed: Performed<'s>,
) -> Result<(), AllocError>
    requires done { turn.old.performed ≡ Done }
    ensures { OnOk result (turn.new ≡ after (page.after_step task performed.entry) turn.old) }
{
    match performed {
        Performed::Done => Ok(()),
        Performed::Gave(given) => fail_where(turn, task, given.into_failure(turn.alloc)?),
        Performed::Raised(failure) => end(turn, task, TaskEnd::Failed(failure)),
        Performed::Awaits(id) => hold(turn, task, id),
    }
}

/// A task waits for a Deferred that a body of it gave.
fn hold<'s>(turn: &mut Turn<'s>, task: TaskId, id: DeferredId) -> Result<(), AllocError>
    requires done { turn.old.performed ≡ Done }
    ensures { OnOk result (turn.new ≡ after (page.after_step task (Awaits id)) turn.old) }
{
    let Some(found) = turn.world.task(task) else {
        return Ok(());
    };
    let of = found.of;
    turn.world.hold_task(task, id)?;
    turn.world.keep_tick(of)?;
    turn.stack.push(Frame::Add(id, Pair::resuming(task)))
}

/// Whether a task has ended, or there is none of that id.
fn has_ended<'s>(world: &World<'s>, task: TaskId) -> bool
    ensures { result ≡ is_over task world.now }
{
    match world.task(task) {
        None => true,
        Some(found) => found.end.is_some(),
    }
}

/// Goes on with a tick of a Cooperator: takes a step, while one is left and a task takes turns;
/// else the next tick is scheduled.
pub fn go_on_ticking<'s>(
    turn: &mut Turn<'s>,
    of: CooperatorId,
    units: u32,
) -> Result<(), AllocError>
    requires done { turn.old.performed ≡ Done }
    ensures { OnOk result (turn.new ≡ after (page.tick of units) turn.old) }
{
    match units.checked_sub(1) {
        None => end_tick(turn, of),
        Some(left) => take_step(turn, of, left),
    }
}

/// A step is taken, and then so many more.
fn take_step<'s>(turn: &mut Turn<'s>, of: CooperatorId, left: u32) -> Result<(), AllocError>
    requires done { turn.old.performed ≡ Done }
    ensures { OnOk result (turn.new ≡ after (page.step_of_tick of left) turn.old) }
{
    match turn.world.take_step(of)? {
        None => end_tick(turn, of),
        Some((task, body)) => {
            turn.stack.push(Frame::Tick(of, left))?;
            begin_step(turn, task, body)
        }
    }
}

/// A task takes a step: its next body is performed, or it ends.
fn begin_step<'s>(
    turn: &mut Turn<'s>,
    task: TaskId,
    body: Option<BodyRef<'s>>,
) -> Result<(), AllocError>
    requires done { turn.old.performed ≡ Done }
    ensures { OnOk result (turn.new ≡ after (page.perform_next task body.entry) turn.old) }
{
    match body {
        None => end(turn, task, TaskEnd::Finished),
        Some(body) => {
            turn.stack.push(Frame::Stepped(task))?;
            turn.stack
                .push(Frame::Rest(whole(None, body, Input::null())))
        }
    }
}

/// No step is left in a tick of a Cooperator.
fn end_tick(turn: &mut Turn<'_>, of: CooperatorId) -> Result<(), AllocError>
    requires done { turn.old.performed ≡ Done }
    ensures { OnOk result (turn.new ≡ after (page.tick_ended of) turn.old) }
{
    turn.world.end_tick(of);
    turn.world.keep_tick(of)
}

/// A tick of a Cooperator is due: its steps are to be taken. What is due after it lies on the stack
/// already.
pub fn begin_tick(turn: &mut Turn<'_>, of: CooperatorId) -> Result<(), AllocError>
    requires done { turn.old.performed ≡ Done }
    ensures { OnOk result (turn.new ≡ after (page.begin_tick of) turn.old) }
{
    let Some(one) = turn.world.cooperator(of) else {
        return Ok(());
    };
    let units = one.units;
    turn.world.begin_tick(of);
    turn.stack.push(Frame::Tick(of, units))
}
