ghost use Rattle.std.specs.Prelude.{◌≡◌, [], OnOk};
ghost use Rattle.dv_definition.specs.Rule.{after};
ghost use Rattle.dv_definition.specs.Scripts.{Posts, Occurs, rule_of};
ghost use Rattle.dv_frames.specs.Bounds.{Bounded};
ghost use Rattle.dv_objects.specs.declared.performed.Performed.TheVariants.{Done};
ghost use Rattle.dv_loop.specs.Meaning.{Ends, Happens};
ghost use Rattle.dv_loop.specs.TurnEnds.{ending};

use crate::beginning::{begin_event, begin_post};
use crate::taking::clear;
use crate::turn_end::TurnEnd;
use crate::turning::perform_frame;
use dv_frames::frame::Frame;
use dv_frames::turn::Turn;
use dv_inline::poller::Poller;
use dv_jobs::source::JobSource;
use dv_objects::performed::Performed;
use dv_posts::posted::Posted;
use dv_script::body::Body;
use dv_script::event::Event;
use dv_threads::submissions::Submissions;
use dv_threads::threading::deliver;
use std::alloc::{AllocError, AllocGlobal};
use std::random::RandomSource;
use std::sync::Wait;

/// Runs an event, with all that follows from it, in one loop over a stack of what is still to be
/// done, so that what a run nests isn't on the machine's stack. What lies on that stack at first is
/// dropped, and its room is used again. The jobs that are made are submitted, and where a job's
/// result is due it may wait for that. In a run that has stopped nothing is done, and that is no
/// error; the only error is out of memory.
#[tactic(auto, using(crate::proofs::Stopped::happens_stopped, crate::proofs::Turns::happening_bounded, crate::proofs::JobsKept::happening_goes_on))]
pub fn run_event<'s, R, J>(
    rt: &R,
    poller: &Poller,
    jobs: &mut Submissions<'s, J>,
    turn: &mut Turn<'s>,
    event: &'s Event,
) -> Result<(), AllocError>
where
    R: Wait + RandomSource + AllocGlobal,
    J: JobSource,
    requires bounded { Bounded turn.old.world }
    requires jobs { jobs.old ≡ turn.old.world.works }
    ensures happens { OnOk result (Happens (Occurs event.now) turn.old.world turn.new.world) }
    ensures jobs { OnOk result (jobs.new ≡ turn.new.world.works) }
{
    if turn.world.is_stopped() {
        return Ok(());
    }
    clear_turn(turn);
    begin_event(turn, event)?;
    jobs.submit_all(turn.alloc, turn.world.works())?;
    run(rt, poller, jobs, turn)
}

/// Runs a post, with all that follows from it; as `run_event`.
#[tactic(auto, using(crate::proofs::Stopped::happens_stopped, crate::proofs::Turns::happening_bounded, crate::proofs::JobsKept::happening_goes_on))]
pub fn run_post<'s, R, J>(
    rt: &R,
    poller: &Poller,
    jobs: &mut Submissions<'s, J>,
    turn: &mut Turn<'s>,
    posted: &Posted,
    body: &'s Body,
) -> Result<(), AllocError>
where
    R: Wait + RandomSource + AllocGlobal,
    J: JobSource,
    requires bounded { Bounded turn.old.world }
    requires jobs { jobs.old ≡ turn.old.world.works }
    ensures happens { OnOk result
        (Happens (Posts posted.now body.now) turn.old.world turn.new.world) }
    ensures jobs { OnOk result (jobs.new ≡ turn.new.world.works) }
{
    if turn.world.is_stopped() {
        return Ok(());
    }
    clear_turn(turn);
    begin_post(turn, posted, body)?;
    jobs.submit_all(turn.alloc, turn.world.works())?;
    run(rt, poller, jobs, turn)
}

/// Drops what is still to be done and what was given. The room of the stack is kept.
#[inline(always)]
fn clear_turn(turn: &mut Turn<'_>)
    ensures { turn.new ≡ record turn.old { stack = []; performed = Done } }
{
    turn.stack.clear();
    clear(&mut turn.performed);
}

/// Goes on until the stack is empty, or the run has stopped: then what is left on the stack would
/// change nothing.
#[tactic(auto, using(crate::proofs::Stopped::loop_stopped))]
fn run<'s, R, J>(
    rt: &R,
    poller: &Poller,
    jobs: &mut Submissions<'s, J>,
    turn: &mut Turn<'s>,
) -> Result<(), AllocError>
where
    R: Wait + RandomSource + AllocGlobal,
    J: JobSource,
    requires bounded { Bounded turn.old.world }
    requires jobs { jobs.old ≡ turn.old.world.works }
    ensures ends { OnOk result
        (Ends turn.old.stack turn.old.performed turn.old.world turn.new.world) }
    ensures jobs { OnOk result (jobs.new ≡ turn.new.world.works) }
{
    'turns: while !turn.world.is_stopped() {
        let Some(frame) = turn.stack.pop() else {
            return Ok(());
        };
        go_on_with(rt, poller, jobs, turn, frame)?;
    }
    Ok(())
}

/// Goes on with the frame that was on top, and submits the jobs that are made.
#[tactic(auto, using(crate::proofs::JobsKept::turned_goes_on))]
fn go_on_with<'s, R, J>(
    rt: &R,
    poller: &Poller,
    jobs: &mut Submissions<'s, J>,
    turn: &mut Turn<'s>,
    frame: Frame<'s>,
) -> Result<(), AllocError>
where
    R: Wait + RandomSource + AllocGlobal,
    J: JobSource,
    requires bounded { Bounded turn.old.world }
    requires jobs { jobs.old ≡ turn.old.world.works }
    ensures turned { OnOk result
        (turn.new ≡ after (rule_of frame.entry turn.old.performed) turn.old) }
    ensures jobs { OnOk result (jobs.new ≡ turn.new.world.works) }
{
    let end = perform_frame(poller, turn, frame)?;
    jobs.submit_all(turn.alloc, turn.world.works())?;
    finish_turn(rt, jobs, turn, end)
}

/// Ends a turn: where a job's result is due, waits for the job if it has to, and fires its
/// Deferred.
fn finish_turn<'s, R, J>(
    rt: &R,
    jobs: &mut Submissions<'s, J>,
    turn: &mut Turn<'s>,
    end: TurnEnd,
) -> Result<(), AllocError>
where
    R: Wait + RandomSource + AllocGlobal,
    J: JobSource,
    requires { jobs.old ≡ turn.old.world.works }
    ensures ended { OnOk result (turn.new ≡ ending end turn.old) }
    ensures jobs { OnOk result (jobs.new ≡ turn.new.world.works) }
{
    match end {
        TurnEnd::Ended => Ok(()),
        TurnEnd::Delivers(job, id) => {
            let value = jobs.outcome(rt, turn.alloc, job)?;
            turn.performed = Performed::Done;
            deliver(turn, id, value)
        }
    }
}
