ghost use Rattle.std.specs.Prelude.{◌<◌};
ghost use Rattle.dv_pool.specs.Worker.{IsEndOf, IsFresh, HasServed};

use crate::answer_queue::{AnswerToken, Answers, put};
use crate::job_deque::{JobToken, Thief, steal};
use dv_jobs::gate::Gate;
use std::alloc::Global;
use std::sync::Wait;
use std::sync::atomic::{AtomicU32, Ordering};
use std::thread;
use std::thread::Parker;
use std::time::Duration;

/// What the threads of a pool share.
#[derive(Drop)]
pub struct Shared {
    pub thief: Thief,
    pub answers: Answers,
    /// The number of the worker that is to leave, or `EVERYBODY`. The owner, 0, never leaves.
    pub leaving: AtomicU32,
}

/// Stands for every number.
pub const EVERYBODY: u32 = u32::MAX;

/// The tokens of one worker.
#[derive(Drop)]
pub struct End {
    pub jobs: JobToken,
    pub answers: AnswerToken,
}

/// How often a worker looks for a job in vain, one look after the other, before it rests.
const LOOKS_BEFORE_REST: u32 = 128;

/// How long it rests then before it looks again, in microseconds.
const REST: u64 = 100;

/// Leaves the processor to others if no job was found, so many times one after the other: by a
/// yield at first, and then by a rest, so that workers that have nothing to do take little of the
/// processors.
fn idle<R: Wait>(rt: &R, parker: &Parker, looks: u32) {
    if looks < LOOKS_BEFORE_REST {
        thread::yield_now();
    } else {
        parker.park_timeout(rt, Duration::from_micros(REST));
    }
}

/// Answers jobs until the worker of this number has to leave.
pub fn serve<R: Wait, G: Gate>(
    rt: &R,
    alloc: Global,
    shared: &Shared,
    gate: &G,
    number: u32,
    end: End,
) -> End
    requires end { IsEndOf shared.now end }
    requires fresh { IsFresh end }
    ensures end { IsEndOf shared.now result }
    ensures served { HasServed result }
{
    let mut end = end;
    let parker = Parker::new();
    let mut looks = 0u32;
    for _ in rt.forever() {
        let leaving = shared.leaving.load(Ordering::SeqCst);
        if leaving == number || leaving == EVERYBODY {
            break;
        }
        match steal(&shared.thief, &mut end.jobs) {
            Some(job) => {
                looks = 0;
                let answer = gate.answer(alloc, number, job);
                put(rt, &shared.answers, &mut end.answers, answer);
            }
            None => {
                looks = looks.saturating_add(1);
                idle(rt, &parker, looks);
            }
        }
    }
    end
}
