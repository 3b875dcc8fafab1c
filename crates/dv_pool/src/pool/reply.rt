ghost use Rattle.std.specs.Prelude.{◌≡◌, true, is_some, IfOk, OnOk, IfSome};
ghost use Rattle.dv_jobs.specs.Sources.{IsSubmitted, IsValueUnder};
ghost use Rattle.dv_pool.specs.Parts.{jobs_in, IsOrderly, HasPlaced, Keeps};
ghost use Rattle.dv_pool.specs.Reply.{MayPoll, MayGive};

use crate::pool::parts::Parts;
use dv_jobs::gate::Gate;
use dv_script::work::Work;
use dv_value::value::Value;
use futures::Future;
use futures::executor::block_on;
use futures::task::{Context, Poll};
use std::alloc::{AllocError, AllocGlobal, Global};
use std::random::RandomSource;
use std::sync::Wait;

/// The value of one job, as a future. It owns what the owner of the pool holds, and gives it back
/// with the value.
#[derive(Drop)]
pub struct JobReply<'a, G> {
    alloc: Global,
    parts: Option<Parts>,
    works: &'a [Option<Work>],
    gate: &'a G,
    number: u32,
}

impl<'a, G: Gate> Future for JobReply<'a, G> {
    type Output = (Parts, Result<Value, AllocError>);

    ghost can_poll = { λ r. MayPoll r.parts r.works.now r.number };

    ghost gives = { λ r out. MayGive r.parts r.works.now r.number out };

    /// Takes an answer, if there is one, else helps with a job, and yields.
    fn poll(&mut self, cx: &mut Context<'_>) -> Poll<(Parts, Result<Value, AllocError>)> {
        let Some(mut parts) = self.parts.take() else {
            unreachable!()
        };
        if let Some(value) = parts.value(self.alloc, self.works, self.number) {
            return Poll::Ready((parts, value));
        }
        if !parts.collect(self.works) {
            parts.help(self.alloc, self.works, self.gate);
        }
        self.parts = Some(parts);
        cx.yield_now()
    }
}

/// The value of a job, once it is answered, and the parts. They are gone where the executor failed.
pub fn reply<R, G>(
    rt: &R,
    alloc: Global,
    parts: Parts,
    works: &[Option<Work>],
    gate: &G,
    number: u32,
) -> (Option<Parts>, Result<Value, AllocError>)
where
    R: Wait + RandomSource + AllocGlobal,
    G: Gate,
    requires orderly { IsOrderly parts }
    requires placed { HasPlaced works.now parts }
    requires known { IsSubmitted number (jobs_in 0 works.now) }
    ensures parts { IfSome result.0 (λ left. IsOrderly left × HasPlaced works.now left
        × Keeps parts left) }
    ensures value { IfOk result.1 (IsValueUnder number (jobs_in 0 works.now)) }
    ensures there { OnOk result.1 (is_some result.0 ≡ true) }
{
    let reply = JobReply {
        alloc,
        parts: Some(parts),
        works,
        gate,
        number,
    };
    match block_on(rt, reply) {
        Ok((parts, value)) => (Some(parts), value),
        Err(_) => (None, Err(AllocError)),
    }
}
