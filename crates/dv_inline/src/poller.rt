ghost use Rattle.std.specs.Prelude.{◌≡◌, None, IfOk};
ghost use Rattle.dv_inline.specs.Leads.{ResultsIn, LeadAlike, Stands};
ghost use Rattle.dv_inline.specs.Position.{Gives, run_to_request};
ghost use Rattle.futures.specs.Poll.{IfReady, OnPending};

use crate::body::InlineBody;
use dv_value::value::Value;
use futures::Future;
use futures::task::{Doorbell, Poll, Solo};
use std::alloc::{AllocError, AllocGlobal};
use std::io;
use std::random::RandomSource;

/// Polls inline bodies by hand, with no executor.
#[derive(Drop)]
pub struct Poller {
    solo: Solo,
}

impl Poller {
    /// Makes a poller. What it needs is made once; an error is one of the system's source of random
    /// numbers, or out of memory.
    pub fn new<R: RandomSource + AllocGlobal>(rt: &R) -> io::Result<Poller> {
        Ok(Poller {
            solo: Solo::new(rt, Doorbell::spinning())?,
        })
    }

    /// Polls a body once: it runs up to its next request, or to its end. AllocError where a `try`
    /// or a result finds no memory; after that, and after a result, the body can only be dropped.
    pub fn poll(&self, body: &mut InlineBody<'_>) -> Poll<Result<Value, AllocError>>
        ensures value { IfReady result (Gives body.old) }
        ensures outcome { IfReady result (λ out. IfOk out (ResultsIn body.old)) }
        ensures runs { OnPending result (body.new ≡ run_to_request body.old) }
        ensures going { OnPending result (body.new.result ≡ None) }
        ensures stands { OnPending result (Stands body.new) }
        ensures same { OnPending result (LeadAlike body.old body.new) }
    {
        let mut cx = self.solo.begin();
        let polled = body.poll(&mut cx);
        cx.end(&polled);
        polled
    }
}
