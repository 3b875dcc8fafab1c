ghost use Rattle.std.specs.Prelude.{◌≡◌, None, IfOk, OnOk};
ghost use Rattle.dv_inline.specs.Leads.{reached, LeadsBy, LeadAlike, IsDue};
ghost use Rattle.dv_inline.specs.Meaning.{inline};
ghost use Rattle.dv_inline.specs.Position.{started, run_to_request, answered, request_at};

use crate::request::Request;
use crate::walk::Walk;
use dv_script::body::Statement;
use dv_value::classes::Classes;
use dv_value::value::Value;
use futures::Future;
use futures::task::{Context, Poll};
use std::alloc::{AllocError, Global};
use std::marker::Model;

/// An inline body that runs: the statements that are left, the tries and finallys round them, and
/// the present value (Twisted: the generator of `inlineCallbacks`). It is on the heap, so that a
/// frame holds an address.
#[derive(Drop)]
pub struct InlineBody<'s> {
    walk: Box<Walk<'s>>,
}

impl<'s> Model for InlineBody<'s> {
    ghost use Rattle.dv_inline.specs.Position.{Position};
    ghost use Rattle.dv_script.specs.contracts.body.Statement as statement_contract;
    ghost use Rattle.dv_value.specs.contracts.classes.Class as class_contract;
    ghost use Rattle.dv_value.specs.contracts.failure.Failure as failure_contract;
    ghost use Rattle.dv_value.specs.contracts.value.Value as value_contract;
    ghost use Rattle.std.specs.Coded.{codes};

    ghost Value = { Position };

    ghost coded = { Prim.hlevel (
      codes,
      statement_contract.the_row.coded,
      class_contract.the_row.coded,
      failure_contract.the_row.coded,
      value_contract.the_row.coded,
    ) };

    ghost view = { λ b. b.walk.value };
}

impl<'s> InlineBody<'s> {
    /// A body at its first statement, with the present value null, in a script of these classes, in
    /// which an end that fails throws its failure or leaves the body with it. AllocError where out
    /// of memory.
    pub fn start(
        alloc: Global,
        classes: &'s Classes,
        ends_throw: bool,
        statements: &'s [Statement],
    ) -> Result<InlineBody<'s>, AllocError>
        ensures stands { IfOk result
            (λ body. body ≡ started classes.now ends_throw statements.now) }
        ensures means { IfOk result (λ body. (answers : _)
            → reached body answers ≡ inline classes.now ends_throw statements.now answers) }
    {
        Ok(InlineBody {
            walk: Box::new(alloc, Walk::start(alloc, classes, ends_throw, statements))?,
        })
    }

    /// What the body requests by the first statement that is left, an action or a name: None if
    /// `poll` has a move to make first, and once the body is over.
    pub fn request(&self) -> Option<Request<'s>>
        ensures { result ≡ request_at self.now }
    {
        self.walk.request()
    }

    /// Goes on with the answer to what stands: a failure is thrown there, and goes to the innermost
    /// `try` that catches it or `finally`; any other value is the present one after an `await`, and
    /// leaves it as it was after a `do`. Where nothing stands, the answer changes nothing. It takes
    /// no memory.
    #[tactic(auto, using(crate::proofs::LeadsLemmas::taken_leads))]
    pub fn answer(&mut self, answer: Value)
        ensures answered { self.new ≡ answered answer self.old }
        ensures leads { IsDue self.old → LeadsBy answer self.old self.new }
    {
        self.walk.answer(answer);
    }
}

impl<'s> Future for InlineBody<'s> {
    /// The result of the body: the value or the failure that fires its Deferred.
    type Output = Result<Value, AllocError>;

    ghost use Rattle.dv_inline.specs.Leads.{ResultsIn, Stands};
    ghost use Rattle.dv_inline.specs.Position.{Gives};
    ghost use Rattle.futures.specs.Poll.{IfReady, OnPending};
    ghost use Rattle.std.specs.Prelude.{⊤};
    ghost use Rattle.futures.specs.Task.{Covers, Keeps};

    ghost gives = { λ b out. Gives b out };

    /// Runs up to the next request, and is pending there, or to the end of the body. Each poll
    /// yields: `request` returns what the body requests. After a result, or AllocError, the body
    /// can only be dropped.
    #[tactic(auto, using(crate::proofs::LeadsLemmas::run_ends, crate::proofs::LeadsLemmas::run_requests, crate::proofs::LeadsLemmas::run_leads, crate::proofs::Moves::run_twice))]
    fn poll(&mut self, cx: &mut Context<'_>) -> Poll<Result<Value, AllocError>>
        ensures value { IfReady result (Gives self.old) }
        ensures outcome { IfReady result (λ out. IfOk out (ResultsIn self.old)) }
        ensures runs { OnPending result (self.new ≡ run_to_request self.old) }
        ensures going { OnPending result (self.new.result ≡ None) }
        ensures stands { OnPending result (Stands self.new) }
        ensures same { OnPending result (LeadAlike self.old self.new) }
        ensures again { OnPending result ⊤ }
        ensures gives { OnPending result ((x : _) → Gives self.new x → Gives self.old x) }
        ensures registered { OnPending result (Covers cx.new (λ _. ⊥)) }
        ensures kept { Keeps cx.old cx.new }
    {
        if self.walk.run_to_request().is_err() {
            return Poll::Ready(Err(AllocError));
        }
        match self.walk.take_result() {
            Some(outcome) => Poll::Ready(Ok(outcome)),
            None => cx.yield_now(),
        }
    }
}
