ghost use Rattle.std.specs.Prelude.{◌≡◌, ◌≢◌, [], ◌∷◌, None, Some, OnOk, OnErr, MatchOption};
ghost use Rattle.std.specs.Prelude.{drop, reverse, slice_get};
ghost use Rattle.dv_inline.specs.Position.{active, failure_at};

use crate::open::{Inside, Onward, Open};
use dv_value::failure::Failure;
use std::alloc::{AllocError, Global};
use std::marker::Model;

/// The tries and finallys that a body is inside of, which contracts see as a list from the
/// innermost.
#[derive(Drop)]
pub struct Opens<'s> {
    items: Vec<Open<'s>>,
}

impl<'s> Model for Opens<'s> {
    ghost use Rattle.std.specs.Prelude.{List, reverse};
    ghost use Rattle.std.specs.Coded.{codes};
    ghost use Rattle.dv_inline.specs.declared.open.Open.{Open as Around};
    ghost use Rattle.dv_script.specs.contracts.body.Statement as statement_contract;
    ghost use Rattle.dv_value.specs.contracts.failure.Failure as failure_contract;
    ghost use Rattle.dv_value.specs.contracts.value.Value as value_contract;

    ghost Value = { List Around };

    ghost coded = { Prim.hlevel (
      codes,
      statement_contract.the_row.coded,
      failure_contract.the_row.coded,
      value_contract.the_row.coded,
    ) };

    ghost view = { λ s. reverse s.items.items };
}

impl<'s> Opens<'s> {
    /// None. It takes no memory before the first is pushed.
    pub fn new(alloc: Global) -> Opens<'s>
        ensures { result ≡ [] }
    {
        Opens {
            items: Vec::new(alloc),
        }
    }

    /// The innermost.
    #[tactic(auto, using(dv_value::proofs::StackLemmas::last_got))]
    pub fn first(&self) -> Option<&Open<'s>>
        ensures { MatchOption result (self.now ≡ [])
            (λ around. slice_get self.now 0 ≡ Some around.now) }
    {
        self.items.as_slice().last()
    }

    /// Goes out of the innermost.
    #[tactic(auto, using(dv_value::proofs::StackLemmas::last_first))]
    pub fn pop(&mut self) -> Option<Open<'s>>
        ensures { MatchOption result ((self.old ≡ []) × (self.new ≡ []))
            (λ around. self.old ≡ around ∷ self.new) }
    {
        self.items.pop()
    }

    /// Goes out of the innermost, where there is one, and drops it.
    #[tactic(auto, using(dv_value::proofs::StackLemmas::last_first))]
    pub fn discard(&mut self)
        ensures { self.new ≡ drop 1 self.old }
    {
        drop(self.items.pop());
    }

    /// Goes into one. On allocation failure, it is dropped.
    #[tactic(auto, using(dv_value::proofs::StackLemmas::last_first))]
    pub fn push(&mut self, around: Open<'s>) -> Result<(), AllocError>
        ensures { OnOk result (self.new ≡ around.entry ∷ self.old) }
    {
        if self.items.reserve(1).is_err() {
            drop(around);
            return Err(AllocError);
        }
        self.items.push_reserved(around);
        Ok(())
    }

    /// Puts one in the place of the innermost, which is dropped. It takes no memory.
    #[tactic(auto, using(dv_value::proofs::StackLemmas::last_first))]
    pub fn replace(&mut self, around: Open<'s>)
        requires { self.old ≢ [] }
        ensures { self.new ≡ around.entry ∷ drop 1 self.old }
    {
        let _ = self.items.pop();
        self.items.push_reserved(around);
    }

    /// The active failure, where there is one.
    pub fn active(&self) -> Option<&Failure>
        ensures { MatchOption result (active self.now ≡ None) (λ f. active self.now ≡ Some f.now) }
    {
        active_in(self.items.as_slice())
    }
}

/// The active failure inside of these, the innermost of which is the last.
#[tactic(auto, using(crate::proofs::OpensLemmas::inner_last))]
fn active_in<'o>(opens: &'o [Open<'_>]) -> Option<&'o Failure>
    ensures { MatchOption result (active (reverse opens.now) ≡ None)
        (λ f. active (reverse opens.now) ≡ Some f.now) }
{
    let mut left = opens.len();
    while left > 0 {
        left -= 1;
        if let Some(failure) = failure_of(&opens[left]) {
            return Some(failure);
        }
    }
    None
}

/// The failure for which the second statements of a `try` or a `finally` run.
fn failure_of<'o>(around: &'o Open<'_>) -> Option<&'o Failure>
    ensures { MatchOption result (failure_at around.now.inside ≡ None)
        (λ f. failure_at around.now.inside ≡ Some f.now) }
{
    match &around.inside {
        Inside::Caught(failure) | Inside::Ending(Onward::Thrown(failure)) => Some(failure.get()),
        Inside::Try(_)
        | Inside::Finally(_)
        | Inside::Ending(Onward::Past(_))
        | Inside::Ending(Onward::Left(_)) => None,
    }
}
