ghost use Rattle.std.specs.Prelude.{◌≡◌, length, [], ◌∷◌, ◌++◌, OnOk, OnErr, IfOk};

use crate::waiting::Waiting;
use dv_inline::body::InlineBody;
use dv_inline::parked::Parked;
use dv_journal::deferred_id::DeferredId;
use dv_value::value::Value;
use std::alloc::{AllocError, Global};
use std::marker::Model;

/// What each inline body waits for, by its number (Twisted: `inlineCallbacks`). A body is kept here
/// while it awaits a Deferred.
#[derive(Drop)]
pub struct Inlines<'s> {
    kept: Vec<Waiting<usize>>,
    parked: Parked<'s>,
}

impl<'s> Model for Inlines<'s> {
    ghost use Rattle.std.specs.Coded.{codes};
    ghost use Rattle.dv_script.specs.contracts.body.Statement as statement_contract;
    ghost use Rattle.dv_value.specs.contracts.classes.Class as class_contract;
    ghost use Rattle.dv_value.specs.contracts.failure.Failure as failure_contract;
    ghost use Rattle.dv_value.specs.contracts.value.Value as value_contract;
    ghost use Rattle.dv_objects.specs.Inlines.{Inlines as Seen, seen_all, IsKept};

    ghost Value = { Seen };

    ghost coded = { Prim.hlevel (
      codes,
      statement_contract.the_row.coded,
      class_contract.the_row.coded,
      failure_contract.the_row.coded,
      value_contract.the_row.coded,
    ) };

    ghost view = { λ i. seen_all i.parked i.kept.items };

    ghost invariant = { λ i. IsKept i.parked i.kept.items };
}

impl<'s> Inlines<'s> {
    ghost use Rattle.dv_objects.specs.Inlines.{now_waiting, resume_at, end_adding, awaited_by};

    /// There are no inline bodies.
    pub fn new(alloc: Global) -> Inlines<'s>
        ensures { result ≡ [] }
    {
        Inlines {
            kept: Vec::new(alloc),
            parked: Parked::new(alloc),
        }
    }

    /// How many inline bodies there are.
    pub fn len(&self) -> usize
        ensures { result ≡ length self.now }
    {
        self.kept.len()
    }

    /// One more inline body is made, which doesn't wait.
    pub fn push(&mut self) -> Result<(), AllocError>
        ensures ok { OnOk result (self.new ≡ self.old ++ Waiting.Nothing ∷ []) }
        ensures err { OnErr result (self.new ≡ self.old) }
    {
        self.kept.push(Waiting::Nothing)?;
        Ok(())
    }

    /// The pair of an inline body is being added to the Deferred that it is going to await. What it
    /// waited for before is dropped.
    pub fn begin_adding(&mut self, place: usize)
        ensures { self.new ≡ now_waiting place Waiting.Adding self.old }
    {
        let Some(waiting) = self.kept.get_mut(place) else {
            return;
        };
        if let Some(key) = waiting.begin_adding() {
            self.parked.discard(key);
        }
    }

    /// The result that an inline body awaits arrives. A body that awaits is returned with it, to go
    /// on. If its pair is still being added, the result is kept for the end of that; else it is
    /// dropped.
    pub fn resume(&mut self, place: usize, input: Value) -> Option<(InlineBody<'s>, Value)>
        ensures { (result, self.new) ≡ resume_at place input self.old }
    {
        let Some(waiting) = self.kept.get_mut(place) else {
            drop(input);
            return None;
        };
        let (key, input) = waiting.resume(input)?;
        let Some(body) = self.parked.unpark(key) else {
            drop(input);
            return None;
        };
        Some((body, input))
    }

    /// The pair of an inline body has been added to a Deferred. If its result arrived meanwhile,
    /// the body is returned with it, to go on; else it awaits the Deferred. If the pair wasn't
    /// being added, nothing changes, and the body is dropped.
    pub fn end_adding(
        &mut self,
        place: usize,
        awaited: DeferredId,
        body: InlineBody<'s>,
    ) -> Result<Option<(InlineBody<'s>, Value)>, AllocError>
        ensures ok { IfOk result
            (λ gone_on. (gone_on, self.new) ≡ end_adding place awaited body.entry self.old) }
        ensures err { OnErr result (self.new ≡ self.old) }
    {
        let Some(waiting) = self.kept.get_mut(place) else {
            drop(body);
            return Ok(None);
        };
        if let Some(input) = waiting.take() {
            return Ok(Some((body, input)));
        }
        if !waiting.is_adding() {
            drop(body);
            return Ok(None);
        }
        let key = match self.parked.park(body) {
            Ok(key) => key,
            Err(refused) => {
                drop(refused);
                return Err(AllocError);
            }
        };
        waiting.set(Waiting::Awaiting(awaited, key));
        Ok(None)
    }

    /// The Deferred that an inline body awaits, where it awaits one.
    pub fn awaited(&self, place: usize) -> Option<DeferredId>
        ensures { result ≡ awaited_by place self.now }
    {
        self.kept.get(place)?.awaited()
    }
}
