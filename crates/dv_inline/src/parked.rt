ghost use Rattle.std.specs.Prelude.{◌≡◌, [], Some, None, IfOk, IfErr, OnErr};
ghost use Rattle.dv_inline.specs.Parked.{body_under, Changes};

use crate::body::InlineBody;
use slab::Slab;
use std::alloc::{AllocError, Global};
use std::marker::Model;

/// Inline bodies that wait, each under a key that it gets where it is parked.
#[derive(Drop)]
pub struct Parked<'s> {
    bodies: Slab<InlineBody<'s>>,
}

impl<'s> Model for Parked<'s> {
    ghost use Rattle.dv_inline.specs.Parked.{Bodies};
    ghost use Rattle.dv_script.specs.contracts.body.Statement as statement_contract;
    ghost use Rattle.dv_value.specs.contracts.classes.Class as class_contract;
    ghost use Rattle.dv_value.specs.contracts.failure.Failure as failure_contract;
    ghost use Rattle.dv_value.specs.contracts.value.Value as value_contract;
    ghost use Rattle.std.specs.Coded.{codes};

    ghost Value = { Bodies };

    ghost coded = { Prim.hlevel (
      codes,
      statement_contract.the_row.coded,
      class_contract.the_row.coded,
      failure_contract.the_row.coded,
      value_contract.the_row.coded,
    ) };

    ghost view = { λ p. p.bodies.slots };
}

impl<'s> Parked<'s> {
    /// No body is parked. It takes no memory before the first is.
    pub fn new(alloc: Global) -> Parked<'s>
        ensures { result ≡ [] }
    {
        Parked {
            bodies: Slab::new(alloc),
        }
    }

    /// Parks a body, under a key under which none is. Where the allocation fails, it comes back,
    /// and the others stay.
    pub fn park(&mut self, body: InlineBody<'s>) -> Result<usize, (AllocError, InlineBody<'s>)>
        ensures vacant { IfOk result (λ key. body_under self.old key ≡ None) }
        ensures parked { IfOk result (λ key. Changes self.old self.new key (Some body.entry)) }
        ensures back { IfErr result (λ refused. refused.1 ≡ body.entry) }
        ensures err { OnErr result (self.new ≡ self.old) }
    {
        match self.bodies.insert(body) {
            Ok(key) => Ok(key),
            Err(failed) => Err((AllocError, failed.value)),
        }
    }

    /// The body under a key comes back, where one is there, and none is there any more.
    pub fn unpark(&mut self, key: usize) -> Option<InlineBody<'s>>
        ensures value { result ≡ body_under self.old key }
        ensures rest { Changes self.old self.new key None }
    {
        self.bodies.try_remove(key)
    }

    /// Drops the body under a key, where one is there.
    pub fn discard(&mut self, key: usize)
        ensures { Changes self.old self.new key None }
    {
        drop(self.bodies.try_remove(key));
    }
}
