ghost use Rattle.std.specs.Prelude.{◌≡◌, ◌^◌, ◌-◌, IfOk, min};
ghost use Rattle.dv_value.specs.Size.{failure_size};
ghost use Rattle.dv_value.specs.Classes.{check};
ghost use Rattle.dv_value.specs.Failure.{class_of, plain_failure, trap};

use crate::boxed::Boxed;
use crate::class_id::ClassId;
use crate::classes::Classes;
use crate::text::Text;
use std::alloc::{AllocError, Global};

/// How something failed (Twisted: `Failure`).
#[cycle(failure)]
#[derive(Debug, Drop)]
pub struct Failure {
    pub class: ClassId,
    pub message: Text,
    /// What failed inside, where the class is that of a DeferredList's failure.
    pub sub: Option<Sub>,
}

/// The failure inside another, with the place of the Deferred that it came from (Twisted:
/// `FirstError`).
#[cycle(failure)]
#[derive(Debug, Drop)]
pub struct Sub {
    /// The place among the list's Deferreds, from 0.
    pub index: u32,
    pub failure: Boxed<Failure>,
}

impl Failure {
    /// A failure with none inside.
    pub fn new(class: ClassId, message: Text) -> Failure
        ensures { result ≡ plain_failure class message }
    {
        Failure {
            class,
            message,
            sub: None,
        }
    }

    /// The first of the listed classes that the failure is of, in the order of the list and not of
    /// the table (Twisted: `Failure.check`).
    pub fn check(&self, classes: &Classes, listed: &[ClassId]) -> Option<ClassId>
        ensures { result ≡ check classes.now (class_of self.now) listed.now }
    {
        first_above(classes, self.class, listed)
    }

    /// The first of the listed classes that the failure is of. Where it is of none of them, the
    /// failure itself comes back, to be raised again (Twisted: `Failure.trap`).
    pub fn trap(self, classes: &Classes, listed: &[ClassId]) -> Result<ClassId, Failure>
        ensures { result ≡ trap classes.now self listed.now }
    {
        match self.check(classes, listed) {
            Some(class) => Ok(class),
            None => Err(self),
        }
    }

    /// A failure that equals this one, in memory of its own.
    pub fn copy(&self, alloc: Global) -> Result<Failure, AllocError>
        ensures { IfOk result (λ f. f ≡ self.now) }
    {
        let message = self.message.copy(alloc)?;
        let sub = match &self.sub {
            None => None,
            Some(sub) => Some(Sub {
                index: sub.index,
                failure: Boxed::new(alloc, sub.failure.get().copy(alloc)?)?,
            }),
        };
        Ok(Failure {
            class: self.class,
            message,
            sub,
        })
    }

    /// How much an entry of the journal weighs more for showing the failure, in bytes of its
    /// messages and one for each failure; it stops at `u64::MAX`.
    pub fn size(&self) -> u64
        ensures { result ≡ min (failure_size self.now) (2 ^ 64 - 1) }
    {
        let own = (self.message.as_str().len() as u64).saturating_add(1);
        match &self.sub {
            None => own,
            Some(sub) => own.saturating_add(sub.failure.get().size()),
        }
    }
}

fn first_above(classes: &Classes, class: ClassId, listed: &[ClassId]) -> Option<ClassId>
    ensures { result ≡ check classes.now class listed.now }
{
    for from in listed {
        if classes.descends(class, *from) {
            return Some(*from);
        }
    }
    None
}
