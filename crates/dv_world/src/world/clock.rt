ghost use Rattle.std.specs.Prelude.{◌≡◌, [], ◌∷◌, ◌++◌, length, slice_get, IfOk, OnOk};
ghost use Rattle.dv_clock.specs.declared.due.Due.TheVariants.{Call as CallOf};
ghost use Rattle.dv_world.specs.World.{was_called, was_cancelled};
ghost use Rattle.dv_objects.specs.declared.performed.Performed.TheVariants.{Raised};

use super::World;
use dv_clock::call_id::CallId;
use dv_clock::delay_from::DelayFrom;
use dv_clock::due::Due;
use dv_clock::error::Over;
use dv_clock::limits::{MOST_DELAY, MOST_TICKS};
use dv_journal::deferred_id::DeferredId;
use dv_journal::error::Fault;
use dv_objects::performed::Performed;
use dv_script::lent::{BodyRef, TextRef};
use dv_value::class_id::ClassId;
use dv_value::fault::failure;
use dv_value::text::Text;
use std::alloc::{AllocError, Global};

impl<'s> World<'s> {
    ghost use Rattle.dv_world.specs.World.{call_later, start_timer, has_timed_out, end_timer};
    ghost use Rattle.dv_world.specs.World.{advance, take_due, cancel_call, reset_call};
    ghost use Rattle.dv_objects.specs.Names.{number_of, with_name};

    /// Schedules a delayed call of a body, which is due so many ticks later than now, and no later
    /// than calls are delayed by, as none is that a script which is read schedules; binds its name
    /// to it, also where that was bound to another (Twisted: `Clock.callLater`). AllocError where
    /// there are more calls than numbers of 32 bits.
    #[tactic(auto, unfolding(crate::specs::World::aside))]
    pub fn call_later(
        &mut self,
        name: TextRef<'s>,
        delay: u64,
        body: BodyRef<'s>,
    ) -> Result<(), AllocError>
        ensures { OnOk result (self.new ≡ call_later name.entry delay body.entry self.old) }
    {
        if self.stopped {
            return Ok(());
        }
        if !self.journal.fits_plain() {
            self.stopped = true;
            return Ok(());
        }
        let what = due_call(self.alloc, name.as_str(), self.bodies.len())?;
        match self
            .clock
            .later(&mut self.journal, what, delay.min(MOST_DELAY))
        {
            Ok(call) => self.add_call(name.as_str(), call, body),
            Err(stop) => self.stopped_by(stop, ()),
        }
    }

    /// Keeps the body of a call that was logged, and binds its name to it.
    fn add_call(&mut self, name: &'s str, call: CallId, body: BodyRef<'s>) -> Result<(), AllocError>
        ensures { OnOk result (self.new ≡ record self.old {
          objects = record self.old.objects {
            call_names = with_name name.now call self.old.objects.call_names;
            bodies = self.old.objects.bodies ++ body.entry ∷ [];
          };
        }) }
    {
        self.call_names.bind(name, call)?;
        self.bodies.push(body)?;
        Ok(())
    }

    /// The delayed call that a name stands for.
    pub fn find_call(&self, name: &str) -> Option<CallId>
        ensures { result ≡ number_of name.now self.now.objects.call_names }
    {
        self.call_names.find(name)
    }

    /// The body of a delayed call, by what its `Due` says.
    pub fn body(&self, key: u32) -> Option<BodyRef<'s>>
        ensures { result ≡ slice_get self.now.objects.bodies key }
    {
        match self.bodies.get(key as usize) {
            None => None,
            Some(body) => Some(BodyRef::new(body.get())),
        }
    }

    /// Cancels a delayed call (Twisted: `DelayedCall.cancel`). One that was called raises
    /// AlreadyCalled, and one that was cancelled or dropped AlreadyCancelled.
    #[tactic(auto, unfolding(crate::specs::World::cancel_call, crate::specs::World::aside))]
    pub fn cancel_call(&mut self, call: CallId) -> Result<Performed<'s>, AllocError>
        ensures { IfOk result (λ performed. (performed, self.new) ≡ cancel_call call self.old) }
    {
        if self.stopped {
            return Ok(Performed::Done);
        }
        match self.clock.cancel(&mut self.journal, call) {
            Ok(()) => Ok(Performed::Done),
            Err(Fault::Refused(Over::Called)) => was_called(self.alloc),
            Err(Fault::Refused(Over::Cancelled)) => was_cancelled(self.alloc),
            Err(Fault::Limit) => {
                self.stopped = true;
                Ok(Performed::Done)
            }
            Err(Fault::OutOfMemory) => Err(AllocError),
        }
    }

    /// Gives a delayed call a delay anew, in ticks, no longer than calls are delayed by (Twisted:
    /// `DelayedCall.reset`, `DelayedCall.delay`). One that was called raises AlreadyCalled, and one
    /// that was cancelled or dropped AlreadyCancelled.
    #[tactic(auto, unfolding(crate::specs::World::reset_call, crate::specs::World::aside))]
    pub fn reset_call(
        &mut self,
        call: CallId,
        from: DelayFrom,
        delay: u64,
    ) -> Result<Performed<'s>, AllocError>
        ensures { IfOk result (λ performed.
            (performed, self.new) ≡ reset_call call from delay self.old) }
    {
        if self.stopped {
            return Ok(Performed::Done);
        }
        let delay = delay.min(MOST_DELAY);
        match self.clock.reset(&mut self.journal, call, from, delay) {
            Ok(()) => Ok(Performed::Done),
            Err(Fault::Refused(Over::Called)) => was_called(self.alloc),
            Err(Fault::Refused(Over::Cancelled)) => was_cancelled(self.alloc),
            Err(Fault::Limit) => {
                self.stopped = true;
                Ok(Performed::Done)
            }
            Err(Fault::OutOfMemory) => Err(AllocError),
        }
    }

    /// Starts a timer of a Deferred, which expires so many ticks later than now, and no later than
    /// calls are delayed by, as none does that a script which is read starts (Twisted:
    /// `Deferred.addTimeout`).
    #[tactic(auto, unfolding(crate::specs::World::aside))]
    pub fn start_timer(&mut self, id: DeferredId, delay: u64) -> Result<CallId, AllocError>
        ensures started { OnOk result (self.new ≡ start_timer id delay self.old) }
        ensures timer { IfOk result (λ timer. timer ≡ length self.old.objects.clock.calls) }
    {
        let timer = self.clock.next_id();
        if self.stopped {
            return Ok(timer);
        }
        let what = Due::Timeout(id);
        match self
            .clock
            .later(&mut self.journal, what, delay.min(MOST_DELAY))
        {
            Ok(_) => Ok(timer),
            Err(stop) => self.stopped_by(stop, timer),
        }
    }

    /// Whether a timer has expired.
    pub fn has_timed_out(&self, timer: CallId) -> bool
        ensures { result ≡ has_timed_out timer self.now }
    {
        self.clock.has_run(timer)
    }

    /// A timer ends, if it hasn't expired. That isn't logged.
    #[tactic(auto, unfolding(crate::specs::World::arrange))]
    pub fn end_timer(&mut self, timer: CallId)
        ensures { self.new ≡ end_timer timer self.old }
    {
        if self.stopped {
            return;
        }
        let _ = self.clock.drop_call(timer);
    }

    /// Time goes on by so many ticks, and no further than clocks go, to which no script gets that
    /// is read (Twisted: `Clock.advance`, of which this is the first part: what is due is to be run
    /// then).
    #[tactic(auto, unfolding(crate::specs::World::aside))]
    pub fn advance(&mut self, ticks: u64) -> Result<(), AllocError>
        ensures { OnOk result (self.new ≡ advance ticks self.old) }
    {
        if self.stopped {
            return Ok(());
        }
        let time = self.clock.now().saturating_add(ticks).min(MOST_TICKS);
        match self.clock.advance_to(&mut self.journal, time) {
            Ok(()) => Ok(()),
            Err(stop) => self.stopped_by(stop, ()),
        }
    }

    /// Takes what is to run next, if something is due by now.
    #[tactic(auto, unfolding(crate::specs::World::aside))]
    pub fn take_due(&mut self) -> Result<Option<Due>, AllocError>
        ensures { IfOk result (λ what. (what, self.new) ≡ take_due self.old) }
    {
        if self.stopped {
            return Ok(None);
        }
        match self.clock.due(&mut self.journal) {
            Ok(what) => Ok(what),
            Err(stop) => self.stopped_by(stop, None),
        }
    }
}

/// A delayed call, by the name that its lines show and the number of its body.
fn due_call(alloc: Global, name: &str, body: usize) -> Result<Due, AllocError>
    ensures { IfOk result (λ what. what ≡ CallOf name.now body) }
{
    let Ok(key) = u32::try_from(body) else {
        return Err(AllocError);
    };
    Ok(Due::Call(Text::of(alloc, name)?, key))
}

/// What a cancelling or a resetting of a call raises that was called.
fn was_called<'s>(alloc: Global) -> Result<Performed<'s>, AllocError>
    ensures { IfOk result (λ p. p ≡ Raised was_called) }
{
    let failure = failure(alloc, ClassId::ALREADY_CALLED, "")?;
    Ok(Performed::Raised(failure))
}

/// What a cancelling of a call raises that was cancelled or dropped.
fn was_cancelled<'s>(alloc: Global) -> Result<Performed<'s>, AllocError>
    ensures { IfOk result (λ p. p ≡ Raised was_cancelled) }
{
    let failure = failure(alloc, ClassId::ALREADY_CANCELLED, "")?;
    Ok(Performed::Raised(failure))
}
