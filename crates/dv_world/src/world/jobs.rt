ghost use Rattle.std.specs.Prelude.{◌≡◌, ◌<◌, length, IfOk, OnOk};
ghost use Rattle.dv_world.specs.World.{too_many_jobs};
ghost use Rattle.dv_objects.specs.declared.performed.Performed.TheVariants.{Raised};

use super::World;
use dv_clock::due::Due;
use dv_clock::limits::MOST_DELAY;
use dv_journal::deferred_id::DeferredId;
use dv_journal::entry::Entry;
use dv_objects::performed::Performed;
use dv_objects::works::Works;
use dv_script::lent::{TextRef, WorkRef};
use dv_value::class_id::ClassId;
use dv_value::fault::failure;
use std::alloc::{AllocError, Global};

impl<'s> World<'s> {
    ghost use Rattle.dv_world.specs.World.{submit, deliver_later};

    /// The works that were submitted as jobs, with their pools.
    pub fn works(&self) -> &Works<'s>
        ensures works { result.now.works ≡ self.now.works }
        ensures pools { result.now.pools ≡ self.now.pools }
    {
        &self.works
    }

    /// Submits a job to the pool of this name, or to the default one, whose result is for this
    /// Deferred, unless as many were as a run has (Twisted: `deferToThreadPool`, `deferToThread`).
    #[tactic(auto, unfolding(crate::specs::World::submit))]
    pub fn submit(
        &mut self,
        id: DeferredId,
        pool: Option<TextRef<'s>>,
        work: WorkRef<'s>,
    ) -> Result<(), AllocError>
        ensures { OnOk result (self.new ≡ submit id pool.entry work.entry self.old) }
    {
        if self.stopped || self.works.is_full() {
            return Ok(());
        }
        let job = Entry::Job(self.works.len() as u32, id);
        match self.journal.write(job) {
            Ok(()) => self.works.push(pool, work),
            Err(stop) => self.stopped_by(stop, ()),
        }
    }

    /// Schedules the delivery of a job's result to a Deferred, which is due so many ticks later
    /// than now, and no later than calls are delayed by, as none is that a script which is read
    /// schedules.
    #[tactic(auto, unfolding(crate::specs::World::aside))]
    pub fn deliver_later(&mut self, job: u32, id: DeferredId, delay: u64) -> Result<(), AllocError>
        ensures { OnOk result (self.new ≡ deliver_later job id delay self.old) }
    {
        if self.stopped {
            return Ok(());
        }
        let what = Due::Delivery(job, id.number());
        match self
            .clock
            .later(&mut self.journal, what, delay.min(MOST_DELAY))
        {
            Ok(_) => Ok(()),
            Err(stop) => self.stopped_by(stop, ()),
        }
    }
}

/// What the submitting of a job raises that is one more than a run has.
pub fn too_many_jobs<'s>(alloc: Global) -> Result<Performed<'s>, AllocError>
    ensures { IfOk result (λ p. p ≡ Raised too_many_jobs) }
{
    let failure = failure(alloc, ClassId::RUNTIME_ERROR, "too many jobs")?;
    Ok(Performed::Raised(failure))
}
