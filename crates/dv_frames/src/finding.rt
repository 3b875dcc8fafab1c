//! Names, as a rule looks them up: one that isn't bound raises NameError, and nothing is found.

ghost use Rattle.std.specs.Prelude.{◌≡◌, IfOk};
ghost use Rattle.dv_frames.specs.Finding.{looked_up};
ghost use Rattle.dv_objects.specs.Names.{number_of};
ghost use Rattle.dv_world.specs.World.{cooperator_at, deferred_at};

use crate::following::unbound;
use crate::turn::Turn;
use dv_clock::call_id::CallId;
use dv_clock::cooperator_id::CooperatorId;
use dv_clock::loop_id::LoopId;
use dv_clock::task_id::TaskId;
use dv_journal::deferred_id::DeferredId;
use dv_prims::lock_id::LockId;
use dv_prims::queue_id::QueueId;
use std::alloc::AllocError;

/// What was found by a name. NameError is raised where it is nothing.
fn or_unbound<I: Copy>(
    turn: &mut Turn<'_>,
    found: Option<I>,
    name: &str,
) -> Result<Option<I>, AllocError>
    ensures found { IfOk result (λ answer. answer ≡ found) }
    ensures turn { IfOk result (λ answer. turn.new ≡ looked_up found name.now turn.old) }
{
    if found.is_none() {
        unbound(turn, name)?;
    }
    Ok(found)
}

impl<'s> Turn<'s> {
    /// Looks up the Deferred of a name; `@` is the one that is given, where one is.
    pub fn find(
        &mut self,
        itself: Option<DeferredId>,
        name: &str,
    ) -> Result<Option<DeferredId>, AllocError>
        ensures found { IfOk result (λ found. found ≡ deferred_at itself name.now self.old.world) }
        ensures turn { IfOk result (λ found. self.new ≡ looked_up found name.now self.old) }
    {
        let found = self.world.find(itself, name);
        or_unbound(self, found, name)
    }

    /// Looks up the lock or the semaphore of a name.
    pub fn find_lock(&mut self, name: &str) -> Result<Option<LockId>, AllocError>
        ensures found { IfOk result
            (λ found. found ≡ number_of name.now self.old.world.objects.locks) }
        ensures turn { IfOk result (λ found. self.new ≡ looked_up found name.now self.old) }
    {
        let found = self.world.find_lock(name);
        or_unbound(self, found, name)
    }

    /// Looks up the queue of a name.
    pub fn find_queue(&mut self, name: &str) -> Result<Option<QueueId>, AllocError>
        ensures found { IfOk result
            (λ found. found ≡ number_of name.now self.old.world.objects.queue_names) }
        ensures turn { IfOk result (λ found. self.new ≡ looked_up found name.now self.old) }
    {
        let found = self.world.find_queue(name);
        or_unbound(self, found, name)
    }

    /// Looks up the delayed call of a name.
    pub fn find_call(&mut self, name: &str) -> Result<Option<CallId>, AllocError>
        ensures found { IfOk result
            (λ found. found ≡ number_of name.now self.old.world.objects.call_names) }
        ensures turn { IfOk result (λ found. self.new ≡ looked_up found name.now self.old) }
    {
        let found = self.world.find_call(name);
        or_unbound(self, found, name)
    }

    /// Looks up the loop of a name.
    pub fn find_loop(&mut self, name: &str) -> Result<Option<LoopId>, AllocError>
        ensures found { IfOk result
            (λ found. found ≡ number_of name.now self.old.world.objects.loop_names) }
        ensures turn { IfOk result (λ found. self.new ≡ looked_up found name.now self.old) }
    {
        let found = self.world.find_loop(name);
        or_unbound(self, found, name)
    }

    /// Looks up the task of a name.
    pub fn find_task(&mut self, name: &str) -> Result<Option<TaskId>, AllocError>
        ensures found { IfOk result
            (λ found. found ≡ number_of name.now self.old.world.objects.cooperators.task_names) }
        ensures turn { IfOk result (λ found. self.new ≡ looked_up found name.now self.old) }
    {
        let found = self.world.find_task(name);
        or_unbound(self, found, name)
    }

    /// Looks up the Cooperator that the script names so.
    pub fn find_cooperator(&mut self, name: &str) -> Result<Option<CooperatorId>, AllocError>
        ensures found { IfOk result (λ found. found ≡ cooperator_at name.now self.old.world) }
        ensures turn { IfOk result (λ found. self.new ≡ looked_up found name.now self.old) }
    {
        let found = self.world.find_cooperator(name);
        or_unbound(self, found, name)
    }
}
