ghost use Rattle.std.specs.Prelude.{◌≡◌, ◌<◌, ◌≤◌, ◌+◌, ◌^◌, length, IfOk};
ghost use Rattle.std.specs.Arc.{arc_value};
ghost use Rattle.crossbeam_deque.specs.Handles.{worker_view};
ghost use Rattle.dv_pool.specs.Rules.{all_parts};
ghost use Rattle.dv_pool.specs.Parts.{IsOrderly, StaysPlaced, IsSamePool};
ghost use Rattle.dv_pool.specs.Pool.{AreOf};
ghost use Rattle.dv_script.specs.declared.limits.TheConstants.{MOST_WORKERS};

use crate::pool::parts::Parts;
use crate::pool::threads::{Handle, finish, start};
use crate::worker::{EVERYBODY, Shared};
use dv_jobs::gate::Gate;
use std::alloc::{AllocError, Global};
use std::sync::atomic::Ordering;
use std::sync::{Arc, Wait};
use std::thread::{Scope, Threads};

/// The workers of a pool. They leave when it is dropped.
pub struct Crew {
    pub shared: Arc<Shared>,
    pub handles: Vec<Handle>,
}

impl Drop for Crew {
    fn drop(self) {
        let Crew { shared, handles } = self;
        shared.leaving.store(EVERYBODY, Ordering::SeqCst);
        drop(handles);
        drop(shared);
    }
}

impl Crew {
    /// Starts so many workers with tokens of the owner's, numbered from the first number on. One
    /// whose thread can't be started is left out, and nobody has its number.
    pub fn start<'s, E, R: Wait + Sync, G: Gate + Sync>(
        rt: &'s R,
        alloc: Global,
        scope: &'s Scope<'s, E>,
        parts: &mut Parts,
        first: u32,
        workers: u32,
        gate: &'s G,
    ) -> Result<Crew, AllocError>
        requires orderly { IsOrderly parts.old }
        requires whole { (worker_view parts.old.jobs).parts ≡ all_parts }
        requires few { workers ≤ MOST_WORKERS }
        requires numbers { first + workers < 2 ^ 32 }
        ensures orderly { IsOrderly parts.new }
        ensures placed { StaysPlaced parts.old parts.new }
        ensures same { IsSamePool parts.old parts.new }
        ensures ours { IfOk result (λ crew. arc_value crew.shared ≡ arc_value parts.new.shared) }
        ensures handles { IfOk result (λ crew. AreOf (arc_value crew.shared) crew.handles.items) }
        ensures whole { IfOk result
            (λ crew. (worker_view parts.new.jobs).parts + length crew.handles.items ≡ all_parts) }
    {
        let mut handles = Vec::with_capacity(alloc, workers as usize)?;
        let shared = Arc::try_clone(&parts.shared)?;
        for number in 0..workers {
            let end = parts.split();
            match start(rt, alloc, scope, &parts.shared, gate, first + number, end) {
                Ok(handle) => handles.push_reserved(handle),
                Err(end) => parts.absorb(end),
            }
        }
        Ok(Crew { shared, handles })
    }

    /// Tells all workers to leave.
    pub fn dismiss(&self) {
        self.shared.leaving.store(EVERYBODY, Ordering::SeqCst);
    }

    /// Tells all workers to leave, waits for them, and takes their tokens.
    pub fn join<R: Threads>(self, rt: &R, parts: &mut Parts)
        requires orderly { IsOrderly parts.old }
        requires ours { arc_value parts.old.shared ≡ arc_value self.shared }
        requires handles { AreOf (arc_value self.shared) self.handles.items }
        ensures orderly { IsOrderly parts.new }
        ensures placed { StaysPlaced parts.old parts.new }
        ensures same { IsSamePool parts.old parts.new }
        ensures parts { (worker_view parts.new.jobs).parts
            ≡ (worker_view parts.old.jobs).parts + length self.handles.items }
    {
        let Crew { shared, handles } = self;
        shared.leaving.store(EVERYBODY, Ordering::SeqCst);
        for handle in handles {
            parts.absorb(finish(rt, &shared, handle));
        }
    }
}
