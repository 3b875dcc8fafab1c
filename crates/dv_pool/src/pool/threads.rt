ghost use Rattle.std.specs.Prelude.{◌≡◌, MatchResult};
ghost use Rattle.std.specs.Arc.{arc_value};
ghost use Rattle.dv_pool.specs.Worker.{IsEndOf, IsFresh, HasServed};

use crate::worker::{End, Shared, serve};
use dv_jobs::gate::{Gate, OWNER};
use std::alloc::Global;
use std::snapshot::Snapshot;
use std::sync::atomic::Ordering;
use std::sync::{Arc, Wait};
use std::thread::{Promise, PromisedHandle, Scope, Threads};

/// What a worker hands back: its tokens, under which it has answered just the jobs that it took.
#[derive(Drop)]
pub struct EndOf(pub Snapshot<Arc<Shared>>);

impl Promise<End> for EndOf {
    ghost kept_by = { λ promise end. IsEndOf (arc_value promise.0.value) end × HasServed end };
}

/// A worker's thread, which is joined for what it hands back.
pub type Handle = PromisedHandle<End, EndOf>;

/// Starts a worker. Its tokens come back where no thread can be made.
pub fn start<'s, E, R: Wait + Sync, G: Gate + Sync>(
    rt: &'s R,
    alloc: Global,
    scope: &'s Scope<'s, E>,
    shared: &Arc<Shared>,
    gate: &'s G,
    number: u32,
    end: End,
) -> Result<Handle, End>
    requires end { IsEndOf (arc_value shared.now) end }
    requires fresh { IsFresh end }
    ensures { MatchResult result
        (λ handle. arc_value handle.promise.0.value ≡ arc_value shared.now)
        (λ end. IsEndOf (arc_value shared.now) end × HasServed end) }
{
    let promise = EndOf(Snapshot::of(shared));
    let Ok(theirs) = Arc::try_clone(shared) else {
        return Err(end);
    };
    let run = move || -> End
        requires { IsEndOf (arc_value theirs) end × IsFresh end }
        ensures { IsEndOf (arc_value theirs) result × HasServed result }
    {
        let end = end;
        serve(rt, alloc, &theirs, gate, number, end)
    };
    match scope.spawn_with(promise, run) {
        Ok(handle) => Ok(handle),
        Err(refused) => {
            // It leaves at its first look, so that its tokens come back.
            shared.leaving.store(number, Ordering::SeqCst);
            let end = (refused.value)();
            shared.leaving.store(OWNER, Ordering::SeqCst);
            Err(end)
        }
    }
}

/// Waits for a worker that has left or is about to.
pub fn finish<R: Threads>(rt: &R, shared: &Arc<Shared>, handle: Handle) -> End
    requires { arc_value handle.promise.0.value ≡ arc_value shared.now }
    ensures end { IsEndOf (arc_value shared.now) result }
    ensures served { HasServed result }
{
    handle.join(rt)
}
