//! Performs a script in given batches, with threads for its jobs alone, or with none.

ghost use Rattle.std.specs.Prelude.{◌≡◌, ◌<◌, ◌≤◌, ◌^◌, ◌-◌, [], length, IfOk};
ghost use Rattle.dv_orders.specs.Listed.{AreOrder};
ghost use Rattle.dv_script.specs.declared.limits.TheConstants.{MOST_POOLS, MOST_WORKERS};

use crate::taking::drive;
use dv_engine::engine::Engine;
use dv_inline::poller::Poller;
use dv_jobs::gate::Gate;
use dv_jobs::one_thread::OneThread;
use dv_jobs::source::JobSource;
use dv_pool::pool_sizes::workers_of_pools;
use dv_pool::pools::Pools;
use dv_posts::posted::Posted;
use dv_run::driving::Driver;
use dv_script::limits::MOST_POOLS;
use dv_script::script::Script;
use dv_value::items::Items;
use std::alloc::{AllocError, AllocGlobal, Global};
use std::hash::RandomState;
use std::random::RandomSource;
use std::sync::Wait;
use std::thread;
use std::thread::Threads;

/// Performs a script as `dv_run::performing::perform` does, with these batches of its callers'
/// posts. No thread is started for a caller.
pub fn perform<S, G, D>(
    rt: &S,
    script: &Script,
    workers: u32,
    gate: &G,
    batches: &[Items<Posted>],
    driver: &D,
) -> Result<D::End, AllocError>
where
    S: Threads + Wait + RandomSource + AllocGlobal + Sync,
    G: Gate + Sync,
    D: Driver + Sync,
    requires workers { workers ≤ MOST_WORKERS }
    requires limited { script.now.limit < 2 ^ 32 - 1 }
    requires pools { length script.now.pools ≤ MOST_POOLS }
    requires order { AreOrder script.now batches.now }
    ensures ends { IfOk result (D.ends script.now) }
    ensures took { IfOk result (λ end. D.took end ≡ batches.now) }
{
    let Ok(poller) = Poller::new(rt) else {
        return Err(AllocError);
    };
    let Ok(keys) = RandomState::new(rt) else {
        return Err(AllocError);
    };
    let alloc = rt.alloc();
    thread::scope(
        thread::scope_env(),
        rt,
        |scope| -> Result<D::End, AllocError>
            requires workers { workers ≤ MOST_WORKERS }
            requires limited { script.now.limit < 2 ^ 32 - 1 }
            requires pools { length script.now.pools ≤ MOST_POOLS }
            requires order { AreOrder script.now batches.now }
            ensures ends { IfOk result (D.ends script.entry.now) }
            ensures took { IfOk result (λ end. D.took end ≡ batches.entry.now) }
        {
            let named = workers_of_pools(alloc, script.pools.as_slice())?;
            if workers == 0 && named.is_empty() {
                let jobs = OneThread::new(alloc, 0, gate);
                perform_with(rt, alloc, poller, keys, jobs, script, batches, driver)
            } else {
                let jobs = Pools::open(rt, alloc, scope, workers, named.as_slice(), gate)?;
                perform_with(rt, alloc, poller, keys, jobs, script, batches, driver)
            }
        },
    )
}

/// Performs a script in these batches of its callers' posts on this thread alone: each job is done
/// where it is submitted, whichever its pool.
pub fn perform_alone<S, G, D>(
    rt: &S,
    script: &Script,
    gate: &G,
    batches: &[Items<Posted>],
    driver: &D,
) -> Result<D::End, AllocError>
where
    S: Threads + Wait + RandomSource + AllocGlobal,
    G: Gate,
    D: Driver,
    requires limited { script.now.limit < 2 ^ 32 - 1 }
    requires pools { length script.now.pools ≤ MOST_POOLS }
    requires order { AreOrder script.now batches.now }
    ensures ends { IfOk result (D.ends script.now) }
    ensures took { IfOk result (λ end. D.took end ≡ batches.now) }
{
    let Ok(poller) = Poller::new(rt) else {
        return Err(AllocError);
    };
    let Ok(keys) = RandomState::new(rt) else {
        return Err(AllocError);
    };
    let alloc = rt.alloc();
    let jobs = OneThread::new(alloc, MOST_POOLS as u32, gate);
    perform_with(rt, alloc, poller, keys, jobs, script, batches, driver)
}

/// Performs a script with these batches and this source for its jobs, to which nothing was
/// submitted yet, and which has the pools that the script names.
fn perform_with<S, J, D>(
    rt: &S,
    alloc: Global,
    poller: Poller,
    keys: RandomState,
    jobs: J,
    script: &Script,
    batches: &[Items<Posted>],
    driver: &D,
) -> Result<D::End, AllocError>
where
    S: Threads + Wait + RandomSource + AllocGlobal,
    J: JobSource,
    D: Driver,
    requires limited { script.now.limit < 2 ^ 32 - 1 }
    requires unused { J.jobs jobs ≡ [] }
    requires declared { length script.now.pools ≤ J.pools jobs }
    requires order { AreOrder script.now batches.now }
    ensures ends { IfOk result (D.ends script.now) }
    ensures took { IfOk result (λ end. D.took end ≡ batches.now) }
{
    let engine = Engine::new(alloc, poller, keys, jobs, script)?;
    drive(rt, alloc, engine, batches, driver)
}
