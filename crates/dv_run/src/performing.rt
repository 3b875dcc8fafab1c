ghost use Rattle.std.specs.Prelude.{◌≡◌, ◌<◌, ◌≤◌, ◌^◌, ◌-◌, [], length, IfOk};
ghost use Rattle.dv_posts.specs.Callers.{AllServe, AreFew, TookBatches};
ghost use Rattle.dv_script.specs.declared.limits.TheConstants.{MOST_POOLS, MOST_WORKERS};

use crate::driving::{Driver, drive};
use dv_engine::engine::Engine;
use dv_inline::poller::Poller;
use dv_jobs::gate::Gate;
use dv_jobs::one_thread::OneThread;
use dv_jobs::source::JobSource;
use dv_pool::pool_sizes::workers_of_pools;
use dv_pool::pools::Pools;
use dv_posts::callers::{Caller, start_all};
use dv_posts::inbox::Inbox;
use dv_script::limits::MOST_POSTS;
use dv_script::script::Script;
use std::alloc::{AllocError, AllocGlobal, Global};
use std::hash::RandomState;
use std::random::RandomSource;
use std::sync::Wait;
use std::thread;
use std::thread::Threads;

/// Performs a script, with a thread for each caller, so many for the jobs of the default pool, and
/// as many as the script says for those of each other pool. Where there is no worker and no pool is
/// named, no thread is started for jobs. A poller for inline bodies that can't be made, and keys
/// for names that the system doesn't give, count as out of memory.
pub fn perform<S, G, D>(
    rt: &S,
    script: &Script,
    workers: u32,
    gate: &G,
    driver: &D,
) -> Result<D::End, AllocError>
where
    S: Threads + Wait + RandomSource + AllocGlobal + Sync,
    G: Gate + Sync,
    D: Driver + Sync,
    requires workers { workers ≤ MOST_WORKERS }
    requires limited { script.now.limit < 2 ^ 32 - 1 }
    requires few { AreFew script.now.callers }
    requires pools { length script.now.pools ≤ MOST_POOLS }
    ensures { IfOk result (D.ends script.now) }
{
    let Ok(poller) = Poller::new(rt) else {
        return Err(AllocError);
    };
    let Ok(keys) = RandomState::new(rt) else {
        return Err(AllocError);
    };
    let alloc = rt.alloc();
    thread::scope(
        thread::scope_env(),
        rt,
        |scope| -> Result<D::End, AllocError>
            requires workers { workers ≤ MOST_WORKERS }
            requires limited { script.now.limit < 2 ^ 32 - 1 }
            requires few { AreFew script.now.callers }
            requires pools { length script.now.pools ≤ MOST_POOLS }
            ensures { IfOk result (D.ends script.entry.now) }
        {
            let bodies = script.callers.as_slice();
            let (inbox, posters) = Inbox::open(alloc, bodies.len() as u32, MOST_POSTS)?;
            let callers = start_all(alloc, scope, bodies, posters)?;
            let named = workers_of_pools(alloc, script.pools.as_slice())?;
            if workers == 0 && named.is_empty() {
                let jobs = OneThread::new(alloc, 0, gate);
                perform_with(
                    rt, alloc, poller, keys, jobs, script, inbox, callers, driver,
                )
            } else {
                let jobs = Pools::open(rt, alloc, scope, workers, named.as_slice(), gate)?;
                perform_with(
                    rt, alloc, poller, keys, jobs, script, inbox, callers, driver,
                )
            }
        },
    )
}

/// Performs a script whose callers post, with this source for its jobs, to which nothing was
/// submitted yet, and which has the pools that the script names.
fn perform_with<S, J, D>(
    rt: &S,
    alloc: Global,
    poller: Poller,
    keys: RandomState,
    jobs: J,
    script: &Script,
    inbox: Inbox,
    callers: Vec<Caller>,
    driver: &D,
) -> Result<D::End, AllocError>
where
    S: Threads + Wait + RandomSource + AllocGlobal,
    J: JobSource,
    D: Driver,
    requires limited { script.now.limit < 2 ^ 32 - 1 }
    requires unused { J.jobs jobs ≡ [] }
    requires declared { length script.now.pools ≤ J.pools jobs }
    requires serve { AllServe script.now.callers inbox callers.items }
    requires untaken { TookBatches inbox [] }
    ensures { IfOk result (D.ends script.now) }
{
    let engine = Engine::new(alloc, poller, keys, jobs, script)?;
    drive(
        rt,
        alloc,
        engine,
        script.callers.as_slice(),
        inbox,
        callers,
        driver,
    )
}
