//! How many workers the pools of a script have.

ghost use Rattle.std.specs.Prelude.{◌≡◌, ◌≤◌, length, map, min, All, IfOk};
ghost use Rattle.dv_script.specs.declared.limits.TheConstants.{MOST_WORKERS};

use dv_script::limits::MOST_WORKERS;
use dv_script::script::NamedPool;
use std::alloc::{AllocError, Global};

/// How many workers each of these pools is given: as many as it has, but `MOST_WORKERS` at most,
/// which no pool of a script that is read passes.
pub fn workers_of_pools(alloc: Global, pools: &[NamedPool]) -> Result<Vec<u32>, AllocError>
    ensures each { IfOk result
        (λ named. named.items ≡ map (λ pool. min pool.workers MOST_WORKERS) pools.now) }
    ensures len { IfOk result (λ named. length named.items ≡ length pools.now) }
    ensures few { IfOk result (λ named. All (λ n. n ≤ MOST_WORKERS) named.items) }
{
    let mut named = Vec::with_capacity(alloc, pools.len())?;
    for pool in pools {
        named.push_reserved(pool.workers.min(MOST_WORKERS));
    }
    Ok(named)
}
