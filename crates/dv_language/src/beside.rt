//! What readers need beside words and lines, as JSON: classes, limits, what stands where a script
//! leaves it out, refusals, statuses.

ghost use Rattle.std.specs.Prelude.{◌≡◌, IfOk, map, option_map};
ghost use Rattle.serde_json.specs.Data.{array};
ghost use Rattle.serde_json.specs.View.{items_of, view};
ghost use Rattle.dv_language.specs.Beside.{class_row, classes_data, limits_data, usual_data};
ghost use Rattle.dv_language.specs.Beside.{smaller_data};
ghost use Rattle.dv_language.specs.Beside.{refusal_data, refusals_data, status_data, statuses_data};

use dv_clock::limits::MOST_TICKS;
use dv_forms::limits::{WIDEST_BYTES, WIDEST_NODES};
use dv_forms::versions::{COOPERATORS_SINCE, WIDE_SINCE};
use dv_reader::error::{REFUSALS, ScriptFault, refusal_name, refusal_number};
use dv_script::limits::{
    MOST_BODIES, MOST_BYTES, MOST_CALLERS, MOST_CLASSES, MOST_COOPERATORS, MOST_LEVELS, MOST_LIMIT,
    MOST_NODES, MOST_POOLS, MOST_POSTS, USUAL_LIMIT,
};
use dv_script::work::MOST_JOBS;
use serde_json::{Value as Json, json, push};
use std::alloc::{AllocError, Global};

/// The classes that every script has since a version, each after its parent.
pub const CLASSES: [(&str, Option<&str>, u32); 22] = [
    ("Exception", None, 1),
    ("ValueError", Some("Exception"), 1),
    ("TypeError", Some("Exception"), 1),
    ("NameError", Some("Exception"), 1),
    ("AssertionError", Some("Exception"), 1),
    ("OverflowError", Some("Exception"), 1),
    ("RuntimeError", Some("Exception"), 1),
    ("AlreadyCalledError", Some("Exception"), 1),
    ("CancelledError", Some("Exception"), 1),
    ("FirstError", Some("Exception"), 1),
    ("QueueOverflow", Some("Exception"), 1),
    ("QueueUnderflow", Some("Exception"), 1),
    ("SchedulerError", Some("Exception"), 1),
    ("AlreadyCalled", Some("ValueError"), 1),
    ("AlreadyCancelled", Some("ValueError"), 1),
    ("TaskFinished", Some("SchedulerError"), 1),
    ("NotPaused", Some("SchedulerError"), 1),
    ("TaskDone", Some("TaskFinished"), 1),
    ("TaskStopped", Some("TaskFinished"), 1),
    ("TaskFailed", Some("TaskFinished"), 1),
    ("TimeoutError", Some("Exception"), 1),
    (
        "SchedulerStopped",
        Some("SchedulerError"),
        COOPERATORS_SINCE,
    ),
];

/// The exit statuses of the program, and when it ends with each.
pub const STATUSES: [(u32, &str); 10] = [
    (0, "all events ran, or the script is accepted"),
    (1, "the run stopped at the limit of its journal"),
    (2, "the script is refused: --why says where"),
    (3, "out of memory"),
    (4, "a read or a write failed"),
    (
        5,
        "the batches are refused: they aren't an order of the script's posts",
    ),
    (6, "--orders: the orders end in several ways"),
    (
        7,
        "--orders: there are more orders than --most allows, or than 64 bits count",
    ),
    (8, "a Deferred wasn't as the script expects"),
    (64, "the arguments are wrong"),
];

/// The most characters of a name.
const MOST_NAME: u32 = 32;

fn class_json(
    alloc: Global,
    class: &(&'static str, Option<&'static str>, u32),
) -> Result<Json, AllocError>
    ensures { IfOk result (λ json. view json
        ≡ class_row class.now.2 class.now.0.now (option_map (λ parent. parent.now) class.now.1)) }
{
    match class.1 {
        None => json!(in alloc; {"class": class.0, "parent": null, "since": class.2}),
        Some(parent) => json!(in alloc; {"class": class.0, "parent": parent, "since": class.2}),
    }
}

fn class_rows(
    alloc: Global,
    classes: &[(&'static str, Option<&'static str>, u32)],
) -> Result<Json, AllocError>
    ensures { IfOk result (λ json. view json ≡ array (items_of (map (λ class.
        class_row class.2 class.0.now (option_map (λ parent. parent.now) class.1)) classes.now))) }
{
    let mut rows = Vec::new(alloc);
    for class in classes {
        push(&mut rows, class_json(alloc, class)?)?;
    }
    Ok(Json::Array(rows))
}

/// The classes that are built in, with their parents.
#[tactic(auto, using(crate::proofs::Classes::listed))]
pub fn classes_json(alloc: Global) -> Result<Json, AllocError>
    ensures { IfOk result (λ json. view json ≡ classes_data) }
{
    class_rows(alloc, &CLASSES)
}

/// The most that there may be.
pub fn limits_json(alloc: Global) -> Result<Json, AllocError>
    ensures { IfOk result (λ json. view json ≡ limits_data) }
{
    json!(in alloc; {
        "bytes": WIDEST_BYTES,
        "depth": MOST_LEVELS,
        "nodes": WIDEST_NODES,
        "classes": MOST_CLASSES,
        "pools": MOST_POOLS,
        "bodies": MOST_BODIES,
        "cooperators": MOST_COOPERATORS,
        "callers": MOST_CALLERS,
        "posts": MOST_POSTS,
        "time": MOST_TICKS,
        "jobs": MOST_JOBS,
        "name": MOST_NAME,
    })
}

/// What a script of a version before these limits may have at most.
pub fn smaller_json(alloc: Global) -> Result<Json, AllocError>
    ensures { IfOk result (λ json. view json ≡ smaller_data) }
{
    json!(in alloc; {
        "before": WIDE_SINCE,
        "bytes": MOST_BYTES,
        "nodes": MOST_NODES,
        "limit": MOST_LIMIT,
    })
}

/// What stands where a script leaves it out.
pub fn usual_json(alloc: Global) -> Result<Json, AllocError>
    ensures { IfOk result (λ json. view json ≡ usual_data) }
{
    json!(in alloc; {"limit": USUAL_LIMIT, "units": 1u32, "delay": 1u32})
}

fn refusal_json(alloc: Global, refusal: ScriptFault) -> Result<Json, AllocError>
    ensures { IfOk result (λ json. view json ≡ refusal_data refusal) }
{
    json!(in alloc; {"refusal": refusal_number(refusal), "name": refusal_name(refusal)})
}

fn refusal_rows(alloc: Global, refusals: &[ScriptFault]) -> Result<Json, AllocError>
    ensures { IfOk result (λ json. view json ≡ array (items_of (map refusal_data refusals.now))) }
{
    let mut rows = Vec::new(alloc);
    for refusal in refusals {
        push(&mut rows, refusal_json(alloc, *refusal)?)?;
    }
    Ok(Json::Array(rows))
}

/// The refusals.
pub fn refusals_json(alloc: Global) -> Result<Json, AllocError>
    ensures { IfOk result (λ json. view json ≡ refusals_data) }
{
    refusal_rows(alloc, &REFUSALS)
}

fn status_json(alloc: Global, status: &(u32, &'static str)) -> Result<Json, AllocError>
    ensures { IfOk result (λ json. view json ≡ status_data status.now.0 status.now.1.now) }
{
    json!(in alloc; {"status": status.0, "when": status.1})
}

fn status_rows(alloc: Global, statuses: &[(u32, &'static str)]) -> Result<Json, AllocError>
    ensures { IfOk result (λ json. view json
        ≡ array (items_of (map (λ status. status_data status.0 status.1.now) statuses.now))) }
{
    let mut rows = Vec::new(alloc);
    for status in statuses {
        push(&mut rows, status_json(alloc, status)?)?;
    }
    Ok(Json::Array(rows))
}

/// The exit statuses.
pub fn statuses_json(alloc: Global) -> Result<Json, AllocError>
    ensures { IfOk result (λ json. view json ≡ statuses_data) }
{
    status_rows(alloc, &STATUSES)
}
