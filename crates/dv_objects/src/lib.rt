//! The objects beside the Deferreds of a run: pairs, cancellers, names, tasks, loops, inline bodies
//! and works.
#![tactic(auto)]

pub mod canceller;
pub mod cooperator;
pub mod cooperators;
pub mod follow;
pub mod given;
pub mod inline_id;
pub mod inlines;
pub mod input;
pub mod looping_call;
mod name_hashers;
pub mod names;
pub mod pair;
pub mod performed;
pub mod reached;
pub mod refusals;
pub mod stopping;
pub mod task;
pub mod timed;
pub mod trap;
pub mod waiting;
pub mod works;
