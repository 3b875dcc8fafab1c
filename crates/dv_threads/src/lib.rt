//! What inline bodies lead to, the Deferreds that bodies become, and the jobs that a run submits to
//! threads (Twisted: `twisted.internet.threads`).
#![tactic(auto)]

pub mod inlining;
pub mod maybe;
pub mod submissions;
pub mod threading;
