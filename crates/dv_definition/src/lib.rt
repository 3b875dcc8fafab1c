//! The definition: what a script means, as pages of specifications. It has no code. What a rule
//! calls for has the names that `dv_frames` declares; how a run keeps what is still to be done is
//! no part of it.
#![tactic(auto)]

pub mod laws;
