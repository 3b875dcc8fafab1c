//! The grammar of scripts: which JSON value says which draft of a script, and reading one as what
//! it says.
#![tactic(auto)]

pub mod draft;
pub mod reading;
