//! What is asked of the texts of a script, by the table of words: names, classes, pools, bodies
//! and the words of a version.
#![tactic(auto)]

pub mod asking;
pub mod names;
pub mod question;
