//! The language as JSON: its words and keys, the lines of the journal, and what else a reader of
//! scripts or of journals needs.
#![tactic(auto)]

mod beside;
mod keys;
pub mod language;
mod lines;
mod wants;
mod words;
