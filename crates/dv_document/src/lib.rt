//! A JSON text as one flat list of nodes, and values that are places in it. Nothing is copied: a
//! text without escapes is borrowed from the script's own.
#![tactic(auto)]

pub mod document;
mod elements;
mod members;
mod nodes;
mod number;
pub mod places;
pub mod room;
pub mod value;
