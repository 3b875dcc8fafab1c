//! The values of a script, its failures, and the table of their classes.
#![tactic(auto)]

pub mod boxed;
pub mod class_fault;
pub mod class_id;
pub mod classes;
pub mod deque;
pub mod expected;
pub mod failure;
pub mod fault;
pub mod items;
pub mod laws;
pub mod plus;
pub mod shared;
pub mod stack;
pub mod text;
pub mod throw;
pub mod value;
pub mod value_text;
pub mod writing;
