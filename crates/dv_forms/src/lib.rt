//! The parts of a JSON value in which nothing nests but values: texts, numbers, classes, flags, the
//! arguments of a word, and the classes that a script declares.
#![tactic(auto)]

pub mod arguments;
pub mod declaration;
pub mod failure;
pub mod leaf;
pub mod leaving;
pub mod limits;
pub mod repeat;
pub mod shape_fault;
pub mod table;
pub mod value;
pub mod versions;
pub mod want;
pub mod words;
