//! The readers: each takes a part of a JSON value apart, by its shape alone.

mod action;
mod body;
mod cooperator;
mod end;
mod event;
mod outcome;
pub mod script;
mod statement;
mod work;
