//! The journal of a run: its entries, their text, and where that goes.
#![tactic(auto)]

pub mod deferred_id;
pub mod ending;
pub mod entry;
pub mod error;
pub mod form;
pub mod forms;
pub mod io_sink;
pub mod journal;
pub mod line;
pub mod memory_sink;
pub mod part;
pub mod sink;
pub mod state;
