//! Runs a script: reads it, runs it, and prints its journal and its outcomes; why a run failed, and
//! its exit status.
#![tactic(auto)]

pub mod driving;
pub mod error;
pub mod exit;
pub mod orders;
pub mod output;
pub mod performing;
pub mod running;
mod words;
mod workers;

pub use crate::error::RunFault;
pub use crate::exit::exit_of;
pub use dv_source::io_source::IoSource;
pub use dv_source::memory_source::MemorySource;
pub use dv_source::source::{ReadError, Source, SourceFault};
pub use running::{Kept, run, run_and_keep};
pub use words::{Asked, Form, Input, Task, asked_of, batches_word};
pub use workers::workers_of;
