//! The objects beside Deferreds: locks, semaphores, queues, and what a DeferredList has of its
//! children.
#![tactic(auto)]

pub mod error;
pub mod gather;
pub mod laws;
pub mod list_id;
pub mod lock_id;
pub mod queue;
pub mod queue_id;
pub mod semaphore;
mod waiting_list;
