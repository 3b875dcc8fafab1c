//! Jobs on worker threads: what the workers of a pool share, what each does, and the pools of a
//! script.
#![tactic(auto)]

pub mod answer_queue;
pub mod job_deque;
pub mod pool;
pub mod pool_sizes;
pub mod pools;
pub mod rule;
pub mod worker;

pub use dv_jobs::error::JobFault;
pub use dv_jobs::gate::{Gate, OWNER, PlainGate};
pub use dv_jobs::job::{Answer, Done, Job};
pub use dv_jobs::one_thread::OneThread;
pub use dv_jobs::ran::Ran;
pub use dv_jobs::source::JobSource;
pub use dv_posts::inbox::Inbox;
pub use dv_posts::posted::Posted;
pub use dv_posts::poster::Poster;
pub use dv_posts::taken::Taken;
pub use pool::Pool;
pub use pools::Pools;
