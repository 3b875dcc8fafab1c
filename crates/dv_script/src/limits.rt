//! How large a script may be, and how far its numbers may go. Those of time stand in
//! `dv_clock::limits`, and how many jobs a run may have in `work`.

/// The most bytes of a script.
pub const MOST_BYTES: usize = 1_048_576;

/// The most nodes of a script, of which each array, object and scalar is one.
pub const MOST_NODES: u64 = 65_536;

/// To how many levels bodies and statements may nest: as many as JSON may, so that no script is
/// refused for it.
pub const MOST_LEVELS: u32 = 127;

/// The most that a script may let its journal weigh.
pub const MOST_LIMIT: u64 = 200_000;

/// What a script lets its journal weigh where it says nothing of it.
pub const USUAL_LIMIT: u64 = 2_000;

/// The most classes that a script declares.
pub const MOST_CLASSES: usize = 256;

/// The most pools of a script, beside the default one.
pub const MOST_POOLS: usize = 4;

/// The most workers of a pool.
pub const MOST_WORKERS: u32 = 16;

/// The most bodies that a script names.
pub const MOST_BODIES: usize = 256;

/// The largest place in a list that a script names.
pub const MOST_PLACE: u32 = 1_000_000;

/// The most Cooperators that a script names.
pub const MOST_COOPERATORS: usize = 256;

/// The most callers of a script.
pub const MOST_CALLERS: u32 = 8;

/// The most posts of a caller.
pub const MOST_POSTS: u32 = 256;

/// The most posts that a drain takes: all that the callers of a script may have.
pub const MOST_DRAINED: u32 = 2_048;

/// The most steps that a tick of the Cooperator has.
pub const MOST_UNITS: u32 = 1_000;

/// The most tokens of a semaphore, and the most that a queue's size or backlog may be.
pub const MOST_PLACES: u32 = 65_536;

/// The largest integer up to which a work sums.
pub const MOST_SUM: u32 = 1_000_000;
