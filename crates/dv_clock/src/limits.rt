/// The latest time that a clock reaches, in ticks.
pub const MOST_TICKS: u64 = 1_000_000_000_000_000;

/// The longest that a call waits for, in ticks.
pub const MOST_DELAY: u64 = 1_000_000_000_000;

/// The latest time that a call is due at: no clock reaches it.
pub const MOST_DUE: u64 = MOST_TICKS + MOST_DELAY;
