//! What a version of the language has that those before it haven't, words apart.

/// The first version of the language.
pub const FIRST_VERSION: u32 = 1;

/// The last version of the language.
pub const LAST_VERSION: u32 = 3;

/// The first version in which a name may have `-`, `.` and `:`.
pub const MARKS_SINCE: u32 = 3;

/// The first version whose scripts may be larger.
pub const WIDE_SINCE: u32 = 3;

/// The first version in which a script may name bodies.
pub const BODIES_SINCE: u32 = 3;

/// The first version in which a script may name Cooperators, and has the class of what a stopped
/// one ends its tasks with.
pub const COOPERATORS_SINCE: u32 = 3;

/// The first version in which a time-out may have a body of its own.
pub const TIMEOUTS_SINCE: u32 = 3;

/// The first version in which the turns of a loop may have bodies of their own.
pub const TURNS_SINCE: u32 = 3;

/// The first version in which a Cooperator has a rule of its turns.
pub const RULES_SINCE: u32 = 3;

/// The first version in which an end of an inline body that fails throws its failure there, where
/// a `try` may catch it.
pub const ENDS_THROW_SINCE: u32 = 3;

/// The first version in which an object may have a comment.
pub const COMMENTS_SINCE: u32 = 3;

/// The first version in which a member of an array of a value may be a failure.
pub const FAILURES_SINCE: u32 = 3;
