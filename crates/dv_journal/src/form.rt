//! What a line of the journal consists of: its word, and the kinds of its other parts, in the order
//! of the line.

/// A kind of objects that have names, and are numbered each for itself in order of making.
#[derive(Clone, Copy)]
pub enum ObjectKind {
    /// Locks and semaphores.
    Lock,
    Queue,
    Call,
    Loop,
    Task,
    /// Bodies that a script declares by name.
    Body,
    /// Cooperators that a script declares by name.
    Cooperator,
}

/// Which object of its kind a name in a line stands for.
#[derive(Clone, Copy)]
pub enum Naming {
    /// The one that is made under this name.
    Made,
    /// The one that was made last under this name.
    Last,
    /// Any one that was made under this name.
    Any,
}

/// What a part of a line is.
#[derive(Clone, Copy)]
pub enum PartKind {
    /// `#N`: a Deferred.
    Deferred,
    /// `#N`: a Deferred that is fired.
    Fired,
    /// The name that a Deferred is made with, `-` for none.
    NewName,
    /// A name for a Deferred that was made already, `-` for none.
    Name,
    /// The name of another object.
    Object(ObjectKind, Naming),
    /// The number of a job.
    Job,
    /// Another number.
    Number,
    /// A bound of a queue, `none` for no bound.
    Bound,
    /// The time at which something is due, in ticks of the virtual clock.
    Due,
    /// The time to which the clock advances.
    Time,
    /// `ok` and the JSON of a value, or `fail` and a failure.
    Outcome,
    /// The JSON of a value.
    Value,
    /// A failure: its class and its message.
    Failure,
    /// The JSON of a text.
    Text,
    /// What has become of a Deferred: `unfired`, `waiting` and the Deferred that it waits for, or
    /// an outcome.
    State,
    /// `expected`, and what a script expects of a Deferred: `unfired`, `waiting`, or an outcome.
    Expected,
}

/// What an entry does to the sections of its run.
#[derive(Clone, Copy, PartialEq, Eq)]
pub enum Nesting {
    /// It lies in what is open, and has nothing in it.
    Plain,
    /// A side begins.
    Begins,
    /// The innermost side ends.
    Ends,
    /// The rest of its event lies in it.
    Outer,
    /// It came due, and what follows lies in it.
    Due,
    /// The same of a turn, unless its loop takes it at once.
    Turn,
    /// The same of a tick, and the steps lie in it.
    Tick,
    /// A step of a tick.
    Step,
    /// The next tick is scheduled, which a tick does after its last step.
    NextTick,
    /// A loop is made.
    Loop,
}

/// The form of a line.
#[derive(Clone, Copy)]
pub struct LineForm {
    /// The first word of the line, or the first two.
    pub word: &'static str,
    /// The parts that follow, each after a space.
    pub parts: &'static [PartKind],
    pub nesting: Nesting,
}
