/// How a run ended.
#[derive(Clone, Copy, Debug, PartialEq, Eq)]
pub enum Ending {
    /// All events were performed.
    Over,
    /// An entry didn't fit into the journal.
    AtLimit,
    /// A Deferred wasn't as the script expects.
    Unmet,
}
