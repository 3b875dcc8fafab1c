/// From which number on the next task is looked for among those that take turns.
#[derive(Clone, Copy, Debug, Drop)]
pub struct Place {
    /// The number.
    pub next: u64,
    /// By how many the position is past the end of those that take turns.
    pub beyond: u64,
}
