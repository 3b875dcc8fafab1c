/// Whose turn it is in a Cooperator once a task has left those that take turns.
#[derive(Clone, Copy, Debug, Drop)]
pub enum TurnRule {
    /// Still that of the task whose turn it was. When all have had their turn in this round, the
    /// next that joins is before the first of the next round. It is the rule of scripts of versions
    /// 1 and 2.
    Earlier,
    /// Still that of the task whose turn it was, also when another joins after it. It is the usual
    /// rule from version 3 on.
    Fair,
    /// The one that stands at the same place of the list as before, so that one task is skipped if
    /// the task that left stood before it (Twisted: `Cooperator`).
    Twisted,
}
