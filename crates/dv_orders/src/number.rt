/// How many orders there are, as far as it was asked for.
#[derive(Clone, Copy, Debug, PartialEq, Eq, Drop)]
pub enum Number {
    /// So many, and no more.
    Exactly(u64),
    /// More than was asked for.
    More,
}
