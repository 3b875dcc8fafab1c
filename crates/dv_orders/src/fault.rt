use thiserror::Error;

/// Why batches aren't an order of a script, and where. Batches, the posts of a batch, callers and
/// the posts of a caller are counted from 0.
#[derive(Clone, Copy, Debug, PartialEq, Eq, Drop, Error)]
pub enum OrderFault {
    /// There are only so many batches, and a drain or the end has none.
    #[error("batch {0} is missing")]
    Missing(usize),
    /// There is a batch of this number, after that of the end.
    #[error("batch {0} is one too many")]
    Needless(usize),
    /// The batch of this number has more posts than its drain takes, which are so many.
    #[error("batch {0} has more than {1} posts")]
    TooLong(usize, u32),
    /// In the batch of this number the post at this place isn't the next one of its caller.
    #[error("post {1} of batch {0} isn't the next one of its caller")]
    NotNext(usize, usize),
    /// No batch has this post: the caller, and its index among that caller's posts.
    #[error("no batch has the post [{0},{1}]")]
    Untaken(usize, usize),
}
