use json::Scratch;
use std::alloc::Global;

/// The memory that the reading of a document needs, and from which the document borrows.
#[derive(Drop)]
pub struct Room {
    /// For a text as it is given.
    pub(crate) given: Scratch,
    /// For one that is written anew, since it gives a key twice.
    pub(crate) anew: Scratch,
    /// That text.
    pub(crate) text: String,
}

impl Room {
    /// Room that takes no memory before a document is read.
    pub fn new(alloc: Global) -> Room {
        Room {
            given: Scratch::new(alloc),
            anew: Scratch::new(alloc),
            text: String::new(alloc),
        }
    }
}
