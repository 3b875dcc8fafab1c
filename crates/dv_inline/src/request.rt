use dv_script::lent::{ActionRef, TextRef};

/// What an inline body requests before it goes on.
#[derive(Drop)]
pub enum Request<'s> {
    /// That the action is performed.
    Do(ActionRef<'s>),
    /// The result of the Deferred of this name.
    Await(TextRef<'s>),
}
