//! Places among the nodes of a document.

ghost use Rattle.dv_document.specs.Places.{Begins, GoesOn, GoesOnKeyed, tokens_from};

use json::Tape;

/// A value of a document. Contracts see the data that it is by `view`.
#[derive(Clone, Copy, Drop)]
pub struct Json<'t> {
    pub(crate) tape: &'t Tape<'t>,
    pub(crate) at: usize,
    ghost stands: { ∥ Begins (tokens_from tape.now at) ∥₁ },
}

/// The elements of an array, from one of them on. Contracts see them by `items_view`.
#[derive(Clone, Copy, Drop)]
pub struct Elements<'t> {
    pub(crate) tape: &'t Tape<'t>,
    pub(crate) at: usize,
    ghost inside: { ∥ GoesOn (tokens_from tape.now at) ∥₁ },
}

/// The members of an object, from one of them on, in the order of the text. Contracts see them
/// by `members_view`, in the order of their keys.
#[derive(Clone, Copy, Drop)]
pub struct Members<'t> {
    pub(crate) tape: &'t Tape<'t>,
    pub(crate) at: usize,
    ghost inside: { ∥ GoesOnKeyed (tokens_from tape.now at) ∥₁ },
}
