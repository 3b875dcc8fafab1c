/// How a survey is written: that of every order, or that of a sample of so many.
#[derive(Clone, Copy, Debug, PartialEq, Eq, Drop)]
pub enum Format {
    /// As lines of text.
    Lines(Option<u32>),
    /// As JSON Lines.
    Json(Option<u32>),
}
