ghost use Rattle.std.specs.Prelude.{◌≡◌, [], ◌∷◌, IfOk};

use dv_forms::want::Want;
use serde_json::Value as Json;
use std::alloc::{AllocError, Global};

/// A step from a JSON value to a part of it.
#[derive(Clone, Copy, Drop)]
pub enum Step<'j> {
    /// To an item of an array.
    Item(usize),
    /// To the value of a key.
    Key(&'j str),
}

/// A part of a JSON value that is wrong.
#[derive(Drop)]
pub struct Misfit<'j> {
    /// The steps to it, the first from the whole.
    pub steps: Vec<Step<'j>>,
    /// What its place asks for.
    pub want: Want,
    /// What stands there.
    pub found: &'j Json,
}

impl<'j> Misfit<'j> {
    /// The value itself is wrong.
    pub fn here(alloc: Global, want: Want, found: &'j Json) -> Misfit<'j>
        ensures steps { result.steps.items ≡ [] }
        ensures want { result.want ≡ want }
        ensures found { result.found ≡ found.entry }
    {
        Misfit {
            steps: Vec::new(alloc),
            want,
            found,
        }
    }

    /// The same part, seen from the value from which this step leads.
    pub fn under(mut self, step: Step<'j>) -> Result<Misfit<'j>, AllocError>
        ensures steps { IfOk result (λ m. m.steps.items ≡ step.entry ∷ self.entry.steps.items) }
        ensures want { IfOk result (λ m. m.want ≡ self.entry.want) }
        ensures found { IfOk result (λ m. m.found ≡ self.entry.found) }
    {
        self.steps.insert(0, step)?;
        Ok(self)
    }
}
