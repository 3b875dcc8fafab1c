ghost use Rattle.std.specs.Option.{option_copied};
ghost use Rattle.std.specs.Prelude.{◌≡◌, [], OnOk, IfOk, OnErr, length, slice_get};

use indexmap::IndexSet;
use std::alloc::{AllocError, Global};
use std::hash::RandomState;
use std::marker::Model;

/// Different texts, in the order in which they were first met. They are looked up by a hash with
/// keys, since the author of a script chooses the names in them.
#[derive(Drop)]
pub struct Texts {
    alloc: Global,
    met: IndexSet<String, RandomState>,
}

impl Model for Texts {
    ghost use Rattle.std.specs.Prelude.{map, string_bytes, List, ℕ};

    ghost Value = { List (List ℕ) };

    ghost view = { λ t. map string_bytes t.met.keys };
}

impl Texts {
    ghost use Rattle.dv_survey.specs.Texts.{place_of, with_text};

    /// Makes an empty set, whose texts are hashed with these keys. It takes no memory before the
    /// first is added.
    pub fn new(alloc: Global, keys: RandomState) -> Texts
        ensures { result ≡ [] }
    {
        Texts {
            alloc,
            met: IndexSet::with_hasher(alloc, keys),
        }
    }

    /// Adds a text, unless it is there, and returns its place. Where memory is refused, the texts
    /// stay as they were.
    #[tactic(auto, using(crate::proofs::TextsLemmas::shown))]
    pub fn add(&mut self, text: &str) -> Result<usize, AllocError>
        ensures place { IfOk result (λ place. place ≡ place_of text.now self.old) }
        ensures ok { OnOk result (self.new ≡ with_text text.now self.old) }
        ensures err { OnErr result (self.new ≡ self.old) }
    {
        let text = String::from_str(self.alloc, text)?;
        let (place, _) = self.met.insert_full(text)?;
        Ok(place)
    }

    /// Counts the different texts that were added.
    pub fn len(&self) -> usize
        ensures { result ≡ length self.now }
    {
        self.met.len()
    }

    /// Returns the text at a place, if there is one.
    pub fn at(&self, place: usize) -> Option<&str>
        ensures { option_copied result ≡ slice_get self.now place }
    {
        match self.met.get_index(place) {
            None => None,
            Some(text) => Some(text.as_str()),
        }
    }
}
