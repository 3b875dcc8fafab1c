ghost use Rattle.std.specs.Prelude.{◌≡◌, [], ◌∷◌, ◌++◌, OnOk};

use crate::job::Done;
use dv_value::deque::Deque;
use dv_value::items::Items;
use std::alloc::{AllocError, Global};

/// What a source of jobs has done.
#[derive(Debug, Drop)]
pub struct Ran {
    dones: Items<Done>,
}

impl Ran {
    /// Nothing yet.
    pub fn new(alloc: Global) -> Ran
        ensures { result.dones ≡ [] }
    {
        Ran {
            dones: Items::new(alloc),
        }
    }

    /// One more job was done.
    pub fn add(&mut self, done: Done) -> Result<(), AllocError>
        ensures { OnOk result (self.new.dones ≡ self.old.dones ++ done ∷ []) }
    {
        self.dones.push(done)
    }

    /// What was done, to be taken from the front.
    pub fn into_dones(self) -> Deque<Done>
        ensures { result ≡ self.dones }
    {
        Deque::of(self.dones.into_vec())
    }

    /// Each job with the value of its work, in the order of their numbers.
    pub fn dones(&self) -> &[Done]
        ensures { result.now ≡ self.now.dones }
    {
        self.dones.as_slice()
    }
}
