//! What a rule works on.

ghost use Rattle.std.specs.Prelude.{◌≡◌, []};
ghost use Rattle.dv_objects.specs.declared.performed.Performed.TheVariants.{Done};

use crate::frames::Frames;
use dv_objects::performed::Performed;
use dv_world::world::World;
use std::alloc::Global;

/// What a rule works on: it reads and changes the world, leaves what is to follow on the stack, and
/// returns something.
#[derive(Drop)]
pub struct Turn<'s> {
    /// Where memory is taken from.
    pub alloc: Global,
    /// Deferreds, objects, names and the journal.
    pub world: World<'s>,
    /// What is still to be done, from what is done next.
    pub stack: Frames<'s>,
    /// What was given so far. A rule begins with nothing given.
    pub performed: Performed<'s>,
}

impl<'s> Turn<'s> {
    /// A world in which nothing is to be done. The stack takes no memory before the first frame.
    pub fn new(alloc: Global, world: World<'s>) -> Turn<'s>
        ensures { result
            ≡ record { alloc = alloc; world = world.entry; stack = []; performed = Done } }
    {
        Turn {
            alloc,
            world,
            stack: Frames::new(alloc),
            performed: Performed::Done,
        }
    }
}
