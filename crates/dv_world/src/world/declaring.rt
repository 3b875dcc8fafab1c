//! The bodies that a script declares by name.

ghost use Rattle.std.specs.Prelude.{◌≡◌, IfOk};
ghost use Rattle.std.specs.Option.{option_copied};
ghost use Rattle.dv_world.specs.World.{begin_body, body_named};

use crate::world::World;
use dv_journal::entry::Entry;
use dv_script::body::Body;
use dv_script::script::NamedBody;
use std::alloc::AllocError;

impl<'s> World<'s> {
    /// The body that the script declares by this name.
    pub fn body_named(&self, name: &str) -> Option<&'s NamedBody>
        ensures { option_copied result ≡ body_named name.now self.now.declared }
    {
        body_among(name, self.declared)
    }

    /// That a declared body runs is logged. Returns the body, or none in a run that has stopped.
    pub fn begin_body(&mut self, declared: &'s NamedBody) -> Result<Option<&'s Body>, AllocError>
        ensures { IfOk result
            (λ body. (option_copied body, self.new) ≡ begin_body declared.now self.old) }
    {
        self.tell(Entry::Body(declared.name.copy(self.alloc)?))?;
        if self.stopped {
            return Ok(None);
        }
        Ok(Some(&declared.body))
    }
}

/// The first of these bodies that has this name.
fn body_among<'s>(name: &str, bodies: &'s [NamedBody]) -> Option<&'s NamedBody>
    ensures { option_copied result ≡ body_named name.now bodies.now }
{
    match bodies.split_first() {
        None => None,
        Some((body, rest)) => if body.name.as_str() == name {
            Some(body)
        } else {
            body_among(name, rest)
        },
    }
}
