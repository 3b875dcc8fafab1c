//! What is raised is logged where nothing catches it.

ghost use Rattle.std.specs.Prelude.{◌≡◌, OnOk};
ghost use Rattle.dv_objects.specs.Performed.{failed_with};
ghost use Rattle.dv_frames.specs.Raising.{told_of};
ghost use Rattle.dv_frames.specs.Turn.{◌onto◌, done};
ghost use Rattle.dv_objects.specs.declared.performed.Performed.TheVariants.{Done};

use crate::turn::Turn;
use dv_journal::entry::Entry;
use dv_objects::performed::Performed;
use std::alloc::AllocError;

/// Logs the failure that was the result, where one was (Twisted: what `log.err` logs).
pub fn tell_failure<'s>(turn: &mut Turn<'s>, performed: Performed<'s>) -> Result<(), AllocError>
    requires done { turn.old.performed ≡ Done }
    ensures { OnOk result
        (turn.new ≡ done (told_of (failed_with performed.entry) turn.old.world) onto turn.old) }
{
    match performed.into_failure(turn.alloc)? {
        None => Ok(()),
        Some(failure) => turn.world.tell(Entry::Unhandled(failure)),
    }
}
