ghost use Rattle.std.specs.Prelude.{◌≡◌};
ghost use Rattle.dv_objects.specs.declared.performed.Performed.TheVariants.{Done};

use dv_objects::performed::Performed;
use std::mem;

/// Takes what was given, and leaves nothing in its place.
pub fn taken<'s>(performed: &mut Performed<'s>) -> Performed<'s>
    ensures was { result ≡ performed.old }
    ensures done { performed.new ≡ Done }
{
    mem::replace(performed, Performed::Done)
}

/// Drops what was given, and leaves nothing in its place.
#[inline(always)]
pub fn clear(performed: &mut Performed<'_>)
    ensures { performed.new ≡ Done }
{
    match performed {
        Performed::Done => {}
        Performed::Gave(_) | Performed::Awaits(_) | Performed::Raised(_) => put_done(performed),
    }
}

/// Leaves nothing in the place of what was given.
#[inline(never)]
fn put_done(performed: &mut Performed<'_>)
    ensures { performed.new ≡ Done }
{
    *performed = Performed::Done;
}
