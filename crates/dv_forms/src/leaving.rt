ghost use Rattle.std.specs.Prelude.{◌≡◌};
ghost use Rattle.dv_forms.specs.Leaving.{may_leave};

use dv_script::body::End;

/// Whether an inline body may be left by this end.
pub fn may_leave(end: &End) -> bool
    ensures { result ≡ may_leave end.now }
{
    match end {
        End::Return(_) | End::Pass | End::Plus(_) | End::Raise(_, _) | End::Throw(_) => true,
        End::Trap(_, _) | End::Wait(_) | End::Run(_) => false,
    }
}
