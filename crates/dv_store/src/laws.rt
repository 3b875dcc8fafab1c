//! Laws of the definitions.

ghost use Rattle.dv_store.specs.Cancelling.{ChainsEnd};
ghost use Rattle.dv_store.specs.Laws.{SecondFiringChangesNothing, OneFiringIsSwallowed};
ghost use Rattle.dv_store.specs.Laws.{StepUsesOneItemAtMost};

use crate::sides::Sides;

/// A Deferred is fired once.
pub fn second_firing_changes_nothing<P, K>()
    ensures { SecondFiringChangesNothing P K }
{}

/// A cancel that asks for it has one further firing swallowed, and no more.
pub fn one_firing_is_swallowed<P, K>()
    ensures { OneFiringIsSwallowed P K }
{}

/// A walk along those that are waited for ends at the first that doesn't wait, or comes back.
pub fn chains_end<P, K>()
    ensures { ChainsEnd P K }
{}

/// Each pair and each hand-over is used once, and one at a time.
pub fn step_uses_one_item_at_most<P: Sides, K>()
    ensures { StepUsesOneItemAtMost P K P.passes_at }
{}
