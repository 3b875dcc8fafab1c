//! Laws of the definitions, each a function with an empty body whose clauses are the laws.

ghost use Rattle.dv_prims.specs.Laws.{ListsFireOnceAtMost};

/// A DeferredList fires once at most by itself, and never after it was fired.
#[tactic(auto, using(crate::proofs::GatherLemmas::lists_fire_once))]
pub fn lists_fire_once_at_most()
    ensures { ListsFireOnceAtMost }
{}
