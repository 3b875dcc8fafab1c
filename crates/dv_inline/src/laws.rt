//! Laws of inline bodies, each a function with an empty body whose clauses are the laws.

ghost use Rattle.dv_inline.specs.Laws.{BodiesBeginThere, MovesLeadOn, ResultsAreReached};
ghost use Rattle.dv_inline.specs.Laws.{RequestsStand, AnswersLeadOn};

/// A body that runs statement by statement results in what the recursion over its statements says,
/// and requests what it says.
#[tactic(auto, using(crate::proofs::LeadsLemmas::run_leads, crate::proofs::LeadsLemmas::run_ends, crate::proofs::LeadsLemmas::run_requests, crate::proofs::LeadsLemmas::answer_leads))]
pub fn bodies_follow_the_recursion()
    ensures begin { BodiesBeginThere }
    ensures moves { MovesLeadOn }
    ensures results { ResultsAreReached }
    ensures requests { RequestsStand }
    ensures answers { AnswersLeadOn }
{}
