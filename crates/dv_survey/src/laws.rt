//! Laws of surveys, each a function with an empty body whose clause is the law.

ghost use Rattle.dv_survey.specs.Laws.{OneOutcomeIsOneSetOfLines, UnmetIsCounted};

/// Any two runs of a survey with one outcome at most have the same lines: NAME PLACE STATE of each
/// Deferred, or what the JSON has of it.
pub fn one_outcome_is_one_set_of_lines()
    ensures { OneOutcomeIsOneSetOfLines }
{}

/// A survey counts exactly the runs that ended since a Deferred wasn't as the script expects.
pub fn unmet_is_counted()
    ensures { UnmetIsCounted }
{}
