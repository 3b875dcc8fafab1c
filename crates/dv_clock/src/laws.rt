//! Laws of the definitions, each a function with an empty body whose clauses are the laws.

ghost use Rattle.dv_clock.specs.Laws.{TheFirstRunsNext, WhatIsDueRuns, TimeNeverGoesBack};
ghost use Rattle.dv_clock.specs.Laws.{EndedCallsNeverRun, CallsRunOnceAtMost};
ghost use Rattle.dv_clock.specs.Laws.{TheNextTurnIsTheFirstLater, SkipsNobody, NobodyOvertakes};
ghost use Rattle.dv_script.specs.declared.turn_rule.TurnRule.TheVariants.{Earlier, Fair};

/// What runs next is due, and of all that wait it is due first, and of those that are due with it,
/// it was scheduled first.
pub fn the_first_runs_next()
    ensures { TheFirstRunsNext }
{}

/// Where nothing runs next, nothing that waits is due.
#[tactic(auto, using(crate::proofs::ClockLemmas::due_runs))]
pub fn what_is_due_runs()
    ensures { WhatIsDueRuns }
{}

/// Time never goes back, whatever is done with a clock.
pub fn time_never_goes_back()
    ensures { TimeNeverGoesBack }
{}

/// A call that was called, cancelled or dropped never runs again, whatever is done with its clock.
pub fn ended_calls_never_run()
    ensures { EndedCallsNeverRun }
{}

/// A call that runs never runs again, whatever is done with its clock.
pub fn calls_run_once_at_most()
    ensures { CallsRunOnceAtMost }
{}

/// A loop's next turn is at the first time after now that is a whole number of intervals after its
/// start.
pub fn the_next_turn_is_the_first_later()
    ensures { TheNextTurnIsTheFirstLater }
{}

/// When a task leaves, nobody else's turn is skipped, except by Twisted's rule; by the rule that is
/// fair, nobody is before it who joins after that either.
pub fn nobody_is_skipped()
    ensures earlier { SkipsNobody Earlier }
    ensures fair { SkipsNobody Fair }
    ensures overtakes { NobodyOvertakes Fair }
{}
