//! Laws of several runs, each a function with an empty body whose clauses are the law.

ghost use Rattle.dv_replay.specs.Laws.{AloneAllIsDecided, BatchesDecide, EveryRunIsListed};
ghost use Rattle.dv_replay.specs.Laws.{EveryRunIsSurveyed, OneOutcomeHoldsOfEveryRun};
ghost use Rattle.dv_replay.specs.Laws.{UnmetIsFoundExactly};

/// Any two runs of one input in the same batches print the same text, and both stop at the limit
/// of the journal or neither does. So do any two runs of a script in which nobody posts. No run
/// takes its posts in an order that isn't in the list of `dv_orders`.
pub fn batches_decide_a_run()
    ensures same { BatchesDecide }
    ensures alone { AloneAllIsDecided }
    ensures listed { EveryRunIsListed }
{}

/// No threads can bring an end that a survey of all orders has missed: each run prints what one of
/// the surveyed runs prints, and both stop at the limit of the journal or neither does.
pub fn every_run_is_surveyed()
    ensures { EveryRunIsSurveyed }
{}

/// Status 0 of a survey of all orders holds of every run of the script, whatever its threads do:
/// any two have the same lines NAME PLACE STATE, and neither ends at a Deferred that wasn't as the
/// script expects. Some run ends at one exactly if the status is 8.
pub fn one_outcome_holds_of_every_run()
    ensures same { OneOutcomeHoldsOfEveryRun }
    ensures unmet { UnmetIsFoundExactly }
{}
