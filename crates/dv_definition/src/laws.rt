//! Laws of the page, each a function with an empty body whose clauses are the law.

ghost use Rattle.dv_definition.specs.Cases.{BodiesGoOn, BodiesWaitForTokens, CancelsReachChildren};
ghost use Rattle.dv_definition.specs.Cases.{EndedTasksStay, ErrbacksAreForFailures};
ghost use Rattle.dv_definition.specs.Cases.{FailuresAreKept, FailuresOfCallsAreTold};
ghost use Rattle.dv_definition.specs.Cases.{FiredListsStay, FiringsEndTimers, FullQueuesRefuse};
ghost use Rattle.dv_definition.specs.Cases.{ManyJobsAreRefused, NameErrorsAreThrown, PairsAreUsed};
ghost use Rattle.dv_definition.specs.Cases.{ReceiversComeFirst, TokensAreWaitedFor, TurnsFollow};
ghost use Rattle.dv_definition.specs.Cases.{TurnsTakeBodies};
ghost use Rattle.dv_definition.specs.Cases.{FairTurnsGoRound, JoinersWantTicks, TwistedSkips};
ghost use Rattle.dv_definition.specs.Cases.{StoppedOnesTakeNone, UnmetRunsEnd};
ghost use Rattle.dv_definition.specs.Conditions.{CallsComeInTurn, CancelsReach};
ghost use Rattle.dv_definition.specs.Conditions.{DeferredsWaitWhenTheyHaveTo, EndsLeave};
ghost use Rattle.dv_definition.specs.Conditions.{FailingEndsThrow, FailuresAreThrown};
ghost use Rattle.dv_definition.specs.Conditions.{ItemsAreUsedWhenTheyMay, ListsFire};
ghost use Rattle.dv_definition.specs.Conditions.{TasksLeave, TasksTakeTurns, TurnsAreDue};
ghost use Rattle.dv_definition.specs.Law.{FramesSayTheRule, FramesSayWhatHappens};

/// The steps of the world go by the conditions that stand on the page: when an item is used, when a
/// Deferred is waited for, what a cancel reaches, when a list is fired and with what, which call
/// runs next, when a loop's turn is due, whose turn it is among tasks, also once one has left, and
/// how an inline body goes on where a failure is thrown, where it is left, and after an end.
pub fn steps_go_by_the_page()
    ensures used { ItemsAreUsedWhenTheyMay }
    ensures waited { DeferredsWaitWhenTheyHaveTo }
    ensures cancelled { CancelsReach }
    ensures fired { ListsFire }
    ensures called { CallsComeInTurn }
    ensures turned { TurnsAreDue }
    ensures stepped { TasksTakeTurns }
    ensures tasks { TasksLeave }
    ensures thrown { FailuresAreThrown }
    ensures left { EndsLeave }
    ensures ended { FailingEndsThrow }
{}

/// The frames that a rule leaves lead where the rule says, whatever frames mean; and so do those
/// that an event or a post leaves.
#[tactic(auto, using(crate::proofs::Sayings::rules_say, crate::proofs::Sayings::occurrences_say))]
pub fn frames_say_the_rule()
    ensures frames { FramesSayTheRule }
    ensures happens { FramesSayWhatHappens }
{}

/// A rule leaves what was worked out by hand in the telling case of its section of the page. A change
/// that shows in that case is refused here. Each section has one or more; resets, units and bodies by
/// name have none.
pub fn rules_decide_their_cases()
    ensures deferreds { PairsAreUsed }
    ensures cancelling { CancelsReachChildren }
    ensures locks { TokensAreWaitedFor }
    ensures queues { FullQueuesRefuse }
    ensures results { FailuresAreKept }
    ensures bodies { BodiesWaitForTokens }
    ensures lists { FiredListsStay }
    ensures timeouts { FiringsEndTimers }
    ensures loops { TurnsFollow }
    ensures turns { TurnsTakeBodies }
    ensures tasks { EndedTasksStay }
    ensures cooperators { StoppedOnesTakeNone }
    ensures joining { JoinersWantTicks }
    ensures fair { FairTurnsGoRound }
    ensures twisted { TwistedSkips }
    ensures inline { NameErrorsAreThrown }
    ensures jobs { ManyJobsAreRefused }
    ensures settling { ReceiversComeFirst }
    ensures actions { ErrbacksAreForFailures }
    ensures rest { BodiesGoOn }
    ensures calls { FailuresOfCallsAreTold }
    ensures expecting { UnmetRunsEnd }
{}
