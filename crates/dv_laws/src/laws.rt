//! Laws of whole runs, each a function with an empty body whose clauses are the laws.

ghost use Rattle.dv_laws.specs.Again.{OnlyTheNextFiringIsSwallowed};
ghost use Rattle.dv_laws.specs.Calls.{CallsRunInOrder, CallsRunOnceInTime};
ghost use Rattle.dv_laws.specs.Granted.{LocksServeInOrder, NobodyWaitsForAFreeToken};
ghost use Rattle.dv_laws.specs.HandOvers.{ValuesAreHandedOverInTurn};
ghost use Rattle.dv_laws.specs.Loops.{LoopsTurnAtIntervals};
ghost use Rattle.dv_laws.specs.OneAtATime.{EachPairIsUsedOnce, SidesRunOneAtATime};
ghost use Rattle.dv_laws.specs.Once.{EachDeferredIsFiredOnce};
ghost use Rattle.dv_laws.specs.ReadBack.{OutcomesAreToldByTheJournal};
ghost use Rattle.dv_laws.specs.Ready.{NothingRunsEarly};
ghost use Rattle.dv_laws.specs.Served.{QueuesServeInOrder};
ghost use Rattle.dv_laws.specs.Settled.{AllThatMayRunHasRun, EachSideEnds};
ghost use Rattle.dv_laws.specs.Settled.{NobodyIsLeftWaiting, WaitersHang};
ghost use Rattle.dv_laws.specs.Stored.{NothingIsStoredWhileAnyWaits, QueuesKeepTheirSize};
ghost use Rattle.dv_laws.specs.Swallowed.{OnlyACancelHasOneSwallowed};
ghost use Rattle.dv_laws.specs.Tasks.{TasksEndOnce};
ghost use Rattle.dv_laws.specs.Times.{TimeNeverFalls};
ghost use Rattle.dv_laws.specs.Tokens.{AllAreHeldBeforeAnyWaits, TokensAreAskedFor};
ghost use Rattle.dv_laws.specs.Waits.{WaitsEndByAHandOver};

/// The journal of a run logs what has become of each Deferred, that each was fired once at most,
/// and that a further firing of it was swallowed once at most, where it was fired with
/// CancelledError and an empty message, as a cancel does.
pub fn journals_tell()
    ensures outcomes { OutcomesAreToldByTheJournal }
    ensures once { EachDeferredIsFiredOnce }
{}

/// In a run a firing that is swallowed is the next one after the Deferred was fired; each later one
/// is refused. One is swallowed only if the Deferred was fired directly after a cancel of it, or of
/// one that waits for it.
pub fn firings_are_refused()
    ensures swallowed { OnlyTheNextFiringIsSwallowed }
    ensures cancelled { OnlyACancelHasOneSwallowed }
{}

/// In a run each pair of a Deferred is used once at most, and its sides run one at a time: none is
/// run while another of the same Deferred hasn't ended, and each `set`, `take` or `wait` ends one
/// that was run. None is run before the Deferred is fired, while it is paused, or while it waits
/// for another.
pub fn callbacks_run_in_turn()
    ensures once { EachPairIsUsedOnce }
    ensures alone { SidesRunOneAtATime }
    ensures ready { NothingRunsEarly }
{}

/// In a run a Deferred that waits for another is left alone until that hands its value over to it:
/// none of its sides is run before, and its value stays. It is handed a value no more often than it
/// waited. Those that wait for one Deferred are handed its value in the order in which they began
/// to wait.
pub fn waits_end()
    ensures handed { WaitsEndByAHandOver }
    ensures turns { ValuesAreHandedOverInTurn }
{}

/// In a run the times of `advance` never fall, and nothing is scheduled for a time before the last
/// of them. Each call that is scheduled is run once at most, not after it was cancelled and not
/// before its time; of two that are scheduled once each the one that is due earlier is run first,
/// and of those that are due at one time the one that was scheduled first. So it is with the
/// ticks of Cooperators, deliveries and timers.
pub fn time_goes_on()
    ensures falls { TimeNeverFalls }
    ensures calls { CallsRunOnceInTime }
    ensures order { CallsRunInOrder }
{}

/// At the end of a run that hasn't stopped no side of a Deferred is being run: each that was run
/// has ended. A Deferred that is fired, isn't paused, and waits for no other has used all its
/// pairs, and none waits for it. A Deferred that waits hangs at the end of its chain at one that is
/// unfired or paused, or the chain is a circle.
pub fn all_that_may_run_has_run()
    ensures ended { EachSideEnds }
    ensures used { AllThatMayRunHasRun }
    ensures waiters { NobodyIsLeftWaiting }
    ensures hanging { WaitersHang }
{}

/// In a run each task of a Cooperator ends once at most, and takes no step after it has ended.
pub fn tasks_end()
    ensures once { TasksEndOnce }
{}

/// In a run no more tokens of a lock or a semaphore are released than were asked for. At its end,
/// also where its journal is full, no more tokens are held than there are, and a Deferred waits for
/// one only if all are held.
pub fn tokens_are_held()
    ensures asked { TokensAreAskedFor }
    ensures held { AllAreHeldBeforeAnyWaits }
{}

/// In a run a lock or a semaphore whose name is given once grants its tokens to those that ask in
/// the order in which they ask. Each is granted one at once if one is free, and else waits, last. A
/// token is released only if one is held; it goes to the first that waits, or is free. Who is
/// granted one is fired with the name of the lock, unless other code has fired it. One that waits
/// leaves exactly if a cancel fires it. By what was logged, a Deferred waits only if no token is
/// free.
pub fn locks_serve_in_order()
    ensures order { LocksServeInOrder }
    ensures full { NobodyWaitsForAFreeToken }
{}

/// In a run a queue stores no more values than it may. At its end, also where its journal is full,
/// a queue stores none while a Deferred waits for one.
pub fn queues_keep_their_size()
    ensures size { QueuesKeepTheirSize }
    ensures waiters { NothingIsStoredWhileAnyWaits }
{}

/// In a run a queue whose name is given once serves those that ask in the order in which they ask,
/// with the values in the order in which they were put, each once. A value is lost only if other
/// code has fired the Deferred that it is given to. One that waits leaves exactly if a cancel fires
/// it.
pub fn queues_serve_in_order()
    ensures order { QueuesServeInOrder }
{}

/// In a run the turns of a loop whose name is given once are at whole intervals after its start:
/// each that is scheduled is due at the first such time after now.
pub fn loops_turn()
    ensures turns { LoopsTurnAtIntervals }
{}
