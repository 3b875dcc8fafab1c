ghost use Rattle.std.specs.Prelude.{◌≡◌, ◌≤◌, false, length, Some, IfSome};
ghost use Rattle.std.specs.Option.{option_map, option_copied};

use crate::call::{Call, CallState};
use crate::call_id::CallId;
use crate::delay_from::DelayFrom;
use crate::due::Due;
use crate::error::{CancelFault, Over};
use crate::interval::Interval;
use crate::limits::{MOST_DELAY, MOST_TICKS};
use crate::looping_call::loop_next;
use dv_journal::entry::Entry;
use dv_journal::error::{Fault, Stop};
use dv_journal::journal::Journal;
use std::alloc::{AllocError, Global};
use std::collections::BTreeSet;
use std::marker::Model;
use std::mem;

/// A clock that is moved by hand, with what waits for its time (Twisted: `Clock`). Times are in
/// ticks.
///
/// A number that isn't of this clock means nothing to it: `cancel` answers Ok and `drop_call`
/// answers that it didn't wait.
#[derive(Drop)]
pub struct Clock {
    alloc: Global,
    time: u64,
    calls: Vec<Call>,
    waiting: BTreeSet<(u64, usize)>,
}

impl Model for Clock {
    ghost use Rattle.std.specs.Prelude.{◌≤◌};
    ghost use Rattle.std.specs.Coded.{codes};
    ghost use Rattle.dv_clock.specs.Clock.{Clock as Seen, IsIndexOf};
    ghost use Rattle.dv_clock.specs.declared.limits.TheConstants.{MOST_TICKS};

    ghost Value = { Seen };

    ghost coded = { Prim.hlevel codes };

    ghost view = { λ c. record { time = c.time; calls = c.calls.items } };

    ghost invariant = { λ c. (c.time ≤ MOST_TICKS) × IsIndexOf c.waiting c.calls.items };
}

impl Clock {
    ghost use Rattle.dv_clock.specs.Clock.{new_clock, later, next_turn, scheduled_at, advance_to};
    ghost use Rattle.dv_clock.specs.Clock.{due, cancel, reset, CancelsUnlessMemory, ended, due_of};
    ghost use Rattle.dv_clock.specs.Clock.{moved};
    ghost use Rattle.dv_journal.specs.Journal.{fits, with_entry};
    ghost use Rattle.dv_clock.specs.Clock.{what_of, waits, has_run, is_waiting, next_call};
    ghost use Rattle.dv_clock.specs.Clock.{numbered, with_number};
    ghost use Rattle.dv_journal.specs.Telling.{UnlessMemory};

    /// Time begins at 0, and nothing is scheduled.
    pub fn new(alloc: Global) -> Clock
        ensures { result ≡ new_clock }
    {
        Clock {
            alloc,
            time: 0,
            calls: Vec::new(alloc),
            waiting: BTreeSet::new(alloc),
        }
    }

    /// The time, in ticks (Twisted: `Clock.seconds`).
    pub fn now(&self) -> u64
        ensures time { result ≡ self.now.time }
        ensures early { result ≤ MOST_TICKS }
    {
        self.time
    }

    /// Schedules what is due so many ticks from now, and answers its number (Twisted:
    /// `Clock.callLater`).
    pub fn later(&mut self, journal: &mut Journal, what: Due, delay: u64) -> Result<CallId, Stop>
        requires short { delay ≤ MOST_DELAY }
        ensures { UnlessMemory result (self.old, journal.old) (self.new, journal.new)
            (later what delay (self.old, journal.old)) }
    {
        let due = self.time + delay;
        self.at(journal, what, due)
    }

    /// Schedules what is the next turn of a loop that was started at `start`, and answers its
    /// number: it is due at the first time later than now that is a whole number of intervals after
    /// the start (Twisted: `LoopingCall`). A start that isn't past yet counts as now.
    pub fn next_turn(
        &mut self,
        journal: &mut Journal,
        what: Due,
        start: u64,
        interval: Interval,
    ) -> Result<CallId, Stop>
        ensures { UnlessMemory result (self.old, journal.old) (self.new, journal.new)
            (next_turn what start interval (self.old, journal.old)) }
    {
        let due = loop_next(start.min(self.time), interval.ticks(), self.time);
        self.at(journal, what, due)
    }

    /// Schedules what is due at this time.
    fn at(&mut self, journal: &mut Journal, what: Due, due: u64) -> Result<CallId, Stop>
        ensures { UnlessMemory result (self.old, journal.old) (self.new, journal.new)
            (scheduled_at what due (self.old, journal.old)) }
    {
        if !journal.fits_plain() {
            return Err(Stop::Limit);
        }
        let number = self.calls.len();
        make_room(&mut self.calls)?;
        schedule(self.alloc, journal, &what, &mut self.waiting, (due, number))?;
        add(&mut self.calls, due, what);
        Ok(CallId::new(number))
    }

    /// The number of the call that is scheduled next.
    pub fn next_id(&self) -> CallId
        ensures { result ≡ length self.now.calls }
    {
        CallId::new(self.calls.len())
    }

    /// Whether a call has run: one that was cancelled or dropped hasn't.
    pub fn has_run(&self, id: CallId) -> bool
        ensures { result ≡ has_run id self.now.calls }
    {
        match self.calls.get(id.number()) {
            None => false,
            Some(call) => match &call.state {
                CallState::Called => true,
                CallState::Waiting(_) | CallState::Cancelled | CallState::Dropped => false,
            },
        }
    }

    /// Whether a call still waits.
    pub fn waits(&self, id: CallId) -> bool
        ensures { result ≡ waits id self.now.calls }
    {
        self.due_time(id.number()).is_some()
    }

    /// Cancels a call of the script (Twisted: `DelayedCall.cancel`). What else waits, as a loop's
    /// turn, is left alone.
    pub fn cancel(&mut self, journal: &mut Journal, id: CallId) -> Result<(), CancelFault>
        ensures { CancelsUnlessMemory result (self.old, journal.old) (self.new, journal.new)
            (cancel id (self.old, journal.old)) }
    {
        let Some(call) = self.calls.get(id.number()) else {
            return Ok(());
        };
        let name = match &call.state {
            CallState::Waiting(Due::Call(name, _)) => name,
            CallState::Waiting(
                Due::Turn(_, _)
                | Due::Tick
                | Due::TickIn(_, _)
                | Due::Delivery(_, _)
                | Due::Timeout(_),
            ) => return Ok(()),
            CallState::Called => return Err(Fault::Refused(Over::Called)),
            CallState::Cancelled | CallState::Dropped => return Err(Fault::Refused(
                Over::Cancelled,
            )),
        };
        if !journal.fits_plain() {
            return Err(Fault::Limit);
        }
        let shown = name.copy(self.alloc)?;
        journal.write(Entry::Uncall(shown))?;
        let _ = self.end(id.number(), CallState::Cancelled);
        Ok(())
    }

    /// Gives a call of the script that waits a delay anew, in ticks, from now or from when it was
    /// due (Twisted: `DelayedCall.reset`, `DelayedCall.delay`). It keeps its number, so of what is
    /// due at one time it still runs in the order of scheduling. What else waits, as a loop's turn,
    /// is left alone.
    pub fn reset(
        &mut self,
        journal: &mut Journal,
        id: CallId,
        from: DelayFrom,
        delay: u64,
    ) -> Result<(), CancelFault>
        requires short { delay ≤ MOST_DELAY }
        ensures { CancelsUnlessMemory result (self.old, journal.old) (self.new, journal.new)
            (reset id from delay (self.old, journal.old)) }
    {
        let Some(call) = self.calls.get(id.number()) else {
            return Ok(());
        };
        let name = match &call.state {
            CallState::Waiting(Due::Call(name, _)) => name,
            CallState::Waiting(
                Due::Turn(_, _)
                | Due::Tick
                | Due::TickIn(_, _)
                | Due::Delivery(_, _)
                | Due::Timeout(_),
            ) => return Ok(()),
            CallState::Called => return Err(Fault::Refused(Over::Called)),
            CallState::Cancelled | CallState::Dropped => return Err(Fault::Refused(
                Over::Cancelled,
            )),
        };
        if !journal.fits_plain() {
            return Err(Fault::Limit);
        }
        let due = from.new_due(delay, call.due, self.time);
        let entry = Entry::Reset(name.copy(self.alloc)?, due);
        self.move_call(journal, entry, id.number(), due)?;
        Ok(())
    }

    /// Drops a call, so that it never runs, and answers whether it still waited. That isn't logged.
    pub fn drop_call(&mut self, id: CallId) -> bool
        ensures waited { result ≡ waits id self.old.calls }
        ensures rest { self.new ≡ ended id CallState.Dropped self.old }
    {
        self.end(id.number(), CallState::Dropped).is_some()
    }

    /// Advances time to `time`, in ticks from the beginning. `due` then returns what is due by
    /// then, one after the other (Twisted: `Clock.advance`).
    pub fn advance_to(&mut self, journal: &mut Journal, time: u64) -> Result<(), Stop>
        requires onward { self.old.time ≤ time }
        requires early { time ≤ MOST_TICKS }
        ensures { UnlessMemory result (self.old, journal.old) (self.new, journal.new)
            (advance_to time (self.old, journal.old)) }
    {
        journal.write(Entry::Advance(time))?;
        self.time = time;
        Ok(())
    }

    /// Takes what is to run next, of what is due by now: what is due first, and of what is due at
    /// one time what was scheduled first. None where nothing is due, which isn't logged.
    pub fn due(&mut self, journal: &mut Journal) -> Result<Option<Due>, Stop>
        ensures { UnlessMemory result (self.old, journal.old) (self.new, journal.new)
            (due (self.old, journal.old)) }
    {
        let Some((number, what)) = self.next() else {
            return Ok(None);
        };
        if !journal.fits_plain() {
            return Err(Stop::Limit);
        }
        let entry = what.entry_when_due(self.alloc)?;
        journal.write(entry)?;
        Ok(self.end(number, CallState::Called))
    }

    /// A call that waits is due at this time, and that is logged. On allocation failure it isn't.
    fn move_call(
        &mut self,
        journal: &mut Journal,
        entry: Entry,
        number: usize,
        due: u64,
    ) -> Result<(), AllocError>
        requires room { fits journal.old entry ≡ true }
        ensures moved { OnOk result (self.new ≡ moved number due self.old) }
        ensures written { OnOk result (journal.new ≡ with_entry journal.old entry) }
        ensures kept { OnErr result (self.new ≡ self.old) }
        ensures err { OnErr result (journal.new ≡ journal.old) }
    {
        match self.due_time(number) {
            None => tell(journal, entry),
            Some(before) => if before == due {
                tell(journal, entry)
            } else {
                join(journal, entry, &mut self.waiting, (due, number))?;
                self.waiting.remove(&(before, number));
                self.calls[number].due = due;
                Ok(())
            },
        }
    }

    /// Drops it, and returns all calls that were scheduled, in order of number.
    pub fn into_calls(self) -> Vec<Call>
        ensures { result.items ≡ self.calls }
    {
        self.calls
    }

    /// The number of what is to run next, and what it is, where something is due.
    fn next(&self) -> Option<(usize, &Due)>
        ensures next { option_map (λ found. with_number found.0 found.1.now) result
            ≡ option_map numbered (next_call self.now) }
        ensures waits { IfSome result (λ found. what_of found.0 self.now.calls ≡ Some found.1.now) }
    {
        let number = self.next_number()?;
        let what = self.what(number)?;
        Some((number, what))
    }

    /// The number of what is to run next, where something is due.
    fn next_number(&self) -> Option<usize>
        ensures { result ≡ option_map (λ call. call.number) (next_call self.now) }
    {
        match self.waiting.first() {
            None => None,
            Some((due, number)) => {
                if self.time < *due {
                    None
                } else {
                    Some(*number)
                }
            }
        }
    }

    /// A call waits no longer. Returns what it is; None if it didn't wait.
    fn end(&mut self, number: usize, state: CallState) -> Option<Due>
        requires over { is_waiting state ≡ false }
        ensures what { result ≡ what_of number self.old.calls }
        ensures rest { self.new ≡ ended number state self.old }
    {
        let due = self.due_time(number)?;
        self.waiting.remove(&(due, number));
        take_what(&mut self.calls[number], state)
    }

    /// The time that a call is due at, where it waits.
    fn due_time(&self, number: usize) -> Option<u64>
        ensures { result ≡ due_of number self.now.calls }
    {
        match self.calls.get(number) {
            None => None,
            Some(call) => match &call.state {
                CallState::Waiting(_) => Some(call.due),
                CallState::Called | CallState::Cancelled | CallState::Dropped => None,
            },
        }
    }

    /// What a call is, where it waits.
    fn what(&self, number: usize) -> Option<&Due>
        ensures { option_copied result ≡ what_of number self.now.calls }
    {
        match self.calls.get(number) {
            None => None,
            Some(call) => match &call.state {
                CallState::Waiting(what) => Some(what),
                CallState::Called | CallState::Cancelled | CallState::Dropped => None,
            },
        }
    }
}

ghost use Rattle.dv_clock.specs.Clock.{what_in};

/// The state of a call is replaced. Returns what it is, if it waited.
fn take_what(call: &mut Call, state: CallState) -> Option<Due>
    ensures what { result ≡ what_in call.old.state }
    ensures rest { call.new ≡ record call.old { state = state } }
{
    match mem::replace(&mut call.state, state) {
        CallState::Waiting(what) => Some(what),
        CallState::Called | CallState::Cancelled | CallState::Dropped => None,
    }
}

ghost use Rattle.std.specs.Prelude.{true, OnOk, OnErr, ◌+◌, [], ◌∷◌, ◌++◌, vec_len, vec_capacity};
ghost use Rattle.dv_clock.specs.Due.{scheduling};
ghost use Rattle.std.specs.BTreeSet.{contains};
ghost use Rattle.dv_clock.specs.Clock.{by_due, Joins, Keeps};
ghost use Rattle.dv_journal.specs.Journal.{fits, with_entry};

/// Makes room for a call.
fn make_room(calls: &mut Vec<Call>) -> Result<(), AllocError>
    ensures room { OnOk result (vec_len calls.new + 1 ≤ vec_capacity calls.new) }
    ensures kept { calls.new.items ≡ calls.old.items }
    ensures len { vec_len calls.new ≡ vec_len calls.old }
{
    calls.try_reserve(1)
}

/// A call is added, which waits.
fn add(calls: &mut Vec<Call>, due: u64, what: Due)
    requires { vec_len calls.old + 1 ≤ vec_capacity calls.old }
    ensures { calls.new.items
        ≡ calls.old.items ++ (record { due = due; state = CallState.Waiting what }) ∷ [] }
{
    let state = CallState::Waiting(what);
    calls.push(Call { due, state }).unwrap();
}

/// The place of what is scheduled joins the index, and that is logged. On allocation failure, it
/// doesn't.
fn schedule(
    alloc: Global,
    journal: &mut Journal,
    what: &Due,
    waiting: &mut BTreeSet<(u64, usize)>,
    place: (u64, usize),
) -> Result<(), AllocError>
    requires room { fits journal.old (scheduling what.now place.0) ≡ true }
    requires new { contains by_due waiting.old place ≡ false }
    ensures joined { OnOk result (Joins waiting.old waiting.new place) }
    ensures written { OnOk result
        (journal.new ≡ with_entry journal.old (scheduling what.now place.0)) }
    ensures kept { OnErr result (Keeps waiting.old waiting.new) }
    ensures err { OnErr result (journal.new ≡ journal.old) }
{
    let entry = what.scheduling(alloc, place.0)?;
    join(journal, entry, waiting, place)
}

/// Logs what fits. On allocation failure it isn't logged.
fn tell(journal: &mut Journal, entry: Entry) -> Result<(), AllocError>
    requires room { fits journal.old entry ≡ true }
    ensures written { OnOk result (journal.new ≡ with_entry journal.old entry) }
    ensures err { OnErr result (journal.new ≡ journal.old) }
{
    match journal.write(entry) {
        Ok(()) => Ok(()),
        Err(Stop::Limit) => unreachable!(),
        Err(Stop::OutOfMemory) => Err(AllocError),
    }
}

/// A place joins the index, and that is logged. On allocation failure, it doesn't.
fn join(
    journal: &mut Journal,
    entry: Entry,
    waiting: &mut BTreeSet<(u64, usize)>,
    place: (u64, usize),
) -> Result<(), AllocError>
    requires room { fits journal.old entry ≡ true }
    requires new { contains by_due waiting.old place ≡ false }
    ensures joined { OnOk result (Joins waiting.old waiting.new place) }
    ensures written { OnOk result (journal.new ≡ with_entry journal.old entry) }
    ensures kept { OnErr result (Keeps waiting.old waiting.new) }
    ensures err { OnErr result (journal.new ≡ journal.old) }
{
    let Ok(_) = waiting.insert(place) else {
        entry.discard();
        return Err(AllocError);
    };
    match tell(journal, entry) {
        Ok(()) => Ok(()),
        Err(AllocError) => {
            waiting.remove(&place);
            Err(AllocError)
        }
    }
}
