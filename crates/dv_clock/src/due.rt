ghost use Rattle.std.specs.Prelude.{◌≡◌, IfOk};
ghost use Rattle.dv_clock.specs.Due.{scheduling, entry_when_due};

use dv_journal::deferred_id::DeferredId;
use dv_journal::entry::Entry;
use dv_value::text::Text;
use std::alloc::{AllocError, Global};

/// What waits for its time. The names, the job's number and the timer's Deferred are those that the
/// journal's lines show; the number that comes last in each of the others is the caller's own, by
/// which it knows what is due, since a name can be bound anew.
#[derive(Debug, Drop)]
pub enum Due {
    /// A delayed call of the script (Twisted: `callLater`).
    Call(Text, u32),
    /// The next turn of a loop (Twisted: `LoopingCall`).
    Turn(Text, u32),
    /// The next tick of the Cooperator that each script has.
    Tick,
    /// The next tick of a Cooperator that the script names.
    TickIn(Text, usize),
    /// The delivery of a job's result (Twisted: `deferToThread`).
    Delivery(u32, u32),
    /// The timeout of a Deferred (Twisted: `Deferred.addTimeout`).
    Timeout(DeferredId),
}

impl Due {
    /// What the journal logs when it is scheduled, due at that time.
    pub fn scheduling(&self, alloc: Global, time: u64) -> Result<Entry, AllocError>
        ensures { IfOk result (λ entry. entry ≡ scheduling self.now time) }
    {
        match self {
            Due::Call(name, _) => Ok(Entry::LaterCall(name.copy(alloc)?, time)),
            Due::Turn(name, _) => Ok(Entry::LaterLoop(name.copy(alloc)?, time)),
            Due::Tick => Ok(Entry::LaterTick(time)),
            Due::TickIn(name, _) => Ok(Entry::LaterTickIn(name.copy(alloc)?, time)),
            Due::Delivery(job, _) => Ok(Entry::LaterJob(*job, time)),
            Due::Timeout(id) => Ok(Entry::LaterTimeout(*id, time)),
        }
    }

    /// The entry that is logged when it is due.
    pub fn entry_when_due(&self, alloc: Global) -> Result<Entry, AllocError>
        ensures { IfOk result (λ entry. entry ≡ entry_when_due self.now) }
    {
        match self {
            Due::Call(name, _) => Ok(Entry::Call(name.copy(alloc)?)),
            Due::Turn(name, _) => Ok(Entry::Turn(name.copy(alloc)?)),
            Due::Tick => Ok(Entry::Tick),
            Due::TickIn(name, _) => Ok(Entry::TickIn(name.copy(alloc)?)),
            Due::Delivery(job, _) => Ok(Entry::Deliver(*job)),
            Due::Timeout(id) => Ok(Entry::Timeout(*id)),
        }
    }
}
