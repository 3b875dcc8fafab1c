ghost use Rattle.std.specs.Prelude.{◌≡◌, IfOk, map};
ghost use Rattle.dv_store.specs.Outcome.{state_of, outcome_of};

use crate::record::Record;
use dv_journal::deferred_id::DeferredId;
use dv_journal::state::State;
use dv_value::items::Items;
use dv_value::text::Text;
use dv_value::value::Value;
use std::alloc::{AllocError, Global};

/// A Deferred at the end of a run.
#[derive(Debug, Drop)]
pub struct Outcome {
    /// Its name at its making, where it has one.
    pub name: Option<Text>,
    /// How often it was paused and not unpaused since.
    pub pauses: u32,
    /// Whether it was fired, and with what it ended.
    pub state: State,
}

impl Outcome {
    /// What has become of a Deferred; its name and its value are moved.
    pub fn of<P: Drop, K: Drop>(deferred: Record<P, K>) -> Outcome
        ensures { result ≡ outcome_of deferred }
    {
        let Record {
            name,
            fired,
            value,
            items: _,
            pauses,
            waits_for,
            running: _,
            swallows: _,
            canceller: _,
        } = deferred;
        Outcome {
            name,
            pauses,
            state: state_of(fired, waits_for, value),
        }
    }
}

/// How many of its places a list may leave unused, besides one in thirty-two.
const SPARE: usize = 64;

/// What has become of all Deferreds, in order of making. It frees their room as it goes, so that a
/// run takes little more at its end than it had. AllocError on allocation failure.
pub fn outcomes_of<P: Drop, K: Drop>(
    alloc: Global,
    records: Vec<Record<P, K>>,
) -> Result<Items<Outcome>, AllocError>
    ensures { IfOk result (λ outcomes. outcomes ≡ map outcome_of records.items) }
{
    let mut left = records;
    let mut outcomes = Items::with_capacity(alloc, left.len())?;
    left.reverse();
    while let Some(record) = left.pop() {
        outcomes.push(Outcome::of(record))?;
        give_room_back(&mut left);
    }
    Ok(outcomes)
}

/// Frees room that a list doesn't use, where that is much of it. Where it can't be freed, it stays.
fn give_room_back<T>(items: &mut Vec<T>)
    ensures { items.new.items ≡ items.old.items }
{
    let room = items.capacity();
    if room - items.len() > room / 32 + SPARE {
        items.shrink_to_fit();
    }
}

/// Unfired, or waiting for another, or fired with a value.
fn state_of(fired: bool, waits_for: Option<DeferredId>, value: Value) -> State
    ensures { result ≡ state_of fired waits_for value }
{
    if !fired {
        return State::Unfired;
    }
    match waits_for {
        Some(id) => State::Waiting(id),
        None => State::Fired(value),
    }
}
