//! The line of an entry in parts, which borrow from the entry.

ghost use Rattle.std.specs.Prelude.{◌≡◌, ◌+◌, ◌^◌, ◌-◌, min};
ghost use Rattle.dv_journal.specs.Borrowed.{part_in};
ghost use Rattle.dv_journal.specs.Parts.{size_shown};

use crate::deferred_id::DeferredId;
use crate::form::{LineForm, Naming, ObjectKind};
use crate::state::State;
use dv_value::expected::Expected;
use dv_value::failure::Failure;
use dv_value::text::Text;
use dv_value::value::Value;

/// A part of a line. A variant stands for a `PartKind` of the same name.
#[derive(Clone, Copy)]
pub enum Part<'e> {
    Deferred(DeferredId),
    Fired(DeferredId),
    NewName(&'e Option<Text>),
    Name(&'e Option<Text>),
    Object(ObjectKind, Naming, &'e Text),
    Job(u32),
    Number(u32),
    Bound(Option<u32>),
    Due(u64),
    Time(u64),
    Outcome(&'e Value),
    Value(&'e Value),
    Failure(&'e Failure),
    Text(&'e Text),
    State(&'e State),
    Expected(&'e Expected),
}

/// The parts of a line after its word, in their order.
#[derive(Clone, Copy)]
pub enum Parts<'e> {
    Nothing,
    One(Part<'e>),
    Two(Part<'e>, Part<'e>),
    Three(Part<'e>, Part<'e>, Part<'e>),
}

/// The form of a line, and its parts.
#[derive(Clone, Copy)]
pub struct Line<'e>(pub LineForm, pub Parts<'e>);

impl<'e> Part<'e> {
    /// So much, and the size of the value, the failure or the noted text that the part shows. It
    /// stops at `u64::MAX`.
    pub fn weight_with(&self, so_far: u64) -> u64
        ensures { result ≡ min (so_far + size_shown (part_in self.now)) (2 ^ 64 - 1) }
    {
        match self {
            Part::Deferred(_)
            | Part::Fired(_)
            | Part::NewName(_)
            | Part::Name(_)
            | Part::Object(_, _, _)
            | Part::Job(_)
            | Part::Number(_)
            | Part::Bound(_)
            | Part::Due(_)
            | Part::Time(_) => so_far,
            Part::Outcome(value) | Part::Value(value) => so_far.saturating_add(value.size()),
            Part::Failure(failure) => so_far.saturating_add(failure.size()),
            Part::Text(text) => so_far
                .saturating_add(text.as_str().len() as u64)
                .saturating_add(1),
            Part::State(state) => so_far.saturating_add(state.size()),
            Part::Expected(expected) => so_far.saturating_add(expected.size()),
        }
    }
}
