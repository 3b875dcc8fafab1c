//! What is reported about an entry, but for its place: it is read off the parts of its line.

use dv_journal::deferred_id::DeferredId;
use dv_journal::entry::Entry;
use dv_journal::form::{LineForm, Naming, Nesting, ObjectKind};
use dv_journal::part::{Line, Part, Parts};
use dv_journal::state::State;
use dv_value::failure::Failure;
use dv_value::text::Text;
use dv_value::value::Value;

/// What an entry says of an object.
#[derive(Clone, Copy)]
pub enum Named<'e> {
    /// It names none.
    Nothing,
    /// It is the one of this kind that this name stands for.
    Object(ObjectKind, Naming, &'e str),
    /// It is the job of this number.
    Job(u32),
}

/// What the line of an entry shows.
#[derive(Clone, Copy)]
pub enum Shown<'e> {
    Nothing,
    Value(&'e Value),
    Text(&'e Text),
    Failure(&'e Failure),
}

/// What an entry says that is kept for the lines that follow.
#[derive(Clone, Copy)]
pub enum News<'e> {
    Nothing,
    /// A Deferred is made, of this name.
    New(Option<&'e str>),
    /// This Deferred is fired.
    Fired(DeferredId),
    /// It is this time.
    Time(u64),
}

/// What is reported about an entry, but for its place.
#[derive(Clone, Copy)]
pub struct Facts<'e> {
    /// The first word of its line, or the first two.
    pub word: &'e str,
    /// The Deferreds that it names, in the order of its line. Without a first there is no second,
    /// and without a second no third.
    pub first: Option<DeferredId>,
    pub second: Option<DeferredId>,
    pub third: Option<DeferredId>,
    pub named: Named<'e>,
    pub shown: Shown<'e>,
    /// The time that something is due at, where it is scheduled.
    pub due: Option<u64>,
    pub news: News<'e>,
    pub nesting: Nesting,
}

impl<'e> Facts<'e> {
    /// Returns what the form of a line says.
    fn new(form: LineForm) -> Facts<'e> {
        Facts {
            word: form.word,
            first: None,
            second: None,
            third: None,
            named: Named::Nothing,
            shown: Shown::Nothing,
            due: None,
            news: News::Nothing,
            nesting: form.nesting,
        }
    }

    /// A further Deferred is named, of three at most.
    fn add_deferred(&mut self, id: DeferredId) {
        if self.first.is_none() {
            self.first = Some(id);
        } else if self.second.is_none() {
            self.second = Some(id);
        } else {
            self.third = Some(id);
        }
    }

    /// Adds what a part of the line says.
    fn add(&mut self, part: &Part<'e>) {
        match part {
            Part::Deferred(id) => self.add_deferred(*id),
            Part::Fired(id) => {
                self.add_deferred(*id);
                self.news = News::Fired(*id);
            }
            Part::NewName(name) => self.news = News::New(text_of(name)),
            Part::Object(kind, naming, name) => self.add_object(*kind, *naming, name.as_str()),
            Part::Job(number) => self.named = Named::Job(*number),
            Part::Name(_) | Part::Number(_) | Part::Bound(_) | Part::Expected(_) => {}
            Part::Due(time) => self.due = Some(*time),
            Part::Time(time) => self.news = News::Time(*time),
            Part::Outcome(value) | Part::Value(value) => self.shown = Shown::Value(value),
            Part::Failure(failure) => self.shown = Shown::Failure(failure),
            Part::Text(text) => self.shown = Shown::Text(text),
            Part::State(state) => self.add_state(state),
        }
    }

    /// An object is named: that of the line, unless it has one already.
    fn add_object(&mut self, kind: ObjectKind, naming: Naming, name: &'e str) {
        match self.named {
            Named::Nothing => self.named = Named::Object(kind, naming, name),
            Named::Object(_, _, _) | Named::Job(_) => {}
        }
    }

    /// Adds what has become of a Deferred.
    fn add_state(&mut self, state: &'e State) {
        match state {
            State::Unfired => {}
            State::Waiting(id) => self.add_deferred(*id),
            State::Fired(value) => self.shown = Shown::Value(value),
        }
    }
}

/// The text of a name, where there is one.
pub fn text_of(name: &Option<Text>) -> Option<&str> {
    match name {
        None => None,
        Some(name) => Some(name.as_str()),
    }
}

/// What is reported about an entry.
pub fn facts_of(entry: &Entry) -> Facts<'_> {
    let Line(form, parts) = entry.line();
    let mut facts = Facts::new(form);
    match parts {
        Parts::Nothing => {}
        Parts::One(part) => facts.add(&part),
        Parts::Two(part, other) => {
            facts.add(&part);
            facts.add(&other);
        }
        Parts::Three(part, other, last) => {
            facts.add(&part);
            facts.add(&other);
            facts.add(&last);
        }
    }
    facts
}
