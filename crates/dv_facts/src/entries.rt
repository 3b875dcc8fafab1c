//! The entries of a journal, each with its place.

ghost use Rattle.std.specs.Prelude.{◌≡◌, ◌≤◌, ◌++◌, OnOk, codes, length, string_bytes};
ghost use Rattle.dv_facts.specs.Events.{event_at, last_passed, passed_at};
ghost use Rattle.dv_facts.specs.Lines.{AddsEntry, entry_members};
ghost use Rattle.dv_facts.specs.Parts.{Adds};
ghost use Rattle.dv_journal.specs.Line.{words_of};
ghost use Rattle.json.specs.Print.{quoted};

use crate::facts::{Facts, News, Shown, facts_of};
use crate::members::{
    take_newline, write_index_or_null, write_number, write_number_or_null, write_quoted,
};
use crate::names::{Object, Objects};
use crate::places::{Place, Places};
use crate::values::{Deferreds, write_object};
use dv_journal::deferred_id::DeferredId;
use dv_journal::entry::Entry;
use dv_journal::line::write_line;
use dv_value::classes::Classes;
use dv_value::value_text::{write_failure_json, write_json};
use dv_value::writing::write_text;
use std::alloc::{AllocError, Global};

/// What is known of a journal after so many of its entries.
#[derive(Drop)]
pub struct Story<'e> {
    pub deferreds: Deferreds<'e>,
    /// The entry by which each Deferred was fired.
    pub fired_by: Vec<Option<usize>>,
    pub objects: Objects<'e>,
    pub time: u64,
    places: Places,
    /// How many entries there were before each event, and before the last batch.
    marks: &'e [usize],
    /// How many of these are passed.
    passed: usize,
}

/// Where an entry stands in its run.
#[derive(Clone, Copy)]
struct Standing {
    number: usize,
    event: Option<usize>,
    place: Place,
}

/// How many marks are passed at the entry of a number, where so many were before it.
#[tactic(auto, using(crate::proofs::Marks::marks))]
fn passed_at(marks: &[usize], passed: usize, number: usize) -> usize
    requires { passed ≤ passed_at marks.now number }
    ensures { result ≡ passed_at marks.now number }
{
    for place in passed..marks.len() {
        if number < marks[place] {
            return place;
        }
    }
    marks.len()
}

/// The place of the last mark that is passed; None before the first event, and where all are
/// passed.
fn last_passed(passed: usize, most: usize) -> Option<usize>
    ensures { result ≡ last_passed passed most }
{
    if passed == 0 || passed == most {
        None
    } else {
        Some(passed - 1)
    }
}

impl<'e> Story<'e> {
    /// The beginning of a journal with so many entries before each event.
    pub fn new(alloc: Global, marks: &'e [usize]) -> Story<'e>
        ensures marks { result.marks.now ≡ marks.now }
        ensures passed { result.passed ≡ 0 }
    {
        Story {
            deferreds: Deferreds {
                names: Vec::new(alloc),
            },
            fired_by: Vec::new(alloc),
            objects: Objects::new(alloc),
            time: 0,
            places: Places::new(alloc),
            marks,
            passed: 0,
        }
    }

    /// Adds the line of the entry of a number, without its end. The entries come in their order.
    pub fn write_next(
        &mut self,
        alloc: Global,
        classes: &Classes,
        out: &mut String,
        number: usize,
        entry: &'e Entry,
    ) -> Result<(), AllocError>
        requires { self.old.passed ≤ passed_at self.old.marks.now number }
        ensures line { OnOk result (AddsEntry classes.now (event_at self.old.marks.now number)
            number entry.now (string_bytes out.old) (string_bytes out.new)) }
        ensures marks { self.new.marks ≡ self.old.marks }
        ensures passed { self.new.passed ≡ passed_at self.old.marks.now number }
    {
        let event = self.event(number);
        let facts = facts_of(entry);
        self.learn(number, &facts.news)?;
        let place = self.places.next(number, facts.nesting)?;
        let object = self.objects.take(&facts.named)?;
        let standing = Standing {
            number,
            event,
            place,
        };
        self.write(alloc, classes, out, entry, &facts, object, &standing)
    }

    /// What the entry of a number says of Deferreds and of time.
    fn learn(&mut self, number: usize, news: &News<'e>) -> Result<(), AllocError>
        ensures marks { self.new.marks ≡ self.old.marks }
        ensures passed { self.new.passed ≡ self.old.passed }
    {
        match news {
            News::Nothing => Ok(()),
            News::New(name) => {
                self.deferreds.names.push(*name)?;
                self.fired_by.push(None)?;
                Ok(())
            }
            News::Fired(id) => {
                if let Some(fired_by) = self.fired_by.get_mut(id.number() as usize) {
                    *fired_by = Some(number);
                }
                Ok(())
            }
            News::Time(time) => {
                self.time = *time;
                Ok(())
            }
        }
    }

    /// The event of the entry of a number; None after the last.
    fn event(&mut self, number: usize) -> Option<usize>
        requires { self.old.passed ≤ passed_at self.old.marks.now number }
        ensures event { result ≡ event_at self.old.marks.now number }
        ensures marks { self.new.marks ≡ self.old.marks }
        ensures passed { self.new.passed ≡ passed_at self.old.marks.now number }
    {
        let passed = passed_at(self.marks, self.passed, number);
        if self.passed < passed {
            self.places.begin_event();
        }
        self.passed = passed;
        last_passed(passed, self.marks.len())
    }

    #[tactic(auto, using(crate::proofs::EntryAdded::entry_added))]
    fn write(
        &self,
        alloc: Global,
        classes: &Classes,
        out: &mut String,
        entry: &Entry,
        facts: &Facts<'e>,
        object: Option<Object<'e>>,
        standing: &Standing,
    ) -> Result<(), AllocError>
        ensures { OnOk result (AddsEntry classes.now standing.now.event standing.now.number
            entry.now (string_bytes out.old) (string_bytes out.new)) }
    {
        self.write_before(alloc, out, facts, &standing.place)?;
        write_members(alloc, classes, out, facts.word, entry, standing)?;
        self.write_after(
            alloc,
            classes,
            out,
            entry,
            facts.shown,
            object,
            &standing.place,
        )
    }

    /// Adds the members that stand before the event.
    fn write_before(
        &self,
        alloc: Global,
        out: &mut String,
        facts: &Facts<'e>,
        place: &Place,
    ) -> Result<(), AllocError>
        ensures { OnOk result (Adds (string_bytes out.old) (string_bytes out.new)) }
    {
        self.write_deferreds(alloc, out, facts)?;
        write_number(out, r#","depth":"#, place.depth as u64)?;
        write_number_or_null(out, r#","due":"#, facts.due)?;
        write_index_or_null(out, r#","ends":"#, place.ends)
    }

    /// Adds the Deferreds that an entry names.
    fn write_deferreds(
        &self,
        alloc: Global,
        out: &mut String,
        facts: &Facts<'e>,
    ) -> Result<(), AllocError>
        ensures { OnOk result (Adds (string_bytes out.old) (string_bytes out.new)) }
    {
        write_text(out, r#"{"deferreds":["#)?;
        self.write_first(alloc, out, facts.first)?;
        self.write_further(alloc, out, facts.second)?;
        self.write_further(alloc, out, facts.third)?;
        write_text(out, "]")
    }

    /// Adds a Deferred, where there is one.
    #[tactic(auto, using(crate::proofs::Added::parts))]
    fn write_first(
        &self,
        alloc: Global,
        out: &mut String,
        id: Option<DeferredId>,
    ) -> Result<(), AllocError>
        ensures { OnOk result (Adds (string_bytes out.old) (string_bytes out.new)) }
    {
        match id {
            None => Ok(()),
            Some(id) => self.deferreds.write(alloc, out, id),
        }
    }

    /// Adds a Deferred after a comma, where there is one.
    #[tactic(auto, using(crate::proofs::Added::parts))]
    fn write_further(
        &self,
        alloc: Global,
        out: &mut String,
        id: Option<DeferredId>,
    ) -> Result<(), AllocError>
        ensures { OnOk result (Adds (string_bytes out.old) (string_bytes out.new)) }
    {
        match id {
            None => Ok(()),
            Some(id) => {
                write_text(out, ",")?;
                self.deferreds.write(alloc, out, id)
            }
        }
    }

    /// Adds the members that stand after the number of the entry.
    fn write_after(
        &self,
        alloc: Global,
        classes: &Classes,
        out: &mut String,
        entry: &Entry,
        shown: Shown<'_>,
        object: Option<Object<'e>>,
        place: &Place,
    ) -> Result<(), AllocError>
        ensures { OnOk result (Adds (string_bytes out.old) (string_bytes out.new)) }
    {
        write_objects(alloc, out, object)?;
        write_index_or_null(out, r#","section":"#, place.section)?;
        write_number(out, r#","time":"#, self.time)?;
        write_index_or_null(out, r#","type":"entry","under":"#, place.under)?;
        write_shown(alloc, classes, out, shown)?;
        write_number(out, r#","weight":"#, entry.weight())?;
        write_text(out, "}")
    }
}

/// Adds the event of an entry, its kind, its line and its number.
fn write_members(
    alloc: Global,
    classes: &Classes,
    out: &mut String,
    kind: &str,
    entry: &Entry,
    standing: &Standing,
) -> Result<(), AllocError>
    ensures { OnOk result (string_bytes out.new ≡ string_bytes out.old
        ++ entry_members classes.now standing.now.event kind.now standing.now.number entry.now) }
{
    write_index_or_null(out, r#","event":"#, standing.event)?;
    write_quoted(alloc, out, r#","kind":"#, kind)?;
    write_journal_line(alloc, classes, out, entry)?;
    write_number(out, r#","number":"#, standing.number as u64)
}

/// Adds the line of an entry in the journal.
fn write_journal_line(
    alloc: Global,
    classes: &Classes,
    out: &mut String,
    entry: &Entry,
) -> Result<(), AllocError>
    ensures { OnOk result (string_bytes out.new
        ≡ string_bytes out.old ++ (codes ",\"line\":" ++ quoted (words_of classes.now entry.now))) }
{
    let mut line = String::new(alloc);
    write_line(alloc, classes, &mut line, entry)?;
    take_newline(&mut line);
    write_quoted(alloc, out, r#","line":"#, line.as_str())
}

/// Adds the object that an entry names, where it names one.
#[tactic(auto, using(crate::proofs::Added::parts))]
fn write_objects(
    alloc: Global,
    out: &mut String,
    object: Option<Object<'_>>,
) -> Result<(), AllocError>
    ensures { OnOk result (Adds (string_bytes out.old) (string_bytes out.new)) }
{
    match object {
        None => write_text(out, r#","objects":[]"#),
        Some(object) => {
            write_text(out, r#","objects":["#)?;
            write_object(alloc, out, object)?;
            write_text(out, "]")
        }
    }
}

/// Adds what the line of an entry shows.
#[tactic(auto, using(crate::proofs::Added::parts))]
fn write_shown(
    alloc: Global,
    classes: &Classes,
    out: &mut String,
    shown: Shown<'_>,
) -> Result<(), AllocError>
    ensures { OnOk result (Adds (string_bytes out.old) (string_bytes out.new)) }
{
    match shown {
        Shown::Nothing => write_text(out, r#","value":null"#),
        Shown::Value(value) => {
            write_text(out, r#","value":"#)?;
            write_json(alloc, classes, out, value)
        }
        Shown::Text(text) => write_quoted(alloc, out, r#","value":"#, text.as_str()),
        Shown::Failure(failure) => {
            write_text(out, r#","value":"#)?;
            write_failure_json(alloc, classes, out, failure)
        }
    }
}
