//! What became of each Deferred.

ghost use Rattle.std.specs.Prelude.{OnOk, string_bytes};
ghost use Rattle.dv_facts.specs.Parts.{Adds};
ghost use Rattle.dv_json.specs.Gathered.{AddsOutcome, AddsShown};

use dv_facts::entries::Story;
use dv_facts::facts::text_of;
use dv_facts::leaving::write_value;
use dv_facts::members::{
    take_newline, write_index_or_null, write_number, write_quoted, write_quoted_or_null,
};
use dv_journal::state::State;
use dv_run::output::write_line;
use dv_store::outcome::Outcome;
use dv_value::classes::Classes;
use dv_value::writing::write_text;
use std::alloc::{AllocError, Global};

fn state_word(state: &State) -> &'static str {
    match state {
        State::Unfired => "unfired",
        State::Waiting(_) => "waiting",
        State::Fired(value) => if value.is_fault() { "fail" } else { "ok" },
    }
}

/// Adds the line of the Deferred of a number, without its end.
pub fn write_outcome(
    alloc: Global,
    classes: &Classes,
    story: &Story<'_>,
    out: &mut String,
    number: usize,
    outcome: &Outcome,
) -> Result<(), AllocError>
    ensures { OnOk result (AddsOutcome classes.now number outcome.now (string_bytes out.old)
        (string_bytes out.new)) }
{
    write_index_or_null(out, r#"{"fired_by":"#, fired_by(story, number))?;
    write_outcome_line(alloc, classes, out, number, outcome)?;
    write_quoted_or_null(alloc, out, r#","name":"#, text_of(&outcome.name))?;
    write_number(out, r#","number":"#, number as u64)?;
    write_state(alloc, classes, story, out, outcome)
}

/// The entry by which the Deferred of a number was fired.
fn fired_by(story: &Story<'_>, number: usize) -> Option<usize> {
    *story.fired_by.get(number)?
}

/// Adds the line that is printed after the journal.
fn write_outcome_line(
    alloc: Global,
    classes: &Classes,
    out: &mut String,
    number: usize,
    outcome: &Outcome,
) -> Result<(), AllocError>
    ensures { OnOk result (AddsShown classes.now number outcome.now (string_bytes out.old)
        (string_bytes out.new)) }
{
    let mut line = String::new(alloc);
    write_line(alloc, classes, &mut line, number, outcome)?;
    take_newline(&mut line);
    write_quoted(alloc, out, r#","line":"#, line.as_str())
}

/// Adds the members that stand after the number.
fn write_state(
    alloc: Global,
    classes: &Classes,
    story: &Story<'_>,
    out: &mut String,
    outcome: &Outcome,
) -> Result<(), AllocError>
    ensures { OnOk result (Adds (string_bytes out.old) (string_bytes out.new)) }
{
    write_number(out, r#","pauses":"#, u64::from(outcome.pauses))?;
    write_quoted(alloc, out, r#","state":"#, state_word(&outcome.state))?;
    write_text(out, r#","type":"deferred","value":"#)?;
    write_value(alloc, classes, out, &outcome.state)?;
    write_text(out, r#","waits_for":"#)?;
    write_waits_for(alloc, story, out, &outcome.state)?;
    write_text(out, "}")
}

/// Adds the Deferred that one of this state waits for, or null.
#[tactic(auto, using(dv_facts::proofs::Added::parts))]
fn write_waits_for(
    alloc: Global,
    story: &Story<'_>,
    out: &mut String,
    state: &State,
) -> Result<(), AllocError>
    ensures { OnOk result (Adds (string_bytes out.old) (string_bytes out.new)) }
{
    match state {
        State::Unfired | State::Fired(_) => write_text(out, "null"),
        State::Waiting(id) => story.deferreds.write(alloc, out, *id),
    }
}
