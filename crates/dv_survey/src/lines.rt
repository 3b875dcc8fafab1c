//! The lines that a survey shows of a run.

ghost use Rattle.std.specs.Fmt.{decimal};
ghost use Rattle.std.specs.Prelude.{◌≡◌, ◌+◌, ◌++◌, None, OnOk, IfOk, codes, string_bytes};
ghost use Rattle.dv_journal.specs.Line.{name_text};
ghost use Rattle.dv_objects.specs.Names.{with_name};
ghost use Rattle.dv_survey.specs.Lines.{label, label_at, labels_of, line_of, lines_from, lines_of};
ghost use Rattle.dv_survey.specs.Lines.{end_text, head_json, label_json, rest_json, name_json};
ghost use Rattle.dv_survey.specs.Lines.{no_label, paused_json, sample_json, size_json, pauses_text};
ghost use Rattle.dv_survey.specs.Lines.{state_text, state_word, value_json, waits_json};
ghost use Rattle.dv_survey.specs.declared.format.Format.TheVariants as Format;
ghost use Rattle.dv_survey.specs.Met.{met_of};

use crate::format::Format;
use dv_journal::line::shown_name;
use dv_journal::state::State;
use dv_objects::names::Names;
use dv_store::outcome::Outcome;
use dv_value::classes::Classes;
use dv_value::items::Items;
use dv_value::text::Text;
use dv_value::value_text::{write_json, write_outcome, write_string};
use dv_value::writing::{write_space, write_text, write_u32, write_u64};
use std::alloc::{AllocError, Global};
use std::hash::RandomState;

/// A Deferred at the end of a run, as a survey shows it.
#[derive(Debug, Drop)]
pub struct Line {
    /// The name that it was made with, and its place among the Deferreds of that name, from 1.
    pub deferred: Text,
    /// The same, and what became of it: a line, or the last members of a JSON object.
    pub text: Text,
}

/// Returns a line for each Deferred of a run, in order of making. Names are hashed with these keys.
pub fn lines_of(
    alloc: Global,
    keys: RandomState,
    format: Format,
    classes: &Classes,
    outcomes: &[Outcome],
) -> Result<Items<Line>, AllocError>
    ensures { IfOk result (λ lines. lines ≡ lines_of format classes.now outcomes.now) }
{
    let labels = labels_of(alloc, keys, format, outcomes)?;
    lines_in(alloc, format, classes, labels.as_slice(), outcomes)
}

fn lines_in(
    alloc: Global,
    format: Format,
    classes: &Classes,
    labels: &[Text],
    outcomes: &[Outcome],
) -> Result<Items<Line>, AllocError>
    ensures { IfOk result
        (λ lines. lines ≡ lines_from format classes.now labels.now 0 outcomes.now) }
{
    let mut lines = Items::new(alloc);
    for (number, outcome) in outcomes.iter().enumerate() {
        lines.push(line_of(alloc, format, classes, labels, number, outcome)?)?;
    }
    Ok(lines)
}

/// Returns the names of Deferreds, each with its place. AllocError also where a place passes 2^64.
fn labels_of(
    alloc: Global,
    keys: RandomState,
    format: Format,
    outcomes: &[Outcome],
) -> Result<Items<Text>, AllocError>
    ensures { IfOk result (λ labels. labels ≡ labels_of format outcomes.now) }
{
    let mut met = Names::new(alloc, keys);
    let mut labels = Items::new(alloc);
    for outcome in outcomes {
        let name = shown_name(&outcome.name);
        let place = next_place(&mut met, name)?;
        labels.push(label(alloc, format, name, place)?)?;
    }
    Ok(labels)
}

/// Returns the place of a Deferred that was made next, and counts its name.
fn next_place<'o>(met: &mut Names<'o, u64>, name: &'o str) -> Result<u64, AllocError>
    ensures place { IfOk result (λ place. place ≡ met_of name.now met.old + 1) }
    ensures counted { OnOk result
        (met.new ≡ with_name name.now (met_of name.now met.old + 1) met.old) }
{
    let before = met.find(name).unwrap_or(0);
    let Some(place) = before.checked_add(1) else {
        return Err(AllocError);
    };
    met.bind(name, place)?;
    Ok(place)
}

fn label(alloc: Global, format: Format, name: &str, place: u64) -> Result<Text, AllocError>
    ensures { IfOk result (λ text. text ≡ label format name.now place) }
{
    let mut out = String::new(alloc);
    match format {
        Format::Lines(_) => write_label(&mut out, name, place)?,
        Format::Json(_) => write_label_json(alloc, &mut out, name, place)?,
    }
    Ok(Text::from_string(out))
}

fn write_label(out: &mut String, name: &str, place: u64) -> Result<(), AllocError>
    ensures { OnOk result
        (string_bytes out.new ≡ string_bytes out.old ++ label (Format.Lines None) name.now place) }
{
    write_text(out, name)?;
    write_space(out)?;
    write_u64(out, place)
}

fn write_label_json(
    alloc: Global,
    out: &mut String,
    name: &str,
    place: u64,
) -> Result<(), AllocError>
    ensures { OnOk result
        (string_bytes out.new ≡ string_bytes out.old ++ label (Format.Json None) name.now place) }
{
    write_text(out, "{\"name\":")?;
    write_name_json(alloc, out, name)?;
    write_text(out, ",\"place\":")?;
    write_u64(out, place)?;
    out.push('}')
}

fn write_name_json(alloc: Global, out: &mut String, name: &str) -> Result<(), AllocError>
    ensures { OnOk result (string_bytes out.new ≡ string_bytes out.old ++ name_json name.now) }
{
    if name == "-" {
        write_text(out, "null")
    } else {
        write_string(alloc, out, name)
    }
}

fn label_at(format: Format, labels: &[Text], number: usize) -> &str
    ensures { result.now ≡ label_at format labels.now number }
{
    match labels.get(number) {
        None => no_label(format),
        Some(label) => label.as_str(),
    }
}

fn no_label(format: Format) -> &'static str
    ensures { result.now ≡ no_label format }
{
    match format {
        Format::Lines(_) => "-",
        Format::Json(_) => "null",
    }
}

fn line_of(
    alloc: Global,
    format: Format,
    classes: &Classes,
    labels: &[Text],
    number: usize,
    outcome: &Outcome,
) -> Result<Line, AllocError>
    ensures { IfOk result
        (λ line. line ≡ line_of format classes.now labels.now number outcome.now) }
{
    let label = label_at(format, labels, number);
    let mut out = String::new(alloc);
    match format {
        Format::Lines(_) => write_end(alloc, classes, labels, &mut out, label, outcome)?,
        Format::Json(sample) => write_end_json(
            alloc, classes, labels, &mut out, sample, label, outcome,
        )?,
    }
    Ok(Line {
        deferred: Text::of(alloc, label)?,
        text: Text::from_string(out),
    })
}

fn write_end(
    alloc: Global,
    classes: &Classes,
    labels: &[Text],
    out: &mut String,
    label: &str,
    outcome: &Outcome,
) -> Result<(), AllocError>
    ensures { OnOk result (string_bytes out.new ≡ string_bytes out.old
        ++ end_text (Format.Lines None) classes.now labels.now label.now outcome.now) }
{
    write_text(out, label)?;
    write_space(out)?;
    write_text(out, pauses_text(outcome.pauses))?;
    write_state(alloc, classes, labels, out, &outcome.state)
}

fn write_end_json(
    alloc: Global,
    classes: &Classes,
    labels: &[Text],
    out: &mut String,
    sample: Option<u32>,
    label: &str,
    outcome: &Outcome,
) -> Result<(), AllocError>
    ensures { OnOk result (string_bytes out.new ≡ string_bytes out.old
        ++ end_text (Format.Json sample) classes.now labels.now label.now outcome.now) }
{
    write_head_json(out, sample, label, outcome)?;
    write_rest_json(alloc, classes, labels, out, &outcome.state)
}

fn write_head_json(
    out: &mut String,
    sample: Option<u32>,
    label: &str,
    outcome: &Outcome,
) -> Result<(), AllocError>
    ensures { OnOk result
        (string_bytes out.new ≡ string_bytes out.old ++ head_json sample label.now outcome.now) }
{
    write_label_and_pauses(out, label, outcome.pauses)?;
    write_sample_json(out, sample)?;
    write_text(out, ",\"state\":\"")?;
    write_text(out, state_word(&outcome.state))?;
    write_text(out, "\"")
}

fn write_label_and_pauses(out: &mut String, label: &str, pauses: u32) -> Result<(), AllocError>
    ensures { OnOk result
        (string_bytes out.new ≡ string_bytes out.old ++ label_json label.now pauses) }
{
    write_text(out, "\"deferred\":")?;
    write_text(out, label)?;
    write_paused_json(out, pauses)
}

fn write_paused_json(out: &mut String, pauses: u32) -> Result<(), AllocError>
    ensures { OnOk result (string_bytes out.new ≡ string_bytes out.old ++ paused_json pauses) }
{
    if pauses == 0 {
        write_text(out, ",\"paused\":false")
    } else {
        write_text(out, ",\"paused\":true")
    }
}

/// Adds the member with the size of a sample, after other members.
pub(crate) fn write_sample_json(out: &mut String, sample: Option<u32>) -> Result<(), AllocError>
    ensures { OnOk result (string_bytes out.new ≡ string_bytes out.old ++ sample_json sample) }
{
    write_text(out, ",\"sample\":")?;
    write_size_json(out, sample)
}

/// Adds the size of a sample, or null.
pub(crate) fn write_size_json(out: &mut String, sample: Option<u32>) -> Result<(), AllocError>
    ensures { OnOk result (string_bytes out.new ≡ string_bytes out.old ++ size_json sample) }
{
    match sample {
        None => write_text(out, "null"),
        Some(size) => write_u32(out, size),
    }
}

fn write_rest_json(
    alloc: Global,
    classes: &Classes,
    labels: &[Text],
    out: &mut String,
    state: &State,
) -> Result<(), AllocError>
    ensures { OnOk result (string_bytes out.new
        ≡ string_bytes out.old ++ rest_json classes.now labels.now state.now) }
{
    write_text(out, ",\"type\":\"deferred\",\"value\":")?;
    write_value(alloc, classes, out, state)?;
    write_text(out, ",\"waits_for\":")?;
    write_text(out, waits_for(labels, state))
}

fn state_word(state: &State) -> &'static str
    ensures { result.now ≡ state_word state.now }
{
    match state {
        State::Unfired => "unfired",
        State::Waiting(_) => "waiting",
        State::Fired(value) => if value.is_fault() { "fail" } else { "ok" },
    }
}

fn write_value(
    alloc: Global,
    classes: &Classes,
    out: &mut String,
    state: &State,
) -> Result<(), AllocError>
    ensures { OnOk result
        (string_bytes out.new ≡ string_bytes out.old ++ value_json classes.now state.now) }
{
    match state {
        State::Unfired | State::Waiting(_) => write_text(out, "null"),
        State::Fired(value) => write_json(alloc, classes, out, value),
    }
}

fn waits_for<'l>(labels: &'l [Text], state: &State) -> &'l str
    ensures { result.now ≡ waits_json labels.now state.now }
{
    match state {
        State::Unfired | State::Fired(_) => "null",
        State::Waiting(id) => label_at(Format::Json(None), labels, id.number() as usize),
    }
}

fn pauses_text(pauses: u32) -> &'static str
    ensures { result.now ≡ pauses_text pauses }
{
    if pauses == 0 { "" } else { "paused " }
}

fn write_state(
    alloc: Global,
    classes: &Classes,
    labels: &[Text],
    out: &mut String,
    state: &State,
) -> Result<(), AllocError>
    ensures { OnOk result (string_bytes out.new
        ≡ string_bytes out.old ++ state_text classes.now labels.now state.now) }
{
    match state {
        State::Unfired => write_text(out, "unfired"),
        State::Waiting(id) => {
            write_text(out, "waiting ")?;
            write_text(
                out,
                label_at(Format::Lines(None), labels, id.number() as usize),
            )
        }
        State::Fired(value) => write_outcome(alloc, classes, out, value),
    }
}
