ghost use Rattle.std.specs.Fmt.{decimal};
ghost use Rattle.std.specs.Prelude.{◌≡◌, ◌++◌, OnOk, codes, string_bytes};
ghost use Rattle.dv_value.specs.ValueText.{outcome};
ghost use Rattle.dv_journal.specs.Borrowed.{part_in};
ghost use Rattle.dv_journal.specs.Line.{name_text, bound_text, part_text, words_of, line_of};
ghost use Rattle.dv_journal.specs.State.{hash, state_text, expected_text};

use crate::deferred_id::DeferredId;
use crate::entry::Entry;
use crate::part::{Line, Part, Parts};
use crate::state::State;
use dv_value::classes::Classes;
use dv_value::expected::Expected;
use dv_value::text::Text;
use dv_value::value::Value;
use dv_value::value_text::{write_failure, write_json, write_outcome, write_string};
use dv_value::writing::{write_space, write_text, write_u32, write_u64};
use std::alloc::{AllocError, Global};

/// What a line shows of a Deferred's name: a dash where it has none.
pub fn shown_name(name: &Option<Text>) -> &str
    ensures { result.now ≡ name_text name.now }
{
    match name {
        None => "-",
        Some(name) => name.as_str(),
    }
}

/// Adds a Deferred.
fn write_hash(out: &mut String, id: DeferredId) -> Result<(), AllocError>
    ensures { OnOk result (string_bytes out.new ≡ string_bytes out.old ++ hash id) }
{
    out.push('#')?;
    write_u32(out, id.number())
}

fn write_bound(out: &mut String, most: Option<u32>) -> Result<(), AllocError>
    ensures { OnOk result (string_bytes out.new ≡ string_bytes out.old ++ bound_text most) }
{
    match most {
        None => write_text(out, "none"),
        Some(most) => write_u32(out, most),
    }
}

fn write_waiting(out: &mut String, id: DeferredId) -> Result<(), AllocError>
    ensures { OnOk result
        (string_bytes out.new ≡ string_bytes out.old ++ (codes "waiting " ++ hash id)) }
{
    write_text(out, "waiting #")?;
    write_u32(out, id.number())
}

/// Adds what has become of a Deferred.
pub fn write_state(
    alloc: Global,
    classes: &Classes,
    out: &mut String,
    state: &State,
) -> Result<(), AllocError>
    ensures { OnOk result
        (string_bytes out.new ≡ string_bytes out.old ++ state_text classes.now state.now) }
{
    match state {
        State::Unfired => write_text(out, "unfired"),
        State::Waiting(id) => write_waiting(out, *id),
        State::Fired(value) => write_outcome(alloc, classes, out, value),
    }
}

/// Adds what a script expects of a Deferred.
fn write_expected(
    alloc: Global,
    classes: &Classes,
    out: &mut String,
    expected: &Expected,
) -> Result<(), AllocError>
    ensures { OnOk result
        (string_bytes out.new ≡ string_bytes out.old ++ expected_text classes.now expected.now) }
{
    write_text(out, "expected ")?;
    match expected {
        Expected::Unfired => write_text(out, "unfired"),
        Expected::Waiting => write_text(out, "waiting"),
        Expected::Fired(value) => write_outcome(alloc, classes, out, value),
    }
}

/// Adds a part after a space.
#[inline(always)]
fn write_part(
    alloc: Global,
    classes: &Classes,
    out: &mut String,
    part: &Part<'_>,
) -> Result<(), AllocError>
    ensures { OnOk result (string_bytes out.new
        ≡ string_bytes out.old ++ (codes " " ++ part_text classes.now (part_in part.now))) }
{
    write_space(out)?;
    match part {
        Part::Deferred(id) | Part::Fired(id) => write_hash(out, *id),
        Part::NewName(name) | Part::Name(name) => write_text(out, shown_name(name)),
        Part::Object(_, _, name) => write_text(out, name.as_str()),
        Part::Job(number) | Part::Number(number) => write_u32(out, *number),
        Part::Bound(most) => write_bound(out, *most),
        Part::Due(time) | Part::Time(time) => write_u64(out, *time),
        Part::Outcome(value) => write_outcome(alloc, classes, out, value),
        Part::Value(value) => write_json(alloc, classes, out, value),
        Part::Failure(failure) => write_failure(alloc, classes, out, failure),
        Part::Text(text) => write_string(alloc, out, text.as_str()),
        Part::State(state) => write_state(alloc, classes, out, state),
        Part::Expected(expected) => write_expected(alloc, classes, out, expected),
    }
}

/// Adds the words of the line of an entry, by its parts.
fn write_by_parts(
    alloc: Global,
    classes: &Classes,
    out: &mut String,
    entry: &Entry,
) -> Result<(), AllocError>
    ensures { OnOk result
        (string_bytes out.new ≡ string_bytes out.old ++ words_of classes.now entry.now) }
{
    let Line(form, _) = entry.line();
    write_text(out, form.word)?;
    let Line(_, parts) = entry.line();
    match parts {
        Parts::Nothing => Ok(()),
        Parts::One(part) => write_part(alloc, classes, out, &part),
        Parts::Two(part, other) => {
            write_part(alloc, classes, out, &part)?;
            write_part(alloc, classes, out, &other)
        }
        Parts::Three(part, other, last) => {
            write_part(alloc, classes, out, &part)?;
            write_part(alloc, classes, out, &other)?;
            write_part(alloc, classes, out, &last)
        }
    }
}

/// Adds a word, which ends in ` #`, and the number of a Deferred.
#[inline(always)]
fn write_id(out: &mut String, word: &str, id: DeferredId) -> Result<(), AllocError>
    ensures { OnOk result
        (string_bytes out.new ≡ string_bytes out.old ++ (word.now ++ decimal id)) }
{
    write_text(out, word)?;
    write_u32(out, id.number())
}

/// Adds a word, which ends in ` #`, the number of a Deferred, and its name.
#[inline(always)]
fn write_id_and_name(
    out: &mut String,
    word: &str,
    id: DeferredId,
    name: &Option<Text>,
) -> Result<(), AllocError>
    ensures { OnOk result (string_bytes out.new
        ≡ string_bytes out.old ++ (word.now ++ decimal id ++ codes " " ++ name_text name.now)) }
{
    write_id(out, word, id)?;
    write_space(out)?;
    write_text(out, shown_name(name))
}

/// Adds a word, which ends in ` #`, the number of a Deferred, and what it has.
#[inline(always)]
fn write_id_and_outcome(
    alloc: Global,
    classes: &Classes,
    out: &mut String,
    word: &str,
    id: DeferredId,
    value: &Value,
) -> Result<(), AllocError>
    ensures { OnOk result (string_bytes out.new ≡ string_bytes out.old
        ++ (word.now ++ decimal id ++ codes " " ++ outcome classes.now value.now)) }
{
    write_id(out, word, id)?;
    write_space(out)?;
    write_outcome(alloc, classes, out, value)
}

/// Adds a word, which ends in ` #`, and the numbers of two Deferreds.
#[inline(always)]
fn write_ids(
    out: &mut String,
    word: &str,
    id: DeferredId,
    other: DeferredId,
) -> Result<(), AllocError>
    ensures { OnOk result (string_bytes out.new
        ≡ string_bytes out.old ++ (word.now ++ decimal id ++ codes " #" ++ decimal other)) }
{
    write_id(out, word, id)?;
    write_id(out, " #", other)
}

/// Adds a word, which ends in a space, and the name of an object.
#[inline(always)]
fn write_object(out: &mut String, word: &str, name: &Text) -> Result<(), AllocError>
    ensures { OnOk result
        (string_bytes out.new ≡ string_bytes out.old ++ (word.now ++ name.now)) }
{
    write_text(out, word)?;
    write_text(out, name.as_str())
}

/// Adds a word, which ends in a space, the name of an object, and the number of a Deferred.
#[inline(always)]
fn write_object_and_id(
    out: &mut String,
    word: &str,
    name: &Text,
    id: DeferredId,
) -> Result<(), AllocError>
    ensures { OnOk result (string_bytes out.new
        ≡ string_bytes out.old ++ (word.now ++ name.now ++ codes " #" ++ decimal id)) }
{
    write_object(out, word, name)?;
    write_id(out, " #", id)
}

/// Adds the words of the line of an entry that begins with an object, or has no name and no
/// outcome.
#[inline(always)]
fn write_other_words(
    alloc: Global,
    classes: &Classes,
    out: &mut String,
    entry: &Entry,
) -> Result<(), AllocError>
    ensures { OnOk result
        (string_bytes out.new ≡ string_bytes out.old ++ words_of classes.now entry.now) }
{
    if let Entry::Swallow(id) = entry {
        return write_id(out, "swallow #", *id);
    }
    if let Entry::Wait(id, on) = entry {
        return write_ids(out, "wait #", *id, *on);
    }
    if let Entry::Note(text) = entry {
        write_text(out, "note ")?;
        return write_string(alloc, out, text.as_str());
    }
    if let Entry::Acquire(name, id) = entry {
        return write_object_and_id(out, "acquire ", name, *id);
    }
    if let Entry::Release(name) = entry {
        return write_object(out, "release ", name);
    }
    if let Entry::Get(name, id) = entry {
        return write_object_and_id(out, "get ", name, *id);
    }
    if let Entry::Call(name) = entry {
        return write_object(out, "call ", name);
    }
    if let Entry::Turn(name) = entry {
        return write_object(out, "turn ", name);
    }
    if let Entry::Step(name) = entry {
        return write_object(out, "step ", name);
    }
    write_by_parts(alloc, classes, out, entry)
}

/// Adds the words of the line of an entry. Those that most lines are of are written at once, which
/// takes fewer instructions.
fn write_words(
    alloc: Global,
    classes: &Classes,
    out: &mut String,
    entry: &Entry,
) -> Result<(), AllocError>
    ensures { OnOk result
        (string_bytes out.new ≡ string_bytes out.old ++ words_of classes.now entry.now) }
{
    if let Entry::New(id, name) = entry {
        return write_id_and_name(out, "new #", *id, name);
    }
    if let Entry::Add(id) = entry {
        return write_id(out, "add #", *id);
    }
    if let Entry::Run(id) = entry {
        return write_id(out, "run #", *id);
    }
    if let Entry::Cancel(id) = entry {
        return write_id(out, "cancel #", *id);
    }
    if let Entry::Fire(id, value) = entry {
        return write_id_and_outcome(alloc, classes, out, "fire #", *id, value);
    }
    if let Entry::Set(id, value) = entry {
        return write_id_and_outcome(alloc, classes, out, "set #", *id, value);
    }
    write_other_words(alloc, classes, out, entry)
}

/// Adds the line of an entry. After an error, `out` ends anyhow.
pub fn write_line(
    alloc: Global,
    classes: &Classes,
    out: &mut String,
    entry: &Entry,
) -> Result<(), AllocError>
    ensures { OnOk result
        (string_bytes out.new ≡ string_bytes out.old ++ line_of classes.now entry.now) }
{
    write_words(alloc, classes, out, entry)?;
    out.push('\n')
}
