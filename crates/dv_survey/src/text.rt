//! Writes a survey as text. Where memory is refused, it is left open what `out` holds.

ghost use Rattle.std.specs.Prelude.{◌≡◌, ◌+◌, ◌^◌, ◌<◌, ◌++◌, [], None, codes, OnOk, slice_get};
ghost use Rattle.std.specs.Prelude.{string_bytes, unwrap_or};
ghost use Rattle.dv_survey.specs.Text.{batch_text, batches_text, counted, posted_text};
ghost use Rattle.dv_survey.specs.Text.{deferred_text, deferreds_text, is_of, line_text, tally_head};
ghost use Rattle.dv_survey.specs.Text.{tally_tail, tally_text, text_at};
ghost use Rattle.dv_survey.specs.Text.{end_json, noun, number_text, orders_json, outcome_name};
ghost use Rattle.dv_survey.specs.Text.{outcomes_json, outcomes_text, sample_text};
ghost use Rattle.dv_survey.specs.Text.{stop_name, stops_text, sums_text, survey_text};
ghost use Rattle.dv_survey.specs.Text.{unmet_name, unmet_text};
ghost use Rattle.dv_survey.specs.declared.format.Format.TheVariants as Format;

use crate::format::Format;
use crate::lines::{write_sample_json, write_size_json};
use crate::survey::Survey;
use crate::tallies::{Tally, count_of};
use crate::texts::Texts;
use dv_posts::posted::Posted;
use dv_value::items::Items;
use dv_value::writing::{write_space, write_text, write_u32, write_u64};
use std::alloc::AllocError;

/// Adds what became of each Deferred, a line for each of its states, a line for each outcome, one
/// for the orders that stopped at the limit of the journal, if any did, and one for those in which
/// a Deferred wasn't as the script expects: in how many orders that came, and the batches of the
/// first. Then come how many orders ran, and how many different
/// outcomes there are.
pub fn write_survey(out: &mut String, survey: &Survey, orders: u64) -> Result<(), AllocError>
    ensures { OnOk result
        (string_bytes out.new ≡ string_bytes out.old ++ survey_text survey.now orders) }
{
    write_deferreds(out, survey)?;
    write_outcomes(out, survey)?;
    write_stops(out, survey)?;
    write_unmet(out, survey)?;
    write_sums(
        out,
        survey.format,
        count_of(survey.stops.as_slice()),
        survey.unmet(),
        orders,
        survey.outcomes_len() as u64,
    )
}

/// Adds the line with the number of orders, which comes before all others.
pub fn write_number(out: &mut String, format: Format, orders: u64) -> Result<(), AllocError>
    ensures { OnOk result
        (string_bytes out.new ≡ string_bytes out.old ++ number_text format orders) }
{
    match format {
        Format::Lines(sample) => {
            write_counted(out, orders, "order")?;
            write_sample(out, sample)?;
            write_text(out, "\n")
        }
        Format::Json(sample) => {
            write_orders_json(out, orders)?;
            write_sample_json(out, sample)?;
            write_text(out, ",\"type\":\"orders\"}\n")
        }
    }
}

fn write_sample(out: &mut String, sample: Option<u32>) -> Result<(), AllocError>
    ensures { OnOk result (string_bytes out.new ≡ string_bytes out.old ++ sample_text sample) }
{
    match sample {
        None => Ok(()),
        Some(size) => {
            write_text(out, ", a sample of ")?;
            write_u32(out, size)
        }
    }
}

fn write_orders_json(out: &mut String, orders: u64) -> Result<(), AllocError>
    ensures { OnOk result (string_bytes out.new ≡ string_bytes out.old ++ orders_json orders) }
{
    write_text(out, "{\"orders\":")?;
    write_u64(out, orders)
}

fn write_deferreds(out: &mut String, survey: &Survey) -> Result<(), AllocError>
    ensures { OnOk result
        (string_bytes out.new ≡ string_bytes out.old ++ deferreds_text survey.now) }
{
    for deferred in 0..survey.deferreds.len() {
        write_deferred(out, survey, deferred)?;
    }
    Ok(())
}

fn write_deferred(out: &mut String, survey: &Survey, deferred: usize) -> Result<(), AllocError>
    ensures { OnOk result
        (string_bytes out.new ≡ string_bytes out.old ++ deferred_text survey.now deferred) }
{
    for place in 0..survey.owners.as_slice().len() {
        write_line(out, survey, deferred, place)?;
    }
    Ok(())
}

/// Adds the line of a place, where it is one of this Deferred.
fn write_line(
    out: &mut String,
    survey: &Survey,
    deferred: usize,
    place: usize,
) -> Result<(), AllocError>
    ensures { OnOk result
        (string_bytes out.new ≡ string_bytes out.old ++ line_text survey.now deferred place) }
{
    if is_of(deferred, survey.owners.as_slice(), place) {
        write_at(
            out,
            survey.format,
            survey.tallies.as_slice(),
            place,
            line_at(&survey.lines, place),
        )
    } else {
        Ok(())
    }
}

/// Whether the line of a place is one of this Deferred.
fn is_of(deferred: usize, owners: &[usize], place: usize) -> bool
    ensures { result ≡ is_of deferred (slice_get owners.now place) }
{
    match owners.get(place) {
        None => false,
        Some(owner) => deferred == *owner,
    }
}

fn line_at(lines: &Texts, place: usize) -> &str
    ensures { result.now ≡ unwrap_or (slice_get lines.now place) [] }
{
    match lines.at(place) {
        None => "",
        Some(line) => line,
    }
}

/// Adds a line of what is counted at this place, where there is a tally.
fn write_at(
    out: &mut String,
    format: Format,
    tallies: &[Tally],
    place: usize,
    what: &str,
) -> Result<(), AllocError>
    ensures { OnOk result
        (string_bytes out.new ≡ string_bytes out.old ++ text_at format tallies.now place what.now) }
{
    match tallies.get(place) {
        None => Ok(()),
        Some(tally) => write_tally(out, format, tally, what),
    }
}

fn write_tally(
    out: &mut String,
    format: Format,
    tally: &Tally,
    what: &str,
) -> Result<(), AllocError>
    ensures { OnOk result
        (string_bytes out.new ≡ string_bytes out.old ++ tally_text format tally.now what.now) }
{
    write_head(out, format, tally)?;
    write_text(out, what)?;
    write_tail(out, format, tally)
}

fn write_head(out: &mut String, format: Format, tally: &Tally) -> Result<(), AllocError>
    ensures { OnOk result
        (string_bytes out.new ≡ string_bytes out.old ++ tally_head format tally.now) }
{
    match format {
        Format::Lines(_) => Ok(()),
        Format::Json(_) => write_members(out, tally),
    }
}

fn write_members(out: &mut String, tally: &Tally) -> Result<(), AllocError>
    ensures { OnOk result
        (string_bytes out.new ≡ string_bytes out.old ++ tally_head (Format.Json None) tally.now) }
{
    write_text(out, "{\"batches\":")?;
    write_batches(out, tally.first.as_slice())?;
    write_text(out, ",\"count\":")?;
    write_u64(out, tally.count)?;
    write_text(out, ",")
}

fn write_tail(out: &mut String, format: Format, tally: &Tally) -> Result<(), AllocError>
    ensures { OnOk result
        (string_bytes out.new ≡ string_bytes out.old ++ tally_tail format tally.now) }
{
    match format {
        Format::Lines(sample) => write_count(out, sample, tally),
        Format::Json(_) => write_text(out, "}\n"),
    }
}

fn write_count(out: &mut String, sample: Option<u32>, tally: &Tally) -> Result<(), AllocError>
    ensures { OnOk result (string_bytes out.new
        ≡ string_bytes out.old ++ tally_tail (Format.Lines sample) tally.now) }
{
    write_text(out, " in ")?;
    write_counted(out, tally.count, noun(sample))?;
    write_text(out, ", first ")?;
    write_batches(out, tally.first.as_slice())?;
    write_text(out, "\n")
}

fn noun(sample: Option<u32>) -> &'static str
    ensures { result.now ≡ noun sample }
{
    match sample {
        None => "order",
        Some(_) => "sampled order",
    }
}

fn write_outcomes(out: &mut String, survey: &Survey) -> Result<(), AllocError>
    ensures { OnOk result
        (string_bytes out.new ≡ string_bytes out.old ++ outcomes_text survey.now) }
{
    for place in 0..survey.ends.as_slice().len() {
        write_outcome(out, survey.format, survey.ends.as_slice(), place)?;
    }
    Ok(())
}

fn write_outcome(
    out: &mut String,
    format: Format,
    ends: &[Tally],
    place: usize,
) -> Result<(), AllocError>
    requires { place + 1 < 2 ^ 64 }
    ensures { OnOk result (string_bytes out.new
        ≡ string_bytes out.old ++ text_at format ends.now place (outcome_name format place)) }
{
    match ends.get(place) {
        None => Ok(()),
        Some(tally) => write_outcome_tally(out, format, place, tally),
    }
}

fn write_outcome_tally(
    out: &mut String,
    format: Format,
    place: usize,
    tally: &Tally,
) -> Result<(), AllocError>
    requires { place + 1 < 2 ^ 64 }
    ensures { OnOk result (string_bytes out.new
        ≡ string_bytes out.old ++ tally_text format tally.now (outcome_name format place)) }
{
    write_head(out, format, tally)?;
    write_outcome_name(out, format, place)?;
    write_tail(out, format, tally)
}

fn write_outcome_name(out: &mut String, format: Format, place: usize) -> Result<(), AllocError>
    requires { place + 1 < 2 ^ 64 }
    ensures { OnOk result
        (string_bytes out.new ≡ string_bytes out.old ++ outcome_name format place) }
{
    match format {
        Format::Lines(_) => {
            write_text(out, "outcome ")?;
            write_u64(out, place as u64 + 1)
        }
        Format::Json(sample) => {
            write_text(out, "\"outcome\":")?;
            write_u64(out, place as u64 + 1)?;
            write_sample_json(out, sample)?;
            write_text(out, ",\"type\":\"outcome\"")
        }
    }
}

fn write_stops(out: &mut String, survey: &Survey) -> Result<(), AllocError>
    ensures { OnOk result (string_bytes out.new ≡ string_bytes out.old ++ stops_text survey.now) }
{
    match survey.stops.as_slice().first() {
        None => Ok(()),
        Some(tally) => write_stop_tally(out, survey.format, tally),
    }
}

fn write_stop_tally(out: &mut String, format: Format, tally: &Tally) -> Result<(), AllocError>
    ensures { OnOk result (string_bytes out.new
        ≡ string_bytes out.old ++ tally_text format tally.now (stop_name format)) }
{
    write_head(out, format, tally)?;
    write_stop_name(out, format)?;
    write_tail(out, format, tally)
}

fn write_stop_name(out: &mut String, format: Format) -> Result<(), AllocError>
    ensures { OnOk result (string_bytes out.new ≡ string_bytes out.old ++ stop_name format) }
{
    match format {
        Format::Lines(_) => write_text(out, "stopped at the limit of the journal"),
        Format::Json(sample) => {
            write_text(out, "\"sample\":")?;
            write_size_json(out, sample)?;
            write_text(out, ",\"type\":\"stopped\"")
        }
    }
}

fn write_unmet(out: &mut String, survey: &Survey) -> Result<(), AllocError>
    ensures { OnOk result (string_bytes out.new ≡ string_bytes out.old ++ unmet_text survey.now) }
{
    match survey.unmet.as_slice().first() {
        None => Ok(()),
        Some(tally) => write_unmet_tally(out, survey.format, tally),
    }
}

fn write_unmet_tally(out: &mut String, format: Format, tally: &Tally) -> Result<(), AllocError>
    ensures { OnOk result (string_bytes out.new
        ≡ string_bytes out.old ++ tally_text format tally.now (unmet_name format)) }
{
    write_head(out, format, tally)?;
    write_unmet_name(out, format)?;
    write_tail(out, format, tally)
}

fn write_unmet_name(out: &mut String, format: Format) -> Result<(), AllocError>
    ensures { OnOk result (string_bytes out.new ≡ string_bytes out.old ++ unmet_name format) }
{
    match format {
        Format::Lines(_) => write_text(out, "unmet"),
        Format::Json(sample) => {
            write_text(out, "\"sample\":")?;
            write_size_json(out, sample)?;
            write_text(out, ",\"type\":\"unmet\"")
        }
    }
}

fn write_sums(
    out: &mut String,
    format: Format,
    stopped: u64,
    unmet: u64,
    orders: u64,
    outcomes: u64,
) -> Result<(), AllocError>
    ensures { OnOk result (string_bytes out.new
        ≡ string_bytes out.old ++ sums_text format stopped unmet orders outcomes) }
{
    match format {
        Format::Lines(sample) => write_sum(out, sample, orders, outcomes),
        Format::Json(sample) => {
            write_orders_json(out, orders)?;
            write_outcomes_json(out, outcomes)?;
            write_sample_json(out, sample)?;
            write_end_json(out, stopped, unmet)
        }
    }
}

fn write_sum(
    out: &mut String,
    sample: Option<u32>,
    orders: u64,
    outcomes: u64,
) -> Result<(), AllocError>
    ensures { OnOk result (string_bytes out.new
        ≡ string_bytes out.old ++ sums_text (Format.Lines sample) 0 0 orders outcomes) }
{
    write_counted(out, orders, noun(sample))?;
    write_text(out, ", ")?;
    write_counted(out, outcomes, "outcome")?;
    write_text(out, "\n")
}

fn write_outcomes_json(out: &mut String, outcomes: u64) -> Result<(), AllocError>
    ensures { OnOk result (string_bytes out.new ≡ string_bytes out.old ++ outcomes_json outcomes) }
{
    write_text(out, ",\"outcomes\":")?;
    write_u64(out, outcomes)
}

fn write_end_json(out: &mut String, stopped: u64, unmet: u64) -> Result<(), AllocError>
    ensures { OnOk result (string_bytes out.new ≡ string_bytes out.old ++ end_json stopped unmet) }
{
    write_text(out, ",\"stopped\":")?;
    write_u64(out, stopped)?;
    write_text(out, ",\"type\":\"end\",\"unmet\":")?;
    write_u64(out, unmet)?;
    write_text(out, "}\n")
}

/// Adds a number, and the noun in the number that it asks for.
pub fn write_counted(out: &mut String, count: u64, noun: &str) -> Result<(), AllocError>
    ensures { OnOk result (string_bytes out.new ≡ string_bytes out.old ++ counted count noun.now) }
{
    write_u64(out, count)?;
    write_space(out)?;
    write_text(out, noun)?;
    if count == 1 { Ok(()) } else { out.push('s') }
}

/// Adds batches as JSON: an array for each, whose posts are `[CALLER,POST]`.
pub fn write_batches(out: &mut String, batches: &[Items<Posted>]) -> Result<(), AllocError>
    ensures { OnOk result
        (string_bytes out.new ≡ string_bytes out.old ++ batches_text batches.now) }
{
    out.push('[')?;
    let mut later = false;
    for batch in batches {
        if later {
            out.push(',')?;
        }
        write_batch(out, batch.as_slice())?;
        later = true;
    }
    out.push(']')
}

fn write_batch(out: &mut String, batch: &[Posted]) -> Result<(), AllocError>
    ensures { OnOk result (string_bytes out.new ≡ string_bytes out.old ++ batch_text batch.now) }
{
    out.push('[')?;
    let mut later = false;
    for posted in batch {
        if later {
            out.push(',')?;
        }
        write_posted(out, posted)?;
        later = true;
    }
    out.push(']')
}

fn write_posted(out: &mut String, posted: &Posted) -> Result<(), AllocError>
    ensures { OnOk result (string_bytes out.new ≡ string_bytes out.old ++ posted_text posted.now) }
{
    out.push('[')?;
    write_u32(out, posted.caller)?;
    out.push(',')?;
    write_u32(out, posted.index)?;
    out.push(']')
}
