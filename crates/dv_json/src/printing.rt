//! The lines of a run.

ghost use Rattle.std.specs.Prelude.{◌≡◌, ◌++◌, [], ◌∷◌, IsErrOf, OnErr, OnOk, codes, length};
ghost use Rattle.std.specs.Prelude.{string_bytes};
ghost use Rattle.dv_facts.specs.Events.{event_at};
ghost use Rattle.dv_facts.specs.Lines.{IsEntryLine};
ghost use Rattle.dv_facts.specs.Parts.{Adds, number_or_null};
ghost use Rattle.dv_journal.specs.Ending.{ending_of, is_at_limit};
ghost use Rattle.dv_journal.specs.Journal.{total_weight};
ghost use Rattle.dv_journal.specs.Sink.{AppendsBut, AppendsPrefix, HasFailed};
ghost use Rattle.dv_json.specs.Gathered.{AddsEnd, AddsWork, CutsLines, GathersLines, IsEnd};
ghost use Rattle.dv_json.specs.Text.{AreSoMany, EachHasLine, HasLines, IsOutcomeLine, IsText};
ghost use Rattle.dv_json.specs.Text.{Writes, WritesPrefix, start_line, totals, unmet_text};

use crate::marked::Marked;
use crate::outcomes::write_outcome;
use dv_facts::entries::Story;
use dv_facts::leaving::Known;
use dv_facts::members::{write_bool, write_comma, write_number, write_number_or_null};
use dv_jobs::job::Done;
use dv_journal::ending::Ending;
use dv_journal::entry::Entry;
use dv_journal::error::PrintFault;
use dv_journal::journal::Journal;
use dv_journal::sink::{Sink, write_all, write_when_full};
use dv_left::Remains;
use dv_left::left::Left;
use dv_posts::posted::Posted;
use dv_store::outcome::Outcome;
use dv_survey::text::write_batches;
use dv_value::classes::Classes;
use dv_value::items::Items;
use dv_value::value_text::write_json;
use dv_value::writing::write_text;
use std::alloc::{AllocError, Global};

/// A run that has ended, without what is left of it.
#[derive(Clone, Copy)]
struct Run<'r> {
    journal: &'r Journal,
    stopped: bool,
    outcomes: &'r [Outcome],
    batches: &'r [Items<Posted>],
    dones: &'r [Done],
    marks: &'r [usize],
}

/// Writes a run, a line of JSON an object. WriteFault where the sink fails or takes no byte,
/// OutOfMemory when out of memory; what was written then is a prefix of such a text.
#[tactic(auto, using(crate::proofs::Cuts::pieces))]
pub fn print_run<W: Sink>(
    alloc: Global,
    classes: &Classes,
    marked: Marked,
    sink: &mut W,
) -> Result<(), PrintFault>
    ensures ok { OnOk result (Writes (IsText classes.now marked) (W.taken sink.old)
        (W.taken sink.new)) }
    ensures err { OnErr result (WritesPrefix (IsText classes.now marked) (W.taken sink.old)
        (W.taken sink.new)) }
    ensures kept { OnOk result (W.failures sink.new ≡ W.failures sink.old) }
    ensures cause { IsErrOf result PrintFault.WriteFault
        → HasFailed (W.failures sink.old) (W.failures sink.new) }
    ensures memory { IsErrOf result PrintFault.OutOfMemory
        → W.failures sink.new ≡ W.failures sink.old }
{
    let Marked {
        remains,
        batches,
        ran,
        marks,
    } = marked;
    let Remains {
        journal,
        stopped,
        outcomes,
        left,
    } = remains;
    let mut left = left.into_vec();
    let run = Run {
        journal: &journal,
        stopped,
        outcomes: outcomes.as_slice(),
        batches: batches.as_slice(),
        dones: ran.dones(),
        marks: marks.as_slice(),
    };
    print_borrowed(alloc, classes, run, left.as_mut_slice(), sink)
}

/// Writes a run and what is left of it.
#[tactic(auto, using(crate::proofs::Cuts::pieces))]
fn print_borrowed<W: Sink>(
    alloc: Global,
    classes: &Classes,
    run: Run<'_>,
    left: &mut [Left],
    sink: &mut W,
) -> Result<(), PrintFault>
    ensures ok { OnOk result (Writes (HasLines classes.now run.entry.marks.now run.entry.batches.now run.entry.journal.now
        run.entry.stopped run.entry.outcomes.now (length left.old)) (W.taken sink.old)
        (W.taken sink.new)) }
    ensures err { OnErr result (WritesPrefix (HasLines classes.now run.entry.marks.now run.entry.batches.now
        run.entry.journal.now run.entry.stopped run.entry.outcomes.now (length left.old))
        (W.taken sink.old) (W.taken sink.new)) }
    ensures kept { OnOk result (W.failures sink.new ≡ W.failures sink.old) }
    ensures cause { IsErrOf result PrintFault.WriteFault
        → HasFailed (W.failures sink.old) (W.failures sink.new) }
    ensures memory { IsErrOf result PrintFault.OutOfMemory
        → W.failures sink.new ≡ W.failures sink.old }
{
    let mut story = Story::new(alloc, run.marks);
    let mut gathered = String::new(alloc);
    print_lines(alloc, classes, run, left, &mut story, &mut gathered, sink)
}

/// Writes all lines, some kilobytes at a time.
#[tactic(auto, using(crate::proofs::Cuts::pieces))]
fn print_lines<'r, W: Sink>(
    alloc: Global,
    classes: &Classes,
    run: Run<'r>,
    left: &mut [Left],
    story: &mut Story<'r>,
    gathered: &mut String,
    sink: &mut W,
) -> Result<(), PrintFault>
    requires empty { string_bytes gathered.old ≡ [] }
    requires unpassed { story.old.passed ≡ 0 }
    requires marks { story.old.marks.now ≡ run.marks.now }
    ensures ok { OnOk result (Writes (HasLines classes.now run.entry.marks.now run.entry.batches.now run.entry.journal.now
        run.entry.stopped run.entry.outcomes.now (length left.old)) (W.taken sink.old)
        (W.taken sink.new)) }
    ensures err { OnErr result (WritesPrefix (HasLines classes.now run.entry.marks.now run.entry.batches.now
        run.entry.journal.now run.entry.stopped run.entry.outcomes.now (length left.old))
        (W.taken sink.old) (W.taken sink.new)) }
    ensures kept { OnOk result (W.failures sink.new ≡ W.failures sink.old) }
    ensures cause { IsErrOf result PrintFault.WriteFault
        → HasFailed (W.failures sink.old) (W.failures sink.new) }
    ensures memory { IsErrOf result PrintFault.OutOfMemory
        → W.failures sink.new ≡ W.failures sink.old }
{
    print_start(gathered, sink)?;
    let entries = run.journal.entries();
    print_entries(alloc, classes, story, entries, gathered, sink)?;
    print_outcomes(alloc, classes, story, run.outcomes, gathered, sink)?;
    let known = Known {
        alloc,
        classes,
        story,
        entries,
        outcomes: run.outcomes,
    };
    print_left(known, left, gathered, sink)?;
    print_end(alloc, classes, run, story.time, gathered, sink)?;
    write_all(sink, gathered.as_bytes())?;
    Ok(())
}

/// Ends a line, and writes what is gathered once that is some kilobytes.
#[tactic(auto, using(crate::proofs::Cuts::pieces))]
fn end_line<W: Sink>(gathered: &mut String, sink: &mut W) -> Result<(), PrintFault>
    ensures ok { OnOk result (AppendsBut (W.taken sink.old) (W.taken sink.new)
        (string_bytes gathered.old ++ codes "\n") (string_bytes gathered.new)) }
    ensures err { OnErr result (AppendsPrefix (W.taken sink.old) (W.taken sink.new)
        (string_bytes gathered.old ++ codes "\n")) }
    ensures kept { OnOk result (W.failures sink.new ≡ W.failures sink.old) }
    ensures cause { IsErrOf result PrintFault.WriteFault
        → HasFailed (W.failures sink.old) (W.failures sink.new) }
    ensures memory { IsErrOf result PrintFault.OutOfMemory
        → W.failures sink.new ≡ W.failures sink.old }
{
    gathered.push('\n')?;
    write_when_full(sink, gathered)?;
    Ok(())
}

/// Writes the line that begins a run.
#[tactic(auto, using(crate::proofs::Cuts::pieces))]
fn print_start<W: Sink>(gathered: &mut String, sink: &mut W) -> Result<(), PrintFault>
    ensures ok { OnOk result (GathersLines (λ lines. lines ≡ start_line ∷ []) (W.taken sink.old)
        (string_bytes gathered.old) (W.taken sink.new) (string_bytes gathered.new)) }
    ensures err { OnErr result (CutsLines (λ lines. lines ≡ start_line ∷ []) (W.taken sink.old)
        (string_bytes gathered.old) (W.taken sink.new)) }
    ensures kept { OnOk result (W.failures sink.new ≡ W.failures sink.old) }
    ensures cause { IsErrOf result PrintFault.WriteFault
        → HasFailed (W.failures sink.old) (W.failures sink.new) }
    ensures memory { IsErrOf result PrintFault.OutOfMemory
        → W.failures sink.new ≡ W.failures sink.old }
{
    write_text(gathered, r#"{"type":"start","version":1}"#)?;
    end_line(gathered, sink)
}

/// Writes a line for each entry.
#[tactic(auto, using(crate::proofs::Cuts::pieces))]
fn print_entries<'e, W: Sink>(
    alloc: Global,
    classes: &Classes,
    story: &mut Story<'e>,
    entries: &'e [Entry],
    gathered: &mut String,
    sink: &mut W,
) -> Result<(), PrintFault>
    requires { story.old.passed ≡ 0 }
    ensures ok { OnOk result (GathersLines (EachHasLine (λ number. IsEntryLine classes.now
        (event_at story.old.marks.now number) number) 0 entries.now) (W.taken sink.old)
        (string_bytes gathered.old) (W.taken sink.new) (string_bytes gathered.new)) }
    ensures err { OnErr result (CutsLines (EachHasLine (λ number.
        IsEntryLine classes.now (event_at story.old.marks.now number) number) 0 entries.now)
        (W.taken sink.old) (string_bytes gathered.old) (W.taken sink.new)) }
    ensures kept { OnOk result (W.failures sink.new ≡ W.failures sink.old) }
    ensures cause { IsErrOf result PrintFault.WriteFault
        → HasFailed (W.failures sink.old) (W.failures sink.new) }
    ensures memory { IsErrOf result PrintFault.OutOfMemory
        → W.failures sink.new ≡ W.failures sink.old }
{
    for (number, entry) in entries.iter().enumerate() {
        story.write_next(alloc, classes, gathered, number, entry)?;
        end_line(gathered, sink)?;
    }
    Ok(())
}

/// Writes a line for each Deferred.
#[tactic(auto, using(crate::proofs::Cuts::pieces))]
fn print_outcomes<W: Sink>(
    alloc: Global,
    classes: &Classes,
    story: &Story<'_>,
    outcomes: &[Outcome],
    gathered: &mut String,
    sink: &mut W,
) -> Result<(), PrintFault>
    ensures ok { OnOk result (GathersLines (EachHasLine (IsOutcomeLine classes.now) 0 outcomes.now)
        (W.taken sink.old) (string_bytes gathered.old) (W.taken sink.new)
        (string_bytes gathered.new)) }
    ensures err { OnErr result (CutsLines (EachHasLine (IsOutcomeLine classes.now) 0 outcomes.now)
        (W.taken sink.old) (string_bytes gathered.old) (W.taken sink.new)) }
    ensures kept { OnOk result (W.failures sink.new ≡ W.failures sink.old) }
    ensures cause { IsErrOf result PrintFault.WriteFault
        → HasFailed (W.failures sink.old) (W.failures sink.new) }
    ensures memory { IsErrOf result PrintFault.OutOfMemory
        → W.failures sink.new ≡ W.failures sink.old }
{
    for (number, outcome) in outcomes.iter().enumerate() {
        write_outcome(alloc, classes, story, gathered, number, outcome)?;
        end_line(gathered, sink)?;
    }
    Ok(())
}

/// Writes a line for each thing that is left.
#[tactic(auto, using(crate::proofs::Cuts::pieces))]
fn print_left<W: Sink>(
    known: Known<'_, '_>,
    left: &mut [Left],
    gathered: &mut String,
    sink: &mut W,
) -> Result<(), PrintFault>
    ensures ok { OnOk result (GathersLines (AreSoMany (length left.old)) (W.taken sink.old)
        (string_bytes gathered.old) (W.taken sink.new) (string_bytes gathered.new)) }
    ensures err { OnErr result (CutsLines (AreSoMany (length left.old)) (W.taken sink.old)
        (string_bytes gathered.old) (W.taken sink.new)) }
    ensures kept { OnOk result (W.failures sink.new ≡ W.failures sink.old) }
    ensures cause { IsErrOf result PrintFault.WriteFault
        → HasFailed (W.failures sink.old) (W.failures sink.new) }
    ensures memory { IsErrOf result PrintFault.OutOfMemory
        → W.failures sink.new ≡ W.failures sink.old }
{
    for thing in left {
        known.write(gathered, thing)?;
        end_line(gathered, sink)?;
    }
    Ok(())
}

/// Writes the line that ends a run.
#[tactic(auto, using(crate::proofs::Cuts::pieces))]
fn print_end<W: Sink>(
    alloc: Global,
    classes: &Classes,
    run: Run<'_>,
    time: u64,
    gathered: &mut String,
    sink: &mut W,
) -> Result<(), PrintFault>
    ensures ok { OnOk result (GathersLines (IsEnd run.entry.batches.now run.entry.journal.now run.entry.stopped)
        (W.taken sink.old) (string_bytes gathered.old) (W.taken sink.new)
        (string_bytes gathered.new)) }
    ensures err { OnErr result (CutsLines (IsEnd run.entry.batches.now run.entry.journal.now run.entry.stopped)
        (W.taken sink.old) (string_bytes gathered.old) (W.taken sink.new)) }
    ensures kept { OnOk result (W.failures sink.new ≡ W.failures sink.old) }
    ensures cause { IsErrOf result PrintFault.WriteFault
        → HasFailed (W.failures sink.old) (W.failures sink.new) }
    ensures memory { IsErrOf result PrintFault.OutOfMemory
        → W.failures sink.new ≡ W.failures sink.old }
{
    write_end(alloc, classes, run, time, gathered)?;
    end_line(gathered, sink)
}

/// Adds the line that ends a run, without its end.
fn write_end(
    alloc: Global,
    classes: &Classes,
    run: Run<'_>,
    time: u64,
    out: &mut String,
) -> Result<(), AllocError>
    ensures { OnOk result (AddsEnd run.entry.batches.now run.entry.journal.now run.entry.stopped (string_bytes out.old)
        (string_bytes out.new)) }
{
    write_work(alloc, classes, run, out)?;
    write_totals(run, time, out)
}

/// Adds the batches and the jobs.
fn write_work(
    alloc: Global,
    classes: &Classes,
    run: Run<'_>,
    out: &mut String,
) -> Result<(), AllocError>
    ensures { OnOk result (AddsWork run.entry.batches.now (string_bytes out.old)
        (string_bytes out.new)) }
{
    write_text(out, r#"{"batches":"#)?;
    write_batches(out, run.batches)?;
    write_text(out, r#","jobs":"#)?;
    write_jobs(alloc, classes, out, run.dones)
}

/// Adds the counts of the journal, and the time.
fn write_totals(run: Run<'_>, time: u64, out: &mut String) -> Result<(), AllocError>
    ensures { let journal = run.entry.journal.now in
        OnOk result (string_bytes out.new ≡ string_bytes out.old
        ++ totals journal.limit (ending_of run.entry.stopped journal.entries)
        (length journal.entries) time (total_weight journal.entries)) }
{
    let ending = run.journal.ending(run.stopped);
    write_number(out, r#","limit":"#, run.journal.limit())?;
    write_bool(out, r#","stopped":"#, is_at_limit(ending))?;
    write_number(out, r#","time":"#, time)?;
    write_unmet(out, ending, run.journal.entries().len())?;
    write_number(out, r#","weight":"#, run.journal.weight())?;
    write_text(out, "}")
}

/// Whether a run stopped at the limit of its journal.
fn is_at_limit(ending: Ending) -> bool
    ensures { result ≡ is_at_limit ending }
{
    match ending {
        Ending::AtLimit => true,
        Ending::Over | Ending::Unmet => false,
    }
}

/// Adds the number of the last of so many entries, where that logs that a Deferred isn't as the
/// script expects, and else null.
fn write_unmet(out: &mut String, ending: Ending, entries: usize) -> Result<(), AllocError>
    ensures { OnOk result (string_bytes out.new ≡ string_bytes out.old
        ++ (codes ",\"type\":\"end\",\"unmet\":" ++ unmet_text ending entries)) }
{
    let unmet = unmet_entry(ending, entries);
    write_number_or_null(out, r#","type":"end","unmet":"#, unmet)
}

/// The number of the last of so many entries, where that logs that a Deferred isn't as the script
/// expects.
fn unmet_entry(ending: Ending, entries: usize) -> Option<u64>
    ensures { number_or_null result ≡ unmet_text ending entries }
{
    match ending {
        Ending::Unmet => Some(entries.saturating_sub(1) as u64),
        Ending::Over | Ending::AtLimit => None,
    }
}

#[tactic(auto, using(dv_facts::proofs::Added::parts))]
fn write_jobs(
    alloc: Global,
    classes: &Classes,
    out: &mut String,
    dones: &[Done],
) -> Result<(), AllocError>
    ensures { OnOk result (Adds (string_bytes out.old) (string_bytes out.new)) }
{
    write_text(out, "[")?;
    for (number, done) in dones.iter().enumerate() {
        write_comma(out, number)?;
        write_job(alloc, classes, out, number, done)?;
    }
    write_text(out, "]")
}

/// Adds a job: its number, and its result.
fn write_job(
    alloc: Global,
    classes: &Classes,
    out: &mut String,
    number: usize,
    done: &Done,
) -> Result<(), AllocError>
    ensures { OnOk result (Adds (string_bytes out.old) (string_bytes out.new)) }
{
    write_number(out, r#"{"number":"#, number as u64)?;
    write_text(out, r#","value":"#)?;
    write_json(alloc, classes, out, done.outcome())?;
    write_text(out, "}")
}
