ghost use Rattle.std.specs.Prelude.{◌≡◌, ◌++◌, OnOk, OnErr, IsErrOf, codes, string_bytes};
ghost use Rattle.std.specs.Io.KnownBytes.{Appends};
ghost use Rattle.dv_journal.specs.Sink.{HasFailed, AppendsPrefix};
ghost use Rattle.dv_journal.specs.Line.{name_text};
ghost use Rattle.dv_journal.specs.State.{hash};
ghost use Rattle.dv_run.specs.Output.{pauses_text, outcome_line, output, report_text};

use dv_engine::report::Report;
use dv_journal::error::PrintFault;
use dv_journal::line::{shown_name, write_state};
use dv_journal::sink::{Sink, write_all, write_when_full};
use dv_store::outcome::Outcome;
use dv_value::classes::Classes;
use dv_value::writing::{write_space, write_text, write_u64};
use std::alloc::{AllocError, Global};

fn pauses_text(pauses: u32) -> &'static str
    ensures { result.now ≡ pauses_text pauses }
{
    if pauses == 0 { "" } else { "paused " }
}

/// Adds what a line shows before the state: the number, the name, and whether it is paused.
fn write_head(line: &mut String, number: usize, outcome: &Outcome) -> Result<(), AllocError>
    ensures { OnOk result
        (string_bytes line.new ≡ string_bytes line.old ++ (hash number ++ codes " "
        ++ name_text outcome.now.name ++ codes " " ++ pauses_text outcome.now.pauses)) }
{
    line.push('#')?;
    write_u64(line, number as u64)?;
    write_space(line)?;
    write_text(line, shown_name(&outcome.name))?;
    write_space(line)?;
    write_text(line, pauses_text(outcome.pauses))
}

/// Adds the line of the outcome of a number. After an error, `line` ends anyhow.
pub fn write_line(
    alloc: Global,
    classes: &Classes,
    line: &mut String,
    number: usize,
    outcome: &Outcome,
) -> Result<(), AllocError>
    ensures { OnOk result (string_bytes line.new
        ≡ string_bytes line.old ++ outcome_line classes.now number outcome.now) }
{
    write_head(line, number, outcome)?;
    write_state(alloc, classes, line, &outcome.state)?;
    line.push('\n')
}

/// Writes a line for each outcome, some kilobytes at a time, with one buffer for all. Where it
/// fails, what was written is a prefix of the text.
fn print_outcomes<W: Sink>(
    alloc: Global,
    classes: &Classes,
    outcomes: &[Outcome],
    sink: &mut W,
) -> Result<(), PrintFault>
    ensures ok { OnOk result (Appends (W.taken sink.old) (W.taken sink.new)
        (output classes.now outcomes.now)) }
    ensures kept { OnOk result (W.failures sink.new ≡ W.failures sink.old) }
    ensures err { OnErr result (AppendsPrefix (W.taken sink.old) (W.taken sink.new)
        (output classes.now outcomes.now)) }
    ensures cause { IsErrOf result PrintFault.WriteFault
        → HasFailed (W.failures sink.old) (W.failures sink.new) }
    ensures memory { IsErrOf result PrintFault.OutOfMemory
        → W.failures sink.new ≡ W.failures sink.old }
{
    let mut gathered = String::new(alloc);
    for (number, outcome) in outcomes.iter().enumerate() {
        write_line(alloc, classes, &mut gathered, number, outcome)?;
        write_when_full(sink, &mut gathered)?;
    }
    write_all(sink, gathered.as_bytes())?;
    Ok(())
}

/// Writes the journal, and then a line for each outcome. WriteFault where the sink fails or takes
/// no byte, OutOfMemory where an allocation fails; what was written then is a prefix of the text.
#[tactic(auto, using(crate::proofs::OutputLemmas::both_parts))]
pub fn print_report<W: Sink>(
    alloc: Global,
    classes: &Classes,
    report: &Report,
    sink: &mut W,
) -> Result<(), PrintFault>
    ensures ok { OnOk result (Appends (W.taken sink.old) (W.taken sink.new)
        (report_text classes.now report.now)) }
    ensures kept { OnOk result (W.failures sink.new ≡ W.failures sink.old) }
    ensures err { OnErr result (AppendsPrefix (W.taken sink.old) (W.taken sink.new)
        (report_text classes.now report.now)) }
    ensures cause { IsErrOf result PrintFault.WriteFault
        → HasFailed (W.failures sink.old) (W.failures sink.new) }
    ensures memory { IsErrOf result PrintFault.OutOfMemory
        → W.failures sink.new ≡ W.failures sink.old }
{
    report.journal.print(classes, sink)?;
    print_outcomes(alloc, classes, report.outcomes.as_slice(), sink)?;
    Ok(())
}
