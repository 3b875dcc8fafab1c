//! Runs a script in every order of its posts, or in each of a sample, and prints what became of
//! each Deferred in how many of them.

ghost use Rattle.std.specs.Prelude.{◌≡◌, ◌+◌, ◌<◌, ◌++◌, ◌^◌, ◌-◌, ◌≤◌, length, true, IfOk, IfErr};
ghost use Rattle.std.specs.Prelude.{IsErrOf, OnOk, OnErr, string_bytes};
ghost use Rattle.dv_journal.specs.Sink.{AppendsPrefix, HasFailed};
ghost use Rattle.dv_orders.specs.Orders.{orders};
ghost use Rattle.dv_orders.specs.Visiting.{SeesMore};
ghost use Rattle.dv_replay.specs.Surveying.{CountFails, GivesUp, chosen_orders, format_of, is_few};
ghost use Rattle.dv_replay.specs.Surveying.{ran, HasSurveyed, Leaves, OrdersGiveUp, PrintsOrders};
ghost use Rattle.dv_replay.specs.Surveying.{ReaderFailed, Surveys, WriterFailed};
ghost use Rattle.dv_script.specs.declared.limits.TheConstants.{MOST_POOLS};
ghost use Rattle.dv_survey.specs.Text.{number_text, survey_text};
ghost use Rattle.std.specs.Io.KnownBytes.{Appends};

use crate::error::SurveyFault;
use crate::exit::Sums;
use crate::performing::perform_alone;
use dv_jobs::gate::Gate;
use dv_journal::error::PrintFault;
use dv_journal::sink::{Sink, SinkFault, write_all};
use dv_orders::number::Number;
use dv_orders::numbering::number_of_orders;
use dv_orders::visiting::{VisitFault, Visitor, each_order, each_sampled};
use dv_posts::posted::Posted;
use dv_run::driving::Reporting;
use dv_run::error::RunFault;
use dv_run::orders::Chosen;
use dv_run::running::script_of;
use dv_script::script::Script;
use dv_source::source::Source;
use dv_survey::format::Format;
use dv_survey::survey::Survey;
use dv_survey::text::{write_number, write_survey};
use dv_value::items::Items;
use std::alloc::{AllocError, AllocGlobal, Global};
use std::hash::RandomState;
use std::random::RandomSource;
use std::sync::Wait;
use std::thread::Threads;

/// Gathers what becomes of the Deferreds of a script in the orders that it visits: each is
/// performed on this thread.
#[derive(Drop)]
struct Surveyor<'s, S, G> {
    rt: &'s S,
    gate: &'s G,
    script: &'s Script,
    keys: RandomState,
    survey: Survey,
    ghost limited: { script.now.limit < 2 ^ 32 - 1 },
    ghost pools_few: { length script.now.pools ≤ MOST_POOLS },
}

impl<'s, S, G> Visitor for Surveyor<'s, S, G>
where
    S: Threads + Wait + RandomSource + AllocGlobal,
    G: Gate,
{
    type Error = AllocError;

    ghost script_of = { λ surveyor. surveyor.script.now };

    ghost has_seen = { λ surveyor mark seen.
        HasSurveyed (format_of mark) surveyor.script.now seen surveyor.survey };

    fn visit(&mut self, script: &Script, batches: &[Items<Posted>]) -> Result<(), AllocError> {
        let Ok(report) = perform_alone(self.rt, script, self.gate, batches, &Reporting) else {
            return Err(AllocError);
        };
        let added = self.survey.add(
            self.rt.alloc(),
            self.keys,
            &script.classes,
            batches,
            report.outcomes.as_slice(),
            report.journal.ending(report.stopped),
        );
        report.discard();
        added
    }
}

/// Has the visitor visit the chosen orders of its script, which has `count`.
fn each_chosen<V: Visitor>(
    alloc: Global,
    script: &Script,
    chosen: Chosen,
    count: u64,
    visitor: &mut V,
) -> Result<(), VisitFault<V::Error>>
    requires known { script.now ≡ V.script_of visitor.old }
    requires number { count ≡ length (orders script.now) }
    requires fits { count + 1 < 2 ^ 64 }
    ensures same { V.script_of visitor.new ≡ V.script_of visitor.old }
    ensures ok { OnOk result
        (SeesMore V.has_seen visitor.old visitor.new (chosen_orders chosen script.now)) }
{
    match chosen {
        Chosen::Every(_) => each_order(alloc, script, visitor),
        Chosen::Sample(size, seed) => {
            each_sampled(alloc, script, count, size, u64::from(seed), visitor)
        }
    }
}

/// Runs a script, which has `count` orders, in the chosen ones on this thread, and returns what
/// became of its Deferreds.
fn survey_of<S, G>(
    rt: &S,
    script: &Script,
    gate: &G,
    format: Format,
    chosen: Chosen,
    count: u64,
) -> Result<Survey, AllocError>
where
    S: Threads + Wait + RandomSource + AllocGlobal,
    G: Gate,
    requires limited { script.now.limit < 2 ^ 32 - 1 }
    requires pools { length script.now.pools ≤ MOST_POOLS }
    requires number { count ≡ length (orders script.now) }
    requires fits { count + 1 < 2 ^ 64 }
    ensures { IfOk result (HasSurveyed format script.now (chosen_orders chosen script.now)) }
{
    let Ok(keys) = RandomState::new(rt) else {
        return Err(AllocError);
    };
    let alloc = rt.alloc();
    let mut surveyor = Surveyor {
        rt,
        gate,
        script,
        keys,
        survey: Survey::new(alloc, keys, format),
    };
    match each_chosen(alloc, script, chosen, count, &mut surveyor) {
        Ok(()) => Ok(surveyor.survey),
        Err(VisitFault::OutOfMemory | VisitFault::Failed(AllocError)) => Err(AllocError),
    }
}

/// Whether so many orders are no more than may run.
fn is_few(chosen: Chosen, count: u64) -> bool
    ensures { result ≡ is_few chosen count }
{
    match chosen {
        Chosen::Every(most) => count <= u64::from(most),
        Chosen::Sample(_, _) => true,
    }
}

/// How many orders run, of so many.
fn ran(chosen: Chosen, count: u64) -> u64
    ensures { result ≡ ran chosen count }
{
    match chosen {
        Chosen::Every(_) => count,
        Chosen::Sample(size, _) => u64::from(size),
    }
}

/// Returns how many orders a script has. TooMany where there are more than may run, or more than 64
/// bits count.
fn count_orders(alloc: Global, script: &Script, chosen: Chosen) -> Result<u64, SurveyFault>
    ensures number { IfOk result (λ count. count ≡ length (orders script.now)) }
    ensures few { IfOk result (λ count. is_few chosen count ≡ true) }
    ensures fits { IfOk result (λ count. count + 1 < 2 ^ 64) }
    ensures err { IfErr result (λ fault. CountFails fault chosen script.now) }
{
    match number_of_orders(alloc, script, u64::MAX - 1) {
        Err(AllocError) => Err(SurveyFault::Run(RunFault::OutOfMemory)),
        Ok(Number::More) => Err(SurveyFault::TooMany(Number::More)),
        Ok(Number::Exactly(count)) => if is_few(chosen, count) {
            Ok(count)
        } else {
            Err(SurveyFault::TooMany(Number::Exactly(count)))
        },
    }
}

/// Writes a line with the number of orders.
fn print_number<W: Sink>(
    alloc: Global,
    format: Format,
    orders: u64,
    writer: &mut W,
) -> Result<(), PrintFault>
    ensures ok { OnOk result (Appends (W.taken writer.old) (W.taken writer.new)
        (number_text format orders)) }
    ensures kept { OnOk result (W.failures writer.new ≡ W.failures writer.old) }
    ensures err { OnErr result (AppendsPrefix (W.taken writer.old) (W.taken writer.new)
        (number_text format orders)) }
    ensures cause { IsErrOf result PrintFault.WriteFault
        → HasFailed (W.failures writer.old) (W.failures writer.new) }
    ensures memory { IsErrOf result PrintFault.OutOfMemory
        → W.failures writer.new ≡ W.failures writer.old }
{
    let Ok(text) = number_line(alloc, format, orders) else {
        return Err(PrintFault::OutOfMemory);
    };
    match write_all(writer, text.as_bytes()) {
        Ok(()) => Ok(()),
        Err(SinkFault) => Err(PrintFault::WriteFault),
    }
}

fn number_line(alloc: Global, format: Format, orders: u64) -> Result<String, AllocError>
    ensures { IfOk result (λ text. string_bytes text ≡ number_text format orders) }
{
    let mut text = String::new(alloc);
    write_number(&mut text, format, orders)?;
    Ok(text)
}

/// Writes what became of the Deferreds in so many orders.
fn print_survey<W: Sink>(
    alloc: Global,
    orders: u64,
    survey: &Survey,
    writer: &mut W,
) -> Result<(), PrintFault>
    ensures ok { OnOk result (Appends (W.taken writer.old) (W.taken writer.new)
        (survey_text survey.now orders)) }
    ensures kept { OnOk result (W.failures writer.new ≡ W.failures writer.old) }
    ensures err { OnErr result (AppendsPrefix (W.taken writer.old) (W.taken writer.new)
        (survey_text survey.now orders)) }
    ensures cause { IsErrOf result PrintFault.WriteFault
        → HasFailed (W.failures writer.old) (W.failures writer.new) }
    ensures memory { IsErrOf result PrintFault.OutOfMemory
        → W.failures writer.new ≡ W.failures writer.old }
{
    let Ok(text) = text_of(alloc, orders, survey) else {
        return Err(PrintFault::OutOfMemory);
    };
    match write_all(writer, text.as_bytes()) {
        Ok(()) => Ok(()),
        Err(SinkFault) => Err(PrintFault::WriteFault),
    }
}

fn text_of(alloc: Global, orders: u64, survey: &Survey) -> Result<String, AllocError>
    ensures { IfOk result (λ text. string_bytes text ≡ survey_text survey.now orders) }
{
    let mut text = String::new(alloc);
    write_survey(&mut text, survey, orders)?;
    Ok(text)
}

/// Runs a script in the chosen orders of its posts, where there are no more than may run, and
/// writes what became of its Deferreds. Returns in how many ways they ended, and in how many orders
/// one wasn't as the script expects.
fn print_orders<S, W, G>(
    rt: &S,
    script: &Script,
    writer: &mut W,
    gate: &G,
    format: Format,
    chosen: Chosen,
) -> Result<Sums, SurveyFault>
where
    S: Threads + Wait + RandomSource + AllocGlobal,
    W: Sink,
    G: Gate,
    requires limited { script.now.limit < 2 ^ 32 - 1 }
    requires pools { length script.now.pools ≤ MOST_POOLS }
    ensures ok { IfOk result (λ sums. PrintsOrders format chosen (W.taken writer.old)
        (W.taken writer.new) sums script.now) }
    ensures err { IfErr result (λ fault. OrdersGiveUp format fault chosen (W.taken writer.old)
        (W.taken writer.new) script.now) }
    ensures writer { WriterFailed result (W.failures writer.old) (W.failures writer.new) }
{
    let alloc = rt.alloc();
    let orders = match count_orders(alloc, script, chosen) {
        Ok(orders) => orders,
        Err(fault) => return Err(fault),
    };
    if let Err(fault) = print_number(alloc, format, orders, writer) {
        return Err(SurveyFault::Run(fault.into()));
    }
    let Ok(survey) = survey_of(rt, script, gate, format, chosen, orders) else {
        return Err(SurveyFault::Run(RunFault::OutOfMemory));
    };
    match print_survey(alloc, ran(chosen, orders), &survey, writer) {
        Ok(()) => Ok(Sums {
            outcomes: survey.outcomes_len(),
            unmet: survey.unmet(),
        }),
        Err(fault) => Err(SurveyFault::Run(fault.into())),
    }
}

/// Reads a script to the end of the input, and runs it in the chosen orders in which its callers'
/// posts may be taken: in every one, where there are no more than may run, or in each of a sample.
/// Each run is that of `replay` in its batches, on this thread alone. The number of orders is
/// written before the first run. After the last one comes what became of each Deferred, a line for
/// each of its ends, and a line for each outcome of a run: in how many orders it came, and the
/// batches of the first. All is written in this format, which should name the size of the sample.
/// Returns in how many ways the runs ended: 1 where no order that ran makes a difference to any
/// Deferred; and how many ended since a Deferred wasn't as the script expects.
///
/// TooMany where there are more orders than may run, and for a sample where there are more than 64
/// bits count: nothing was performed, and nothing written. The other errors come as in
/// `dv_run::run`, and memory grows with the different ends, not with the orders.
pub fn survey<S, R, W, G>(
    rt: &S,
    reader: &mut R,
    writer: &mut W,
    gate: &G,
    format: Format,
    chosen: Chosen,
) -> Result<Sums, SurveyFault>
where
    S: Threads + Wait + RandomSource + AllocGlobal,
    R: Source,
    W: Sink,
    G: Gate,
    ensures ok { IfOk result (λ sums. Surveys format chosen (R.left reader.old)
        (W.taken writer.old) (W.taken writer.new) sums) }
    ensures err { IfErr result (λ fault. GivesUp format fault chosen (R.left reader.old)
        (W.taken writer.old) (W.taken writer.new)) }
    ensures reader { ReaderFailed result (R.failures reader.old) (R.failures reader.new) }
    ensures writer { WriterFailed result (W.failures writer.old) (W.failures writer.new) }
    ensures left { Leaves result (R.left reader.old) (R.left reader.new) }
{
    let script = match script_of(rt.alloc(), reader) {
        Ok(script) => script,
        Err(fault) => return Err(SurveyFault::Run(fault)),
    };
    match print_orders(rt, &script, writer, gate, format, chosen) {
        Ok(sums) => {
            script.discard();
            Ok(sums)
        }
        Err(fault) => {
            script.discard();
            Err(fault)
        }
    }
}
