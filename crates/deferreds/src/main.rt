//! Runs a script, and prints its journal and the outcome of each Deferred, or prints the run as
//! JSON Lines, or runs it in every order of its posts, or explains where the script is refused.
#![tactic(auto)]

ghost use Rattle.std.specs.Prelude.{IfOk, IfSome};

mod exit;
mod help;
mod performing;
mod version;

use crate::exit::Exit;
use crate::help::HELP;
use crate::performing::perform;
use crate::version::VERSION;
use dv_journal::io_sink::IoSink;
use dv_journal::sink::{Sink, write_all};
use dv_language::language::print_language;
use dv_orders::number::Number;
use dv_run::orders::{Chosen, MOST_ORDERS};
use dv_run::{Asked, Input, IoSource, RunFault, asked_of, batches_word, exit_of};
use std::alloc::AllocGlobal;
use std::io::IsTerminal;
use std::process::ExitCode;
use std::rt::Env;
use std::{env, fs, io};

fn main(rt: HostRuntime) -> ExitCode {
    let exit = match words(&rt) {
        Ok(words) => match asked_of(words.as_slice()) {
            Some(Asked::Script(task, Input::Standard)) => {
                if rt.stdin().is_terminal() {
                    let _ = eprintln!(rt;
                        "deferreds: reading a script from this terminal; Ctrl-D ends it, and --help says more"
                    );
                }
                perform(
                    &rt,
                    task,
                    batches_word(words.as_slice()),
                    &mut IoSource::new(rt.stdin()),
                    &mut IoSink::new(rt.stdout()),
                )
            }
            Some(Asked::Script(task, Input::File)) => {
                let path = last(words.as_slice());
                match fs::open(&rt, path) {
                    Ok(file) => perform(
                        &rt,
                        task,
                        batches_word(words.as_slice()),
                        &mut IoSource::new(file),
                        &mut IoSink::new(rt.stdout()),
                    ),
                    Err(error) => {
                        let _ = eprintln!(rt; "deferreds: {path} can't be opened: {error}");
                        Exit::plain((4, ""))
                    }
                }
            }
            Some(Asked::Language) => {
                let mut writer = IoSink::new(rt.stdout());
                Exit::plain(dv_language::language::exit_of(print_language(rt.alloc(), &mut writer)))
            }
            Some(Asked::Version) => print(&mut IoSink::new(rt.stdout()), VERSION),
            Some(Asked::Help) => print(&mut IoSink::new(rt.stdout()), HELP),
            None => Exit::wrong_words(words.as_slice()),
        },
        Err(error) if error.kind() == io::ErrorKind::OutOfMemory => {
            Exit::plain(exit_of(&Err(RunFault::OutOfMemory)))
        }
        Err(_) => Exit::wrong_words(&[]),
    };
    if let Some(fault) = exit.refusal {
        let _ = eprintln!(rt; "batches refused: {fault}");
    }
    match (exit.too_many, exit.chosen) {
        (None, _) => {}
        (Some(Number::Exactly(number)), Chosen::Every(most)) => {
            let noun = if number == 1 {
                "order is"
            } else {
                "orders are"
            };
            if number <= u64::from(MOST_ORDERS) {
                let _ = eprintln!(rt;
                    "{number} {noun} more than the {most} that may run; --most {number} allows them, --sample K --seed S draws some"
                );
            } else {
                let _ = eprintln!(rt;
                    "{number} {noun} more than the {most} that may run, and --most allows {MOST_ORDERS} at most; --sample K --seed S draws some"
                );
            }
        }
        (Some(Number::More), Chosen::Every(_)) => {
            let _ = eprintln!(rt;
                "more orders than 64 bits count, and --most allows {MOST_ORDERS} at most"
            );
        }
        (Some(Number::Exactly(_) | Number::More), Chosen::Sample(_, _)) => {
            let _ = eprintln!(rt; "more orders than 64 bits count: no sample is drawn");
        }
    }
    if !exit.text.is_empty() {
        let _ = eprintln!(rt; "{}", exit.text);
    }
    if !exit.hint.is_empty() && rt.stderr().is_terminal() {
        let _ = eprintln!(rt; "{}", exit.hint);
    }
    ExitCode::from(exit.status)
}

/// The words after the program's name. A word that isn't text is an error.
fn words(rt: &(impl Env + AllocGlobal)) -> io::Result<Vec<String>> {
    let mut words = Vec::new(rt.alloc());
    for word in env::args(rt)?.skip(1) {
        words.push(word)?;
    }
    Ok(words)
}

/// The last word, or nothing where there is none.
fn last(words: &[String]) -> &str {
    match words.last() {
        Some(word) => word.as_str(),
        None => "",
    }
}

/// Prints a text.
fn print<W: Sink>(writer: &mut W, text: &str) -> Exit {
    match write_all(writer, text.as_bytes()) {
        Ok(()) => Exit::plain((0, "")),
        Err(_) => Exit::plain(exit_of(&Err(RunFault::WriteFault))),
    }
}
