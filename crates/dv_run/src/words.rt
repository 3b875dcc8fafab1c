//! What the words after the program's name ask for.

ghost use Rattle.std.specs.Prelude.{◌≡◌, ◌≤◌, map, string_bytes, IfSome};
ghost use Rattle.std.specs.List.{list_any};
ghost use Rattle.dv_run.specs.Words.{marks_file, names_file, input_in, run_with, run_by_one};
ghost use Rattle.dv_run.specs.Words.{run_in, why_of, why_in, alone, batches_word, orders_in};
ghost use Rattle.dv_run.specs.Words.{sampled_in, survey_in, survey_of, flag_in, json_in, replay_in};
ghost use Rattle.dv_run.specs.Words.{replayed, replayed_task, asked_by, asked_in, AsksFew};
ghost use Rattle.dv_run.specs.Words.{HasFewWorkers};
ghost use Rattle.dv_script.specs.declared.limits.TheConstants.{MOST_WORKERS};

use crate::orders::{Chosen, ORDERS, every_in, sample_in};
use crate::workers::{few_workers, number_in};

/// In which form a run is printed.
#[derive(Clone, Copy)]
pub enum Form {
    /// The journal, and a line for each Deferred.
    Lines,
    /// JSON Lines.
    Json,
}

/// Where a script is read from.
#[derive(Clone, Copy)]
pub enum Input {
    Standard,
    /// The file that the last word names.
    File,
}

/// What is done with a script.
#[derive(Clone, Copy)]
pub enum Task {
    /// It runs, with so many workers.
    Run(Form, u32),
    /// It runs in batches that are given, with so many workers.
    Replay(Form, u32),
    /// It runs in each of these orders of its posts.
    Survey(Form, Chosen),
    /// It is explained where it is refused, and why.
    Why,
}

/// What the program is asked for.
#[derive(Clone, Copy)]
pub enum Asked {
    /// To do this with a script.
    Script(Task, Input),
    /// To print the language as JSON.
    Language,
    /// To print which program it is.
    Version,
    /// To print how it is used.
    Help,
}

/// An option: it stands first.
#[derive(Clone, Copy)]
pub enum Flag {
    Json,
    Batches,
    Orders,
    Why,
    Language,
    Version,
    Help,
}

/// What the words after the program's name ask for. An option comes first. Behind `--json`, or
/// without an option, come a number of workers and a FILE, each of which may be left out; behind
/// `--why` comes a FILE alone. Behind `--orders`, which may follow `--json`, comes a FILE, after
/// `--most` and a decimal number up to `MOST_ORDERS`, after `--sample`, a number from 1 on up to
/// `MOST_ORDERS`, `--seed` and one up to `MOST_SEED`, or with none of these. Behind `--batches`,
/// which may follow `--json`, comes a word with the batches, and then the same as without it. A
/// number of workers is one of one or two decimal digits, 16 at most. A FILE has a `/` or a `.` in
/// it and doesn't begin with `-`, or is `-`, standard input, which is read too where there is no
/// FILE. None for any other words.
pub fn asked_of(words: &[String]) -> Option<Asked>
    ensures asked { result ≡ asked_in (map string_bytes words.now) }
    ensures few { IfSome result AsksFew }
{
    match words {
        [] => run_in(Form::Lines, words),
        [word, rest @ ..] => match flag_in(word.as_str()) {
            None => run_in(Form::Lines, words),
            Some(flag) => asked_by(flag, rest),
        },
    }
}

fn asked_by(flag: Flag, words: &[String]) -> Option<Asked>
    ensures asked { result ≡ asked_by flag (map string_bytes words.now) }
    ensures few { IfSome result AsksFew }
{
    match flag {
        Flag::Json => json_in(words),
        Flag::Batches => replay_in(Form::Lines, words),
        Flag::Orders => orders_in(Form::Lines, words),
        Flag::Why => why_in(words),
        Flag::Language => alone(Asked::Language, words),
        Flag::Version => alone(Asked::Version, words),
        Flag::Help => alone(Asked::Help, words),
    }
}

fn flag_in(word: &str) -> Option<Flag>
    ensures { result ≡ flag_in word.now }
{
    if word == "--json" {
        Some(Flag::Json)
    } else if word == "--batches" {
        Some(Flag::Batches)
    } else if word == "--orders" {
        Some(Flag::Orders)
    } else if word == "--why" {
        Some(Flag::Why)
    } else if word == "--language" {
        Some(Flag::Language)
    } else if word == "--version" {
        Some(Flag::Version)
    } else if word == "--help" {
        Some(Flag::Help)
    } else {
        None
    }
}

fn run_in(form: Form, words: &[String]) -> Option<Asked>
    ensures asked { result ≡ run_in form (map string_bytes words.now) }
    ensures few { IfSome result AsksFew }
{
    match words {
        [] => Some(Asked::Script(Task::Run(form, 0), Input::Standard)),
        [word] => run_by_one(form, word.as_str(), few_workers(number_in(word.as_bytes()))),
        [word, last] => run_with(
            form,
            few_workers(number_in(word.as_bytes())),
            input_in(last.as_str()),
        ),
        [_, _, _, ..] => None,
    }
}

fn run_by_one(form: Form, word: &str, workers: Option<u32>) -> Option<Asked>
    requires few { IfSome workers (λ n. n ≤ MOST_WORKERS) }
    ensures asked { result ≡ run_by_one form word.now workers }
    ensures few { IfSome result AsksFew }
{
    match workers {
        Some(workers) => Some(Asked::Script(Task::Run(form, workers), Input::Standard)),
        None => run_with(form, Some(0), input_in(word)),
    }
}

fn run_with(form: Form, workers: Option<u32>, input: Option<Input>) -> Option<Asked>
    requires few { IfSome workers (λ n. n ≤ MOST_WORKERS) }
    ensures asked { result ≡ run_with form workers input }
    ensures few { IfSome result AsksFew }
{
    match (workers, input) {
        (Some(workers), Some(input)) => Some(Asked::Script(Task::Run(form, workers), input)),
        (Some(_), None) | (None, _) => None,
    }
}

fn json_in(words: &[String]) -> Option<Asked>
    ensures asked { result ≡ json_in (map string_bytes words.now) }
    ensures few { IfSome result AsksFew }
{
    match words {
        [word, rest @ ..] if word.as_str() == "--batches" => replay_in(Form::Json, rest),
        [word, rest @ ..] if word.as_str() == "--orders" => orders_in(Form::Json, rest),
        [] | [_, ..] => run_in(Form::Json, words),
    }
}

fn replay_in(form: Form, words: &[String]) -> Option<Asked>
    ensures asked { result ≡ replay_in form (map string_bytes words.now) }
    ensures few { IfSome result AsksFew }
{
    match words {
        [] => None,
        [_, rest @ ..] => match run_in(form, rest) {
            Some(asked) => replayed(asked),
            None => None,
        },
    }
}

fn replayed(asked: Asked) -> Option<Asked>
    requires few { AsksFew asked }
    ensures asked { result ≡ replayed asked }
    ensures few { IfSome result AsksFew }
{
    match asked {
        Asked::Script(task, input) => replayed_task(task, input),
        Asked::Language | Asked::Version | Asked::Help => None,
    }
}

fn replayed_task(task: Task, input: Input) -> Option<Asked>
    requires few { HasFewWorkers task }
    ensures asked { result ≡ replayed_task task input }
    ensures few { IfSome result AsksFew }
{
    match task {
        Task::Run(form, workers) => Some(Asked::Script(Task::Replay(form, workers), input)),
        Task::Replay(..) | Task::Survey(..) | Task::Why => None,
    }
}

/// Returns the word of the batches: the one after `--batches`, where the words ask for a run in
/// given batches.
pub fn batches_word(words: &[String]) -> &str
    ensures { result.now ≡ batches_word (map string_bytes words.now) }
{
    match words {
        [] | [_] => "",
        [_, batches] => batches.as_str(),
        [flag, second, third, ..] => if flag.as_str() == "--batches" {
            second.as_str()
        } else {
            third.as_str()
        },
    }
}

fn orders_in(form: Form, words: &[String]) -> Option<Asked>
    ensures asked { result ≡ orders_in form (map string_bytes words.now) }
    ensures few { IfSome result AsksFew }
{
    match words {
        [] => survey_of(form, Some(Chosen::Every(ORDERS)), Some(Input::Standard)),
        [word] => survey_of(form, Some(Chosen::Every(ORDERS)), input_in(word.as_str())),
        [flag, number, rest @ ..] => if flag.as_str() == "--most" {
            survey_in(form, every_in(number.as_bytes()), rest)
        } else if flag.as_str() == "--sample" {
            sampled_in(form, number.as_bytes(), rest)
        } else {
            None
        },
    }
}

fn sampled_in(form: Form, size: &[u8], words: &[String]) -> Option<Asked>
    ensures asked { result ≡ sampled_in form size.now (map string_bytes words.now) }
    ensures few { IfSome result AsksFew }
{
    match words {
        [] | [_] => None,
        [flag, seed, rest @ ..] => if flag.as_str() == "--seed" {
            survey_in(form, sample_in(size, seed.as_bytes()), rest)
        } else {
            None
        },
    }
}

fn survey_in(form: Form, chosen: Option<Chosen>, words: &[String]) -> Option<Asked>
    ensures asked { result ≡ survey_in form chosen (map string_bytes words.now) }
    ensures few { IfSome result AsksFew }
{
    match words {
        [] => survey_of(form, chosen, Some(Input::Standard)),
        [word] => survey_of(form, chosen, input_in(word.as_str())),
        [_, _, ..] => None,
    }
}

fn survey_of(form: Form, chosen: Option<Chosen>, input: Option<Input>) -> Option<Asked>
    ensures asked { result ≡ survey_of form chosen input }
    ensures few { IfSome result AsksFew }
{
    match (chosen, input) {
        (Some(chosen), Some(input)) => Some(Asked::Script(Task::Survey(form, chosen), input)),
        (Some(_), None) | (None, _) => None,
    }
}

fn why_in(words: &[String]) -> Option<Asked>
    ensures asked { result ≡ why_in (map string_bytes words.now) }
    ensures few { IfSome result AsksFew }
{
    match words {
        [] => Some(Asked::Script(Task::Why, Input::Standard)),
        [word] => why_of(input_in(word.as_str())),
        [_, _, ..] => None,
    }
}

fn why_of(input: Option<Input>) -> Option<Asked>
    ensures asked { result ≡ why_of input }
    ensures few { IfSome result AsksFew }
{
    match input {
        Some(input) => Some(Asked::Script(Task::Why, input)),
        None => None,
    }
}

fn alone(asked: Asked, words: &[String]) -> Option<Asked>
    requires few { AsksFew asked }
    ensures asked { result ≡ alone asked (map string_bytes words.now) }
    ensures few { IfSome result AsksFew }
{
    match words {
        [] => Some(asked),
        [_, ..] => None,
    }
}

fn input_in(word: &str) -> Option<Input>
    ensures { result ≡ input_in word.now }
{
    if word == "-" {
        Some(Input::Standard)
    } else if names_file(word.as_bytes()) {
        Some(Input::File)
    } else {
        None
    }
}

fn names_file(bytes: &[u8]) -> bool
    ensures { result ≡ names_file bytes.now }
{
    match bytes {
        [] => false,
        [first, ..] => *first != b'-' && has_mark(bytes),
    }
}

fn has_mark(bytes: &[u8]) -> bool
    ensures { result ≡ list_any marks_file bytes.now }
{
    bytes.iter().any(marks_file)
}

fn marks_file(byte: &u8) -> bool
    ensures { result ≡ marks_file byte.now }
{
    *byte == b'/' || *byte == b'.'
}
