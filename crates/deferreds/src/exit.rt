//! How the program ends.

ghost use Rattle.std.specs.Prelude.{◌≡◌, [], None};
ghost use Rattle.dv_replay.specs.Exit.{fault_refusal, fault_status, fault_text};
ghost use Rattle.dv_replay.specs.Exit.{survey_fault_status, survey_fault_text, survey_status};
ghost use Rattle.dv_replay.specs.Exit.{too_many};
ghost use Rattle.deferreds.specs.Ending.{hint_after};

use dv_orders::fault::OrderFault;
use dv_orders::number::Number;
use dv_replay::error::{ReplayFault, SurveyFault};
use dv_replay::exit::{
    Sums, fault_refusal, fault_status, fault_text, survey_fault_status, survey_fault_text,
    survey_status, too_many,
};
use dv_run::orders::Chosen;

/// How a run in given batches is asked for.
const BATCHES_USAGE: &str =
    "usage: deferreds [--json] --batches BATCHES [WORKERS] [FILE], with BATCHES as [[[0,0]],[]]";

/// How a run in every order is asked for.
const ORDERS_USAGE: &str =
    "usage: deferreds [--json] --orders [--most N | --sample K --seed S] [FILE], with N up to 1000000, K from 1 to 1000000, S up to 4294967295";

/// The status with which the program ends, and what it says on standard error.
#[derive(Clone, Copy)]
pub struct Exit {
    pub status: u8,
    /// A line, or nothing where it is empty.
    pub text: &'static str,
    /// A line for a person, which follows where standard error is a terminal, or nothing where it
    /// is empty.
    pub hint: &'static str,
    /// Why the batches that were given are refused, which is a line of its own.
    pub refusal: Option<OrderFault>,
    /// How many orders there are where these are more than were to run, which is a line of its own.
    pub too_many: Option<Number>,
    /// Which orders were to run then.
    pub chosen: Chosen,
}

impl Exit {
    /// With no hint.
    pub fn plain(ended: (u8, &'static str)) -> Exit
        ensures status { result.status ≡ ended.entry.0 }
        ensures text { result.text.now ≡ ended.entry.1.now }
        ensures refusal { result.refusal ≡ None }
        ensures few { result.too_many ≡ None }
    {
        let (status, text) = ended;
        Exit {
            status,
            text,
            hint: "",
            refusal: None,
            too_many: None,
            chosen: Chosen::Every(0),
        }
    }

    /// Ends as a run did. Where its script was refused, a person is pointed to what explains it.
    pub fn of_run(ended: (u8, &'static str)) -> Exit
        ensures status { result.status ≡ ended.entry.0 }
        ensures text { result.text.now ≡ ended.entry.1.now }
        ensures hint { result.hint.now ≡ hint_after ended.entry.0 }
        ensures refusal { result.refusal ≡ None }
        ensures few { result.too_many ≡ None }
    {
        let (status, text) = ended;
        Exit {
            status,
            text,
            hint: hint_after(status),
            refusal: None,
            too_many: None,
            chosen: Chosen::Every(0),
        }
    }

    /// Ends as a run in given batches that failed.
    pub fn of_replay(fault: ReplayFault) -> Exit
        ensures status { result.status ≡ fault_status fault }
        ensures text { result.text.now ≡ fault_text fault }
        ensures refusal { result.refusal ≡ fault_refusal fault }
        ensures few { result.too_many ≡ None }
    {
        let status = fault_status(fault);
        Exit {
            status,
            text: fault_text(fault),
            hint: hint_after(status),
            refusal: fault_refusal(fault),
            too_many: None,
            chosen: Chosen::Every(0),
        }
    }

    /// Ends after a run in every order, by the number of ways in which the runs ended, and of those
    /// that ended since a Deferred wasn't as the script expects.
    pub fn of_survey(sums: Sums) -> Exit
        ensures status { result.status ≡ survey_status sums }
        ensures text { result.text.now ≡ [] }
        ensures refusal { result.refusal ≡ None }
        ensures few { result.too_many ≡ None }
    {
        Exit::plain((survey_status(sums), ""))
    }

    /// Ends where a run in these orders failed.
    pub fn of_survey_fault(fault: SurveyFault, chosen: Chosen) -> Exit
        ensures status { result.status ≡ survey_fault_status fault }
        ensures text { result.text.now ≡ survey_fault_text fault }
        ensures refusal { result.refusal ≡ None }
        ensures many { result.too_many ≡ too_many fault }
        ensures chosen { result.chosen ≡ chosen }
    {
        let status = survey_fault_status(fault);
        Exit {
            status,
            text: survey_fault_text(fault),
            hint: hint_after(status),
            refusal: None,
            too_many: too_many(fault),
            chosen,
        }
    }

    /// Ends where the word of the batches says none.
    pub fn wrong_batches() -> Exit
        ensures status { result.status ≡ 64 }
        ensures refusal { result.refusal ≡ None }
        ensures few { result.too_many ≡ None }
    {
        Exit {
            status: 64,
            text: BATCHES_USAGE,
            hint: "deferreds --help says more",
            refusal: None,
            too_many: None,
            chosen: Chosen::Every(0),
        }
    }

    /// Where the arguments are wrong: the usage with an option, if the first word looks like one.
    pub fn wrong_words(words: &[String]) -> Exit {
        Exit {
            status: 64,
            text: match words {
                [first, ..] if first.as_str() == "--batches" => BATCHES_USAGE,
                [first, ..] if first.as_str() == "--orders" => ORDERS_USAGE,
                [_, second, ..] if second.as_str() == "--orders" => ORDERS_USAGE,
                [_, second, ..] if second.as_str() == "--batches" => BATCHES_USAGE,
                [first, ..] if first.as_bytes().first() == Some(&b'-') => {
                    "usage: deferreds [--json] [WORKERS] [FILE], or deferreds --why [FILE]"
                }
                [] | [_, ..] => "usage: deferreds [WORKERS]",
            },
            hint: "deferreds --help says more",
            refusal: None,
            too_many: None,
            chosen: Chosen::Every(0),
        }
    }
}

/// Returns what is printed for a person after a run that ended with this status.
fn hint_after(status: u8) -> &'static str
    ensures { result.now ≡ hint_after status }
{
    if status == 2 {
        "deferreds --why says where and why"
    } else {
        ""
    }
}
