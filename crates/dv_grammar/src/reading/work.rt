ghost use Rattle.dv_document.specs.View.{view, items_view};
ghost use Rattle.dv_clock.specs.declared.limits.TheConstants.{MOST_DELAY};
ghost use Rattle.dv_forms.specs.Answer.{Reads};
ghost use Rattle.dv_forms.specs.Parts.{text_at, number_at, three_of};
ghost use Rattle.dv_grammar.specs.Shape.{work_at, work_of, thread_in_of};

use dv_clock::limits::MOST_DELAY;
use dv_document::places::{Elements, Json};
use dv_forms::arguments::{class_and_message, one_small, one_value};
use dv_forms::leaf::{call, four, number, text, three};
use dv_forms::shape_fault::ShapeFault;
use dv_forms::words::WorkWord;
use dv_script::action::Action;
use dv_script::limits::MOST_SUM;
use dv_script::work::Work;
use dv_value::classes::Classes;
use std::alloc::Global;

/// What a thread does.
#[tactic(auto, unfolding(crate::specs::Shape::work_at))]
pub fn work(alloc: Global, classes: &Classes, json: Json<'_>) -> Result<Work, ShapeFault>
    ensures { Reads result (work_at classes.now (view json.entry)) }
{
    let (word, arguments) = call(json)?;
    match WorkWord::named(word) {
        Some(word) => work_of(alloc, classes, word, arguments),
        None => Err(ShapeFault::BadShape),
    }
}

#[tactic(auto, unfolding(crate::specs::Shape::work_of))]
fn work_of(
    alloc: Global,
    classes: &Classes,
    word: WorkWord,
    arguments: Elements<'_>,
) -> Result<Work, ShapeFault>
    ensures { Reads result (work_of classes.now word (items_view arguments.entry)) }
{
    match word {
        WorkWord::Value => Ok(Work::Value(one_value(alloc, classes, arguments)?)),
        WorkWord::Raise => {
            let (class, message) = class_and_message(alloc, classes, arguments)?;
            Ok(Work::Raise(class, message))
        }
        WorkWord::Sum => Ok(Work::Sum(one_small(arguments, 0, MOST_SUM)?)),
    }
}

/// A work that a thread does.
#[inline(never)]
#[tactic(auto, unfolding(dv_forms::specs::Parts::triple))]
pub fn thread(
    alloc: Global,
    classes: &Classes,
    arguments: Elements<'_>,
) -> Result<Action, ShapeFault>
    ensures { Reads result (three_of text_at (number_at 0 MOST_DELAY)
        (work_at classes.now) Action.Thread (items_view arguments.entry)) }
{
    let (name, delay, json) = three(arguments)?;
    let name = text(alloc, name)?;
    let delay = number(delay, 0, MOST_DELAY)?;
    let work = work(alloc, classes, json)?;
    Ok(Action::Thread(name, delay, work))
}

/// A work that a thread of a pool does.
#[inline(never)]
#[tactic(auto, unfolding(crate::specs::Shape::thread_in_of))]
pub fn thread_in(
    alloc: Global,
    classes: &Classes,
    arguments: Elements<'_>,
) -> Result<Action, ShapeFault>
    ensures { Reads result (thread_in_of classes.now (items_view arguments.entry)) }
{
    let (name, pool, delay, json) = four(arguments)?;
    let name = text(alloc, name)?;
    let pool = text(alloc, pool)?;
    let delay = number(delay, 0, MOST_DELAY)?;
    let work = work(alloc, classes, json)?;
    Ok(Action::ThreadIn(name, pool, delay, work))
}
