ghost use Rattle.dv_document.specs.View.{view, items_view};
ghost use Rattle.dv_forms.specs.Answer.{Reads};
ghost use Rattle.dv_grammar.specs.Shape.{expect_of, outcome_at, outcome_of};

use dv_document::places::{Elements, Json};
use dv_forms::arguments::{one_fault, one_value};
use dv_forms::leaf::{call, none, text, two};
use dv_forms::shape_fault::ShapeFault;
use dv_forms::words::OutcomeWord;
use dv_script::event::Event;
use dv_value::classes::Classes;
use dv_value::expected::Expected;
use std::alloc::Global;

/// What is expected of a Deferred.
#[tactic(auto, unfolding(crate::specs::Shape::outcome_at))]
fn outcome(alloc: Global, classes: &Classes, json: Json<'_>) -> Result<Expected, ShapeFault>
    ensures { Reads result (outcome_at classes.now (view json.entry)) }
{
    let (word, arguments) = call(json)?;
    match OutcomeWord::named(word) {
        Some(word) => outcome_of(alloc, classes, word, arguments),
        None => Err(ShapeFault::BadShape),
    }
}

#[tactic(auto, unfolding(crate::specs::Shape::outcome_of))]
fn outcome_of(
    alloc: Global,
    classes: &Classes,
    word: OutcomeWord,
    arguments: Elements<'_>,
) -> Result<Expected, ShapeFault>
    ensures { Reads result (outcome_of classes.now word (items_view arguments.entry)) }
{
    match word {
        OutcomeWord::Unfired => {
            none(arguments)?;
            Ok(Expected::Unfired)
        }
        OutcomeWord::Waiting => {
            none(arguments)?;
            Ok(Expected::Waiting)
        }
        OutcomeWord::Ok => Ok(Expected::Fired(one_value(alloc, classes, arguments)?)),
        OutcomeWord::Fail => Ok(Expected::Fired(one_fault(alloc, classes, arguments)?)),
    }
}

/// What is expected of the Deferred of a name.
#[inline(never)]
#[tactic(auto, unfolding(crate::specs::Shape::expect_of, dv_forms::specs::Parts::pair))]
pub fn expect(
    alloc: Global,
    classes: &Classes,
    arguments: Elements<'_>,
) -> Result<Event, ShapeFault>
    ensures { Reads result (expect_of classes.now (items_view arguments.entry)) }
{
    let (name, json) = two(arguments)?;
    let name = text(alloc, name)?;
    let expected = outcome(alloc, classes, json)?;
    Ok(Event::Expect(name, expected))
}
