ghost use Rattle.dv_document.specs.View.{view, items_view};
ghost use Rattle.dv_forms.specs.Answer.{Reads};
ghost use Rattle.dv_grammar.specs.Shape.{end_at, end_of, leave_at};

use dv_document::places::{Elements, Json};
use dv_forms::arguments::{
    class_and_message, classes_and_value, one_integer, one_path, one_text, one_value,
};
use dv_forms::leaf::{call, none};
use dv_forms::leaving::may_leave;
use dv_forms::shape_fault::ShapeFault;
use dv_forms::words::EndWord;
use dv_script::body::End;
use dv_value::boxed::Boxed;
use dv_value::classes::Classes;
use std::alloc::Global;

/// How a body ends.
#[tactic(auto, unfolding(crate::specs::Shape::end_at))]
pub fn end(alloc: Global, classes: &Classes, json: Json<'_>) -> Result<End, ShapeFault>
    ensures { Reads result (end_at classes.now (view json.entry)) }
{
    let (word, arguments) = call(json)?;
    match EndWord::named(word) {
        Some(word) => end_of(alloc, classes, word, arguments),
        None => Err(ShapeFault::BadShape),
    }
}

#[tactic(auto, unfolding(crate::specs::Shape::end_of))]
fn end_of(
    alloc: Global,
    classes: &Classes,
    word: EndWord,
    arguments: Elements<'_>,
) -> Result<End, ShapeFault>
    ensures { Reads result (end_of classes.now word (items_view arguments.entry)) }
{
    match word {
        EndWord::Return => Ok(End::Return(one_value(alloc, classes, arguments)?)),
        EndWord::Pass => {
            none(arguments)?;
            Ok(End::Pass)
        }
        EndWord::Plus => Ok(End::Plus(one_integer(arguments)?)),
        EndWord::Raise => {
            let (class, message) = class_and_message(alloc, classes, arguments)?;
            Ok(End::Raise(class, message))
        }
        EndWord::Trap => {
            let (listed, value) = classes_and_value(alloc, classes, arguments)?;
            Ok(End::Trap(listed, Boxed::new(alloc, value)?))
        }
        EndWord::Wait => Ok(End::Wait(one_text(alloc, arguments)?)),
        EndWord::Run => Ok(End::Run(one_text(alloc, arguments)?)),
        EndWord::Throw => Ok(End::Throw(one_path(alloc, arguments)?)),
    }
}

/// How an inline body ends.
#[tactic(auto, unfolding(crate::specs::Shape::leave_at))]
pub fn leave(alloc: Global, classes: &Classes, json: Json<'_>) -> Result<End, ShapeFault>
    ensures { Reads result (leave_at classes.now (view json.entry)) }
{
    let end = end(alloc, classes, json)?;
    if may_leave(&end) {
        Ok(end)
    } else {
        Err(ShapeFault::BadShape)
    }
}
