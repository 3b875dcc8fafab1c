ghost use Rattle.dv_document.specs.View.{view, items_view};
ghost use Rattle.dv_forms.specs.Answer.{Reads};
ghost use Rattle.dv_forms.specs.Parts.{class_at, list_at, pair, triple, each};
ghost use Rattle.dv_grammar.specs.Shape.{action_at, statement_at, statement_of};

use crate::reading::action::action;
use crate::reading::end::leave;
use dv_document::places::{Elements, Json};
use dv_forms::arguments::one_text;
use dv_forms::leaf::{array, call, classes_in, none, one, three, two};
use dv_forms::shape_fault::ShapeFault;
use dv_forms::words::StatementWord;
use dv_script::body::Statement;
use dv_value::class_id::ClassId;
use dv_value::classes::Classes;
use dv_value::items::Items;
use std::alloc::Global;

/// A statement, in which bodies and statements nest to `levels`, itself among them.
#[cycle(shape)]
#[tactic(auto, unfolding(crate::specs::Shape::readers, crate::specs::Shape::statement_by))]
pub fn statement(
    alloc: Global,
    classes: &Classes,
    levels: u32,
    json: Json<'_>,
) -> Result<Statement, ShapeFault>
    ensures { Reads result (statement_at classes.now levels (view json.entry)) }
{
    if levels == 0 {
        return Err(ShapeFault::BadShape);
    }
    let (word, arguments) = call(json)?;
    match StatementWord::named(word) {
        Some(word) => statement_of(alloc, classes, levels - 1, word, arguments),
        None => Err(ShapeFault::BadShape),
    }
}

#[cycle(shape)]
#[tactic(auto, unfolding(crate::specs::Shape::statement_of, dv_forms::specs::Parts::sole))]
fn statement_of(
    alloc: Global,
    classes: &Classes,
    levels: u32,
    word: StatementWord,
    arguments: Elements<'_>,
) -> Result<Statement, ShapeFault>
    ensures { Reads result (statement_of classes.now (action_at classes.now levels)
        (statement_at classes.now levels) word (items_view arguments.entry)) }
{
    match word {
        StatementWord::Do => Ok(Statement::Do(action(alloc, classes, levels, one(arguments)?)?)),
        StatementWord::Await => Ok(Statement::Await(one_text(alloc, arguments)?)),
        StatementWord::Try => {
            let (body, listed, handler) = tried(alloc, classes, levels, arguments)?;
            Ok(Statement::Try(body, listed, handler))
        }
        StatementWord::Finally => {
            let (body, last) = finished(alloc, classes, levels, arguments)?;
            Ok(Statement::Finally(body, last))
        }
        StatementWord::Raise => {
            none(arguments)?;
            Ok(Statement::Raise)
        }
        StatementWord::Caught => {
            none(arguments)?;
            Ok(Statement::Caught)
        }
        StatementWord::End => Ok(Statement::End(leave(alloc, classes, one(arguments)?)?)),
    }
}

/// What is tried, the classes that are caught, and what then runs.
#[cycle(shape)]
#[tactic(auto, unfolding(dv_forms::specs::Parts::triple))]
fn tried(
    alloc: Global,
    classes: &Classes,
    levels: u32,
    arguments: Elements<'_>,
) -> Result<(Items<Statement>, Items<ClassId>, Items<Statement>), ShapeFault>
    ensures { Reads result (triple (list_at (statement_at classes.now levels))
        (list_at (class_at classes.now)) (list_at (statement_at classes.now levels))
        (items_view arguments.entry)) }
{
    let (body, names, handler) = three(arguments)?;
    let body = statements(alloc, classes, levels, array(body)?)?;
    let listed = classes_in(alloc, classes, names)?;
    let handler = statements(alloc, classes, levels, array(handler)?)?;
    Ok((body, listed, handler))
}

/// What runs first, and what runs then, however the first ends.
#[cycle(shape)]
#[tactic(auto, unfolding(dv_forms::specs::Parts::pair))]
fn finished(
    alloc: Global,
    classes: &Classes,
    levels: u32,
    arguments: Elements<'_>,
) -> Result<(Items<Statement>, Items<Statement>), ShapeFault>
    ensures { Reads result (pair (list_at (statement_at classes.now levels))
        (list_at (statement_at classes.now levels)) (items_view arguments.entry)) }
{
    let (body, last) = two(arguments)?;
    let body = statements(alloc, classes, levels, array(body)?)?;
    let last = statements(alloc, classes, levels, array(last)?)?;
    Ok((body, last))
}

/// The items of an array of statements.
#[cycle(shape)]
pub fn statements(
    alloc: Global,
    classes: &Classes,
    levels: u32,
    items: Elements<'_>,
) -> Result<Items<Statement>, ShapeFault>
    ensures { Reads result (each (statement_at classes.now levels) (items_view items.entry)) }
{
    let mut statements = Items::with_capacity(alloc, items.len())?;
    let mut rest = items;
    while let Some(item) = rest.next() {
        statements.push(statement(alloc, classes, levels, item)?)?;
    }
    Ok(statements)
}
