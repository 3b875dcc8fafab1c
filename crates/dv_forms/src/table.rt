ghost use Rattle.std.specs.Prelude.{◌≡◌, ◌+◌, ◌<◌, ◌^◌, [], length, Some, option_map, IfOk, OnOk};
ghost use Rattle.dv_document.specs.View.{view, items_view};
ghost use Rattle.dv_forms.specs.Answer.{Reads};
ghost use Rattle.dv_forms.specs.Parts.{declaration_at, each, list_at, field, table_for};
ghost use Rattle.dv_forms.specs.Table.{can_declare, first_classes, with_declared};

use crate::arguments::two_texts;
use crate::declaration::Declaration;
use crate::leaf::array;
use crate::shape_fault::ShapeFault;
use crate::versions::COOPERATORS_SINCE;
use dv_document::places::{Elements, Json};
use dv_script::limits::MOST_CLASSES;
use dv_value::class_fault::ClassFault;
use dv_value::classes::Classes;
use dv_value::items::Items;
use std::alloc::{AllocError, Global};

/// The classes that a script declares, which it may leave out.
pub fn declarations(alloc: Global, json: Option<Json<'_>>) -> Result<Items<Declaration>, ShapeFault>
    ensures { Reads result (field [] (list_at declaration_at)
        (option_map (λ d. view d) json.entry)) }
{
    match json {
        None => Ok(Items::new(alloc)),
        Some(json) => each_declaration(alloc, array(json)?),
    }
}

fn each_declaration(alloc: Global, items: Elements<'_>) -> Result<Items<Declaration>, ShapeFault>
    ensures { Reads result (each declaration_at (items_view items.entry)) }
{
    let mut declarations = Items::new(alloc);
    let mut rest = items;
    while let Some(item) = rest.next() {
        declarations.push(declaration(alloc, item)?)?;
    }
    Ok(declarations)
}

#[tactic(auto, unfolding(crate::specs::Parts::declaration_at))]
fn declaration(alloc: Global, json: Json<'_>) -> Result<Declaration, ShapeFault>
    ensures { Reads result (declaration_at (view json.entry)) }
{
    let (name, parent) = two_texts(alloc, array(json)?)?;
    Ok(Declaration { name, parent })
}

/// The classes that each script of this version has.
pub fn first_classes(alloc: Global, version: u32) -> Result<Classes, AllocError>
    ensures { IfOk result (λ table. table ≡ first_classes version) }
{
    if COOPERATORS_SINCE <= version {
        Classes::later_builtin(alloc)
    } else {
        Classes::builtin(alloc)
    }
}

/// The table of a script of this version that declares these classes, and whether each of them may be declared.
#[tactic(auto, unfolding(crate::specs::Parts::table_for, dv_value::specs::Builtin::builtin))]
pub fn table(
    alloc: Global,
    version: u32,
    declared: &[Declaration],
) -> Result<(Classes, bool), ShapeFault>
    ensures { Reads result (table_for version declared.now) }
{
    let mut classes = first_classes(alloc, version)?;
    if declared.len() > MOST_CLASSES {
        return Ok((classes, false));
    }
    let mut all = true;
    for declaration in declared {
        if !declare(&mut classes, declaration)? {
            all = false;
        }
    }
    Ok((classes, all))
}

/// Adds the class where it may be declared, and returns whether it may.
fn declare(classes: &mut Classes, declaration: &Declaration) -> Result<bool, ShapeFault>
    requires room { length classes.old + 1 < 2 ^ 32 }
    ensures told { Reads result (Some (can_declare classes.old declaration.now)) }
    ensures table { OnOk result (classes.new ≡ with_declared classes.old declaration.now) }
{
    match classes.declare(declaration.name.as_str(), declaration.parent.as_str()) {
        Ok(_) => Ok(true),
        Err(ClassFault::Taken | ClassFault::NoParent) => Ok(false),
        Err(ClassFault::OutOfMemory) => Err(ShapeFault::OutOfMemory),
    }
}
