//! The classes that a script declares.

ghost use Rattle.std.specs.Prelude.{◌≡◌, ◌+◌, ◌<◌, ◌≤◌, ◌^◌, ◌∷◌, [], length, None, Some, IfOk};
ghost use Rattle.std.specs.Prelude.{IfSome, OnOk};
ghost use Rattle.serde_json.specs.Find.{at};
ghost use Rattle.serde_json.specs.View.{view};
ghost use Rattle.dv_why.specs.Declaring.{MayDeclare, class_after};
ghost use Rattle.dv_why.specs.Finds.{IsTableOf, Leads};
ghost use Rattle.dv_why.specs.Places.{to_item};
ghost use Rattle.dv_forms.specs.Wants.{all_classes, one_class};
ghost use Rattle.dv_why.specs.Wrong.{IsUndeclarable};

use crate::document::version_of;
use crate::expected::Expected;
use crate::misfit::{Misfit, Step};
use dv_forms::table::first_classes;
use dv_forms::want::{Leaf, Object, Want};
use dv_script::limits::MOST_CLASSES;
use dv_value::class_fault::ClassFault;
use dv_value::classes::Classes;
use serde_json::Value as Json;
use std::alloc::{AllocError, Global};

/// The table of a script, or the first class that may not be declared, and what is expected there.
#[derive(Drop)]
pub enum Table<'j> {
    Whole(Classes),
    Wrong(Misfit<'j>, Expected),
}

/// The table of a script of this document.
#[tactic(auto, unfolding(dv_value::specs::Builtin::builtin))]
pub fn make_table(alloc: Global, json: &Json) -> Result<Table<'_>, AllocError>
    ensures { IfOk result (λ table. IsTableOf (view json.now) table) }
{
    let mut classes = first_classes(alloc, version_of(json))?;
    if let Some(declared) = json.get("classes") {
        for number in 0..MOST_CLASSES {
            if let Some((part, expected)) = declare_next(alloc, &mut classes, declared, number)? {
                return Ok(Table::Wrong(part.under(Step::Key("classes"))?, expected));
            }
        }
    }
    Ok(Table::Whole(classes))
}

/// Adds the class of this number to the table, if one may be declared, or returns which part of it
/// is wrong.
fn declare_next<'j>(
    alloc: Global,
    classes: &mut Classes,
    declared: &'j Json,
    number: usize,
) -> Result<Option<(Misfit<'j>, Expected)>, AllocError>
    requires room { length classes.old + 1 < 2 ^ 32 }
    ensures leads { IfOk result
        (λ found. IfSome found (λ part. Leads all_classes (view declared.now) part.0)) }
    ensures wrong { IfOk result
        (λ found. IfSome found (λ part. IsUndeclarable classes.old (to_item number ∷ []) part.0)) }
    ensures may { IfOk result (λ found. found ≡ None
        → MayDeclare classes.old (at number (view declared.now))) }
    ensures table { IfOk result (λ found. found ≡ None
        → classes.new ≡ class_after classes.old (at number (view declared.now))) }
    ensures grows { OnOk result (length classes.new ≤ length classes.old + 1) }
{
    let Some(json) = declared.get(number) else {
        return Ok(None);
    };
    match declare(alloc, classes, json)? {
        Some((part, expected)) => Ok(Some((part.under(Step::Item(number))?, expected))),
        None => Ok(None),
    }
}

/// Adds a class to the table, or returns which of its two parts is wrong.
fn declare<'j>(
    alloc: Global,
    classes: &mut Classes,
    json: &'j Json,
) -> Result<Option<(Misfit<'j>, Expected)>, AllocError>
    requires room { length classes.old + 1 < 2 ^ 32 }
    ensures leads { IfOk result
        (λ found. IfSome found (λ part. Leads one_class (view json.now) part.0)) }
    ensures wrong { IfOk result
        (λ found. IfSome found (λ part. IsUndeclarable classes.old [] part.0)) }
    ensures may { IfOk result (λ found. found ≡ None
        → MayDeclare classes.old (Some (view json.now))) }
    ensures table { IfOk result (λ found. found ≡ None
        → classes.new ≡ class_after classes.old (Some (view json.now))) }
    ensures grows { OnOk result (length classes.new ≤ length classes.old + 1) }
{
    let (Some(name), Some(parent)) = (json.get(0usize), json.get(1usize)) else {
        return Ok(None);
    };
    let (Some(name_text), Some(parent_text)) = (name.as_str(), parent.as_str()) else {
        return Ok(None);
    };
    match classes.declare(name_text, parent_text) {
        Ok(_) => Ok(None),
        Err(ClassFault::Taken) => {
            let misfit = Misfit::here(alloc, Want::Leaf(Leaf::New(Object::Class)), name);
            Ok(Some((misfit.under(Step::Item(0))?, Expected::FreeClass)))
        }
        Err(ClassFault::NoParent) => {
            let misfit = Misfit::here(alloc, Want::Leaf(Leaf::Text), parent);
            Ok(Some((misfit.under(Step::Item(1))?, Expected::Parent)))
        }
        Err(ClassFault::OutOfMemory) => Err(AllocError),
    }
}
