//! The lines of the journal, as JSON: the word of each, its parts, and what it begins or ends.

ghost use Rattle.std.specs.Prelude.{◌≡◌, IfOk, map};
ghost use Rattle.serde_json.specs.Data.{array};
ghost use Rattle.serde_json.specs.View.{items_of, view};
ghost use Rattle.dv_language.specs.Lines.{kind_name, naming_name, nesting_name, part_data};
ghost use Rattle.dv_language.specs.Lines.{line_data, AreLines};

use dv_journal::form::{LineForm, Naming, Nesting, ObjectKind, PartKind};
use dv_journal::forms::line_forms;
use serde_json::{Value as Json, json, push};
use std::alloc::{AllocError, Global};

fn object_name(kind: ObjectKind) -> &'static str
    ensures { result.now ≡ kind_name kind }
{
    match kind {
        ObjectKind::Lock => "lock",
        ObjectKind::Queue => "queue",
        ObjectKind::Call => "call",
        ObjectKind::Loop => "loop",
        ObjectKind::Task => "task",
        ObjectKind::Body => "body",
        ObjectKind::Cooperator => "cooperator",
    }
}

/// Which object of its name it is.
fn naming_name(naming: Naming) -> &'static str
    ensures { result.now ≡ naming_name naming }
{
    match naming {
        Naming::Made => "made",
        Naming::Last => "last",
        Naming::Any => "any",
    }
}

fn nesting_name(nesting: Nesting) -> &'static str
    ensures { result.now ≡ nesting_name nesting }
{
    match nesting {
        Nesting::Plain => "plain",
        Nesting::Begins => "begins",
        Nesting::Ends => "ends",
        Nesting::Outer => "outer",
        Nesting::Due => "due",
        Nesting::Turn => "turn",
        Nesting::Tick => "tick",
        Nesting::Step => "step",
        Nesting::NextTick => "next tick",
        Nesting::Loop => "loop",
    }
}

fn part_json(alloc: Global, part: PartKind) -> Result<Json, AllocError>
    ensures { IfOk result (λ json. view json ≡ part_data part) }
{
    match part {
        PartKind::Object(kind, naming) => json!(in alloc; {
            "type": "object",
            "of": object_name(kind),
            "which": naming_name(naming),
        }),
        PartKind::Deferred => json!(in alloc; {"type": "deferred"}),
        PartKind::Fired => json!(in alloc; {"type": "fired"}),
        PartKind::NewName => json!(in alloc; {"type": "new name"}),
        PartKind::Name => json!(in alloc; {"type": "name"}),
        PartKind::Job => json!(in alloc; {"type": "job"}),
        PartKind::Number => json!(in alloc; {"type": "number"}),
        PartKind::Bound => json!(in alloc; {"type": "bound"}),
        PartKind::Due => json!(in alloc; {"type": "due"}),
        PartKind::Time => json!(in alloc; {"type": "time"}),
        PartKind::Outcome => json!(in alloc; {"type": "outcome"}),
        PartKind::Value => json!(in alloc; {"type": "value"}),
        PartKind::Failure => json!(in alloc; {"type": "failure"}),
        PartKind::Text => json!(in alloc; {"type": "text"}),
        PartKind::State => json!(in alloc; {"type": "state"}),
        PartKind::Expected => json!(in alloc; {"type": "expected"}),
    }
}

fn parts_json(alloc: Global, parts: &[PartKind]) -> Result<Json, AllocError>
    ensures { IfOk result (λ json. view json ≡ array (items_of (map part_data parts.now))) }
{
    let mut list = Vec::new(alloc);
    for part in parts {
        push(&mut list, part_json(alloc, *part)?)?;
    }
    Ok(Json::Array(list))
}

fn line_json(alloc: Global, form: &LineForm) -> Result<Json, AllocError>
    ensures { IfOk result (λ json. view json ≡ line_data form.now) }
{
    json!(in alloc; {
        "line": form.word,
        "parts": parts_json(alloc, form.parts)?,
        "nesting": nesting_name(form.nesting),
    })
}

fn forms_json(alloc: Global, forms: &[LineForm]) -> Result<Json, AllocError>
    ensures { IfOk result (λ json. view json ≡ array (items_of (map line_data forms.now))) }
{
    let mut rows = Vec::new(alloc);
    for form in forms {
        push(&mut rows, line_json(alloc, form)?)?;
    }
    Ok(Json::Array(rows))
}

/// The lines, in the order in which the kinds of entries are declared.
pub fn lines_json(alloc: Global) -> Result<Json, AllocError>
    ensures { IfOk result (λ json. AreLines (view json)) }
{
    forms_json(alloc, line_forms())
}
