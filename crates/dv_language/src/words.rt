//! The words, as JSON: where each may stand, what comes with it, and since which version.

ghost use Rattle.std.specs.Prelude.{◌≡◌, ◌++◌, IfOk, OnOk, map};
ghost use Rattle.serde_json.specs.View.{view};
ghost use Rattle.dv_forms.specs.Words.{seen};
ghost use Rattle.dv_language.specs.Words.{form_data, places_data, rows_of, words_data};

use crate::wants::wants_json;
use dv_forms::want::CallKind;
use dv_forms::words::{
    ACTION_FORMS, END_FORMS, EVENT_FORMS, Form, LEAVING_FORMS, OUTCOME_FORMS, STATEMENT_FORMS,
    WORK_FORMS,
};
use serde_json::{Value as Json, json, push};
use std::alloc::{AllocError, Global};

/// The places where the words of such a place may stand.
fn places_json(alloc: Global, call: CallKind) -> Result<Json, AllocError>
    ensures { IfOk result (λ json. view json ≡ places_data call) }
{
    match call {
        CallKind::Event => json!(in alloc; ["event"]),
        CallKind::Action => json!(in alloc; ["event", "action"]),
        CallKind::Statement => json!(in alloc; ["statement"]),
        CallKind::End => json!(in alloc; ["end"]),
        CallKind::Leaving => json!(in alloc; ["end", "leaving"]),
        CallKind::Work => json!(in alloc; ["work"]),
        CallKind::Outcome => json!(in alloc; ["outcome"]),
    }
}

fn form_json<W: Copy>(alloc: Global, call: CallKind, form: &Form<W>) -> Result<Json, AllocError>
    ensures { IfOk result (λ json. view json ≡ form_data call (seen form.now)) }
{
    json!(in alloc; {
        "word": form.1,
        "where": places_json(alloc, call)?,
        "arguments": wants_json(alloc, form.2)?,
        "text": form.3,
        "since": form.4,
    })
}

/// Adds the forms of the words of a place.
fn push_forms<W: Copy>(
    alloc: Global,
    rows: &mut Vec<Json>,
    call: CallKind,
    forms: &'static [Form<W>],
) -> Result<(), AllocError>
    ensures { OnOk result (map view rows.new.items ≡ map view rows.old.items ++ map (form_data call)
        (map seen forms.now)) }
{
    for form in forms {
        push(rows, form_json(alloc, call, form)?)?;
    }
    Ok(())
}

/// Adds the words of a place.
fn push_words(alloc: Global, rows: &mut Vec<Json>, call: CallKind) -> Result<(), AllocError>
    ensures { OnOk result (map view rows.new.items ≡ map view rows.old.items ++ rows_of call) }
{
    match call {
        CallKind::Event => push_forms(alloc, rows, call, &EVENT_FORMS),
        CallKind::Action => push_forms(alloc, rows, call, &ACTION_FORMS),
        CallKind::Statement => push_forms(alloc, rows, call, &STATEMENT_FORMS),
        CallKind::Leaving => push_forms(alloc, rows, call, &LEAVING_FORMS),
        CallKind::End => push_forms(alloc, rows, call, &END_FORMS),
        CallKind::Work => push_forms(alloc, rows, call, &WORK_FORMS),
        CallKind::Outcome => push_forms(alloc, rows, call, &OUTCOME_FORMS),
    }
}

/// The words, those of each place together.
pub fn words_json(alloc: Global) -> Result<Json, AllocError>
    ensures { IfOk result (λ json. view json ≡ words_data) }
{
    let mut rows = Vec::new(alloc);
    push_words(alloc, &mut rows, CallKind::Event)?;
    push_words(alloc, &mut rows, CallKind::Action)?;
    push_words(alloc, &mut rows, CallKind::Statement)?;
    push_words(alloc, &mut rows, CallKind::Leaving)?;
    push_words(alloc, &mut rows, CallKind::End)?;
    push_words(alloc, &mut rows, CallKind::Work)?;
    push_words(alloc, &mut rows, CallKind::Outcome)?;
    Ok(Json::Array(rows))
}
