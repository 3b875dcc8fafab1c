//! The names of the Cooperators that a script declares.

ghost use Rattle.std.specs.Prelude.{◌≡◌, ◌∷◌, [], None, IfOk, IfSome, codes};
ghost use Rattle.serde_json.specs.Find.{as_array};
ghost use Rattle.serde_json.specs.View.{view};
ghost use Rattle.dv_why.specs.Documents.{AreDistinct, CooperatorsDistinct, list_in, or_no_items};
ghost use Rattle.dv_why.specs.Documents.{script_in};
ghost use Rattle.dv_why.specs.Finds.{Leads};
ghost use Rattle.dv_why.specs.Places.{to_key};
ghost use Rattle.dv_forms.specs.Wants.{all_cooperators};
ghost use Rattle.dv_why.specs.Wrong.{IsGivenTwice};

use crate::document::version_of;
use crate::misfit::{Misfit, Step};
use crate::names::second_name;
use dv_forms::versions::COOPERATORS_SINCE;
use dv_forms::want::{Leaf, Object, Want};
use serde_json::Value as Json;
use std::alloc::{AllocError, Global};

/// The first name of a Cooperator of a document that one before it has; a script of a version before
/// the third names none.
pub fn second_cooperator(alloc: Global, json: &Json) -> Result<Option<Misfit<'_>>, AllocError>
    ensures leads { IfOk result (λ found.
        IfSome found (λ misfit. Leads (script_in (view json.now)) (view json.now) misfit)) }
    ensures wrong { IfOk result (λ found. IfSome found (λ misfit. IsGivenTwice
        (list_in (codes "cooperators") (view json.now)) (to_key (codes "cooperators") ∷ []) misfit)) }
    ensures none { IfOk result (λ found. found ≡ None → CooperatorsDistinct (view json.now)) }
{
    if version_of(json) < COOPERATORS_SINCE {
        return Ok(None);
    }
    let Some(cooperators) = json.get("cooperators") else {
        return Ok(None);
    };
    match in_cooperators(alloc, cooperators)? {
        Some(misfit) => Ok(Some(misfit.under(Step::Key("cooperators"))?)),
        None => Ok(None),
    }
}

fn in_cooperators(alloc: Global, cooperators: &Json) -> Result<Option<Misfit<'_>>, AllocError>
    ensures leads { IfOk result
        (λ found. IfSome found (λ misfit. Leads all_cooperators (view cooperators.now) misfit)) }
    ensures wrong { IfOk result (λ found.
        IfSome found
        (λ misfit. IsGivenTwice (or_no_items (as_array (view cooperators.now))) [] misfit)) }
    ensures none { IfOk result (λ found. found ≡ None
        → AreDistinct (or_no_items (as_array (view cooperators.now)))) }
{
    let Json::Array(items) = cooperators else {
        return Ok(None);
    };
    for number in 0..items.len() {
        if let Some(cooperator) = cooperators.get(number)
            && let Some(name) = second_name(&items[..number], cooperator)
        {
            let misfit = Misfit::here(alloc, Want::Leaf(Leaf::New(Object::Cooperator)), name);
            return Ok(Some(misfit.under(Step::Item(0))?.under(Step::Item(number))?));
        }
    }
    Ok(None)
}
