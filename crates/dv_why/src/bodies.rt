//! The names of the bodies that a script declares.

ghost use Rattle.std.specs.Prelude.{◌≡◌, ◌∷◌, [], None, IfOk, IfSome, codes};
ghost use Rattle.serde_json.specs.Find.{as_array};
ghost use Rattle.serde_json.specs.View.{view};
ghost use Rattle.dv_why.specs.Documents.{AreDistinct, BodiesDistinct, list_in, or_no_items};
ghost use Rattle.dv_why.specs.Documents.{script_in};
ghost use Rattle.dv_why.specs.Finds.{Leads};
ghost use Rattle.dv_why.specs.Places.{to_key};
ghost use Rattle.dv_forms.specs.Wants.{all_bodies};
ghost use Rattle.dv_why.specs.Wrong.{IsGivenTwice};

use crate::document::version_of;
use crate::misfit::{Misfit, Step};
use crate::names::second_name;
use dv_forms::versions::BODIES_SINCE;
use dv_forms::want::{Leaf, Object, Want};
use serde_json::Value as Json;
use std::alloc::{AllocError, Global};

/// The first name of a body of a document that one before it has; a script of a version before the
/// third names no bodies.
pub fn second_body(alloc: Global, json: &Json) -> Result<Option<Misfit<'_>>, AllocError>
    ensures leads { IfOk result (λ found.
        IfSome found (λ misfit. Leads (script_in (view json.now)) (view json.now) misfit)) }
    ensures wrong { IfOk result (λ found. IfSome found (λ misfit. IsGivenTwice
        (list_in (codes "bodies") (view json.now)) (to_key (codes "bodies") ∷ []) misfit)) }
    ensures none { IfOk result (λ found. found ≡ None → BodiesDistinct (view json.now)) }
{
    if version_of(json) < BODIES_SINCE {
        return Ok(None);
    }
    let Some(bodies) = json.get("bodies") else {
        return Ok(None);
    };
    match in_bodies(alloc, bodies)? {
        Some(misfit) => Ok(Some(misfit.under(Step::Key("bodies"))?)),
        None => Ok(None),
    }
}

fn in_bodies(alloc: Global, bodies: &Json) -> Result<Option<Misfit<'_>>, AllocError>
    ensures leads { IfOk result
        (λ found. IfSome found (λ misfit. Leads all_bodies (view bodies.now) misfit)) }
    ensures wrong { IfOk result (λ found.
        IfSome found
        (λ misfit. IsGivenTwice (or_no_items (as_array (view bodies.now))) [] misfit)) }
    ensures none { IfOk result (λ found. found ≡ None
        → AreDistinct (or_no_items (as_array (view bodies.now)))) }
{
    let Json::Array(items) = bodies else {
        return Ok(None);
    };
    for number in 0..items.len() {
        if let Some(body) = bodies.get(number)
            && let Some(name) = second_name(&items[..number], body)
        {
            let misfit = Misfit::here(alloc, Want::Leaf(Leaf::New(Object::Body)), name);
            return Ok(Some(misfit.under(Step::Item(0))?.under(Step::Item(number))?));
        }
    }
    Ok(None)
}
