//! The names of the pools that a script declares.

ghost use Rattle.std.specs.Prelude.{◌≡◌, ◌∷◌, [], None, IfOk, IfSome, codes};
ghost use Rattle.serde_json.specs.Find.{as_array};
ghost use Rattle.serde_json.specs.View.{view};
ghost use Rattle.dv_why.specs.Documents.{AreDistinct, PoolsDistinct, list_in, or_no_items};
ghost use Rattle.dv_why.specs.Documents.{script_in};
ghost use Rattle.dv_why.specs.Finds.{Leads};
ghost use Rattle.dv_why.specs.Places.{to_key};
ghost use Rattle.dv_forms.specs.Wants.{all_pools};
ghost use Rattle.dv_why.specs.Wrong.{IsGivenTwice};

use crate::document::version_of;
use crate::misfit::{Misfit, Step};
use crate::names::second_name;
use dv_forms::want::{Leaf, Object, Want};
use serde_json::Value as Json;
use std::alloc::{AllocError, Global};

/// The first name of a pool of a document that one before it has; a script of version 1 has no
/// pools.
pub fn second_pool(alloc: Global, json: &Json) -> Result<Option<Misfit<'_>>, AllocError>
    ensures leads { IfOk result (λ found.
        IfSome found (λ misfit. Leads (script_in (view json.now)) (view json.now) misfit)) }
    ensures wrong { IfOk result (λ found. IfSome found (λ misfit. IsGivenTwice
        (list_in (codes "pools") (view json.now)) (to_key (codes "pools") ∷ []) misfit)) }
    ensures none { IfOk result (λ found. found ≡ None → PoolsDistinct (view json.now)) }
{
    if version_of(json) == 1 {
        return Ok(None);
    }
    let Some(pools) = json.get("pools") else {
        return Ok(None);
    };
    match in_pools(alloc, pools)? {
        Some(misfit) => Ok(Some(misfit.under(Step::Key("pools"))?)),
        None => Ok(None),
    }
}

fn in_pools(alloc: Global, pools: &Json) -> Result<Option<Misfit<'_>>, AllocError>
    ensures leads { IfOk result
        (λ found. IfSome found (λ misfit. Leads all_pools (view pools.now) misfit)) }
    ensures wrong { IfOk result (λ found.
        IfSome found (λ misfit. IsGivenTwice (or_no_items (as_array (view pools.now))) [] misfit)) }
    ensures none { IfOk result (λ found. found ≡ None
        → AreDistinct (or_no_items (as_array (view pools.now)))) }
{
    let Json::Array(items) = pools else {
        return Ok(None);
    };
    for number in 0..items.len() {
        if let Some(pool) = pools.get(number)
            && let Some(name) = second_name(&items[..number], pool)
        {
            let misfit = Misfit::here(alloc, Want::Leaf(Leaf::New(Object::Pool)), name);
            return Ok(Some(misfit.under(Step::Item(0))?.under(Step::Item(number))?));
        }
    }
    Ok(None)
}
