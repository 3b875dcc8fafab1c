//! Documents as a whole.

ghost use Rattle.std.specs.Prelude.{◌≡◌, [], IfOk};
ghost use Rattle.serde_json.specs.Find.{get};
ghost use Rattle.serde_json.specs.View.{view};
ghost use Rattle.dv_why.specs.Documents.{or_last, version_in, script_in};
ghost use Rattle.dv_why.specs.Places.{path_of, path_to};
ghost use Rattle.dv_why.specs.Finds.{Leads};

use crate::misfit::{Misfit, Step};
use dv_forms::versions::LAST_VERSION;
use dv_forms::want::{Keyed, Want};
use serde_json::Value as Json;
use std::alloc::{AllocError, Global};

/// A version of the language, or the last where it is anything else.
fn or_last(version: Option<u64>) -> u32
    ensures { result ≡ or_last version }
{
    match version {
        Some(n) => if 1 <= n && n <= u64::from(LAST_VERSION) {
            n as u32
        } else {
            LAST_VERSION
        },
        None => LAST_VERSION,
    }
}

/// The version that a document says, or the last where it says none.
pub fn version_of(json: &Json) -> u32
    ensures { result ≡ version_in (view json.now) }
{
    match json.get("version") {
        Some(version) => or_last(version.as_u64()),
        None => LAST_VERSION,
    }
}

/// What is asked of a document as a whole.
pub fn script_of(json: &Json) -> Want
    ensures { result ≡ script_in (view json.now) }
{
    Want::Keyed(Keyed::Script(version_of(json)))
}

/// The document itself, as what is wrong.
pub fn whole(alloc: Global, json: &Json) -> Misfit<'_>
    ensures leads { Leads (script_in (view json.now)) (view json.now) result }
    ensures steps { result.steps.items ≡ [] }
{
    Misfit::here(alloc, script_of(json), json)
}

/// The value of a key of the document, as what is wrong, or the document where there is none.
pub fn value_of<'j>(
    alloc: Global,
    json: &'j Json,
    key: &'static str,
) -> Result<Misfit<'j>, AllocError>
    ensures leads { IfOk result (λ misfit. Leads (script_in (view json.now))
        (view json.now) misfit) }
    ensures path { IfOk result
        (λ misfit. path_of misfit.steps.items ≡ path_to key.now (get key.now (view json.now))) }
{
    match json.get(key) {
        Some(value) => {
            let want = Keyed::Script(version_of(json)).want(key);
            Misfit::here(alloc, want, value).under(Step::Key(key))
        }
        None => Ok(whole(alloc, json)),
    }
}
