//! The names with which the arrays of a list begin.

ghost use Rattle.std.specs.Prelude.{◌≡◌, true, false, None, Some, IfSome};
ghost use Rattle.serde_json.specs.Find.{as_str, at};
ghost use Rattle.serde_json.specs.View.{view};
ghost use Rattle.dv_why.specs.Documents.{first_text};
ghost use Rattle.dv_why.specs.Fits.{is_given};

use crate::question::is_declared;
use serde_json::Value as Json;

/// The name with which an array begins, where one of those before it begins with the same.
pub fn second_name<'j>(before: &[Json], array: &'j Json) -> Option<&'j Json>
    ensures name { IfSome result (λ name. at 0 (view array.now) ≡ Some (view name.now)) }
    ensures given { IfSome result (λ name. is_given before.now (as_str (view name.now)) ≡ true) }
    ensures none { result ≡ None → is_given before.now (first_text (view array.now)) ≡ false }
{
    let name = array.get(0usize)?;
    if is_given(before, name) {
        Some(name)
    } else {
        None
    }
}

/// Whether one of these arrays begins with this name.
fn is_given(arrays: &[Json], name: &Json) -> bool
    ensures { result ≡ is_given arrays.now (as_str (view name.now)) }
{
    match name.as_str() {
        Some(name) => is_declared(arrays, name),
        None => false,
    }
}
