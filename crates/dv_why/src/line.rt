//! What is printed about a refusal, as JSON.

ghost use Rattle.std.specs.Prelude.{◌≡◌, IfOk, string_bytes};
ghost use Rattle.serde_json.specs.View.{view};
ghost use Rattle.std.specs.Str.Lossy.{utf8_lossy};
ghost use Rattle.dv_why.specs.Why.{Shows, first_characters};

use serde_json::Value as Json;
use std::alloc::{AllocError, Global};

/// The most characters that are shown of what stands at a place.
pub const MOST_SHOWN: usize = 80;

/// The front of a text, as much as is shown.
pub fn shown(alloc: Global, text: &str) -> Result<String, AllocError>
    ensures { IfOk result (λ front. string_bytes front ≡ first_characters text.now) }
{
    text.chars().take(MOST_SHOWN).collect(alloc)
}

/// The front of bytes, as much as is shown; what is no UTF-8 is shown as U+FFFD.
pub fn shown_bytes(alloc: Global, bytes: &[u8]) -> Result<String, AllocError>
    ensures { IfOk result (λ front. string_bytes front ≡ first_characters (utf8_lossy bytes.now)) }
{
    let text = String::from_utf8_lossy(alloc, bytes)?;
    shown(alloc, text.as_str())
}

/// The front of a value's JSON text, as much as is shown.
pub fn shown_json(alloc: Global, json: &Json) -> Result<String, AllocError>
    ensures { IfOk result (λ front. Shows (string_bytes front) (view json.now)) }
{
    let text = json.to_string(alloc)?;
    shown(alloc, text.as_str())
}
