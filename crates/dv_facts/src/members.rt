//! Members of a JSON object, and items of an array, which are added at the end of a text: what
//! stands before the value, with its key, and then the value. Where an allocation fails, it is left
//! open what the text holds.

ghost use Rattle.std.specs.Prelude.{◌≡◌, ℕ, List, ◌++◌, OnOk, codes, string_bytes};
ghost use Rattle.std.specs.Fmt.{decimal};
ghost use Rattle.json.specs.Print.{quoted};
ghost use Rattle.dv_facts.specs.Parts.{Adds, bool_text, number_or_null};

use dv_value::value_text::write_string;
use dv_value::writing::{write_text, write_u64};
use std::alloc::{AllocError, Global};

/// Adds a number.
#[tactic(auto, using(crate::proofs::Added::parts))]
pub fn write_number(out: &mut String, before: &str, number: u64) -> Result<(), AllocError>
    ensures text { OnOk result
        (string_bytes out.new ≡ string_bytes out.old ++ (before.now ++ decimal number)) }
    ensures part { OnOk result (Adds (string_bytes out.old ++ before.now) (string_bytes out.new)) }
{
    write_text(out, before)?;
    write_u64(out, number)
}

/// Adds a number, or null.
#[tactic(auto, using(crate::proofs::Added::parts))]
pub fn write_number_or_null(
    out: &mut String,
    before: &str,
    number: Option<u64>,
) -> Result<(), AllocError>
    ensures text { OnOk result
        (string_bytes out.new ≡ string_bytes out.old ++ (before.now ++ number_or_null number)) }
    ensures part { OnOk result (Adds (string_bytes out.old ++ before.now) (string_bytes out.new)) }
{
    write_text(out, before)?;
    match number {
        None => write_text(out, "null"),
        Some(number) => write_u64(out, number),
    }
}

/// Adds an index, or null.
#[tactic(auto, using(crate::proofs::Added::parts))]
pub fn write_index_or_null(
    out: &mut String,
    before: &str,
    index: Option<usize>,
) -> Result<(), AllocError>
    ensures text { OnOk result
        (string_bytes out.new ≡ string_bytes out.old ++ (before.now ++ number_or_null index)) }
    ensures part { OnOk result (Adds (string_bytes out.old ++ before.now) (string_bytes out.new)) }
{
    write_text(out, before)?;
    match index {
        None => write_text(out, "null"),
        Some(index) => write_u64(out, index as u64),
    }
}

/// Adds true or false.
#[tactic(auto, using(crate::proofs::Added::parts))]
pub fn write_bool(out: &mut String, before: &str, is_true: bool) -> Result<(), AllocError>
    ensures text { OnOk result
        (string_bytes out.new ≡ string_bytes out.old ++ (before.now ++ bool_text is_true)) }
    ensures part { OnOk result (Adds (string_bytes out.old ++ before.now) (string_bytes out.new)) }
{
    write_text(out, before)?;
    write_text(out, if is_true { "true" } else { "false" })
}

/// Adds a text as a JSON string.
#[tactic(auto, using(crate::proofs::Added::parts))]
pub fn write_quoted(
    alloc: Global,
    out: &mut String,
    before: &str,
    text: &str,
) -> Result<(), AllocError>
    ensures text { OnOk result
        (string_bytes out.new ≡ string_bytes out.old ++ (before.now ++ quoted text.now)) }
    ensures part { OnOk result (Adds (string_bytes out.old ++ before.now) (string_bytes out.new)) }
{
    write_text(out, before)?;
    write_string(alloc, out, text)
}

/// Adds a text as a JSON string, or null.
#[tactic(auto, using(crate::proofs::Added::parts))]
pub fn write_quoted_or_null(
    alloc: Global,
    out: &mut String,
    before: &str,
    text: Option<&str>,
) -> Result<(), AllocError>
    ensures { OnOk result (Adds (string_bytes out.old ++ before.now) (string_bytes out.new)) }
{
    write_text(out, before)?;
    match text {
        None => write_text(out, "null"),
        Some(text) => write_string(alloc, out, text),
    }
}

/// Adds the comma before an item of an array, at this place: before the first there is none.
#[tactic(auto, using(crate::proofs::Added::parts))]
pub fn write_comma(out: &mut String, place: usize) -> Result<(), AllocError>
    ensures { OnOk result (Adds (string_bytes out.old) (string_bytes out.new)) }
{
    if place == 0 {
        Ok(())
    } else {
        write_text(out, ",")
    }
}

/// Takes the newline off, where a line ends with one.
#[tactic(auto, using(crate::proofs::Ends::without_newline))]
pub fn take_newline(line: &mut String)
    ensures { (words : List ℕ) → string_bytes line.old ≡ words ++ codes "\n"
        → string_bytes line.new ≡ words }
{
    let _ = line.pop();
}
