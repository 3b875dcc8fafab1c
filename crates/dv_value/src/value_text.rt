ghost use Rattle.std.specs.Prelude.{◌≡◌, ◌++◌, [], ◌∷◌, OnOk, codes, map, string_bytes};
ghost use Rattle.std.specs.Fmt.{decimal};
ghost use Rattle.std.specs.List.{list_all};
ghost use Rattle.json.specs.Print.{quoted};
ghost use Rattle.dv_value.specs.Plain.{is_plain};
ghost use Rattle.dv_value.specs.ValueText.{json, list_text, failure_json, failure_text, outcome};

use crate::classes::Classes;
use crate::failure::Failure;
use crate::text::Text;
use crate::value::Value;
use crate::writing::{write_i64, write_space, write_text, write_u32};
use json::Writer;
use std::alloc::{AllocError, Global};

/// Whether a byte of a text stands for itself in a JSON string.
fn is_plain(byte: u8) -> bool
    ensures { result ≡ is_plain byte }
{
    byte >= 32 && byte != b'"' && byte != b'\\'
}

fn are_plain(bytes: &[u8]) -> bool
    ensures { result ≡ list_all is_plain bytes.now }
{
    bytes.iter().all(|byte| is_plain(*byte))
}

/// Adds a text as it is, between quotes.
fn write_quoted(out: &mut String, text: &str) -> Result<(), AllocError>
    ensures { OnOk result
        (string_bytes out.new ≡ string_bytes out.old ++ 34 ∷ (text.now ++ 34 ∷ [])) }
{
    out.push('"')?;
    write_text(out, text)?;
    out.push('"')
}

/// Adds a text as a JSON string, between quotes, with what JSON forbids escaped and all else as it
/// is. On allocation failure, it is left open what `out` holds.
#[tactic(auto, using(crate::proofs::Quoted::one_string, crate::proofs::Quoted::plain_quoted))]
pub fn write_string(alloc: Global, out: &mut String, text: &str) -> Result<(), AllocError>
    ensures { OnOk result (string_bytes out.new ≡ string_bytes out.old ++ quoted text.now) }
{
    if are_plain(text.as_bytes()) {
        return write_quoted(out, text);
    }
    let mut writer = Writer::new(Vec::new(alloc));
    writer.string(text)?;
    match String::from_utf8(writer.into_inner()) {
        Ok(string) => write_text(out, string.as_str()),
        Err(_) => unreachable!(),
    }
}

/// Adds what stands before the message of a failure that has another inside: its place.
fn write_index(out: &mut String, index: u32) -> Result<(), AllocError>
    ensures { OnOk result (string_bytes out.new
        ≡ string_bytes out.old ++ (codes ",\"index\":" ++ decimal index ++ codes ",\"message\":")) }
{
    write_text(out, ",\"index\":")?;
    write_u32(out, index)?;
    write_text(out, ",\"message\":")
}

/// Adds the compact JSON of a failure, its keys in a fixed order. On allocation failure, `out` may
/// hold anything.
pub fn write_failure_json(
    alloc: Global,
    classes: &Classes,
    out: &mut String,
    failure: &Failure,
) -> Result<(), AllocError>
    ensures { OnOk result
        (string_bytes out.new ≡ string_bytes out.old ++ failure_json classes.now failure.now) }
{
    write_text(out, "{\"fail\":")?;
    write_string(alloc, out, classes.name(failure.class))?;
    match &failure.sub {
        None => {
            write_text(out, ",\"message\":")?;
            write_string(alloc, out, failure.message.as_str())?;
            write_text(out, "}")
        }
        Some(sub) => {
            write_index(out, sub.index)?;
            write_string(alloc, out, failure.message.as_str())?;
            write_text(out, ",\"sub\":")?;
            write_failure_json(alloc, classes, out, sub.failure.get())?;
            write_text(out, "}")
        }
    }
}

/// Adds what stands before the failure inside another: its place.
fn write_place(out: &mut String, index: u32) -> Result<(), AllocError>
    ensures { OnOk result (string_bytes out.new
        ≡ string_bytes out.old ++ (codes " at " ++ decimal index ++ codes " of ")) }
{
    write_text(out, " at ")?;
    write_u32(out, index)?;
    write_text(out, " of ")
}

/// Adds a failure as the journal shows it: its class, its message as a JSON string, and what is
/// inside. On allocation failure, it is left open what `out` holds.
pub fn write_failure(
    alloc: Global,
    classes: &Classes,
    out: &mut String,
    failure: &Failure,
) -> Result<(), AllocError>
    ensures { OnOk result
        (string_bytes out.new ≡ string_bytes out.old ++ failure_text classes.now failure.now) }
{
    write_text(out, classes.name(failure.class))?;
    write_space(out)?;
    write_string(alloc, out, failure.message.as_str())?;
    match &failure.sub {
        None => Ok(()),
        Some(sub) => {
            write_place(out, sub.index)?;
            write_failure(alloc, classes, out, sub.failure.get())?;
            Ok(())
        }
    }
}

/// Adds the compact JSON of a value, with no space. On allocation failure, it is left open what
/// `out` holds.
#[cycle(write_json)]
pub fn write_json(
    alloc: Global,
    classes: &Classes,
    out: &mut String,
    value: &Value,
) -> Result<(), AllocError>
    ensures { OnOk result
        (string_bytes out.new ≡ string_bytes out.old ++ json classes.now value.now) }
{
    match value {
        Value::Null => write_text(out, "null"),
        Value::Bool(true) => write_text(out, "true"),
        Value::Bool(false) => write_text(out, "false"),
        Value::Int(n) => write_i64(out, *n),
        Value::Text(text) => write_string(alloc, out, text.as_str()),
        Value::List(values) => {
            write_list(alloc, classes, out, values.get().as_slice())?;
            Ok(())
        }
        Value::Fault(failure) => write_failure_json(alloc, classes, out, failure.get()),
    }
}

#[cycle(write_json)]
fn write_list(
    alloc: Global,
    classes: &Classes,
    out: &mut String,
    values: &[Value],
) -> Result<(), AllocError>
    ensures { OnOk result (string_bytes out.new
        ≡ string_bytes out.old ++ list_text (map (json classes.now) values.now)) }
{
    out.push('[')?;
    let mut later = false;
    for value in values {
        if later {
            out.push(',')?;
        }
        write_json(alloc, classes, out, value)?;
        later = true;
    }
    out.push(']')?;
    Ok(())
}

/// Adds what an outcome shows of a value: `ok` and its JSON, or `fail` and its failure. On
/// allocation failure, it is left open what `out` holds.
pub fn write_outcome(
    alloc: Global,
    classes: &Classes,
    out: &mut String,
    value: &Value,
) -> Result<(), AllocError>
    ensures { OnOk result
        (string_bytes out.new ≡ string_bytes out.old ++ outcome classes.now value.now) }
{
    match value {
        Value::Null | Value::Bool(_) | Value::Int(_) | Value::Text(_) | Value::List(_) => {
            write_text(out, "ok ")?;
            write_json(alloc, classes, out, value)
        }
        Value::Fault(failure) => {
            write_text(out, "fail ")?;
            write_failure(alloc, classes, out, failure.get())
        }
    }
}

impl Value {
    ghost use Rattle.std.specs.Prelude.{IfOk};

    /// The compact JSON of the value, in memory of its own.
    pub fn json(&self, alloc: Global, classes: &Classes) -> Result<Text, AllocError>
        ensures { IfOk result (λ text. text ≡ json classes.now self.now) }
    {
        let mut out = String::new(alloc);
        write_json(alloc, classes, &mut out, self)?;
        Ok(Text::from_string(out))
    }

    /// What an outcome shows of the value, in memory of its own.
    pub fn outcome(&self, alloc: Global, classes: &Classes) -> Result<Text, AllocError>
        ensures { IfOk result (λ text. text ≡ outcome classes.now self.now) }
    {
        let mut out = String::new(alloc);
        write_outcome(alloc, classes, &mut out, self)?;
        Ok(Text::from_string(out))
    }
}
