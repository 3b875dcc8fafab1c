//! Places in JSON, as JSON Pointers (RFC 6901).

ghost use Rattle.std.specs.Prelude.{◌≡◌, ◌++◌, ◌∷◌, Some, IfOk, string_bytes};
ghost use Rattle.serde_json.specs.Data.{Data};
ghost use Rattle.serde_json.specs.Find.{pointer};
ghost use Rattle.dv_why.specs.Places.{at_place};
ghost use Rattle.dv_why.specs.Pointers.{escaped_key, escaped_letter, part_text, pointer_text};
ghost use Rattle.dv_why.specs.Pointers.{HasIndex};

use crate::misfit::Step;
use std::alloc::{AllocError, Global};

/// Adds a letter of a key, with `~0` in place of `~` and `~1` in place of `/`.
fn write_letter(pointer: &mut String, letter: char) -> Result<(), AllocError>
    ensures { IfOk result
        (λ _. string_bytes pointer.new ≡ string_bytes pointer.old ++ escaped_letter letter) }
{
    match letter {
        '~' => pointer.push_str("~0"),
        '/' => pointer.push_str("~1"),
        other => pointer.push(other),
    }
}

/// Adds a key.
fn write_key(pointer: &mut String, key: &str) -> Result<(), AllocError>
    ensures { IfOk result
        (λ _. string_bytes pointer.new ≡ string_bytes pointer.old ++ escaped_key key.now) }
{
    for letter in key.chars() {
        write_letter(pointer, letter)?;
    }
    Ok(())
}

fn write_step(pointer: &mut String, step: Step<'_>) -> Result<(), AllocError>
    ensures text { IfOk result
        (λ _. string_bytes pointer.new ≡ string_bytes pointer.old ++ (47 ∷ part_text step.entry)) }
    ensures index { IfOk result (λ _. HasIndex step.entry) }
{
    pointer.push('/')?;
    match step {
        Step::Item(number) => write!(pointer, "{number}"),
        Step::Key(key) => write_key(pointer, key),
    }
}

/// The pointer of these steps, the first from the whole.
pub fn pointer_of(alloc: Global, steps: &[Step<'_>]) -> Result<String, AllocError>
    ensures text { IfOk result (λ text. string_bytes text ≡ pointer_text steps.now) }
    ensures leads { IfOk result (λ text. (d part : Data) → at_place steps.now d ≡ Some part
        → pointer (string_bytes text) d ≡ Some part) }
{
    let mut pointer = String::new(alloc);
    for step in steps {
        write_step(&mut pointer, *step)?;
    }
    Ok(pointer)
}
