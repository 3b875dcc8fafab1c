//! What tells an outcome of a run from others.

ghost use Rattle.std.specs.Prelude.{◌≡◌, ◌++◌, false, length, replicate, IfOk, OnOk, string_bytes};
ghost use Rattle.std.specs.List.{list_any};
ghost use Rattle.dv_survey.specs.Outcomes.{Marks, outcome_text, place_if};

use dv_value::writing::{write_space, write_u64};
use std::alloc::{AllocError, Global};

/// Returns the text of an outcome: the places of its lines that are below `len`, in order and each
/// once, whichever Deferred was made first.
pub fn outcome_text(alloc: Global, places: &[usize], len: usize) -> Result<String, AllocError>
    ensures { IfOk result (λ text. string_bytes text ≡ outcome_text places.now len) }
{
    let marks = marks_of(alloc, places, len)?;
    let mut out = String::new(alloc);
    for place in 0..len {
        write_place_if(&mut out, marks[place], place)?;
    }
    Ok(out)
}

fn write_place_if(out: &mut String, is_marked: bool, place: usize) -> Result<(), AllocError>
    ensures { OnOk result
        (string_bytes out.new ≡ string_bytes out.old ++ place_if is_marked place) }
{
    if is_marked {
        write_u64(out, place as u64)?;
        write_space(out)
    } else {
        Ok(())
    }
}

/// Marks each place below `len` that is one of these.
#[tactic(auto, using(crate::proofs::OutcomesLemmas::marking))]
fn marks_of(alloc: Global, places: &[usize], len: usize) -> Result<Vec<bool>, AllocError>
    ensures { IfOk result (λ marks. Marks marks.items places.now len) }
{
    let mut marks = falses(alloc, len)?;
    for place in places {
        if *place < len {
            marks[*place] = true;
        }
    }
    Ok(marks)
}

fn falses(alloc: Global, len: usize) -> Result<Vec<bool>, AllocError>
    ensures { IfOk result (λ falses. falses.items ≡ replicate len false) }
{
    let mut falses = Vec::with_capacity(alloc, len)?;
    for _ in 0..len {
        falses.push_reserved(false);
    }
    Ok(falses)
}
