//! Finds the first part of a JSON value that answers a question badly.

ghost use Rattle.std.specs.Prelude.{◌≡◌, ◌≢◌, ◌≤◌, ◌+◌, ◌-◌, true, None, Some, IfOk, IfSome};
ghost use Rattle.std.specs.Prelude.{option_and_then, option_map};
ghost use Rattle.serde_json.specs.Data.{Data, depth};
ghost use Rattle.serde_json.specs.Find.{at, get};
ghost use Rattle.serde_json.specs.View.{view, members_view};
ghost use Rattle.dv_why.specs.AllSuit.{AllSuit, ItemsSuit, KnownSuit, OthersOf, OthersSuit};
ghost use Rattle.dv_why.specs.Finds.{Finds};
ghost use Rattle.dv_why.specs.Fits.{first_other, is_other, suits};
ghost use Rattle.dv_why.specs.Places.{argument_want, call_want, nth, part_want};
ghost use Rattle.dv_forms.specs.Wants.{key_want, member_want, want_for};

use crate::misfit::{Misfit, Step};
use crate::question::{Question, suits};
use crate::tree::{call_in, member_want, want_for};
use dv_forms::want::{CallKind, Keyed, Want};
use dv_forms::words::wants_of;
use serde_json::{Map, Value as Json};
use std::alloc::{AllocError, Global};

#[tactic(auto, using(crate::proofs::Counting::nth_within, crate::proofs::Counting::nth_past))]
fn nth(wants: &[Want], number: usize) -> Option<Want>
    ensures { result ≡ nth wants.now number }
{
    if number < wants.len() {
        Some(wants[number])
    } else {
        None
    }
}

/// What the place of this argument of a call asks for, by the form of its word.
#[tactic(auto, using(crate::proofs::Counting::count_items))]
fn argument_of(call: CallKind, json: &Json, number: usize) -> Option<Want>
    ensures { result ≡ argument_want call (view json.now) number }
{
    let (word, arguments) = call_in(json)?;
    let wants = wants_of(call, word, arguments.len())?;
    nth(wants, number)
}

/// What the place of this part of a call asks for: first its word.
fn part_of_call(call: CallKind, json: &Json, number: usize) -> Option<Want>
    ensures { result ≡ call_want call (view json.now) number }
{
    if number == 0 {
        Some(Want::Word(call))
    } else {
        argument_at(call, json, number)
    }
}

/// What the place of this part of a call asks for, which isn't its word, where this stands there.
fn argument_at(call: CallKind, json: &Json, number: usize) -> Option<Want>
    requires argument { number ≢ 0 }
    ensures { result ≡ option_and_then (λ w. option_map (want_for w) (at number (view json.now)))
        (argument_want call (view json.now) (number - 1)) }
{
    let want = argument_of(call, json, number - 1)?;
    let argument = json.get(number)?;
    Some(want_for(want, argument))
}

/// What the place of this member of an array of a value asks for.
fn part_of_value(json: &Json, number: usize) -> Option<Want>
    ensures { result ≡ option_map member_want (at number (view json.now)) }
{
    let member = json.get(number)?;
    Some(member_want(member))
}

/// What the place of this item of an array asks for, by what the array's place does.
fn part_of(want: Want, json: &Json, number: usize) -> Option<Want>
    ensures { result ≡ part_want want (view json.now) number }
{
    match want {
        Want::Value => part_of_value(json, number),
        Want::Call(call) => part_of_call(call, json, number),
        Want::Pair(pair) => nth(pair.wants(), number),
        Want::Array(item) => Some(item.want()),
        Want::Leaf(_) | Want::Keyed(_) | Want::Word(_) | Want::Other(_) => None,
    }
}

/// Whether an object is looked at before its keys: one that is no failure has any keys.
fn goes_first(want: Want) -> bool {
    match want {
        Want::Keyed(keyed) => matches!(keyed, Keyed::Failure),
        Want::Leaf(_)
        | Want::Value
        | Want::Call(_)
        | Want::Pair(_)
        | Want::Array(_)
        | Want::Word(_)
        | Want::Other(_) => false,
    }
}

/// The first part of the value that isn't as its place asks for, as far as the question goes.
#[cycle(find)]
pub fn find<'j>(
    alloc: Global,
    question: Question<'_>,
    want: Want,
    levels: u32,
    json: &'j Json,
) -> Result<Option<Misfit<'j>>, AllocError>
    ensures found { IfOk result
        (λ found. IfSome found (λ misfit. Finds question.entry want (view json.now) misfit)) }
    ensures none { IfOk result (λ found. found ≡ None → depth (view json.now) ≤ levels
        → AllSuit question.entry want (view json.now)) }
{
    if goes_first(want) && !suits(question, want, json) {
        return Ok(Some(Misfit::here(alloc, want, json)));
    }
    if let Some(misfit) = other_key(alloc, question, want, levels, json)? {
        return Ok(Some(misfit));
    }
    if !suits(question, want, json) {
        return Ok(Some(Misfit::here(alloc, want, json)));
    }
    in_parts(alloc, question, want, levels, json)
}

/// The value of the first key that may not be there, where an object is asked for.
#[cycle(find)]
fn other_key<'j>(
    alloc: Global,
    question: Question<'_>,
    want: Want,
    levels: u32,
    json: &'j Json,
) -> Result<Option<Misfit<'j>>, AllocError>
    ensures found { IfOk result
        (λ found. IfSome found (λ misfit. Finds question.entry want (view json.now) misfit)) }
    ensures none { IfOk result (λ found. found ≡ None → depth (view json.now) ≤ levels
        → OthersOf question.entry want (view json.now)) }
{
    if levels == 0 {
        return Ok(None);
    }
    match want {
        Want::Keyed(keyed) => at_other_key(alloc, question, keyed, levels - 1, json),
        Want::Leaf(_)
        | Want::Value
        | Want::Call(_)
        | Want::Pair(_)
        | Want::Array(_)
        | Want::Word(_)
        | Want::Other(_) => Ok(None),
    }
}

/// The first such part of a value that is itself as its place asks for.
#[cycle(find)]
fn in_parts<'j>(
    alloc: Global,
    question: Question<'_>,
    want: Want,
    levels: u32,
    json: &'j Json,
) -> Result<Option<Misfit<'j>>, AllocError>
    requires { suits question want (view json.now) ≡ true }
    ensures found { IfOk result
        (λ found. IfSome found (λ misfit. Finds question.entry want (view json.now) misfit)) }
    ensures none { IfOk result (λ found. found ≡ None → depth (view json.now) ≤ levels → OthersOf
        question.entry want (view json.now) → AllSuit question.entry want (view json.now)) }
{
    if levels == 0 {
        return Ok(None);
    }
    match want {
        Want::Keyed(keyed) => in_object(alloc, question, keyed, levels - 1, json),
        Want::Value | Want::Call(_) | Want::Pair(_) | Want::Array(_) => {
            in_array(alloc, question, want, levels - 1, json)
        }
        Want::Leaf(_) | Want::Word(_) | Want::Other(_) => Ok(None),
    }
}

#[cycle(find)]
fn in_array<'j>(
    alloc: Global,
    question: Question<'_>,
    want: Want,
    levels: u32,
    json: &'j Json,
) -> Result<Option<Misfit<'j>>, AllocError>
    ensures found { IfOk result
        (λ found. IfSome found (λ misfit. Finds question.entry want (view json.now) misfit)) }
    ensures none { IfOk result (λ found. found ≡ None → depth (view json.now) ≤ levels + 1
        → ItemsSuit question.entry want (view json.now)) }
{
    let Json::Array(items) = json else {
        return Ok(None);
    };
    for number in 0..items.len() {
        if let Some(misfit) = in_item(alloc, question, want, levels, json, number)? {
            return Ok(Some(misfit));
        }
    }
    Ok(None)
}

#[cycle(find)]
fn in_item<'j>(
    alloc: Global,
    question: Question<'_>,
    want: Want,
    levels: u32,
    json: &'j Json,
    number: usize,
) -> Result<Option<Misfit<'j>>, AllocError>
    ensures found { IfOk result
        (λ found. IfSome found (λ misfit. Finds question.entry want (view json.now) misfit)) }
    ensures none { IfOk result (λ found. found ≡ None → depth (view json.now) ≤ levels + 1
        → (v : Want) (e : Data) → part_want want (view json.now) number ≡ Some v
        → at number (view json.now) ≡ Some e → AllSuit question.entry v e) }
{
    let (Some(part), Some(item)) = (part_of(want, json, number), json.get(number)) else {
        return Ok(None);
    };
    match find(alloc, question, part, levels, item)? {
        Some(misfit) => Ok(Some(misfit.under(Step::Item(number))?)),
        None => Ok(None),
    }
}

#[cycle(find)]
fn in_object<'j>(
    alloc: Global,
    question: Question<'_>,
    keyed: Keyed,
    levels: u32,
    json: &'j Json,
) -> Result<Option<Misfit<'j>>, AllocError>
    ensures found { IfOk result (λ found.
        IfSome found (λ misfit. Finds question.entry (Want.Keyed keyed) (view json.now) misfit)) }
    ensures none { IfOk result (λ found. found ≡ None → depth (view json.now) ≤ levels + 1
        → KnownSuit question.entry keyed (view json.now)) }
{
    for key in keyed.keys() {
        if let Some(misfit) = in_key(alloc, question, keyed, levels, json, *key)? {
            return Ok(Some(misfit));
        }
    }
    Ok(None)
}

/// The value of the first key that the object may not have.
#[cycle(find)]
fn at_other_key<'j>(
    alloc: Global,
    question: Question<'_>,
    keyed: Keyed,
    levels: u32,
    json: &'j Json,
) -> Result<Option<Misfit<'j>>, AllocError>
    ensures found { IfOk result (λ found.
        IfSome found (λ misfit. Finds question.entry (Want.Keyed keyed) (view json.now) misfit)) }
    ensures none { IfOk result (λ found. found ≡ None → depth (view json.now) ≤ levels + 1
        → OthersSuit question.entry keyed (view json.now)) }
{
    let Json::Object(members) = json else {
        return Ok(None);
    };
    match first_other(keyed, members) {
        Some(key) => in_key(alloc, question, keyed, levels, json, key),
        None => Ok(None),
    }
}

/// The first key that an object may not have.
fn first_other(keyed: Keyed, members: &Map<String, Json>) -> Option<&str>
    ensures { option_map (λ key. key.now) result
        ≡ first_other keyed (members_view members.now.entries) }
{
    for (key, _) in members.iter() {
        if is_other(keyed, key.as_str()) {
            return Some(key.as_str());
        }
    }
    None
}

/// Whether an object may not have this key.
fn is_other(keyed: Keyed, key: &str) -> bool
    ensures { result ≡ is_other (key_want keyed key.now) }
{
    matches!(keyed.want(key), Want::Other(_))
}

#[cycle(find)]
fn in_key<'j>(
    alloc: Global,
    question: Question<'_>,
    keyed: Keyed,
    levels: u32,
    json: &'j Json,
    key: &'j str,
) -> Result<Option<Misfit<'j>>, AllocError>
    ensures found { IfOk result (λ found.
        IfSome found (λ misfit. Finds question.entry (Want.Keyed keyed) (view json.now) misfit)) }
    ensures none { IfOk result (λ found. found ≡ None → depth (view json.now) ≤ levels + 1
        → (e : Data) → get key.now (view json.now) ≡ Some e
        → AllSuit question.entry (key_want keyed key.now) e) }
{
    let Some(value) = json.get(key) else {
        return Ok(None);
    };
    match find(alloc, question, keyed.want(key), levels, value)? {
        Some(misfit) => Ok(Some(misfit.under(Step::Key(key))?)),
        None => Ok(None),
    }
}
