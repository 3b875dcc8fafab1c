//! Asks a question of each text and each object of a JSON value, by the table of words.

ghost use Rattle.std.specs.Prelude.{◌≡◌, true};
ghost use Rattle.dv_document.specs.View.{view, items_view};
ghost use Rattle.serde_json.specs.Find.{as_array, as_str, get};
ghost use Rattle.dv_forms.specs.Wants.{want_for, key_want, keys_in, member_want};
ghost use Rattle.dv_questions.specs.Asking.{all_suit, call_suits, each_item, each_member};
ghost use Rattle.dv_forms.specs.declared.want.Want.TheVariants.{Keyed as in_want};
ghost use Rattle.dv_questions.specs.Asking.{if_there, in_parts, is_scalar, keys_suit, name_suits};
ghost use Rattle.dv_questions.specs.Asking.{one_for_one, word_suits};
ghost use Rattle.dv_questions.specs.Questions.{asked_by};

use crate::question::Question;
use dv_document::places::{Elements, Json};
use dv_document::value::Kind;
use dv_forms::want::{CallKind, Keyed, Leaf, Object, Want, member_want, want_for};
use dv_forms::words::form_of;

fn leaf_suits(question: &Question<'_>, leaf: Leaf, json: Json<'_>) -> bool
    ensures { result ≡ if_there ((asked_by question.now).of_leaf leaf) (as_str (view json.entry)) }
{
    match json.as_str() {
        Some(name) => question.of_leaf(leaf, name),
        None => true,
    }
}

fn first_suits(question: &Question<'_>, call: CallKind, json: Json<'_>) -> bool
    ensures { result ≡ if_there ((asked_by question.now).of_word call) (as_str (view json.entry)) }
{
    match json.as_str() {
        Some(word) => question.of_word(call, word),
        None => true,
    }
}

/// Whether a text at the place of an object answers well: it may name a body.
fn name_suits(question: &Question<'_>, keyed: Keyed, name: &str) -> bool
    ensures { result ≡ name_suits (asked_by question.now) keyed name.now }
{
    match keyed {
        Keyed::Script(_) | Keyed::Cooperator(_) | Keyed::Failure => true,
        Keyed::Body(_) => question.of_leaf(Leaf::Found(Object::Body), name),
    }
}

fn object_suits(question: &Question<'_>, keyed: Keyed, json: Json<'_>) -> bool
    ensures { result ≡ if_there (name_suits (asked_by question.now) keyed)
        (as_str (view json.entry)) }
{
    match json.as_str() {
        Some(name) => name_suits(question, keyed, name),
        None => true,
    }
}

/// Whether each text and each object of the value answers the question well, at a place that asks
/// for this. Below so many levels nothing is asked.
#[cycle(ask)]
#[tactic(auto, unfolding(crate::specs::Asking::all_suit))]
pub fn all_suit(question: &Question<'_>, levels: u32, want: Want, json: Json<'_>) -> bool
    ensures { result ≡ all_suit (asked_by question.now) levels want (view json.entry) }
{
    if levels == 0 {
        return true;
    }
    match want {
        Want::Leaf(leaf) => leaf_suits(question, leaf, json),
        Want::Other(_) => true,
        Want::Call(call) => match json.as_array() {
            Some(parts) => call_suits(question, levels - 1, call, parts),
            None => true,
        },
        Want::Pair(pair) => match json.as_array() {
            Some(parts) => one_for_one(question, levels - 1, pair.wants(), parts),
            None => true,
        },
        Want::Keyed(keyed) => keyed_suits(question, levels - 1, keyed, json),
        Want::Array(item) => match json.as_array() {
            Some(items) => each_item(question, levels - 1, item.want(), items),
            None => true,
        },
        Want::Word(call) => first_suits(question, call, json),
        Want::Value => match json.as_array() {
            Some(items) => each_member(question, levels - 1, items),
            None => true,
        },
    }
}

#[cycle(ask)]
fn keyed_suits(question: &Question<'_>, levels: u32, keyed: Keyed, json: Json<'_>) -> bool
    ensures { result ≡ in_parts (asked_by question.now) (all_suit (asked_by question.now) levels)
        (in_want keyed) (view json.entry) }
{
    question.of_object(keyed)
        && (object_suits(question, keyed, json) && keys_suit(question, levels, keyed, json))
}

fn is_scalar(json: Json<'_>) -> bool
    ensures { result ≡ is_scalar (view json.entry) }
{
    match json.kind() {
        Kind::Null | Kind::Bool(_) | Kind::Number(_) | Kind::String(_) => true,
        Kind::Array(_) | Kind::Object(_) => false,
    }
}

/// The same of a member of an array of a value: what is neither an array nor an object has no text
/// that is asked of.
#[cycle(ask)]
#[tactic(auto, using(crate::proofs::Members::scalar_suits))]
fn member_suits(question: &Question<'_>, levels: u32, json: Json<'_>) -> bool
    ensures { result
        ≡ all_suit (asked_by question.now) levels (member_want (view json.entry))
        (view json.entry) }
{
    if is_scalar(json) {
        return true;
    }
    all_suit(question, levels, member_want(json), json)
}

#[cycle(ask)]
fn each_member(question: &Question<'_>, levels: u32, items: Elements<'_>) -> bool
    ensures { result
        ≡ each_member (all_suit (asked_by question.now) levels) (items_view items.entry) }
{
    let mut rest = items;
    while let Some(item) = rest.next() {
        if !member_suits(question, levels, item) {
            return false;
        }
    }
    true
}

#[cycle(ask)]
fn each_item(question: &Question<'_>, levels: u32, want: Want, items: Elements<'_>) -> bool
    ensures { result ≡ each_item (all_suit (asked_by question.now) levels want)
        (items_view items.entry) }
{
    let mut rest = items;
    while let Some(item) = rest.next() {
        if !all_suit(question, levels, want, item) {
            return false;
        }
    }
    true
}

/// The same of an argument: most are leaves, which are asked without a call.
#[cycle(ask)]
#[tactic(auto, unfolding(crate::specs::Asking::all_suit))]
fn argument_suits(question: &Question<'_>, levels: u32, want: Want, json: Json<'_>) -> bool
    ensures { result ≡ all_suit (asked_by question.now) levels
        (want_for want (view json.entry)) (view json.entry) }
{
    if levels == 0 {
        return true;
    }
    match want {
        Want::Leaf(leaf) => leaf_suits(question, leaf, json),
        Want::Other(_) => true,
        Want::Array(_) => all_suit(question, levels, want_for(want, json), json),
        Want::Call(_) | Want::Pair(_) | Want::Keyed(_) | Want::Word(_) | Want::Value => {
            all_suit(question, levels, want, json)
        }
    }
}

#[cycle(ask)]
fn one_for_one(question: &Question<'_>, levels: u32, wants: &[Want], items: Elements<'_>) -> bool
    ensures { result
        ≡ one_for_one (all_suit (asked_by question.now) levels) wants.now (items_view items.entry) }
{
    let mut rest = items;
    for want in wants {
        let Some((item, after)) = rest.split_first() else {
            return true;
        };
        if !argument_suits(question, levels, *want, item) {
            return false;
        }
        rest = after;
    }
    true
}

#[cycle(ask)]
fn call_suits(question: &Question<'_>, levels: u32, call: CallKind, parts: Elements<'_>) -> bool
    ensures { result ≡ call_suits (asked_by question.now)
        (all_suit (asked_by question.now) levels) call (items_view parts.entry) }
{
    let Some((first, arguments)) = parts.split_first() else {
        return true;
    };
    match first.as_str() {
        Some(word) => word_suits(question, levels, call, word, arguments),
        None => true,
    }
}

#[cycle(ask)]
fn word_suits(
    question: &Question<'_>,
    levels: u32,
    call: CallKind,
    word: &str,
    arguments: Elements<'_>,
) -> bool
    ensures { result ≡ word_suits (asked_by question.now)
        (all_suit (asked_by question.now) levels) call (items_view arguments.entry) word.now }
{
    match form_of(call, word, arguments.len()) {
        Some((wants, since)) => {
            question.of_word_since(call, word, since)
                && one_for_one(question, levels, wants, arguments)
        }
        None => question.of_word(call, word),
    }
}

#[cycle(ask)]
fn keys_suit(question: &Question<'_>, levels: u32, keyed: Keyed, json: Json<'_>) -> bool
    ensures { result ≡ keys_suit (all_suit (asked_by question.now) levels) keyed (view json.entry)
        (keys_in keyed) }
{
    let keys = keyed.keys();
    for key in keys {
        if !key_suits(question, levels, keyed, *key, json) {
            return false;
        }
    }
    true
}

#[cycle(ask)]
fn key_suits(question: &Question<'_>, levels: u32, keyed: Keyed, key: &str, json: Json<'_>) -> bool
    ensures { result ≡ if_there (all_suit (asked_by question.now) levels (key_want keyed key.now))
        (get key.now (view json.entry)) }
{
    match json.get(key) {
        Some(value) => all_suit(question, levels, keyed.want(key), value),
        None => true,
    }
}
