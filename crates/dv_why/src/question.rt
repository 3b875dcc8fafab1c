ghost use Rattle.std.specs.Prelude.{◌≡◌, option_and_then};
ghost use Rattle.serde_json.specs.View.{view};
ghost use Rattle.serde_json.specs.Find.{as_str, at};
ghost use Rattle.dv_why.specs.Fits.{has_name, is_declared, name_suits, leaf_suits};
ghost use Rattle.dv_why.specs.Fits.{body_name_suits, names_suit, suits};

use crate::fits::fits;
use dv_forms::want::{Keyed, Leaf, Object, Want};
use dv_questions::question::{is_body, is_cooperator, is_known, is_named, is_pool};
use dv_value::classes::Classes;
use serde_json::Value as Json;

/// What is looked for in a script.
#[derive(Clone, Copy, Drop)]
pub enum Question<'q> {
    /// What isn't of the shape that its place asks for, in a script of this version.
    Shape(u32),
    /// A name that isn't of its form in a script of this version.
    Names(u32),
    /// A class that isn't in this table.
    Classes(&'q Classes),
    /// A pool that isn't among these.
    Pools(&'q [Json]),
    /// A body that isn't among these.
    Bodies(&'q [Json]),
    /// A Cooperator that isn't among these.
    Cooperators(&'q [Json]),
}

fn has_name(name: &str, array: &Json) -> bool
    ensures { result ≡ has_name name.now (option_and_then as_str (at 0 (view array.now))) }
{
    match array.get(0usize) {
        Some(json) => match json.as_str() {
            Some(other) => other == name,
            None => false,
        },
        None => false,
    }
}

/// Whether one of these arrays declares a pool or a body of this name.
pub fn is_declared(arrays: &[Json], name: &str) -> bool
    ensures { result ≡ is_declared arrays.now name.now }
{
    arrays.iter().any(|array| has_name(name, array))
}

fn name_suits(question: Question<'_>, leaf: Leaf, name: &str) -> bool
    ensures { result ≡ name_suits question.entry leaf name.now }
{
    match question {
        Question::Shape(_) => true,
        Question::Names(version) => is_named(version, leaf, name),
        Question::Classes(classes) => is_known(classes, leaf, name),
        Question::Pools(pools) => !is_pool(leaf) || is_declared(pools, name),
        Question::Bodies(bodies) => !is_body(leaf) || is_declared(bodies, name),
        Question::Cooperators(cooperators) => {
            !is_cooperator(leaf) || is_declared(cooperators, name)
        }
    }
}

fn leaf_suits(question: Question<'_>, leaf: Leaf, json: &Json) -> bool
    ensures { result ≡ leaf_suits question.entry leaf (as_str (view json.now)) }
{
    match json.as_str() {
        Some(name) => name_suits(question, leaf, name),
        None => true,
    }
}

fn body_name_suits(question: Question<'_>, keyed: Keyed, json: &Json) -> bool
    ensures { result ≡ body_name_suits question.entry keyed (as_str (view json.now)) }
{
    match keyed {
        Keyed::Script(_) | Keyed::Cooperator(_) | Keyed::Failure => true,
        Keyed::Body(_) => leaf_suits(question, Leaf::Found(Object::Body), json),
    }
}

fn names_suit(question: Question<'_>, want: Want, json: &Json) -> bool
    ensures { result ≡ names_suit question.entry want (view json.now) }
{
    match want {
        Want::Leaf(leaf) => leaf_suits(question, leaf, json),
        Want::Keyed(keyed) => body_name_suits(question, keyed, json),
        Want::Value
        | Want::Call(_)
        | Want::Pair(_)
        | Want::Array(_)
        | Want::Word(_)
        | Want::Other(_) => true,
    }
}

/// Whether what stands at a place answers the question well, its parts apart.
pub fn suits(question: Question<'_>, want: Want, json: &Json) -> bool
    ensures { result ≡ suits question.entry want (view json.now) }
{
    match question {
        Question::Shape(version) => fits(version, want, json),
        Question::Names(_)
        | Question::Classes(_)
        | Question::Pools(_)
        | Question::Bodies(_)
        | Question::Cooperators(_) => names_suit(question, want, json),
    }
}
