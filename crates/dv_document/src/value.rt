ghost use Rattle.std.specs.Prelude.{◌≡◌, ◌<◌, ◌≤◌, ◌++◌, List, Some, length, option_map, option_and_then, IfSome};
ghost use Rattle.json.specs.Json.{Json as Read};
ghost use Rattle.json.specs.Token.{Token};
ghost use Rattle.json.specs.Tree.{json_tokens};
ghost use Rattle.serde_json.specs.Find.{as_array, as_bool, as_i64, as_number, as_object, as_str, as_u64, at, get};
ghost use Rattle.dv_document.specs.Kinds.{kind_view, IsWithin};
ghost use Rattle.dv_document.specs.Places.{tokens_from};
ghost use Rattle.dv_document.specs.View.{view, items_left, items_view, json_left, members_left, members_view};

use crate::number;
use crate::places::{Elements, Json, Members};
use json::{Node, Tape};

/// What a value is, one level deep.
#[derive(Clone, Copy, Drop)]
pub enum Kind<'t> {
    Null,
    Bool(bool),
    /// Its text.
    Number(&'t str),
    String(&'t str),
    Array(Elements<'t>),
    Object(Members<'t>),
}

/// The place after the value that begins at this one.
pub(crate) fn after(tape: &Tape<'_>, at: usize) -> usize
    requires begins { at < length tape.now }
    ensures rest { (j : Read) (rest : List Token)
        → tokens_from tape.now at ≡ json_tokens j ++ rest
        → tokens_from tape.now result ≡ rest }
    ensures later { at < result }
    ensures within { result ≤ length tape.now }
{
    match tape.nodes()[at] {
        Node::Object(end) | Node::Array(end) => end,
        _ => at + 1,
    }
}

impl<'t> Json<'t> {
    /// What the value is.
    pub fn kind(self) -> Kind<'t>
        ensures value { kind_view result ≡ view self.entry }
        ensures within { IsWithin self.entry result }
    {
        let nodes = self.tape.nodes();
        if self.at >= nodes.len() {
            unreachable!();
        }
        match nodes[self.at] {
            Node::Null => Kind::Null,
            Node::Bool(b) => Kind::Bool(b),
            Node::Number(text) => Kind::Number(text),
            Node::String(text) => Kind::String(text),
            Node::Array(_) => Kind::Array(Elements {
                tape: self.tape,
                at: self.at + 1,
            }),
            Node::Object(_) => Kind::Object(Members {
                tape: self.tape,
                at: self.at + 1,
            }),
            Node::EndObject | Node::EndArray | Node::Key(_) => unreachable!(),
        }
    }

    /// The text, if it is one.
    pub fn as_str(self) -> Option<&'t str>
        ensures { option_map (λ text. text.now) result ≡ as_str (view self.entry) }
    {
        match self.kind() {
            Kind::String(text) => Some(text),
            Kind::Null | Kind::Bool(_) | Kind::Number(_) | Kind::Array(_) | Kind::Object(_) => None,
        }
    }

    /// The boolean, if it is one.
    pub fn as_bool(self) -> Option<bool>
        ensures { result ≡ as_bool (view self.entry) }
    {
        match self.kind() {
            Kind::Bool(b) => Some(b),
            Kind::Null | Kind::Number(_) | Kind::String(_) | Kind::Array(_) | Kind::Object(_) =>
                None,
        }
    }

    /// The number, if it is an integer of 64 bits. One with a point or an exponent is none, and
    /// neither is -0.
    pub fn as_i64(self) -> Option<i64>
        ensures { result ≡ option_and_then as_i64 (as_number (view self.entry)) }
    {
        match self.kind() {
            Kind::Number(text) => number::as_i64(text),
            Kind::Null | Kind::Bool(_) | Kind::String(_) | Kind::Array(_) | Kind::Object(_) => None,
        }
    }

    /// The number, if it is an integer of 64 bits without a sign.
    pub fn as_u64(self) -> Option<u64>
        ensures { result ≡ option_and_then as_u64 (as_number (view self.entry)) }
    {
        match self.kind() {
            Kind::Number(text) => number::as_u64(text),
            Kind::Null | Kind::Bool(_) | Kind::String(_) | Kind::Array(_) | Kind::Object(_) => None,
        }
    }

    /// The elements, if it is an array.
    pub fn as_array(self) -> Option<Elements<'t>>
        ensures value { option_map (λ elements. items_view elements) result
            ≡ as_array (view self.entry) }
        ensures within { IfSome result (λ elements. items_left elements < json_left self.entry) }
    {
        match self.kind() {
            Kind::Array(elements) => Some(elements),
            Kind::Null | Kind::Bool(_) | Kind::Number(_) | Kind::String(_) | Kind::Object(_) =>
                None,
        }
    }

    /// The members, if it is an object.
    pub fn as_object(self) -> Option<Members<'t>>
        ensures value { option_map (λ members. members_view members) result
            ≡ as_object (view self.entry) }
        ensures within { IfSome result (λ members. members_left members < json_left self.entry) }
    {
        match self.kind() {
            Kind::Object(members) => Some(members),
            Kind::Null | Kind::Bool(_) | Kind::Number(_) | Kind::String(_) | Kind::Array(_) => None,
        }
    }

    /// The member of this key, if it is an object that has one. It passes all members before it.
    pub fn get(self, key: &str) -> Option<Json<'t>>
        ensures value { option_map (λ json. view json) result ≡ get key.now (view self.entry) }
        ensures within { IfSome result (λ json. json_left json < json_left self.entry) }
    {
        let mut members = self.as_object()?;
        while let Some((name, json)) = members.next() {
            if name == key {
                return Some(json);
            }
        }
        None
    }

    /// The element at this place, if it is an array that has one. It passes all elements before it.
    pub fn at(self, place: usize) -> Option<Json<'t>>
        ensures { option_map (λ json. view json) result ≡ at place (view self.entry) }
    {
        let mut elements = self.as_array()?;
        for _ in 0..place {
            let _ = elements.next()?;
        }
        elements.next()
    }
}
