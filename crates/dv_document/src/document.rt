//! The reading of a text.

ghost use Rattle.std.specs.Prelude.{◌≡◌, ◌≤◌, List, ◌∷◌, map, Some, None, Err, IfOk, IfSome, IsUtf8};
ghost use Rattle.json.specs.Tape.{node_token};
ghost use Rattle.json.specs.Token.{Token};
ghost use Rattle.json.specs.declared.error.Error.TheVariants.{Invalid};
ghost use Rattle.serde_json.specs.Read.{read, max_depth};
ghost use Rattle.dv_document.specs.declared.document.DocumentFault.TheVariants.{NotJson};
ghost use Rattle.dv_document.specs.Fits.{fits, fits_at};
ghost use Rattle.dv_document.specs.Tokens.{data_at};
ghost use Rattle.dv_document.specs.View.{view};

use crate::number::is_in_range;
use crate::places::Json;
use crate::room::Room;
use json::{Error, Node, Scratch, Tape};
use serde_json::Value;
use std::alloc::Global;
use std::marker::Model;

/// `serde_json` reads one level less than a tape has.
const MAX_DEPTH: usize = 127;

/// Why a text can't be read.
#[derive(Clone, Copy, Debug, PartialEq, Eq)]
pub enum DocumentFault {
    /// It is no JSON text in UTF-8, it nests deeper than 127, or a number of it is beyond the floats of
    /// 64 bits.
    NotJson,
    /// An allocation failed, or the text has 4 GiB.
    OutOfMemory,
}

/// A JSON text that has been read, in which no object has a key twice. Contracts see its tokens.
#[derive(Drop)]
pub struct Document<'a> {
    tape: Tape<'a>,
}

impl<'a> Model for Document<'a> {
    ghost use Rattle.std.specs.Prelude.{List};
    ghost use Rattle.json.specs.Token.{Token, tokens_code};
    ghost use Rattle.dv_document.specs.Places.{Begins};

    ghost Value = { List Token };

    ghost coded = { tokens_code };

    ghost view = { λ d. d.tape };

    ghost invariant = { λ d. Begins d.tape };
}

impl<'a> Document<'a> {
    /// Reads a JSON text in UTF-8. Of a key that is given twice the last value counts; such a text
    /// is written anew in the room, and read again.
    pub fn read(
        alloc: Global,
        bytes: &'a [u8],
        room: &'a mut Room,
    ) -> Result<Document<'a>, DocumentFault>
        ensures ok { IfOk result (λ document. read bytes.now ≡ Some (data_at document)) }
        ensures utf8 { IfOk result (λ _. IsUtf8 bytes.now) }
        ensures err { result ≡ Err NotJson → IsUtf8 bytes.now → read bytes.now ≡ None }
    {
        let Ok(text) = simdutf8::compat::from_utf8(bytes) else {
            return Err(DocumentFault::NotJson);
        };
        let Room {
            given,
            anew,
            text: written,
        } = room;
        match read_strictly(alloc, text, given) {
            Ok(document) => Ok(document),
            Err(Error::Invalid) => Err(DocumentFault::NotJson),
            Err(Error::OutOfMemory | Error::TooLong) => Err(DocumentFault::OutOfMemory),
            Err(Error::DuplicateKey) => read_anew(alloc, text, written, anew),
        }
    }

    /// The whole document's value.
    pub fn root(&self) -> Json<'_>
        ensures { view result ≡ data_at self.now }
    {
        Json {
            tape: &self.tape,
            at: 0,
        }
    }
}

/// Reads a text in which no object gives a key twice.
fn read_strictly<'a>(
    alloc: Global,
    text: &'a str,
    scratch: &'a mut Scratch,
) -> Result<Document<'a>, Error>
    ensures ok { IfOk result (λ document. read text.now ≡ Some (data_at document)) }
    ensures err { result ≡ Err Invalid → read text.now ≡ None }
{
    let tape = Tape::parse_strict(text, scratch, Vec::new(alloc))?;
    if !is_within_limits(tape.nodes()) {
        return Err(Error::Invalid);
    }
    Ok(Document { tape })
}

/// Reads a text in which an object gives a key twice, from what `serde_json` writes for it.
fn read_anew<'a>(
    alloc: Global,
    text: &str,
    written: &'a mut String,
    scratch: &'a mut Scratch,
) -> Result<Document<'a>, DocumentFault>
    ensures ok { IfOk result (λ document. read text.now ≡ Some (data_at document)) }
    ensures err { result ≡ Err NotJson → read text.now ≡ None }
{
    let value = match Value::from_str(alloc, text) {
        Ok(value) => value,
        Err(error) if error.is_memory() => return Err(DocumentFault::OutOfMemory),
        Err(_) => return Err(DocumentFault::NotJson),
    };
    let Ok(once) = value.to_string(alloc) else {
        return Err(DocumentFault::OutOfMemory);
    };
    *written = once;
    // That text is JSON that `serde_json` reads, and gives each key once. So only memory can be
    // short, or the text too long.
    match read_strictly(alloc, written.as_str(), scratch) {
        Ok(document) => Ok(document),
        Err(_) => Err(DocumentFault::OutOfMemory),
    }
}

/// Whether arrays and objects nest no deeper than `MAX_DEPTH`, and no number is beyond the floats of
/// 64 bits.
fn is_within_limits(nodes: &[Node<'_>]) -> bool
    ensures { result ≡ fits 0 (map node_token nodes.now) }
{
    let mut depth = 0;
    for node in nodes {
        let Some(next) = depth_after(depth, node) else {
            return false;
        };
        depth = next;
    }
    true
}

/// How many arrays and objects are open after this node, where so many are before it. A node that is
/// not within the limits gives none.
#[inline(always)]
fn depth_after(depth: usize, node: &Node<'_>) -> Option<usize>
    requires { depth ≤ max_depth }
    ensures fits { (ts : List Token) → fits depth (node_token node.now ∷ ts) ≡ fits_at result ts }
    ensures within { IfSome result (λ next. next ≤ max_depth) }
{
    match *node {
        Node::Object(_) | Node::Array(_) => if depth < MAX_DEPTH {
            Some(depth + 1)
        } else {
            None
        },
        Node::EndObject | Node::EndArray => Some(depth.saturating_sub(1)),
        Node::Number(text) => if is_in_range(text) { Some(depth) } else { None },
        Node::Key(_) | Node::String(_) | Node::Bool(_) | Node::Null => Some(depth),
    }
}
