use crate::tree::call_in;
use dv_forms::limits::most_nodes;
use dv_forms::versions::{BODIES_SINCE, COMMENTS_SINCE, FAILURES_SINCE, MARKS_SINCE};
use dv_forms::want::{CallKind, Item, Keyed, Leaf, Object, PairKind, Want};
use dv_forms::words::{
    ACTION_FORMS, END_FORMS, EVENT_FORMS, Form, LEAVING_FORMS, OUTCOME_FORMS, STATEMENT_FORMS,
    WORK_FORMS, narrower,
};
use serde_json::Value as Json;
use std::alloc::AllocError;

/// The first version whose inline bodies have the statements finally, raise and caught.
const FINALLY_SINCE: u32 = 3;

/// The first version that has the events expect and repeat.
const EXPECT_SINCE: u32 = 3;

/// How the forms of a word are shown: most have one, and some two.
#[derive(Clone, Copy, Drop)]
pub struct Shown {
    first: &'static str,
    second: Option<&'static str>,
}

/// What is expected where a script is wrong.
#[derive(Clone, Copy, Drop)]
pub enum Expected {
    /// What the place asks for in a script of this version.
    Wanted(u32, Want),
    /// The word with other arguments, in a form that it has.
    Form(Shown),
    /// This key, which isn't there.
    Key(&'static str),
    /// A name that no class has yet.
    FreeClass,
    /// A parent that is in the table already.
    Parent,
    /// A name that no pool before has.
    FreePool,
    /// A name that no body before has.
    FreeBody,
    /// A name that no Cooperator before has.
    FreeCooperator,
    /// An object with a version.
    Document,
    /// A text of so many bytes at most.
    Short,
    /// A JSON text.
    JsonText,
    /// So many nodes at most as a script of this version may have.
    FewNodes(u32),
    /// So many classes at most.
    FewClasses,
    /// So many pools at most.
    FewPools,
    /// So many named bodies at most.
    FewBodies,
    /// So many named Cooperators at most.
    FewCooperators,
    /// So many callers at most.
    FewCallers,
    /// So many posts at most.
    FewPosts,
    /// Advances that sum to so much at most.
    FewTicks,
}

fn name_text(version: u32) -> &'static str {
    if version < MARKS_SINCE {
        "a name: a text of 1 to 32 of A to Z, a to z, 0 to 9 and _"
    } else {
        "a name: a text of 1 to 32 of A to Z, a to z, 0 to 9 and _, and after the first also -, . and :"
    }
}

fn deferred_text(version: u32) -> &'static str {
    if version < MARKS_SINCE {
        "the name of a Deferred: a text of 1 to 32 of A to Z, a to z, 0 to 9 and _, or \"@\""
    } else {
        "the name of a Deferred: a text of 1 to 32 of A to Z, a to z, 0 to 9 and _, and after the first also -, . and :, or \"@\""
    }
}

fn pool_text(version: u32) -> &'static str {
    if version < MARKS_SINCE {
        "the name of a pool that the key `pools` declares: a text of 1 to 32 of A to Z, a to z, 0 to 9 and _"
    } else {
        "the name of a pool that the key `pools` declares: a text of 1 to 32 of A to Z, a to z, 0 to 9 and _, and after the first also -, . and :"
    }
}

fn found_text(version: u32, object: Object) -> &'static str {
    match object {
        Object::Deferred => deferred_text(version),
        Object::Pool => pool_text(version),
        Object::Body => {
            "the name of a body that the key `bodies` declares: a text of 1 to 32 of A to Z, a to z, 0 to 9 and _, and after the first also -, . and :"
        }
        Object::Cooperator => {
            "the name of a cooperator that the key `cooperators` declares: a text of 1 to 32 of A to Z, a to z, 0 to 9 and _, and after the first also -, . and :"
        }
        Object::Class => {
            "the name of a class: one that every script has, or one that the key `classes` declares"
        }
        Object::Lock | Object::Queue | Object::Call | Object::Loop | Object::Task => {
            name_text(version)
        }
    }
}

fn comment_text(version: u32) -> &'static str {
    if version < COMMENTS_SINCE {
        "no such key: a comment stands from version 3 on"
    } else {
        "a comment: a text"
    }
}

fn leaf_text(version: u32, leaf: Leaf) -> &'static str {
    match leaf {
        Leaf::Text => "a text",
        Leaf::New(_) => name_text(version),
        Leaf::Found(object) => found_text(version, object),
        Leaf::Integer => "an integer of 64 bits",
        Leaf::Number(_, _) => "an integer",
        Leaf::Boolean => "true or false",
        Leaf::Bound => "null, or an integer from 0 to 65536",
        Leaf::ListFlag =>
            "a flag: \"fireOnOneCallback\", \"fireOnOneErrback\" or \"consumeErrors\"",
        Leaf::GatherFlag => "the flag \"consumeErrors\"",
        Leaf::Turns => "a rule of turns: \"fair\" or \"twisted\"",
        Leaf::Comment => comment_text(version),
    }
}

fn end_text(version: u32) -> &'static str {
    if version < BODIES_SINCE {
        "an end: an array of one of the words return, pass, plus, raise, trap and wait, and its arguments"
    } else {
        "an end: an array of one of the words return, pass, plus, raise, throw, trap, wait and run, and its arguments"
    }
}

fn leaving_text(version: u32) -> &'static str {
    if version < BODIES_SINCE {
        "an end of an inline body: an array of one of the words return, pass, plus and raise, and its arguments"
    } else {
        "an end of an inline body: an array of one of the words return, pass, plus, raise and throw, and its arguments"
    }
}

fn statement_text(version: u32) -> &'static str {
    if version < FINALLY_SINCE {
        "a statement: an array of one of the words do, await, try and end, and its arguments"
    } else {
        "a statement: an array of one of the words do, await, try, finally, raise, caught and end, and its arguments"
    }
}

fn call_text(version: u32, call: CallKind) -> &'static str {
    match call {
        CallKind::Event => "an event: an array of a word and its arguments",
        CallKind::Action => "an action: an array of a word and its arguments",
        CallKind::Statement => statement_text(version),
        CallKind::End => end_text(version),
        CallKind::Leaving => leaving_text(version),
        CallKind::Work =>
            "a work: an array of one of the words value, raise and sum, and its arguments",
        CallKind::Outcome =>
            "what is expected: [\"unfired\"], [\"waiting\"], [\"ok\",VALUE] or [\"fail\",FAILURE]",
    }
}

fn end_word_text(version: u32) -> &'static str {
    if version < BODIES_SINCE {
        "the word of an end: return, pass, plus, raise, trap or wait"
    } else {
        "the word of an end: return, pass, plus, raise, throw, trap, wait or run"
    }
}

fn leaving_word_text(version: u32) -> &'static str {
    if version < BODIES_SINCE {
        "the word of an end of an inline body: return, pass, plus or raise"
    } else {
        "the word of an end of an inline body: return, pass, plus, raise or throw"
    }
}

fn statement_word_text(version: u32) -> &'static str {
    if version < FINALLY_SINCE {
        "the word of a statement: do, await, try or end; finally, raise and caught from version 3 on"
    } else {
        "the word of a statement: do, await, try, finally, raise, caught or end"
    }
}

fn event_word_text(version: u32) -> &'static str {
    if version < EXPECT_SINCE {
        "the word of an action, advance or drain"
    } else {
        "the word of an action, advance, drain, expect or repeat"
    }
}

fn word_text(version: u32, call: CallKind) -> &'static str {
    match call {
        CallKind::Event => event_word_text(version),
        CallKind::Action => "the word of an action",
        CallKind::Statement => statement_word_text(version),
        CallKind::End => end_word_text(version),
        CallKind::Leaving => leaving_word_text(version),
        CallKind::Work => "the word of a work: value, raise or sum",
        CallKind::Outcome => "the word of what is expected: unfired, waiting, ok or fail",
    }
}

fn pair_text(pair: PairKind) -> &'static str {
    match pair {
        PairKind::Declaration => "a class: an array [NAME,PARENT] of two texts",
        PairKind::Pool => "a pool: an array [NAME,WORKERS] of a text and an integer from 0 to 16",
        PairKind::Body => "a named body: an array [NAME,BODY] of a text and a body",
        PairKind::Cooperator =>
            "a named cooperator: an array [NAME,COOPERATOR] of a text and a cooperator",
    }
}

fn failure_text(version: u32) -> &'static str {
    if version < FAILURES_SINCE {
        "a value, which is no object: a failure stands in an array from version 3 on"
    } else {
        "a failure: {\"fail\":CLASS,\"message\":TEXT}, or {\"fail\":\"FirstError\",\"index\":I,\"message\":\"\",\"sub\":FAILURE}"
    }
}

fn body_text(version: u32) -> &'static str {
    if version < BODIES_SINCE {
        "a body: an object of the keys do and end, each of which may be left out"
    } else {
        "a body: an object of the keys do and end, each of which may be left out, or the name of a body that the key `bodies` declares"
    }
}

fn keyed_text(version: u32, keyed: Keyed) -> &'static str {
    match keyed {
        Keyed::Script(_) => "a script: an object",
        Keyed::Cooperator(_) => "a cooperator: an object of the keys units and delay",
        Keyed::Body(since) => if version < since {
            "nothing: a body stands here from version 3 on"
        } else {
            body_text(version)
        },
        Keyed::Failure => failure_text(version),
    }
}

fn array_text(item: Item) -> &'static str {
    match item {
        Item::Value => "an array of values",
        Item::Event => "an array of events",
        Item::Action => "an array of actions",
        Item::Statement => "an array of statements",
        Item::Body => "an array of bodies",
        Item::Caller => "an array of arrays of bodies, one a caller",
        Item::Deferred => "an array of names of Deferreds",
        Item::Class => "an array of names of classes",
        Item::ListFlag | Item::GatherFlag => "an array of flags",
        Item::Declaration => "an array of classes [NAME,PARENT]",
        Item::Pool => "an array of pools [NAME,WORKERS]",
        Item::Place => "an array of places in lists, each an integer from 0 to 1000000",
        Item::NamedBody => "an array of named bodies [NAME,BODY]",
        Item::NamedCooperator => "an array of named cooperators [NAME,COOPERATOR]",
        Item::Turn => "an array of bodies of turns, at least one",
    }
}

fn want_text(version: u32, want: Want) -> &'static str {
    match want {
        Want::Leaf(leaf) => leaf_text(version, leaf),
        Want::Value =>
            "a value: null, true, false, an integer of 64 bits, a text or an array of values",
        Want::Call(call) => call_text(version, call),
        Want::Pair(pair) => pair_text(pair),
        Want::Keyed(keyed) => keyed_text(version, keyed),
        Want::Array(item) => array_text(item),
        Want::Word(call) => word_text(version, call),
        Want::Other(keyed) => keys_text(version, keyed),
    }
}

fn keys_text(version: u32, keyed: Keyed) -> &'static str {
    match keyed {
        Keyed::Script(_) => script_keys_text(version),
        Keyed::Cooperator(_) => if version < COMMENTS_SINCE {
            "no such key: a cooperator has units and delay"
        } else {
            "no such key: a cooperator has units, delay, turns and comment"
        },
        Keyed::Body(_) => if version < COMMENTS_SINCE {
            "no such key: a body has do and end"
        } else {
            "no such key: a body has do, end and comment"
        },
        Keyed::Failure => {
            "no such key: a failure has fail and message, and one of FirstError also index and sub"
        }
    }
}

fn script_keys_text(version: u32) -> &'static str {
    match version {
        1 => {
            "no such key: a script of version 1 has version, events, limit, classes, cooperator and callers"
        }
        2 => {
            "no such key: a script of version 2 has version, events, limit, classes, cooperator, pools and callers"
        }
        _ => {
            "no such key: a script of version 3 has version, events, limit, classes, cooperator, cooperators, pools, bodies, callers and comment"
        }
    }
}

fn write_want(text: &mut String, version: u32, want: Want) -> Result<(), AllocError> {
    if let Want::Leaf(Leaf::Number(low, high)) = want {
        return write!(text, "an integer from {low} to {high}");
    }
    text.push_str(want_text(version, want))
}

fn write_few_nodes(text: &mut String, version: u32) -> Result<(), AllocError> {
    let most = most_nodes(version);
    write!(
        text,
        "{most} nodes at most, of which each array, object, text, number, boolean and null is one, with those that repeats add"
    )
}

fn write_forms(text: &mut String, shown: Shown) -> Result<(), AllocError> {
    let first = shown.first;
    match shown.second {
        Some(second) => write!(text, "the form {first} or {second}"),
        None => write!(text, "the form {first}"),
    }
}

impl Expected {
    /// Adds it to the text, as one sentence without its full stop.
    pub fn write(self, text: &mut String) -> Result<(), AllocError> {
        match self {
            Expected::Wanted(version, want) => write_want(text, version, want),
            Expected::Form(shown) => write_forms(text, shown),
            Expected::Key(key) => write!(text, "an object that has the key `{key}`"),
            Expected::FreeClass => text.push_str("the name of a class that no class has yet"),
            Expected::Parent => text.push_str(
                "the name of a class that is in the table already, of those that every script has or declared before",
            ),
            Expected::FreePool => text.push_str("the name of a pool that no pool before it has"),
            Expected::FreeBody => text.push_str("the name of a body that no body before it has"),
            Expected::FreeCooperator => {
                text.push_str("the name of a cooperator that no cooperator before it has")
            }
            Expected::Document => text.push_str("a script: an object that has the key `version`"),
            Expected::Short => text.push_str(
                "a text of 1048576 bytes at most, or JSON of version 3 of 67108864 bytes at most",
            ),
            Expected::JsonText => text.push_str("a JSON text in UTF-8, nested to 127 at most"),
            Expected::FewNodes(version) => write_few_nodes(text, version),
            Expected::FewClasses => text.push_str("256 classes at most"),
            Expected::FewPools => text.push_str("4 pools at most"),
            Expected::FewBodies => text.push_str("256 named bodies at most"),
            Expected::FewCooperators => text.push_str("256 named cooperators at most"),
            Expected::FewCallers => text.push_str("8 callers at most"),
            Expected::FewPosts => text.push_str("256 posts of a caller at most"),
            Expected::FewTicks => { text.push_str("advances that sum to 1000000000000000 at most") }
        }
    }
}

/// How the forms of a word among these are shown, if it has any.
fn shown_in<W: Copy>(forms: &'static [Form<W>], word: &str) -> Option<Shown> {
    let mut found: Option<Shown> = None;
    for form in forms {
        if form.1 == word {
            found = Some(match found {
                None => Shown {
                    first: form.3,
                    second: None,
                },
                Some(shown) => Shown {
                    first: shown.first,
                    second: Some(form.3),
                },
            });
        }
    }
    found
}

fn own_shown(call: CallKind, word: &str) -> Option<Shown> {
    match call {
        CallKind::Event => shown_in(&EVENT_FORMS, word),
        CallKind::Action => shown_in(&ACTION_FORMS, word),
        CallKind::Statement => shown_in(&STATEMENT_FORMS, word),
        CallKind::End => shown_in(&END_FORMS, word),
        CallKind::Leaving => shown_in(&LEAVING_FORMS, word),
        CallKind::Work => shown_in(&WORK_FORMS, word),
        CallKind::Outcome => shown_in(&OUTCOME_FORMS, word),
    }
}

/// How the forms of a word are shown that may stand at such a place.
fn shown_of(call: CallKind, word: &str) -> Option<Shown> {
    if let Some(shown) = own_shown(call, word) {
        return Some(shown);
    }
    match narrower(call) {
        Some(inner) => own_shown(inner, word),
        None => None,
    }
}

/// The forms of the word with which a call begins, if it is one that may stand there.
fn forms_in(call: CallKind, json: &Json) -> Option<Shown> {
    match call_in(json) {
        Some((word, _)) => shown_of(call, word),
        None => None,
    }
}

/// What is expected at the place of an object where a text stands: the name of a body, where a
/// script of this version has some.
fn text_expected(version: u32, keyed: Keyed) -> Expected {
    match keyed {
        Keyed::Body(_) => if version < BODIES_SINCE {
            Expected::Wanted(version, Want::Keyed(keyed))
        } else {
            Expected::Wanted(version, Want::Leaf(Leaf::Found(Object::Body)))
        },
        Keyed::Script(_) | Keyed::Cooperator(_) | Keyed::Failure => {
            Expected::Wanted(version, Want::Keyed(keyed))
        }
    }
}

/// What is expected at the place of an object where this stands.
fn keyed_expected(version: u32, keyed: Keyed, found: &Json) -> Expected {
    match found {
        Json::Object(_) => match missing_key(keyed, found) {
            Some(key) => Expected::Key(key),
            None => Expected::Wanted(version, Want::Keyed(keyed)),
        },
        Json::String(_) => text_expected(version, keyed),
        Json::Null | Json::Bool(_) | Json::Number(_) | Json::Array(_) => {
            Expected::Wanted(version, Want::Keyed(keyed))
        }
    }
}

/// The key that an object has to have and hasn't. What a failure lacks, its form shows.
fn missing_key(keyed: Keyed, json: &Json) -> Option<&'static str> {
    let keys: &'static [&'static str] = match keyed {
        Keyed::Script(_) => &["version", "events"],
        Keyed::Cooperator(_) => &["units", "delay"],
        Keyed::Body(_) | Keyed::Failure => &[],
    };
    for key in keys {
        if json.get(*key).is_none() {
            return Some(*key);
        }
    }
    None
}

impl Expected {
    /// What is expected at a place that asks for this, where this stands in a script of this
    /// version.
    pub fn at(version: u32, want: Want, found: &Json) -> Expected {
        match want {
            Want::Call(call) => match forms_in(call, found) {
                Some(shown) => Expected::Form(shown),
                None => Expected::Wanted(version, want),
            },
            Want::Keyed(keyed) => keyed_expected(version, keyed, found),
            Want::Leaf(_)
            | Want::Value
            | Want::Pair(_)
            | Want::Array(_)
            | Want::Word(_)
            | Want::Other(_) => Expected::Wanted(version, want),
        }
    }
}
