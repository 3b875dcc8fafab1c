//! What a place of a script asks for.

ghost use Rattle.std.specs.Prelude.{◌≡◌, map};
ghost use Rattle.dv_forms.specs.Wants.{item_want, key_want, keys_in, script_want, cooperator_want};
ghost use Rattle.dv_document.specs.View.{view};
ghost use Rattle.dv_forms.specs.Wants.{body_want, failure_want, member_want, pair_wants};
ghost use Rattle.dv_forms.specs.Wants.{want_for, array_or_body, has_items};

use crate::failure::MOST_INDEX;
use crate::limits::most_limit;
use crate::versions::{
    BODIES_SINCE, COOPERATORS_SINCE, FIRST_VERSION, LAST_VERSION, RULES_SINCE, TURNS_SINCE,
};
use dv_clock::limits::MOST_DELAY;
use dv_document::places::Json;
use dv_document::value::Kind;
use dv_script::limits::{MOST_PLACE, MOST_UNITS, MOST_WORKERS};

/// What has a name.
#[derive(Clone, Copy, Drop)]
pub enum Object {
    Deferred,
    /// A lock or a semaphore.
    Lock,
    Queue,
    /// A delayed call.
    Call,
    Loop,
    Task,
    Pool,
    Class,
    /// A body that the script declares.
    Body,
    /// A Cooperator that the script declares.
    Cooperator,
}

/// What stands at a place, where nothing is looked for in it.
#[derive(Clone, Copy, Drop)]
pub enum Leaf {
    /// Any text.
    Text,
    /// A name that is made here.
    New(Object),
    /// A name that is looked up.
    Found(Object),
    /// An integer of 64 bits.
    Integer,
    /// An integer from the first to the second.
    Number(u64, u64),
    Boolean,
    /// A bound of a queue, or none.
    Bound,
    ListFlag,
    GatherFlag,
    /// The rule of the turns of a Cooperator.
    Turns,
    /// A text that is read past.
    Comment,
}

/// What kind of call an array of a word and its arguments is.
#[derive(Clone, Copy, Drop)]
pub enum CallKind {
    Event,
    Action,
    Statement,
    End,
    /// An end by which an inline body may be left.
    Leaving,
    Work,
    /// What is expected of a Deferred.
    Outcome,
}

/// What kind of pair an array of two parts is, of which none is a word.
#[derive(Clone, Copy, Drop)]
pub enum PairKind {
    Declaration,
    Pool,
    /// A name, and the body that it names.
    Body,
    /// A name, and the Cooperator that it names.
    Cooperator,
}

/// What an object may be.
#[derive(Clone, Copy, Drop)]
pub enum Keyed {
    /// A script of this version.
    Script(u32),
    /// A Cooperator in a script of this version.
    Cooperator(u32),
    /// A body, at a place that may have one from this version on.
    Body(u32),
    /// A failure that is a member of an array of a value, or that is in one.
    Failure,
}

/// What each item of an array is.
#[derive(Clone, Copy, Drop)]
pub enum Item {
    Value,
    Event,
    Action,
    Statement,
    Body,
    Caller,
    Deferred,
    Class,
    ListFlag,
    GatherFlag,
    Declaration,
    Pool,
    /// A place in a list, from 0.
    Place,
    NamedBody,
    NamedCooperator,
    /// The body of a turn of a loop.
    Turn,
}

/// What a place asks for.
#[derive(Clone, Copy, Drop)]
pub enum Want {
    Leaf(Leaf),
    Value,
    Call(CallKind),
    Pair(PairKind),
    Keyed(Keyed),
    Array(Item),
    /// The word with which such an array begins.
    Word(CallKind),
    /// The value of a key that such an object may not have.
    Other(Keyed),
}

impl Item {
    /// What the place of each item asks for.
    pub fn want(self) -> Want
        ensures { result ≡ item_want self }
    {
        match self {
            Item::Value => Want::Value,
            Item::Event => Want::Call(CallKind::Event),
            Item::Action => Want::Call(CallKind::Action),
            Item::Statement => Want::Call(CallKind::Statement),
            Item::Body => Want::Keyed(Keyed::Body(FIRST_VERSION)),
            Item::Caller => Want::Array(Item::Body),
            Item::Deferred => Want::Leaf(Leaf::Found(Object::Deferred)),
            Item::Class => Want::Leaf(Leaf::Found(Object::Class)),
            Item::ListFlag => Want::Leaf(Leaf::ListFlag),
            Item::GatherFlag => Want::Leaf(Leaf::GatherFlag),
            Item::Declaration => Want::Pair(PairKind::Declaration),
            Item::Pool => Want::Pair(PairKind::Pool),
            Item::Place => Want::Leaf(Leaf::Number(0, MOST_PLACE as u64)),
            Item::NamedBody => Want::Pair(PairKind::Body),
            Item::NamedCooperator => Want::Pair(PairKind::Cooperator),
            Item::Turn => Want::Keyed(Keyed::Body(TURNS_SINCE)),
        }
    }
}

/// Whether this is an array of one item or more.
fn has_items(json: Json<'_>) -> bool
    ensures { result ≡ has_items (view json.entry) }
{
    match json.as_array() {
        Some(items) => items.split_first().is_some(),
        None => false,
    }
}

/// What the place of an array asks for where this stands: where the turns of a loop may have bodies
/// of their own, one body for all is no array.
pub fn array_or_body(item: Item, json: Json<'_>) -> Want
    ensures { result ≡ array_or_body item (view json.entry) }
{
    match item {
        Item::Turn => if has_items(json) {
            Want::Array(Item::Turn)
        } else {
            Want::Keyed(Keyed::Body(FIRST_VERSION))
        },
        Item::Value
        | Item::Event
        | Item::Action
        | Item::Statement
        | Item::Body
        | Item::Caller
        | Item::Deferred
        | Item::Class
        | Item::ListFlag
        | Item::GatherFlag
        | Item::Declaration
        | Item::Pool
        | Item::Place
        | Item::NamedBody
        | Item::NamedCooperator => Want::Array(item),
    }
}

/// What an argument has to be where this stands.
pub fn want_for(want: Want, json: Json<'_>) -> Want
    ensures { result ≡ want_for want (view json.entry) }
{
    match want {
        Want::Array(item) => array_or_body(item, json),
        Want::Leaf(_)
        | Want::Value
        | Want::Call(_)
        | Want::Pair(_)
        | Want::Keyed(_)
        | Want::Word(_)
        | Want::Other(_) => want,
    }
}

impl PairKind {
    /// What the places of its two parts ask for.
    pub fn wants(self) -> &'static [Want]
        ensures { result.now ≡ pair_wants self }
    {
        match self {
            PairKind::Declaration => &[
                Want::Leaf(Leaf::New(Object::Class)),
                Want::Leaf(Leaf::Text),
            ],
            PairKind::Pool => &[
                Want::Leaf(Leaf::New(Object::Pool)),
                Want::Leaf(Leaf::Number(0, MOST_WORKERS as u64)),
            ],
            PairKind::Body => &[
                Want::Leaf(Leaf::New(Object::Body)),
                Want::Keyed(Keyed::Body(FIRST_VERSION)),
            ],
            PairKind::Cooperator => &[
                Want::Leaf(Leaf::New(Object::Cooperator)),
                Want::Keyed(Keyed::Cooperator(COOPERATORS_SINCE)),
            ],
        }
    }
}

fn script_want(version: u32, key: &str) -> Want
    ensures { result ≡ script_want version key.now }
{
    match key {
        "version" => Want::Leaf(Leaf::Number(1, u64::from(LAST_VERSION))),
        "events" => Want::Array(Item::Event),
        "limit" => Want::Leaf(Leaf::Number(0, most_limit(version))),
        "classes" => Want::Array(Item::Declaration),
        "cooperator" => Want::Keyed(Keyed::Cooperator(version)),
        "callers" => Want::Array(Item::Caller),
        "pools" => if version == 1 {
            Want::Other(Keyed::Script(version))
        } else {
            Want::Array(Item::Pool)
        },
        "bodies" => if version < BODIES_SINCE {
            Want::Other(Keyed::Script(version))
        } else {
            Want::Array(Item::NamedBody)
        },
        "cooperators" => if version < COOPERATORS_SINCE {
            Want::Other(Keyed::Script(version))
        } else {
            Want::Array(Item::NamedCooperator)
        },
        "comment" => Want::Leaf(Leaf::Comment),
        _ => Want::Other(Keyed::Script(version)),
    }
}

fn cooperator_want(version: u32, key: &str) -> Want
    ensures { result ≡ cooperator_want version key.now }
{
    match key {
        "units" => Want::Leaf(Leaf::Number(1, u64::from(MOST_UNITS))),
        "delay" => Want::Leaf(Leaf::Number(1, MOST_DELAY)),
        "turns" => if version < RULES_SINCE {
            Want::Other(Keyed::Cooperator(version))
        } else {
            Want::Leaf(Leaf::Turns)
        },
        "comment" => Want::Leaf(Leaf::Comment),
        _ => Want::Other(Keyed::Cooperator(version)),
    }
}

fn body_want(since: u32, key: &str) -> Want
    ensures { result ≡ body_want since key.now }
{
    match key {
        "do" => Want::Array(Item::Action),
        "end" => Want::Call(CallKind::End),
        "comment" => Want::Leaf(Leaf::Comment),
        _ => Want::Other(Keyed::Body(since)),
    }
}

fn failure_want(key: &str) -> Want
    ensures { result ≡ failure_want key.now }
{
    match key {
        "fail" => Want::Leaf(Leaf::Found(Object::Class)),
        "index" => Want::Leaf(Leaf::Number(0, MOST_INDEX as u64)),
        "message" => Want::Leaf(Leaf::Text),
        "sub" => Want::Keyed(Keyed::Failure),
        _ => Want::Other(Keyed::Failure),
    }
}

/// What the place of this member of an array of a value asks for: a failure where an object stands,
/// and else a value.
pub fn member_want(json: Json<'_>) -> Want
    ensures { result ≡ member_want (view json.entry) }
{
    match json.kind() {
        Kind::Null | Kind::Bool(_) | Kind::Number(_) | Kind::String(_) | Kind::Array(_) =>
            Want::Value,
        Kind::Object(_) => Want::Keyed(Keyed::Failure),
    }
}

impl Keyed {
    /// What the place of the value of this key asks for.
    pub fn want(self, key: &str) -> Want
        ensures { result ≡ key_want self key.now }
    {
        match self {
            Keyed::Script(version) => script_want(version, key),
            Keyed::Cooperator(version) => cooperator_want(version, key),
            Keyed::Body(since) => body_want(since, key),
            Keyed::Failure => failure_want(key),
        }
    }

    /// The keys that it may have, in the order in which they are looked at.
    pub fn keys(self) -> &'static [&'static str]
        ensures { map (λ key. key.now) result.now ≡ keys_in self }
    {
        match self {
            Keyed::Script(1) => &[
                "version",
                "limit",
                "cooperator",
                "classes",
                "callers",
                "events",
                "comment",
            ],
            Keyed::Script(2) => &[
                "version",
                "limit",
                "cooperator",
                "pools",
                "classes",
                "callers",
                "events",
                "comment",
            ],
            Keyed::Script(_) => &[
                "version",
                "limit",
                "cooperator",
                "cooperators",
                "pools",
                "classes",
                "bodies",
                "callers",
                "events",
                "comment",
            ],
            Keyed::Cooperator(version) => if version < RULES_SINCE {
                &["units", "delay", "comment"]
            } else {
                &["units", "delay", "turns", "comment"]
            },
            Keyed::Body(_) => &["do", "end", "comment"],
            Keyed::Failure => &["fail", "index", "message", "sub"],
        }
    }
}
