//! What may be asked of the texts and the objects of a script.

ghost use Rattle.std.specs.Prelude.{◌≡◌, ◌≤◌, ◌&&◌, ℕ, true};
ghost use Rattle.dv_forms.specs.Words.{may_stand};
ghost use Rattle.dv_questions.specs.Questions.{is_found_named, is_named, is_class, is_pool, stands};
ghost use Rattle.dv_questions.specs.Questions.{is_known, is_among, is_pooled, is_body};
ghost use Rattle.dv_questions.specs.Questions.{has_body, has_object, is_declared, object_stands};
ghost use Rattle.dv_questions.specs.Questions.{asked_by, has_cooperator, is_cooperator};
ghost use Rattle.dv_questions.specs.Questions.{is_scheduled};

use crate::names::{is_name, names_one};
use dv_forms::versions::{BODIES_SINCE, COMMENTS_SINCE, COOPERATORS_SINCE, FAILURES_SINCE};
use dv_forms::want::{CallKind, Keyed, Leaf, Object};
use dv_forms::words::may_stand;
use dv_script::script::{NamedBody, NamedCooperator, NamedPool};
use dv_value::classes::Classes;

/// What is asked of the texts and the objects of a script.
#[derive(Clone, Copy, Drop)]
pub enum Question<'q> {
    /// Whether each word is one of this version, each comment, and each failure in a value.
    Words(u32),
    /// Whether each name has the form of one of this version.
    Names(u32),
    /// Whether each class that is used is in this table.
    Classes(&'q Classes),
    /// Whether each pool that is used is one of these.
    Pools(&'q [NamedPool]),
    /// Whether each body that is used by its name is one of these.
    Bodies(&'q [NamedBody]),
    /// Whether each Cooperator that is used by its name is one of these.
    Cooperators(&'q [NamedCooperator]),
    /// All six, of a script of this version with this table, these pools, these bodies and these
    /// Cooperators.
    Every(u32, &'q Classes, &'q [NamedPool], &'q [NamedBody], &'q [NamedCooperator]),
}

fn is_found_named(version: u32, object: Object, name: &str) -> bool
    ensures { result ≡ is_found_named version object name.now }
{
    match object {
        Object::Deferred => names_one(version, name),
        Object::Class => true,
        Object::Lock
        | Object::Queue
        | Object::Call
        | Object::Loop
        | Object::Task
        | Object::Pool
        | Object::Body
        | Object::Cooperator => is_name(version, name),
    }
}

/// Whether a name has the form that its place asks for in a script of this version.
pub fn is_named(version: u32, leaf: Leaf, name: &str) -> bool
    ensures { result ≡ is_named version leaf name.now }
{
    match leaf {
        Leaf::New(_) => is_name(version, name),
        Leaf::Found(object) => is_found_named(version, object, name),
        Leaf::Text
        | Leaf::Integer
        | Leaf::Number(_, _)
        | Leaf::Boolean
        | Leaf::Bound
        | Leaf::ListFlag
        | Leaf::GatherFlag
        | Leaf::Turns
        | Leaf::Comment => true,
    }
}

/// Whether a script of this version may have such an object.
pub fn has_object(version: u32, object: Object) -> bool
    ensures { result ≡ has_object version object }
{
    match object {
        Object::Body => BODIES_SINCE <= version,
        Object::Cooperator => COOPERATORS_SINCE <= version,
        Object::Deferred
        | Object::Lock
        | Object::Queue
        | Object::Call
        | Object::Loop
        | Object::Task
        | Object::Pool
        | Object::Class => true,
    }
}

/// Whether a text may stand at such a place in a script of this version, whatever it says.
fn stands(version: u32, leaf: Leaf) -> bool
    ensures { result ≡ stands version leaf }
{
    match leaf {
        Leaf::Comment => COMMENTS_SINCE <= version,
        Leaf::Found(object) => has_object(version, object),
        Leaf::Text
        | Leaf::New(_)
        | Leaf::Integer
        | Leaf::Number(_, _)
        | Leaf::Boolean
        | Leaf::Bound
        | Leaf::ListFlag
        | Leaf::GatherFlag
        | Leaf::Turns => true,
    }
}

/// Whether such an object may stand in a script of this version.
pub fn object_stands(version: u32, keyed: Keyed) -> bool
    ensures { result ≡ object_stands version keyed }
{
    match keyed {
        Keyed::Failure => FAILURES_SINCE <= version,
        Keyed::Body(since) => since <= version,
        Keyed::Script(_) | Keyed::Cooperator(_) => true,
    }
}

/// Whether a class is looked up there.
pub fn is_class(leaf: Leaf) -> bool
    ensures { result ≡ is_class leaf }
{
    match leaf {
        Leaf::Found(object) => match object {
            Object::Class => true,
            Object::Deferred
            | Object::Lock
            | Object::Queue
            | Object::Call
            | Object::Loop
            | Object::Task
            | Object::Pool
            | Object::Body
            | Object::Cooperator => false,
        },
        Leaf::Text
        | Leaf::New(_)
        | Leaf::Integer
        | Leaf::Number(_, _)
        | Leaf::Boolean
        | Leaf::Bound
        | Leaf::ListFlag
        | Leaf::GatherFlag
        | Leaf::Turns
        | Leaf::Comment => false,
    }
}

/// Whether a pool is looked up there.
pub fn is_pool(leaf: Leaf) -> bool
    ensures { result ≡ is_pool leaf }
{
    match leaf {
        Leaf::Found(object) => match object {
            Object::Pool => true,
            Object::Deferred
            | Object::Lock
            | Object::Queue
            | Object::Call
            | Object::Loop
            | Object::Task
            | Object::Class
            | Object::Body
            | Object::Cooperator => false,
        },
        Leaf::Text
        | Leaf::New(_)
        | Leaf::Integer
        | Leaf::Number(_, _)
        | Leaf::Boolean
        | Leaf::Bound
        | Leaf::ListFlag
        | Leaf::GatherFlag
        | Leaf::Turns
        | Leaf::Comment => false,
    }
}

/// Whether a body is looked up there.
pub fn is_body(leaf: Leaf) -> bool
    ensures { result ≡ is_body leaf }
{
    match leaf {
        Leaf::Found(object) => match object {
            Object::Body => true,
            Object::Deferred
            | Object::Lock
            | Object::Queue
            | Object::Call
            | Object::Loop
            | Object::Task
            | Object::Pool
            | Object::Class
            | Object::Cooperator => false,
        },
        Leaf::Text
        | Leaf::New(_)
        | Leaf::Integer
        | Leaf::Number(_, _)
        | Leaf::Boolean
        | Leaf::Bound
        | Leaf::ListFlag
        | Leaf::GatherFlag
        | Leaf::Turns
        | Leaf::Comment => false,
    }
}

/// Whether a Cooperator is looked up there.
pub fn is_cooperator(leaf: Leaf) -> bool
    ensures { result ≡ is_cooperator leaf }
{
    match leaf {
        Leaf::Found(object) => match object {
            Object::Cooperator => true,
            Object::Deferred
            | Object::Lock
            | Object::Queue
            | Object::Call
            | Object::Loop
            | Object::Task
            | Object::Pool
            | Object::Class
            | Object::Body => false,
        },
        Leaf::Text
        | Leaf::New(_)
        | Leaf::Integer
        | Leaf::Number(_, _)
        | Leaf::Boolean
        | Leaf::Bound
        | Leaf::ListFlag
        | Leaf::GatherFlag
        | Leaf::Turns
        | Leaf::Comment => false,
    }
}

/// Whether a class that is looked up is in this table.
pub fn is_known(classes: &Classes, leaf: Leaf, name: &str) -> bool
    ensures { result ≡ is_known classes.now leaf name.now }
{
    !is_class(leaf) || classes.find(name).is_some()
}

/// Whether a pool of this name is among these.
pub fn is_among(name: &str, pools: &[NamedPool]) -> bool
    ensures { result ≡ is_among name.now pools.now }
{
    pools.iter().any(|pool| pool.name.as_str() == name)
}

/// Whether a pool that is looked up is one of these.
fn is_pooled(pools: &[NamedPool], leaf: Leaf, name: &str) -> bool
    ensures { result ≡ is_pooled pools.now leaf name.now }
{
    !is_pool(leaf) || is_among(name, pools)
}

/// Whether one of these bodies has this name.
pub fn has_body(name: &str, bodies: &[NamedBody]) -> bool
    ensures { result ≡ has_body name.now bodies.now }
{
    bodies.iter().any(|body| body.name.as_str() == name)
}

/// Whether a body that is looked up is one of these.
fn is_declared(bodies: &[NamedBody], leaf: Leaf, name: &str) -> bool
    ensures { result ≡ is_declared bodies.now leaf name.now }
{
    !is_body(leaf) || has_body(name, bodies)
}

/// Whether one of these Cooperators has this name.
pub fn has_cooperator(name: &str, cooperators: &[NamedCooperator]) -> bool
    ensures { result ≡ has_cooperator name.now cooperators.now }
{
    cooperators
        .iter()
        .any(|cooperator| cooperator.name.as_str() == name)
}

/// Whether a Cooperator that is looked up is one of these.
fn is_scheduled(cooperators: &[NamedCooperator], leaf: Leaf, name: &str) -> bool
    ensures { result ≡ is_scheduled cooperators.now leaf name.now }
{
    !is_cooperator(leaf) || has_cooperator(name, cooperators)
}

/// Whether a text at the place of a leaf may stand there in a script of this version, is well
/// named, and is found if a class, a pool, a body or a Cooperator is looked up there.
fn suits_every(
    version: u32,
    classes: &Classes,
    pools: &[NamedPool],
    bodies: &[NamedBody],
    cooperators: &[NamedCooperator],
    leaf: Leaf,
    name: &str,
) -> bool
    ensures { result ≡ (stands version leaf && is_named version leaf name.now
        && is_known classes.now leaf name.now && is_pooled pools.now leaf name.now
        && is_declared bodies.now leaf name.now && is_scheduled cooperators.now leaf name.now) }
{
    match leaf {
        Leaf::Found(Object::Deferred) => names_one(version, name),
        Leaf::Found(Object::Class) => classes.find(name).is_some(),
        Leaf::Found(Object::Pool) => is_name(version, name) && is_among(name, pools),
        Leaf::Found(Object::Body) => {
            has_object(version, Object::Body) && is_name(version, name) && has_body(name, bodies)
        }
        Leaf::Found(Object::Cooperator) => {
            has_object(version, Object::Cooperator)
                && is_name(version, name)
                && has_cooperator(name, cooperators)
        }
        Leaf::New(_)
        | Leaf::Found(Object::Lock | Object::Queue | Object::Call | Object::Loop | Object::Task) =>
            is_name(version, name),
        Leaf::Comment => stands(version, leaf),
        Leaf::Text
        | Leaf::Integer
        | Leaf::Number(_, _)
        | Leaf::Boolean
        | Leaf::Bound
        | Leaf::ListFlag
        | Leaf::GatherFlag
        | Leaf::Turns => true,
    }
}

impl Question<'_> {
    /// Whether a text answers well at the place of a leaf.
    pub fn of_leaf(&self, leaf: Leaf, name: &str) -> bool
        ensures { result ≡ (asked_by self.now).of_leaf leaf name.now }
    {
        match self {
            Question::Words(version) => stands(*version, leaf),
            Question::Names(version) => is_named(*version, leaf, name),
            Question::Classes(classes) => is_known(classes, leaf, name),
            Question::Pools(pools) => is_pooled(pools, leaf, name),
            Question::Bodies(bodies) => is_declared(bodies, leaf, name),
            Question::Cooperators(cooperators) => is_scheduled(cooperators, leaf, name),
            Question::Every(version, classes, pools, bodies, cooperators) => {
                suits_every(*version, classes, pools, bodies, cooperators, leaf, name)
            }
        }
    }

    /// Whether the word of a call answers well.
    pub fn of_word(&self, call: CallKind, word: &str) -> bool
        ensures { result ≡ (asked_by self.now).of_word call word.now }
    {
        match self {
            Question::Words(version) | Question::Every(version, _, _, _, _) => {
                may_stand(call, word, *version)
            }
            Question::Names(_)
            | Question::Classes(_)
            | Question::Pools(_)
            | Question::Bodies(_)
            | Question::Cooperators(_) => true,
        }
    }

    /// Whether the word of a call answers well, where a form of it stands since this version.
    pub fn of_word_since(&self, call: CallKind, word: &str, since: u32) -> bool
        requires since { (version : ℕ) → since ≤ version → may_stand call word.now version ≡ true }
        ensures { result ≡ (asked_by self.now).of_word call word.now }
    {
        match self {
            Question::Words(version) | Question::Every(version, _, _, _, _) => {
                since <= *version || may_stand(call, word, *version)
            }
            Question::Names(_)
            | Question::Classes(_)
            | Question::Pools(_)
            | Question::Bodies(_)
            | Question::Cooperators(_) => true,
        }
    }

    /// Whether such an object answers well.
    pub fn of_object(&self, keyed: Keyed) -> bool
        ensures { result ≡ (asked_by self.now).of_object keyed }
    {
        match self {
            Question::Words(version) | Question::Every(version, _, _, _, _) => {
                object_stands(*version, keyed)
            }
            Question::Names(_)
            | Question::Classes(_)
            | Question::Pools(_)
            | Question::Bodies(_)
            | Question::Cooperators(_) => true,
        }
    }
}
