use crate::action::Action;
use dv_value::boxed::Boxed;
use dv_value::class_id::ClassId;
use dv_value::items::Items;
use dv_value::text::Text;
use dv_value::value::Value;

/// How a body returns its result, from its input.
#[derive(Drop)]
pub enum End {
    /// The value, whatever the input.
    Return(Value),
    /// The input.
    Pass,
    /// The input, which is an integer, plus this.
    Plus(i64),
    /// A failure of this class and message.
    Raise(ClassId, Text),
    /// The value, where the input is a failure of one of these classes (Twisted: `Failure.trap`).
    Trap(Items<ClassId>, Boxed<Value>),
    /// The Deferred of this name.
    Wait(Text),
    /// What the body of this name returns for the input. It runs in place of this one, and `@`
    /// stands for the same in it.
    Run(Text),
    /// The failure at this path in the input, each of whose numbers is a place in a list, from 0 on
    /// (Twisted: `Failure.raiseException`).
    Throw(Items<u32>),
}

/// What an inline body does, one after the other (Twisted: the lines of a function under
/// `inlineCallbacks`).
#[cycle(script)]
#[derive(Drop)]
pub enum Statement {
    /// Performs the action. What it raises is thrown here.
    Do(Action),
    /// Waits for the Deferred of this name. Its value becomes the present one, its failure is
    /// thrown here.
    Await(Text),
    /// The first statements, and where these classes are thrown there, the second ones.
    Try(Items<Statement>, Items<ClassId>, Items<Statement>),
    /// The first statements, and then the second ones, however the first ended: past their last
    /// one, by a failure or by an end. After the second it goes on as the first ended.
    Finally(Items<Statement>, Items<Statement>),
    /// Throws the active failure again: the one that the innermost `try` caught whose second
    /// statements it is in, or for which the innermost `finally` runs its second ones.
    Raise,
    /// The present value becomes a list of the active failure alone.
    Caught,
    /// Leaves the inline body, whose input is the present value: `Return`, `Pass`, `Plus`, `Raise`
    /// or `Throw`.
    End(End),
}

/// What a callback, an errback or a canceller does.
#[cycle(script)]
#[derive(Drop)]
pub struct Body {
    /// What it performs first, in order. The first that raises ends it with that failure.
    pub actions: Items<Action>,
    pub end: End,
}
