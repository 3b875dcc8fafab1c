use dv_script::lent::{ClassesRef, Statements};
use dv_value::boxed::Boxed;
use dv_value::failure::Failure;
use dv_value::value::Value;

/// What a `try` does with a failure that is thrown in its first statements.
#[derive(Drop)]
pub struct Catch<'s> {
    /// It catches one of these classes,
    pub classes: ClassesRef<'s>,
    /// and goes on with these statements.
    pub second: Statements<'s>,
}

/// How the first statements of a `finally` ended, and so how the body goes on after the second.
#[derive(Drop)]
pub enum Onward {
    /// Past the last of them, with this present value.
    Past(Value),
    /// By this failure, which was thrown in them.
    Thrown(Boxed<Failure>),
    /// By an end in them, which leaves the body with this.
    Left(Value),
}

/// Which statements of a `try` or a `finally` a body is inside of.
#[derive(Drop)]
pub enum Inside<'s> {
    /// The first ones of a `try`, which catches so.
    Try(Catch<'s>),
    /// The second ones of a `try`, which caught this failure. Nothing is caught there.
    Caught(Boxed<Failure>),
    /// The first ones of a `finally`, whose second ones are these.
    Finally(Statements<'s>),
    /// The second ones of a `finally`, after which the body goes on so.
    Ending(Onward),
}

/// A `try` or a `finally` that a body is inside of.
#[derive(Drop)]
pub struct Open<'s> {
    pub inside: Inside<'s>,
    /// What follows the statement.
    pub rest: Statements<'s>,
}
