ghost use Rattle.std.specs.Prelude.{◌≡◌, ◌≢◌, [], ◌∷◌, Some, None, IfOk, OnOk, IfNone, MatchOption};
ghost use Rattle.std.specs.Prelude.{drop};
ghost use Rattle.dv_inline.specs.Meaning.{ended, raised, no_active};
ghost use Rattle.dv_inline.specs.Position.{started, moved, moved_by, over_with, outward};
ghost use Rattle.dv_inline.specs.Position.{run_to_request};
ghost use Rattle.dv_inline.specs.Position.{answered, request_at, class_caught, thrown_from};
ghost use Rattle.dv_inline.specs.Position.{left_from, ended_from};
ghost use Rattle.dv_inline.specs.Position.{went_on, Moves, MovesTo, second_for, ahead, active};
ghost use Rattle.dv_inline.specs.Position.{passed};
ghost use Rattle.dv_inline.specs.Position.{into, into_second, out_of, gone_on, caught_from};
ghost use Rattle.dv_script.specs.declared.body.Statement.{out-Statement};
ghost use Rattle.dv_value.specs.Failure.{failure_in};
ghost use Rattle.dv_value.specs.declared.value.Value.{Null, Fault, List as ListOf};

use crate::open::{Catch, Inside, Onward, Open};
use crate::opens::Opens;
use crate::request::Request;
use dv_script::body::{End, Statement};
use dv_script::lent::{ActionRef, ClassesRef, Statements, TextRef};
use dv_value::boxed::Boxed;
use dv_value::class_id::ClassId;
use dv_value::classes::Classes;
use dv_value::failure::Failure;
use dv_value::fault::{failure, fault};
use dv_value::items::Items;
use dv_value::plus::plus;
use dv_value::stack::Stack;
use dv_value::throw::throw;
use dv_value::value::Value;
use std::alloc::{AllocError, Global};
use std::marker::Model;
use std::mem;

/// How far an inline body is: the statements that are left, the tries and finallys round them, and
/// the present value.
#[derive(Drop)]
pub struct Walk<'s> {
    alloc: Global,
    /// The classes of the script, by which a `try` catches.
    classes: &'s Classes,
    /// Whether an end that fails throws its failure. Else it leaves the body with it.
    ends_throw: bool,
    statements: Statements<'s>,
    opens: Opens<'s>,
    value: Value,
    /// The result of the body, once it is over.
    result: Option<Value>,
}

impl<'s> Model for Walk<'s> {
    ghost use Rattle.dv_inline.specs.Position.{Position};
    ghost use Rattle.dv_script.specs.contracts.body.Statement as statement_contract;
    ghost use Rattle.dv_value.specs.contracts.classes.Class as class_contract;
    ghost use Rattle.dv_value.specs.contracts.failure.Failure as failure_contract;
    ghost use Rattle.dv_value.specs.contracts.value.Value as value_contract;
    ghost use Rattle.std.specs.Coded.{codes};

    ghost Value = { Position };

    ghost coded = { Prim.hlevel (
      codes,
      statement_contract.the_row.coded,
      class_contract.the_row.coded,
      failure_contract.the_row.coded,
      value_contract.the_row.coded,
    ) };

    ghost view = { λ b. record {
      classes = b.classes.now;
      ends_throw = b.ends_throw;
      statements = b.statements;
      opens = b.opens;
      value = b.value;
      result = b.result;
    } };
}

impl<'s> Walk<'s> {
    /// A body at its first statement, with the present value null. It takes no memory before it
    /// goes into a `try` or a `finally`.
    pub fn start(
        alloc: Global,
        classes: &'s Classes,
        ends_throw: bool,
        statements: &'s [Statement],
    ) -> Walk<'s>
        ensures { result ≡ started classes.now ends_throw statements.now }
    {
        Walk {
            alloc,
            classes,
            ends_throw,
            statements: Statements::new(statements),
            opens: Opens::new(alloc),
            value: Value::Null,
            result: None,
        }
    }

    /// What the body requests by the first statement that is left, an action or a name: None if
    /// `poll` has a move to make first, and once the body is over.
    pub fn request(&self) -> Option<Request<'s>>
        ensures { result ≡ request_at self.now }
    {
        if self.result.is_some() {
            return None;
        }
        let (statement, _) = self.statements.split()?;
        match statement {
            Statement::Do(action) => Some(Request::Do(ActionRef::new(action))),
            Statement::Await(name) => Some(Request::Await(TextRef::new(name))),
            Statement::Try(_, _, _)
            | Statement::Finally(_, _)
            | Statement::Raise
            | Statement::Caught
            | Statement::End(_) => None,
        }
    }

    /// Goes on with the answer to what stands: a failure is thrown there, and goes to the innermost
    /// `try` that catches it or `finally`; any other value is the present one after an `await`, and
    /// leaves it as it was after a `do`. Where nothing stands, the answer changes nothing. It takes
    /// no memory.
    pub fn answer(&mut self, answer: Value)
        ensures { self.new ≡ answered answer self.old }
    {
        match self.request() {
            None => drop(answer),
            Some(Request::Do(_)) => self.end_do(answer),
            Some(Request::Await(_)) => self.end_await(answer),
        }
    }

    /// Goes past a `do` with the present value as it was, unless the answer is a failure.
    fn end_do(&mut self, answer: Value)
        ensures { self.new ≡ went_on (failure_in answer) self.old.value self.old }
    {
        match answer {
            Value::Fault(failure) => self.throw(failure),
            Value::Null | Value::Bool(_) | Value::Int(_) | Value::Text(_) | Value::List(_) => {
                self.pass();
            }
        }
    }

    /// Goes past an `await` with the answer as the present value, unless it is a failure.
    fn end_await(&mut self, answer: Value)
        ensures { self.new ≡ went_on (failure_in answer) answer self.old }
    {
        match answer {
            Value::Fault(failure) => self.throw(failure),
            Value::Null | Value::Bool(_) | Value::Int(_) | Value::Text(_) | Value::List(_) => {
                drop(mem::replace(&mut self.value, answer));
                self.pass();
            }
        }
    }

    /// Goes past the first statement.
    fn pass(&mut self)
        ensures { self.new ≡ passed self.old.value self.old }
    {
        if let Some((_, rest)) = self.statements.split() {
            self.statements = rest;
        }
    }

    /// A failure is thrown, and goes outward to the first `try` that catches it, or the first
    /// `finally` whose second statements are ahead.
    fn throw(&mut self, failure: Boxed<Failure>)
        ensures { self.new ≡ thrown_from failure self.old.opens self.old }
    {
        while let Some(around) = self.opens.first() {
            if let Some((second, rest)) = caught_by(self.classes, failure.get(), around) {
                self.enter(second, Inside::Caught(failure), rest);
                return;
            }
            if let Some((second, rest)) = ahead(around) {
                self.enter(second, Inside::Ending(Onward::Thrown(failure)), rest);
                return;
            }
            self.opens.discard();
        }
        self.end(Value::Fault(failure));
    }

    /// An end leaves the body with this, by way of each `finally` whose second statements are
    /// ahead.
    fn leave(&mut self, outcome: Value)
        ensures { self.new ≡ left_from outcome self.old.opens self.old }
    {
        while let Some(around) = self.opens.first() {
            if let Some((second, rest)) = ahead(around) {
                self.enter(second, Inside::Ending(Onward::Left(outcome)), rest);
                return;
            }
            self.opens.discard();
        }
        self.end(outcome);
    }

    /// On to the second statements of the innermost `try` or `finally`, on null.
    fn enter(&mut self, second: Statements<'s>, inside: Inside<'s>, rest: Statements<'s>)
        requires { self.old.opens ≢ [] }
        ensures { self.new ≡ into_second second.entry inside.entry rest.entry
            (drop 1 self.old.opens) self.old }
    {
        self.opens.replace(Open { inside, rest });
        self.statements = second;
        drop(mem::replace(&mut self.value, Value::Null));
    }

    /// The body is over with this.
    fn end(&mut self, outcome: Value)
        ensures { self.new ≡ over_with outcome self.old }
    {
        drop(mem::replace(&mut self.value, Value::Null));
        drop(mem::replace(&mut self.result, Some(outcome)));
    }

    /// Makes the next move that needs no answer, and returns whether there was one.
    fn step(&mut self) -> Result<bool, AllocError>
        ensures { IfOk result (λ moves. Moves moves self.old self.new) }
    {
        if self.result.is_some() {
            return Ok(false);
        }
        match self.statements.split() {
            None => {
                self.go_outward();
                Ok(true)
            }
            Some((statement, rest)) => self.step_by(statement, rest),
        }
    }

    /// Out of the innermost `try` or `finally`, or to the end of the body.
    fn go_outward(&mut self)
        ensures { self.new ≡ outward self.old.opens self.old }
    {
        let Some(around) = self.opens.first() else {
            self.end(Value::Null);
            return;
        };
        if let Some((second, rest)) = ahead(around) {
            let value = mem::replace(&mut self.value, Value::Null);
            self.enter(second, Inside::Ending(Onward::Past(value)), rest);
            return;
        }
        if let Some(around) = self.opens.pop() {
            self.go_past(around);
        }
    }

    /// Past the statement that it was in, whose second statements aren't ahead.
    fn go_past(&mut self, around: Open<'s>)
        requires { ahead around.inside ≡ None }
        ensures { self.new ≡ out_of around.entry.inside around.entry.rest self.old }
    {
        let Open { inside, rest } = around;
        match inside {
            Inside::Try(_) | Inside::Caught(_) | Inside::Finally(_) => self.statements = rest,
            Inside::Ending(onward) => self.go_on(onward, rest),
        }
    }

    /// On as the first statements of a `finally` ended, which this follows.
    fn go_on(&mut self, onward: Onward, rest: Statements<'s>)
        ensures { self.new ≡ gone_on onward rest.entry self.old }
    {
        match onward {
            Onward::Past(value) => {
                self.statements = rest;
                drop(mem::replace(&mut self.value, value));
            }
            Onward::Thrown(failure) => self.throw(failure),
            Onward::Left(outcome) => self.leave(outcome),
        }
    }

    /// Goes into a `try` or a `finally`, throws or catches the active failure, or does what an end
    /// says, and returns whether it did.
    fn step_by(
        &mut self,
        statement: &'s Statement,
        rest: Statements<'s>,
    ) -> Result<bool, AllocError>
        ensures { IfOk result (λ moves. MovesTo moves
            (moved_by (out-Statement statement.now) rest.entry self.old) self.old self.new) }
    {
        match statement {
            Statement::Do(_) | Statement::Await(_) => Ok(false),
            Statement::Try(first, listed, second) => {
                let inside = Inside::Try(Catch {
                    classes: ClassesRef::new(listed.as_slice()),
                    second: Statements::new(second.as_slice()),
                });
                self.go_into(first.as_slice(), inside, rest)?;
                Ok(true)
            }
            Statement::Finally(first, second) => {
                let inside = Inside::Finally(Statements::new(second.as_slice()));
                self.go_into(first.as_slice(), inside, rest)?;
                Ok(true)
            }
            Statement::Raise => {
                self.raise()?;
                Ok(true)
            }
            Statement::Caught => {
                self.catch(rest)?;
                Ok(true)
            }
            Statement::End(end) => {
                self.end_by(end)?;
                Ok(true)
            }
        }
    }

    /// Into the first statements of a `try` or a `finally`.
    fn go_into(
        &mut self,
        first: &'s [Statement],
        inside: Inside<'s>,
        rest: Statements<'s>,
    ) -> Result<(), AllocError>
        ensures { OnOk result (self.new ≡ into first.now inside.entry rest.entry self.old) }
    {
        self.opens.push(Open { inside, rest })?;
        self.statements = Statements::new(first);
        Ok(())
    }

    /// Throws the active failure again; RuntimeError where there is none.
    fn raise(&mut self) -> Result<(), AllocError>
        ensures { OnOk result (self.new
            ≡ thrown_from (raised (active self.old.opens)) self.old.opens self.old) }
    {
        let thrown = match self.active()? {
            Some(failure) => failure,
            None => no_active(self.alloc)?,
        };
        self.throw(thrown);
        Ok(())
    }

    /// The present value becomes a list of the active failure alone; where there is none,
    /// RuntimeError is thrown.
    fn catch(&mut self, rest: Statements<'s>) -> Result<(), AllocError>
        ensures { OnOk result
            (self.new ≡ caught_from (active self.old.opens) rest.entry self.old) }
    {
        match self.active()? {
            Some(failure) => {
                let value = alone(self.alloc, failure)?;
                drop(mem::replace(&mut self.value, value));
                self.statements = rest;
            }
            None => {
                let thrown = no_active(self.alloc)?;
                self.throw(thrown);
            }
        }
        Ok(())
    }

    /// A failure that equals the active one, where there is one.
    fn active(&self) -> Result<Option<Boxed<Failure>>, AllocError>
        ensures { IfOk result (λ found. found ≡ active self.now.opens) }
    {
        match self.opens.active() {
            None => Ok(None),
            Some(failure) => Ok(Some(copied(self.alloc, failure)?)),
        }
    }

    /// An end on the present value.
    fn end_by(&mut self, end: &End) -> Result<(), AllocError>
        ensures { OnOk result (self.new
            ≡ ended_from (ended end.now self.old.value) (record self.old { value = Null })) }
    {
        let value = mem::replace(&mut self.value, Value::Null);
        let outcome = ended(self.alloc, end, value)?;
        self.end_with(outcome);
        Ok(())
    }

    /// Leaves the body with what an end has returned; but where ends throw, a failure is thrown.
    fn end_with(&mut self, outcome: Value)
        ensures { self.new ≡ ended_from outcome self.old }
    {
        if !self.ends_throw {
            self.leave(outcome);
            return;
        }
        match outcome {
            Value::Fault(failure) => self.throw(failure),
            Value::Null | Value::Bool(_) | Value::Int(_) | Value::Text(_) | Value::List(_) => {
                self.leave(outcome);
            }
        }
    }

    /// Makes all moves that need no answer: runs up to the next request, or to the end.
    #[tactic(auto, using(crate::proofs::Moves::step_smaller, crate::proofs::Moves::step_keeps, crate::proofs::Moves::last_step))]
    pub fn run_to_request(&mut self) -> Result<(), AllocError>
        ensures { OnOk result (self.new ≡ run_to_request self.old) }
    {
        while self.step()? {}
        Ok(())
    }

    /// Returns the result of the body, where it is over; it is taken out of the body then.
    pub fn take_result(&mut self) -> Option<Value>
        ensures value { result ≡ self.old.result }
        ensures going { IfNone result (self.new ≡ self.old) }
    {
        self.result.take()
    }
}

/// The second statements of a `try`, and what follows it, where it catches the failure.
fn caught_by<'s>(
    classes: &Classes,
    failure: &Failure,
    around: &Open<'s>,
) -> Option<(Statements<'s>, Statements<'s>)>
    ensures { MatchOption result
        (second_for (class_caught classes.now failure.now around.now.inside) around.now.inside
        ≡ None)
        (λ p. (second_for (class_caught classes.now failure.now around.now.inside) around.now.inside
        ≡ Some p.0) × (p.1 ≡ around.now.rest)) }
{
    let Inside::Try(catch) = &around.inside else {
        return None;
    };
    failure.check(classes, catch.classes.get())?;
    let second = Statements::new(catch.second.get());
    let rest = Statements::new(around.rest.get());
    Some((second, rest))
}

/// The second statements of a `finally`, and what follows it, where they are ahead.
fn ahead<'s>(around: &Open<'s>) -> Option<(Statements<'s>, Statements<'s>)>
    ensures { MatchOption result (ahead around.now.inside ≡ None)
        (λ p. (ahead around.now.inside ≡ Some p.0) × (p.1 ≡ around.now.rest)) }
{
    let Inside::Finally(second) = &around.inside else {
        return None;
    };
    let second = Statements::new(second.get());
    let rest = Statements::new(around.rest.get());
    Some((second, rest))
}

/// What is thrown where no failure is active (Twisted: a bare `raise` outside of any `except`).
fn no_active(alloc: Global) -> Result<Boxed<Failure>, AllocError>
    ensures { IfOk result (λ f. f ≡ no_active) }
{
    failure(alloc, ClassId::RUNTIME_ERROR, "no active exception")
}

fn copied(alloc: Global, failure: &Failure) -> Result<Boxed<Failure>, AllocError>
    ensures { IfOk result (λ f. f ≡ failure.now) }
{
    Boxed::new(alloc, failure.copy(alloc)?)
}

/// A list of a failure alone.
fn alone(alloc: Global, failure: Boxed<Failure>) -> Result<Value, AllocError>
    ensures { IfOk result (λ v. v ≡ ListOf (Fault failure ∷ [])) }
{
    let mut items = Items::new(alloc);
    items.push(Value::Fault(failure))?;
    Value::list(alloc, items)
}

/// What an end returns for the present value. A body has no `Trap`, no `Wait` and no `Run`: they
/// return it as it is.
fn ended(alloc: Global, end: &End, value: Value) -> Result<Value, AllocError>
    ensures { IfOk result (λ v. v ≡ ended end.now value) }
{
    match end {
        End::Return(given) => {
            drop(value);
            given.copy(alloc)
        }
        End::Pass => Ok(value),
        End::Plus(n) => plus(alloc, *n, value),
        End::Raise(class, message) => {
            drop(value);
            fault(alloc, *class, message.as_str())
        }
        End::Throw(path) => throw(alloc, path.as_slice(), &value),
        End::Trap(_, _) | End::Wait(_) | End::Run(_) => Ok(value),
    }
}
