ghost use Rattle.std.specs.Prelude.{◌≡◌, ◌<◌, ◌+◌, ◌-◌, ◌++◌, ◌∷◌, [], IfOk, IfSome, IfNone};
ghost use Rattle.crossbeam_queue.specs.Passes.{view, IsPassOf};
ghost use Rattle.dv_pool.specs.Rules.{all_parts, hand, FindsEmptied};

use crate::rule::{Cut, Hand};
use crossbeam_queue::protocol::{Lesson, Outcome, Protocol};
use crossbeam_queue::{Pass, RuledArrayQueue};
use dv_jobs::job::Answer;
use dv_script::work::MOST_JOBS;
use std::alloc::{AllocError, Global};
use std::sync::Wait;
use std::thread;

/// What is put is what is taken and what is left.
pub struct Fair;

impl<T> Protocol<T, Hand<T>> for Fair {
    ghost use Rattle.std.specs.Prelude.{[]};
    ghost use Rattle.dv_pool.specs.Rules.{all_parts, hand, Balanced};

    ghost holds = { Balanced };

    ghost first = { hand all_parts [] [] };
}

/// What is put.
pub struct Puts;

impl<T> Outcome<T, Hand<T>> for Puts {
    ghost use Rattle.std.specs.Prelude.{◌≡◌, [], ◌∷◌, ◌++◌};
    ghost use Rattle.dv_pool.specs.Rules.{hand};

    ghost then = { λ v x w. w ≡ hand v.parts (v.put ++ x ∷ []) v.taken };
}

/// What is taken. The holder of every part learns the whole.
pub struct Takes;

impl<T> Outcome<T, Hand<T>> for Takes {
    ghost use Rattle.std.specs.Prelude.{◌≡◌, [], ◌∷◌, ◌++◌};
    ghost use Rattle.dv_pool.specs.Rules.{hand};

    ghost then = { λ v x w. w ≡ hand v.parts v.put (v.taken ++ x ∷ []) };
}

impl<T> Lesson<T, Hand<T>> for Takes {
    ghost use Rattle.dv_pool.specs.Rules.{Settles};

    ghost fact = { Settles };
}

/// The answers that wait for the owner.
pub type Answers = RuledArrayQueue<Answer, Hand<Answer>, Fair>;

/// The right to put and take answers.
pub type AnswerToken = Pass<Answer, Hand<Answer>>;

/// An empty queue with a place for each job, and the token that has every part.
pub fn open(alloc: Global) -> Result<(Answers, AnswerToken), AllocError>
    ensures token { IfOk result (λ r. IsPassOf r.0 r.1) }
    ensures empty { IfOk result (λ r. view r.1 ≡ hand all_parts [] []) }
{
    Answers::ruled(alloc, MOST_JOBS)
}

/// Puts an answer at the back, and waits while there is no place.
pub fn put<R: Wait>(rt: &R, answers: &Answers, token: &mut AnswerToken, answer: Answer)
    requires token { IsPassOf answers.now token.old }
    requires part { 0 < (view token.old).parts }
    ensures token { IsPassOf answers.now token.new }
    ensures put { view token.new ≡ hand (view token.old).parts ((view token.old).put ++ answer ∷ [])
        (view token.old).taken }
{
    let mut answer = answer;
    for _ in rt.forever() {
        match answers.try_push_as::<Puts>(token, answer) {
            Ok(()) => return,
            Err(back) => answer = back,
        }
        thread::yield_now();
    }
    unreachable!()
}

/// Takes the answer at the front, and doesn't wait; None also where a worker is about to put one.
pub fn take(answers: &Answers, token: &mut AnswerToken) -> Option<Answer>
    requires token { IsPassOf answers.now token.old }
    requires part { 0 < (view token.old).parts }
    ensures token { IsPassOf answers.now token.new }
    ensures taken { IfSome result (λ answer. view token.new ≡ hand (view token.old).parts
        (view token.old).put ((view token.old).taken ++ answer ∷ [])) }
    ensures none { IfNone result (view token.new ≡ view token.old) }
{
    answers.try_pop_as::<Takes>(token)
}

/// Takes the answer at the front. If the holder of every part finds none, all were taken.
pub fn take_last<R: Wait>(rt: &R, answers: &Answers, token: &mut AnswerToken) -> Option<Answer>
    requires token { IsPassOf answers.now token.old }
    requires part { 0 < (view token.old).parts }
    ensures token { IsPassOf answers.now token.new }
    ensures taken { IfSome result (λ answer. view token.new ≡ hand (view token.old).parts
        (view token.old).put ((view token.old).taken ++ answer ∷ [])) }
    ensures none { IfNone result ((view token.new ≡ view token.old)
        × FindsEmptied (view token.old)) }
{
    answers.pop_as::<Takes, R>(rt, token)
}

/// A token for a worker, with one part of this one's.
pub fn split(answers: &Answers, token: &mut AnswerToken) -> AnswerToken
    requires token { IsPassOf answers.now token.old }
    requires part { 1 < (view token.old).parts }
    ensures token { IsPassOf answers.now token.new }
    ensures left { view token.new ≡ hand ((view token.old).parts - 1)
        (view token.old).put (view token.old).taken }
    ensures other { IsPassOf answers.now result }
    ensures fresh { view result ≡ hand 1 [] [] }
{
    answers.another::<Cut>(token)
}

/// A token comes back.
pub fn absorb(answers: &Answers, token: &mut AnswerToken, other: AnswerToken)
    requires token { IsPassOf answers.now token.old }
    requires part { 0 < (view token.old).parts }
    requires other { IsPassOf answers.now other }
    ensures token { IsPassOf answers.now token.new }
    ensures both { view token.new ≡ hand ((view token.old).parts + (view other).parts)
        ((view token.old).put ++ (view other).put) ((view token.old).taken ++ (view other).taken) }
{
    answers.absorb::<Cut>(token, other);
}
