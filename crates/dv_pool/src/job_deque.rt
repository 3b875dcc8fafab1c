ghost use Rattle.std.specs.Prelude.{◌≡◌, ◌<◌, ◌≤◌, ◌+◌, ◌-◌, ◌++◌, ◌∷◌, [], IfOk, IfSome, IfNone};
ghost use Rattle.crossbeam_deque.specs.Handles.{view, IsPassOf, SamePass, SameWorker};
ghost use Rattle.crossbeam_deque.specs.Handles.{stealer_deque, worker_deque, worker_view};
ghost use Rattle.crossbeam_deque.specs.Handles.{worker_index, worker_capacity, worker_flavor};
ghost use Rattle.dv_pool.specs.Rules.{all_parts, hand, FindsEmptied};
ghost use Rattle.dv_script.specs.declared.work.TheConstants.{MOST_JOBS};

use crate::rule::{Cut, Hand};
use crossbeam_deque::protocol::{Outcome, Protocol};
use crossbeam_deque::{Pass, Steal, Stealer, Worker};
use dv_jobs::job::Job;
use dv_script::work::MOST_JOBS;
use std::alloc::{AllocError, Global};

/// What is put is what is taken and what is left.
pub struct Fair;

impl<T> Protocol<T, Hand<T>> for Fair {
    ghost use Rattle.std.specs.Prelude.{[]};
    ghost use Rattle.dv_pool.specs.Rules.{all_parts, hand, Balanced};

    ghost holds = { Balanced };

    ghost first = { hand all_parts [] [] };

    ghost guest = { hand 0 [] [] };
}

/// What the owner puts.
pub struct Puts;

impl<T> Outcome<T, Hand<T>> for Puts {
    ghost use Rattle.std.specs.Prelude.{◌≡◌, ◌++◌};
    ghost use Rattle.dv_pool.specs.Rules.{hand};

    ghost then = { λ v xs w. w ≡ hand v.parts (v.put ++ xs) v.taken };
}

/// What the owner takes.
pub struct Takes;

impl<T> Outcome<T, Hand<T>> for Takes {
    ghost use Rattle.std.specs.Prelude.{◌≡◌, ◌++◌};
    ghost use Rattle.dv_pool.specs.Rules.{hand, FindsEmptied};

    ghost then = { λ v xs w. w ≡ hand v.parts v.put (v.taken ++ xs) };

    ghost empty = { FindsEmptied };
}

/// What a thief takes.
pub struct Steals;

impl<T> Outcome<T, Hand<T>> for Steals {
    ghost use Rattle.std.specs.Prelude.{◌≡◌, ◌++◌};
    ghost use Rattle.dv_pool.specs.Rules.{hand};

    ghost then = { λ v xs w. w ≡ hand v.parts v.put (v.taken ++ xs) };
}

/// The owner's end.
pub type Owner = Worker<Job, Global, Hand<Job>, Fair>;

/// What the workers share.
pub type Thief = Stealer<Job, Global, Hand<Job>, Fair>;

/// A worker's right to take jobs.
pub type JobToken = Pass<Job, Hand<Job>>;

/// An empty deque with room for all jobs, and every part in the owner's hand.
pub fn open(alloc: Global) -> Result<Owner, AllocError>
    ensures fifo { IfOk result (λ owner. worker_flavor owner ≡ 0) }
    ensures room { IfOk result (λ owner. (MOST_JOBS ≤ worker_capacity owner)
        × (worker_index owner ≡ 0)) }
    ensures empty { IfOk result (λ owner. worker_view owner ≡ hand all_parts [] []) }
{
    Owner::fifo_as(alloc, MOST_JOBS)
}

/// Puts a job at the back. It is never refused, since it is one of the first that there is room
/// for.
pub fn put(owner: &mut Owner, job: Job)
    requires room { (worker_index owner.old < MOST_JOBS) × (MOST_JOBS ≤ worker_capacity owner.old) }
    requires part { 0 < (worker_view owner.old).parts }
    ensures same { SameWorker owner.old owner.new }
    ensures index { worker_index owner.new ≡ worker_index owner.old + 1 }
    ensures put { worker_view owner.new
        ≡ hand (worker_view owner.old).parts ((worker_view owner.old).put ++ job ∷ [])
        (worker_view owner.old).taken }
{
    match owner.push_as::<Puts>(job) {
        Ok(()) => {}
        Err(_) => unreachable!(),
    }
}

/// The owner takes the job at the front. If it holds every part and finds none, all were taken.
pub fn take(owner: &mut Owner) -> Option<Job>
    requires part { 0 < (worker_view owner.old).parts }
    requires fifo { worker_flavor owner.old ≡ 0 }
    ensures same { SameWorker owner.old owner.new }
    ensures index { worker_index owner.new ≤ worker_index owner.old }
    ensures taken { IfSome result (λ job. worker_view owner.new ≡ hand (worker_view owner.old).parts
        (worker_view owner.old).put ((worker_view owner.old).taken ++ job ∷ [])) }
    ensures none { IfNone result ((worker_view owner.new ≡ worker_view owner.old)
        × FindsEmptied (worker_view owner.old)) }
{
    owner.pop_as::<Takes>()
}

/// A worker takes the job at the front; None also where another worker was faster.
pub fn steal(thief: &Thief, token: &mut JobToken) -> Option<Job>
    requires token { IsPassOf (stealer_deque thief.now) token.old }
    requires part { 0 < (view token.old).parts }
    ensures same { SamePass token.old token.new }
    ensures taken { IfSome result (λ job. view token.new
        ≡ hand (view token.old).parts (view token.old).put ((view token.old).taken ++ job ∷ [])) }
    ensures none { IfNone result (view token.new ≡ view token.old) }
{
    match thief.steal_as::<Steals>(token) {
        Steal::Success(job) => Some(job),
        Steal::Empty | Steal::Retry => None,
    }
}

/// A token for a worker, with one part of the owner's.
pub fn split(owner: &mut Owner) -> JobToken
    requires { 1 < (worker_view owner.old).parts }
    ensures same { SameWorker owner.old owner.new }
    ensures index { worker_index owner.new ≡ worker_index owner.old }
    ensures left { worker_view owner.new ≡ hand ((worker_view owner.old).parts - 1)
        (worker_view owner.old).put (worker_view owner.old).taken }
    ensures token { IsPassOf (worker_deque owner.old) result }
    ensures fresh { view result ≡ hand 1 [] [] }
{
    owner.another::<Cut>()
}

/// A token comes back.
pub fn absorb(owner: &mut Owner, token: JobToken)
    requires part { 0 < (worker_view owner.old).parts }
    requires token { IsPassOf (worker_deque owner.old) token }
    ensures same { SameWorker owner.old owner.new }
    ensures index { worker_index owner.new ≡ worker_index owner.old }
    ensures both { worker_view owner.new ≡ hand ((worker_view owner.old).parts + (view token).parts)
        ((worker_view owner.old).put ++ (view token).put)
        ((worker_view owner.old).taken ++ (view token).taken) }
{
    owner.absorb::<Cut>(token);
}
