ghost use Rattle.std.specs.Prelude.{◌≡◌, ◌↔◌, ◌<◌, ◌≤◌, ◌+◌, ◌++◌, ◌∷◌, [], length, replicate};
ghost use Rattle.std.specs.Prelude.{IfOk, IfSome, IsTrue, IsFalse};
ghost use Rattle.std.specs.Arc.{arc_value};
ghost use Rattle.crossbeam_deque.specs.Handles.{worker_index, worker_view};
ghost use Rattle.crossbeam_queue.specs.Passes.{view};
ghost use Rattle.dv_pool.specs.Rules.{all_parts, FindsEmptied, IsEmptied};
ghost use Rattle.dv_script.specs.declared.work.TheConstants.{MOST_JOBS};
ghost use Rattle.dv_jobs.specs.Sources.{IsSubmitted, IsValueUnder};
ghost use Rattle.dv_pool.specs.Worker.{IsEndOf, IsFresh, HasServed};
ghost use Rattle.dv_pool.specs.Parts.{empty_place, no_work, jobs_in, MayBeOf, MayStay, TakesIn};
ghost use Rattle.dv_pool.specs.Parts.{Awaits, IsOrderly, HasPlaced, StaysPlaced, HasSubmitted};
ghost use Rattle.dv_pool.specs.Parts.{IsSamePool, Keeps};

use crate::answer_queue::AnswerToken;
use crate::job_deque::Owner;
use crate::worker::{End, Shared};
use crate::{answer_queue, job_deque};
use dv_jobs::answer::{is_of, job_in, value_in};
use dv_jobs::gate::{Gate, OWNER};
use dv_jobs::job::{Answer, Job};
use dv_script::work::{MOST_JOBS, Work};
use dv_value::value::Value;
use std::alloc::{AllocError, Global};
use std::sync::atomic::AtomicU32;
use std::sync::{Arc, Wait};

/// What the owner of a pool holds: its end of the deque, its token of the queue, and a place for
/// the answer of each number.
#[derive(Drop)]
pub struct Parts {
    pub shared: Arc<Shared>,
    pub jobs: Owner,
    pub answers: AnswerToken,
    pub places: Vec<Option<Answer>>,
}

/// Whether an answer may be that of the job of this work; where there is none yet, any may.
fn may_be_of(work: &Option<Work>, answer: &Answer) -> bool
    ensures { IsTrue result ↔ MayBeOf work.now answer.now }
{
    match work {
        None => true,
        Some(work) => is_of(answer, work),
    }
}

/// Puts an answer to its number. A second answer is ignored, and so is a result for the wrong work.
fn place(works: &[Option<Work>], places: &mut Vec<Option<Answer>>, answer: Answer)
    requires { length works.now ≡ length places.old.items }
    ensures takes { TakesIn works.now places.old.items answer places.new.items }
    ensures len { length places.new.items ≡ length places.old.items }
{
    let job = job_in(&answer);
    let number = job.number as usize;
    if number >= places.len() {
        drop(answer);
        return;
    }
    if places[number].is_some() {
        drop(answer);
        return;
    }
    if may_be_of(&works[number], &answer) {
        places[number] = Some(answer);
    } else {
        drop(answer);
    }
}

/// Whether there is no answer, or one of this work.
fn may_stay(place: &Option<Answer>, work: &Work) -> bool
    ensures { IsTrue result ↔ MayStay place.now work.now }
{
    match place {
        None => true,
        Some(answer) => is_of(answer, work),
    }
}

/// Makes the place of a number that of the job of this work. A result for the wrong work that is
/// there is ignored.
pub fn await_work(places: &mut Vec<Option<Answer>>, number: usize, work: &Work)
    requires { number < length places.old.items }
    ensures awaits { Awaits places.old.items number work.now places.new.items }
    ensures len { length places.new.items ≡ length places.old.items }
{
    if !may_stay(&places[number], work) {
        places[number] = None;
    }
}

/// A place for each number.
fn empty_places(alloc: Global) -> Result<Vec<Option<Answer>>, AllocError>
    ensures { IfOk result (λ places. places.items ≡ replicate MOST_JOBS empty_place) }
{
    let mut places = Vec::with_capacity(alloc, MOST_JOBS)?;
    for _ in 0..MOST_JOBS {
        places.push_reserved(None);
    }
    Ok(places)
}

/// A place for the work of each number.
pub fn no_works(alloc: Global) -> Result<Vec<Option<Work>>, AllocError>
    ensures { IfOk result (λ works. works.items ≡ replicate MOST_JOBS no_work) }
{
    let mut works = Vec::with_capacity(alloc, MOST_JOBS)?;
    for _ in 0..MOST_JOBS {
        works.push_reserved(None);
    }
    Ok(works)
}

impl Parts {
    /// Every part of an empty deque and an empty queue.
    pub fn open(alloc: Global) -> Result<Parts, AllocError>
        ensures orderly { IfOk result IsOrderly }
        ensures placed { IfOk result (HasPlaced (replicate MOST_JOBS no_work)) }
        ensures whole { IfOk result (λ parts. (worker_view parts.jobs).parts ≡ all_parts) }
        ensures fresh { IfOk result (λ parts. ((worker_view parts.jobs).put ≡ [])
            × (worker_index parts.jobs ≡ 0)) }
    {
        let places = empty_places(alloc)?;
        let jobs = job_deque::open(alloc)?;
        let thief = jobs.stealer()?;
        let (answers, token) = answer_queue::open(alloc)?;
        let shared = Shared {
            thief,
            answers,
            leaving: AtomicU32::new(OWNER),
        };
        let shared = Arc::new(alloc, shared)?;
        Ok(Parts {
            shared,
            jobs,
            answers: token,
            places,
        })
    }

    /// New tokens for a worker.
    pub fn split(&mut self) -> End
        requires orderly { IsOrderly self.old }
        requires two { 1 < (worker_view self.old.jobs).parts }
        ensures orderly { IsOrderly self.new }
        ensures placed { StaysPlaced self.old self.new }
        ensures same { IsSamePool self.old self.new }
        ensures parts { (worker_view self.new.jobs).parts + 1 ≡ (worker_view self.old.jobs).parts }
        ensures end { IsEndOf (arc_value self.old.shared) result }
        ensures fresh { IsFresh result }
    {
        let jobs = job_deque::split(&mut self.jobs);
        let answers = answer_queue::split(&self.shared.answers, &mut self.answers);
        End { jobs, answers }
    }

    /// Takes the tokens of a worker that has left.
    pub fn absorb(&mut self, end: End)
        requires orderly { IsOrderly self.old }
        requires end { IsEndOf (arc_value self.old.shared) end }
        requires served { HasServed end }
        ensures orderly { IsOrderly self.new }
        ensures placed { StaysPlaced self.old self.new }
        ensures same { IsSamePool self.old self.new }
        ensures parts { (worker_view self.new.jobs).parts ≡ (worker_view self.old.jobs).parts + 1 }
    {
        let End { jobs, answers } = end;
        job_deque::absorb(&mut self.jobs, jobs);
        answer_queue::absorb(&self.shared.answers, &mut self.answers, answers);
    }

    /// Puts a job.
    pub fn put(&mut self, job: Job)
        requires orderly { IsOrderly self.old }
        requires room { worker_index self.old.jobs < MOST_JOBS }
        ensures orderly { IsOrderly self.new }
        ensures placed { StaysPlaced self.old self.new }
        ensures shared { arc_value self.new.shared ≡ arc_value self.old.shared }
        ensures parts { (worker_view self.new.jobs).parts ≡ (worker_view self.old.jobs).parts }
        ensures put { (worker_view self.new.jobs).put
            ≡ (worker_view self.old.jobs).put ++ job ∷ [] }
        ensures index { worker_index self.new.jobs ≡ worker_index self.old.jobs + 1 }
    {
        job_deque::put(&mut self.jobs, job);
    }

    /// Takes one answer, if there is one, and returns whether there was.
    pub fn collect(&mut self, works: &[Option<Work>]) -> bool
        requires orderly { IsOrderly self.old }
        requires placed { HasPlaced works.now self.old }
        ensures orderly { IsOrderly self.new }
        ensures placed { HasPlaced works.now self.new }
        ensures keeps { Keeps self.old self.new }
    {
        match answer_queue::take(&self.shared.answers, &mut self.answers) {
            Some(answer) => {
                place(works, &mut self.places, answer);
                true
            }
            None => false,
        }
    }

    /// As `collect`. If the holder of every part finds no answer, all were taken.
    pub fn collect_last<R: Wait>(&mut self, rt: &R, works: &[Option<Work>]) -> bool
        requires orderly { IsOrderly self.old }
        requires placed { HasPlaced works.now self.old }
        requires whole { (worker_view self.old.jobs).parts ≡ all_parts }
        ensures orderly { IsOrderly self.new }
        ensures placed { HasPlaced works.now self.new }
        ensures keeps { Keeps self.old self.new }
        ensures jobs { worker_view self.new.jobs ≡ worker_view self.old.jobs }
        ensures none { IsFalse result → IsEmptied (view self.new.answers) }
    {
        match answer_queue::take_last(rt, &self.shared.answers, &mut self.answers) {
            Some(answer) => {
                place(works, &mut self.places, answer);
                true
            }
            None => false,
        }
    }

    /// Answers one job, if there is one. Returns whether there was. If the holder of every part
    /// finds no job, all were taken.
    pub fn help<G: Gate>(&mut self, alloc: Global, works: &[Option<Work>], gate: &G) -> bool
        requires orderly { IsOrderly self.old }
        requires placed { HasPlaced works.now self.old }
        ensures orderly { IsOrderly self.new }
        ensures placed { HasPlaced works.now self.new }
        ensures keeps { Keeps self.old self.new }
        ensures none { IsFalse result → FindsEmptied (worker_view self.new.jobs) }
    {
        match job_deque::take(&mut self.jobs) {
            Some(job) => {
                place(works, &mut self.places, gate.answer(alloc, OWNER, job));
                true
            }
            None => false,
        }
    }

    /// Returns the value of a job, where it was answered. AllocError where its gate, or this call,
    /// was out of memory.
    pub fn value(
        &self,
        alloc: Global,
        works: &[Option<Work>],
        number: u32,
    ) -> Option<Result<Value, AllocError>>
        requires placed { HasPlaced works.now self.now }
        requires known { IsSubmitted number (jobs_in 0 works.now) }
        ensures { IfSome result (λ given. IfOk given (IsValueUnder number (jobs_in 0 works.now))) }
    {
        match &self.places[number as usize] {
            Some(answer) => Some(value_in(alloc, answer)),
            None => None,
        }
    }
}
