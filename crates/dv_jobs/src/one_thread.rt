ghost use Rattle.std.specs.Prelude.{◌≡◌, [], false};

use crate::answer::value_in;
use crate::error::JobFault;
use crate::gate::{Gate, OWNER};
use crate::job::{Answer, Job};
use crate::ran::Ran;
use crate::source::JobSource;
use dv_script::work::{MOST_JOBS, Work};
use dv_value::value::Value;
use std::alloc::{AllocError, AllocGlobal, Global};
use std::marker::Model;
use std::random::RandomSource;
use std::sync::Wait;
use std::thread::Threads;

/// A source without threads: each job is answered at its submission, at the gate, by the owner,
/// whichever its pool. A job that came back undone, out of memory, counts as answered. Its
/// `outcome`, and `close`, then return AllocError too.
#[derive(Drop)]
pub struct OneThread<'g, G> {
    pools: u32,
    answers: Vec<Answer>,
    gate: &'g G,
}

impl<'g, G> Model for OneThread<'g, G> {
    ghost use Rattle.std.specs.Prelude.{◌≡◌, ◌≤◌, false, length, map};
    ghost use Rattle.std.specs.Coded.{codes};
    ghost use Rattle.dv_jobs.specs.contracts.job.Job as job_contract;
    ghost use Rattle.dv_jobs.specs.Jobs.{job_of};
    ghost use Rattle.dv_jobs.specs.Sources.{Source, AreInRow};
    ghost use Rattle.dv_script.specs.declared.work.TheConstants.{MOST_JOBS};

    ghost Value = { Source };

    ghost coded = { Prim.hlevel (codes, job_contract.the_row.coded) };

    ghost view = { λ s. record {
      pools = s.pools;
      jobs = map job_of s.answers.items;
      failed = false;
    } };

    ghost invariant = { λ s. AreInRow (map job_of s.answers.items)
        × (length s.answers.items ≤ MOST_JOBS) };
}

impl<'g, G: Gate> OneThread<'g, G> {
    /// A source to which nothing was submitted, with so many pools beside the default one. It takes
    /// no memory before that.
    pub fn new(alloc: Global, pools: u32, gate: &'g G) -> OneThread<'g, G>
        ensures { result ≡ record { pools = pools; jobs = []; failed = false } }
    {
        OneThread {
            pools,
            answers: Vec::new(alloc),
            gate,
        }
    }
}

impl<'g, G: Gate> JobSource for OneThread<'g, G> {
    ghost jobs = { λ s. s.jobs };

    ghost pools = { λ s. s.pools };

    ghost failed = { λ s. s.failed };

    fn may_submit(&self) -> Result<(), JobFault> {
        if self.answers.len() < MOST_JOBS {
            Ok(())
        } else {
            Err(JobFault::Full)
        }
    }

    fn submit(&mut self, alloc: Global, _pool: u32, work: Work) -> Result<u32, JobFault> {
        let job = Job::new(self.answers.len() as u32, work);
        let number = job.number;
        self.answers.try_reserve(1).map_err(AllocError::from)?;
        self.answers
            .push_reserved(self.gate.answer(alloc, OWNER, job));
        Ok(number)
    }

    fn outcome<R: Wait + RandomSource + AllocGlobal>(
        &mut self,
        _rt: &R,
        alloc: Global,
        number: u32,
    ) -> Result<Value, AllocError> {
        value_in(alloc, &self.answers[number as usize])
    }

    fn close<R: Threads + Wait>(self, _rt: &R, alloc: Global) -> Result<Ran, AllocError> {
        let OneThread {
            pools: _,
            answers,
            gate: _,
        } = self;
        let mut ran = Ran::new(alloc);
        for answer in answers {
            match answer {
                Ok(done) => ran.add(done)?,
                Err(_) => return Err(AllocError),
            }
        }
        Ok(ran)
    }
}
