ghost use Rattle.std.specs.Prelude.{◌≡◌, ◌<◌, Some, length, slice_get, option_map, OnOk, OnErr};

use dv_script::lent::{TextRef, WorkRef};
use dv_script::work::MOST_JOBS;
use std::alloc::{AllocError, Global};
use std::marker::Model;

/// The works that were submitted as jobs, in order: the number of a job is the place of its work
/// (Twisted: the functions that are given to `deferToThread`). There are 4,096 at most. Beside each
/// is the name of its pool, where that isn't the default one.
#[derive(Drop)]
pub struct Works<'s> {
    works: Vec<WorkRef<'s>>,
    pools: Vec<Option<TextRef<'s>>>,
}

impl<'s> Model for Works<'s> {
    ghost use Rattle.std.specs.Prelude.{◌≡◌, ◌≤◌, length};
    ghost use Rattle.dv_objects.specs.Works.{Works as Seen};
    ghost use Rattle.dv_script.specs.contracts.work.Work as work_contract;
    ghost use Rattle.dv_script.specs.declared.work.TheConstants.{MOST_JOBS};
    ghost use Rattle.std.specs.Coded.{codes};

    ghost Value = { Seen };

    ghost coded = { Prim.hlevel (codes, work_contract.the_row.coded) };

    ghost view = { λ w. record { works = w.works.items; pools = w.pools.items } };

    ghost invariant = { λ w. (length w.works.items ≤ MOST_JOBS)
        × (length w.pools.items ≡ length w.works.items) };
}

impl<'s> Works<'s> {
    ghost use Rattle.std.specs.Prelude.{◌≤◌};
    ghost use Rattle.dv_objects.specs.Works.{is_full, no_works, with_work};

    /// Nothing was submitted.
    pub fn new(alloc: Global) -> Works<'s>
        ensures { result ≡ no_works }
    {
        Works {
            works: Vec::new(alloc),
            pools: Vec::new(alloc),
        }
    }

    /// How many were submitted.
    pub fn len(&self) -> usize
        ensures len { result ≡ length self.now.works }
        ensures few { result ≤ MOST_JOBS }
    {
        self.works.len()
    }

    /// Whether as many were submitted as a run has at most.
    pub fn is_full(&self) -> bool
        ensures { result ≡ is_full self.now.works }
    {
        self.works.len() >= MOST_JOBS
    }

    /// The work of a job, by its number.
    pub fn work(&self, number: usize) -> WorkRef<'s>
        requires known { number < length self.now.works }
        ensures { slice_get self.now.works number ≡ Some result }
    {
        WorkRef::new(self.works[number].get())
    }

    /// The name of a job's pool, by the job's number; None for the default one.
    pub fn pool(&self, number: usize) -> Option<&'s str>
        requires known { number < length self.now.works }
        ensures { slice_get self.now.pools number ≡ Some (option_map (λ name. name.now) result) }
    {
        match &self.pools[number] {
            None => None,
            Some(name) => Some(name.as_str()),
        }
    }

    /// One more is submitted.
    pub fn push(&mut self, pool: Option<TextRef<'s>>, work: WorkRef<'s>) -> Result<(), AllocError>
        requires room { length self.old.works < MOST_JOBS }
        ensures ok { OnOk result (self.new ≡ with_work pool.entry work.entry self.old) }
        ensures err { OnErr result (self.new ≡ self.old) }
    {
        self.works.try_reserve(1)?;
        self.pools.try_reserve(1)?;
        self.works.push_reserved(work);
        self.pools.push_reserved(pool);
        Ok(())
    }
}
