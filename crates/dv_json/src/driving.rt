//! Keeps the world and the jobs of a run, and marks where each event begins.

ghost use Rattle.dv_json.specs.Ended.{Ends};

use crate::marked::Marked;
use dv_engine::engine::Engine;
use dv_engine::error::EngineFault;
use dv_engine::report::End;
use dv_jobs::source::JobSource;
use dv_left::remains_of;
use dv_run::driving::Driver;
use dv_value::items::Items;
use std::alloc::{AllocError, Global};
use std::sync::Wait;
use std::thread::Threads;

/// Marks where each event begins, and keeps what is left of the world at the end.
pub struct Marking;

impl Driver for Marking {
    type Notes = Items<usize>;

    type End = Marked;

    ghost ends = { Ends };

    ghost took = { λ marked. marked.batches };

    fn start(&self, alloc: Global) -> Items<usize> {
        Items::new(alloc)
    }

    fn note(&self, notes: &mut Items<usize>, logged: usize) -> Result<(), AllocError> {
        notes.push(logged)
    }

    fn keep<'s, R, J>(
        &self,
        rt: &R,
        alloc: Global,
        engine: Engine<'s, J>,
        notes: Items<usize>,
    ) -> Result<Marked, AllocError>
    where
        R: Threads + Wait,
        J: JobSource,
    {
        match engine.into_end(rt) {
            Ok(
                End {
                    world,
                    batches,
                    ran,
                },
            ) => Ok(Marked {
                remains: remains_of(alloc, world)?,
                batches,
                ran,
                marks: notes,
            }),
            Err(EngineFault::OutOfMemory) => Err(AllocError),
            Err(EngineFault::NotNow | EngineFault::Stranger) => unreachable!(),
        }
    }
}
