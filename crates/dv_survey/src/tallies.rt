ghost use Rattle.std.specs.Prelude.{◌≡◌, [], OnOk, IfOk};
ghost use Rattle.dv_survey.specs.Tallies.{count_of, with_one_more};

use dv_posts::posted::{Posted, copy_of_batch};
use dv_value::items::Items;
use std::alloc::{AllocError, Global};
use std::marker::Model;

/// In how many runs something came: a line, an outcome, a stop, or what a script doesn't expect.
#[derive(Debug, Drop)]
pub struct Tally {
    /// In how many runs it came.
    pub count: u64,
    /// The batches of the first of them.
    pub first: Items<Items<Posted>>,
}

/// A tally of each thing of a kind, by the place at which it was first met.
#[derive(Drop)]
pub struct Tallies {
    alloc: Global,
    tallies: Vec<Tally>,
}

impl Model for Tallies {
    ghost use Rattle.std.specs.Prelude.{List};
    ghost use Rattle.dv_survey.specs.declared.tallies.Tally.{Tally as Seen};

    ghost Value = { List Seen };

    ghost view = { λ t. t.tallies.items };
}

impl Tallies {
    ghost use Rattle.dv_survey.specs.Tallies.{with_tally};

    /// Makes an empty list of tallies. It takes no memory before the first thing is counted.
    pub fn new(alloc: Global) -> Tallies
        ensures { result ≡ [] }
    {
        Tallies {
            alloc,
            tallies: Vec::new(alloc),
        }
    }

    /// Counts the thing of a place once more, or for the first time where the place is the end.
    /// Then the batches of the run are copied. AllocError also where the count passes 2^64.
    pub fn count(&mut self, place: usize, batches: &[Items<Posted>]) -> Result<(), AllocError>
        ensures { OnOk result (self.new ≡ with_tally place batches.now self.old) }
    {
        if place < self.tallies.len() {
            raise(&mut self.tallies[place])
        } else {
            let first = copy_of(self.alloc, batches)?;
            self.tallies.push(Tally { count: 1, first })?;
            Ok(())
        }
    }

    /// Lends the tallies, in the order in which what they count was first met.
    pub fn as_slice(&self) -> &[Tally]
        ensures { result.now ≡ self.now }
    {
        self.tallies.as_slice()
    }
}

/// In how many runs something came of which there is one tally, or none.
pub fn count_of(tallies: &[Tally]) -> u64
    ensures { result ≡ count_of tallies.now }
{
    match tallies.first() {
        None => 0,
        Some(tally) => tally.count,
    }
}

fn raise(tally: &mut Tally) -> Result<(), AllocError>
    ensures { OnOk result (tally.new ≡ with_one_more tally.old) }
{
    let Some(count) = tally.count.checked_add(1) else {
        return Err(AllocError);
    };
    tally.count = count;
    Ok(())
}

fn copy_of(alloc: Global, batches: &[Items<Posted>]) -> Result<Items<Items<Posted>>, AllocError>
    ensures { IfOk result (λ copy. copy ≡ batches.now) }
{
    let mut copy = Items::with_capacity(alloc, batches.len())?;
    for batch in batches {
        copy.push(copy_of_batch(alloc, batch.as_slice())?)?;
    }
    Ok(copy)
}
