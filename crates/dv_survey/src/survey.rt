ghost use Rattle.std.specs.Prelude.{◌≡◌, length, OnOk, IfOk};
ghost use Rattle.dv_survey.specs.Outcomes.{places_after};
ghost use Rattle.dv_survey.specs.Texts.{place_of};
ghost use Rattle.dv_survey.specs.Survey.{no_runs, run_of, with_end, with_line, with_lines};
ghost use Rattle.dv_survey.specs.Survey.{with_outcome, with_owner, with_run};
ghost use Rattle.dv_survey.specs.Tallies.{count_of};

use crate::format::Format;
use crate::lines::{Line, lines_of};
use crate::outcomes::outcome_text;
use crate::tallies::{Tallies, count_of};
use crate::texts::Texts;
use dv_journal::ending::Ending;
use dv_posts::posted::Posted;
use dv_store::outcome::Outcome;
use dv_value::classes::Classes;
use dv_value::items::Items;
use std::alloc::{AllocError, Global};
use std::hash::RandomState;

/// What became of each Deferred in the runs that were added, in memory that grows with the
/// different outcomes and not with the runs.
#[derive(Drop)]
pub struct Survey {
    /// How it is written.
    pub format: Format,
    /// The Deferreds, each by its name and its place.
    pub deferreds: Texts,
    /// The different lines: a Deferred, and what became of it.
    pub lines: Texts,
    /// The Deferred of each line, by its place among those that were met.
    pub owners: Items<usize>,
    /// In how many runs each line came.
    pub tallies: Tallies,
    /// The different outcomes, each as the places of its lines: the same whichever Deferred was
    /// made first.
    pub outcomes: Texts,
    /// In how many runs each outcome came.
    pub ends: Tallies,
    /// In how many runs the journal reached its limit: one tally, or none.
    pub stops: Tallies,
    /// In how many runs a Deferred wasn't as the script expects: one tally, or none.
    pub unmet: Tallies,
}

impl Survey {
    /// Makes a survey of no runs, to be written in this format. Names and lines are hashed with
    /// these keys.
    pub fn new(alloc: Global, keys: RandomState, format: Format) -> Survey
        ensures { result ≡ no_runs format }
    {
        Survey {
            format,
            deferreds: Texts::new(alloc, keys),
            lines: Texts::new(alloc, keys),
            owners: Items::new(alloc),
            tallies: Tallies::new(alloc),
            outcomes: Texts::new(alloc, keys),
            ends: Tallies::new(alloc),
            stops: Tallies::new(alloc),
            unmet: Tallies::new(alloc),
        }
    }

    /// Adds a run that took these batches, and ended so with these outcomes. Names are hashed with
    /// these keys.
    ///
    /// AllocError when out of memory, or where a count passes 2^64. Part of the run may be added
    /// then.
    pub fn add(
        &mut self,
        alloc: Global,
        keys: RandomState,
        classes: &Classes,
        batches: &[Items<Posted>],
        outcomes: &[Outcome],
        ending: Ending,
    ) -> Result<(), AllocError>
        ensures { OnOk result
            (self.new ≡ with_run classes.now self.old (run_of batches.now outcomes.now ending)) }
    {
        let lines = lines_of(alloc, keys, self.format, classes, outcomes)?;
        let places = self.add_lines(alloc, batches, lines.as_slice())?;
        self.add_end(alloc, batches, places.as_slice(), ending)
    }

    /// Adds lines, and returns their places.
    #[tactic(auto, using(crate::proofs::OutcomesLemmas::places_next))]
    fn add_lines(
        &mut self,
        alloc: Global,
        batches: &[Items<Posted>],
        lines: &[Line],
    ) -> Result<Vec<usize>, AllocError>
        ensures places { IfOk result
            (λ places. places.items ≡ places_after self.old.lines lines.now) }
        ensures ok { OnOk result (self.new ≡ with_lines batches.now lines.now self.old) }
    {
        let mut places = Vec::new(alloc);
        for line in lines {
            places.push(self.add_line(batches, line)?)?;
        }
        Ok(places)
    }

    fn add_line(&mut self, batches: &[Items<Posted>], line: &Line) -> Result<usize, AllocError>
        ensures place { IfOk result (λ place. place ≡ place_of line.now.text self.old.lines) }
        ensures ok { OnOk result (self.new ≡ with_line batches.now self.old line.now) }
    {
        let deferred = self.deferreds.add(line.deferred.as_str())?;
        let place = self.lines.add(line.text.as_str())?;
        own(&mut self.owners, place, deferred)?;
        self.tallies.count(place, batches)?;
        Ok(place)
    }

    fn add_end(
        &mut self,
        alloc: Global,
        batches: &[Items<Posted>],
        places: &[usize],
        ending: Ending,
    ) -> Result<(), AllocError>
        ensures { OnOk result (self.new ≡ with_end batches.now places.now ending self.old) }
    {
        let text = outcome_text(alloc, places, self.lines.len())?;
        self.add_outcome(batches, text.as_str(), ending)
    }

    fn add_outcome(
        &mut self,
        batches: &[Items<Posted>],
        outcome: &str,
        ending: Ending,
    ) -> Result<(), AllocError>
        ensures { OnOk result (self.new ≡ with_outcome batches.now outcome.now ending self.old) }
    {
        let place = self.outcomes.add(outcome)?;
        self.ends.count(place, batches)?;
        match ending {
            Ending::Over => Ok(()),
            Ending::AtLimit => self.stops.count(0, batches),
            Ending::Unmet => self.unmet.count(0, batches),
        }
    }

    /// Counts the runs that ended since a Deferred wasn't as the script expects.
    pub fn unmet(&self) -> u64
        ensures { result ≡ count_of self.now.unmet }
    {
        count_of(self.unmet.as_slice())
    }

    /// Counts the different outcomes of the runs, whichever Deferreds were made first.
    pub fn outcomes_len(&self) -> usize
        ensures { result ≡ length self.now.outcomes }
    {
        self.outcomes.len()
    }
}

/// Notes that the line of a place is one of this Deferred, unless it was met before.
fn own(owners: &mut Items<usize>, place: usize, deferred: usize) -> Result<(), AllocError>
    ensures { OnOk result (owners.new ≡ with_owner place deferred owners.old) }
{
    if place < owners.as_slice().len() {
        Ok(())
    } else {
        owners.push(deferred)
    }
}
