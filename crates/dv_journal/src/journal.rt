ghost use Rattle.std.specs.Prelude.{[], ◌≡◌, ◌<◌, ◌+◌, ◌^◌, ◌↔◌, false, OnOk, OnErr, IsErrOf};
ghost use Rattle.dv_value.specs.Size.{size};
ghost use Rattle.std.specs.Io.KnownBytes.{Appends};
ghost use Rattle.dv_journal.specs.Sink.{HasFailed, AppendsPrefix};
ghost use Rattle.dv_journal.specs.Journal.{empty, total_weight, has_room, fits, with_entry};
ghost use Rattle.dv_journal.specs.Ending.{ending_of, ends_unmet};
ghost use Rattle.dv_journal.specs.Line.{text_of};

use crate::ending::Ending;
use crate::entry::Entry;
use crate::error::{PrintFault, Stop};
use crate::line::write_line;
use crate::sink::{Sink, write_all, write_when_full};
use dv_value::classes::Classes;
use dv_value::items::Items;
use dv_value::value::Value;
use std::alloc::{AllocError, Global};
use std::marker::Model;

/// What happened in a run, in order, up to a limit.
#[derive(Drop)]
pub struct Journal {
    alloc: Global,
    entries: Items<Entry>,
    weight: u64,
    limit: u64,
}

impl Model for Journal {
    ghost use Rattle.std.specs.Prelude.{◌≡◌, ◌≤◌, ◌<◌, ◌^◌};
    ghost use Rattle.std.specs.Coded.{codes};
    ghost use Rattle.dv_value.specs.contracts.failure.Failure as failure;
    ghost use Rattle.dv_value.specs.contracts.value.Value as value;
    ghost use Rattle.dv_journal.specs.Journal.{Written, total_weight};

    ghost Value = { Written };

    ghost coded = { Prim.hlevel (codes, failure.the_row.coded, value.the_row.coded) };

    ghost view = { λ j. record { entries = j.entries; limit = j.limit } };

    ghost invariant = { λ j. (j.weight ≡ total_weight j.entries) × (j.weight ≤ j.limit)
        × (j.limit < 2 ^ 32) };
}

impl Journal {
    /// No entries yet. Room for as many as may come is asked for at once, up to 65,536; a page of it
    /// takes memory once it is written to. Where room is refused, the journal grows with its
    /// entries.
    pub fn new(alloc: Global, limit: u64) -> Journal
        requires { limit < 2 ^ 32 }
        ensures { result ≡ empty limit }
    {
        Journal {
            alloc,
            entries: with_room(alloc, limit),
            weight: 0,
            limit,
        }
    }

    /// What its entries weigh together.
    pub fn weight(&self) -> u64
        ensures { result ≡ total_weight self.now.entries }
    {
        self.weight
    }

    /// The most that its entries may weigh together.
    pub fn limit(&self) -> u64
        ensures { result ≡ self.now.limit }
    {
        self.limit
    }

    /// The entries, in the order in which they were written.
    pub fn entries(&self) -> &[Entry]
        ensures { result.now ≡ self.now.entries }
    {
        self.entries.as_slice()
    }

    /// How the run that it logs ended, where that has stopped or hasn't.
    pub fn ending(&self, stopped: bool) -> Ending
        ensures { result ≡ ending_of stopped self.now.entries }
    {
        if !stopped {
            Ending::Over
        } else if ends_unmet(self.entries.as_slice()) {
            Ending::Unmet
        } else {
            Ending::AtLimit
        }
    }

    /// Whether the journal stays within its limit with an entry whose line shows no value, failure
    /// or text.
    pub fn fits_plain(&self) -> bool
        ensures { result ≡ has_room self.now 1 }
    {
        1 <= self.limit - self.weight
    }

    /// Whether the journal stays within its limit with an entry whose line shows this value.
    pub fn fits_value(&self, value: &Value) -> bool
        ensures { result ≡ has_room self.now (1 + size value.now) }
    {
        value.size() < self.limit - self.weight
    }

    /// Whether the journal stays within its limit with this entry.
    pub fn fits(&self, entry: &Entry) -> bool
        ensures { result ≡ fits self.now entry.now }
    {
        entry.weight() <= self.limit - self.weight
    }

    /// Adds an entry at the end. One that would pass the limit isn't written, whatever memory there
    /// is; an entry that isn't written is dropped.
    #[tactic(auto, using(crate::proofs::WeightLemmas::total_weight_push))]
    pub fn write(&mut self, entry: Entry) -> Result<(), Stop>
        ensures ok { OnOk result (self.new ≡ with_entry self.old entry) }
        ensures limit { IsErrOf result Stop.Limit ↔ (fits self.old entry ≡ false) }
        ensures err { OnErr result (self.new ≡ self.old) }
    {
        let weight = entry.weight();
        if self.limit - self.weight < weight {
            drop(entry);
            return Err(Stop::Limit);
        }
        self.entries.push(entry)?;
        self.weight += weight;
        Ok(())
    }

    /// Writes the line of each entry, some kilobytes at a time, with one buffer for all. Where it
    /// returns early, what was written is a prefix of the text.
    pub fn print<W: Sink>(&self, classes: &Classes, sink: &mut W) -> Result<(), PrintFault>
        ensures ok { OnOk result (Appends (W.taken sink.old) (W.taken sink.new)
            (text_of classes.now self.now.entries)) }
        ensures kept { OnOk result (W.failures sink.new ≡ W.failures sink.old) }
        ensures err { OnErr result (AppendsPrefix (W.taken sink.old) (W.taken sink.new)
            (text_of classes.now self.now.entries)) }
        ensures cause { IsErrOf result PrintFault.WriteFault
            → HasFailed (W.failures sink.old) (W.failures sink.new) }
        ensures memory { IsErrOf result PrintFault.OutOfMemory
            → W.failures sink.new ≡ W.failures sink.old }
    {
        let mut gathered = String::new(self.alloc);
        for entry in self.entries.as_slice() {
            write_line(self.alloc, classes, &mut gathered, entry)?;
            write_when_full(sink, &mut gathered)?;
        }
        write_all(sink, gathered.as_bytes())?;
        Ok(())
    }
}

/// The most entries for which room is asked at once.
const ROOM: u64 = 65_536;

/// No entries, with room for as many as a limit allows, where that isn't refused.
fn with_room(alloc: Global, limit: u64) -> Items<Entry>
    ensures { result ≡ [] }
{
    match Items::with_capacity(alloc, limit.min(ROOM) as usize) {
        Ok(entries) => entries,
        Err(AllocError) => Items::new(alloc),
    }
}

/// Whether the last entry logs that a Deferred isn't as the script expects.
fn ends_unmet(entries: &[Entry]) -> bool
    ensures { result ≡ ends_unmet entries.now }
{
    match entries.last() {
        None => false,
        Some(entry) => entry.is_unmet(),
    }
}
