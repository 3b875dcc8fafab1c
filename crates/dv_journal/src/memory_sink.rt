ghost use Rattle.std.specs.Prelude.{◌≡◌, IfOk, Some};
ghost use Rattle.std.specs.Io.{WritesAtMost};
ghost use Rattle.std.specs.Io.KnownBytes.{WriteAppends};
ghost use Rattle.dv_journal.specs.Sink.{failures_after};
ghost use Rattle.dv_journal.specs.MemorySink.{fresh, trouble_here, trouble_ahead};
ghost use Rattle.dv_journal.specs.MemorySink.{filling_answer, answer_of, with_taken, after_write};

use crate::sink::{Sink, SinkFault, has_failed};
use std::alloc::{AllocError, Global};
use std::marker::Model;

/// What a memory sink does at one set call.
#[derive(Clone, Copy, Debug, PartialEq, Eq, Drop)]
pub enum Trouble {
    /// It answers an error.
    Fails,
    /// It answers that it took no byte.
    TakesNothing,
}

/// A sink over memory that it takes when it is made; its writes take none. Full, it fails.
#[derive(Drop)]
pub struct MemorySink {
    bytes: Vec<u8>,
    room: usize,
    per_call: usize,
    trouble: Option<(u64, Trouble)>,
    failures: u64,
}

impl Model for MemorySink {
    ghost use Rattle.std.specs.Prelude.{◌≤◌, ◌+◌, vec_len, vec_capacity};
    ghost use Rattle.dv_journal.specs.MemorySink.{Kept};

    ghost Value = { Kept };

    ghost view = { λ s. record {
      bytes = s.bytes.items;
      room = s.room;
      per_call = s.per_call;
      trouble = s.trouble;
      failures = s.failures;
    } };

    ghost invariant = { λ s. vec_len s.bytes + s.room ≤ vec_capacity s.bytes };
}

impl MemorySink {
    /// A sink with room for so many bytes, of which a call takes so many at most.
    pub fn new(alloc: Global, room: usize, per_call: usize) -> Result<MemorySink, AllocError>
        ensures { IfOk result (λ s. s ≡ fresh room per_call) }
    {
        Ok(MemorySink {
            bytes: Vec::with_capacity(alloc, room)?,
            room,
            per_call,
            trouble: None,
            failures: 0,
        })
    }

    /// The same sink with this trouble at the call after so many, and no other.
    pub fn with_trouble(mut self, calls_before: u64, trouble: Trouble) -> MemorySink
        ensures { result ≡ record self { trouble = Some (calls_before, trouble) } }
    {
        self.trouble = Some((calls_before, trouble));
        self
    }

    /// The bytes that it has taken.
    pub fn bytes(&self) -> &[u8]
        ensures { result.now ≡ self.now.bytes }
    {
        &self.bytes
    }

    /// The trouble of this call, if it has one; later calls are one nearer to theirs.
    fn next_trouble(&mut self) -> Option<Trouble>
        ensures value { result ≡ trouble_here self.old.trouble }
        ensures ahead { self.new ≡ record self.old { trouble = trouble_ahead self.old.trouble } }
    {
        let (calls_before, trouble) = self.trouble?;
        if calls_before == 0 {
            self.trouble = None;
            return Some(trouble);
        }
        self.trouble = Some((calls_before - 1, trouble));
        None
    }

    /// Takes as many bytes as there is room for, and as a call takes.
    fn fill(&mut self, piece: &[u8]) -> Result<usize, SinkFault>
        ensures answer { result ≡ filling_answer self.old piece.now }
        ensures taken { self.new ≡ with_taken self.old piece.now result }
    {
        if self.room == 0 && !piece.is_empty() {
            return Err(SinkFault);
        }
        let n = piece.len().min(self.per_call).min(self.room);
        match self.bytes.extend_from_slice(&piece[..n]) {
            Ok(()) => {
                self.room -= n;
                Ok(n)
            }
            Err(_) => unreachable!(),
        }
    }
}

impl Sink for MemorySink {
    ghost taken = { λ s. Some s.bytes };

    ghost failures = { λ s. s.failures };

    fn write(&mut self, piece: &[u8]) -> Result<usize, SinkFault>
        ensures answer { result ≡ answer_of self.old piece.now }
        ensures after { self.new ≡ after_write self.old piece.now result }
        ensures bound { WritesAtMost result piece.now }
        ensures taken { WriteAppends (Some self.old.bytes) (Some self.new.bytes) result piece.now }
        ensures failed { self.new.failures ≡ failures_after self.old.failures piece.now result }
    {
        let answer = match self.next_trouble() {
            Some(Trouble::Fails) => Err(SinkFault),
            Some(Trouble::TakesNothing) => Ok(0),
            None => self.fill(piece),
        };
        if has_failed(piece, answer) {
            self.failures = self.failures.saturating_add(1);
        }
        answer
    }
}
