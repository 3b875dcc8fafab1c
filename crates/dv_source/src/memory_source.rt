ghost use Rattle.std.specs.Prelude.{◌≡◌, ◌<◌, Some, length};
ghost use Rattle.std.specs.Io.{ReadsAtMost};
ghost use Rattle.std.specs.Io.KnownBytes.{ReadConsumes};
ghost use Rattle.dv_source.specs.Source.{failures_after_read};
ghost use Rattle.dv_source.specs.MemorySource.{fresh, fails_here, failure_ahead};
ghost use Rattle.dv_source.specs.MemorySource.{answer_of, after_read, filled};

use crate::source::{Source, SourceFault};
use std::marker::Model;

/// A source over bytes, which may fail once, at a set call. Its reads take no memory.
#[derive(Drop)]
pub struct MemorySource<'a> {
    rest: &'a [u8],
    per_call: usize,
    failure: Option<u64>,
    failures: u64,
}

impl<'a> Model for MemorySource<'a> {
    ghost use Rattle.std.specs.Prelude.{◌<◌};
    ghost use Rattle.dv_source.specs.MemorySource.{Supply};

    ghost Value = { Supply };

    ghost view = { λ s. record {
      left = s.rest.now;
      per_call = s.per_call;
      failure = s.failure;
      failures = s.failures;
    } };

    ghost invariant = { λ s. 0 < s.per_call };
}

impl<'a> MemorySource<'a> {
    /// A source of these bytes, of which a call gives so many at most.
    pub fn new(bytes: &'a [u8], per_call: usize) -> MemorySource<'a>
        requires { 0 < per_call }
        ensures { result ≡ fresh bytes.now per_call }
    {
        MemorySource {
            rest: bytes,
            per_call,
            failure: None,
            failures: 0,
        }
    }

    /// The same source, which fails at the call after so many, and at no other.
    pub fn with_failure(mut self, calls_before: u64) -> MemorySource<'a>
        ensures { result ≡ record self.entry { failure = Some calls_before } }
    {
        self.failure = Some(calls_before);
        self
    }

    /// Whether this call fails. Later calls are one nearer to theirs.
    fn next_fails(&mut self) -> bool
        ensures value { result ≡ fails_here self.old.failure }
        ensures ahead { self.new ≡ record self.old { failure = failure_ahead self.old.failure } }
    {
        match self.failure {
            None => false,
            Some(0) => {
                self.failure = None;
                true
            }
            Some(calls) => {
                self.failure = Some(calls - 1);
                false
            }
        }
    }
}

impl<'a> Source for MemorySource<'a> {
    ghost left = { λ s. Some s.left };

    ghost failures = { λ s. s.failures };

    fn read(&mut self, buffer: &mut [u8]) -> Result<usize, SourceFault>
        ensures answer { result ≡ answer_of self.old (length buffer.old) }
        ensures after { self.new ≡ after_read self.old result }
        ensures buffer { buffer.new ≡ filled self.old.left buffer.old result }
        ensures bound { ReadsAtMost result buffer.new }
        ensures bytes { ReadConsumes (Some self.old.left) (Some self.new.left) result buffer.new }
        ensures failed { self.new.failures ≡ failures_after_read self.old.failures result }
    {
        if self.next_fails() {
            self.failures = self.failures.saturating_add(1);
            return Err(SourceFault);
        }
        let n = buffer.len().min(self.per_call).min(self.rest.len());
        buffer[..n].copy_from_slice(&self.rest[..n]);
        self.rest = &self.rest[n..];
        Ok(n)
    }
}
