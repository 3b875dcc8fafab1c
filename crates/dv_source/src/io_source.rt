ghost use Rattle.std.specs.Prelude.{◌≡◌};

use crate::source::{Source, SourceFault};
use std::io;
use std::marker::Model;

/// A source over a reader of std, which contracts see as that reader and a count of failures.
/// Each error of the reader is a failure, one that reports an interruption too.
#[derive(Drop)]
pub struct IoSource<R> {
    reader: R,
    failures: u64,
}

impl<R> Model for IoSource<R> {
    ghost use Rattle.dv_journal.specs.Sink.{Counted, counted_code};

    ghost Value = { Counted R };

    ghost coded = { counted_code R.code };

    ghost view = { λ s. record { inner = s.reader; failures = s.failures } };
}

impl<R> IoSource<R> {
    /// A source over this reader, which has not failed yet.
    pub fn new(reader: R) -> IoSource<R>
        ensures { result ≡ record { inner = reader; failures = 0 } }
    {
        IoSource {
            reader,
            failures: 0,
        }
    }
}

impl<R: io::Read> Source for IoSource<R> {
    ghost left = { λ s. R.remaining s.inner };

    ghost failures = { λ s. s.failures };

    fn read(&mut self, buffer: &mut [u8]) -> Result<usize, SourceFault> {
        let answer = self.reader.read(buffer).map_err(|_| SourceFault);
        if answer.is_err() {
            self.failures = self.failures.saturating_add(1);
        }
        answer
    }
}
