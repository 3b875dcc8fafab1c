ghost use Rattle.std.specs.Prelude.{◌≡◌};

use crate::sink::{Sink, SinkFault, has_failed};
use std::io;
use std::marker::Model;

/// A sink over a writer of std, which contracts see as that writer and a count of failures.
/// Each error of the writer is a failure, one that reports an interruption too.
#[derive(Drop)]
pub struct IoSink<W> {
    writer: W,
    failures: u64,
}

impl<W> Model for IoSink<W> {
    ghost use Rattle.dv_journal.specs.Sink.{Counted, counted_code};

    ghost Value = { Counted W };

    ghost coded = { counted_code W.code };

    ghost view = { λ s. record { inner = s.writer; failures = s.failures } };
}

impl<W> IoSink<W> {
    /// A sink over this writer, which has not failed yet.
    pub fn new(writer: W) -> IoSink<W>
        ensures { result ≡ record { inner = writer; failures = 0 } }
    {
        IoSink {
            writer,
            failures: 0,
        }
    }
}

impl<W: io::Write> Sink for IoSink<W> {
    ghost taken = { λ s. W.contents s.inner };

    ghost failures = { λ s. s.failures };

    fn write(&mut self, piece: &[u8]) -> Result<usize, SinkFault> {
        let answer = self.writer.write(piece).map_err(|_| SinkFault);
        if has_failed(piece, answer) {
            self.failures = self.failures.saturating_add(1);
        }
        answer
    }
}
