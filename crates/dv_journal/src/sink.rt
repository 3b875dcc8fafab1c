ghost use Rattle.std.specs.Prelude.{◌≡◌, ◌<◌, List, ℕ, Option, OnOk, OnErr, length, string_bytes};
ghost use Rattle.std.specs.Io.{WritesAtMost};
ghost use Rattle.std.specs.Io.KnownBytes.{Appends, WriteAppends};
ghost use Rattle.dv_journal.specs.Sink.{failed, failures_after, HasFailed, AppendsBut};
ghost use Rattle.dv_journal.specs.Sink.{AppendsPrefix, piece_size};

use thiserror::Error;

/// A sink failed, or took no byte of a piece that isn't empty.
#[derive(Clone, Copy, Debug, PartialEq, Eq, Drop, Error)]
#[error("the sink failed, or took no byte")]
pub struct SinkFault;

/// Takes bytes.
pub trait Sink {
    /// The bytes that it has taken, where it reports them.
    ghost taken: { Self → Option (List ℕ) };

    /// How often it has failed. At its last value the count stays, and shows nothing.
    ghost failures: { Self → ℕ };

    /// Takes bytes from the front of a piece, and answers how many. To take no byte of a piece that
    /// isn't empty is a failure, as an error is.
    fn write(&mut self, piece: &[u8]) -> Result<usize, SinkFault>
        ensures bound { WritesAtMost result piece.now }
        ensures taken { WriteAppends (taken self.old) (taken self.new) result piece.now }
        ensures failed { failures self.new ≡ failures_after (failures self.old) piece.now result };
}

/// Writes all the bytes in order, by as many calls as the sink asks for. It returns at the sink's
/// first failure; what was taken by then is a prefix of the bytes.
#[tactic(auto, using(crate::proofs::Taken::pieces))]
pub fn write_all<W: Sink>(sink: &mut W, bytes: &[u8]) -> Result<(), SinkFault>
    ensures ok { OnOk result (Appends (W.taken sink.old) (W.taken sink.new) bytes.now) }
    ensures kept { OnOk result (W.failures sink.new ≡ W.failures sink.old) }
    ensures err { OnErr result (AppendsPrefix (W.taken sink.old) (W.taken sink.new) bytes.now) }
    ensures cause { OnErr result (HasFailed (W.failures sink.old) (W.failures sink.new)) }
{
    let mut rest = bytes;
    while !rest.is_empty() {
        let n = sink.write(rest)?;
        if n == 0 {
            return Err(SinkFault);
        }
        rest = &rest[n..];
    }
    Ok(())
}

/// How many bytes of lines are gathered before they are written.
const PIECE_SIZE: usize = 4096;

/// Writes what is gathered, and empties it, where it has reached a piece of some kilobytes;
/// otherwise it waits for more. It returns at the sink's first failure; what was taken by then is a
/// prefix of what was gathered.
#[tactic(auto, using(crate::proofs::Taken::pieces))]
pub fn write_when_full<W: Sink>(sink: &mut W, gathered: &mut String) -> Result<(), SinkFault>
    ensures ok { OnOk result (AppendsBut (W.taken sink.old) (W.taken sink.new)
        (string_bytes gathered.old) (string_bytes gathered.new)) }
    ensures left { OnOk result (length (string_bytes gathered.new) < piece_size) }
    ensures kept { OnOk result (W.failures sink.new ≡ W.failures sink.old) }
    ensures err { OnErr result (AppendsPrefix (W.taken sink.old) (W.taken sink.new)
        (string_bytes gathered.old)) }
    ensures cause { OnErr result (HasFailed (W.failures sink.old) (W.failures sink.new)) }
{
    if gathered.len() >= PIECE_SIZE {
        write_all(sink, gathered.as_bytes())?;
        gathered.clear();
    }
    Ok(())
}

/// Whether a call that answered so to a piece failed.
pub(crate) fn has_failed(piece: &[u8], answer: Result<usize, SinkFault>) -> bool
    ensures { result ≡ failed piece.now answer }
{
    match answer {
        Ok(n) => n == 0 && !piece.is_empty(),
        Err(SinkFault) => true,
    }
}
