ghost use Rattle.std.specs.Prelude.{◌≡◌, ◌≤◌, List, ℕ, Option, OnOk, OnErr, IfOk, IsErrOf, length};
ghost use Rattle.std.specs.Io.{ReadsAtMost};
ghost use Rattle.std.specs.Io.KnownBytes.{Consumes, ReadConsumes};
ghost use Rattle.dv_journal.specs.Sink.{HasFailed};
ghost use Rattle.dv_source.specs.Source.{failures_after_read, IsFrontOf, ConsumesSome};

use std::alloc::{AllocError, Global};
use thiserror::Error;

/// A source failed.
#[derive(Clone, Copy, Debug, PartialEq, Eq, Drop, Error)]
#[error("the source failed")]
pub struct SourceFault;

/// Gives bytes.
pub trait Source {
    /// The bytes that it has left, where it reports them.
    ghost left: { Self → Option (List ℕ) };

    /// How often it has failed. At its last value the count stays, and shows nothing.
    ghost failures: { Self → ℕ };

    /// Puts bytes at the front of the buffer, and answers how many. No byte into a buffer with room
    /// is the end of the input, and no failure. SourceFault where it fails.
    fn read(&mut self, buffer: &mut [u8]) -> Result<usize, SourceFault>
        ensures bound { ReadsAtMost result buffer.new }
        ensures bytes { ReadConsumes (left self.old) (left self.new) result buffer.new }
        ensures failed { failures self.new ≡ failures_after_read (failures self.old) result };
}

/// Why a read returned early.
#[derive(Clone, Copy, Debug, PartialEq, Eq, Drop, Error)]
pub enum ReadError {
    /// The source failed.
    #[error("the source failed")]
    ReadFault,
    /// Out of memory. The source hasn't failed.
    #[error("out of memory")]
    OutOfMemory,
}

impl From<SourceFault> for ReadError {
    ghost use Rattle.dv_source.specs.declared.source.ReadError.TheVariants.{ReadFault};

    ghost from_gives = { λ _ e. e ≡ ReadFault };

    fn from(_: SourceFault) -> Self {
        ReadError::ReadFault
    }
}

impl From<AllocError> for ReadError {
    ghost use Rattle.dv_source.specs.declared.source.ReadError.TheVariants.{OutOfMemory};

    ghost from_gives = { λ _ e. e ≡ OutOfMemory };

    fn from(_: AllocError) -> Self {
        ReadError::OutOfMemory
    }
}

/// Reads to the end of the input, or so many bytes, in time linear in what it reads. It returns at
/// the source's first failure, or on allocation failure; what was read by then is lost.
#[tactic(auto, using(crate::proofs::Front::pieces))]
pub fn read_up_to<R: Source>(
    alloc: Global,
    source: &mut R,
    most: usize,
) -> Result<Vec<u8>, ReadError>
    ensures front { IfOk result (λ bytes. IsFrontOf (R.left source.old) most bytes.items) }
    ensures left { IfOk result (λ bytes.
        Consumes (R.left source.old) (R.left source.new) bytes.items) }
    ensures bound { IfOk result (λ bytes. length bytes.items ≤ most) }
    ensures kept { OnOk result (R.failures source.new ≡ R.failures source.old) }
    ensures err { OnErr result (ConsumesSome (R.left source.old) (R.left source.new)) }
    ensures cause { IsErrOf result ReadError.ReadFault
        → HasFailed (R.failures source.old) (R.failures source.new) }
    ensures memory { IsErrOf result ReadError.OutOfMemory
        → R.failures source.new ≡ R.failures source.old }
{
    let mut bytes = Vec::new(alloc);
    let mut buffer = [0u8; 4096];
    while bytes.len() < most {
        let room = buffer.len().min(most - bytes.len());
        let n = source.read(&mut buffer[..room])?;
        if n == 0 {
            return Ok(bytes);
        }
        bytes.extend_from_slice(&buffer[..n])?;
    }
    Ok(bytes)
}
