//! Explains the script that a source gives.

ghost use Rattle.std.specs.Prelude.{◌≡◌, IfErr, OnOk, IfOk, IsErrOf};
ghost use Rattle.dv_journal.specs.Sink.{HasFailed};
ghost use Rattle.dv_why.specs.Explaining.{Explains, GivesUp, fault_status, fault_text};
ghost use Rattle.dv_why.specs.Explaining.{ended_status, ended_text};

use crate::why::tell;
use dv_forms::limits::WIDEST_BYTES;
use dv_journal::sink::{Sink, SinkFault, write_all};
use dv_reader::error::{ScriptFault, refusal_text};
use dv_source::source::{ReadError, Source, read_up_to};
use std::alloc::{AllocError, Global};

/// Why nothing is printed about a script, or not all of it.
#[derive(Clone, Copy, Drop)]
pub enum WhyFault {
    /// An allocation failed.
    OutOfMemory,
    /// The reader failed.
    ReadFault,
    /// The writer failed, or took no byte.
    WriteFault,
}

impl From<AllocError> for WhyFault {
    ghost use Rattle.std.specs.Prelude.{◌≡◌};
    ghost use Rattle.dv_why.specs.declared.explaining.WhyFault.TheVariants.{OutOfMemory};

    ghost from_gives = { λ _ fault. fault ≡ OutOfMemory };

    fn from(_error: AllocError) -> WhyFault {
        WhyFault::OutOfMemory
    }
}

impl From<SinkFault> for WhyFault {
    ghost use Rattle.std.specs.Prelude.{◌≡◌};
    ghost use Rattle.dv_why.specs.declared.explaining.WhyFault.TheVariants.{WriteFault};

    ghost from_gives = { λ _ fault. fault ≡ WriteFault };

    fn from(_error: SinkFault) -> WhyFault {
        WhyFault::WriteFault
    }
}

impl From<ReadError> for WhyFault {
    ghost use Rattle.std.specs.Prelude.{◌≡◌};
    ghost use Rattle.dv_why.specs.Explaining.{of_read_error};

    ghost from_gives = { λ error fault. fault ≡ of_read_error error };

    fn from(error: ReadError) -> WhyFault {
        match error {
            ReadError::ReadFault => WhyFault::ReadFault,
            ReadError::OutOfMemory => WhyFault::OutOfMemory,
        }
    }
}

/// Reads a script to the end of the input, or to one byte more than a script may have, and writes a
/// line of JSON that says whether it is accepted, and where it isn't, why. Answers the refusal, if
/// it is refused.
///
/// ReadFault if the reader fails, and OutOfMemory when an allocation fails: nothing was written.
/// WriteFault if the writer fails or takes no byte: a prefix of the line may have been written.
pub fn explain<R: Source, W: Sink>(
    alloc: Global,
    reader: &mut R,
    writer: &mut W,
) -> Result<Option<ScriptFault>, WhyFault>
    ensures ok { IfOk result (λ fault. Explains (R.left reader.old) (W.taken writer.old)
        (W.taken writer.new) fault) }
    ensures err { IfErr result (λ fault. GivesUp fault (R.left reader.old) (W.taken writer.old)
        (W.taken writer.new)) }
    ensures read { IsErrOf result WhyFault.ReadFault
        → HasFailed (R.failures reader.old) (R.failures reader.new) }
    ensures write { IsErrOf result WhyFault.WriteFault
        → HasFailed (W.failures writer.old) (W.failures writer.new) }
    ensures kept { OnOk result (W.failures writer.new ≡ W.failures writer.old) }
{
    let bytes = read_up_to(alloc, reader, WIDEST_BYTES + 1)?;
    let mut told = tell(alloc, bytes.as_slice())?;
    told.line.push('\n')?;
    write_all(writer, told.line.as_bytes())?;
    Ok(told.fault)
}

/// The exit status of an explanation, and the text that goes to standard error where it isn't
/// empty.
pub fn exit_of(ended: Result<Option<ScriptFault>, WhyFault>) -> (u8, &'static str)
    ensures status { result.0 ≡ ended_status ended }
    ensures text { result.1.now ≡ ended_text ended }
{
    match ended {
        Ok(None) => (0, ""),
        Ok(Some(refusal)) => (2, refusal_text(refusal)),
        Err(fault) => (fault_status(fault), fault_text(fault)),
    }
}

fn fault_status(fault: WhyFault) -> u8
    ensures { result ≡ fault_status fault }
{
    match fault {
        WhyFault::OutOfMemory => 3,
        WhyFault::ReadFault | WhyFault::WriteFault => 4,
    }
}

fn fault_text(fault: WhyFault) -> &'static str
    ensures { result.now ≡ fault_text fault }
{
    match fault {
        WhyFault::OutOfMemory => "out of memory",
        WhyFault::ReadFault => "read failed",
        WhyFault::WriteFault => "write failed",
    }
}
