//! The whole language, as one line of JSON.

ghost use Rattle.std.specs.Prelude.{◌≡◌, OnOk, IfErr, IfOk, IsErrOf};
ghost use Rattle.serde_json.specs.View.{view};
ghost use Rattle.dv_journal.specs.Sink.{HasFailed};
ghost use Rattle.dv_language.specs.Language.{GivesUp, IsLanguage, IsPrinted, language_with, versions_data};
ghost use Rattle.dv_language.specs.Language.{ended_status, ended_text};

use crate::beside::{
    classes_json, limits_json, refusals_json, smaller_json, statuses_json, usual_json,
};
use crate::keys::keys_json;
use crate::lines::lines_json;
use crate::words::words_json;
use dv_journal::sink::{Sink, SinkFault, write_all};
use serde_json::{Value as Json, json};
use std::alloc::{AllocError, Global};

/// Why the language isn't printed, or not all of it.
#[derive(Clone, Copy, Drop)]
pub enum LanguageFault {
    OutOfMemory,
    /// The writer failed, or took no byte.
    WriteFault,
}

impl From<AllocError> for LanguageFault {
    ghost use Rattle.std.specs.Prelude.{◌≡◌};
    ghost use Rattle.dv_language.specs.declared.language.LanguageFault.TheVariants.{OutOfMemory};

    ghost from_gives = { λ _ fault. fault ≡ OutOfMemory };

    fn from(_error: AllocError) -> LanguageFault {
        LanguageFault::OutOfMemory
    }
}

impl From<SinkFault> for LanguageFault {
    ghost use Rattle.std.specs.Prelude.{◌≡◌};
    ghost use Rattle.dv_language.specs.declared.language.LanguageFault.TheVariants.{WriteFault};

    ghost from_gives = { λ _ fault. fault ≡ WriteFault };

    fn from(_error: SinkFault) -> LanguageFault {
        LanguageFault::WriteFault
    }
}

/// The version of this form of JSON.
const FORM: u32 = 1;

fn versions_json(alloc: Global) -> Result<Json, AllocError>
    ensures { IfOk result (λ json. view json ≡ versions_data) }
{
    json!(in alloc; [1u32, 2u32, 3u32])
}

/// The language, with these lines of the journal.
fn language_with(alloc: Global, lines: Json) -> Result<Json, AllocError>
    ensures { IfOk result (λ json. view json ≡ language_with (view lines)) }
{
    json!(in alloc; {
        "form": FORM,
        "versions": versions_json(alloc)?,
        "words": words_json(alloc)?,
        "keys": keys_json(alloc)?,
        "lines": lines,
        "classes": classes_json(alloc)?,
        "limits": limits_json(alloc)?,
        "smaller": smaller_json(alloc)?,
        "usual": usual_json(alloc)?,
        "refusals": refusals_json(alloc)?,
        "statuses": statuses_json(alloc)?,
    })
}

fn language_json(alloc: Global) -> Result<Json, AllocError>
    ensures { IfOk result (λ json. IsLanguage (view json)) }
{
    let lines = lines_json(alloc)?;
    language_with(alloc, lines)
}

/// Writes the language as a line of JSON. OutOfMemory when an allocation fails: nothing was
/// written. WriteFault if the writer fails or takes no byte: a prefix of the line may have been
/// written.
pub fn print_language<W: Sink>(alloc: Global, writer: &mut W) -> Result<(), LanguageFault>
    ensures ok { OnOk result (IsPrinted (W.taken writer.old) (W.taken writer.new)) }
    ensures err { IfErr result (λ fault. GivesUp fault (W.taken writer.old)
        (W.taken writer.new)) }
    ensures write { IsErrOf result LanguageFault.WriteFault
        → HasFailed (W.failures writer.old) (W.failures writer.new) }
    ensures kept { OnOk result (W.failures writer.new ≡ W.failures writer.old) }
{
    let mut line = language_json(alloc)?.to_string(alloc)?;
    line.push('\n')?;
    write_all(writer, line.as_bytes())?;
    Ok(())
}

/// The exit status, and the text that goes to standard error where it isn't empty.
pub fn exit_of(ended: Result<(), LanguageFault>) -> (u8, &'static str)
    ensures status { result.0 ≡ ended_status ended }
    ensures text { result.1.now ≡ ended_text ended }
{
    match ended {
        Ok(()) => (0, ""),
        Err(LanguageFault::OutOfMemory) => (3, "out of memory"),
        Err(LanguageFault::WriteFault) => (4, "write failed"),
    }
}
