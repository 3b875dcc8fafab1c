use crate::lines::{first_difference, unfolded};
use dv_jobs::gate::PlainGate;
use dv_journal::memory_sink::MemorySink;
use dv_run::{MemorySource, exit_of, run};
use dv_why::why::tell;
use std::alloc::{AllocError, AllocGlobal, Global};
use std::random::RandomSource;
use std::sync::Wait;
use std::thread::Threads;

/// How many bytes a run may print.
const ROOM: usize = 8_388_608;

/// The ending of a row whose output is the line that says why the script is refused.
const WHY: &str = "why";

/// A script, or scripts of one kind, and what each run of them results in.
#[derive(Drop)]
pub struct Row<'a> {
    pub name: &'a str,
    /// The lines of the script; or frames, which are lines `:: FRAME`, and the lines that are put
    /// into each.
    pub script: &'a str,
    /// The exit status, and after a space the text for standard error where there is one; or `WHY`.
    ending: &'a str,
    /// The lines of the output.
    output: &'a str,
}

impl<'a> Row<'a> {
    /// Reads a row: its name in a line, the script's lines, a line `-- ENDING`, and the output's
    /// lines.
    pub fn read(text: &'a str) -> Row<'a> {
        let (head, tail) = text.split_once("\n-- ").unwrap_or((text, ""));
        let (name, script) = head.split_once('\n').unwrap_or((head, ""));
        let (ending, output) = tail.split_once('\n').unwrap_or((tail, ""));
        Row {
            name,
            script,
            ending,
            output,
        }
    }

    /// Whether its lines are put into frames, and aren't the script itself.
    pub fn is_framed(&self) -> bool {
        self.script.starts_with(":: ")
    }

    /// The script of a row without frames.
    pub fn whole_script(&self, alloc: Global) -> Result<String, AllocError> {
        unfolded(alloc, self.script)
    }

    /// Where a script first differs from the row: its run, or the line that says why it is refused.
    pub fn difference<S: Threads + Wait + RandomSource + AllocGlobal + Sync>(
        &self,
        rt: &S,
        script: &str,
    ) -> Result<Option<String>, AllocError> {
        let output = unfolded(rt.alloc(), self.output)?;
        if self.ending == WHY {
            return difference_of_why(rt.alloc(), script, output.as_str());
        }
        self.difference_of_run(rt, script, output.as_str())
    }

    /// Runs a script: where the run first differs from the row, with this output.
    fn difference_of_run<S: Threads + Wait + RandomSource + AllocGlobal + Sync>(
        &self,
        rt: &S,
        script: &str,
        output: &str,
    ) -> Result<Option<String>, AllocError> {
        let alloc = rt.alloc();
        let mut source = MemorySource::new(script.as_bytes(), 4096);
        let mut sink = MemorySink::new(alloc, ROOM, 4096)?;
        let ended = run(rt, &mut source, &mut sink, 0, &PlainGate);
        let exit = exit_of(&ended);
        if let Ok(report) = ended {
            report.discard();
        }
        let ending = match exit {
            (status, "") => format!(in alloc; "{status}")?,
            (status, text) => format!(in alloc; "{status} {text}")?,
        };
        if ending.as_str() != self.ending {
            let expected = self.ending;
            return Ok(Some(format!(in alloc; "ends by `{ending}`, not `{expected}`")?));
        }
        match std::str::from_utf8(sink.bytes()) {
            Ok(printed) => first_difference(alloc, printed, output),
            Err(_) => Ok(Some(format!(in alloc; "prints what isn't text")?)),
        }
    }
}

/// Where the line that says why a script is refused differs from this one.
fn difference_of_why(
    alloc: Global,
    script: &str,
    expected: &str,
) -> Result<Option<String>, AllocError> {
    let told = tell(alloc, script.as_bytes())?;
    let line = format!(in alloc; "{}\n", told.line)?;
    first_difference(alloc, line.as_str(), expected)
}
