use crate::row::Row;
use std::alloc::{AllocError, AllocGlobal};
use std::fmt::{self, Display, Formatter};
use std::random::RandomSource;
use std::sync::Wait;
use std::thread::Threads;

/// The results of the runs of a file's rows.
#[derive(Drop)]
pub struct Findings<'a> {
    file: &'a str,
    rows: u64,
    runs: u64,
    differing: u64,
    /// A line for each run that differs from its row.
    lines: String,
}

impl<'a> Findings<'a> {
    /// Runs the rows of a file of this text, each of which begins with a line `== NAME`.
    pub fn of_rows<S: Threads + Wait + RandomSource + AllocGlobal + Sync>(
        rt: &S,
        file: &'a str,
        text: &str,
    ) -> Result<Findings<'a>, AllocError> {
        let mut findings = Findings {
            file,
            rows: 0,
            runs: 0,
            differing: 0,
            lines: String::new(rt.alloc()),
        };
        for part in text.strip_prefix("== ").unwrap_or(text).split("\n== ") {
            findings.add_row(rt, &Row::read(part))?;
        }
        Ok(findings)
    }

    /// Runs the script of a row, or where it has frames, each of its lines in each frame.
    fn add_row<S: Threads + Wait + RandomSource + AllocGlobal + Sync>(
        &mut self,
        rt: &S,
        row: &Row<'_>,
    ) -> Result<(), AllocError> {
        self.rows = self.rows.saturating_add(1);
        if !row.is_framed() {
            let script = row.whole_script(rt.alloc())?;
            return self.add_run(rt, row, script.as_str());
        }
        for line in row.script.lines() {
            if let Some(frame) = line.strip_prefix(":: ") {
                self.add_frame(rt, row, frame)?;
            }
        }
        Ok(())
    }

    /// Runs each line of a row in this frame, in the place of its `%`.
    fn add_frame<S: Threads + Wait + RandomSource + AllocGlobal + Sync>(
        &mut self,
        rt: &S,
        row: &Row<'_>,
        frame: &str,
    ) -> Result<(), AllocError> {
        for line in row.script.lines() {
            if !line.starts_with(":: ") {
                let script = frame.replace(rt.alloc(), "%", line)?;
                self.add_run(rt, row, script.as_str())?;
            }
        }
        Ok(())
    }

    /// Runs a script, and keeps where the run differs from the row.
    fn add_run<S: Threads + Wait + RandomSource + AllocGlobal + Sync>(
        &mut self,
        rt: &S,
        row: &Row<'_>,
        script: &str,
    ) -> Result<(), AllocError> {
        self.runs = self.runs.saturating_add(1);
        let Some(difference) = row.difference(rt, script)? else {
            return Ok(());
        };
        self.differing = self.differing.saturating_add(1);
        let (file, name) = (self.file, row.name);
        if row.is_framed() {
            write!(&mut self.lines, "{file}: {name}: {script}: {difference}\n")
        } else {
            write!(&mut self.lines, "{file}: {name}: {difference}\n")
        }
    }
}

impl Display for Findings<'_> {
    fn fmt<W: fmt::Write>(&self, f: &mut Formatter<W>) -> fmt::Result {
        let Findings {
            file,
            rows,
            runs,
            differing,
            lines,
        } = self;
        write!(
            f,
            "{lines}{file}: {rows} rows, {runs} runs, {differing} differ\n"
        )
    }
}
