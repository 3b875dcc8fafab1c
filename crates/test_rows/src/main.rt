//! Runs the rows of the files that its words name, and prints each run that differs from its row,
//! and a line a file.
#![tactic(auto)]

mod findings;
mod lines;
mod row;

use crate::findings::Findings;
use std::{env, fs, io};

fn main(rt: HostRuntime) -> io::Result<()> {
    for file in env::args(&rt)?.skip(1) {
        let text = fs::read_to_string(&rt, file.as_str())?;
        let findings = Findings::of_rows(&rt, file.as_str(), text.as_str())?;
        print!(rt; "{findings}")?;
    }
    Ok(())
}
