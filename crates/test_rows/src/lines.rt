use std::alloc::{AllocError, Global};
use std::str::Lines;

/// A text in which each line `*3 LINE` stands for three lines.
pub fn unfolded(alloc: Global, text: &str) -> Result<String, AllocError> {
    let mut lines = String::new(alloc);
    for line in text.split('\n') {
        let (times, line) = counted(line);
        push_line(&mut lines, times, line)?;
    }
    let _ = lines.pop();
    Ok(lines)
}

/// How many times a line stands, and the line.
fn counted(line: &str) -> (u64, &str) {
    if let Some(rest) = line.strip_prefix('*')
        && let Some((times, line)) = rest.split_once(' ')
        && let Ok(times) = times.parse()
    {
        return (times, line);
    }
    (1, line)
}

/// Adds a line, and its end, so many times.
fn push_line(lines: &mut String, times: u64, line: &str) -> Result<(), AllocError> {
    for _ in 0..times {
        lines.push_str(line)?;
        lines.push('\n')?;
    }
    Ok(())
}

/// The line of an expected text that stands for any lines.
const ANY_LINES: &str = "...";

/// Tells the first line in which what was printed isn't what is expected, if it isn't; after a line
/// that stands for any lines, the first from the end.
pub fn first_difference(
    alloc: Global,
    printed: &str,
    expected: &str,
) -> Result<Option<String>, AllocError> {
    if printed == expected {
        return Ok(None);
    }
    let mut lines = printed.lines();
    let mut wanted = expected.lines();
    for number in 1..u64::MAX {
        let next = wanted.next();
        if next == Some(ANY_LINES) {
            if let Some(last) = last_difference(alloc, lines, wanted)? {
                return Ok(Some(last));
            }
            if is_ended(printed) == is_ended(expected) {
                return Ok(None);
            }
            break;
        }
        match (lines.next(), next) {
            (None, None) => break,
            (line, wanted) if line == wanted => {}
            (line, wanted) => return Ok(Some(difference(alloc, number, line, wanted)?)),
        }
    }
    Ok(Some(String::from_str(alloc, "only the ends of lines differ")?))
}

/// Whether the last line of a text has its end.
fn is_ended(text: &str) -> bool {
    text.is_empty() || text.ends_with('\n')
}

/// Tells the first line from the end in which what was printed isn't what is expected, as far as
/// that goes.
fn last_difference(
    alloc: Global,
    printed: Lines<'_>,
    expected: Lines<'_>,
) -> Result<Option<String>, AllocError> {
    let mut printed = printed.rev();
    for (number, line) in (1..u64::MAX).zip(expected.rev()) {
        let found = printed.next();
        if found != Some(line) {
            let found = found.unwrap_or("nothing");
            return Ok(Some(format!(in alloc;
                "line {number} from the end is `{found}`, not `{line}`"
            )?));
        }
    }
    Ok(None)
}

/// Tells in which way the lines of this number differ.
fn difference(
    alloc: Global,
    number: u64,
    printed: Option<&str>,
    expected: Option<&str>,
) -> Result<String, AllocError> {
    let printed = printed.unwrap_or("nothing");
    match expected {
        Some(line) => format!(in alloc; "line {number} is `{printed}`, not `{line}`"),
        None => format!(in alloc; "line {number} is `{printed}`, and none is expected"),
    }
}
