//! What is printed of a case that came out otherwise, and of a file.
use crate::case::Case;
use crate::fault::{Misread, Trouble};
use crate::play::{Ended, Other};
use std::alloc::Global;
use std::io;

// How many lines are shown of an output, from the first on that is another.
const SHOWN: usize = 40;

/// How many cases of a file came out as they are written, and how many otherwise.
#[derive(Clone, Copy, Drop)]
pub(crate) struct Count {
    pub(crate) passed: u64,
    pub(crate) failed: u64,
}

impl Count {
    /// None yet.
    pub(crate) fn new() -> Count {
        Count {
            passed: 0,
            failed: 0,
        }
    }

    /// One more.
    pub(crate) fn note(&mut self, has_passed: bool) {
        if has_passed {
            self.passed = self.passed.saturating_add(1);
        } else {
            self.failed = self.failed.saturating_add(1);
        }
    }

    /// Prints it.
    pub(crate) fn tell(self, rt: &impl Print, file: &str) -> io::Result<()> {
        let Count { passed, failed } = self;
        if failed > 0 {
            return println!(rt; "{file}: {passed} passed, {failed} failed");
        }
        println!(rt; "{file}: {passed} passed")
    }
}

/// Prints why a file is no file of cases.
pub(crate) fn tell_misread(rt: &impl Print, file: &str, misread: Misread) -> io::Result<()> {
    let Misread { line, fault } = misread;
    println!(rt; "{file}:{line}: {fault}")
}

/// Prints a case that came out otherwise: both outputs, from the first different line on, and both statuses.
pub(crate) fn tell_other(
    rt: &impl Print,
    alloc: Global,
    file: &str,
    case: &Case,
    other: &Other<'_>,
) -> Result<(), Trouble> {
    let due = other.run.output.as_slice();
    let same = same_lines(due, &other.ended.output);
    tell_where(rt, file, case, other, same)?;
    println!(rt; "  due:")?;
    tell_output(rt, alloc, due, same)?;
    let status = other.run.status;
    println!(rt; "  status {status}")?;
    println!(rt; "  came out:")?;
    tell_output(rt, alloc, &other.ended.output, same)?;
    tell_status(rt, &other.ended)?;
    Ok(())
}

// Prints which run of a case came out otherwise, and where.
fn tell_where(
    rt: &impl Print,
    file: &str,
    case: &Case,
    other: &Other<'_>,
    same: usize,
) -> io::Result<()> {
    let name = case.name.as_str();
    let place = other.place.saturating_add(1);
    let runs = case.runs.len();
    let first = same.saturating_add(1);
    print!(rt; "{file}: case {name}: run {place} of {runs}: ")?;
    if other.ended.output == other.run.output {
        return println!(rt; "another status");
    }
    println!(rt; "another output from line {first} on")
}

// Prints how a run ended.
fn tell_status(rt: &impl Print, ended: &Ended) -> io::Result<()> {
    match ended.status {
        Ok(status) => println!(rt; "  status {status}"),
        Err(fault) => println!(rt; "  {fault}"),
    }
}

// How many lines two outputs have in common at their begin.
fn same_lines(due: &[u8], output: &[u8]) -> usize {
    let mut same = 0usize;
    let due = due.split(|byte| *byte == b'\n');
    let output = output.split(|byte| *byte == b'\n');
    for (line, other) in due.zip(output) {
        if line != other {
            break;
        }
        same = same.saturating_add(1);
    }
    same
}

// Prints lines of an output, those after the first so many, as a file of cases has them.
fn tell_output(
    rt: &impl Print,
    alloc: Global,
    output: &[u8],
    passed_over: usize,
) -> Result<(), Trouble> {
    let Some(lines) = output.strip_suffix(b"\n") else {
        return tell_open_output(rt, alloc, output);
    };
    for line in lines
        .split(|byte| *byte == b'\n')
        .skip(passed_over)
        .take(SHOWN)
    {
        tell_line(rt, alloc, line)?;
    }
    Ok(())
}

// Prints an output that is empty, or whose last line has no newline.
fn tell_open_output(rt: &impl Print, alloc: Global, output: &[u8]) -> Result<(), Trouble> {
    if output.is_empty() {
        println!(rt; "  no output")?;
        return Ok(());
    }
    tell_line(rt, alloc, output)?;
    println!(rt; "  no newline")?;
    Ok(())
}

// Prints a line of an output.
fn tell_line(rt: &impl Print, alloc: Global, line: &[u8]) -> Result<(), Trouble> {
    let line = String::from_utf8_lossy(alloc, line)?;
    let line = line.as_str();
    println!(rt; "  < {line}")?;
    Ok(())
}
