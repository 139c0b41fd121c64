//! The program `cases`: sessions and restores that are given as text, with the output and the status that are expected. Each
//! file of its folder has the cases of a theme (`docs/CASES.md`). It prints each case that comes out otherwise, and how many of
//! each file came out as they are written.
#![tactic(auto)]

mod case;
mod fault;
mod file;
mod folder;
mod line;
mod play;
mod report;
mod rounds;
mod side;
mod written;

use crate::fault::Trouble;
use std::process::ExitCode;

/// Plays the cases of the files that the words after the program's name name, or of all files of the folder that it runs in.
///
/// | Status | Cause |
/// |---|---|
/// | 0 | every case of every file came out as it is written |
/// | 1 | a case came out otherwise, or a file cannot be read as cases |
/// | 2 | the folder cannot be listed, or has no file; nothing could be printed; out of memory |
fn main(rt: HostRuntime) -> ExitCode {
    match folder::play_all(&rt) {
        Ok(true) => ExitCode::from(0),
        Ok(false) => ExitCode::from(1),
        Err(trouble) => give_up(&rt.stderr(), trouble),
    }
}

// Says why the program stops.
fn give_up(errors: &impl Print, trouble: Trouble) -> ExitCode {
    let _ = println!(errors; "cases: {trouble}");
    ExitCode::from(2)
}
