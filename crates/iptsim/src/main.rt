//! The program `iptsim`: sessions and restores of the table `filter`, from standard input to standard output.
#![tactic(auto)]

mod fault;
mod program;

use crate::program::run;
use std::process::ExitCode;

/// Does what the words after the program's name ask for: `session [--load FILE]`, or
/// `restore [--noflush] [--test] [--load FILE]`. FILE is restored first. `--version` prints the version to standard output.
///
/// Replies go to standard output. A fault in FILE goes to standard error, as `line N: CODE text`, and so does each message
/// of the program itself.
///
/// | Status | Cause |
/// |---|---|
/// | 0 | there was no fault; the version was printed |
/// | 1 | the first fault is one of T or R; FILE cannot be opened or read; standard input or output failed |
/// | 2 | the first fault is one of C, P, F or S; the words are refused, ask for help or name no subcommand |
/// | 4 | the first fault is M0; out of memory outside a line |
fn main(rt: HostRuntime) -> ExitCode {
    ExitCode::from(run(&rt, &rt.stderr()))
}
