//! The program `dump_cases`: what is made of a dump.
//!
//! Standard input has a dump, or two, of which the second begins behind a line `# next`. For each the program prints its own text, and then, chain
//! by chain:
//!
//! - a line `# CHAIN NUMBER` for each rule that needs something, with the numbers of the conditions, and `!` before one that must not hold;
//! - a line `# CHAIN NUMBER -j VERDICT` for each rule that has a verdict of its own.
//!
//! At the end a line for each condition: its number, the name of its match, its words, and, where it is told by its place, the chain and the
//! number of the rule. A word of the program is an option to be added, as `MATCH OPTION N`.
//!
//! Where a line is refused it prints `line N: FAULT` in place of the dump, and the status is 1. It is 4 where memory was refused, and
//! 2 where the input can't be read or the words are refused.
#![tactic(auto)]

mod answer;
mod trouble;

use crate::answer::answer;
use crate::trouble::Trouble;
use std::process::ExitCode;
use std::rt::Env;
use std::{env, io};

/// The word after the program's name.
fn word_given<R: Env + AllocGlobal>(rt: &R) -> Option<String> {
    let mut words = env::args(rt).ok()?;
    let _name = words.next();
    words.next()
}

fn main(rt: HostRuntime) -> ExitCode {
    let given = word_given(&rt);
    let word = given.as_ref().map(|word| word.as_bytes());
    let ended = answer(rt.alloc(), word, &mut rt.reader(), io::writer(&rt));
    ExitCode::from(match ended {
        Ok(()) => 0,
        Err(Trouble::Refused) => 1,
        Err(Trouble::Other) => 2,
        Err(Trouble::NoMemory) => 4,
    })
}
