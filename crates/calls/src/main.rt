//! The program `calls`: what public calls answer that no line of a session brings out.
//!
//! Without a word it makes the cases of all groups, with ample memory, and prints how each ended.
//!
//! With a word it makes the cases of that group alone: `values`, `questions`, `ample`, `tables`, `sessions`, `planted` or `texts`. The
//! first two are made for runs in which one allocation is refused. What is printed is the same whether one of the cases' was refused or
//! not. The status is 0 where no call was refused, and 4 where one was.
//!
//! With the word `conditions` it reads a dump whose comments say what rules need beyond the profile, and prints which rules are dead.
//!
//! With the word `free` and no input it prints cases of calls that promise to take no memory. With a case and a number as its
//! input, as `spans 1000`, it makes the calls of the case so often. After them it takes memory and gives it back until that is
//! refused once, and prints how often it got it. So where one allocation of the run is refused, a late one, this number says
//! how often the run took memory before: the fewer are left, the more were made.
#![tactic(auto)]

mod again;
mod ample;
mod bit_lists;
mod conditions;
mod free;
mod intervals;
mod refused;
mod runs;
mod tables;
mod texts;
mod trouble;
mod written;

use crate::again::Refusals;
use crate::refused::{asked, bit_rows, planted, port_sets, sets};
use crate::tables::{commands, lent, sections, taps};
use crate::trouble::Trouble;
use questions::BoxedTable;
use std::process::ExitCode;
use std::rt::Env;
use std::{env, io};

/// The names of the groups, in the order in which they are made.
const GROUPS: &[&str] = &[
    "values",
    "questions",
    "ample",
    "tables",
    "sessions",
    "planted",
    "texts",
];

/// Prints how a case ended.
fn tell<R: Print>(rt: &R, name: &str, ended: Result<(), Trouble>) {
    let _ = match ended {
        Ok(()) => println!(rt; "{name}: as expected"),
        Err(trouble) => println!(rt; "{name}: {trouble}"),
    };
}

/// The cases of sets of numbers, of ports and of bits.
fn run_of_values<R: Print + AllocGlobal>(rt: &R, refusals: &mut Refusals) {
    let alloc = rt.alloc();
    tell(rt, "numbers in either", sets::join(alloc, refusals));
    tell(rt, "both ports", port_sets::crossed(alloc, refusals));
    tell(rt, "bits", bit_rows::insert(alloc, refusals));
}

/// The questions about all packets, all asked of one table.
fn run_of_answers<R: Print + AllocGlobal>(rt: &R, refusals: &mut Refusals, subject: &BoxedTable) {
    let alloc = rt.alloc();
    tell(rt, "lives", asked::lives(alloc, refusals, subject));
    tell(
        rt,
        "lives under a condition",
        asked::lives_under(alloc, refusals, subject),
    );
    tell(
        rt,
        "why dead under a condition",
        asked::dead_with(alloc, refusals, subject),
    );
    tell(
        rt,
        "rulesets compared",
        asked::compared(alloc, refusals, subject),
    );
    tell(
        rt,
        "packets by their ports",
        asked::reached(alloc, refusals, subject),
    );
    tell(
        rt,
        "claims about verdicts",
        asked::claimed(alloc, refusals, subject),
    );
    tell(rt, "walks", asked::walked(alloc, refusals, subject));
    tell(
        rt,
        "walks under an answer",
        asked::walked_without(alloc, refusals, subject),
    );
}

/// The cases of questions about all packets.
fn run_of_questions<R: Print + AllocGlobal>(rt: &R, refusals: &mut Refusals) {
    match asked::boxes(rt.alloc(), refusals) {
        Ok(subject) => run_of_answers(rt, refusals, &subject),
        Err(trouble) => tell(rt, "lives", Err(trouble)),
    }
}

/// The calls on large input.
fn run_of_ample<R: Print + AllocGlobal>(rt: &R) {
    let alloc = rt.alloc();
    tell(rt, "sets up to the highest top", ample::sets::ends(alloc));
    tell(rt, "sets of many intervals", ample::sets::many(alloc));
    tell(rt, "rows of 5,000 bits", ample::rows::long(alloc));
    tell(rt, "75,001 rows", ample::copies::rows(alloc));
    tell(rt, "150,000 numbers", ample::copies::numbers(alloc));
}

/// The cases of tables, commands and sections.
fn run_of_tables<R: Print + AllocGlobal>(rt: &R) {
    let alloc = rt.alloc();
    tell(rt, "words from a place on", commands::from_a_place(alloc));
    tell(rt, "boxes made once an edit", commands::boxes(alloc));
    tell(rt, "rules that are lent", lent::rules(alloc));
    tell(rt, "refused lines of sections", sections::refused(alloc));
    tell(rt, "COMMIT in a section", sections::commit_lines(alloc));
    tell(rt, "a tap that failed before", taps::stay_failed(alloc));
}

/// The cases of sessions.
fn run_of_sessions<R: Print + AllocGlobal>(rt: &R) {
    let alloc = rt.alloc();
    tell(
        rt,
        "runs after a read that failed",
        runs::after_a_failed_read(alloc),
    );
    tell(rt, "replies handed on", runs::flushes(alloc));
}

/// Prints how the planted cases ended, each by the trouble that it is made to be.
fn run_planted<R: Print + AllocGlobal>(rt: &R) {
    tell(
        rt,
        "planted: a wrong answer",
        planted::wrong_answer(rt.alloc()),
    );
    tell(rt, "planted: a changed value", planted::changed_value());
    tell(rt, "planted: refused again", planted::refused_again());
    tell(
        rt,
        "planted: refused with room",
        planted::refused_with_room(),
    );
    tell(rt, "planted: refused once", planted::refused_once());
}

/// The cases of a group, by its name; none of another name.
fn run_of<R: Print + AllocGlobal>(rt: &R, refusals: &mut Refusals, group: &str) {
    match group {
        "values" => run_of_values(rt, refusals),
        "questions" => run_of_questions(rt, refusals),
        "ample" => run_of_ample(rt),
        "tables" => run_of_tables(rt),
        "sessions" => run_of_sessions(rt),
        "planted" => run_planted(rt),
        "texts" => {
            let _ = texts::print_all(rt);
        }
        _ => {}
    }
}

/// The word after the program's name.
fn word_given<R: Env + AllocGlobal>(rt: &R) -> Option<String> {
    let mut words = env::args(rt).ok()?;
    let _name = words.next();
    words.next()
}

/// Makes the cases of a group, or of all.
fn run<R: Print + AllocGlobal>(rt: &R, refusals: &mut Refusals, word: Option<&str>) {
    match word {
        Some(group) => run_of(rt, refusals, group),
        None => {
            for group in GROUPS {
                run_of(rt, refusals, group);
            }
        }
    }
}

fn main(rt: HostRuntime) -> ExitCode {
    let given = word_given(&rt);
    let word = given.as_ref().map(|word| word.as_str());
    if word == Some("free") {
        free::job::done(&rt, &mut rt.reader());
        return ExitCode::from(0);
    }
    if word == Some("conditions") {
        let ended = conditions::answer(rt.alloc(), &mut rt.reader(), io::writer(&rt));
        return ExitCode::from(if ended.is_ok() { 0 } else { 2 });
    }
    let mut refusals = Refusals::new();
    run(&rt, &mut refusals, word);
    ExitCode::from(if refusals.any() { 4 } else { 0 })
}
