//! The run that never varies: answers of classifiers and of a table against those of plain walks, and wrong rules.

use crate::asked::{Asked, Question, questions};
use crate::edits::{Spot, edit};
use crate::made;
use crate::workload::Workload;
use anyhow::Result;
use rules::Rule;
use std::alloc::Global;
use std::rt::Clock;

/// Prints how often the answers are those that are expected.
fn print_right(
    rt: &impl Print,
    workload: &Workload,
    what: &str,
    asked: Asked<'_>,
    questions: &[Question],
) -> Result<()> {
    let (name, right, all) = (&workload.name, asked.right(questions), questions.len());
    println!(rt; "{name}, {what}: {right} of {all} agree")?;
    Ok(())
}

/// Searches of classifiers that were made in two ways, and after edits.
fn run_searches<R: Clock + Print + AllocGlobal>(
    rt: &R,
    workload: &Workload,
    questions: &[Question],
) -> Result<()> {
    let alloc = rt.alloc();
    let first = made::put_first(alloc, made::boxes(alloc, &workload.rules)?)?;
    let what = "searches, each put first";
    print_right(rt, workload, what, Asked::Classifier(&first), questions)?;
    let mut last = made::put_last(alloc, made::boxes(alloc, &workload.rules)?)?;
    let what = "searches, each put last";
    print_right(rt, workload, what, Asked::Classifier(&last), questions)?;
    for spot in Spot::ALL {
        let _spent = edit(rt, &mut last, workload, spot)?;
        let what = format!(in alloc; "searches, edited {}", spot.name())?;
        print_right(rt, workload, &what, Asked::Classifier(&last), questions)?;
    }
    Ok(())
}

/// The rules, the last first.
fn turned(alloc: Global, rules: &[Rule]) -> Result<Vec<Rule>> {
    let mut turned = Vec::with_capacity(alloc, rules.len())?;
    for rule in rules.iter().rev() {
        turned.push(rule.copy(alloc)?)?;
    }
    Ok(turned)
}

/// Answers by wrong rules: some have to differ, which shows that a wrong one is reported.
fn run_planted<R: Print + AllocGlobal>(
    rt: &R,
    workload: &Workload,
    wrong: &Workload,
    questions: &[Question],
) -> Result<()> {
    let (alloc, fault) = (rt.alloc(), &wrong.name);
    let table = made::table(alloc, &wrong.rules)?;
    let what = format!(in alloc; "{fault}: verdicts")?;
    print_right(rt, workload, &what, Asked::Table(&table), questions)?;
    let what = format!(in alloc; "{fault}: walks over rules")?;
    print_right(rt, workload, &what, Asked::Rules(wrong), questions)?;
    let what = format!(in alloc; "{fault}: walks over boxes")?;
    print_right(rt, workload, &what, Asked::Boxes(&wrong.boxes), questions)?;
    let classifier = made::put_last(alloc, made::boxes(alloc, &wrong.rules)?)?;
    let what = format!(in alloc; "{fault}: searches")?;
    print_right(
        rt,
        workload,
        &what,
        Asked::Classifier(&classifier),
        questions,
    )
}

/// Prints how many answers agree.
pub(crate) fn run<R: Clock + Print + AllocGlobal>(rt: &R, workload: &Workload) -> Result<()> {
    let alloc = rt.alloc();
    let questions = questions(alloc, workload)?;
    run_searches(rt, workload, &questions)?;
    let table = made::table(alloc, &workload.rules)?;
    print_right(rt, workload, "verdicts", Asked::Table(&table), &questions)?;
    let turned = turned(alloc, &workload.rules)?;
    let wrong = Workload::of(alloc, "planted, rules the other way round", turned)?;
    run_planted(rt, workload, &wrong, &questions)?;
    let none = Workload::of(alloc, "planted, no rules", Vec::new(alloc))?;
    run_planted(rt, workload, &none, &questions)
}
