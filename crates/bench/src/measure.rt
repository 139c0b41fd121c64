//! The run that measures.

use crate::asked::{Asked, Question, questions};
use crate::edits::{Spot, edit};
use crate::made;
use crate::workload::Workload;
use anyhow::Result;
use classify::Classifier;
use std::rt::Clock;
use std::time::Instant;

/// Prints some nanoseconds.
fn print_time(rt: &impl Print, what: &str, nanoseconds: u128) -> Result<()> {
    println!(rt; "  {what:<34}{nanoseconds:>15} ns")?;
    Ok(())
}

/// Prints what an answer takes, and how many were wrong.
fn print_asked<R: Clock + Print>(
    rt: &R,
    what: &str,
    asked: Asked<'_>,
    questions: &[Question],
) -> Result<()> {
    let (took, wrong) = asked.time(rt, questions)?;
    print_time(rt, what, took)?;
    if wrong > 0 {
        println!(rt; "  {wrong} answers went wrong")?;
    }
    Ok(())
}

/// The classifier of a workload. Prints what it takes to put all boxes in, and to take one out and put it in again.
fn measure_boxes<R: Clock + Print + AllocGlobal>(
    rt: &R,
    workload: &Workload,
) -> Result<Classifier> {
    let alloc = rt.alloc();
    let boxes = made::boxes(alloc, &workload.rules)?;
    let start = Instant::now(rt)?;
    let mut classifier = made::put_last(alloc, boxes)?;
    let took = start.elapsed(rt)?.as_nanos();
    print_time(rt, "all boxes put in, each last", took)?;
    for spot in Spot::ALL {
        let spent = edit(rt, &mut classifier, workload, spot)?;
        let what = format!(in alloc; "box taken out {}", spot.name())?;
        print_time(rt, &what, spent.out)?;
        let what = format!(in alloc; "box put in {}", spot.name())?;
        print_time(rt, &what, spent.back)?;
    }
    Ok(classifier)
}

/// Prints the times of a workload.
pub(crate) fn run<R: Clock + Print + AllocGlobal>(rt: &R, workload: &Workload) -> Result<()> {
    let name = &workload.name;
    println!(rt; "{name}")?;
    let questions = questions(rt.alloc(), workload)?;
    let classifier = measure_boxes(rt, workload)?;
    print_asked(rt, "search", Asked::Classifier(&classifier), &questions)?;
    let boxes = Asked::Boxes(&workload.boxes);
    print_asked(rt, "plain walk over boxes", boxes, &questions)?;
    let table = made::table(rt.alloc(), &workload.rules)?;
    print_asked(rt, "verdict of the table", Asked::Table(&table), &questions)?;
    let rules = Asked::Rules(workload);
    print_asked(rt, "plain walk over rules", rules, &questions)
}
