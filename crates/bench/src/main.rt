//! The program `bench`: what a search of the classifier costs beside the plain walk that it stands for, and a box taken out and
//! put in again. What the program `iptsim` costs, `tests/costs/costs.py` counts.
//!
//! Standard input has workloads, as `tests/drawn/workloads.py` writes them. A line `# NAME` begins one; then its rules stand on
//! lines `-A INPUT ..`, and its packets on lines `packet INPUT ..`; other lines are passed over. `bench` compares answers of
//! the classifier and of a table with those of plain walks, and prints only what never varies. `bench time` prints times.
#![tactic(auto)]

mod agree;
mod asked;
mod edits;
mod made;
mod measure;
mod walk;
mod workload;

use anyhow::Result;
use std::env;
use std::rt::{Clock, Env};

/// What the words after the program's name ask for.
#[derive(Clone, Copy)]
enum Job {
    Agree,
    Measure,
    Refused,
}

fn read_job<R: Env + AllocGlobal>(rt: &R) -> Result<Job> {
    let mut words = env::args(rt)?;
    let _name = words.next();
    Ok(match words.next() {
        None => Job::Agree,
        Some(word) if word.as_str() == "time" => Job::Measure,
        Some(_) => Job::Refused,
    })
}

/// Does the job for each workload of standard input.
fn run_all<R: Clock + Input + Print + AllocGlobal>(rt: &R, job: Job) -> Result<()> {
    for workload in workload::read_all(rt)? {
        match job {
            Job::Agree => agree::run(rt, &workload)?,
            Job::Measure => measure::run(rt, &workload)?,
            Job::Refused => {}
        }
    }
    Ok(())
}

fn main(rt: HostRuntime) -> Result<()> {
    match read_job(&rt)? {
        Job::Refused => {
            rt.println("usage: bench [time] <WORKLOADS")?;
            Ok(())
        }
        job => run_all(&rt, job),
    }
}
