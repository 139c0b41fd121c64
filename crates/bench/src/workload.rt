//! Rules and packets, as they stand on the lines of an input.

use crate::made::{box_of, boxes};
use anyhow::Result;
use fields::{Packet, Words};
use rules::{Boxed, Rule, read_rule};
use std::alloc::{AllocError, Global};
use std::io::{BufRead, BufReader};

/// Rules with their boxes, and packets that are asked about.
#[derive(Drop)]
pub(crate) struct Workload {
    pub name: String,
    pub rules: Vec<Rule>,
    pub boxes: Vec<Boxed>,
    pub packets: Vec<Packet>,
}

impl Workload {
    /// Rules, and no packets.
    pub(crate) fn of(alloc: Global, name: &str, rules: Vec<Rule>) -> Result<Workload, AllocError> {
        Ok(Workload {
            name: name.to_string(alloc)?,
            boxes: boxes(alloc, &rules)?,
            rules,
            packets: Vec::new(alloc),
        })
    }

    /// Takes what a line has.
    fn take(&mut self, alloc: Global, line: &str) -> Result<()> {
        let words = Words::split(alloc, line.as_bytes())?;
        if line.starts_with("-A ") && words.len() >= 2 {
            let rule = read_rule(alloc, &words, 2)?;
            self.boxes.push(box_of(alloc, &rule)?)?;
            self.rules.push(rule)?;
        } else if line.starts_with("packet ") && words.len() >= 1 {
            self.packets.push(Packet::read(&words, 1)?)?;
        }
        Ok(())
    }
}

/// The workloads of standard input.
pub(crate) fn read_all<R: Input + AllocGlobal>(rt: &R) -> Result<Vec<Workload>> {
    let alloc = rt.alloc();
    let mut workloads: Vec<Workload> = Vec::new(alloc);
    for line in BufReader::new(alloc, rt.reader())?.lines(alloc) {
        let line = line?;
        if let Some(name) = line.as_str().strip_prefix("# ") {
            workloads.push(Workload::of(alloc, name, Vec::new(alloc))?)?;
        } else if let Some(workload) = workloads.last_mut() {
            workload.take(alloc, line.as_str())?;
        }
    }
    Ok(workloads)
}
