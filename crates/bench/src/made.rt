//! Boxes, classifiers and tables that are made of rules.

use anyhow::Result;
use classify::Classifier;
use rules::{Boxed, Rule, Work};
use std::alloc::{AllocError, Global};
use table::Table;

/// The box of a rule.
pub(crate) fn box_of(alloc: Global, rule: &Rule) -> Result<Boxed, AllocError> {
    Boxed::of(alloc, rule, &mut Work::new())
}

/// The boxes of rules.
pub(crate) fn boxes(alloc: Global, rules: &[Rule]) -> Result<Vec<Boxed>, AllocError> {
    let mut boxes = Vec::with_capacity(alloc, rules.len())?;
    for rule in rules {
        boxes.push(box_of(alloc, rule)?)?;
    }
    Ok(boxes)
}

/// The classifier of boxes, each put in last.
pub(crate) fn put_last(alloc: Global, boxes: Vec<Boxed>) -> Result<Classifier, AllocError> {
    let mut classifier = Classifier::new(alloc)?;
    for boxed in boxes {
        let at = classifier.len();
        classifier.insert(at, boxed)?;
    }
    Ok(classifier)
}

/// The classifier of boxes, the last first, each put in before the others.
pub(crate) fn put_first(alloc: Global, boxes: Vec<Boxed>) -> Result<Classifier, AllocError> {
    let mut classifier = Classifier::new(alloc)?;
    for boxed in boxes.into_iter().rev() {
        classifier.insert(0, boxed)?;
    }
    Ok(classifier)
}

/// A table whose chain INPUT has the rules, and drops other packets.
pub(crate) fn table(alloc: Global, rules: &[Rule]) -> Result<Table> {
    let mut work = Work::new();
    let mut table = Table::new(alloc)?;
    table.set_policy(b"INPUT", b"DROP")?;
    for rule in rules {
        table.append(b"INPUT", rule.copy(alloc)?, &mut work)?;
    }
    Ok(table)
}
