//! How many conditions are taken as open.
use crate::conditions::open_conditions::OpenConditions;
use std::alloc::{AllocError, Global};

/// How many conditions of a match are open, of which one is told.
#[derive(Clone, Copy)]
pub struct MatchCount {
    /// The condition.
    pub condition: usize,
    /// How many.
    pub count: usize,
}

// Counts an open condition among those of its match.
fn count_in(
    open: &OpenConditions,
    condition: usize,
    counts: &mut Vec<MatchCount>,
) -> Result<(), AllocError> {
    let name = open.match_name(condition);
    for entry in counts.iter_mut() {
        if open.match_name(entry.condition) == name {
            entry.count = entry.count.saturating_add(1);
            return Ok(());
        }
    }
    counts.push(MatchCount {
        condition,
        count: 1,
    })?;
    Ok(())
}

// How many come first.
fn turned(entry: &MatchCount) -> usize {
    usize::MAX - entry.count
}

/// How many conditions of each match are open: most first, and otherwise in the order of the dump.
///
/// # Errors
///
/// `AllocError` where memory was refused.
pub fn open_counts(alloc: Global, open: &OpenConditions) -> Result<Vec<MatchCount>, AllocError> {
    let mut counts = Vec::new(alloc);
    for condition in 0..open.len() {
        if open.is_open(condition) {
            count_in(open, condition, &mut counts)?;
        }
    }
    counts.sort_by_key(|entry| turned(entry))?;
    Ok(counts)
}
