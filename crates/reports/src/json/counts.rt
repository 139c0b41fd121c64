//! How many rules there are of each kind, in a document.
use crate::json::document::{ChangeCounts, Counts};
use audits::Tally;

/// The counts, without those of packets that were given.
pub(crate) fn dead_counts(tally: &Tally) -> Counts {
    Counts {
        rules: tally.rules(),
        covered: None,
        covered_if: None,
        missed: None,
        dead: tally.dead,
        unclear: tally.unclear,
        redundant: Some(tally.redundant),
        shadowed: Some(tally.shadowed),
    }
}

/// The counts with those of packets that were given.
pub(crate) fn coverage_counts(tally: &Tally) -> Counts {
    Counts {
        rules: tally.rules(),
        covered: Some(tally.covered),
        covered_if: if tally.covered_if > 0 {
            Some(tally.covered_if)
        } else {
            None
        },
        missed: Some(tally.live),
        dead: tally.dead,
        unclear: tally.unclear,
        redundant: None,
        shadowed: None,
    }
}

/// The counts of changed rules.
pub(crate) fn change_counts(tally: &Tally) -> ChangeCounts {
    ChangeCounts {
        changed: tally.rules(),
        dead: tally.dead,
        unclear: tally.unclear,
    }
}
