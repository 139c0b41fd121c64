//! What questions are asked about.
use crate::boxes::boxed_table::BoxedTable;
use crate::foreign::need::Needs;

/// A table with the boxes of its rules, and what these need beyond what they match. Both are lent.
///
/// Answers hold whichever conditions hold. So they speak of a kernel in which each condition answers the same each time that one packet asks it,
/// also where a walk enters a chain twice.
#[derive(Clone, Copy)]
pub struct Subject<'a> {
    /// The table.
    pub boxed: &'a BoxedTable,
    /// What its rules need.
    pub needs: &'a Needs,
}
