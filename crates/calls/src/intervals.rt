//! Sets of numbers, written as their intervals.
use fields::Spans;

/// The first and the last number of an interval.
pub type Ends = (u128, u128);

/// Whether these are the set's intervals.
pub fn has_just(set: &Spans, intervals: &[Ends]) -> bool {
    set.intervals()
        .iter()
        .map(|span| (span.first, span.last))
        .eq(intervals.iter().copied())
}
