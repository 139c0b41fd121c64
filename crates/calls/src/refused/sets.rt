//! Sets of numbers.
use crate::again::{Refusals, again, expect_kept};
use crate::intervals::{Ends, has_just};
use crate::trouble::{Trouble, expect};
use fields::Spans;
use std::alloc::Global;

/// The top of the sets here.
const TOP: u128 = 63;

/// The set of the numbers from one to another, up to the top at most.
fn one_of(alloc: Global, refusals: &mut Refusals, ends: Ends) -> Result<Spans, Trouble> {
    let (first, last) = (ends.0.min(TOP), ends.1.min(TOP));
    Ok(again!(refusals, Spans::one(alloc, TOP, first, last), true))
}

/// Two sets with their intervals.
type Pair<'a> = (&'a Spans, &'a [Ends], &'a Spans, &'a [Ends]);

/// Whether two sets have just these intervals.
fn have_just(pair: Pair) -> bool {
    has_just(pair.0, pair.1) && has_just(pair.2, pair.3)
}

/// The numbers in either of two sets; a refusal leaves both.
fn joined(alloc: Global, refusals: &mut Refusals, pair: Pair) -> Result<Spans, Trouble> {
    let (left, _, right, _) = pair;
    if left.top() != right.top() {
        return Err(Trouble::OtherAnswer);
    }
    Ok(again!(refusals, left.join(alloc, right), have_just(pair)))
}

/// The set of two intervals.
fn both_of(alloc: Global, refusals: &mut Refusals, ends: &[Ends; 2]) -> Result<Spans, Trouble> {
    let first = one_of(alloc, refusals, ends[0])?;
    let second = one_of(alloc, refusals, ends[1])?;
    joined(alloc, refusals, (&first, &ends[..1], &second, &ends[1..]))
}

/// `Spans::join`.
pub fn join(alloc: Global, refusals: &mut Refusals) -> Result<(), Trouble> {
    let (left_ends, right_ends) = ([(0, 4), (10, 14)], [(5, 9), (20, 20)]);
    let left = both_of(alloc, refusals, &left_ends)?;
    let right = both_of(alloc, refusals, &right_ends)?;
    let either = joined(alloc, refusals, (&left, &left_ends, &right, &right_ends))?;
    expect(either.top() == TOP && has_just(&either, &[(0, 14), (20, 20)]))
}
