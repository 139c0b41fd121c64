//! Sets of numbers up to the highest top, of many intervals.
use crate::intervals::{Ends, has_just};
use crate::trouble::{Trouble, expect};
use fields::Spans;
use std::alloc::Global;

/// How many intervals there are below the top.
const COUNT: u64 = 1000;

/// The numbers that are in either of two sets, which have one top.
fn joined(alloc: Global, left: &Spans, right: &Spans) -> Result<Spans, Trouble> {
    if left.top() != right.top() {
        return Err(Trouble::OtherAnswer);
    }
    Ok(left.join(alloc, right)?)
}

/// The numbers that are in both of two sets, which have one top.
fn met(alloc: Global, left: &Spans, right: &Spans) -> Result<Spans, Trouble> {
    if left.top() != right.top() {
        return Err(Trouble::OtherAnswer);
    }
    Ok(left.meet(alloc, right)?)
}

/// The intervals of a comb: 5 to 9, 1,005 to 1,009, and so on, and the highest number.
fn teeth(alloc: Global) -> Result<Vec<Ends>, Trouble> {
    let mut teeth = Vec::new(alloc);
    for place in 0..COUNT {
        let first = u128::from(1000 * place + 5);
        let last = u128::from(1000 * place + 9);
        if teeth.push((first, last)).is_err() {
            return Err(Trouble::NoMemory);
        }
    }
    if teeth.push((u128::MAX, u128::MAX)).is_err() {
        return Err(Trouble::NoMemory);
    }
    Ok(teeth)
}

/// The intervals between those of the comb.
fn gaps(alloc: Global) -> Result<Vec<Ends>, Trouble> {
    let mut gaps = Vec::new(alloc);
    let mut first = 0;
    for place in 0..COUNT {
        if gaps.push((first, u128::from(1000 * place + 4))).is_err() {
            return Err(Trouble::NoMemory);
        }
        first = u128::from(1000 * place + 10);
    }
    if gaps.push((first, u128::MAX - 1)).is_err() {
        return Err(Trouble::NoMemory);
    }
    Ok(gaps)
}

/// The numbers from one to another, up to the highest top.
fn interval(alloc: Global, first: u128, last: u128) -> Result<Spans, Trouble> {
    Ok(Spans::one(alloc, u128::MAX, first, last)?)
}

/// The set of intervals, the last one joined first.
fn set_of(alloc: Global, intervals: &[Ends]) -> Result<Spans, Trouble> {
    let mut set = Spans::none(alloc, u128::MAX);
    for ends in intervals.iter().rev() {
        let one = interval(alloc, ends.0, ends.1)?;
        set = joined(alloc, &set, &one)?;
    }
    Ok(set)
}

/// Compares a set, and the numbers that it leaves out.
fn expect_set(
    alloc: Global,
    set: &Spans,
    intervals: &[Ends],
    others: &[Ends],
) -> Result<(), Trouble> {
    expect(has_just(set, intervals))?;
    expect(has_just(&set.except(alloc)?, others))
}

/// Compares the numbers up to a top, which leave out none.
fn expect_whole(alloc: Global, top: u128) -> Result<(), Trouble> {
    let whole = Spans::whole(alloc, top)?;
    expect_set(alloc, &whole, &[(0, top)], &[])
}

/// Compares the numbers from one to another, and those that they leave out.
fn expect_one(
    alloc: Global,
    first: u128,
    last: u128,
    intervals: &[Ends],
    others: &[Ends],
) -> Result<(), Trouble> {
    let one = interval(alloc, first, last)?;
    expect_set(alloc, &one, intervals, others)
}

/// Compares the numbers that are in either of two sets.
fn expect_joined(
    alloc: Global,
    left: &Spans,
    right: &Spans,
    intervals: &[Ends],
) -> Result<(), Trouble> {
    let either = joined(alloc, left, right)?;
    expect(has_just(&either, intervals))
}

/// Compares the numbers that are in both of two sets.
fn expect_met(
    alloc: Global,
    left: &Spans,
    right: &Spans,
    intervals: &[Ends],
) -> Result<(), Trouble> {
    let both = met(alloc, left, right)?;
    expect(has_just(&both, intervals))
}

/// Compares the numbers that are in either of two sets, and those that are in both.
fn expect_pair(
    alloc: Global,
    left: &Spans,
    right: &Spans,
    either: &[Ends],
    both: &[Ends],
) -> Result<(), Trouble> {
    expect_joined(alloc, left, right, either)?;
    expect_met(alloc, left, right, both)
}

/// The highest number, joined with all numbers, and met with them.
fn last_and_whole(alloc: Global) -> Result<(), Trouble> {
    let whole = Spans::whole(alloc, u128::MAX)?;
    let last = interval(alloc, u128::MAX, u128::MAX)?;
    expect_pair(
        alloc,
        &last,
        &whole,
        &[(0, u128::MAX)],
        &[(u128::MAX, u128::MAX)],
    )
}

/// `Spans::whole` and `one`, up to the highest top.
pub fn ends(alloc: Global) -> Result<(), Trouble> {
    expect_whole(alloc, u128::MAX)?;
    let others = [(0, u128::MAX - 1)];
    expect_one(
        alloc,
        u128::MAX,
        u128::MAX,
        &[(u128::MAX, u128::MAX)],
        &others,
    )?;
    last_and_whole(alloc)?;
    expect_one(alloc, u128::MAX, 0, &[], &[(0, u128::MAX)])?;
    expect_whole(alloc, 0)
}

/// Compares a comb with its intervals, and the rest with the gaps; and both sets, each of them as well with itself.
fn expect_comb(
    alloc: Global,
    comb: &Spans,
    rest: &Spans,
    teeth: &[Ends],
    gaps: &[Ends],
) -> Result<(), Trouble> {
    expect_set(alloc, comb, teeth, gaps)?;
    expect_set(alloc, rest, gaps, teeth)?;
    expect_pair(alloc, comb, rest, &[(0, u128::MAX)], &[])?;
    expect_met(alloc, comb, comb, teeth)?;
    expect_joined(alloc, rest, rest, gaps)
}

/// `Spans::except`, `meet` and `join` of many intervals.
pub fn many(alloc: Global) -> Result<(), Trouble> {
    let (teeth, gaps) = (teeth(alloc)?, gaps(alloc)?);
    let comb = set_of(alloc, &teeth)?;
    let rest = comb.except(alloc)?;
    expect(comb.intervals().len() == 1001)?;
    expect_comb(alloc, &comb, &rest, &teeth, &gaps)
}
