//! Sets of numbers, each beside the bits of a mask.
use fields::{Interval, Spans};
use std::alloc::{AllocError, Global};
use std::process::Abort;
use std::test::Fail;

/// The sets of the numbers below 5, each by a mask whose bits are its numbers.
const TOP: u128 = 4;

const NUMBERS: u32 = 5;

const MASKS: u32 = 32;

/// What two sets share, which have one top.
fn meet_of(
    rt: &impl Abort,
    alloc: Global,
    left: &Spans,
    right: &Spans,
) -> Result<Spans, AllocError> {
    assert_eq!(rt; left.top(), right.top());
    left.meet(alloc, right)
}

/// What either of two sets has, which have one top.
fn join_of(
    rt: &impl Abort,
    alloc: Global,
    left: &Spans,
    right: &Spans,
) -> Result<Spans, AllocError> {
    assert_eq!(rt; left.top(), right.top());
    left.join(alloc, right)
}

/// The set of a mask, made from all numbers by leaving out the others.
fn set_of(rt: &impl Abort, alloc: Global, mask: u32) -> Result<Spans, AllocError> {
    let mut set = Spans::whole(alloc, TOP)?;
    for x in 0..NUMBERS {
        if mask >> x & 1 == 0 {
            let others = Spans::one(alloc, TOP, x.into(), x.into())?.except(alloc)?;
            set = meet_of(rt, alloc, &set, &others)?;
        }
    }
    Ok(set)
}

/// The runs of set bits.
fn runs_of(alloc: Global, mask: u32) -> Result<Vec<Interval>, AllocError> {
    let mut runs = Vec::new(alloc);
    for first in 0..NUMBERS {
        for last in first..NUMBERS {
            let starts = first == 0 || mask >> (first - 1) & 1 == 0;
            let ends = mask >> (last + 1) & 1 == 0;
            if starts && ends && (first..last + 1).all(|x| mask >> x & 1 == 1) {
                runs.push(Interval {
                    first: first.into(),
                    last: last.into(),
                })?;
            }
        }
    }
    Ok(runs)
}

// Whether the set's intervals are the runs of set bits.
fn has_runs(alloc: Global, set: &Spans, mask: u32) -> Result<bool, AllocError> {
    let runs = runs_of(alloc, mask)?;
    Ok(set.intervals() == runs.as_slice())
}

// The set has just the numbers whose bits are set, and not the one after the top.
fn has_bits(rt: &impl Abort, set: &Spans, mask: u32) {
    for x in 0..NUMBERS + 1 {
        assert!(rt; set.has(x.into()) == (mask >> x & 1 == 1), "{x} in {mask}");
    }
}

// Whether what is left by what the set leaves is the set; what it leaves has just the numbers of the mask.
fn is_left_by_others(
    rt: &impl Abort,
    alloc: Global,
    set: &Spans,
    mask: u32,
) -> Result<bool, AllocError> {
    let others = set.except(alloc)?;
    has_bits(rt, &others, mask);
    let again = others.except(alloc)?;
    Ok(again.intervals() == set.intervals())
}

// Whether all numbers leave the set as it is where they meet it.
fn meets_all(rt: &impl Abort, alloc: Global, set: &Spans) -> Result<bool, AllocError> {
    let all = Spans::whole(alloc, TOP)?;
    let same = meet_of(rt, alloc, set, &all)?;
    Ok(same.intervals() == set.intervals())
}

#[test]
fn small_sets(rt: HostRuntime) -> Result<(), Fail> {
    let alloc = rt.alloc();
    for mask in 0..MASKS {
        let set = set_of(&rt, alloc, mask)?;
        has_bits(&rt, &set, mask);
        assert!(rt; has_runs(alloc, &set, mask)?, "{mask}");
    }
    Ok(())
}

#[test]
fn others_of_small_sets(rt: HostRuntime) -> Result<(), Fail> {
    let alloc = rt.alloc();
    for mask in 0..MASKS {
        let set = set_of(&rt, alloc, mask)?;
        assert!(rt;
            is_left_by_others(&rt, alloc, &set, mask ^ (MASKS - 1))?,
            "{mask}"
        );
        assert!(rt; meets_all(&rt, alloc, &set)?, "{mask}");
    }
    Ok(())
}

// Whether the sets of two masks meet in the runs of both.
fn meets(rt: &impl Abort, alloc: Global, mask: u32, other: u32) -> Result<bool, AllocError> {
    let left = set_of(rt, alloc, mask)?;
    let right = set_of(rt, alloc, other)?;
    let both = meet_of(rt, alloc, &left, &right)?;
    has_runs(alloc, &both, mask & other)
}

// Whether the sets of two masks join to the runs of either.
fn joins(rt: &impl Abort, alloc: Global, mask: u32, other: u32) -> Result<bool, AllocError> {
    let left = set_of(rt, alloc, mask)?;
    let right = set_of(rt, alloc, other)?;
    let either = join_of(rt, alloc, &left, &right)?;
    has_runs(alloc, &either, mask | other)
}

#[test]
fn small_meets_and_joins(rt: HostRuntime) -> Result<(), Fail> {
    let alloc = rt.alloc();
    for mask in 0..MASKS {
        for other in 0..MASKS {
            assert!(rt; meets(&rt, alloc, mask, other)?, "{mask} and {other}");
            assert!(rt; joins(&rt, alloc, mask, other)?, "{mask} or {other}");
        }
    }
    Ok(())
}

// Whether the set's only interval is this.
fn is_just(set: &Spans, first: u128, last: u128) -> bool {
    set.intervals() == [Interval { first, last }].as_slice()
}

// A first and a last number, and how many intervals the set from the one to the other has.
const ENDS: &[(u128, u128, usize)] = &[
    (0, 0, 1),
    (0, 4, 1),
    (2, 3, 1),
    (4, 4, 1),
    (1, 0, 0),
    (4, 3, 0),
    (4, 0, 0),
];

// Whether the set from the first to the last number has so many intervals, and no other than this.
fn has_ends(
    rt: &impl Abort,
    alloc: Global,
    (first, last): (u128, u128),
    count: usize,
) -> Result<bool, AllocError> {
    assert!(rt; first <= TOP && last <= TOP);
    let set = Spans::one(alloc, TOP, first, last)?;
    Ok(set.intervals().len() == count && (count == 0 || is_just(&set, first, last)))
}

#[test]
fn intervals_of_one(rt: HostRuntime) -> Result<(), Fail> {
    for (first, last, count) in ENDS {
        assert!(rt;
            has_ends(&rt, rt.alloc(), (*first, *last), *count)?,
            "{first} to {last}"
        );
    }
    Ok(())
}

#[test]
fn greatest_top(rt: HostRuntime) -> Result<(), Fail> {
    let alloc = rt.alloc();
    let all = Spans::whole(alloc, u128::MAX)?;
    assert!(rt; is_just(&all, 0, u128::MAX) && all.has(0) && all.has(u128::MAX));
    assert!(rt; all.except(alloc)?.intervals().is_empty());
    Ok(())
}

// The two last numbers of the greatest top.
fn last_two(alloc: Global) -> Result<Spans, AllocError> {
    Spans::one(alloc, u128::MAX, u128::MAX - 1, u128::MAX)
}

#[test]
fn end_of_greatest_top(rt: HostRuntime) -> Result<(), Fail> {
    let end = last_two(rt.alloc())?;
    assert!(rt; end.has(u128::MAX) && !end.has(u128::MAX - 2));
    Ok(())
}

#[test]
fn what_the_end_leaves(rt: HostRuntime) -> Result<(), Fail> {
    let before = last_two(rt.alloc())?.except(rt.alloc())?;
    assert!(rt; is_just(&before, 0, u128::MAX - 2) && !before.has(u128::MAX));
    Ok(())
}

#[test]
fn end_is_left_again(rt: HostRuntime) -> Result<(), Fail> {
    let end = last_two(rt.alloc())?;
    let again = end.except(rt.alloc())?.except(rt.alloc())?;
    assert!(rt; again.intervals() == end.intervals());
    Ok(())
}

#[test]
fn meet_at_greatest_top(rt: HostRuntime) -> Result<(), Fail> {
    let alloc = rt.alloc();
    let last = Spans::one(alloc, u128::MAX, u128::MAX, u128::MAX)?;
    let both = meet_of(&rt, alloc, &last_two(alloc)?, &last)?;
    assert!(rt; is_just(&both, u128::MAX, u128::MAX));
    Ok(())
}
