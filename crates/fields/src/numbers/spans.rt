//! Sets of numbers up to a top value, kept as their intervals.

ghost use Rattle.std.specs.Prelude.{◌≡◌, ◌≤◌, ◌<◌, ◌&&◌, ◌||◌, ℕ, nat_le, not, [], IfOk, IsOk};
ghost use Rattle.fields.specs.numbers.Spans.{has, AreSpansFrom, CanonicalIsUnique};

use smallvec::SmallVec;
use std::alloc::{AllocError, Global};
use std::marker::Model;

/// The numbers from `first` to `last`, both among them.
#[derive(Clone, Copy, Debug, Default, PartialEq, Eq)]
pub struct Interval {
    /// The least of them.
    pub first: u128,
    /// The greatest of them.
    pub last: u128,
}

/// A set of numbers from 0 to a top value, kept as its intervals: they rise, and between two of them
/// there is a number that is in neither, so each set has one such list (`canonical_is_unique`).
///
/// An interval takes 32 bytes. One lies in the set itself, so a set takes memory only for several. `whole` and `one`
/// always succeed; any other call that makes a set answers `AllocError` only where memory was refused.
#[derive(Drop)]
pub struct Spans {
    top: u128,
    intervals: SmallVec<Interval, 1>,
}

impl Model for Spans {
    ghost use Rattle.fields.specs.numbers.Spans.{SpanSet, AreSpansFrom};

    ghost Value = { SpanSet };

    ghost view = { λ s. record { top = s.top; intervals = s.intervals.items } };

    ghost invariant = { λ s. AreSpansFrom s.top 0 s.intervals.items };
}

impl Spans {
    /// No number, as a set up to `top`. It takes no memory.
    pub fn none(alloc: Global, top: u128) -> Spans
        ensures { result ≡ record { top = top; intervals = [] } }
    {
        Spans {
            top,
            intervals: SmallVec::new(alloc),
        }
    }

    /// All numbers from 0 to `top`.
    pub fn whole(alloc: Global, top: u128) -> Result<Spans, AllocError>
        ensures succeeds { IsOk result }
        ensures top { IfOk result (λ set. set.top ≡ top) }
        ensures members { IfOk result (λ set. (x : ℕ) → has set.intervals x ≡ nat_le x top) }
    {
        Spans::one(alloc, top, 0, top)
    }

    /// The numbers from `first` to `last`, both at most `top`, as a set up to `top`: none where `first` is above
    /// `last`.
    pub fn one(alloc: Global, top: u128, first: u128, last: u128) -> Result<Spans, AllocError>
        requires first_within { first ≤ top }
        requires last_within { last ≤ top }
        ensures succeeds { IsOk result }
        ensures top { IfOk result (λ set. set.top ≡ top) }
        ensures members { IfOk result (λ set. (x : ℕ) → has set.intervals x ≡ (nat_le first x && nat_le x last)) }
    {
        let mut intervals = SmallVec::new(alloc);
        if first <= last {
            intervals.push(Interval { first, last })?;
        }
        Ok(Spans { top, intervals })
    }

    // The numbers from 0 to `top` of which a test holds, in one pass over them.
    pub(crate) fn of_test<F: Fn(u8) -> bool>(
        alloc: Global,
        top: u8,
        test: F,
    ) -> Result<Spans, AllocError>
        requires small { top < 128 }
        requires callable { F.IsAlwaysCallable test }
        ensures top { IfOk result (λ set. set.top ≡ top) }
        ensures members { IfOk result (λ set. (x : ℕ) → x ≤ top → F.post test x (has set.intervals x)) }
    {
        let mut runs = SmallVec::new(alloc);
        // The test holds of all numbers from `first` to before `x`; the number after the top ends the last of these
        // runs.
        let mut first = 0;
        for x in 0..top + 2 {
            if x > top || !test(x) {
                if first < x {
                    runs.push(Interval {
                        first: first.into(),
                        last: (x - 1).into(),
                    })?;
                }
                first = x + 1;
            }
        }
        Ok(Spans {
            top: top.into(),
            intervals: runs,
        })
    }

    /// The other numbers from 0 to the set's top: the gaps before, between and after its intervals.
    ///
    /// It takes time and memory linear in the number of intervals.
    pub fn except(&self, alloc: Global) -> Result<Spans, AllocError>
        ensures top { IfOk result (λ set. set.top ≡ self.now.top) }
        ensures members { IfOk result (λ set. (x : ℕ) → x ≤ self.now.top → has set.intervals x ≡ not (has self.now.intervals x)) }
    {
        let mut gaps = SmallVec::new(alloc);
        // Where the next gap starts, if there is a number left for it.
        let mut start = Some(0);
        for taken in self.intervals.as_slice() {
            if let Some(first) = start
                && first < taken.first
            {
                gaps.push(Interval {
                    first,
                    last: taken.first - 1,
                })?;
            }
            start = if taken.last < self.top {
                Some(taken.last + 1)
            } else {
                None
            };
        }
        if let Some(first) = start {
            gaps.push(Interval {
                first,
                last: self.top,
            })?;
        }
        Ok(Spans {
            top: self.top,
            intervals: gaps,
        })
    }

    /// The numbers that are in both of two sets with one top.
    ///
    /// It takes time and memory linear in the number of their intervals.
    pub fn meet(&self, alloc: Global, other: &Spans) -> Result<Spans, AllocError>
        requires { self.now.top ≡ other.now.top }
        ensures top { IfOk result (λ set. set.top ≡ self.now.top) }
        ensures members { IfOk result (λ set. (x : ℕ) → has set.intervals x ≡ (has self.now.intervals x && has other.now.intervals x)) }
    {
        let mut shared = SmallVec::new(alloc);
        let mut left = self.intervals.as_slice();
        let mut right = other.intervals.as_slice();
        while let (Some((a, after_a)), Some((b, after_b))) = (
            left.split_first(),
            right.split_first(),
        ) {
            let first = a.first.max(b.first);
            let last = a.last.min(b.last);
            if first <= last {
                shared.push(Interval { first, last })?;
            }
            let rests = if a.last <= b.last {
                (after_a, right)
            } else {
                (left, after_b)
            };
            (left, right) = rests;
        }
        Ok(Spans {
            top: self.top,
            intervals: shared,
        })
    }

    /// The numbers that are in either of two sets with one top.
    ///
    /// It takes time and memory linear in the number of their intervals.
    pub fn join(&self, alloc: Global, other: &Spans) -> Result<Spans, AllocError>
        requires { self.now.top ≡ other.now.top }
        ensures top { IfOk result (λ set. set.top ≡ self.now.top) }
        ensures members { IfOk result (λ set. (x : ℕ) → x ≤ self.now.top
            → has set.intervals x ≡ (has self.now.intervals x || has other.now.intervals x)) }
    {
        // All but what both leave out.
        let others = other.except(alloc)?;
        let neither = self.except(alloc)?.meet(alloc, &others)?;
        neither.except(alloc)
    }

    /// Whether the set has a number: a binary search, in time logarithmic in the number of intervals.
    /// It has none above its top.
    pub fn has(&self, x: u128) -> bool
        ensures { result ≡ has self.now.intervals x }
    {
        let place = self.intervals.partition_point(|span| span.last < x);
        self.intervals
            .get(place)
            .is_some_and(|span| span.first <= x)
    }

    /// The greatest number that the set could have.
    pub fn top(&self) -> u128
        ensures { result ≡ self.now.top }
    {
        self.top
    }

    /// The intervals, in rising order; they are lent.
    pub fn intervals(&self) -> &[Interval]
        ensures value { result.now ≡ self.now.intervals }
        ensures canonical { AreSpansFrom self.now.top 0 self.now.intervals }
    {
        self.intervals.as_slice()
    }
}

/// The law that sets of the same numbers have the same intervals: its contract is the law, and it does nothing.
#[tactic(auto, using(crate::proofs::laws::numbers::SpanLaws::unique))]
pub fn canonical_is_unique()
    ensures { CanonicalIsUnique }
{}
