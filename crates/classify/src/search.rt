//! The search for the first place that every row has: four words of each are turned and combined at a time, where their
//! summaries leave a word.

ghost use Rattle.std.specs.Prelude.{◌≡◌, ◌<◌, ◌≤◌, ◌+◌, ◌-◌, ◌*◌, ◌/◌, ◌%◌, ◌^◌, ℕ, MatchOption};
ghost use Rattle.bits.specs.steps.Summaries.{Nowhere, IsFirst};
ghost use Rattle.classify.specs.steps.CommonPlaces.{AreAndsAt, AreWide, HaveAll, IsAndAt, SumUpAll};

use bits::{TurnedWords, is_marked, next_marked};
use std::simd::prelude::*;

// The words at a place of every row, and-ed: row by row, until no bit is left.
fn and_at(rows: &[TurnedWords<'_>], place: usize) -> u64
    requires { (words : ℕ) × AreWide words rows.now × (place < words) }
    ensures { IsAndAt result rows.now place }
{
    let mut all = u64::MAX;
    for row in rows {
        all &= row.own.word(place) ^ row.turn.word(place);
        if all == 0 {
            return 0;
        }
    }
    all
}

// The same, where the rows have a summary: they aren't looked at where it lacks the word.
fn common_word(rows: &[TurnedWords<'_>], summary: u64, place: usize) -> u64
    requires { (words : ℕ) × AreWide words rows.now × (place < words) × SumUpAll summary words rows.now }
    ensures { IsAndAt result rows.now place }
{
    if is_marked(summary, place) {
        return and_at(rows, place);
    }
    0
}

// Four words at a place of every row, and-ed in lanes: row by row, until no bit is left. The addresses come first, which
// tell most. There are none where no place is in every row.
fn common_four(rows: &[TurnedWords<'_>], place: usize) -> Option<[u64; 4]>
    requires { (words : ℕ) × AreWide words rows.now × (place + 4 ≤ words) }
    ensures { MatchOption result (Nowhere (HaveAll rows.now) (64 * place) (64 * (place + 4))) (λ all. AreAndsAt all rows.now place) }
{
    let mut all = u64x4::splat(u64::MAX);
    for row in rows {
        all &= row.own.four(place) ^ row.turn.four(place);
        if all.reduce_or() == 0 {
            return None;
        }
    }
    Some(all.to_array())
}

// The first place that every row has among four words.
fn first_of_four(rows: &[TurnedWords<'_>], place: usize) -> Option<usize>
    requires { (words : ℕ) × AreWide words rows.now × (place + 4 ≤ words) × (words < 2 ^ 58) }
    ensures { IsFirst (HaveAll rows.now) (64 * place) (64 * (place + 4)) result }
{
    let all = common_four(rows, place)?;
    for lane in 0..4 {
        let word = all[lane];
        if word != 0 {
            return Some(64 * (place + lane) + word.trailing_zeros() as usize);
        }
    }
    None
}

// Where the four words begin that a word stands among: a row keeps four such words, mostly.
#[inline(always)]
fn group(place: usize) -> usize
    ensures low { result ≤ place }
    ensures high { place < result + 4 }
    ensures aligned { result % 4 ≡ 0 }
{
    place / 4 * 4
}

// The first place that every row has, from a word on, word by word.
fn scan(rows: &[TurnedWords<'_>], summary: u64, start: usize, end: usize) -> Option<usize>
    requires { (words : ℕ) × AreWide words rows.now × (end ≤ words) × (words < 2 ^ 58) × SumUpAll summary words rows.now }
    ensures { IsFirst (HaveAll rows.now) (64 * start) (64 * end) result }
{
    for place in start..end {
        let all = common_word(rows, summary, place);
        if all != 0 {
            return Some(64 * place + all.trailing_zeros() as usize);
        }
    }
    None
}

// The first place that every row has, from a word on at which four begin: four words at a time, but for those that the
// summary lacks; and word by word where fewer than four are left.
fn scan_fours(rows: &[TurnedWords<'_>], summary: u64, start: usize, words: usize) -> Option<usize>
    requires wide { AreWide words rows.now }
    requires few { words < 2 ^ 58 }
    requires summed { SumUpAll summary words rows.now }
    requires within { start ≤ words }
    requires aligned { start % 4 ≡ 0 }
    ensures { IsFirst (HaveAll rows.now) (64 * start) (64 * words) result }
{
    let mut four = group(next_marked(summary, start, words));
    while four + 4 <= words {
        if let Some(place) = first_of_four(rows, four) {
            return Some(place);
        }
        four = group(next_marked(summary, four + 4, words));
    }
    scan(rows, summary, four, words)
}

// The first place at or after `from` that every row has and that is in the word of `from`.
fn head(rows: &[TurnedWords<'_>], summary: u64, from: usize) -> Option<usize>
    requires { (words : ℕ) × AreWide words rows.now × (from / 64 < words) × (words < 2 ^ 58) × SumUpAll summary words rows.now }
    ensures { IsFirst (HaveAll rows.now) from (64 * (from / 64 + 1)) result }
{
    let place = from / 64;
    let all = common_word(rows, summary, place) & (u64::MAX << (from % 64));
    if all != 0 {
        return Some(64 * place + all.trailing_zeros() as usize);
    }
    None
}

// The first place that every row has, from a word on: word by word up to where four begin.
fn tail(rows: &[TurnedWords<'_>], summary: u64, start: usize, words: usize) -> Option<usize>
    requires wide { AreWide words rows.now }
    requires few { words < 2 ^ 58 }
    requires summed { SumUpAll summary words rows.now }
    requires within { start ≤ words }
    ensures { IsFirst (HaveAll rows.now) (64 * start) (64 * words) result }
{
    let four = group(start + 3);
    if four >= words {
        return scan(rows, summary, start, words);
    }
    match scan(rows, summary, start, four) {
        Some(place) => Some(place),
        None => scan_fours(rows, summary, four, words),
    }
}

// The first place at or after `from` that every row has. The rows have one summary, with the bit of each word in which all
// of them have a place.
fn first_common(rows: &[TurnedWords<'_>], summary: u64, words: usize, from: usize) -> Option<usize>
    requires wide { AreWide words rows.now }
    requires few { words < 2 ^ 58 }
    requires summed { SumUpAll summary words rows.now }
    ensures { IsFirst (HaveAll rows.now) from (64 * words) result }
{
    if from / 64 >= words {
        return None;
    }
    match head(rows, summary, from) {
        Some(place) => Some(place),
        None => tail(rows, summary, from / 64 + 1, words),
    }
}

/// The first place at or after `from` that every row has, where places are counted from the end of a margin that all rows
/// have.
pub(crate) fn first_after(
    rows: &[TurnedWords<'_>],
    summary: u64,
    words: usize,
    margin: usize,
    from: usize,
) -> Option<usize>
    requires wide { AreWide words rows.now }
    requires few { words < 2 ^ 58 }
    requires summed { SumUpAll summary words rows.now }
    requires within { margin ≤ 64 * words }
    ensures { IsFirst (λ p. HaveAll rows.now (margin + p)) from (64 * words - margin) result }
{
    if from >= 64 * words - margin {
        return None;
    }
    match first_common(rows, summary, words, margin + from) {
        Some(place) => Some(place - margin),
        None => None,
    }
}
