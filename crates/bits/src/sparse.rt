//! Bits moved into or out of the words that a summary has: words without a bit are passed over.

ghost use Rattle.std.specs.Prelude.{◌≡◌, ◌≢◌, ◌<◌, ◌≤◌, ◌*◌, ◌/◌, ◌%◌, ◌^◌, ◌↔◌, length, true, slice_index, IsTrue};
ghost use Rattle.bits.specs.steps.Summaries.{Nowhere, AreMostMarked, IsMarked, IsSummaryOf, HidesNoWord, StayBlank};
ghost use Rattle.bits.specs.steps.Held.{TakesIn, GivesUp, Shifts};
ghost use Rattle.bits.specs.steps.Packing.{all_bits};

use crate::summary::{kept, marked, next_marked};
use crate::words::{insert_bit, remove_bit, shift_down, shift_in, shift_out, shift_up, word_at};

/// How the bits from a place on move: a 0 comes in there and the later ones move up, so that the last falls out; or the bit
/// goes out and they move down, and a 0 comes in last.
#[derive(Clone, Copy)]
pub(crate) enum Way {
    In,
    Out,
}

// The next of so many words, from one on, that a bit moves into or that may have one: where none moves on, blank words stay.
// The second word of a pair, whose summary is that of the first, is looked at without a search.
fn next_up(summary: u64, carry: bool, start: usize, words: usize) -> usize
    requires few { words < 2 ^ 58 }
    requires within { start ≤ words }
    ensures low { start ≤ result }
    ensures high { result ≤ words }
    ensures none { Nowhere (IsMarked summary) start result }
    ensures next { carry ≡ true → result ≡ start }
    ensures pairs { start % 2 ≡ 0 → words % 2 ≡ 0 → result % 2 ≡ 0 }
{
    if carry || start % 2 == 1 {
        return start;
    }
    next_marked(summary, start, words)
}

// Puts a 0 in at a place: the later bits move up, and the last falls out. Words that the summary lacks are passed over.
fn insert_in_marked(words: &mut [u64], summary: &mut u64, at: usize)
    requires few { length words.old < 2 ^ 58 }
    requires place { at ≤ 64 * length words.old }
    requires summed { IsSummaryOf summary.old (all_bits words.old) }
    ensures taken { TakesIn at words.old words.new }
    ensures summed { IsSummaryOf summary.new (all_bits words.new) }
{
    let first = at / 64;
    if first >= words.len() {
        return;
    }
    let old = *summary;
    let mut below = words[first];
    let moved = insert_bit(below, (at % 64) as u32, false);
    words[first] = moved;
    let mut new = marked(kept(old, first), first, moved != 0);
    let mut k = next_up(old, below >> 63 == 1, first + 1, words.len());
    while k < words.len() {
        let word = words[k];
        let moved = shift_up(word, below);
        words[k] = moved;
        new = marked(new, k, moved != 0);
        below = word;
        k = next_up(old, below >> 63 == 1, k + 1, words.len());
    }
    *summary = new;
}

// Whether one of two words has a bit.
fn has_either(low: u64, high: u64) -> bool
    ensures low { low ≢ 0 → result ≡ true }
    ensures high { high ≢ 0 → result ≡ true }
{
    low != 0 || high != 0
}

// Puts a 0 in at a place in the first word of a pair, pair by pair: so a pair costs one search and one mark.
fn take_in_pairs(words: &mut [u64], summary: &mut u64, at: usize)
    requires few { length words.old < 2 ^ 58 }
    requires place { at < 64 * length words.old }
    requires pairs { length words.old % 2 ≡ 0 }
    requires first { at / 64 % 2 ≡ 0 }
    requires summed { IsSummaryOf summary.old (all_bits words.old) }
    ensures taken { TakesIn at words.old words.new }
    ensures summed { IsSummaryOf summary.new (all_bits words.new) }
{
    let first = at / 64;
    let old = *summary;
    let low = words[first];
    let mut below = words[first + 1];
    let moved = insert_bit(low, (at % 64) as u32, false);
    let above = shift_up(below, low);
    words[first] = moved;
    words[first + 1] = above;
    let mut new = marked(kept(old, first), first, has_either(moved, above));
    let mut k = next_up(old, below >> 63 == 1, first + 2, words.len());
    while k < words.len() {
        let low = words[k];
        let high = words[k + 1];
        let moved = shift_up(low, below);
        let above = shift_up(high, low);
        words[k] = moved;
        words[k + 1] = above;
        new = marked(new, k, has_either(moved, above));
        below = high;
        k = next_up(old, below >> 63 == 1, k + 2, words.len());
    }
    *summary = new;
}

// The next word, from one on, that a bit moves into or that may have one, or the first of its pair; the second word of a pair
// without a search.
fn next_down(words: &[u64], summary: u64, start: usize) -> usize
    requires few { length words.now < 2 ^ 58 }
    requires within { start ≤ length words.now }
    requires summed { HidesNoWord summary words.now start }
    ensures low { start ≤ result }
    ensures high { result ≤ length words.now }
    ensures blank { StayBlank words.now start result }
    ensures pairs { start % 2 ≡ 0 → length words.now % 2 ≡ 0 → result % 2 ≡ 0 }
{
    if start % 2 == 1 {
        return start;
    }
    let next = next_marked(summary, start, words.len());
    if start < next && word_at(words, next) % 2 == 1 {
        return (next - 1) / 2 * 2;
    }
    next
}

// Takes the bit at a place out: the later bits move down, and a 0 comes in last. Words that the summary lacks are passed
// over.
fn remove_in_marked(words: &mut [u64], summary: &mut u64, at: usize)
    requires few { length words.old < 2 ^ 58 }
    requires place { at < 64 * length words.old }
    requires summed { IsSummaryOf summary.old (all_bits words.old) }
    ensures given { GivesUp at words.old words.new }
    ensures summed { IsSummaryOf summary.new (all_bits words.new) }
{
    let first = at / 64;
    let old = *summary;
    let above = word_at(words, first + 1);
    let moved = remove_bit(words[first], (at % 64) as u32, above % 2 == 1);
    words[first] = moved;
    let mut new = marked(kept(old, first), first, moved != 0);
    let mut k = next_down(words, old, first + 1);
    while k < words.len() {
        let moved = shift_down(words[k], word_at(words, k + 1));
        words[k] = moved;
        new = marked(new, k, moved != 0);
        k = next_down(words, old, k + 1);
    }
    *summary = new;
}

// Takes the bit at a place in the first word of a pair out, pair by pair.
fn give_up_pairs(words: &mut [u64], summary: &mut u64, at: usize)
    requires few { length words.old < 2 ^ 58 }
    requires place { at < 64 * length words.old }
    requires pairs { length words.old % 2 ≡ 0 }
    requires first { at / 64 % 2 ≡ 0 }
    requires summed { IsSummaryOf summary.old (all_bits words.old) }
    ensures given { GivesUp at words.old words.new }
    ensures summed { IsSummaryOf summary.new (all_bits words.new) }
{
    let first = at / 64;
    let old = *summary;
    let high = words[first + 1];
    let moved = remove_bit(words[first], (at % 64) as u32, high % 2 == 1);
    let above = shift_down(high, word_at(words, first + 2));
    words[first] = moved;
    words[first + 1] = above;
    let mut new = marked(kept(old, first), first, has_either(moved, above));
    let mut k = next_down(words, old, first + 2);
    while k < words.len() {
        let high = words[k + 1];
        let moved = shift_down(words[k], high);
        let above = shift_down(high, word_at(words, k + 2));
        words[k] = moved;
        words[k + 1] = above;
        new = marked(new, k, has_either(moved, above));
        k = next_down(words, old, k + 2);
    }
    *summary = new;
}

// Whether a summary has so many pairs of words that to pass over the others isn't worth it: three quarters of them or more.
fn is_dense(summary: u64, words: usize) -> bool
    ensures { IsTrue result ↔ AreMostMarked summary words }
{
    summary.count_ones() as usize >= words.div_ceil(8) * 3
}

// Moves the bits from a place on in all words.
fn shift_dense(words: &mut [u64], at: usize, way: Way)
    requires { at < 64 * length words.old }
    ensures { Shifts way at words.old words.new }
{
    match way {
        Way::In => {
            let _last = shift_in(words, at, false);
        }
        Way::Out => shift_out(words, at),
    }
}

/// Moves the bits from a place on, from word to word. The summary fits the words before and after. Words without a bit stay
/// as they are.
pub(crate) fn shift(words: &mut [u64], summary: &mut u64, at: usize, way: Way)
    requires few { length words.old < 2 ^ 58 }
    requires place { at < 64 * length words.old }
    requires summed { IsSummaryOf summary.old (all_bits words.old) }
    ensures shifted { Shifts way at words.old words.new }
    ensures summed { IsSummaryOf summary.new (all_bits words.new) }
{
    if *summary == 0 {
        return;
    }
    if is_dense(*summary, words.len()) {
        *summary = kept(u64::MAX, words.len());
        shift_dense(words, at, way);
        return;
    }
    let in_pairs = words.len() % 2 == 0 && at / 64 % 2 == 0;
    match way {
        Way::In if in_pairs => take_in_pairs(words, summary, at),
        Way::In => insert_in_marked(words, summary, at),
        Way::Out if in_pairs => give_up_pairs(words, summary, at),
        Way::Out => remove_in_marked(words, summary, at),
    }
}
