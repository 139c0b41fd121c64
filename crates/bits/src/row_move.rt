//! Moves of the bits of a row: by one from a place on, or all by two words.

ghost use Rattle.std.specs.Prelude.{◌<◌, ◌≤◌, ◌^◌, length};
ghost use Rattle.bits.specs.steps.Packing.{all_bits};
ghost use Rattle.bits.specs.steps.Held.{Fits, Makes, TakesWordsIn, GivesWordsUp};
ghost use Rattle.bits.specs.steps.Summaries.{IsSummaryOf};

use crate::sparse::{Way, shift};

/// How the bits of a row move.
#[derive(Clone, Copy)]
pub(crate) enum Move {
    /// By one, from a place on.
    Bits(Way, usize),
    /// All by two words: two without a bit come in before them, and the last two fall out; or the first two go out, and two
    /// without a bit come in last.
    Words(Way),
}

// Puts two words without a bit in before the others: the last two fall out. A summary has one bit for two words.
fn take_words_in(words: &mut [u64], summary: &mut u64)
    requires two { 2 ≤ length words.old }
    requires summed { IsSummaryOf summary.old (all_bits words.old) }
    ensures taken { TakesWordsIn words.old words.new }
    ensures summed { IsSummaryOf summary.new (all_bits words.new) }
{
    let rest = words.len() - 2;
    words.copy_within(0..rest, 2);
    words[0] = 0;
    words[1] = 0;
    *summary = summary.rotate_left(1);
}

// Takes the first two words out: two without a bit come in last.
fn give_words_up(words: &mut [u64], summary: &mut u64)
    requires two { 2 ≤ length words.old }
    requires summed { IsSummaryOf summary.old (all_bits words.old) }
    ensures given { GivesWordsUp words.old words.new }
    ensures summed { IsSummaryOf summary.new (all_bits words.new) }
{
    let rest = words.len() - 2;
    words.copy_within(2..rest + 2, 0);
    words[rest] = 0;
    words[rest + 1] = 0;
    *summary = summary.rotate_right(1);
}

/// Makes a move in the words of a row. The summary fits the words before and after.
pub(crate) fn make(words: &mut [u64], summary: &mut u64, how: Move)
    requires fits { Fits how (length words.old) }
    requires few { length words.old < 2 ^ 58 }
    requires summed { IsSummaryOf summary.old (all_bits words.old) }
    ensures made { Makes how words.old words.new }
    ensures summed { IsSummaryOf summary.new (all_bits words.new) }
{
    match how {
        Move::Bits(way, at) => shift(words, summary, at, way),
        Move::Words(Way::In) => take_words_in(words, summary),
        Move::Words(Way::Out) => give_words_up(words, summary),
    }
}
