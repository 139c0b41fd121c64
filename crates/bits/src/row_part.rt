//! A part of a row: four of its words, where all others are blank.

ghost use Rattle.std.specs.Prelude.{◌≡◌, ℕ, ◌<◌, ◌≤◌, ◌+◌, ◌*◌, ◌^◌, ◌↔◌, IsTrue, true, false, length, replicate, slice_index};
ghost use Rattle.bits.specs.steps.Held.{Writes, TakesIn, GivesUp, Fits, Makes, TakesWordsIn, GivesWordsUp};
ghost use Rattle.bits.specs.steps.Packing.{all_bits};
ghost use Rattle.bits.specs.steps.StoredRows.{part_row, IsWithin, HasWord};
ghost use Rattle.bits.specs.steps.Summaries.{IsSummaryOf};

use crate::row_move::Move;
use crate::sparse::Way;
use crate::summary::marked;
use crate::words::{set_bit, shift_in, shift_out};

/// Four words of a row, from `start` on. All before and after them are blank.
#[derive(Clone, Copy)]
pub(crate) struct RowPart {
    pub start: usize,
    pub words: [u64; 4],
}

impl RowPart {
    // The first four words of a blank row.
    pub(crate) fn blank() -> RowPart
        ensures start { result.start ≡ 0 }
        ensures words { result.words ≡ replicate 4 0 }
    {
        RowPart {
            start: 0,
            words: [0; 4],
        }
    }

    // Whether the word at a place is in the part.
    #[inline(always)]
    pub(crate) fn has(&self, place: usize) -> bool
        ensures { IsTrue result ↔ HasWord place self.now }
    {
        self.start <= place && place - self.start < 4
    }

    // Whether no word has a bit.
    pub(crate) fn is_blank(&self) -> bool
        ensures { IsTrue result ↔ (self.now.words ≡ replicate 4 0) }
    {
        self.words[0] == 0 && self.words[1] == 0 && self.words[2] == 0 && self.words[3] == 0
    }

    // The word at a place of the row.
    #[inline(always)]
    pub(crate) fn word(&self, place: usize) -> u64
        ensures { (width : ℕ) → result ≡ slice_index (part_row width self.now) place }
    {
        if self.has(place) {
            return self.words[place - self.start];
        }
        0
    }

    // Writes the bit at a place of the row, in a word of the part.
    #[inline(always)]
    pub(crate) fn write(&mut self, at: usize, bit: bool)
        requires from { 64 * self.old.start ≤ at }
        requires to { at < 64 * (self.old.start + 4) }
        ensures written { (width : ℕ) → Writes at bit (part_row width self.old) (part_row width self.new) }
        ensures start { self.new.start ≡ self.old.start }
        ensures four { length self.new.words ≡ 4 }
    {
        let k = at / 64 - self.start;
        self.words[k] = set_bit(self.words[k], (at % 64) as u32, bit);
    }

    // Moves up by two words, where two more follow and it has each of its bits still.
    fn slide_up(&mut self, width: usize)
        requires within { self.old.start + 4 ≤ width }
        ensures same { part_row width self.new ≡ part_row width self.old }
        ensures within { self.new.start + 4 ≤ width }
        ensures four { length self.new.words ≡ 4 }
    {
        if self.words[0] == 0 && self.words[1] == 0 && width - self.start >= 6 {
            self.start += 2;
            self.words = [self.words[2], self.words[3], 0, 0];
        }
    }

    // Moves down by two words, where there are two more and it has each of its bits still.
    fn slide_down(&mut self, width: usize)
        requires within { self.old.start + 4 ≤ width }
        ensures same { part_row width self.new ≡ part_row width self.old }
        ensures within { self.new.start + 4 ≤ width }
        ensures four { length self.new.words ≡ 4 }
    {
        if self.words[2] == 0 && self.words[3] == 0 && self.start >= 2 {
            self.start -= 2;
            self.words = [0, 0, self.words[0], self.words[1]];
        }
    }

    // Moves towards the word at a place, as far as it has each of its bits still: it returns whether it has that word now.
    pub(crate) fn cover(&mut self, width: usize, place: usize) -> bool
        requires within { self.old.start + 4 ≤ width }
        requires place { place < width }
        ensures covered { IsTrue result ↔ HasWord place self.new }
        ensures same { part_row width self.new ≡ part_row width self.old }
        ensures within { self.new.start + 4 ≤ width }
        ensures four { length self.new.words ≡ 4 }
    {
        if self.is_blank() {
            self.start = (place / 4 * 4).min(width - 4);
            return true;
        }
        if place < self.start {
            self.slide_down(width);
            return self.has(place);
        }
        self.slide_up(width);
        self.has(place)
    }

    // A summary of the row.
    fn summary(&self) -> u64
        requires { self.now.start < 2 ^ 58 }
        ensures { (width : ℕ) → IsSummaryOf result (all_bits (part_row width self.now)) }
    {
        let mut summary = 0;
        for k in 0..4 {
            summary = marked(summary, self.start + k, self.words[k] != 0);
        }
        summary
    }

    // Puts a 0 in at a place of the row, and the later bits move up: not where one of them would leave the part.
    fn take_in(&mut self, width: usize, at: usize) -> bool
        requires within { self.old.start + 4 ≤ width }
        requires few { width < 2 ^ 58 }
        requires place { at < 64 * width }
        ensures taken { result ≡ true → TakesIn at (part_row width self.old) (part_row width self.new) }
        ensures within { self.new.start + 4 ≤ width }
        ensures four { length self.new.words ≡ 4 }
        ensures kept { result ≡ false → part_row width self.new ≡ part_row width self.old }
    {
        self.slide_up(width);
        let from = at.saturating_sub(64 * self.start).min(256);
        let mut moved = self.words;
        let top = shift_in(&mut moved, from, false);
        if top && self.start + 4 < width {
            return false;
        }
        self.words = moved;
        true
    }

    // Takes the bit at a place of the row out, and the later bits move down: not where one of them would leave the part.
    fn give_up(&mut self, width: usize, at: usize) -> bool
        requires within { self.old.start + 4 ≤ width }
        requires few { width < 2 ^ 58 }
        requires place { at < 64 * width }
        ensures given { result ≡ true → GivesUp at (part_row width self.old) (part_row width self.new) }
        ensures within { self.new.start + 4 ≤ width }
        ensures four { length self.new.words ≡ 4 }
        ensures kept { result ≡ false → part_row width self.new ≡ part_row width self.old }
    {
        self.slide_down(width);
        let first = 64 * self.start;
        if at >= first + 256 {
            return true;
        }
        if at < first && self.words[0] % 2 == 1 {
            return false;
        }
        shift_out(&mut self.words, at.saturating_sub(first));
        true
    }

    // Puts two blank words in before the others of the row, and the last two fall out: not where a word would be in the part and
    // beyond the row.
    fn take_words_in(&mut self, width: usize) -> bool
        requires within { self.old.start + 4 ≤ width }
        ensures taken { result ≡ true → TakesWordsIn (part_row width self.old) (part_row width self.new) }
        ensures within { self.new.start + 4 ≤ width }
        ensures four { length self.new.words ≡ 4 }
        ensures kept { result ≡ false → part_row width self.new ≡ part_row width self.old }
    {
        if width - self.start >= 6 {
            self.start += 2;
            return true;
        }
        if width - self.start > 4 {
            return false;
        }
        self.words = [0, 0, self.words[0], self.words[1]];
        true
    }

    // Takes the first two words of the row out, and two blank ones come in last: not where the part begins with the second.
    fn give_words_up(&mut self, width: usize) -> bool
        requires within { self.old.start + 4 ≤ width }
        ensures given { result ≡ true → GivesWordsUp (part_row width self.old) (part_row width self.new) }
        ensures within { self.new.start + 4 ≤ width }
        ensures four { length self.new.words ≡ 4 }
        ensures kept { result ≡ false → part_row width self.new ≡ part_row width self.old }
    {
        if self.start >= 2 {
            self.start -= 2;
            return true;
        }
        if self.start == 1 {
            return false;
        }
        self.words = [self.words[2], self.words[3], 0, 0];
        true
    }

    // Makes a move of the bits of a row of such a width, where none of them leaves the part: it returns whether it was made.
    pub(crate) fn make(&mut self, width: usize, summary: &mut u64, how: Move) -> bool
        requires within { self.old.start + 4 ≤ width }
        requires few { width < 2 ^ 58 }
        requires fits { Fits how width }
        ensures made { result ≡ true → Makes how (part_row width self.old) (part_row width self.new) }
        ensures summed { result ≡ true → IsSummaryOf summary.new (all_bits (part_row width self.new)) }
        ensures within { self.new.start + 4 ≤ width }
        ensures four { length self.new.words ≡ 4 }
        ensures kept { result ≡ false → part_row width self.new ≡ part_row width self.old }
        ensures same { result ≡ false → summary.new ≡ summary.old }
    {
        let made = match how {
            Move::Bits(Way::In, at) => self.take_in(width, at),
            Move::Bits(Way::Out, at) => self.give_up(width, at),
            Move::Words(Way::In) => self.take_words_in(width),
            Move::Words(Way::Out) => self.give_words_up(width),
        };
        if made {
            *summary = self.summary();
        }
        made
    }
}
