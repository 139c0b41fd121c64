//! The words of a row as they are lent: those that may have a bit, and where they stand.

ghost use Rattle.std.specs.Prelude.{◌≡◌, ◌<◌, ◌≤◌, ◌+◌, ◌*◌, false, length, take, drop, slice_index, slice_index_or};
ghost use Rattle.bits.specs.steps.Packing.{all_bits};
ghost use Rattle.bits.specs.steps.StoredRows.{words_of};

use crate::words::word_at;
use std::simd::prelude::*;

/// So many words of a row, `count`; they are lent. Those from `start` on are `kept`, and all before and after these are
/// blank.
#[derive(Clone, Copy)]
pub struct RowWords<'a> {
    pub start: usize,
    pub count: usize,
    pub kept: &'a [u64],
}

impl<'a> RowWords<'a> {
    /// How many words there are.
    pub fn len(&self) -> usize
        ensures { result ≡ length (words_of self.now) }
    {
        self.count
    }

    /// The word at a place.
    #[inline(always)]
    pub fn word(&self, place: usize) -> u64
        requires { place < length (words_of self.now) }
        ensures { result ≡ slice_index (words_of self.now) place }
    {
        if place < self.start {
            return 0;
        }
        word_at(self.kept, place - self.start)
    }

    /// The bit at a place.
    #[inline(always)]
    pub fn bit(&self, at: usize) -> bool
        requires { at < 64 * length (words_of self.now) }
        ensures { result ≡ slice_index_or (all_bits (words_of self.now)) at false }
    {
        (self.word(at / 64) >> (at % 64)) % 2 == 1
    }

    /// Four words from a place on.
    #[inline(always)]
    pub fn four(&self, place: usize) -> u64x4
        requires { place + 4 ≤ length (words_of self.now) }
        ensures { result ≡ take 4 (drop place (words_of self.now)) }
    {
        if self.start <= place {
            let at = place - self.start;
            if at + 4 <= self.kept.len() {
                return u64x4::from_slice(&self.kept[at..]);
            }
            if at >= self.kept.len() {
                return u64x4::splat(0);
            }
        } else if place + 4 <= self.start {
            return u64x4::splat(0);
        }
        u64x4::from_array([
            self.word(place),
            self.word(place + 1),
            self.word(place + 2),
            self.word(place + 3),
        ])
    }
}
