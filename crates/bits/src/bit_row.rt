//! A row of bits, packed 64 to a word.

ghost use Rattle.std.specs.Prelude.{◌≡◌, ◌≢◌, ◌++◌, ◌∷◌, [], ◌<◌, ◌≤◌, ◌+◌, ◌*◌, ◌%◌, length, false, insert, remove};
ghost use Rattle.std.specs.Prelude.{take, slice_set, slice_index_or, OnOk, OnErr, IsOk, IfOk, IsTrue, ◌↔◌};
ghost use Rattle.std.specs.Vec.{vec_capacity};
ghost use Rattle.bits.specs.BitRow.{row_room};
ghost use Rattle.bits.specs.steps.Packing.{all_bits, IsPacked, IsOpen, room_of};

use crate::words::{bit_at, shift_in, shift_out};
use std::alloc::{AllocError, Global};
use std::marker::Model;

// The most words of a row, so that its length is a `usize`.
pub(crate) const MOST_WORDS: usize = (1 << 58) - 1;

/// The most bits of a row.
pub const MOST_BITS: usize = 64 * MOST_WORDS;

// Adds a word of zeros where the words are full.
fn open_word(words: &mut Vec<u64>, len: usize)
    requires packed { IsPacked words.old.items len }
    requires room { 0 < room_of (vec_capacity words.old) len }
    ensures open { IsOpen words.old.items words.new.items len }
    ensures more { vec_capacity words.old ≤ vec_capacity words.new }
{
    if len % 64 == 0 {
        let _ = words.push(0);
    }
}

/// A row of bits, 64 to a word: the bit at p is bit p mod 64 of word p div 64, the lowest first.
///
/// The bits of the last word past the length are 0, and there is no word more than the bits need.
#[derive(Drop)]
pub struct BitRow {
    words: Vec<u64>,
    len: usize,
}

impl Model for BitRow {
    ghost use Rattle.std.specs.Prelude.{take};
    ghost use Rattle.std.specs.Vec.{vec_capacity};
    ghost use Rattle.bits.specs.BitRow.{BitsAndRoom};
    ghost use Rattle.bits.specs.steps.Packing.{IsPacked, all_bits, room_of};

    ghost Value = { BitsAndRoom };

    ghost view = { λ r. record {
      bits = take r.len (all_bits r.words.items);
      room = room_of (vec_capacity r.words) r.len;
    } };

    ghost invariant = { λ r. IsPacked r.words.items r.len };
}

impl BitRow {
    /// A row without a bit.
    pub fn new(alloc: Global) -> Self
        ensures { result.bits ≡ [] }
    {
        BitRow {
            words: Vec::new(alloc),
            len: 0,
        }
    }

    /// How many bits there are.
    pub fn len(&self) -> usize
        ensures { result ≡ length self.now.bits }
    {
        self.len
    }

    /// The bit at a place below `len`.
    pub fn get(&self, at: usize) -> bool
        requires { at < length self.now.bits }
        ensures { result ≡ slice_index_or self.now.bits at false }
    {
        let _len = self.len;
        bit_at(&self.words, at)
    }

    // Takes the memory that one more bit needs.
    pub(crate) fn reserve(&mut self) -> Result<(), AllocError>
        ensures same { self.new.bits ≡ self.old.bits }
        ensures more { self.old.room ≤ self.new.room }
        ensures ok { OnOk result (0 < row_room self.new) }
        ensures there { 0 < row_room self.old → IsOk result }
    {
        if self.len % 64 == 0 {
            if self.words.len() >= MOST_WORDS {
                return Err(AllocError);
            }
            self.words.reserve(1)?;
        }
        Ok(())
    }

    // Puts a bit in at a place, where there is room: the later ones move up by one.
    pub(crate) fn put(&mut self, at: usize, bit: bool)
        requires place { at ≤ length self.old.bits }
        requires room { 0 < row_room self.old }
        ensures bits { self.new.bits ≡ insert self.old.bits at bit }
        ensures room { self.old.room ≤ self.new.room + 1 }
    {
        if at == self.len && !bit && self.len % 64 != 0 {
            // The bit after the last is 0 already.
            self.len += 1;
            return;
        }
        open_word(&mut self.words, self.len);
        let _last = shift_in(&mut self.words, at, bit);
        self.len += 1;
    }

    /// Puts a bit in at a place, at most `len`: the later ones move up by one.
    ///
    /// # Errors
    ///
    /// `AllocError` where memory was refused, never where there is room: the bits are as before, and no room is lost.
    /// There is room where the number of bits is no multiple of 64, and after `remove`.
    pub fn insert(&mut self, at: usize, bit: bool) -> Result<(), AllocError>
        requires { at ≤ length self.old.bits }
        ensures ok { OnOk result (self.new.bits ≡ insert self.old.bits at bit) }
        ensures err { OnErr result (self.new.bits ≡ self.old.bits) }
        ensures room { 0 < self.old.room → IsOk result }
        ensures part { length self.old.bits % 64 ≢ 0 → IsOk result }
        ensures kept { OnOk result (self.old.room ≤ self.new.room + 1) }
        ensures held { OnErr result (self.old.room ≤ self.new.room) }
    {
        self.reserve()?;
        self.put(at, bit);
        Ok(())
    }

    /// Takes the bit at a place below `len` out: the later ones move down by one. It leaves room for another bit.
    pub fn remove(&mut self, at: usize)
        requires { at < length self.old.bits }
        ensures bits { self.new.bits ≡ remove self.old.bits at }
        ensures room { row_room self.old < self.new.room }
    {
        shift_out(&mut self.words, at);
        self.len -= 1;
        if self.len % 64 == 0 {
            let _ = self.words.pop();
        }
    }
}
