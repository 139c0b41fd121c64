//! Rows with a margin: blank places before their first bits, so that a bit goes in there, or out, while no other moves.

ghost use Rattle.std.specs.Prelude.{◌≡◌, ◌≢◌, ◌<◌, ◌≤◌, ◌+◌, ◌-◌, ◌^◌, ℕ, [], ◌∷◌, length, map, insert, remove, slice_set, slice_index_or, false, take, All, IfOk, OnOk, OnErr, IsOk, IsTrue, ◌↔◌, ◌%◌};
ghost use Rattle.bits.specs.MarginRows.{after_margin, closed_up};
ghost use Rattle.bits.specs.Rows.{two_words, IsRunWritten};
ghost use Rattle.bits.specs.steps.Packing.{all_bits, IsPacked};
ghost use Rattle.bits.specs.steps.StoredRows.{words_of};
ghost use Rattle.bits.specs.steps.Summaries.{IsSummaryOf};

use crate::row_words::RowWords;
use crate::rows::{Rows, TWO_WORDS};
use std::alloc::{AllocError, Global};
use std::marker::Model;

/// Rows of equally many bits, in an order, with a margin: a number of blank places, perhaps none, before the first
/// bit of each. A bit put in before all others takes one of them, and one taken out from there leaves one.
///
/// Rows and places count from 0, without the margin. A caller names only those that are there.
#[derive(Drop)]
pub struct MarginRows {
    rows: Rows,
    margin: usize,
}

impl Model for MarginRows {
    ghost use Rattle.std.specs.Prelude.{map, drop, ◌+◌};
    ghost use Rattle.bits.specs.MarginRows.{RowsInRoom, AreAfter};

    ghost Value = { RowsInRoom };

    ghost view = { λ r. record {
      rows = map (drop r.margin) r.rows.rows;
      room = record { places = r.rows.room + r.margin; before = r.margin };
    } };

    ghost invariant = { λ r. AreAfter r.margin (map (drop r.margin) r.rows.rows) r.rows.rows };
}

impl MarginRows {
    /// One row without a bit or a margin, and room for 256 bits.
    ///
    /// # Errors
    ///
    /// `AllocError` where memory was refused.
    pub fn with_one_row(alloc: Global) -> Result<MarginRows, AllocError>
        ensures { IfOk result (λ rows. (rows.rows ≡ [] ∷ []) × (rows.room.places ≡ 256) × (rows.room.before ≡ 0)) }
    {
        Ok(MarginRows {
            rows: Rows::with_one_row(alloc)?,
            margin: 0,
        })
    }

    /// How many rows there are.
    pub fn count(&self) -> usize
        ensures { result ≡ length self.now.rows }
    {
        self.rows.count()
    }

    /// How many blank places stand before the first bit of each row.
    pub fn margin(&self) -> usize
        ensures { result ≡ self.now.room.before }
    {
        self.margin
    }

    /// How many bits a row has: as many as any other.
    pub fn bits(&self, row: usize) -> usize
        requires { row < length self.now.rows }
        ensures { result ≡ length (slice_index_or self.now.rows row []) }
    {
        self.rows.bits(row) - self.margin
    }

    /// The words of a row and its margin; they are lent.
    pub fn row(&self, row: usize) -> RowWords<'_>
        requires { row < length self.now.rows }
        ensures packed { IsPacked (words_of result) (length (after_margin self.now.room.before (slice_index_or self.now.rows row []))) }
        ensures bits { take (length (after_margin self.now.room.before (slice_index_or self.now.rows row []))) (all_bits (words_of result))
            ≡ after_margin self.now.room.before (slice_index_or self.now.rows row []) }
    {
        self.rows.row(row)
    }

    /// The summary of a row and its margin: it has the bit of each word in which these have a bit.
    pub fn summary(&self, row: usize) -> u64
        requires { row < length self.now.rows }
        ensures { IsSummaryOf result (after_margin self.now.room.before (slice_index_or self.now.rows row [])) }
    {
        self.rows.summary(row)
    }

    /// The bit at a place of a row.
    pub fn get(&self, row: usize, at: usize) -> bool
        requires row { row < length self.now.rows }
        requires place { at < length (slice_index_or self.now.rows row []) }
        ensures { result ≡ slice_index_or (slice_index_or self.now.rows row []) at false }
    {
        let _bits = self.rows.bits(row);
        self.rows.get(row, self.margin + at)
    }

    /// Writes the bit at a place of a row.
    pub fn set(&mut self, row: usize, at: usize, bit: bool)
        requires row { row < length self.old.rows }
        requires place { at < length (slice_index_or self.old.rows row []) }
        ensures rows { self.new.rows ≡ slice_set self.old.rows row (slice_set (slice_index_or self.old.rows row []) at bit) }
        ensures room { self.new.room ≡ self.old.room }
    {
        let _bits = self.rows.bits(row);
        self.rows.set(row, self.margin + at, bit);
    }

    /// Writes a bit at a place of the rows from one up to another.
    pub fn set_run(&mut self, from: usize, to: usize, at: usize, bit: bool)
        requires order { from ≤ to }
        requires within { to ≤ length self.old.rows }
        requires place { All (λ row. at < length row) self.old.rows }
        ensures rows { IsRunWritten at bit from to self.old.rows self.new.rows }
        ensures room { self.new.room ≡ self.old.room }
    {
        if from == to {
            return;
        }
        let _bits = self.rows.bits(from);
        self.rows.set_run(from, to, self.margin + at, bit);
    }

    /// Whether two rows are equal.
    pub fn same(&self, one: usize, other: usize) -> bool
        requires one { one < length self.now.rows }
        requires other { other < length self.now.rows }
        ensures { IsTrue result ↔ (slice_index_or self.now.rows one [] ≡ slice_index_or self.now.rows other []) }
    {
        self.rows.same(one, other)
    }

    /// Whether two rows are equal beside the bits at a place.
    pub fn same_beside(&self, one: usize, other: usize, at: usize) -> bool
        requires one { one < length self.now.rows }
        requires other { other < length self.now.rows }
        requires place { at < length (slice_index_or self.now.rows one []) }
        ensures { IsTrue result ↔ (remove (slice_index_or self.now.rows one []) at ≡ remove (slice_index_or self.now.rows other []) at) }
    {
        let _bits = self.rows.bits(one);
        self.rows.same_beside(one, other, self.margin + at)
    }

    /// Where the rows begin, side by side up to one of them, that have its bit at a place.
    pub fn run_start(&self, row: usize, at: usize) -> usize
        requires row { row < length self.now.rows }
        requires place { All (λ row. at < length row) self.now.rows }
        ensures within { result ≤ row }
        ensures alike { (k : ℕ) → result ≤ k → k ≤ row
            → slice_index_or (slice_index_or self.now.rows k []) at false ≡ slice_index_or (slice_index_or self.now.rows row []) at false }
        ensures first { 0 < result → slice_index_or (slice_index_or self.now.rows (result - 1) []) at false
            ≢ slice_index_or (slice_index_or self.now.rows row []) at false }
    {
        let _bits = self.rows.bits(row);
        self.rows.run_start(row, self.margin + at)
    }

    /// Puts a copy of a row after it.
    ///
    /// # Errors
    ///
    /// `AllocError` where memory was refused, or there are 2 to the 32 rows: the rows are as before.
    pub fn duplicate(&mut self, row: usize) -> Result<(), AllocError>
        requires { row < length self.old.rows }
        ensures ok { OnOk result (self.new.rows ≡ insert self.old.rows (row + 1) (slice_index_or self.old.rows row [])) }
        ensures err { OnErr result (self.new.rows ≡ self.old.rows) }
        ensures few { OnOk result (length self.new.rows ≤ 2 ^ 32) }
        ensures room { self.new.room ≡ self.old.room }
    {
        self.rows.duplicate(row)
    }

    /// Puts two copies of a row after it, by one move of the rows after them.
    ///
    /// # Errors
    ///
    /// `AllocError` where memory was refused, or there would be more than 2 to the 32 rows: the rows are as before.
    pub fn duplicate_twice(&mut self, row: usize) -> Result<(), AllocError>
        requires { row < length self.old.rows }
        ensures ok { OnOk result (self.new.rows
            ≡ insert (insert self.old.rows (row + 1) (slice_index_or self.old.rows row [])) (row + 1) (slice_index_or self.old.rows row [])) }
        ensures err { OnErr result (self.new.rows ≡ self.old.rows) }
        ensures few { OnOk result (length self.new.rows ≤ 2 ^ 32) }
        ensures room { self.new.room ≡ self.old.room }
    {
        self.rows.duplicate_twice(row)
    }

    /// Takes a row out.
    pub fn remove(&mut self, row: usize)
        requires { row < length self.old.rows }
        ensures rows { self.new.rows ≡ remove self.old.rows row }
        ensures room { self.new.room ≡ self.old.room }
    {
        self.rows.remove(row);
    }

    /// Puts a 0 into each row at a place. Before all other bits it takes a blank place, where there is one, and moves
    /// no bit. Elsewhere the later bits move up by one, and there must be room after the last. There must be a row,
    /// and room for a bit (`reserve`).
    pub fn insert_column(&mut self, at: usize)
        requires some { 0 < length self.old.rows }
        requires place { All (λ row. at ≤ length row) self.old.rows }
        requires room { 0 < self.old.room.places }
        requires after { 0 < at → self.old.room.before < self.old.room.places }
        ensures rows { self.new.rows ≡ map (λ row. insert row at false) self.old.rows }
        ensures room { self.new.room.places + 1 ≡ self.old.room.places }
        ensures first { at ≡ 0 → self.new.room.before ≡ self.old.room.before - 1 }
        ensures later { 0 < at → self.new.room.before ≡ self.old.room.before }
    {
        if at == 0 && self.margin > 0 {
            self.margin -= 1;
            return;
        }
        let _bits = self.rows.bits(0);
        self.rows.insert_column(self.margin + at);
    }

    /// Takes a bit out of each row at a place. The first leaves a blank place, and no bit moves. After any other the
    /// later ones move down by one. There must be a row.
    pub fn remove_column(&mut self, at: usize)
        requires some { 0 < length self.old.rows }
        requires place { All (λ row. at < length row) self.old.rows }
        ensures rows { self.new.rows ≡ map (λ row. remove row at) self.old.rows }
        ensures room { self.new.room.places ≡ self.old.room.places + 1 }
        ensures first { at ≡ 0 → self.new.room.before ≡ self.old.room.before + 1 }
        ensures later { 0 < at → self.new.room.before ≡ self.old.room.before }
    {
        let _bits = self.rows.bits(0);
        if at == 0 {
            self.rows.set_run(0, self.rows.count(), self.margin, false);
            self.margin += 1;
            return;
        }
        self.rows.remove_column(self.margin + at);
    }

    /// Makes two words of blank places before each row, from the room after its last bit: words move, and no bit
    /// within them. There must be a row, and that much room.
    pub fn open_margin(&mut self)
        requires some { 0 < length self.old.rows }
        requires room { self.old.room.before + two_words ≤ self.old.room.places }
        ensures rows { self.new.rows ≡ self.old.rows }
        ensures places { self.new.room.places ≡ self.old.room.places }
        ensures before { self.new.room.before ≡ self.old.room.before + two_words }
    {
        self.rows.insert_words();
        let _bits = self.rows.bits(0);
        self.margin += TWO_WORDS;
    }

    /// Turns blank places before each row into room after its last bit, where there are any: two words of them, by
    /// moving whole words, or, where there are fewer, one of them, by moving all bits. There must be a row.
    pub fn close_margin(&mut self)
        requires { 0 < length self.old.rows }
        ensures rows { self.new.rows ≡ self.old.rows }
        ensures places { self.new.room.places ≡ self.old.room.places }
        ensures before { self.new.room.before ≡ closed_up self.old.room.before }
        ensures after { 0 < self.old.room.places → self.new.room.before < self.new.room.places }
    {
        if self.margin == 0 {
            return;
        }
        if self.margin < TWO_WORDS {
            self.rows.remove_column(0);
            self.margin -= 1;
            return;
        }
        self.rows.remove_words();
        self.margin -= TWO_WORDS;
    }

    /// How many bits more go in after the last of each row before memory is needed.
    pub fn room_after(&self) -> usize
        ensures { result ≡ self.now.room.places - self.now.room.before }
    {
        self.rows.room()
    }

    /// Takes the memory that one more bit in each row needs at a place. It takes none where there is room after the
    /// last bit, where there are two words of blank places, or where the bit is to be the first and there is a blank
    /// place. Where there are fewer blank places and the bit isn't to be the first, it takes more memory if it gets
    /// it, so that no bit has to move.
    ///
    /// # Errors
    ///
    /// `AllocError` where memory was refused, never where there is room after the last bit or before the first: the
    /// rows are as before.
    pub fn reserve(&mut self, at: usize) -> Result<(), AllocError>
        ensures rows { self.new.rows ≡ self.old.rows }
        ensures more { self.old.room.places ≤ self.new.room.places }
        ensures before { self.new.room.before ≡ self.old.room.before }
        ensures whole { self.new.room.places % 64 ≡ self.old.room.places % 64 }
        ensures ok { OnOk result (0 < self.new.room.places) }
        ensures there { 0 < self.old.room.places → IsOk result }
        ensures kept { self.old.room.before < self.old.room.places → self.new.room ≡ self.old.room }
        ensures blank { two_words ≤ self.old.room.before → self.new.room ≡ self.old.room }
        ensures first { at ≡ 0 → 0 < self.old.room.before → self.new.room ≡ self.old.room }
    {
        if self.margin == 0 {
            return self.rows.reserve();
        }
        if at > 0 && self.margin < TWO_WORDS {
            let _ = self.rows.reserve();
        }
        Ok(())
    }

    /// Leaves the first two rows alone, without a bit or a margin. There must be two.
    pub fn clear(&mut self)
        requires { 1 < length self.old.rows }
        ensures rows { self.new.rows ≡ [] ∷ [] ∷ [] }
        ensures places { self.new.room.places ≡ self.old.room.places + length (slice_index_or self.old.rows 0 []) }
        ensures before { self.new.room.before ≡ 0 }
    {
        self.rows.clear();
        self.margin = 0;
    }

    /// Equal rows, with an equal margin.
    ///
    /// # Errors
    ///
    /// `AllocError` where memory was refused.
    pub fn copy(&self, alloc: Global) -> Result<MarginRows, AllocError>
        ensures { IfOk result (λ rows. rows ≡ self.now) }
    {
        Ok(MarginRows {
            rows: self.rows.copy(alloc)?,
            margin: self.margin,
        })
    }
}
