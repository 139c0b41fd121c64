//! Rows, and one more that turns them: a bit that is to stand in each of them is written once, there.

ghost use Rattle.std.specs.Prelude.{◌≡◌, ◌≢◌, ◌<◌, ◌≤◌, ◌+◌, ◌-◌, ◌^◌, ◌%◌, ℕ, [], ◌∷◌, length, map, insert, remove, slice_set, slice_index_or, false, true, not, take, All, IfOk, OnOk, OnErr, IsOk, IsTrue, ◌↔◌};
ghost use Rattle.bits.specs.MarginRows.{after_margin, closed_up};
ghost use Rattle.bits.specs.Rows.{two_words, IsRunWritten};
ghost use Rattle.bits.specs.TurnedRows.{turned};
ghost use Rattle.bits.specs.steps.Packing.{all_bits, IsPacked};
ghost use Rattle.bits.specs.steps.StoredRows.{words_of};
ghost use Rattle.bits.specs.steps.Summaries.{IsSummaryOf};

use crate::margin_rows::MarginRows;
use crate::row_words::RowWords;
use std::alloc::{AllocError, Global};
use std::marker::Model;

/// A row as it is lent: its own words, the words of the row that turns it, and a summary of the bits that it has then.
#[derive(Clone, Copy)]
pub struct TurnedWords<'a> {
    pub own: RowWords<'a>,
    pub turn: RowWords<'a>,
    pub summary: u64,
}

/// Rows of equally many bits, in an order, after a margin, as `MarginRows` has them. Beside the own bits of each, one more row
/// is kept: where it has a bit, the bit of each row is its own bit turned. So a bit is written in all rows at once.
///
/// Rows and places count from 0, without that row and the margin. A caller names only those that are there.
#[derive(Drop)]
pub struct TurnedRows {
    rows: MarginRows,
}

impl Model for TurnedRows {
    ghost use Rattle.bits.specs.MarginRows.{RowsInRoom};
    ghost use Rattle.bits.specs.TurnedRows.{turned_rows, AreAsLong};

    ghost Value = { RowsInRoom };

    ghost view = { λ r. record { rows = turned_rows r.rows.rows; room = r.rows.room } };

    ghost invariant = { λ r. AreAsLong r.rows.rows };
}

impl TurnedRows {
    /// One row without a bit or a margin, and room for 256 bits.
    ///
    /// # Errors
    ///
    /// `AllocError` where memory was refused.
    pub fn with_one_row(alloc: Global) -> Result<TurnedRows, AllocError>
        ensures { IfOk result (λ rows. (rows.rows ≡ [] ∷ []) × (rows.room.places ≡ 256) × (rows.room.before ≡ 0)) }
    {
        let mut rows = MarginRows::with_one_row(alloc)?;
        rows.duplicate(0)?;
        Ok(TurnedRows { rows })
    }

    // Where a row's own bits are kept.
    fn own(&self, row: usize) -> usize
        requires { row < length self.now.rows }
        ensures { result ≡ row + 1 }
    {
        let _rows = self.rows.count();
        row + 1
    }

    /// How many rows there are.
    pub fn count(&self) -> usize
        ensures { result ≡ length self.now.rows }
    {
        self.rows.count() - 1
    }

    /// How many blank places stand before the first bit of each row.
    pub fn margin(&self) -> usize
        ensures { result ≡ self.now.room.before }
    {
        self.rows.margin()
    }

    /// How many bits a row has: as many as any other.
    pub fn bits(&self, row: usize) -> usize
        requires { row < length self.now.rows }
        ensures { result ≡ length (slice_index_or self.now.rows row []) }
    {
        self.rows.bits(self.own(row))
    }

    /// The words of a row and its margin, and those that turn them; they are lent.
    pub fn row(&self, row: usize) -> TurnedWords<'_>
        requires { row < length self.now.rows }
        ensures own { IsPacked (words_of result.own) (length (after_margin self.now.room.before (slice_index_or self.now.rows row []))) }
        ensures turn { IsPacked (words_of result.turn) (length (after_margin self.now.room.before (slice_index_or self.now.rows row []))) }
        ensures bits { take (length (after_margin self.now.room.before (slice_index_or self.now.rows row []))) (turned (all_bits (words_of result.turn)) (all_bits (words_of result.own)))
            ≡ after_margin self.now.room.before (slice_index_or self.now.rows row []) }
        ensures summed { IsSummaryOf result.summary (after_margin self.now.room.before (slice_index_or self.now.rows row [])) }
    {
        let own = self.own(row);
        TurnedWords {
            own: self.rows.row(own),
            turn: self.rows.row(0),
            summary: self.rows.summary(own) | self.rows.summary(0),
        }
    }

    /// The bit at a place of a row.
    pub fn get(&self, row: usize, at: usize) -> bool
        requires row { row < length self.now.rows }
        requires place { at < length (slice_index_or self.now.rows row []) }
        ensures { result ≡ slice_index_or (slice_index_or self.now.rows row []) at false }
    {
        self.rows.get(0, at) != self.rows.get(self.own(row), at)
    }

    /// Writes the bit at a place of a row.
    pub fn set(&mut self, row: usize, at: usize, bit: bool)
        requires row { row < length self.old.rows }
        requires place { at < length (slice_index_or self.old.rows row []) }
        ensures rows { self.new.rows ≡ slice_set self.old.rows row (slice_set (slice_index_or self.old.rows row []) at bit) }
        ensures room { self.new.room ≡ self.old.room }
    {
        let own = self.own(row);
        let turn = self.rows.get(0, at);
        self.rows.set(own, at, turn != bit);
    }

    /// Writes the bit at a place of the rows from one up to another.
    pub fn set_run(&mut self, from: usize, to: usize, at: usize, bit: bool)
        requires order { from ≤ to }
        requires within { to ≤ length self.old.rows }
        requires place { All (λ row. at < length row) self.old.rows }
        ensures rows { IsRunWritten at bit from to self.old.rows self.new.rows }
        ensures room { self.new.room ≡ self.old.room }
    {
        if from == to {
            return;
        }
        let _rows = self.rows.count();
        let turn = self.rows.get(0, at);
        self.rows.set_run(from + 1, to + 1, at, turn != bit);
    }

    /// Turns the bit at a place of each row, by one write. There must be a row.
    pub fn turn_all(&mut self, at: usize)
        requires some { 0 < length self.old.rows }
        requires place { All (λ row. at < length row) self.old.rows }
        ensures rows { self.new.rows ≡ map (λ row. slice_set row at (not (slice_index_or row at false))) self.old.rows }
        ensures room { self.new.room ≡ self.old.room }
    {
        let turn = self.rows.get(0, at);
        self.rows.set(0, at, !turn);
    }

    /// Whether two rows are equal.
    pub fn same(&self, one: usize, other: usize) -> bool
        requires one { one < length self.now.rows }
        requires other { other < length self.now.rows }
        ensures { IsTrue result ↔ (slice_index_or self.now.rows one [] ≡ slice_index_or self.now.rows other []) }
    {
        self.rows.same(self.own(one), self.own(other))
    }

    /// Whether two rows are equal beside the bits at a place.
    pub fn same_beside(&self, one: usize, other: usize, at: usize) -> bool
        requires one { one < length self.now.rows }
        requires other { other < length self.now.rows }
        requires place { at < length (slice_index_or self.now.rows one []) }
        ensures { IsTrue result ↔ (remove (slice_index_or self.now.rows one []) at ≡ remove (slice_index_or self.now.rows other []) at) }
    {
        self.rows.same_beside(self.own(one), self.own(other), at)
    }

    /// Where the rows begin, side by side up to one of them, that have its bit at a place.
    pub fn run_start(&self, row: usize, at: usize) -> usize
        requires row { row < length self.now.rows }
        requires place { All (λ row. at < length row) self.now.rows }
        ensures within { result ≤ row }
        ensures alike { (k : ℕ) → result ≤ k → k ≤ row
            → slice_index_or (slice_index_or self.now.rows k []) at false ≡ slice_index_or (slice_index_or self.now.rows row []) at false }
        ensures first { 0 < result → slice_index_or (slice_index_or self.now.rows (result - 1) []) at false
            ≢ slice_index_or (slice_index_or self.now.rows row []) at false }
    {
        // It may be the row that turns the others, which is none of them.
        let start = self.rows.run_start(self.own(row), at);
        start.saturating_sub(1)
    }

    /// Puts a copy of a row after it.
    ///
    /// # Errors
    ///
    /// `AllocError` where memory was refused, or there would be 2 to the 32 rows: the rows are as before.
    pub fn duplicate(&mut self, row: usize) -> Result<(), AllocError>
        requires { row < length self.old.rows }
        ensures ok { OnOk result (self.new.rows ≡ insert self.old.rows (row + 1) (slice_index_or self.old.rows row [])) }
        ensures err { OnErr result (self.new.rows ≡ self.old.rows) }
        ensures few { OnOk result (length self.new.rows ≤ 2 ^ 32) }
        ensures room { self.new.room ≡ self.old.room }
    {
        let own = self.own(row);
        self.rows.duplicate(own)
    }

    /// Puts two copies of a row after it, by one move of the rows after them.
    ///
    /// # Errors
    ///
    /// `AllocError` where memory was refused, or there would be 2 to the 32 rows or more: the rows are as before.
    pub fn duplicate_twice(&mut self, row: usize) -> Result<(), AllocError>
        requires { row < length self.old.rows }
        ensures ok { OnOk result (self.new.rows
            ≡ insert (insert self.old.rows (row + 1) (slice_index_or self.old.rows row [])) (row + 1) (slice_index_or self.old.rows row [])) }
        ensures err { OnErr result (self.new.rows ≡ self.old.rows) }
        ensures few { OnOk result (length self.new.rows ≤ 2 ^ 32) }
        ensures room { self.new.room ≡ self.old.room }
    {
        let own = self.own(row);
        self.rows.duplicate_twice(own)
    }

    /// Takes a row out.
    pub fn remove(&mut self, row: usize)
        requires { row < length self.old.rows }
        ensures rows { self.new.rows ≡ remove self.old.rows row }
        ensures room { self.new.room ≡ self.old.room }
    {
        let own = self.own(row);
        self.rows.remove(own);
    }

    /// Puts a 0 into each row at a place, as `MarginRows` does. There must be a row, and room for a bit (`reserve`), which is
    /// after the last one unless the new one is the first.
    pub fn insert_column(&mut self, at: usize)
        requires some { 0 < length self.old.rows }
        requires place { All (λ row. at ≤ length row) self.old.rows }
        requires room { 0 < self.old.room.places }
        requires after { 0 < at → self.old.room.before < self.old.room.places }
        ensures rows { self.new.rows ≡ map (λ row. insert row at false) self.old.rows }
        ensures room { self.new.room.places + 1 ≡ self.old.room.places }
        ensures first { at ≡ 0 → self.new.room.before ≡ self.old.room.before - 1 }
        ensures later { 0 < at → self.new.room.before ≡ self.old.room.before }
    {
        self.rows.insert_column(at);
    }

    /// Takes a bit out of each row at a place, as `MarginRows` does. There must be a row.
    pub fn remove_column(&mut self, at: usize)
        requires some { 0 < length self.old.rows }
        requires place { All (λ row. at < length row) self.old.rows }
        ensures rows { self.new.rows ≡ map (λ row. remove row at) self.old.rows }
        ensures room { self.new.room.places ≡ self.old.room.places + 1 }
        ensures first { at ≡ 0 → self.new.room.before ≡ self.old.room.before + 1 }
        ensures later { 0 < at → self.new.room.before ≡ self.old.room.before }
    {
        self.rows.remove_column(at);
    }

    /// Makes two words of blank places before each row, from the room after its last bit. There must be a row, and that
    /// much room.
    pub fn open_margin(&mut self)
        requires some { 0 < length self.old.rows }
        requires room { self.old.room.before + two_words ≤ self.old.room.places }
        ensures rows { self.new.rows ≡ self.old.rows }
        ensures places { self.new.room.places ≡ self.old.room.places }
        ensures before { self.new.room.before ≡ self.old.room.before + two_words }
    {
        self.rows.open_margin();
    }

    /// Turns blank places before each row into room after its last bit, where there are any. There must be a row.
    pub fn close_margin(&mut self)
        requires { 0 < length self.old.rows }
        ensures rows { self.new.rows ≡ self.old.rows }
        ensures places { self.new.room.places ≡ self.old.room.places }
        ensures before { self.new.room.before ≡ closed_up self.old.room.before }
        ensures after { 0 < self.old.room.places → self.new.room.before < self.new.room.places }
    {
        self.rows.close_margin();
    }

    /// How many bits more go in after the last of each row before memory is needed.
    pub fn room_after(&self) -> usize
        ensures { result ≡ self.now.room.places - self.now.room.before }
    {
        self.rows.room_after()
    }

    /// Takes the memory that one more bit in each row needs at a place, where it needs some, as `MarginRows` does.
    ///
    /// # Errors
    ///
    /// `AllocError` where memory was refused, never where there is room after the last bit or before the first: the
    /// rows are as before.
    pub fn reserve(&mut self, at: usize) -> Result<(), AllocError>
        ensures rows { self.new.rows ≡ self.old.rows }
        ensures more { self.old.room.places ≤ self.new.room.places }
        ensures before { self.new.room.before ≡ self.old.room.before }
        ensures whole { self.new.room.places % 64 ≡ self.old.room.places % 64 }
        ensures ok { OnOk result (0 < self.new.room.places) }
        ensures there { 0 < self.old.room.places → IsOk result }
        ensures kept { self.old.room.before < self.old.room.places → self.new.room ≡ self.old.room }
        ensures blank { two_words ≤ self.old.room.before → self.new.room ≡ self.old.room }
        ensures first { at ≡ 0 → 0 < self.old.room.before → self.new.room ≡ self.old.room }
    {
        self.rows.reserve(at)
    }

    /// Leaves one row, without a bit or a margin. There must be a row.
    pub fn clear(&mut self)
        requires { 0 < length self.old.rows }
        ensures rows { self.new.rows ≡ [] ∷ [] }
        ensures places { self.new.room.places ≡ self.old.room.places + length (slice_index_or self.old.rows 0 []) }
        ensures before { self.new.room.before ≡ 0 }
    {
        self.rows.clear();
    }

    /// Equal rows, with an equal margin.
    ///
    /// # Errors
    ///
    /// `AllocError` where memory was refused.
    pub fn copy(&self, alloc: Global) -> Result<TurnedRows, AllocError>
        ensures { IfOk result (λ rows. rows ≡ self.now) }
    {
        Ok(TurnedRows {
            rows: self.rows.copy(alloc)?,
        })
    }
}
