//! Rows of equally many bits, packed 64 to a word. Each row has a slot of its own for its words, so that another row
//! is one copy and moves none.

ghost use Rattle.std.specs.Prelude.{◌≡◌, ◌≢◌, ◌<◌, ◌≤◌, ◌+◌, ◌-◌, ◌*◌, ◌^◌, [], ◌∷◌, length, map, insert, remove, slice_set, slice_index_or, false, take, drop, IfOk, OnOk, OnErr, IsOk, IsTrue, ◌↔◌, ◌%◌, ℕ, All, replicate, ◌++◌};
ghost use Rattle.bits.specs.Rows.{two_words, IsRunWritten};
ghost use Rattle.bits.specs.steps.Packing.{all_bits, IsPacked};
ghost use Rattle.bits.specs.steps.Held.{AreApart, AreFirstTwo};
ghost use Rattle.bits.specs.steps.StoredRows.{words_of};
ghost use Rattle.bits.specs.steps.Summaries.{IsSummaryOf};

use crate::blocks::Blocks;
use crate::each_row::{alike_from, append_twice, move_all, write_each};
use crate::row_move::Move;
use crate::row_words::RowWords;
use crate::slot_words::SlotWords;
use crate::sparse::Way;
use crate::summary::{is_marked, marked};
use crate::words::{same_beside, same_bits};
use std::alloc::{AllocError, Global};
use std::marker::Model;

/// The places of two words: a summary has one bit for both.
pub const TWO_WORDS: usize = 128;

// The slot after so many: refused where it is no `u32`.
fn slot_after(count: usize) -> Result<u32, AllocError>
    ensures slot { IfOk result (λ slot. slot ≡ count) }
    ensures there { count < 2 ^ 32 → IsOk result }
{
    match u32::try_from(count) {
        Ok(slot) => Ok(slot),
        Err(_) => Err(AllocError),
    }
}

// Leaves the first two slots alone.
fn keep_two(slots: &mut Blocks)
    requires { 2 ≤ length slots.old }
    ensures { slots.new ≡ take 2 slots.old }
{
    while slots.len() > 2 {
        let _slot = slots.remove(slots.len() - 1);
    }
}

// Makes two slots the first two that there are, in either order.
fn renumber(slots: &mut Blocks)
    requires two { length slots.old ≡ 2 }
    requires apart { AreApart slots.old }
    ensures { AreFirstTwo slots.new }
{
    let first = slots.get(0);
    let second = slots.get(1);
    if second == 0 {
        slots.redirect(first, 1);
        return;
    }
    slots.redirect(first, 0);
    slots.redirect(second, 1);
}

/// Rows of equally many bits, in an order: the bit at p is bit p mod 64 of the row's word p div 64. A row's slot is
/// where its words are, and where its summary is.
///
/// Rows and places count from 0. A caller names only those that are there.
#[derive(Drop)]
pub struct Rows {
    len: usize,
    slots: Blocks,
    summaries: Vec<u64>,
    words: SlotWords,
}

impl Model for Rows {
    ghost use Rattle.std.specs.Prelude.{map, length, ◌≡◌, ◌*◌, ◌-◌};
    ghost use Rattle.bits.specs.Rows.{RowsAndRoom};
    ghost use Rattle.bits.specs.steps.Held.{AreHeld, bits_in};
    ghost use Rattle.bits.specs.steps.Summaries.{AreSummaries};

    ghost Value = { RowsAndRoom };

    ghost view = { λ r. record {
      rows = map (bits_in r.len r.words.width r.words.words) r.slots;
      room = 64 * r.words.width - r.len;
    } };

    ghost invariant = { λ r. AreHeld r.len r.words.width r.slots r.words.words
        × AreSummaries r.words.width r.summaries.items r.words.words (length r.slots) × (r.words.count ≡ length r.slots) };
}

impl Rows {
    /// One row without a bit, and room for 256 bits.
    ///
    /// # Errors
    ///
    /// `AllocError` where memory was refused.
    pub fn with_one_row(alloc: Global) -> Result<Rows, AllocError>
        ensures { IfOk result (λ rows. (rows.rows ≡ [] ∷ []) × (rows.room ≡ 256)) }
    {
        let slots = Blocks::one(alloc, 0)?;
        let mut summaries = Vec::new(alloc);
        summaries.push(0)?;
        Ok(Rows {
            len: 0,
            slots,
            summaries,
            words: SlotWords::one(alloc)?,
        })
    }

    /// How many rows there are.
    pub fn count(&self) -> usize
        ensures { result ≡ length self.now.rows }
    {
        self.slots.len()
    }

    /// How many bits a row has: as many as any other.
    pub fn bits(&self, row: usize) -> usize
        requires { row < length self.now.rows }
        ensures { result ≡ length (slice_index_or self.now.rows row []) }
    {
        let _row = self.slots.get(row);
        self.len
    }

    /// The words of a row that its bits need; they are lent.
    pub fn row(&self, row: usize) -> RowWords<'_>
        requires { row < length self.now.rows }
        ensures packed { IsPacked (words_of result) (length (slice_index_or self.now.rows row [])) }
        ensures bits { take (length (slice_index_or self.now.rows row [])) (all_bits (words_of result)) ≡ slice_index_or self.now.rows row [] }
    {
        self.words
            .row(self.slots.get(row) as usize, self.len.div_ceil(64))
    }

    /// A row's summary: it has the bit of each word in which the row has a bit.
    pub fn summary(&self, row: usize) -> u64
        requires { row < length self.now.rows }
        ensures { IsSummaryOf result (slice_index_or self.now.rows row []) }
    {
        let _len = self.len;
        self.summaries[self.slots.get(row) as usize]
    }

    /// The bit at a place of a row.
    pub fn get(&self, row: usize, at: usize) -> bool
        requires row { row < length self.now.rows }
        requires place { at < length (slice_index_or self.now.rows row []) }
        ensures { result ≡ slice_index_or (slice_index_or self.now.rows row []) at false }
    {
        let _len = self.len;
        is_marked(self.summary(row), at / 64) && self.row(row).bit(at)
    }

    /// Writes the bit at a place of a row.
    pub fn set(&mut self, row: usize, at: usize, bit: bool)
        requires row { row < length self.old.rows }
        requires place { at < length (slice_index_or self.old.rows row []) }
        ensures rows { self.new.rows ≡ slice_set self.old.rows row (slice_set (slice_index_or self.old.rows row []) at bit) }
        ensures room { self.new.room ≡ self.old.room }
    {
        let _len = self.len;
        let slot = self.slots.get(row) as usize;
        self.words.write(slot, at, bit);
        self.summaries[slot] = marked(self.summaries[slot], at / 64, bit);
    }

    // Writes a bit at a place of the rows from one on, up to another one or as far as their slots stand in one block: it
    // returns where it ended.
    fn set_part(&mut self, from: usize, to: usize, at: usize, bit: bool) -> usize
        requires order { from < to }
        requires within { to ≤ length self.old.rows }
        requires place { All (λ row. at < length row) self.old.rows }
        ensures more { from < result }
        ensures end { result ≤ to }
        ensures rows { IsRunWritten at bit from result self.old.rows self.new.rows }
        ensures room { self.new.room ≡ self.old.room }
    {
        let _len = self.len;
        let run = self.slots.run(from);
        let slots = &run[..run.len().min(to - from)];
        let end = from + slots.len();
        write_each(
            &mut self.words,
            self.summaries.as_mut_slice(),
            slots,
            at,
            bit,
        );
        end
    }

    /// Writes a bit at a place of the rows from one up to another.
    pub fn set_run(&mut self, from: usize, to: usize, at: usize, bit: bool)
        requires order { from ≤ to }
        requires within { to ≤ length self.old.rows }
        requires place { All (λ row. at < length row) self.old.rows }
        ensures rows { IsRunWritten at bit from to self.old.rows self.new.rows }
        ensures room { self.new.room ≡ self.old.room }
    {
        let mut next = from;
        while next < to {
            next = self.set_part(next, to, at, bit);
        }
    }

    /// Whether two rows are equal.
    pub fn same(&self, one: usize, other: usize) -> bool
        requires one { one < length self.now.rows }
        requires other { other < length self.now.rows }
        ensures { IsTrue result ↔ (slice_index_or self.now.rows one [] ≡ slice_index_or self.now.rows other []) }
    {
        let _len = self.len;
        same_bits(&self.row(one), &self.row(other))
    }

    /// Whether two rows are equal beside the bits at a place.
    pub fn same_beside(&self, one: usize, other: usize, at: usize) -> bool
        requires one { one < length self.now.rows }
        requires other { other < length self.now.rows }
        ensures { IsTrue result ↔ (remove (slice_index_or self.now.rows one []) at ≡ remove (slice_index_or self.now.rows other []) at) }
    {
        let _len = self.len;
        same_beside(&self.row(one), &self.row(other), at)
    }

    /// Where the rows begin, side by side up to one of them, that have its bit at a place.
    pub fn run_start(&self, row: usize, at: usize) -> usize
        requires row { row < length self.now.rows }
        requires place { All (λ row. at < length row) self.now.rows }
        ensures within { result ≤ row }
        ensures alike { (k : ℕ) → result ≤ k → k ≤ row
            → slice_index_or (slice_index_or self.now.rows k []) at false ≡ slice_index_or (slice_index_or self.now.rows row []) at false }
        ensures first { 0 < result → slice_index_or (slice_index_or self.now.rows (result - 1) []) at false
            ≢ slice_index_or (slice_index_or self.now.rows row []) at false }
    {
        let bit = self.get(row, at);
        let mut first = row;
        while first > 0 {
            let slots = self.slots.run_to(first - 1);
            let alike = alike_from(&self.words, slots, at, bit);
            first -= slots.len() - alike;
            if alike > 0 {
                return first;
            }
        }
        first
    }

    /// Puts a copy of a row after it.
    ///
    /// # Errors
    ///
    /// `AllocError` where memory was refused, or there are 2 to the 32 rows: the rows are as before.
    pub fn duplicate(&mut self, row: usize) -> Result<(), AllocError>
        requires { row < length self.old.rows }
        ensures ok { OnOk result (self.new.rows ≡ insert self.old.rows (row + 1) (slice_index_or self.old.rows row [])) }
        ensures err { OnErr result (self.new.rows ≡ self.old.rows) }
        ensures few { OnOk result (length self.new.rows ≤ 2 ^ 32) }
        ensures room { self.new.room ≡ self.old.room }
    {
        let count = self.slots.len();
        let slot = slot_after(count)?;
        self.summaries.reserve(1)?;
        let from = self.slots.get(row) as usize;
        self.words.append(from)?;
        match self.slots.insert(row + 1, slot) {
            Ok(()) => {
                let _ = self.summaries.push(self.summaries[from]);
                Ok(())
            }
            Err(refused) => {
                self.words.truncate(count);
                Err(refused)
            }
        }
    }

    /// Puts two copies of a row after it.
    ///
    /// # Errors
    ///
    /// `AllocError` where memory was refused, or there would be more than 2 to the 32 rows: the rows are as before.
    pub fn duplicate_twice(&mut self, row: usize) -> Result<(), AllocError>
        requires { row < length self.old.rows }
        ensures ok { OnOk result (self.new.rows
            ≡ insert (insert self.old.rows (row + 1) (slice_index_or self.old.rows row [])) (row + 1) (slice_index_or self.old.rows row [])) }
        ensures err { OnErr result (self.new.rows ≡ self.old.rows) }
        ensures few { OnOk result (length self.new.rows ≤ 2 ^ 32) }
        ensures room { self.new.room ≡ self.old.room }
    {
        let before = self.slots.len();
        let slot = slot_after(before)?;
        let next = slot_after(before + 1)?;
        self.summaries.reserve(2)?;
        let from = self.slots.get(row) as usize;
        append_twice(&mut self.words, before, from)?;
        match self.slots.insert_pair(row + 1, next, slot) {
            Ok(()) => {
                let summary = self.summaries[from];
                self.summaries.push_reserved(summary);
                self.summaries.push_reserved(summary);
                Ok(())
            }
            Err(refused) => {
                self.words.truncate(before);
                Err(refused)
            }
        }
    }

    /// Takes a row out: the row in the last slot moves into its slot.
    pub fn remove(&mut self, row: usize)
        requires { row < length self.old.rows }
        ensures rows { self.new.rows ≡ remove self.old.rows row }
        ensures room { self.new.room ≡ self.old.room }
    {
        let _len = self.len;
        let slot = self.slots.remove(row);
        let last = self.slots.len();
        self.words.remove(slot as usize);
        self.summaries[slot as usize] = self.summaries[last];
        self.summaries.truncate(last);
        self.slots.redirect(last as u32, slot);
    }

    /// Puts a 0 into each row at a place: the later bits move up by one. There must be a row, and room for a bit
    /// (`reserve`).
    pub fn insert_column(&mut self, at: usize)
        requires some { 0 < length self.old.rows }
        requires place { All (λ row. at ≤ length row) self.old.rows }
        requires room { 0 < self.old.room }
        ensures rows { self.new.rows ≡ map (λ row. insert row at false) self.old.rows }
        ensures room { self.new.room + 1 ≡ self.old.room }
    {
        if at >= self.len {
            // The bit after the last is 0 already.
            self.len += 1;
            return;
        }
        move_all(
            &mut self.words,
            &mut self.summaries,
            Move::Bits(Way::In, at),
        );
        self.len += 1;
    }

    /// Takes a bit out of each row at a place: the later ones move down by one. There must be a row. It leaves room
    /// for another bit.
    pub fn remove_column(&mut self, at: usize)
        requires some { 0 < length self.old.rows }
        requires place { All (λ row. at < length row) self.old.rows }
        ensures rows { self.new.rows ≡ map (λ row. remove row at) self.old.rows }
        ensures room { self.new.room ≡ self.old.room + 1 }
    {
        move_all(
            &mut self.words,
            &mut self.summaries,
            Move::Bits(Way::Out, at),
        );
        self.len -= 1;
    }

    /// Puts two words of 0s in before the bits of each row: words move, and no bit within them. There must be room
    /// for that many bits.
    pub fn insert_words(&mut self)
        requires { two_words ≤ self.old.room }
        ensures rows { self.new.rows ≡ map (λ row. replicate two_words false ++ row) self.old.rows }
        ensures room { self.new.room + two_words ≡ self.old.room }
    {
        move_all(&mut self.words, &mut self.summaries, Move::Words(Way::In));
        self.len += TWO_WORDS;
    }

    /// Takes the first two words of bits out of each row: words move, and no bit within them. There must be a row,
    /// and each must have that many bits.
    pub fn remove_words(&mut self)
        requires some { 0 < length self.old.rows }
        requires long { All (λ row. two_words ≤ length row) self.old.rows }
        ensures rows { self.new.rows ≡ map (drop two_words) self.old.rows }
        ensures room { self.new.room ≡ self.old.room + two_words }
    {
        move_all(&mut self.words, &mut self.summaries, Move::Words(Way::Out));
        self.len -= TWO_WORDS;
    }

    /// How many bits more go into each row before memory is needed.
    pub fn room(&self) -> usize
        ensures { result ≡ self.now.room }
    {
        64 * self.words.width() - self.len
    }

    /// Takes the memory that one more bit in each row needs. Where there is no room, all rows move, and then have
    /// room for at least as many more bits as each has.
    ///
    /// # Errors
    ///
    /// `AllocError` where memory was refused, never where there is room: the rows are as before.
    pub fn reserve(&mut self) -> Result<(), AllocError>
        ensures rows { self.new.rows ≡ self.old.rows }
        ensures more { self.old.room ≤ self.new.room }
        ensures whole { self.new.room % 64 ≡ self.old.room % 64 }
        ensures ok { OnOk result (0 < self.new.room) }
        ensures there { 0 < self.old.room → IsOk result }
        ensures kept { 0 < self.old.room → self.new.room ≡ self.old.room }
        ensures doubled { self.old.room ≡ 0 → OnOk result (All (λ row. length row ≤ self.new.room) self.old.rows) }
    {
        if self.room() > 0 {
            return Ok(());
        }
        self.words.widen()?;
        Ok(())
    }

    /// Leaves the first two rows alone, without a bit, and their room. There must be two.
    pub fn clear(&mut self)
        requires { 1 < length self.old.rows }
        ensures rows { self.new.rows ≡ [] ∷ [] ∷ [] }
        ensures room { self.new.room ≡ self.old.room + length (slice_index_or self.old.rows 0 []) }
    {
        let _len = self.len;
        keep_two(&mut self.slots);
        renumber(&mut self.slots);
        self.summaries.truncate(2);
        self.summaries.fill(0);
        self.words.clear();
        self.len = 0;
    }

    /// Equal rows.
    ///
    /// # Errors
    ///
    /// `AllocError` where memory was refused.
    pub fn copy(&self, alloc: Global) -> Result<Rows, AllocError>
        ensures { IfOk result (λ rows. rows ≡ self.now) }
    {
        let slots = self.slots.copy(alloc)?;
        let summaries = Vec::from_slice(alloc, &self.summaries)?;
        let words = self.words.copy(alloc)?;
        Ok(Rows {
            len: self.len,
            slots,
            summaries,
            words,
        })
    }
}
