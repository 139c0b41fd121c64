//! The words of all rows, each in a slot: so many words a slot. Of a row whose bits stand close together only a part is kept.

ghost use Rattle.std.specs.Prelude.{◌≡◌, ◌<◌, ◌≤◌, ◌+◌, ◌*◌, ◌^◌, take, replicate, slice_index, IfOk, OnOk, OnErr};
ghost use Rattle.bits.specs.steps.Held.{words_in, Writes, Fits, Makes, IsSlotChanged, IsAppended, IsMovedInto, IsWidened};
ghost use Rattle.bits.specs.steps.Packing.{all_bits};
ghost use Rattle.bits.specs.steps.StoredRows.{words_of};
ghost use Rattle.bits.specs.steps.Summaries.{IsSummaryOf};

use crate::bit_row::MOST_WORDS;
use crate::each_row::{append, part, widen};
use crate::row_move::Move;
use crate::row_part::RowPart;
use crate::row_words::RowWords;
use crate::whole_rows::{Kept, add, free, make_room, move_row, own, write_row};
use std::alloc::{AllocError, Global};
use std::marker::Model;

// So many words has each slot at first.
const LEAST: usize = 4;

/// The words in slots, as many in each. Slots and words count from 0. A caller names only those that are there.
///
/// A row's part is kept, or all its words among the whole rows. There is room for each row there, so that a row becomes whole
/// without memory; the room isn't touched before.
#[derive(Drop)]
pub(crate) struct SlotWords {
    width: usize,
    kept: Vec<Kept>,
    wholes: Vec<u64>,
    owners: Vec<usize>,
}

impl Model for SlotWords {
    ghost use Rattle.std.specs.Prelude.{length, ◌*◌, ◌≤◌};
    ghost use Rattle.std.specs.Vec.{vec_capacity};
    ghost use Rattle.bits.specs.steps.Held.{WordsInSlots};
    ghost use Rattle.bits.specs.steps.StoredRows.{all_words, AreStored};

    ghost Value = { WordsInSlots };

    ghost view = { λ s. record {
      count = length s.kept.items;
      width = s.width;
      words = all_words s.width s.wholes.items s.kept.items;
    } };

    ghost invariant = { λ s. AreStored s.width s.kept.items s.wholes.items s.owners.items
        × (length s.kept.items * s.width ≤ vec_capacity s.wholes)
        × (length s.kept.items ≤ vec_capacity s.owners) };
}

impl SlotWords {
    // One slot, of blank words.
    pub(crate) fn one(alloc: Global) -> Result<SlotWords, AllocError>
        ensures { IfOk result (λ slots. (slots.count ≡ 1) × (slots.width ≡ 4) × (slots.words ≡ replicate 4 0)) }
    {
        let mut kept = Vec::new(alloc);
        kept.push(Kept::Part(RowPart::blank()))?;
        Ok(SlotWords {
            width: LEAST,
            kept,
            wholes: Vec::with_capacity(alloc, LEAST)?,
            owners: Vec::with_capacity(alloc, 1)?,
        })
    }

    // How many words each slot has.
    pub(crate) fn width(&self) -> usize
        ensures { result ≡ self.now.width }
    {
        self.width
    }

    // The first words in a slot, so many; they are lent.
    pub(crate) fn row(&self, slot: usize, count: usize) -> RowWords<'_>
        requires slot { slot < self.now.count }
        requires words { count ≤ self.now.width }
        ensures { words_of result ≡ take count (words_in self.now.width self.now.words slot) }
    {
        match &self.kept[slot] {
            Kept::Part(row) => RowWords {
                start: row.start,
                count,
                kept: &row.words,
            },
            Kept::Whole(i) => RowWords {
                start: 0,
                count,
                kept: part(&self.wholes, *i * self.width, count),
            },
        }
    }

    // A word in a slot.
    #[inline(always)]
    pub(crate) fn word(&self, slot: usize, place: usize) -> u64
        requires slot { slot < self.now.count }
        requires place { place < self.now.width }
        ensures { result ≡ slice_index (words_in self.now.width self.now.words slot) place }
    {
        match &self.kept[slot] {
            Kept::Part(part) => part.word(place),
            Kept::Whole(i) => self.wholes[*i * self.width + place],
        }
    }

    // Writes the bit at a place of the words in a slot. It takes no memory.
    #[inline(always)]
    pub(crate) fn write(&mut self, slot: usize, at: usize, bit: bool)
        requires slot { slot < self.old.count }
        requires place { at < 64 * self.old.width }
        ensures { IsSlotChanged (Writes at bit) slot self.old self.new }
    {
        match &mut self.kept[slot] {
            Kept::Part(part) => {
                if part.has(at / 64) {
                    part.write(at, bit);
                    return;
                }
            }
            Kept::Whole(i) => {
                write_row(&mut self.wholes, self.width, *i, at, bit);
                return;
            }
        }
        if bit {
            self.write_beside(slot, at, bit);
        }
    }

    // Writes the bit at a place of the words in a slot, which may be in a word that isn't kept.
    #[inline(never)]
    fn write_beside(&mut self, slot: usize, at: usize, bit: bool)
        requires slot { slot < self.old.count }
        requires place { at < 64 * self.old.width }
        ensures { IsSlotChanged (Writes at bit) slot self.old self.new }
    {
        match self.kept[slot] {
            Kept::Part(old) => {
                let mut part = old;
                if part.cover(self.width, at / 64) {
                    part.write(at, bit);
                    self.kept[slot] = Kept::Part(part);
                    return;
                }
                let i = self.owners.len();
                add(&mut self.wholes, &mut self.owners, self.width, slot, &old);
                self.kept[slot] = Kept::Whole(i);
                write_row(&mut self.wholes, self.width, i, at, bit);
            }
            Kept::Whole(i) => write_row(&mut self.wholes, self.width, i, at, bit),
        }
    }

    // Makes a move of the bits in a slot. The summary fits the words before and after. It takes no memory.
    pub(crate) fn move_bits(&mut self, slot: usize, summary: &mut u64, how: Move)
        requires slot { slot < self.old.count }
        requires fits { Fits how self.old.width }
        requires summed { IsSummaryOf summary.old (all_bits (words_in self.old.width self.old.words slot)) }
        ensures made { IsSlotChanged (Makes how) slot self.old self.new }
        ensures summed { IsSummaryOf summary.new (all_bits (words_in self.new.width self.new.words slot)) }
    {
        match self.kept[slot] {
            Kept::Part(old) => {
                let mut part = old;
                if part.make(self.width, summary, how) {
                    self.kept[slot] = Kept::Part(part);
                    return;
                }
                let i = self.owners.len();
                add(&mut self.wholes, &mut self.owners, self.width, slot, &old);
                self.kept[slot] = Kept::Whole(i);
                move_row(&mut self.wholes, self.width, i, summary, how);
            }
            Kept::Whole(i) => move_row(&mut self.wholes, self.width, i, summary, how),
        }
    }

    // Adds a slot with the words of another.
    //
    // # Errors
    //
    // `AllocError` where memory was refused: all is as before.
    pub(crate) fn append(&mut self, slot: usize) -> Result<(), AllocError>
        requires { slot < self.old.count }
        ensures ok { OnOk result (IsAppended slot self.old self.new) }
        ensures err { OnErr result (self.new ≡ self.old) }
    {
        let count = self.kept.len();
        let Some(room) = (count + 1).checked_mul(self.width) else {
            return Err(AllocError);
        };
        make_room(&mut self.wholes, room)?;
        self.owners.reserve(count + 1 - self.owners.len())?;
        self.kept.reserve(1)?;
        match self.kept[slot] {
            Kept::Part(part) => self.kept.push_reserved(Kept::Part(part)),
            Kept::Whole(i) => {
                let whole = self.owners.len();
                append(&mut self.wholes, i * self.width, self.width)?;
                self.owners.push_reserved(count);
                self.kept.push_reserved(Kept::Whole(whole));
            }
        }
        Ok(())
    }

    // Leaves so many slots.
    pub(crate) fn truncate(&mut self, count: usize)
        requires { count ≤ self.old.count }
        ensures count { self.new.count ≡ count }
        ensures width { self.new.width ≡ self.old.width }
        ensures words { self.new.words ≡ take (count * self.old.width) self.old.words }
    {
        let _width = self.width;
        while self.kept.len() > count {
            let last = self.kept.len() - 1;
            self.remove(last);
        }
    }

    // Takes a slot's words out: those of the last slot stand in it then.
    pub(crate) fn remove(&mut self, slot: usize)
        requires { slot < self.old.count }
        ensures { IsMovedInto slot self.old self.new }
    {
        free(
            &mut self.kept,
            &mut self.wholes,
            &mut self.owners,
            self.width,
            slot,
        );
        let last = self.kept.len() - 1;
        let end = self.kept[last];
        own(&mut self.owners, end, slot);
        self.kept[slot] = end;
        self.kept.truncate(last);
    }

    // Gives each slot as many blank words as it has, after those.
    //
    // # Errors
    //
    // `AllocError` where memory was refused, or a slot would have more than 2 to the 58 words: all is as before.
    pub(crate) fn widen(&mut self) -> Result<(), AllocError>
        ensures ok { OnOk result (IsWidened self.old self.new) }
        ensures err { OnErr result (self.new ≡ self.old) }
    {
        let wider = 2 * self.width;
        if wider > MOST_WORDS {
            return Err(AllocError);
        }
        let Some(room) = self.kept.len().checked_mul(wider) else {
            return Err(AllocError);
        };
        let alloc = *self.wholes.allocator();
        let mut wide = widen(&self.wholes, self.owners.len(), self.width, wider, alloc)?;
        make_room(&mut wide, room)?;
        self.wholes = wide;
        self.width = wider;
        Ok(())
    }

    // Leaves two slots of blank words.
    pub(crate) fn clear(&mut self)
        requires { 2 ≤ self.old.count }
        ensures count { self.new.count ≡ 2 }
        ensures width { self.new.width ≡ self.old.width }
        ensures words { self.new.words ≡ replicate (2 * self.old.width) 0 }
    {
        self.kept.truncate(2);
        self.kept[0] = Kept::Part(RowPart::blank());
        self.kept[1] = Kept::Part(RowPart::blank());
        self.wholes.clear();
        self.owners.clear();
    }

    // Equal words in equal slots.
    //
    // # Errors
    //
    // `AllocError` where memory was refused.
    pub(crate) fn copy(&self, alloc: Global) -> Result<SlotWords, AllocError>
        ensures { IfOk result (λ slots. slots ≡ self.now) }
    {
        let count = self.kept.len();
        let kept = Vec::from_slice(alloc, &self.kept)?;
        let mut wholes = Vec::with_capacity(alloc, count * self.width)?;
        wholes.extend_from_slice(&self.wholes)?;
        let mut owners = Vec::with_capacity(alloc, count)?;
        owners.extend_from_slice(&self.owners)?;
        Ok(SlotWords {
            width: self.width,
            kept,
            wholes,
            owners,
        })
    }
}
