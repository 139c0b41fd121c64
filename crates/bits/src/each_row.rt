//! The words of all rows, each in a slot: a change of each, a bit of some, and more room.

ghost use Rattle.std.specs.Prelude.{◌≡◌, ◌≢◌, ◌<◌, ◌≤◌, ◌+◌, ◌-◌, ◌*◌, length, take, drop, slice_index, slice_index_or, IfOk, OnOk, OnErr, ℕ, false, replicate, ◌++◌};
ghost use Rattle.std.specs.Vec.{vec_capacity};
ghost use Rattle.bits.specs.steps.Held.{words_in, AreWritten, EachSlot, Fits, Makes, AreAsMany, IsAppended, WordsInSlots};
ghost use Rattle.bits.specs.steps.Packing.{all_bits};
ghost use Rattle.bits.specs.steps.Summaries.{SumUp};

use crate::row_move::Move;
use crate::slot_words::SlotWords;
use crate::summary::marked;
use std::alloc::{AllocError, Global};

// Makes a move of bits in each slot.
pub(crate) fn move_all(words: &mut SlotWords, summaries: &mut Vec<u64>, how: Move)
    requires fits { Fits how words.old.width }
    requires counted { words.old.count ≡ length summaries.old.items }
    requires summed { SumUp words.old.width summaries.old.items words.old.words (length summaries.old.items) }
    ensures as_many { AreAsMany words.old words.new }
    ensures rows { EachSlot (Makes how) words.old.width words.old.words words.new.words (length summaries.old.items) }
    ensures counted { length summaries.new.items ≡ length summaries.old.items }
    ensures summed { SumUp words.old.width summaries.new.items words.new.words (length summaries.old.items) }
{
    for slot in 0..summaries.len() {
        let mut summary = summaries[slot];
        words.move_bits(slot, &mut summary, how);
        summaries[slot] = summary;
    }
}

// Writes a bit at a place of the rows in some slots. Slots and summaries are lent, so the loop asks neither a vector nor a block where they are.
pub(crate) fn write_each(
    words: &mut SlotWords,
    summaries: &mut [u64],
    slots: &[u32],
    at: usize,
    bit: bool,
)
    requires place { at < 64 * words.old.width }
    requires below { (k : ℕ) → k < length slots.now → slice_index slots.now k < length summaries.old }
    requires apart { (j k : ℕ) → j < k → k < length slots.now → slice_index slots.now j ≢ slice_index slots.now k }
    requires counted { words.old.count ≡ length summaries.old }
    requires summed { SumUp words.old.width summaries.old words.old.words (length summaries.old) }
    ensures as_many { AreAsMany words.old words.new }
    ensures written { AreWritten at bit words.old.width (length summaries.old) (length slots.now) slots.now words.old.words words.new.words }
    ensures counted { length summaries.new ≡ length summaries.old }
    ensures summed { SumUp words.old.width summaries.new words.new.words (length summaries.old) }
{
    for k in 0..slots.len() {
        let slot = slots[k] as usize;
        words.write(slot, at, bit);
        summaries[slot] = marked(summaries[slot], at / 64, bit);
    }
}

// The bit at a place of the row in a slot.
fn bit_in(words: &SlotWords, slot: usize, at: usize) -> bool
    requires slot { slot < words.now.count }
    requires place { at < 64 * words.now.width }
    ensures { result ≡ slice_index_or (all_bits (words_in words.now.width words.now.words slot)) at false }
{
    (words.word(slot, at / 64) >> (at % 64)) % 2 == 1
}

// Where those of some slots begin, side by side up to the last, whose rows have a bit at a place.
pub(crate) fn alike_from(words: &SlotWords, slots: &[u32], at: usize, bit: bool) -> usize
    requires place { at < 64 * words.now.width }
    requires below { (k : ℕ) → k < length slots.now → slice_index slots.now k < words.now.count }
    ensures few { result ≤ length slots.now }
    ensures alike { (k : ℕ) → result ≤ k → k < length slots.now
        → slice_index_or (all_bits (words_in words.now.width words.now.words (slice_index slots.now k))) at false ≡ bit }
    ensures first { 0 < result → slice_index_or (all_bits (words_in words.now.width words.now.words (slice_index slots.now (result - 1)))) at false ≢ bit }
{
    let mut first = slots.len();
    while first > 0 && bit_in(words, slots[first - 1] as usize, at) == bit {
        first -= 1;
    }
    first
}

// Adds two slots to so many, with the words of another.
pub(crate) fn append_twice(
    words: &mut SlotWords,
    count: usize,
    slot: usize,
) -> Result<(), AllocError>
    requires count { words.old.count ≡ count }
    requires whole { length words.old.words ≡ count * words.old.width }
    requires slot { slot < count }
    ensures ok { OnOk result ((once : WordsInSlots) × IsAppended slot words.old once × IsAppended slot once words.new) }
    ensures err { OnErr result (words.new ≡ words.old) }
{
    words.append(slot)?;
    match words.append(slot) {
        Ok(()) => Ok(()),
        Err(refused) => {
            words.truncate(count);
            Err(refused)
        }
    }
}

// So many words from a place on; they are lent.
pub(crate) fn part(words: &[u64], start: usize, count: usize) -> &[u64]
    requires { start + count ≤ length words.now }
    ensures { result.now ≡ take count (drop start words.now) }
{
    &words[start..start + count]
}

// The words of so many rows, each with words of zeros after it.
pub(crate) fn widen(
    words: &[u64],
    count: usize,
    width: usize,
    wider: usize,
    alloc: Global,
) -> Result<Vec<u64>, AllocError>
    requires whole { length words.now ≡ count * width }
    requires more { width ≤ wider }
    requires some { 0 < wider }
    ensures len { IfOk result (λ wide. length wide.items ≡ count * wider) }
    ensures rows { IfOk result (λ wide. (slot : ℕ) → slot < count
        → words_in wider wide.items slot ≡ words_in width words.now slot ++ replicate (wider - width) 0) }
{
    let Some(size) = count.checked_mul(wider) else {
        return Err(AllocError);
    };
    let mut wide = Vec::with_capacity(alloc, size)?;
    for slot in 0..count {
        wide.extend_from_slice(part(words, slot * width, width))?;
        wide.resize((slot + 1) * wider, 0)?;
    }
    Ok(wide)
}

// Puts the words of a row after all words. They are copied over zeros, many at a step; where they are pushed, it is one by one.
pub(crate) fn append(words: &mut Vec<u64>, start: usize, width: usize) -> Result<(), AllocError>
    requires { start + width ≤ length words.old.items }
    ensures ok { OnOk result (words.new.items ≡ words.old.items ++ take width (drop start words.old.items)) }
    ensures err { OnErr result (words.new.items ≡ words.old.items) }
    ensures room { vec_capacity words.old ≤ vec_capacity words.new }
{
    let end = words.len();
    words.resize(end + width, 0)?;
    words.copy_within(start..start + width, end);
    Ok(())
}
