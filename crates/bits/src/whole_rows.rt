//! Rows whose words are all stored, one row after another, each with the slot that owns it.

ghost use Rattle.std.specs.Prelude.{◌≡◌, ◌≢◌, ℕ, ◌<◌, ◌≤◌, ◌+◌, ◌-◌, ◌*◌, ◌^◌, ◌++◌, ◌∷◌, [], OnOk, length, take, slice_index, slice_set};
ghost use Rattle.std.specs.Vec.{vec_capacity};
ghost use Rattle.bits.specs.declared.whole_rows.Kept.TheVariants.{Whole};
ghost use Rattle.bits.specs.steps.Held.{words_in, Writes, Fits, Makes};
ghost use Rattle.bits.specs.steps.Packing.{all_bits};
ghost use Rattle.bits.specs.steps.StoredRows.{part_row, AreStored, IsFreed, IsRowChanged, owners_after};
ghost use Rattle.bits.specs.steps.Summaries.{IsSummaryOf};

use crate::row_move::{Move, make};
use crate::row_part::RowPart;
use crate::words::set_bit;
use std::alloc::AllocError;

/// How the words of a slot are kept: a part of them, where all others are blank; or all, as one of the whole rows.
#[derive(Clone, Copy)]
pub(crate) enum Kept {
    Part(RowPart),
    Whole(usize),
}

// Makes room for so many words in all, and for as many more. The words are copied to new memory, and their room isn't touched: an
// allocator that moves a block copies all of it.
pub(crate) fn make_room(wholes: &mut Vec<u64>, room: usize) -> Result<(), AllocError>
    ensures items { wholes.new.items ≡ wholes.old.items }
    ensures ok { OnOk result (room ≤ vec_capacity wholes.new) }
    ensures capacity { vec_capacity wholes.old ≤ vec_capacity wholes.new }
{
    if room <= wholes.capacity() {
        return Ok(());
    }
    let alloc = *wholes.allocator();
    let mut wider = Vec::with_capacity(alloc, room.saturating_mul(2))?;
    wider.extend_from_slice(wholes)?;
    *wholes = wider;
    Ok(())
}

// Adds the row of a part for an owner. It takes no memory.
pub(crate) fn add(
    wholes: &mut Vec<u64>,
    owners: &mut Vec<usize>,
    width: usize,
    owner: usize,
    part: &RowPart,
)
    requires within { part.now.start + 4 ≤ width }
    requires room { length wholes.old.items + width ≤ vec_capacity wholes.old }
    requires owner_room { length owners.old.items < vec_capacity owners.old }
    ensures words { wholes.new.items ≡ wholes.old.items ++ part_row width part.now }
    ensures owners { owners.new.items ≡ owners.old.items ++ owner ∷ [] }
    ensures room { vec_capacity wholes.old ≤ vec_capacity wholes.new }
    ensures owner_room { vec_capacity owners.old ≤ vec_capacity owners.new }
{
    let end = wholes.len();
    let _ = wholes.resize(end + part.start, 0);
    let _ = wholes.extend_from_slice(&part.words);
    let _ = wholes.resize(end + width, 0);
    owners.push_reserved(owner);
}

// Writes the bit at a place of a row.
#[inline(always)]
pub(crate) fn write_row(wholes: &mut Vec<u64>, width: usize, i: usize, at: usize, bit: bool)
    requires place { at < 64 * width }
    requires within { i * width + width ≤ length wholes.old.items }
    ensures row { (count : ℕ) → length wholes.old.items ≡ count * width → i < count → IsRowChanged (Writes at bit) width count i wholes.old.items wholes.new.items }
    ensures room { vec_capacity wholes.new ≡ vec_capacity wholes.old }
{
    let place = i * width + at / 64;
    wholes[place] = set_bit(wholes[place], (at % 64) as u32, bit);
}

// Makes a move of the bits of a row. The summary fits the row before and after.
pub(crate) fn move_row(wholes: &mut Vec<u64>, width: usize, i: usize, summary: &mut u64, how: Move)
    requires fits { Fits how width }
    requires few { width < 2 ^ 58 }
    requires within { i * width + width ≤ length wholes.old.items }
    requires summed { IsSummaryOf summary.old (all_bits (words_in width wholes.old.items i)) }
    ensures row { (count : ℕ) → length wholes.old.items ≡ count * width → i < count → IsRowChanged (Makes how) width count i wholes.old.items wholes.new.items }
    ensures summed { IsSummaryOf summary.new (all_bits (words_in width wholes.new.items i)) }
    ensures room { vec_capacity wholes.new ≡ vec_capacity wholes.old }
{
    let start = i * width;
    make(wholes.slice_mut(start..start + width), summary, how);
}

// Takes a row out: the last one comes in its place. It returns the owner of that one.
fn take_out(wholes: &mut Vec<u64>, owners: &mut Vec<usize>, width: usize, i: usize) -> usize
    requires row { i < length owners.old.items }
    requires whole { length wholes.old.items ≡ length owners.old.items * width }
    ensures last { result ≡ slice_index owners.old.items (length owners.old.items - 1) }
    ensures owners { owners.new.items ≡ take (length owners.old.items - 1) (slice_set owners.old.items i result) }
    ensures long { length wholes.new.items ≡ (length owners.old.items - 1) * width }
    ensures moved { i + 1 < length owners.old.items → words_in width wholes.new.items i ≡ words_in width wholes.old.items (length owners.old.items - 1) }
    ensures others { (j : ℕ) → j + 1 < length owners.old.items → j ≢ i → words_in width wholes.new.items j ≡ words_in width wholes.old.items j }
    ensures room { vec_capacity wholes.new ≡ vec_capacity wholes.old }
    ensures owner_room { vec_capacity owners.new ≡ vec_capacity owners.old }
{
    let last = owners.len() - 1;
    let moved = owners[last];
    owners[i] = moved;
    owners.truncate(last);
    wholes.copy_within(last * width..last * width + width, i * width);
    wholes.truncate(last * width);
    moved
}

// Gives up the whole row of a slot, where it has one: its words are lost, and a blank part is kept.
pub(crate) fn free(
    kept: &mut Vec<Kept>,
    wholes: &mut Vec<u64>,
    owners: &mut Vec<usize>,
    width: usize,
    slot: usize,
)
    requires slot { slot < length kept.old.items }
    requires stored { AreStored width kept.old.items wholes.old.items owners.old.items }
    ensures stored { AreStored width kept.new.items wholes.new.items owners.new.items }
    ensures freed { IsFreed width slot kept.old.items kept.new.items wholes.old.items wholes.new.items }
    ensures kept_room { vec_capacity kept.new ≡ vec_capacity kept.old }
    ensures room { vec_capacity wholes.new ≡ vec_capacity wholes.old }
    ensures owner_room { vec_capacity owners.new ≡ vec_capacity owners.old }
{
    if let Kept::Whole(i) = kept[slot] {
        let moved = take_out(wholes, owners, width, i);
        kept[moved] = Kept::Whole(i);
        kept[slot] = Kept::Part(RowPart::blank());
    }
}

// Makes a slot the owner of a row, where it is a whole one.
pub(crate) fn own(owners: &mut Vec<usize>, kept: Kept, slot: usize)
    requires { (i : ℕ) → kept ≡ Whole i → i < length owners.old.items }
    ensures owners { owners.new.items ≡ owners_after kept slot owners.old.items }
    ensures room { vec_capacity owners.new ≡ vec_capacity owners.old }
{
    if let Kept::Whole(i) = kept {
        owners[i] = slot;
    }
}
