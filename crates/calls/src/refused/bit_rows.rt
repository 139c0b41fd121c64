//! Rows of bits.
use crate::again::{Refusals, again, expect_given, expect_kept};
use crate::bit_lists::has_bits;
use crate::trouble::{Trouble, expect};
use classify::BitRow;
use std::alloc::Global;

/// Puts a bit in first; a refusal leaves the bits that were there.
fn insert_first(
    refusals: &mut Refusals,
    row: &mut BitRow,
    bit: bool,
    bits: &[bool],
) -> Result<(), Trouble> {
    again!(refusals, row.insert(0, bit), has_bits(row, bits));
    Ok(())
}

/// Fills the word of a row of one bit, for which there is room.
fn fill(row: &mut BitRow) -> Result<(), Trouble> {
    for _ in 1..64u32 {
        expect_given(row.insert(row.len(), false))?;
    }
    Ok(())
}

/// `BitRow::insert`, into a row of no bit and into one whose word is full.
pub fn insert(alloc: Global, refusals: &mut Refusals) -> Result<(), Trouble> {
    let (mut full, mut wider) = ([false; 64], [false; 65]);
    full[0] = true;
    wider[1] = true;
    let mut row = BitRow::new(alloc);
    insert_first(refusals, &mut row, true, &[])?;
    expect(has_bits(&row, &[true]))?;
    fill(&mut row)?;
    expect(has_bits(&row, &full))?;
    insert_first(refusals, &mut row, false, &full)?;
    expect(has_bits(&row, &wider))
}
