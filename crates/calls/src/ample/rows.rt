//! Rows of some thousand bits.

ghost use Rattle.std.specs.Prelude.{◌≤◌};

use crate::bit_lists::has_bits;
use crate::trouble::{Trouble, expect};
use classify::BitRow;
use std::alloc::Global;

/// The first place, the middle one and the last, in turn.
fn index_of(turn: u32, last: usize) -> usize
    ensures { result ≤ last }
{
    match turn % 3 {
        0 => 0,
        1 => last / 2,
        _ => last,
    }
}

/// Puts a bit into a row and into the list beside it.
fn put(row: &mut BitRow, bits: &mut Vec<bool>, turn: u32) -> Result<(), Trouble> {
    if row.len() != bits.len() {
        return Err(Trouble::OtherAnswer);
    }
    let place = index_of(turn, row.len());
    let bit = turn % 7 < 3;
    row.insert(place, bit)?;
    if bits.insert(place, bit).is_err() {
        return Err(Trouble::NoMemory);
    }
    Ok(())
}

/// Takes a bit out of a row and out of the list beside it.
fn take(row: &mut BitRow, bits: &mut Vec<bool>, turn: u32) -> Result<(), Trouble> {
    if row.len() != bits.len() || row.len() == 0 {
        return Err(Trouble::OtherAnswer);
    }
    let place = index_of(turn, row.len() - 1);
    row.remove(place);
    bits.remove(place);
    Ok(())
}

/// Thousands of bits put in at the front, in the middle and at the end, and taken out there.
pub fn long(alloc: Global) -> Result<(), Trouble> {
    let mut row = BitRow::new(alloc);
    let mut bits = Vec::new(alloc);
    for turn in 0..5000 {
        put(&mut row, &mut bits, turn)?;
    }
    expect(row.len() == 5000 && has_bits(&row, &bits))?;
    for turn in 0..4990 {
        take(&mut row, &mut bits, turn)?;
        if turn % 499 == 0 {
            expect(has_bits(&row, &bits))?;
        }
    }
    expect(row.len() == 10 && has_bits(&row, &bits))
}
