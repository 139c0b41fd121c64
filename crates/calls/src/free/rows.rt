//! Rows of bits.
use crate::trouble::{Trouble, expect};
use classify::BitRow;
use std::alloc::Global;

/// Puts a bit in the middle of 100.
fn put_bit(row: &mut BitRow) -> Result<(), Trouble> {
    if row.len() != 100 {
        return Err(Trouble::OtherAnswer);
    }
    row.insert(50, true)?;
    Ok(())
}

/// Looks at it, and takes it out.
fn take_bit(row: &mut BitRow) -> Result<(), Trouble> {
    if row.len() != 101 {
        return Err(Trouble::OtherAnswer);
    }
    expect(row.get(50) && !row.get(49) && !row.get(51) && row.get(52))?;
    row.remove(50);
    Ok(())
}

/// `BitRow::insert` where there is room, `remove`, `get` and `len`.
pub fn bit_row(alloc: Global, times: u32) -> Result<(), Trouble> {
    let mut row = BitRow::new(alloc);
    for place in 0..100usize {
        row.insert(row.len(), place % 3 == 0)?;
    }
    for _ in 0..times {
        put_bit(&mut row)?;
        take_bit(&mut row)?;
    }
    Ok(())
}
