//! Rows of which there are more than 16 bits count, and a list of numbers in more than 1,000 blocks.
use crate::trouble::{Trouble, expect};
use bits::{Blocks, TurnedRows};
use std::alloc::Global;

/// How often a row is copied, three times each.
const TURNS: usize = 25_000;

/// How many numbers go into a list.
const NUMBERS: u32 = 150_000;

/// Puts three copies of the last row after it, two at once and one alone.
fn copy_last(rows: &mut TurnedRows) -> Result<(), Trouble> {
    let Some(last) = rows.count().checked_sub(1) else {
        return Err(Trouble::OtherAnswer);
    };
    rows.duplicate_twice(last)?;
    let Some(last) = rows.count().checked_sub(1) else {
        return Err(Trouble::OtherAnswer);
    };
    rows.duplicate(last)?;
    Ok(())
}

/// A row copied until there are 75,001.
pub fn rows(alloc: Global) -> Result<(), Trouble> {
    let mut rows = TurnedRows::with_one_row(alloc)?;
    for _turn in 0..TURNS {
        copy_last(&mut rows)?;
    }
    expect(rows.count() == 3 * TURNS + 1)
}

/// Whether a list has these numbers, from 0 on.
fn has_each(list: &Blocks, count: usize) -> bool {
    for place in 0..list.len() {
        if list.get(place) as usize != place {
            return false;
        }
    }
    list.len() == count
}

/// Numbers put in one after another, each after those before it.
pub fn numbers(alloc: Global) -> Result<(), Trouble> {
    let mut list = Blocks::one(alloc, 0)?;
    for number in 1..NUMBERS {
        let last = list.len();
        list.insert(last, number)?;
    }
    expect(has_each(&list, NUMBERS as usize))
}
