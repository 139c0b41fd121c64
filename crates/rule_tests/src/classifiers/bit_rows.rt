//! Bits of a row, put in and taken out.

use classify::BitRow;
use std::test::Fail;

#[test]
fn bits_move(rt: HostRuntime) -> Result<(), Fail> {
    let mut row = BitRow::new(rt.alloc());
    for bit in [true, false, true] {
        row.insert(row.len(), bit)?;
    }
    assert!(rt; row.len() >= 1);
    row.insert(1, true)?;
    for (place, bit) in [true, true, false, true].iter().enumerate() {
        assert!(rt; place < row.len());
        assert_eq!(rt; row.get(place), *bit, "{place}");
    }
    assert!(rt; row.len() == 4);
    row.remove(0);
    for (place, bit) in [true, false, true].iter().enumerate() {
        assert!(rt; place < row.len());
        assert_eq!(rt; row.get(place), *bit, "{place}");
    }
    Ok(())
}

#[test]
fn a_bit_moves_into_the_next_word(rt: HostRuntime) -> Result<(), Fail> {
    let mut row = BitRow::new(rt.alloc());
    for place in 0..64 {
        row.insert(row.len(), place == 63)?;
    }
    row.insert(0, false)?;
    assert_eq!(rt; row.len(), 65);
    for place in 0..row.len() {
        assert_eq!(rt; row.get(place), place == 64, "{place}");
    }
    Ok(())
}
