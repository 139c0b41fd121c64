//! Rows of bits, beside lists of them.
use classify::BitRow;

/// Whether a row has these bits.
pub fn has_bits(row: &BitRow, bits: &[bool]) -> bool {
    if row.len() != bits.len() {
        return false;
    }
    for place in 0..row.len() {
        if row.get(place) != bits[place] {
            return false;
        }
    }
    true
}
