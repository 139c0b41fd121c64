//! How many conditions are taken as open, as a line.
use fields::{Tap, WriteFailed};
use rulesets::{MatchCount, OpenConditions, put_number};
use std::io::Write;

// How many these are together.
fn sum_of(counts: &[MatchCount]) -> usize {
    let mut sum = 0usize;
    for entry in counts {
        sum = sum.saturating_add(entry.count);
    }
    sum
}

/// Writes how many conditions are open, after some bytes: `49 conditions open: limit 47, helper 2`. There is no such line where none is. Where some are of
/// sets, a line with the premise that these stay as they are stands below it.
///
/// # Errors
///
/// `WriteFailed` where a write failed.
pub(crate) fn put_open<W: Write>(
    open: &OpenConditions,
    counts: &[MatchCount],
    before: &[u8],
    output: &mut Tap<W>,
) -> Result<(), WriteFailed> {
    if counts.is_empty() {
        return Ok(());
    }
    let sum = sum_of(counts);
    let behind = if sum == 1 {
        b" condition open:".as_slice()
    } else {
        b" conditions open:"
    };
    put_number(before, sum, behind, output)?;
    for (place, entry) in counts.iter().enumerate() {
        let parted = if place > 0 { b", ".as_slice() } else { b" " };
        output.put_all(&[parted, open.match_name(entry.condition)])?;
        put_number(b" ", entry.count, b"", output)?;
    }
    if open.has_things() {
        output.put_all(&[b"\n", before, b"sets stay as they are while a packet walks"])?;
    }
    output.put(b"\n")
}
