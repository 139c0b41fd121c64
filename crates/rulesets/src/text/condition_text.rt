//! A condition with its place, as text.
use crate::conditions::open_conditions::{OpenConditions, Place};
use crate::text::{bytes_of, put_number};
use fields::{Tap, WriteFailed};
use std::alloc::{AllocError, Global};
use std::io::Write;

// Writes where a condition of a place is asked: ` at INPUT 4`, or ` in INPUT` of two dumps, and ` in INPUT (2)` where the second of its text is meant.
fn put_place<W: Write>(place: Place<'_>, output: &mut Tap<W>) -> Result<(), WriteFailed> {
    let word = if place.number.is_some() {
        b" at ".as_slice()
    } else {
        b" in "
    };
    output.put_all(&[word, place.chain])?;
    if let Some(number) = place.number {
        put_number(b" ", number, b"", output)?;
    }
    match place.nth {
        Some(nth) => put_number(b" (", nth, b")", output),
        None => Ok(()),
    }
}

/// Writes a condition: `limit --limit 3/min at INPUT 4`.
///
/// # Errors
///
/// `WriteFailed` where a write failed.
pub fn put_condition<W: Write>(
    open: &OpenConditions,
    condition: usize,
    output: &mut Tap<W>,
) -> Result<(), WriteFailed> {
    output.put(open.text(condition))?;
    match open.place(condition) {
        Some(place) => put_place(place, output),
        None => Ok(()),
    }
}

/// The bytes of a condition with its place.
///
/// # Errors
///
/// `AllocError` where memory was refused.
pub(crate) fn condition_bytes(
    alloc: Global,
    open: &OpenConditions,
    condition: usize,
) -> Result<Vec<u8>, AllocError> {
    let mut line = Tap::new(Vec::new(alloc));
    let _ = put_condition(open, condition, &mut line);
    bytes_of(line)
}
