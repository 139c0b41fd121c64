//! What is written of conditions and numbers, and lines that are written in memory.
pub(crate) mod condition_text;

use fields::{Tap, WriteFailed};
use itoa::Buffer;
use std::alloc::AllocError;
use std::io::Write;

/// Writes a number between texts.
///
/// # Errors
///
/// `WriteFailed` where a write failed.
pub fn put_number<W: Write>(
    before: &[u8],
    number: usize,
    behind: &[u8],
    output: &mut Tap<W>,
) -> Result<(), WriteFailed> {
    let mut digits = Buffer::new();
    output.put_all(&[before, digits.format(number).as_bytes(), behind])
}

/// The bytes of a line. A tap over memory has failed where memory was refused, and nowhere else.
///
/// # Errors
///
/// `AllocError` where memory was refused.
pub fn bytes_of(line: Tap<Vec<u8>>) -> Result<Vec<u8>, AllocError> {
    if line.failed() {
        return Err(AllocError);
    }
    Ok(line.into_device())
}
