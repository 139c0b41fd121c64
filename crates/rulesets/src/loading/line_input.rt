//! The lines of an input.
ghost use Rattle.std.specs.Prelude.{◌≤◌, vec_capacity};

use fields::{LineRead, ReadFailed, Tap};
use std::alloc::{AllocError, Global};
use std::io::BufRead;

/// The longest line, in bytes without its newline.
pub(crate) const LINE_MAX: usize = 10240;

/// The line at hand, with room for the longest.
#[derive(Drop)]
pub struct Line {
    bytes: Vec<u8>,
    ghost room: { 10240 ≤ vec_capacity bytes },
}

impl Line {
    /// Before the first line.
    ///
    /// # Errors
    ///
    /// `AllocError` where memory was refused.
    pub fn new(alloc: Global) -> Result<Line, AllocError> {
        Ok(Line {
            bytes: Vec::with_capacity(alloc, LINE_MAX)?,
        })
    }

    /// Its bytes, without a newline; they are lent.
    pub fn bytes(&self) -> &[u8] {
        self.bytes.as_slice()
    }

    /// Reads the next line of an input.
    ///
    /// # Errors
    ///
    /// `ReadFailed` where the input failed.
    pub fn read_from<R: BufRead>(&mut self, input: &mut Tap<R>) -> Result<LineRead, ReadFailed> {
        input.read_line(LINE_MAX, &mut self.bytes)
    }
}
