//! The lines of an input or of an output, as they are read.
use crate::fault::Fault;
use std::alloc::Global;

// What was said of it so far.
#[derive(Clone, Copy, PartialEq, Eq, Drop)]
enum Said {
    Unsaid,
    Lines,
    // That it is empty, or that its last line has no newline.
    Whole,
}

/// An input, or an output.
#[derive(Drop)]
pub(crate) struct Side {
    said: Said,
    bytes: Vec<u8>,
}

impl Side {
    /// Of which nothing was said.
    pub(crate) fn new(alloc: Global) -> Side {
        Side {
            said: Said::Unsaid,
            bytes: Vec::new(alloc),
        }
    }

    /// It has no line.
    pub(crate) fn be_empty(&mut self) -> Result<(), Fault> {
        if self.said != Said::Unsaid {
            return Err(Fault::Closed);
        }
        self.said = Said::Whole;
        Ok(())
    }

    /// The bytes, to which those of a line may be put before `end_line`.
    pub(crate) fn begin_line(&mut self) -> Result<&mut Vec<u8>, Fault> {
        if self.said == Said::Whole {
            return Err(Fault::Closed);
        }
        self.said = Said::Lines;
        Ok(&mut self.bytes)
    }

    /// Puts the newline of a line.
    pub(crate) fn end_line(&mut self) -> Result<(), Fault> {
        self.bytes.push(b'\n')?;
        Ok(())
    }

    /// Takes the newline of the last line away.
    pub(crate) fn drop_newline(&mut self) -> Result<(), Fault> {
        if self.said != Said::Lines {
            return Err(Fault::Closed);
        }
        let _ = self.bytes.pop();
        self.said = Said::Whole;
        Ok(())
    }

    /// The bytes, or nothing where nothing was said.
    pub(crate) fn into_bytes(self) -> Option<Vec<u8>> {
        let Side { said, bytes } = self;
        if said == Said::Unsaid {
            return None;
        }
        Some(bytes)
    }
}
