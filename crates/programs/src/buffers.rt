//! Buffered readers and writers.
ghost use Rattle.std.specs.Prelude.{IfOk};
ghost use Rattle.programs.specs.Buffers.{Reads, Writes};

use fields::Tap;
use std::alloc::{AllocError, Global};
use std::io::{BufReader, BufWriter, Read, Write};

// The size of a buffer, in bytes.
const BUFFER: usize = 65536;

/// Reads through a buffer. Nothing is read yet.
///
/// # Errors
///
/// `AllocError` where the memory of the buffer was refused.
pub fn buffered_input<R: Read + Drop>(
    alloc: Global,
    reader: R,
) -> Result<Tap<BufReader<R>>, AllocError>
    ensures { IfOk result (Reads reader) }
{
    match BufReader::with_capacity(alloc, BUFFER, reader) {
        Ok(reader) => Ok(Tap::new(reader)),
        Err(_) => Err(AllocError),
    }
}

/// Writes through a buffer. Nothing is written yet.
///
/// # Errors
///
/// `AllocError` where the memory of the buffer was refused.
pub fn buffered_output<W: Write + Drop>(
    alloc: Global,
    writer: W,
) -> Result<Tap<BufWriter<W>>, AllocError>
    ensures { IfOk result (Writes writer) }
{
    match BufWriter::with_capacity(alloc, BUFFER, writer) {
        Ok(writer) => Ok(Tap::new(writer)),
        Err(_) => Err(AllocError),
    }
}

/// Drops the buffer of a writer without writing what is left in it. After a flush that is only what a failed write left, and it isn't
/// written again.
pub fn let_go<W: Write + Drop>(output: Tap<BufWriter<W>>) {
    let (_writer, _unwritten) = output.into_device().into_parts();
}
