//! Taps over readers and writers.
use fields::{Failure, Fuse, FusedReader, FusedWriter, LineEnd, LineRead, ReadFailed, Tap};
use std::alloc::{AllocError, Global};
use std::io::{BufRead, Write};
use std::process::Abort;
use std::test::Fail;

// Whether the tap shows just these bytes.
fn shows(tap: &mut Tap<&[u8]>, bytes: &[u8]) -> bool {
    tap.fill(false) == Ok(bytes)
}

#[test]
fn shows_and_eats(rt: HostRuntime) {
    let mut tap = Tap::new(b"abc".as_slice());
    assert!(rt; shows(&mut tap, b"abc"));
    tap.eat(1);
    assert!(rt; shows(&mut tap, b"bc"));
    assert!(rt; !tap.failed());
}

// Whether bytes are left of those that were shown, before they are taken and after.
#[test]
fn has_more_until_all_is_eaten(rt: HostRuntime) {
    let mut tap = Tap::new(b"abc".as_slice());
    assert!(rt; !tap.has_more());
    assert!(rt; shows(&mut tap, b"abc") && tap.has_more());
    tap.eat(2);
    assert!(rt; tap.has_more());
    tap.eat(1);
    assert!(rt; !tap.has_more());
    assert!(rt; shows(&mut tap, b"") && !tap.has_more());
}

// A tap is late once it was asked for more than it shows while answers are withheld.
#[test]
fn is_late_where_answers_are_withheld(rt: HostRuntime) {
    let mut tap = Tap::new(b"abc".as_slice());
    assert!(rt; tap.fill(false).is_ok() && tap.fill(true).is_ok() && !tap.late());
    tap.eat(3);
    assert!(rt; tap.fill(true).is_ok() && tap.late());
    assert!(rt; tap.fill(false).is_ok() && tap.late());
}

// The next line, for which there has to be room.
fn next_line<R: BufRead>(
    rt: &impl Abort,
    tap: &mut Tap<R>,
    most: usize,
    line: &mut Vec<u8>,
) -> Result<LineRead, ReadFailed> {
    assert!(rt; most <= line.capacity());
    tap.read_line(most, line)
}

// Whether no line is read, nor any byte shown.
fn stays_failed_after(rt: &impl Abort, tap: &mut Tap<FusedReader<'_>>, line: &mut Vec<u8>) -> bool {
    tap.failed() && tap.fill(false).is_err() && next_line(rt, tap, 10, line).is_err()
}

#[test]
fn stays_failed(rt: HostRuntime) -> Result<(), Fail> {
    let mut tap = Tap::new(FusedReader::new(b"ab", Fuse::failing(2, 1, Failure::Error)));
    let mut line = Vec::with_capacity(rt.alloc(), 10)?;
    assert!(rt; next_line(&rt, &mut tap, 10, &mut line).is_err());
    assert!(rt; stays_failed_after(&rt, &mut tap, &mut line));
    assert!(rt; tap.into_device().calls() == 2);
    Ok(())
}

// Compares the next line and how it ends.
fn reads(
    rt: &impl Abort,
    tap: &mut Tap<&[u8]>,
    line: &mut Vec<u8>,
    bytes: &[u8],
    end: LineEnd,
) -> Result<(), Fail> {
    let read = next_line(rt, tap, 10, line)?;
    assert!(rt; read.end == end && line.as_slice() == bytes);
    Ok(())
}

#[test]
fn reads_lines(rt: HostRuntime) -> Result<(), Fail> {
    let mut tap = Tap::new(b"ab\nc".as_slice());
    let mut line = Vec::with_capacity(rt.alloc(), 10)?;
    reads(&rt, &mut tap, &mut line, b"ab", LineEnd::Newline)?;
    reads(&rt, &mut tap, &mut line, b"c", LineEnd::Input)
}

// The next part of a line of ten bytes at most.
fn next_part(
    rt: &impl Abort,
    tap: &mut Tap<FusedReader<'_>>,
    line: &mut Vec<u8>,
) -> Result<Option<LineRead>, ReadFailed> {
    assert!(rt; 10 <= line.capacity() && line.len() <= 10);
    let mut too_long = false;
    tap.read_part(10, line, &mut too_long, false)
}

// A line that its reader shows in parts, and the beginning of the next.
#[test]
fn reads_a_line_in_parts(rt: HostRuntime) -> Result<(), Fail> {
    let mut tap = Tap::new(FusedReader::new(b"abc\nd", Fuse::never(3)));
    let mut line = Vec::with_capacity(rt.alloc(), 10)?;
    assert!(rt; next_part(&rt, &mut tap, &mut line)?.is_none() && !tap.has_more());
    let read = next_part(&rt, &mut tap, &mut line)?;
    assert!(rt;
        matches!(
            read,
            Some(LineRead {
                end: LineEnd::Newline,
                too_long: false
            })
        )
    );
    assert!(rt; line.as_slice() == b"abc".as_slice() && tap.has_more());
    Ok(())
}

// Compares whether the next line is too long for three bytes of room, and how it ends.
fn ends(
    rt: &impl Abort,
    tap: &mut Tap<&[u8]>,
    line: &mut Vec<u8>,
    too_long: bool,
    end: LineEnd,
) -> Result<(), Fail> {
    let read = next_line(rt, tap, 3, line)?;
    assert!(rt; read.too_long == too_long && read.end == end);
    Ok(())
}

// A line of as many bytes as there is room for is read, and one of a byte more is said to be too long.
#[test]
fn reports_long_lines(rt: HostRuntime) -> Result<(), Fail> {
    let mut tap = Tap::new(b"abc\nabcd\nab".as_slice());
    let mut line = Vec::with_capacity(rt.alloc(), 3)?;
    ends(&rt, &mut tap, &mut line, false, LineEnd::Newline)?;
    assert!(rt; line.as_slice() == b"abc".as_slice());
    ends(&rt, &mut tap, &mut line, true, LineEnd::Newline)?;
    ends(&rt, &mut tap, &mut line, false, LineEnd::Input)?;
    ends(&rt, &mut tap, &mut line, false, LineEnd::Nothing)
}

// Whether the tap takes all of the bytes.
fn puts<W: Write>(tap: &mut Tap<W>, bytes: &[u8]) -> bool {
    tap.put(bytes).is_ok()
}

// Whether the tap's device hands on what it holds back.
fn flushes<W: Write>(tap: &mut Tap<W>) -> bool {
    tap.flush().is_ok()
}

#[test]
fn writes_all(rt: HostRuntime) {
    let mut tap = Tap::new(Vec::new(rt.alloc()));
    assert!(rt; puts(&mut tap, b"ab"));
    assert!(rt; tap.put_all(&[b"c", b"", b"de"]).is_ok());
    assert!(rt; !tap.failed());
    assert!(rt; tap.into_device().as_slice() == b"abcde".as_slice());
}

// A tap over a writer with room for so many bytes.
fn tap_over(alloc: Global, room: usize, fuse: Fuse) -> Result<Tap<FusedWriter>, AllocError> {
    let held = Vec::with_capacity(alloc, room)?;
    Ok(Tap::new(FusedWriter::new(held, fuse)))
}

#[test]
fn write_of_nothing_fails(rt: HostRuntime) -> Result<(), Fail> {
    let mut tap = tap_over(rt.alloc(), 6, Fuse::failing(2, 1, Failure::Nothing))?;
    assert!(rt; puts(&mut tap, b"ab"));
    assert!(rt; !puts(&mut tap, b"cd"));
    assert!(rt; tap.failed());
    assert!(rt; !puts(&mut tap, b"ef"));
    assert!(rt; tap.into_device().calls() == 2);
    Ok(())
}

// A flush that fails makes the tap fail, which leaves what was written and calls no more.
#[test]
fn flush_that_fails(rt: HostRuntime) -> Result<(), Fail> {
    let mut tap = tap_over(rt.alloc(), 4, Fuse::failing(2, 2, Failure::Error))?;
    assert!(rt; puts(&mut tap, b"ab") && flushes(&mut tap));
    assert!(rt; !flushes(&mut tap) && tap.failed());
    assert!(rt; !puts(&mut tap, b"cd") && !flushes(&mut tap));
    let device = tap.into_device();
    assert!(rt; device.written() == b"ab".as_slice() && device.calls() == 3);
    Ok(())
}
