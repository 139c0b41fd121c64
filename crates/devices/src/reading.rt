//! Readers: how often one is asked, what is read, and when a tap over it fails. Each function says whether all is as
//! expected.
use fields::{Failure, Fuse, FusedReader, LineEnd, LineRead, ReadFailed, Tap};
use std::alloc::{AllocError, Global};
use std::io::BufRead;

/// The most bytes of a line.
pub const MOST: usize = 8;

/// The next line. A line without room for it would fail.
fn next_line<R: BufRead>(tap: &mut Tap<R>, line: &mut Vec<u8>) -> Result<LineRead, ReadFailed> {
    if line.capacity() < MOST {
        return Err(ReadFailed);
    }
    tap.read_line(MOST, line)
}

/// Whether the next line ends so, and is this one: none where it is too long.
pub fn is_next<R: BufRead>(
    tap: &mut Tap<R>,
    line: &mut Vec<u8>,
    end: LineEnd,
    text: Option<&[u8]>,
) -> bool {
    match next_line(tap, line) {
        Err(_) => false,
        Ok(read) => match text {
            None => read.end == end && read.too_long,
            Some(text) => read.end == end && !read.too_long && line.as_slice() == text,
        },
    }
}

/// Each `fill` asks the reader once, and `eat` asks nothing.
pub fn asked_once() -> bool {
    let mut tap = Tap::new(FusedReader::new(b"abc", Fuse::never(2)));
    let first = tap.fill(false) == Ok(b"ab");
    let again = tap.fill(false) == Ok(b"ab");
    tap.eat(2);
    let last = tap.fill(false) == Ok(b"c");
    first && again && last && !tap.failed() && tap.into_device().calls() == 3
}

/// A reader that fails at its second call isn't asked again, though it would go on.
pub fn failures() -> bool {
    for failure in [Failure::Interrupted, Failure::Error] {
        let mut tap = Tap::new(FusedReader::new(b"abc", Fuse::failing(2, 1, failure)));
        let first = tap.fill(false).is_ok() && !tap.failed();
        let failed = tap.fill(false).is_err() && tap.failed();
        let again = tap.fill(false).is_err() && tap.failed();
        if !(first && failed && again && tap.into_device().calls() == 2) {
            return false;
        }
    }
    true
}

/// The end of the input, met again and again, is no failure.
pub fn end(alloc: Global) -> Result<bool, AllocError> {
    let mut line = Vec::with_capacity(alloc, MOST)?;
    for text in [b"".as_slice(), b"ab\n"] {
        let mut tap = Tap::new(FusedReader::new(text, Fuse::never(1)));
        if !text.is_empty() && !is_next(&mut tap, &mut line, LineEnd::Newline, Some(b"ab")) {
            return Ok(false);
        }
        for _ in 0..3 {
            let at_end = is_next(&mut tap, &mut line, LineEnd::Nothing, Some(b""));
            if !at_end || tap.fill(false) != Ok(b"") || tap.failed() {
                return Ok(false);
            }
        }
    }
    Ok(true)
}

/// So many bytes of one kind between two texts.
fn bytes_of(
    alloc: Global,
    before: &[u8],
    count: usize,
    after: &[u8],
) -> Result<Vec<u8>, AllocError> {
    let mut bytes = Vec::from_slice(alloc, before)?;
    for _ in 0..count {
        bytes.push(b'x')?;
    }
    bytes.extend_from_slice(after)?;
    Ok(bytes)
}

/// A line that is too long, shown so many bytes at a time, between two others; and one at the end, without a newline.
fn is_passed(alloc: Global, count: usize, step: usize) -> Result<bool, AllocError> {
    let mut line = Vec::with_capacity(alloc, MOST)?;
    let bytes = bytes_of(alloc, b"ab\n", count, b"\ncdefghij\n\nk")?;
    let mut tap = Tap::new(FusedReader::new(&bytes, Fuse::never(step)));
    let before = is_next(&mut tap, &mut line, LineEnd::Newline, Some(b"ab"));
    let long = is_next(&mut tap, &mut line, LineEnd::Newline, None) && !tap.failed();
    let after = is_next(&mut tap, &mut line, LineEnd::Newline, Some(b"cdefghij"));
    let empty = is_next(&mut tap, &mut line, LineEnd::Newline, Some(b""));
    let last = is_next(&mut tap, &mut line, LineEnd::Input, Some(b"k")) && !tap.failed();
    let bytes = bytes_of(alloc, b"ab\n", count, b"")?;
    let mut tap = Tap::new(FusedReader::new(&bytes, Fuse::never(step)));
    let first = is_next(&mut tap, &mut line, LineEnd::Newline, Some(b"ab"));
    let open = is_next(&mut tap, &mut line, LineEnd::Input, None) && !tap.failed();
    let end = is_next(&mut tap, &mut line, LineEnd::Nothing, Some(b"")) && !tap.failed();
    Ok(before && long && after && empty && last && first && open && end)
}

/// Lines that are too long, by one byte and by many, over one chunk and over many thousands.
pub fn too_long(alloc: Global) -> Result<bool, AllocError> {
    for count in [9, 10, 100, 50_000] {
        for step in [1, 2, 3, 7, 8, 9, 4096, 1_000_000] {
            if !is_passed(alloc, count, step)? {
                return Ok(false);
            }
        }
    }
    Ok(true)
}

/// A read that fails inside a line that is too long: it is reported, and the reader isn't asked again.
pub fn failure_in_a_long_line(alloc: Global) -> Result<bool, AllocError> {
    let mut line = Vec::with_capacity(alloc, MOST)?;
    let bytes = bytes_of(alloc, b"", 100, b"\nab\n")?;
    for fails_at in 0..20 {
        let mut tap = Tap::new(FusedReader::new(
            &bytes,
            Fuse::failing(5, fails_at, Failure::Error),
        ));
        let failed = next_line(&mut tap, &mut line).is_err() && tap.failed();
        let again = next_line(&mut tap, &mut line).is_err() && tap.fill(false).is_err();
        if !(failed
            && again
            && tap.into_device().calls() == u64::from(fails_at).saturating_add(1))
        {
            return Ok(false);
        }
    }
    Ok(true)
}

/// A million short lines, read to their end.
pub fn many_lines(alloc: Global) -> Result<bool, AllocError> {
    let mut line = Vec::with_capacity(alloc, MOST)?;
    let mut bytes = Vec::with_capacity(alloc, 3_000_000)?;
    for _ in 0..1_000_000u32 {
        bytes.extend_from_slice(b"ab\n")?;
    }
    let mut tap = Tap::new(FusedReader::new(&bytes, Fuse::never(4096)));
    for _ in 0..1_000_000u32 {
        if !is_next(&mut tap, &mut line, LineEnd::Newline, Some(b"ab")) {
            return Ok(false);
        }
    }
    Ok(is_next(&mut tap, &mut line, LineEnd::Nothing, Some(b"")) && !tap.failed())
}
