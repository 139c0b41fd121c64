//! Each call of a device failing in turn: a tap has failed exactly where its device has, and calls it no more. Each
//! function says whether all is as expected.
use crate::reading;
use fields::{Failure, Fuse, FusedReader, FusedWriter, LineEnd, Tap};
use std::alloc::{AllocError, Global};

/// How many bytes a call moves at most.
const STEPS: [usize; 4] = [1, 2, 7, 64];

/// More calls than a run makes.
const CALLS: u32 = 1000;

/// Lines of which the fourth is too long, and the last lacks its newline.
const LINES: &[u8] =
    b"ab\n\ncdefghij\nk23456789012345678901234567890123456789012345678901234567890123456789\nl";

/// The lines, as they are read, and the end of the input.
const READ: [(LineEnd, Option<&[u8]>); 6] = [
    (LineEnd::Newline, Some(b"ab")),
    (LineEnd::Newline, Some(b"")),
    (LineEnd::Newline, Some(b"cdefghij")),
    (LineEnd::Newline, None),
    (LineEnd::Input, Some(b"l")),
    (LineEnd::Nothing, Some(b"")),
];

/// What is written, a flush after each.
const TEXTS: [&[u8]; 4] = [
    b"abc",
    b"",
    b"d23456789012345678901234567890123456789012345678901234567890123456789",
    b"e",
];

/// All of it.
const WHOLE: &[u8] = b"abcd23456789012345678901234567890123456789012345678901234567890123456789e";

/// Whether a tap has failed exactly where its device has, and has called it no more.
fn agrees(failed: bool, failed_at: Option<u32>, calls: u64) -> bool {
    match failed_at {
        Some(call) => failed && calls == u64::from(call).saturating_add(1),
        None => !failed,
    }
}

/// Whether the call failed in so many reads of lines, if all is as expected.
fn reads_failed(line: &mut Vec<u8>, count: usize, fuse: Fuse) -> Option<bool> {
    let mut tap = Tap::new(FusedReader::new(LINES, fuse));
    for (end, text) in READ.iter().take(count) {
        if !reading::is_next(&mut tap, line, *end, *text) && !tap.failed() {
            return None;
        }
    }
    let failed = tap.failed();
    let device = tap.into_device();
    agrees(failed, device.failed_at(), device.calls()).then_some(failed)
}

/// So many reads of lines, where each call fails in turn, until none does.
fn each_read(line: &mut Vec<u8>, count: usize, most: usize, failure: Failure) -> bool {
    for call in 0..CALLS {
        match reads_failed(line, count, Fuse::failing(most, call, failure)) {
            Some(true) => {}
            Some(false) => return true,
            None => return false,
        }
    }
    false
}

/// Reads of no line up to all of them, in chunks of each size.
pub fn reads(alloc: Global) -> Result<bool, AllocError> {
    let mut line = Vec::with_capacity(alloc, reading::MOST)?;
    for failure in [Failure::Interrupted, Failure::Error] {
        for most in STEPS {
            for count in 0..=READ.len() {
                if !each_read(&mut line, count, most, failure) {
                    return Ok(false);
                }
            }
        }
    }
    Ok(true)
}

/// Whether the call failed in so many texts written and flushed, if all is as expected.
fn writes_failed(room: Vec<u8>, count: usize, fuse: Fuse) -> Option<bool> {
    let mut tap = Tap::new(FusedWriter::new(room, fuse));
    let mut length = 0usize;
    for text in TEXTS.iter().take(count) {
        let put = tap.put(text).is_ok() && tap.flush().is_ok();
        if put == tap.failed() {
            return None;
        }
        length = length.saturating_add(text.len());
    }
    let failed = tap.failed();
    let device = tap.into_device();
    let written = device.written();
    let whole = written.len() == length || failed && written.len() < length;
    let as_expected = whole && WHOLE.starts_with(written);
    (as_expected && agrees(failed, device.failed_at(), device.calls())).then_some(failed)
}

/// So many texts written and flushed, where each call fails in turn, until none does.
fn each_write(
    alloc: Global,
    count: usize,
    most: usize,
    failure: Failure,
) -> Result<bool, AllocError> {
    for call in 0..CALLS {
        let room = Vec::with_capacity(alloc, WHOLE.len())?;
        match writes_failed(room, count, Fuse::failing(most, call, failure)) {
            Some(true) => {}
            Some(false) => return Ok(true),
            None => return Ok(false),
        }
    }
    Ok(false)
}

/// No text written up to all of them, in parts of each size.
pub fn writes(alloc: Global) -> Result<bool, AllocError> {
    for failure in [Failure::Interrupted, Failure::Error, Failure::Nothing] {
        for most in STEPS {
            for count in 0..=TEXTS.len() {
                if !each_write(alloc, count, most, failure)? {
                    return Ok(false);
                }
            }
        }
    }
    Ok(true)
}
