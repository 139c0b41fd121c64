//! Writers: how often one is called, and when a tap over it fails. Each function says whether all is as expected.
use fields::{Failure, Fuse, FusedWriter, Tap};
use std::alloc::{AllocError, Global};

/// A tap over a writer with room for so many bytes.
fn tap_of(alloc: Global, room: usize, fuse: Fuse) -> Result<Tap<FusedWriter>, AllocError> {
    Ok(Tap::new(FusedWriter::new(Vec::with_capacity(alloc, room)?, fuse)))
}

/// Whether the writer had so many calls, of which so many were flushes, and took these bytes.
fn took(tap: Tap<FusedWriter>, calls: u64, flushes: u64, bytes: &[u8]) -> bool {
    let device = tap.into_device();
    device.calls() == calls && device.flushes() == flushes && device.written() == bytes
}

/// Nothing is written without a call, even of a writer that would fail.
pub fn nothing(alloc: Global) -> Result<bool, AllocError> {
    let mut tap = tap_of(alloc, 0, Fuse::failing(1, 0, Failure::Error))?;
    let put = tap.put(b"").is_ok();
    let put_again = tap.put(b"").is_ok() && !tap.failed();
    Ok(put && put_again && took(tap, 0, 0, b""))
}

/// Parts of which some are empty: one call for each of the others.
pub fn parts(alloc: Global) -> Result<bool, AllocError> {
    let mut tap = tap_of(alloc, 9, Fuse::never(9))?;
    let put = tap.put_all(&[b"", b"ab", b"", b"c", b""]).is_ok();
    Ok(put && !tap.failed() && took(tap, 2, 0, b"abc"))
}

/// Eight bytes, two a call, where a call fails: the tap fails at that call, and calls no more.
fn fails_once(alloc: Global, fails_at: u32, failure: Failure) -> Result<bool, AllocError> {
    let mut tap = tap_of(alloc, 8, Fuse::failing(2, fails_at, failure))?;
    let put = tap.put(b"abcdefgh").is_err() && tap.failed();
    let put_again = tap.put(b"i").is_err() && tap.put(b"").is_err() && tap.failed();
    let calls = u64::from(fails_at).saturating_add(1);
    match b"abcdefgh".get(..(fails_at as usize).saturating_mul(2)) {
        Some(before) => Ok(put && put_again && took(tap, calls, 0, before)),
        None => Ok(false),
    }
}

/// A write that fails, at each call, in each way.
pub fn failures(alloc: Global) -> Result<bool, AllocError> {
    for failure in [Failure::Interrupted, Failure::Error, Failure::Nothing] {
        for fails_at in 0..4 {
            if !fails_once(alloc, fails_at, failure)? {
                return Ok(false);
            }
        }
    }
    Ok(true)
}

/// A full writer takes no byte, and so the tap fails.
pub fn full(alloc: Global) -> Result<bool, AllocError> {
    let mut tap = tap_of(alloc, 3, Fuse::never(2))?;
    Ok(tap.put(b"abcd").is_err() && tap.failed() && took(tap, 3, 0, b"abc"))
}

/// Each flush of a tap that hasn't failed is one call, and writes nothing.
pub fn flushes(alloc: Global) -> Result<bool, AllocError> {
    let mut tap = tap_of(alloc, 4, Fuse::never(4))?;
    let early = tap.flush().is_ok();
    let first = tap.put(b"ab").is_ok() && tap.flush().is_ok();
    let second = tap.put(b"cd").is_ok() && tap.flush().is_ok() && tap.flush().is_ok();
    Ok(early && first && second && !tap.failed() && took(tap, 6, 4, b"abcd"))
}

/// A flush that fails: the tap fails and calls no more, and what was written stays.
fn flush_fails(alloc: Global, failure: Failure) -> Result<bool, AllocError> {
    let mut tap = tap_of(alloc, 4, Fuse::failing(4, 1, failure))?;
    let put = tap.put(b"ab").is_ok() && !tap.failed();
    let flushed = tap.flush().is_err() && tap.failed();
    let put_again = tap.put(b"cd").is_err() && tap.put(b"").is_err();
    let flushed_again = tap.flush().is_err() && tap.failed();
    Ok(put && flushed && put_again && flushed_again && took(tap, 2, 1, b"ab"))
}

/// A flush after a write that failed calls nothing.
fn flush_follows_failure(alloc: Global, failure: Failure) -> Result<bool, AllocError> {
    let mut tap = tap_of(alloc, 4, Fuse::failing(2, 1, failure))?;
    let put = tap.put(b"abcd").is_err() && tap.failed();
    let flushed = tap.flush().is_err() && tap.failed();
    Ok(put && flushed && took(tap, 2, 0, b"ab"))
}

/// Flushes that fail, and flushes of taps that have failed.
pub fn flush_failures(alloc: Global) -> Result<bool, AllocError> {
    for failure in [Failure::Interrupted, Failure::Error, Failure::Nothing] {
        if !flush_fails(alloc, failure)? || !flush_follows_failure(alloc, failure)? {
            return Ok(false);
        }
    }
    Ok(true)
}

/// 100,000 bytes, to a writer that takes one a call, and to one that takes all.
pub fn long(alloc: Global) -> Result<bool, AllocError> {
    let mut bytes = Vec::new(alloc);
    for place in 0..100_000u32 {
        bytes.push((place % 251) as u8)?;
    }
    for (step, calls) in [(1, 100_000), (1_000_000, 1), (1024, 98)] {
        let mut tap = tap_of(alloc, 100_000, Fuse::never(step))?;
        let put = tap.put(&bytes).is_ok() && !tap.failed();
        if !put || !took(tap, calls, 0, &bytes) {
            return Ok(false);
        }
    }
    Ok(true)
}
