//! Writers into memory that fail at a call.
use fields::{Failure, Fuse, FusedWriter};
use std::alloc::Global;
use std::io::{ErrorKind, Write};
use std::test::Fail;

// Whether a write takes so many of the bytes.
fn takes(writer: &mut FusedWriter, bytes: &[u8], count: usize) -> bool {
    match writer.write(bytes) {
        Ok(taken) => taken == count,
        Err(_) => false,
    }
}

// Whether a flush goes on.
fn flushes(writer: &mut FusedWriter) -> bool {
    writer.flush().is_ok()
}

// Whether a write fails by an error of the kind, or by taking nothing where there is none.
fn fails_by(writer: &mut FusedWriter, bytes: &[u8], kind: Option<ErrorKind>) -> bool {
    match writer.write(bytes) {
        Ok(taken) => taken == 0 && kind.is_none(),
        Err(error) => Some(error.kind()) == kind,
    }
}

// Whether these bytes were written, and this call failed.
fn has(writer: &FusedWriter, bytes: &[u8], failed_at: Option<u32>) -> bool {
    writer.written() == bytes && writer.failed_at() == failed_at
}

// Whether there were so many calls, and so many of them flushes.
fn has_calls(writer: &FusedWriter, calls: u64, flushes: u64) -> bool {
    writer.calls() == calls && writer.flushes() == flushes
}

// Whether the second write fails so and takes nothing, and the third goes on.
fn goes_on(alloc: Global, failure: Failure, kind: Option<ErrorKind>) -> Result<bool, Fail> {
    let room = Vec::with_capacity(alloc, 4)?;
    let mut writer = FusedWriter::new(room, Fuse::failing(2, 1, failure));
    let failed = takes(&mut writer, b"ab", 2) && fails_by(&mut writer, b"cd", kind);
    let kept = has(&writer, b"ab", Some(1));
    let taken = takes(&mut writer, b"cd", 2) && has(&writer, b"abcd", Some(1));
    Ok(failed && kept && taken && has_calls(&writer, 3, 0))
}

#[test]
fn takes_bytes_in_parts_while_there_is_room(rt: HostRuntime) -> Result<(), Fail> {
    let room = Vec::with_capacity(rt.alloc(), 3)?;
    let mut writer = FusedWriter::new(room, Fuse::never(2));
    assert!(rt; takes(&mut writer, b"abcd", 2));
    assert!(rt; flushes(&mut writer));
    assert!(rt; takes(&mut writer, b"cd", 1));
    assert!(rt; takes(&mut writer, b"d", 0));
    assert!(rt; has(&writer, b"abc", None) && has_calls(&writer, 4, 1));
    Ok(())
}

// Each failure, and the kind of the error by which a write fails so, where there is one.
const FAILURES: &[(Failure, Option<ErrorKind>)] = &[
    (Failure::Error, Some(ErrorKind::Other)),
    (Failure::Interrupted, Some(ErrorKind::Interrupted)),
    (Failure::Nothing, None),
];

// The write that fails takes nothing, and the next goes on.
#[test]
fn fails_a_write(rt: HostRuntime) -> Result<(), Fail> {
    for (failure, kind) in FAILURES {
        assert!(rt; goes_on(rt.alloc(), *failure, *kind)?);
    }
    Ok(())
}

// Whether the first flush fails, and the second goes on.
fn flushes_on(alloc: Global, failure: Failure) -> bool {
    let mut writer = FusedWriter::new(Vec::new(alloc), Fuse::failing(2, 0, failure));
    let failed = !flushes(&mut writer) && has(&writer, b"", Some(0));
    failed && flushes(&mut writer) && has_calls(&writer, 2, 2)
}

#[test]
fn fails_a_flush(rt: HostRuntime) {
    for (failure, _) in FAILURES {
        assert!(rt; flushes_on(rt.alloc(), *failure));
    }
}
