//! Readers over memory that fail at a call.
use fields::{Failure, Fuse, FusedReader};
use std::io::{BufRead, ErrorKind, Read};
use std::process::Abort;

// Whether the reader shows just these bytes.
fn shows(reader: &mut FusedReader<'_>, bytes: &[u8]) -> bool {
    match reader.fill_buf() {
        Ok(shown) => shown == bytes,
        Err(_) => false,
    }
}

// Whether a read gives so many bytes.
fn gives(reader: &mut FusedReader<'_>, buf: &mut [u8], count: usize) -> bool {
    match reader.read(buf) {
        Ok(given) => given == count,
        Err(_) => false,
    }
}

// The next two bytes come, and one more where there is room for one.
fn reads_on(rt: &impl Abort, reader: &mut FusedReader<'_>) {
    let mut buf = [0; 4];
    assert!(rt; gives(reader, &mut buf, 2));
    assert!(rt; buf.as_slice() == b"bc\0\0".as_slice());
    assert!(rt; gives(reader, &mut buf[..1], 1));
    assert!(rt; buf.as_slice() == b"dc\0\0".as_slice());
}

// Whether no byte is shown, nor given where there is room for four.
fn is_at_end(reader: &mut FusedReader<'_>) -> bool {
    shows(reader, b"") && gives(reader, &mut [0; 4], 0)
}

// Whether the reader fails by an error of the kind.
fn fails_by(reader: &mut FusedReader<'_>, kind: ErrorKind) -> bool {
    match reader.fill_buf() {
        Ok(_) => false,
        Err(error) => error.kind() == kind,
    }
}

// Whether there were so many calls, and this one failed.
fn has_calls(reader: &FusedReader<'_>, calls: u64, failed_at: Option<u32>) -> bool {
    reader.calls() == calls && reader.failed_at() == failed_at
}

// Whether the second call fails so and takes nothing, and the third goes on.
fn goes_on(failure: Failure, kind: ErrorKind) -> bool {
    let mut reader = FusedReader::new(b"abc", Fuse::failing(2, 1, failure));
    let unfailed = shows(&mut reader, b"ab") && has_calls(&reader, 1, None);
    let failed = fails_by(&mut reader, kind) && has_calls(&reader, 2, Some(1));
    let shown = shows(&mut reader, b"ab") && has_calls(&reader, 3, Some(1));
    unfailed && failed && shown
}

// A call shows at most so many bytes, or gives at most so many and at most as many as it is lent room for.
#[test]
fn gives_bytes_in_chunks(rt: HostRuntime) {
    let mut reader = FusedReader::new(b"abcdef", Fuse::never(2));
    assert!(rt; shows(&mut reader, b"ab"));
    reader.consume(1);
    reads_on(&rt, &mut reader);
    assert!(rt; reader.rest() == b"ef".as_slice());
    assert!(rt; has_calls(&reader, 3, None));
    reader.consume(9);
    assert!(rt; is_at_end(&mut reader));
}

#[test]
fn gives_a_byte_where_none_is_asked(rt: HostRuntime) {
    let mut reader = FusedReader::new(b"ab", Fuse::never(0));
    assert!(rt; shows(&mut reader, b"a"));
}

// Each failure, and the kind of the error by which a read fails so.
const FAILURES: &[(Failure, ErrorKind)] = &[
    (Failure::Error, ErrorKind::Other),
    (Failure::Interrupted, ErrorKind::Interrupted),
    (Failure::Nothing, ErrorKind::Other),
];

// The call that fails takes nothing, and the next goes on.
#[test]
fn fails_once(rt: HostRuntime) {
    for (failure, kind) in FAILURES {
        assert!(rt; goes_on(*failure, *kind));
    }
}
