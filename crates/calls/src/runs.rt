//! Runs of a session: a second one where a read failed in the first, and when replies are handed on.
use crate::trouble::{Trouble, expect};
use fields::{Failure, Fuse, FusedReader, FusedWriter, Tap};
use sessions::{RunFault, Session};
use std::alloc::Global;

/// What a run over a reader answers, and its writer after it.
fn run(
    alloc: Global,
    session: &mut Session,
    input: &[u8],
    reads: Fuse,
) -> Result<(Result<u8, RunFault>, FusedWriter), Trouble> {
    let room = Vec::with_capacity(alloc, 512)?;
    let mut reader = Tap::new(FusedReader::new(input, reads));
    let mut writer = Tap::new(FusedWriter::new(room, Fuse::never(usize::MAX)));
    let answer = session.run(&mut reader, &mut writer);
    Ok((answer, writer.into_device()))
}

/// Compares what a run answers and writes.
fn expect_run(
    alloc: Global,
    session: &mut Session,
    input: &[u8],
    reads: Fuse,
    due: (Result<u8, RunFault>, &[u8]),
) -> Result<(), Trouble> {
    let (answer, writer) = run(alloc, session, input, reads)?;
    expect(answer == due.0 && writer.written() == due.1)
}

/// The lines before a read that fails, what they write; and a second run: its lines, what they write, and its status.
type Row = (
    &'static [u8],
    &'static [u8],
    &'static [u8],
    &'static [u8],
    u8,
);

/// A restore that is given up, and one that a fault ended before: its end line is none for the second run.
const ROWS: [Row; 2] = [
    (
        b"iptables -A INPUT -j DROP\niptables-restore <<E\n*filter\n:INPUT ACCEPT [0:0]\n\
        -A INPUT -s 1.2.3.4 -j ACCEPT\n",
        b"",
        b"iptables -S INPUT\n",
        b"-P INPUT ACCEPT\n-A INPUT -j DROP\n",
        0,
    ),
    (
        b"iptables -A INPUT -j DROP\niptables-restore <<E\n*filter\n:INPUT ACCEPT [0:0]\n\
        -A INPUT -s 1.2.3.4 -j ACCEPT\n-A INPUT -j nowhere\n",
        b"line 6: T11 target chain missing\n",
        b"E\niptables -S INPUT",
        b"line 1: S1 unknown line\n-P INPUT ACCEPT\n-A INPUT -j DROP\n",
        2,
    ),
];

/// Gives lines byte by byte, and fails after them.
fn failing_after(lines: &[u8]) -> Result<Fuse, Trouble> {
    match u32::try_from(lines.len()) {
        Ok(count) => Ok(Fuse::failing(1, count, Failure::Error)),
        Err(_) => Err(Trouble::OtherAnswer),
    }
}

/// `Session::run`, after a run in which a read failed.
pub fn after_a_failed_read(alloc: Global) -> Result<(), Trouble> {
    for (lines, written, later, shown, status) in ROWS {
        let mut session = Session::new(alloc)?;
        let failed = (Err(RunFault::ReadFailed), written);
        expect_run(alloc, &mut session, lines, failing_after(lines)?, failed)?;
        let never = Fuse::never(usize::MAX);
        expect_run(alloc, &mut session, later, never, (Ok(status), shown))?;
    }
    Ok(())
}

/// Replies are handed on where there are some, and never without bytes: five lines that come byte by byte, of which one has
/// no reply.
pub fn flushes(alloc: Global) -> Result<(), Trouble> {
    let input =
        b"iptables -P INPUT DROP\npacket INPUT src=1.1.1.1 dst=2.2.2.2 proto=47\niptables -S INPUT\n\
        packet OUTPUT src=1.1.1.1 dst=2.2.2.2 proto=47\niptables -S OUTPUT\n";
    let mut session = Session::new(alloc)?;
    let (answer, writer) = run(alloc, &mut session, input, Fuse::never(1))?;
    expect(answer == Ok(0) && writer.flushes() == 4)
}
