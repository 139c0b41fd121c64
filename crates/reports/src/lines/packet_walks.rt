//! What becomes of each of some packets, by answers, as lines.
use crate::lines::condition_text::put_holding;
use crate::lines::open_counts::put_open;
use crate::lines::outcomes::put_decider;
use crate::lines::verdict_line::put_verdict;
use audits::{Branch, GivenPacket, PacketWalks};
use fields::{Tap, WriteFailed};
use rulesets::{Dump, MatchCount, OpenConditions};
use std::io::Write;
use table::{Step, Verdict};

/// Writes what becomes of a packet: `ACCEPT by INPUT 3`.
///
/// # Errors
///
/// `WriteFailed` where a write failed.
pub(crate) fn put_end<W: Write>(
    dump: &Dump,
    verdict: Verdict,
    by: Option<Step>,
    output: &mut Tap<W>,
) -> Result<(), WriteFailed> {
    put_verdict(dump.given(verdict, by), output)?;
    if verdict == Verdict::TooLong {
        return Ok(());
    }
    output.put(b" by ")?;
    put_decider(dump, by, output)
}

// Whether no condition has to hold for a branch.
fn is_bare(branch: &Branch) -> bool {
    for need in branch.given.as_slice() {
        if !need.inverted {
            return false;
        }
    }
    true
}

// Whether no condition has to hold for one of some branches.
fn are_bare(branches: &[Branch]) -> bool {
    for branch in branches {
        if is_bare(branch) {
            return true;
        }
    }
    false
}

// Writes the conditions of which those of one branch have to hold: `if addrtype --dst-type LOCAL or addrtype --dst-type BROADCAST: `.
fn put_conditions<W: Write>(
    open: &OpenConditions,
    branches: &[Branch],
    output: &mut Tap<W>,
) -> Result<(), WriteFailed> {
    for (place, branch) in branches.iter().enumerate() {
        output.put(if place > 0 {
            b" or ".as_slice()
        } else {
            b"if "
        })?;
        put_holding(open, branch.given.as_slice(), output)?;
    }
    output.put(b": ")
}

// Writes branches that end alike.
fn put_alike<W: Write>(
    dump: &Dump,
    open: &OpenConditions,
    branches: &[Branch],
    output: &mut Tap<W>,
) -> Result<(), WriteFailed> {
    let Some(first) = branches.first() else {
        return Ok(());
    };
    if !are_bare(branches) {
        put_conditions(open, branches, output)?;
    }
    put_end(dump, first.verdict, first.by, output)
}

// How many branches, the first among them, end as it does.
fn count_alike(branches: &[Branch]) -> usize {
    let Some(first) = branches.first() else {
        return 0;
    };
    let mut count = 0usize;
    for branch in branches {
        if !first.ends_as(branch) {
            return count;
        }
        count = count.saturating_add(1);
    }
    count
}

// Writes branches, of which the first whose conditions hold is right. Neighbours that end alike stand together.
fn put_branches<W: Write>(
    dump: &Dump,
    open: &OpenConditions,
    branches: &[Branch],
    output: &mut Tap<W>,
) -> Result<(), WriteFailed> {
    let mut rest = branches;
    let mut before = b"  ".as_slice();
    for _ in 0..branches.len() {
        let count = count_alike(rest);
        if count == 0 || count > rest.len() {
            break;
        }
        let (alike, others) = rest.split_at(count);
        output.put(before)?;
        put_alike(dump, open, alike, output)?;
        before = b"; else ";
        rest = others;
    }
    output.put(b"\n")
}

/// Writes each packet's line, and what becomes of it: `  if limit --limit 3/min at INPUT 4: ACCEPT by INPUT 4; else DROP by policy`.
///
/// # Errors
///
/// `WriteFailed` where a write failed.
pub(crate) fn put_packets<W: Write>(
    dump: &Dump,
    open: &OpenConditions,
    packets: &[GivenPacket],
    found: &PacketWalks,
    counts: &[MatchCount],
    output: &mut Tap<W>,
) -> Result<(), WriteFailed> {
    for (given, branches) in packets.iter().zip(found.branches.iter()) {
        output.put_all(&[given.line.as_slice(), b"\n"])?;
        match branches {
            Some(branches) => put_branches(dump, open, branches.as_slice(), output)?,
            None => output.put(b"  unclear\n")?,
        }
    }
    put_open(open, counts, b"", output)
}
