//! What becomes of each of some packets, by answers, in a document.
use crate::json::condition_entry::{answer_entries, open_entries};
use crate::json::document::{Answer, EndEntry, PacketEntry};
use crate::json::memory_text::verdict_text;
use crate::json::names::{given_by, name_text};
use audits::{Branch, GivenPacket, PacketWalks};
use fields::Hook;
use rulesets::{Dump, MatchCount, OpenConditions};
use std::alloc::{AllocError, Global};

// What becomes of a packet under some answers.
fn end_entry(
    alloc: Global,
    dump: &Dump,
    open: &OpenConditions,
    hook: Hook,
    branch: &Branch,
) -> Result<EndEntry, AllocError> {
    let answers = answer_entries(alloc, open, branch.given.as_slice())?;
    let by = given_by(alloc, dump, hook, branch.verdict, branch.by)?;
    Ok(EndEntry {
        answers,
        verdict: verdict_text(alloc, dump.given(branch.verdict, branch.by))?,
        by,
    })
}

// What becomes of a packet, by answers.
fn end_entries(
    alloc: Global,
    dump: &Dump,
    open: &OpenConditions,
    hook: Hook,
    branches: &[Branch],
) -> Result<Vec<EndEntry>, AllocError> {
    let mut walks = Vec::new(alloc);
    for branch in branches {
        walks.push(end_entry(alloc, dump, open, hook, branch)?)?;
    }
    Ok(walks)
}

// A packet, without what becomes of it.
fn bare_entry(alloc: Global, given: &GivenPacket) -> Result<PacketEntry, AllocError> {
    Ok(PacketEntry {
        packet: name_text(alloc, given.line.as_slice())?,
        walks: None,
        unclear: None,
    })
}

// Adds what becomes of a packet, if it is known.
fn complete(
    alloc: Global,
    dump: &Dump,
    open: &OpenConditions,
    hook: Hook,
    branches: &Option<Vec<Branch>>,
    entry: &mut PacketEntry,
) -> Result<(), AllocError> {
    match branches {
        Some(branches) => {
            entry.walks = Some(end_entries(alloc, dump, open, hook, branches.as_slice())?);
        }
        None => entry.unclear = Some(true),
    }
    Ok(())
}

// What becomes of a packet.
fn packet_entry(
    alloc: Global,
    dump: &Dump,
    open: &OpenConditions,
    given: &GivenPacket,
    branches: &Option<Vec<Branch>>,
) -> Result<PacketEntry, AllocError> {
    let hook = given.packet.packet().hook();
    let mut entry = bare_entry(alloc, given)?;
    complete(alloc, dump, open, hook, branches, &mut entry)?;
    Ok(entry)
}

// What becomes of each packet.
fn packet_entries(
    alloc: Global,
    dump: &Dump,
    open: &OpenConditions,
    packets: &[GivenPacket],
    found: &PacketWalks,
) -> Result<Vec<PacketEntry>, AllocError> {
    let mut entries = Vec::new(alloc);
    for (given, branches) in packets.iter().zip(found.branches.iter()) {
        entries.push(packet_entry(alloc, dump, open, given, branches)?)?;
    }
    Ok(entries)
}

/// What becomes of each packet, as a document, and how many conditions are open.
///
/// # Errors
///
/// `AllocError` where memory was refused.
pub(crate) fn packets_answer(
    alloc: Global,
    dump: &Dump,
    open: &OpenConditions,
    packets: &[GivenPacket],
    found: &PacketWalks,
    counts: &[MatchCount],
) -> Result<Answer, AllocError> {
    let packets = packet_entries(alloc, dump, open, packets, found)?;
    Ok(Answer::Walk {
        packets,
        open: open_entries(alloc, open, counts)?,
    })
}
