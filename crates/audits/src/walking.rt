//! The walks of one packet, each with the answers under which it is so.
pub(crate) mod branches;
pub(crate) mod packet_walks;
pub(crate) mod walk;

use crate::asking::Asking;
use crate::walking::walk::{Branch, Passed, Walk};
use questions::{Leaf, Need, WrittenPacket};
use rulesets::{Dump, OpenConditions, contradict, has_opposite};
use std::alloc::{AllocError, Global};
use std::io::IsTerminal;
use std::rt::Clock;
use table::{Step, Table, Trail, Verdict};

// What a rule needs beside what is answered; none where that contradicts the answers or itself.
fn needs_beside(
    alloc: Global,
    needs: &[Need],
    answered: &[Need],
) -> Result<Option<Vec<Need>>, AllocError> {
    let mut beside = Vec::new(alloc);
    if contradict(needs) {
        return Ok(None);
    }
    for need in needs {
        if has_opposite(answered, *need) {
            return Ok(None);
        }
        if !answered.contains(need) {
            beside.push(*need)?;
        }
    }
    Ok(Some(beside))
}

// The rules on the trail of a leaf that match where some assignment gives its answers.
fn passed_by(
    alloc: Global,
    dump: &Dump,
    leaf: &Leaf,
    answered: &[Need],
) -> Result<Vec<Passed>, AllocError> {
    let mut rules = Vec::new(alloc);
    for at in leaf.trail.as_slice() {
        if let Some(needs) = needs_beside(alloc, dump.needs_of(*at), answered)? {
            rules.push(Passed { at: *at, needs })?;
        }
    }
    Ok(rules)
}

// The walk that a leaf shows.
fn walk_of(
    alloc: Global,
    dump: &Dump,
    open: &OpenConditions,
    leaf: &Leaf,
) -> Result<Walk, AllocError> {
    let given = open.shown(alloc, &leaf.answers)?;
    let rules = passed_by(alloc, dump, leaf, given.as_slice())?;
    Ok(Walk {
        given,
        rules,
        verdict: leaf.verdict,
        by: leaf.decider(),
    })
}

// The rules of a trail, none of which needs anything.
fn passed_on(alloc: Global, trail: &Trail) -> Result<Vec<Passed>, AllocError> {
    let mut rules = Vec::new(alloc);
    for at in trail.steps() {
        rules.push(Passed {
            at: *at,
            needs: Vec::new(alloc),
        })?;
    }
    Ok(rules)
}

// The rule that decides a trail, if one does.
fn decider_of(trail: &Trail) -> Option<Step> {
    if trail.by_policy() || trail.verdict() == Verdict::TooLong {
        return None;
    }
    trail.steps().last().copied()
}

// The walk of a packet in a table whose rules need nothing.
fn plain_walk(
    alloc: Global,
    table: &Table,
    packet: &WrittenPacket,
    given: &[Need],
) -> Result<Walk, AllocError> {
    let trail = table.trail(packet.packet())?;
    Ok(Walk {
        given: given.to_vec(alloc)?,
        rules: passed_on(alloc, &trail)?,
        verdict: trail.verdict(),
        by: decider_of(&trail),
    })
}

// The walks that leaves show.
fn walks_among(
    alloc: Global,
    dump: &Dump,
    open: &OpenConditions,
    leaves: &[Leaf],
) -> Result<Vec<Walk>, AllocError> {
    let mut walks = Vec::new(alloc);
    for leaf in leaves {
        walks.push(walk_of(alloc, dump, open, leaf)?)?;
    }
    Ok(walks)
}

/// The walks of a packet where these answers are right, each with all answers under which it is so: those that were given, and those that the
/// walk hangs on. There are none where they aren't known.
///
/// # Errors
///
/// `AllocError` where memory was refused.
pub(crate) fn walks_of<R: Clock, E: Print + IsTerminal>(
    asking: &Asking<'_, R, E>,
    dump: &Dump,
    open: &OpenConditions,
    packet: &WrittenPacket,
    given: &[Need],
) -> Result<Option<Vec<Walk>>, AllocError> {
    let alloc = asking.alloc();
    if dump.is_plain() {
        let mut walks = Vec::new(alloc);
        walks.push(plain_walk(alloc, dump.table(), packet, given)?)?;
        return Ok(Some(walks));
    }
    let start = open.start(alloc, given)?;
    match asking.walks(&dump.subject(), packet, &start)? {
        Some(leaves) => Ok(Some(walks_among(alloc, dump, open, leaves.as_slice())?)),
        None => Ok(None),
    }
}

/// How the walk of a packet ends, a branch for each set of answers that it hangs on. There are none where that isn't known.
///
/// # Errors
///
/// `AllocError` where memory was refused.
pub(crate) fn ends_of<R: Clock, E: Print + IsTerminal>(
    asking: &Asking<'_, R, E>,
    dump: &Dump,
    open: &OpenConditions,
    packet: &WrittenPacket,
) -> Result<Option<Vec<Branch>>, AllocError> {
    let alloc = asking.alloc();
    let start = open.start(alloc, &[])?;
    let Some(ends) = asking.ends(&dump.subject(), packet, &start)? else {
        return Ok(None);
    };
    let mut branches = Vec::new(alloc);
    for end in ends.as_slice() {
        branches.push(Branch {
            given: open.shown(alloc, &end.answers)?,
            verdict: end.verdict,
            by: end.by,
        })?;
    }
    Ok(Some(branches))
}
