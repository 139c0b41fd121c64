//! The walks of one packet are joined to branches, where an answer changes nothing.
use crate::walking::walk::{Branch, Walk};
use questions::Need;
use std::alloc::{AllocError, Global};

// A branch, and by which of its answers, counted from 0, it parts from the next one; the last one parts by none.
#[derive(Drop)]
struct Parted {
    branch: Branch,
    by: Option<usize>,
}

// By which answer a branch parts from another one: up to it they have the same ones, and there the first has that a condition holds, and the
// other one that it doesn't.
fn parting(one: &Branch, other: &Branch) -> Option<usize> {
    let mut depth = 0usize;
    for (own, its) in one.given.iter().zip(other.given.iter()) {
        if own != its {
            let parts = own.condition == its.condition && !own.inverted && its.inverted;
            return parts.then_some(depth);
        }
        depth = depth.saturating_add(1);
    }
    None
}

// The branches with that, if each parts from the next one. Then, of each condition that parts some, those where it holds come first.
fn with_partings(alloc: Global, branches: Vec<Branch>) -> Result<Option<Vec<Parted>>, AllocError> {
    let mut found: Vec<Parted> = Vec::new(alloc);
    for branch in branches {
        if let Some(last) = found.last_mut() {
            last.by = parting(&last.branch, &branch);
            if last.by.is_none() {
                return Ok(None);
            }
        }
        found.push(Parted { branch, by: None })?;
    }
    Ok(Some(found))
}

// The answers of a branch behind that of a number.
fn behind(branch: &Branch, depth: usize) -> &[Need] {
    match branch.given.get(depth.saturating_add(1)..) {
        Some(rest) => rest,
        None => &[],
    }
}

// Whether a branch has its answers up to that of a number together with the next one.
fn goes_on(one: &Parted, depth: usize) -> bool {
    match one.by {
        Some(by) => by > depth,
        None => false,
    }
}

// How many branches, the first among them, have its answers up to that of a number.
fn count_together(parted: &[Parted], depth: usize) -> usize {
    let mut count = 0usize;
    for one in parted {
        count = count.saturating_add(1);
        if !goes_on(one, depth) {
            return count;
        }
    }
    count
}

// Whether branches end alike, each with the one that stands in its place among others: what becomes of the packet is the same, and so are the
// answers behind that of a number.
fn all_end_alike(parted: &[Parted], others: &[Parted], depth: usize) -> bool {
    if parted.len() != others.len() {
        return false;
    }
    for (one, other) in parted.iter().zip(others.iter()) {
        if !one.branch.ends_as(&other.branch)
            || behind(&one.branch, depth) != behind(&other.branch, depth)
        {
            return false;
        }
    }
    true
}

// Whether the first branches, so many, part by the answer of a number from as many others, and all end alike.
fn are_joined(parted: &[Parted], count: usize, depth: usize) -> bool {
    if count > parted.len() {
        return false;
    }
    let (own, rest) = parted.split_at(count);
    let others = count_together(rest, depth);
    match own.last() {
        Some(last) if last.by == Some(depth) && others <= rest.len() => {
            all_end_alike(own, &rest[..others], depth)
        }
        _ => false,
    }
}

// Takes branches out, from a place on. By which answer the last of them parts from the next one.
fn drop_at(parted: &mut Vec<Parted>, place: usize, count: usize) -> Option<usize> {
    let mut by = None;
    for _ in 0..count {
        if place < parted.len() {
            by = parted.remove(place).by;
        }
    }
    by
}

// Takes an answer out of a branch. It parts from the next one by what is given, if it had that answer together with it.
fn forget(one: &mut Parted, depth: usize, by: Option<usize>) {
    if depth < one.branch.given.len() {
        let _gone = one.branch.given.remove(depth);
    }
    one.by = match one.by {
        Some(own) if own > depth => Some(own - 1),
        _ => by,
    };
}

// Joins the branches at a place with those from which they part by the answer of a number, if they end alike. The place behind them.
fn join_at(parted: &mut Vec<Parted>, place: usize, depth: usize) -> usize {
    let Some(rest) = parted.get(place..) else {
        return parted.len();
    };
    let count = count_together(rest, depth);
    let behind = place.saturating_add(count);
    if are_joined(rest, count, depth) {
        let by = drop_at(parted, behind, count);
        for one in parted.iter_mut().skip(place).take(count) {
            forget(one, depth, by);
        }
    }
    behind.max(place.saturating_add(1))
}

// Joins all branches that part by the answer of a number and end alike.
fn join_all(parted: &mut Vec<Parted>, depth: usize) {
    let mut place = 0usize;
    for _ in 0..parted.len() {
        if place >= parted.len() {
            return;
        }
        place = join_at(parted, place, depth);
    }
}

// The most answers of a branch.
fn depth_of(parted: &[Parted]) -> usize {
    let mut most = 0usize;
    for one in parted {
        most = most.max(one.branch.given.len());
    }
    most
}

/// A branch for each walk.
///
/// # Errors
///
/// `AllocError` where memory was refused.
pub(crate) fn branches_among(alloc: Global, walks: Vec<Walk>) -> Result<Vec<Branch>, AllocError> {
    let mut branches = Vec::new(alloc);
    for walk in walks {
        let Walk {
            given,
            rules: _,
            verdict,
            by,
        } = walk;
        branches.push(Branch { given, verdict, by })?;
    }
    Ok(branches)
}

/// What becomes of a packet, by branches in which each answer changes something, and of which each parts from those behind it by a condition that
/// holds in it. So the first whose conditions that are to hold do hold is the right one. There are none where the branches don't part so. The
/// time grows with the branches and the most answers of one.
///
/// # Errors
///
/// `AllocError` where memory was refused.
pub(crate) fn joined(
    alloc: Global,
    branches: Vec<Branch>,
) -> Result<Option<Vec<Branch>>, AllocError> {
    let Some(mut parted) = with_partings(alloc, branches)? else {
        return Ok(None);
    };
    let depth = depth_of(parted.as_slice());
    for passed in 0..depth {
        join_all(&mut parted, depth - passed - 1);
    }
    let mut found = Vec::new(alloc);
    for one in parted {
        found.push(one.branch)?;
    }
    Ok(Some(found))
}
