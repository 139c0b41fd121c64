//! What is known of claims, in a document.
use crate::json::condition_entry::{answer_entries, open_entries};
use crate::json::difference::trail_entries;
use crate::json::document::{Answer, ClaimCounts, ClaimEntry, ClaimWord};
use crate::json::memory_text::{packet_text, verdict_text};
use crate::json::names::{given_by, name_text};
use audits::{AnsweredClaims, Claim, ClaimAnswer, ClaimTally, Counterexample, Walk};
use fields::Hook;
use rulesets::{MatchCount, OneDump};
use std::alloc::{AllocError, Global};

// What is known of a claim, in one word.
fn claim_word(answer: &ClaimAnswer) -> ClaimWord {
    match answer {
        ClaimAnswer::Holds => ClaimWord::Ok,
        ClaimAnswer::Fails(_) => ClaimWord::Fails,
        ClaimAnswer::Unclear => ClaimWord::Unclear,
    }
}

// A claim, without a packet for which it fails.
fn bare_entry(
    alloc: Global,
    claim: &Claim,
    answer: &ClaimAnswer,
) -> Result<ClaimEntry, AllocError> {
    let name = match &claim.name {
        Some(name) => Some(name_text(alloc, name.as_bytes())?),
        None => None,
    };
    Ok(ClaimEntry {
        line: claim.line,
        name,
        text: name_text(alloc, claim.text.as_bytes())?,
        answer: claim_word(answer),
        packet: None,
        given: Vec::new(alloc),
        walk: None,
        verdict: None,
        by: None,
    })
}

// Adds the walk of a packet at a hook.
fn add_walk(
    alloc: Global,
    one: &OneDump,
    hook: Hook,
    walk: &Walk,
    entry: &mut ClaimEntry,
) -> Result<(), AllocError> {
    let (dump, open) = (&one.dump, &one.open);
    entry.walk = Some(trail_entries(alloc, dump, open, walk.rules.as_slice())?);
    entry.verdict = Some(verdict_text(alloc, dump.given(walk.verdict, walk.by))?);
    entry.by = given_by(alloc, dump, hook, walk.verdict, walk.by)?;
    Ok(())
}

// Adds a packet at a hook for which a claim fails.
fn add_against(
    alloc: Global,
    one: &OneDump,
    hook: Hook,
    found: &Counterexample,
    entry: &mut ClaimEntry,
) -> Result<(), AllocError> {
    entry.packet = Some(packet_text(alloc, &found.words)?);
    entry.given = answer_entries(alloc, &one.open, found.given.as_slice())?;
    match &found.walk {
        Some(walk) => add_walk(alloc, one, hook, walk, entry),
        None => Ok(()),
    }
}

// What is known of a claim.
fn claim_entry(
    alloc: Global,
    one: &OneDump,
    claim: &Claim,
    answer: &ClaimAnswer,
) -> Result<ClaimEntry, AllocError> {
    let mut entry = bare_entry(alloc, claim, answer)?;
    if let ClaimAnswer::Fails(found) = answer {
        add_against(alloc, one, claim.given.hook, found, &mut entry)?;
    }
    Ok(entry)
}

// How many claims there are of each kind.
fn claim_counts(claims: usize, tally: ClaimTally) -> ClaimCounts {
    ClaimCounts {
        claims,
        ok: tally.holding,
        fails: tally.failing,
        unclear: tally.unclear,
    }
}

/// What is known of claims, as a document, and how many conditions are open.
///
/// # Errors
///
/// `AllocError` where memory was refused.
pub(crate) fn claims_answer(
    alloc: Global,
    one: &OneDump,
    claims: &[Claim],
    found: &AnsweredClaims,
    counts: &[MatchCount],
) -> Result<Answer, AllocError> {
    let mut entries = Vec::new(alloc);
    for (claim, answer) in claims.iter().zip(found.answers.iter()) {
        entries.push(claim_entry(alloc, one, claim, answer)?)?;
    }
    Ok(Answer::Assert {
        claims: entries,
        counts: claim_counts(claims.len(), found.tally()),
        open: open_entries(alloc, &one.open, counts)?,
    })
}
