//! What is known of claims, as lines of TAP: a plan, a line for each claim, and comments.
use crate::lines::condition_text::{put_asked, put_if};
use crate::lines::open_counts::put_open;
use crate::lines::packet_line::put_packet;
use crate::lines::packet_walks::put_end;
use crate::lines::rule_line::put_rule;
use audits::{AnsweredClaims, Claim, ClaimAnswer, Counterexample, Passed, Walk};
use fields::{Tap, WriteFailed};
use rulesets::{Dump, MatchCount, OneDump, OpenConditions, put_number};
use std::io::Write;

// What stands before the lines below that of a claim.
const COMMENT: &[u8] = b"# ";

// Writes the line of a rule that matches: `# INPUT 3 -A INPUT -j DROP if limit --limit 3/min`.
fn put_passed<W: Write>(
    dump: &Dump,
    open: &OpenConditions,
    rule: &Passed,
    output: &mut Tap<W>,
) -> Result<(), WriteFailed> {
    put_rule(dump, COMMENT, rule.at, output)?;
    put_asked(open, dump.asked_by(rule.at), output)?;
    output.put(b"\n")
}

// Writes a walk: a line for each rule that matches, in turn, and then `# verdict ACCEPT by INPUT 3`.
fn put_walk<W: Write>(one: &OneDump, walk: &Walk, output: &mut Tap<W>) -> Result<(), WriteFailed> {
    for rule in walk.rules.as_slice() {
        put_passed(&one.dump, &one.open, rule, output)?;
    }
    output.put_all(&[COMMENT, b"verdict "])?;
    put_end(&one.dump, walk.verdict, walk.by, output)?;
    output.put(b"\n")
}

// Writes a packet for which a claim fails, the answers under which it does, and its walk.
fn put_against<W: Write>(
    one: &OneDump,
    found: &Counterexample,
    output: &mut Tap<W>,
) -> Result<(), WriteFailed> {
    output.put(COMMENT)?;
    put_packet(&found.words, output)?;
    output.put(b"\n")?;
    put_if(&one.open, COMMENT, found.given.as_slice(), output)?;
    match &found.walk {
        Some(walk) => put_walk(one, walk, output),
        None => output.put_all(&[COMMENT, b"unclear\n"]),
    }
}

// Writes a claim behind its number: ` - NAME: never ACCEPT at INPUT proto=tcp`.
fn put_claim<W: Write>(claim: &Claim, output: &mut Tap<W>) -> Result<(), WriteFailed> {
    output.put(b" - ")?;
    if let Some(name) = &claim.name {
        output.put_all(&[name.as_bytes(), b": "])?;
    }
    output.put(claim.text.as_bytes())
}

// Writes what is known of a claim, which has a number.
fn put_answer<W: Write>(
    one: &OneDump,
    number: usize,
    claim: &Claim,
    answer: &ClaimAnswer,
    output: &mut Tap<W>,
) -> Result<(), WriteFailed> {
    let holds = matches!(answer, ClaimAnswer::Holds);
    let word = if holds { b"ok ".as_slice() } else { b"not ok " };
    put_number(word, number, b"", output)?;
    put_claim(claim, output)?;
    match answer {
        ClaimAnswer::Holds => output.put(b"\n"),
        ClaimAnswer::Fails(found) => {
            output.put(b"\n")?;
            put_against(one, found, output)
        }
        ClaimAnswer::Unclear => output.put(b" # unclear\n# not known within the steps\n"),
    }
}

/// Writes what is known of claims, as lines, and how many conditions are open.
///
/// # Errors
///
/// `WriteFailed` where a write failed.
pub(crate) fn put_claims<W: Write>(
    one: &OneDump,
    claims: &[Claim],
    found: &AnsweredClaims,
    counts: &[MatchCount],
    output: &mut Tap<W>,
) -> Result<(), WriteFailed> {
    put_number(b"1..", claims.len(), b"\n", output)?;
    for (place, (claim, answer)) in claims.iter().zip(found.answers.iter()).enumerate() {
        put_answer(one, place.saturating_add(1), claim, answer, output)?;
    }
    put_open(&one.open, counts, COMMENT, output)
}
