//! What is known of rules, as lines.
use crate::lines::condition_text::{put_asked, put_if};
use crate::lines::open_counts::put_open;
use crate::lines::packet_line::put_packet;
use crate::lines::reason_line::put_reason;
use crate::lines::rule_line::put_rule;
use crate::lines::tally::{put_coverage, put_tally};
use audits::{Form, Found, FoundRule, Inquiry, Known};
use fields::{Tap, Words, WriteFailed};
use questions::Need;
use rulesets::{Dump, MatchCount};
use std::io::Write;

// What stands before a rule of which this is known; there is no line of a rule that matches a packet that was given whichever answers are
// right, nor of a live one where dead ones are asked for.
fn words_before(form: Form<'_>, known: &Known) -> Option<&'static [u8]> {
    match (form, known) {
        (_, Known::Covered(given)) if !given.is_empty() => Some(b"if ".as_slice()),
        (_, Known::Covered(_)) | (Form::Dead, Known::Live(_, _)) => None,
        (Form::Tests, Known::Live(_, _)) => Some(b"# ".as_slice()),
        (Form::Cover(_), Known::Live(_, _)) => Some(b"missed ".as_slice()),
        (Form::Tests, Known::Dead(_) | Known::Unmet) => Some(b"# dead ".as_slice()),
        (Form::Dead | Form::Cover(_), Known::Dead(_) | Known::Unmet) => Some(b"dead ".as_slice()),
        (Form::Tests, Known::Unclear) => Some(b"# unclear ".as_slice()),
        (Form::Dead | Form::Cover(_), Known::Unclear) => Some(b"unclear ".as_slice()),
    }
}

// What stands before the other lines of a rule: those of a session are comments.
fn comment_of(form: Form<'_>) -> &'static [u8] {
    match form {
        Form::Tests => b"# ",
        Form::Dead | Form::Cover(_) => b"",
    }
}

// Writes a packet that matches a rule, and the answers under which it does. A session cannot be given these, so that there the packet is a comment.
fn put_live<W: Write>(
    inquiry: Inquiry<'_>,
    words: &Words,
    given: &[Need],
    output: &mut Tap<W>,
) -> Result<(), WriteFailed> {
    let before = comment_of(inquiry.form);
    put_if(inquiry.open, before, given, output)?;
    if !given.is_empty() {
        output.put(before)?;
    }
    put_packet(words, output)?;
    output.put(b"\n")
}

// Writes what is known of a rule: its line, and the packet that matches it or why it is dead.
fn put_found<W: Write>(
    dump: &Dump,
    inquiry: Inquiry<'_>,
    rule: &FoundRule,
    output: &mut Tap<W>,
) -> Result<(), WriteFailed> {
    let Some(before) = words_before(inquiry.form, &rule.known) else {
        return Ok(());
    };
    put_rule(dump, before, rule.at, output)?;
    put_asked(inquiry.open, inquiry.dump.asked_by(rule.at), output)?;
    output.put(b"\n")?;
    match &rule.known {
        Known::Live(words, given) => put_live(inquiry, words, given.as_slice(), output),
        Known::Dead(Some(reason)) => put_reason(dump, rule.at.chain, reason, output),
        Known::Covered(given) => put_if(inquiry.open, b"", given.as_slice(), output),
        Known::Unmet => output.put(b"  no answers meet its conditions\n"),
        Known::Dead(None) | Known::Unclear => Ok(()),
    }
}

/// Writes what is known of rules, as lines, and how many conditions are open.
///
/// # Errors
///
/// `WriteFailed` where a write failed.
pub(crate) fn put_rules<W: Write>(
    inquiry: Inquiry<'_>,
    found: &Found,
    counts: &[MatchCount],
    output: &mut Tap<W>,
) -> Result<(), WriteFailed> {
    let dump = inquiry.dump;
    for rule in found.rules.as_slice() {
        put_found(dump, inquiry, rule, output)?;
    }
    match inquiry.form {
        Form::Dead => put_tally(&found.tally, output)?,
        Form::Tests => {}
        Form::Cover(_) => put_coverage(&found.tally, output)?,
    }
    put_open(inquiry.open, counts, comment_of(inquiry.form), output)
}
