//! What is written of a walk.
use crate::lines::condition_text::put_given;
use crate::lines::rule_line::put_rule_name;
use crate::lines::verdict_line::put_verdict;
use audits::{Passed, Walk};
use fields::{Tap, WriteFailed};
use rulesets::{Dump, OpenConditions};
use std::io::Write;
use table::Verdict;

// Writes the line of a rule that matches, with what it needs beside the answers: `INPUT 3 if limit --limit 3/min in INPUT`.
fn put_passed<W: Write>(
    dump: &Dump,
    open: &OpenConditions,
    rule: &Passed,
    output: &mut Tap<W>,
) -> Result<(), WriteFailed> {
    put_rule_name(dump, rule.at, output)?;
    if !rule.needs.is_empty() {
        output.put(b" if ")?;
        put_given(open, rule.needs.as_slice(), output)?;
    }
    output.put(b"\n")
}

/// Writes a walk as a session does: a line for each rule that matches, in turn, and then `verdict ACCEPT by rule`.
///
/// # Errors
///
/// `WriteFailed` where a write failed.
pub(crate) fn put_walk<W: Write>(
    dump: &Dump,
    open: &OpenConditions,
    walk: &Walk,
    output: &mut Tap<W>,
) -> Result<(), WriteFailed> {
    for rule in walk.rules.as_slice() {
        put_passed(dump, open, rule, output)?;
    }
    output.put(b"verdict ")?;
    put_verdict(dump.given(walk.verdict, walk.by), output)?;
    output.put(match walk.by {
        Some(_) => b" by rule\n".as_slice(),
        None if walk.verdict == Verdict::TooLong => b"\n",
        None => b" by policy\n",
    })
}
