//! The line of a rule.
use fields::{Tap, WriteFailed};
use rules::write_rule;
use rulesets::{Dump, put_number, rule_at};
use std::io::Write;
use table::Step;

/// Writes a rule by its chain and its number there: `INPUT 2`.
///
/// # Errors
///
/// `WriteFailed` where a write failed.
pub(crate) fn put_rule_name<W: Write>(
    dump: &Dump,
    at: Step,
    output: &mut Tap<W>,
) -> Result<(), WriteFailed> {
    output.put(dump.chain_name(at.chain))?;
    put_number(b" ", at.number, b"", output)
}

/// Writes a rule as it is listed: `-A INPUT -j DROP`; and a verdict of its own as it was read.
///
/// # Errors
///
/// `WriteFailed` where a write failed.
pub(crate) fn put_listed<W: Write>(
    dump: &Dump,
    at: Step,
    output: &mut Tap<W>,
) -> Result<(), WriteFailed> {
    let Some(rule) = rule_at(dump.table(), at) else {
        return Ok(());
    };
    output.put_all(&[b"-A ", dump.chain_name(at.chain)])?;
    match dump.own_verdict(at) {
        Some(own) => output.put_all(&[own.before.as_slice(), b" -j ", own.words.as_slice()]),
        None => write_rule(rule, output),
    }
}

/// Writes a rule, after some words, by its name and as it is listed: `dead INPUT 2 -A INPUT -j DROP`, where `dead ` stands before it.
///
/// # Errors
///
/// `WriteFailed` where a write failed.
pub(crate) fn put_rule<W: Write>(
    dump: &Dump,
    before: &[u8],
    at: Step,
    output: &mut Tap<W>,
) -> Result<(), WriteFailed> {
    output.put(before)?;
    put_rule_name(dump, at, output)?;
    output.put(b" ")?;
    put_listed(dump, at, output)
}
