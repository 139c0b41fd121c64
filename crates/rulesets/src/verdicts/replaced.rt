//! A rule with a verdict of its own, put into a table with another target.
use crate::dump::Dump;
use fields::Words;
use rules::{Rule, RuleFault, Work, read_rule};
use std::alloc::{AllocError, Global};
use table::{Step, Table, TableFault};

// The rule with a target, of which this stands before it; none where that isn't the text of a rule.
fn rule_with(alloc: Global, before: &[u8], target: &[u8]) -> Result<Option<Rule>, AllocError> {
    let mut line = before.to_vec(alloc)?;
    line.extend_from_slice(b" -j ")?;
    line.extend_from_slice(target)?;
    let Ok(words) = Words::split(alloc, line.as_slice()) else {
        return Err(AllocError);
    };
    match read_rule(alloc, &words, 0) {
        Ok(rule) => Ok(Some(rule)),
        Err(RuleFault::NoMemory) => Err(AllocError),
        Err(RuleFault::Refused(_)) => Ok(None),
    }
}

/// A rule of a dump with a verdict of its own gets another target in a table of the same chains. Whether it could be put there.
///
/// # Errors
///
/// `AllocError` where memory was refused.
pub(crate) fn put_target(
    alloc: Global,
    dump: &Dump,
    at: Step,
    target: &[u8],
    table: &mut Table,
    work: &mut Work,
) -> Result<bool, AllocError> {
    let Some(own) = dump.own_verdict(at) else {
        return Ok(false);
    };
    let Some(rule) = rule_with(alloc, own.before.as_slice(), target)? else {
        return Ok(false);
    };
    match table.replace(dump.chain_name(at.chain), at.number, rule, work) {
        Ok(()) => Ok(true),
        Err(TableFault::NoMemory) => Err(AllocError),
        Err(_) => Ok(false),
    }
}
