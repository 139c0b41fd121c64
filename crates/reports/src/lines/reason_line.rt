//! The line that says why a rule is dead.
use crate::lines::rule_line::put_rule_name;
use crate::lines::verdict_line::put_verdict;
use audits::{policies_give, policy_of, verdict_of};
use fields::{Hook, Tap, WriteFailed};
use questions::{Reason, Takers};
use rulesets::{Dump, GivenVerdict, put_number};
use std::io::Write;
use table::Step;

// How many rules are named at most.
const NAMED: usize = 5;

// Writes what is done: ` (DROP)`.
fn put_what<W: Write>(verdict: GivenVerdict<'_>, output: &mut Tap<W>) -> Result<(), WriteFailed> {
    output.put(b" (")?;
    put_verdict(verdict, output)?;
    output.put(b")")
}

// Writes a rule, and what it does where it decides: `INPUT 1 (DROP)`.
fn put_taker<W: Write>(dump: &Dump, rule: Step, output: &mut Tap<W>) -> Result<(), WriteFailed> {
    put_rule_name(dump, rule, output)?;
    match verdict_of(dump, rule) {
        Some(verdict) => put_what(verdict, output),
        None => Ok(()),
    }
}

// How some rules are written.
#[derive(Clone, Copy, PartialEq, Eq)]
enum Naming {
    // By their names.
    Bare,
    // With what they do.
    Deciding,
}

// Writes the first of some rules, and how many more there are.
fn put_rules<W: Write>(
    dump: &Dump,
    rules: &[Step],
    naming: Naming,
    output: &mut Tap<W>,
) -> Result<(), WriteFailed> {
    for (written, rule) in rules.iter().take(NAMED).enumerate() {
        if written > 0 {
            output.put(b", ")?;
        }
        match naming {
            Naming::Bare => put_rule_name(dump, *rule, output)?,
            Naming::Deciding => put_taker(dump, *rule, output)?,
        }
    }
    if rules.len() > NAMED {
        put_number(b" and ", rules.len() - NAMED, b" more", output)?;
    }
    Ok(())
}

// Writes the policies that decide: `the policy (DROP)`, or `the policies of INPUT (DROP) and OUTPUT (ACCEPT)` where they differ.
fn put_policies<W: Write>(
    dump: &Dump,
    hooks: &[Hook],
    output: &mut Tap<W>,
) -> Result<(), WriteFailed> {
    let Some(first) = hooks.first() else {
        return Ok(());
    };
    let verdict = policy_of(dump.table(), *first);
    if policies_give(dump.table(), hooks, verdict) {
        output.put(b"the policy")?;
        return put_what(GivenVerdict::Read(verdict), output);
    }
    output.put(b"the policies of ")?;
    for (place, hook) in hooks.iter().enumerate() {
        if place > 0 {
            output.put(b" and ")?;
        }
        output.put(hook.name())?;
        put_what(GivenVerdict::Read(policy_of(dump.table(), *hook)), output)?;
    }
    Ok(())
}

// Writes who takes the packets of a dead rule.
fn put_takers<W: Write>(
    dump: &Dump,
    takers: &Takers,
    output: &mut Tap<W>,
) -> Result<(), WriteFailed> {
    let rules = takers.rules.as_slice();
    let hooks = takers.policies.as_slice();
    put_rules(dump, rules, Naming::Deciding, output)?;
    if !hooks.is_empty() && !rules.is_empty() {
        output.put(b" and ")?;
    }
    put_policies(dump, hooks, output)
}

/// Writes why a rule of the chain at a place is dead: `  taken by INPUT 1 (ACCEPT) and the policy (DROP)`. Of many rules the
/// first five are named.
///
/// # Errors
///
/// `WriteFailed` where a write failed.
pub(crate) fn put_reason<W: Write>(
    dump: &Dump,
    place: usize,
    reason: &Reason,
    output: &mut Tap<W>,
) -> Result<(), WriteFailed> {
    let chain = dump.chain_name(place);
    match reason {
        Reason::Impossible(field) => output.put_all(&[b"  no value of ", field.name(), b" fits"])?,
        Reason::Unreached => output.put_all(&[b"  no rule leads to ", chain])?,
        Reason::NoPacket => {
            output.put_all(&[b"  no packet fits at the hooks that lead to ", chain])?
        }
        Reason::Excluded(ways) => {
            output.put(b"  no packet that comes from ")?;
            put_rules(dump, ways.as_slice(), Naming::Bare, output)?;
            output.put(b" fits")?
        }
        Reason::Taken(takers) => {
            output.put(b"  taken by ")?;
            put_takers(dump, takers, output)?
        }
    }
    output.put(b"\n")
}
