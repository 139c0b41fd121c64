//! Why a rule is dead, in a document.
use crate::json::document::{PolicyEntry, ReasonEntry, RuleName};
use crate::json::memory_text::verdict_text;
use crate::json::names::{name_text, rule_name, rule_names};
use audits::{policy_of, verdict_of};
use fields::Hook;
use questions::Reason;
use rulesets::{Dump, GivenVerdict};
use std::alloc::{AllocError, Global};
use table::Step;

// Rules that take packets, with what each does that decides.
fn takers(alloc: Global, dump: &Dump, rules: &[Step]) -> Result<Vec<RuleName>, AllocError> {
    let mut names = Vec::new(alloc);
    for rule in rules {
        names.push(rule_name(alloc, dump, *rule, verdict_of(dump, *rule))?)?;
    }
    Ok(names)
}

// Policies that decide.
fn policies(alloc: Global, dump: &Dump, hooks: &[Hook]) -> Result<Vec<PolicyEntry>, AllocError> {
    let mut policies = Vec::new(alloc);
    for hook in hooks {
        policies.push(PolicyEntry {
            chain: name_text(alloc, hook.name())?,
            verdict: verdict_text(alloc, GivenVerdict::Read(policy_of(dump.table(), *hook)))?,
        })?;
    }
    Ok(policies)
}

/// Why a rule is dead. All rules and policies are named.
///
/// # Errors
///
/// `AllocError` where memory was refused.
pub(crate) fn reason_entry(
    alloc: Global,
    dump: &Dump,
    reason: &Reason,
) -> Result<ReasonEntry, AllocError> {
    Ok(match reason {
        Reason::Impossible(field) => ReasonEntry::Impossible {
            field: name_text(alloc, field.name())?,
        },
        Reason::Unreached => ReasonEntry::Unreached,
        Reason::NoPacket => ReasonEntry::NoPacket,
        Reason::Excluded(ways) => ReasonEntry::Excluded {
            rules: rule_names(alloc, dump, ways.as_slice())?,
        },
        Reason::Taken(found) => ReasonEntry::Taken {
            rules: takers(alloc, dump, found.rules.as_slice())?,
            policies: policies(alloc, dump, found.policies.as_slice())?,
        },
    })
}
