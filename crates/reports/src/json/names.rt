//! Names, rules and policies in a document. Bytes that are no UTF-8 become U+FFFD.
use crate::json::document::{DeciderEntry, RuleName};
use crate::json::memory_text::verdict_text;
use fields::Hook;
use rulesets::{Dump, GivenVerdict};
use std::alloc::{AllocError, Global};
use table::{Step, Verdict};

/// A name.
///
/// # Errors
///
/// `AllocError` where memory was refused.
pub(crate) fn name_text(alloc: Global, name: &[u8]) -> Result<String, AllocError> {
    String::from_utf8_lossy(alloc, name)
}

/// A rule by its chain and its number there, and what it does, where that is known.
///
/// # Errors
///
/// `AllocError` where memory was refused.
pub(crate) fn rule_name(
    alloc: Global,
    dump: &Dump,
    at: Step,
    verdict: Option<GivenVerdict<'_>>,
) -> Result<RuleName, AllocError> {
    Ok(RuleName {
        chain: name_text(alloc, dump.chain_name(at.chain))?,
        number: at.number,
        answers: Vec::new(alloc),
        verdict: match verdict {
            Some(verdict) => Some(verdict_text(alloc, verdict)?),
            None => None,
        },
    })
}

/// Rules by their chains and numbers.
///
/// # Errors
///
/// `AllocError` where memory was refused.
pub(crate) fn rule_names(
    alloc: Global,
    dump: &Dump,
    rules: &[Step],
) -> Result<Vec<RuleName>, AllocError> {
    let mut names = Vec::new(alloc);
    for rule in rules {
        names.push(rule_name(alloc, dump, *rule, None)?)?;
    }
    Ok(names)
}

/// What gives a verdict to packets at a hook: a rule, or the policy of the hook's chain.
///
/// # Errors
///
/// `AllocError` where memory was refused.
pub(crate) fn decider_entry(
    alloc: Global,
    dump: &Dump,
    hook: Hook,
    rule: Option<Step>,
) -> Result<DeciderEntry, AllocError> {
    match rule {
        Some(rule) => Ok(DeciderEntry::Rule(rule_name(alloc, dump, rule, None)?)),
        None => Ok(DeciderEntry::Policy {
            policy: name_text(alloc, hook.name())?,
        }),
    }
}

/// What gives a verdict to a packet at a hook, if anything does.
///
/// # Errors
///
/// `AllocError` where memory was refused.
pub(crate) fn given_by(
    alloc: Global,
    dump: &Dump,
    hook: Hook,
    verdict: Verdict,
    by: Option<Step>,
) -> Result<Option<DeciderEntry>, AllocError> {
    if verdict == Verdict::TooLong {
        return Ok(None);
    }
    Ok(Some(decider_entry(alloc, dump, hook, by)?))
}
