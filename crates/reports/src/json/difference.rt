//! Whether two rulesets give each packet the same verdict, and how many rules only one of them has, in a document.
use crate::json::condition_entry::{answer_entries, open_entries};
use crate::json::counts::change_counts;
use crate::json::document::{Answer, HookEntry, LikenessWord, Premise, RuleName, WalkEntry};
use crate::json::memory_text::{packet_text, verdict_text};
use crate::json::names::{given_by, name_text, rule_name};
use audits::{Difference, Differing, HookAnswer, Pair, Passed, Walk};
use fields::Hook;
use rulesets::{Dump, MatchCount, OpenConditions};
use std::alloc::{AllocError, Global};

/// The rules of a walk, each with what it needs beside the answers.
///
/// # Errors
///
/// `AllocError` where memory was refused.
pub(crate) fn trail_entries(
    alloc: Global,
    dump: &Dump,
    open: &OpenConditions,
    rules: &[Passed],
) -> Result<Vec<RuleName>, AllocError> {
    let mut names = Vec::new(alloc);
    for rule in rules {
        let mut name = rule_name(alloc, dump, rule.at, None)?;
        name.answers = answer_entries(alloc, open, rule.needs.as_slice())?;
        names.push(name)?;
    }
    Ok(names)
}

// The walk of a packet at a hook.
fn walk_entry(
    alloc: Global,
    dump: &Dump,
    open: &OpenConditions,
    hook: Hook,
    walk: &Option<Walk>,
) -> Result<Option<WalkEntry>, AllocError> {
    let Some(walk) = walk else {
        return Ok(None);
    };
    Ok(Some(WalkEntry {
        trail: trail_entries(alloc, dump, open, walk.rules.as_slice())?,
        verdict: verdict_text(alloc, dump.given(walk.verdict, walk.by))?,
        by: given_by(alloc, dump, hook, walk.verdict, walk.by)?,
    }))
}

// What is known of the packets at a hook, but for a packet that gets two verdicts.
fn bare_entry(alloc: Global, hook: Hook, answer: LikenessWord) -> Result<HookEntry, AllocError> {
    Ok(HookEntry {
        hook: name_text(alloc, hook.name())?,
        answer,
        packet: None,
        answers: Vec::new(alloc),
        old: None,
        new: None,
    })
}

// Adds a packet that gets two verdicts, and its walk in each table.
fn add_difference(
    alloc: Global,
    pair: Pair<'_>,
    hook: Hook,
    found: &Differing,
    entry: &mut HookEntry,
) -> Result<(), AllocError> {
    entry.packet = Some(packet_text(alloc, &found.words)?);
    entry.answers = answer_entries(alloc, pair.open, found.given.as_slice())?;
    entry.old = walk_entry(alloc, pair.old, pair.open, hook, &found.old)?;
    entry.new = walk_entry(alloc, pair.new, pair.open, hook, &found.new)?;
    Ok(())
}

// A packet at a hook that gets two verdicts, and its walk in each table.
fn difference_entry(
    alloc: Global,
    pair: Pair<'_>,
    hook: Hook,
    found: &Differing,
) -> Result<HookEntry, AllocError> {
    let mut entry = bare_entry(alloc, hook, LikenessWord::Differs)?;
    add_difference(alloc, pair, hook, found, &mut entry)?;
    Ok(entry)
}

// What is known of the packets at a hook.
fn hook_entry(
    alloc: Global,
    pair: Pair<'_>,
    hook: Hook,
    answer: &HookAnswer,
) -> Result<HookEntry, AllocError> {
    match answer {
        HookAnswer::Same => bare_entry(alloc, hook, LikenessWord::Same),
        HookAnswer::Differ(shown) => difference_entry(alloc, pair, hook, shown),
        HookAnswer::Unclear => bare_entry(alloc, hook, LikenessWord::Unclear),
    }
}

// What is known of the packets at each hook.
fn hook_entries(
    alloc: Global,
    pair: Pair<'_>,
    found: &Difference,
) -> Result<Vec<HookEntry>, AllocError> {
    let mut hooks = Vec::new(alloc);
    for entry in found.hooks.as_slice() {
        hooks.push(hook_entry(alloc, pair, entry.hook, &entry.answer)?)?;
    }
    Ok(hooks)
}

// The premise that an answer has.
fn premise(pair: Pair<'_>, found: &Difference) -> Option<Premise> {
    if found.has_premise(pair.open) {
        Some(Premise::AnswersStay)
    } else {
        None
    }
}

/// What is known of the packets at each hook, the counts of changed rules, and how many conditions are open, as a document.
///
/// # Errors
///
/// `AllocError` where memory was refused.
pub(crate) fn differences_answer(
    alloc: Global,
    pair: Pair<'_>,
    found: &Difference,
    counts: &[MatchCount],
) -> Result<Answer, AllocError> {
    let hooks = hook_entries(alloc, pair, found)?;
    Ok(Answer::Compare {
        hooks,
        counts: change_counts(&found.tally),
        open: open_entries(alloc, pair.open, counts)?,
        premise: premise(pair, found),
    })
}
