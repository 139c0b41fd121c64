//! What is known of rules, in a document.
use crate::json::condition_entry::{answer_entries, open_entries};
use crate::json::counts::{coverage_counts, dead_counts};
use crate::json::document::{
    Answer, AnswerEntry, LifeWord, OpenEntry, ReasonEntry, RuleEntry, StandingWord,
};
use crate::json::memory_text::{packet_text, rule_text};
use crate::json::names::name_text;
use crate::json::reason_entry::reason_entry;
use audits::{Form, Found, FoundRule, Inquiry, Known, Standing};
use rulesets::{Dump, MatchCount, OpenConditions};
use std::alloc::{AllocError, Global};

// What is known of a rule, in one word.
fn life_word(form: Form<'_>, known: &Known) -> LifeWord {
    match (form, known) {
        (_, Known::Covered(_)) => LifeWord::Covered,
        (Form::Cover(_), Known::Live(_, _)) => LifeWord::Missed,
        (Form::Dead | Form::Tests, Known::Live(_, _)) => LifeWord::Live,
        (_, Known::Dead(_) | Known::Unmet) => LifeWord::Dead,
        (_, Known::Unclear) => LifeWord::Unclear,
    }
}

// What a dead rule is beside those who decide its packets, in one word.
fn standing_word(standing: Standing) -> StandingWord {
    match standing {
        Standing::Redundant => StandingWord::Redundant,
        Standing::Shadowed => StandingWord::Shadowed,
    }
}

// A rule, without its conditions, and without its packet and the reason why it is dead.
fn bare_entry(
    alloc: Global,
    dump: &Dump,
    inquiry: Inquiry<'_>,
    rule: &FoundRule,
) -> Result<RuleEntry, AllocError> {
    let chain = name_text(alloc, dump.chain_name(rule.at.chain))?;
    Ok(RuleEntry {
        chain,
        number: rule.at.number,
        rule: rule_text(alloc, dump, rule.at)?,
        needs: Vec::new(alloc),
        life: life_word(inquiry.form, &rule.known),
        answers: Vec::new(alloc),
        packet: None,
        reason: None,
        standing: rule.known.standing(dump, rule.at).map(standing_word),
    })
}

// The answers under which a rule matches the packet that is known to match it.
fn answers_of(
    alloc: Global,
    open: &OpenConditions,
    known: &Known,
) -> Result<Vec<AnswerEntry>, AllocError> {
    match known {
        Known::Live(_, given) | Known::Covered(given) => {
            answer_entries(alloc, open, given.as_slice())
        }
        Known::Dead(_) | Known::Unmet | Known::Unclear => Ok(Vec::new(alloc)),
    }
}

// The packet that matches a rule, where one was found.
fn packet_of(alloc: Global, known: &Known) -> Result<Option<String>, AllocError> {
    match known {
        Known::Live(words, _) => Ok(Some(packet_text(alloc, words)?)),
        _ => Ok(None),
    }
}

// Why a rule is dead, where that is known and was asked.
fn reason_of(alloc: Global, dump: &Dump, known: &Known) -> Result<Option<ReasonEntry>, AllocError> {
    match known {
        Known::Dead(Some(reason)) => Ok(Some(reason_entry(alloc, dump, reason)?)),
        Known::Unmet => Ok(Some(ReasonEntry::Unmet)),
        _ => Ok(None),
    }
}

// Adds what an entry has beside the rule's name and text.
fn complete(
    alloc: Global,
    dump: &Dump,
    inquiry: Inquiry<'_>,
    rule: &FoundRule,
    entry: &mut RuleEntry,
) -> Result<(), AllocError> {
    entry.needs = answer_entries(alloc, inquiry.open, inquiry.dump.asked_by(rule.at))?;
    entry.answers = answers_of(alloc, inquiry.open, &rule.known)?;
    entry.packet = packet_of(alloc, &rule.known)?;
    entry.reason = reason_of(alloc, dump, &rule.known)?;
    Ok(())
}

// What is known of a rule.
fn rule_entry(
    alloc: Global,
    dump: &Dump,
    inquiry: Inquiry<'_>,
    rule: &FoundRule,
) -> Result<RuleEntry, AllocError> {
    let mut entry = bare_entry(alloc, dump, inquiry, rule)?;
    complete(alloc, dump, inquiry, rule, &mut entry)?;
    Ok(entry)
}

// What is known of each of some rules.
fn rule_entries(
    alloc: Global,
    dump: &Dump,
    inquiry: Inquiry<'_>,
    found: &Found,
) -> Result<Vec<RuleEntry>, AllocError> {
    let mut rules = Vec::new(alloc);
    for rule in found.rules.as_slice() {
        rules.push(rule_entry(alloc, dump, inquiry, rule)?)?;
    }
    Ok(rules)
}

// The answer of these entries.
fn answer_of(
    alloc: Global,
    form: Form<'_>,
    found: &Found,
    rules: Vec<RuleEntry>,
    open: Vec<OpenEntry>,
) -> Result<Answer, AllocError> {
    match form {
        Form::Dead => Ok(Answer::Dead {
            rules,
            counts: dead_counts(&found.tally),
            open,
        }),
        Form::Tests => Ok(Answer::Tests { rules, open }),
        Form::Cover(marks) => Ok(Answer::Cover {
            rules,
            counts: coverage_counts(&found.tally),
            unclear_lines: marks.unclear_lines().to_vec(alloc)?,
            open,
        }),
    }
}

/// What is known of rules, as a document, and how many conditions are open.
///
/// # Errors
///
/// `AllocError` where memory was refused.
pub(crate) fn rules_answer(
    alloc: Global,
    inquiry: Inquiry<'_>,
    found: &Found,
    counts: &[MatchCount],
) -> Result<Answer, AllocError> {
    let dump = inquiry.dump;
    let rules = rule_entries(alloc, dump, inquiry, found)?;
    let open = open_entries(alloc, inquiry.open, counts)?;
    answer_of(alloc, inquiry.form, found, rules, open)
}
