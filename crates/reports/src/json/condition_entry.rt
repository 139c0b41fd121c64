//! Conditions, in a document.
use crate::json::document::{AnswerEntry, OpenEntry};
use crate::json::names::name_text;
use questions::Need;
use rulesets::{MatchCount, OpenConditions};
use std::alloc::{AllocError, Global};

// That a condition holds, or doesn't.
fn answer_entry(
    alloc: Global,
    open: &OpenConditions,
    need: Need,
) -> Result<AnswerEntry, AllocError> {
    let mut entry = AnswerEntry {
        condition: name_text(alloc, open.text(need.condition))?,
        chain: None,
        number: None,
        nth: None,
        holds: !need.inverted,
    };
    if let Some(place) = open.place(need.condition) {
        entry.chain = Some(name_text(alloc, place.chain)?);
        entry.number = place.number;
        entry.nth = place.nth;
    }
    Ok(entry)
}

/// That conditions hold, or don't.
///
/// # Errors
///
/// `AllocError` where memory was refused.
pub(crate) fn answer_entries(
    alloc: Global,
    open: &OpenConditions,
    given: &[Need],
) -> Result<Vec<AnswerEntry>, AllocError> {
    let mut entries = Vec::new(alloc);
    for need in given {
        entries.push(answer_entry(alloc, open, *need)?)?;
    }
    Ok(entries)
}

/// How many conditions are open, by their matches.
///
/// # Errors
///
/// `AllocError` where memory was refused.
pub(crate) fn open_entries(
    alloc: Global,
    open: &OpenConditions,
    counts: &[MatchCount],
) -> Result<Vec<OpenEntry>, AllocError> {
    let mut entries = Vec::new(alloc);
    for entry in counts {
        entries.push(OpenEntry {
            name: name_text(alloc, open.match_name(entry.condition))?,
            count: entry.count,
        })?;
    }
    Ok(entries)
}
