//! The verdicts of a set of packets, grouped by a field, in a document.
ghost use Rattle.std.specs.Prelude.{◌≡◌, All};
ghost use Rattle.fields.specs.numbers.Field.{top};

use crate::json::document::{Answer, OutcomeEntry};
use crate::json::memory_text::verdict_text;
use crate::json::names::{decider_entry, name_text};
use fields::{Field, Hook};
use notation::set_word;
use questions::Reached;
use rulesets::Dump;
use std::alloc::{AllocError, Global};

// The numbers of a set on a field.
fn numbers_text(alloc: Global, field: Field, reached: &Reached) -> Result<String, AllocError>
    requires { reached.now.numbers.top ≡ top field }
{
    let numbers = set_word(alloc, field, &reached.numbers)?;
    name_text(alloc, numbers.as_slice())
}

// A verdict with what gives it, and the numbers of its packets.
fn outcome_entry(
    alloc: Global,
    dump: &Dump,
    hook: Hook,
    field: Field,
    reached: &Reached,
) -> Result<OutcomeEntry, AllocError>
    requires { reached.now.numbers.top ≡ top field }
{
    let numbers = numbers_text(alloc, field, reached)?;
    let by = decider_entry(alloc, dump, hook, reached.by)?;
    Ok(OutcomeEntry {
        verdict: verdict_text(alloc, dump.given(reached.verdict, reached.by))?,
        by,
        numbers,
    })
}

// Each verdict.
fn outcome_entries(
    alloc: Global,
    dump: &Dump,
    hook: Hook,
    field: Field,
    found: &[Reached],
) -> Result<Vec<OutcomeEntry>, AllocError>
    requires { All (λ reached. reached.numbers.top ≡ top field) found.now }
{
    let mut outcomes = Vec::new(alloc);
    for reached in found {
        outcomes.push(outcome_entry(alloc, dump, hook, field, reached)?)?;
    }
    Ok(outcomes)
}

/// The verdicts of a set of packets at a hook, grouped by a field, as a document.
///
/// # Errors
///
/// `AllocError` where memory was refused.
pub(crate) fn outcomes_answer(
    alloc: Global,
    dump: &Dump,
    hook: Hook,
    field: Field,
    found: &[Reached],
) -> Result<Answer, AllocError>
    requires { All (λ reached. reached.numbers.top ≡ top field) found.now }
{
    let outcomes = outcome_entries(alloc, dump, hook, field, found)?;
    Ok(Answer::Reach {
        field: name_text(alloc, field.name())?,
        outcomes,
    })
}

/// That the verdicts of a set of packets aren't known, as a document.
///
/// # Errors
///
/// `AllocError` where memory was refused.
pub(crate) fn unclear_answer(alloc: Global, field: Field) -> Result<Answer, AllocError> {
    Ok(Answer::UnclearReach {
        field: name_text(alloc, field.name())?,
        unclear: true,
    })
}
