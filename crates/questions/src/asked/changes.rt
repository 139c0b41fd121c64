//! The rules by which two tables differ.
ghost use Rattle.std.specs.Prelude.{◌≡◌, ◌+◌, ◌<◌, All, IfOk, OnOk, length};
ghost use Rattle.questions.specs.Foreign.{Assignment};
ghost use Rattle.questions.specs.Scopes.{answered, whole_of};
ghost use Rattle.questions.specs.asked.Changes.{AreChanges, AreChangesUnder, AreThese};
ghost use Rattle.questions.specs.steps.Candidates.{AddsRules};
ghost use Rattle.questions.specs.steps.Shared.{HasPlace, IsMarkedRule, is_marked, unshared};

use crate::asked::pairs::{Pair, Side, marks_of, pairs_of};
use crate::foreign::subject::Subject;
use std::alloc::{AllocError, Global};
use table::{Step, Table};

/// The rules by which two tables differ, after chains of one name are aligned. Without them each chain has the same rules in both.
#[derive(Drop)]
pub struct Changes {
    /// Rules of the first table that the second one lacks.
    pub went: Vec<Step>,
    /// Rules of the second table that the first one lacks.
    pub came: Vec<Step>,
}

// Whether the rule of a number is marked, or stands beyond the marks.
fn is_marked(marks: &[bool], passed: usize) -> bool
    ensures { result ≡ is_marked marks.now (passed + 1) }
{
    passed >= marks.len() || marks[passed]
}

// Adds the marked rules of the chain at a place.
fn add_marked(
    table: &Table,
    place: usize,
    marks: &[bool],
    found: &mut Vec<Step>,
) -> Result<(), AllocError>
    requires { place < length table.now.table.chains }
    ensures { OnOk result (AddsRules (IsMarkedRule table.now.table marks.now) place found.old.items found.new.items) }
{
    for passed in 0..table.rule_count(place) {
        if is_marked(marks, passed) {
            found.push(Step {
                chain: place,
                number: passed + 1,
            })?;
        }
    }
    Ok(())
}

// The rules of a table, the first one or the second, that the other one lacks.
fn unshared_of(
    alloc: Global,
    table: &Table,
    old: &Table,
    pairs: &[Pair],
    side: Side,
) -> Result<Vec<Step>, AllocError>
    requires { All (HasPlace old.now.table) pairs.now }
    ensures { IfOk result (λ found. AreThese table.now.table (unshared side old.now.table.chains pairs.now) found.items) }
{
    let mut found = Vec::new(alloc);
    for place in 0..table.chain_count() {
        let marks = marks_of(old, pairs, side, table.chain_name(place));
        add_marked(table, place, marks, &mut found)?;
    }
    Ok(found)
}

/// The rules by which two tables differ, in the order of a listing; rules are equal if they need the same, too. So without the changes each chain has
/// the same rules in what is left of both tables, whatever holds. Chains of one name are aligned: where the next rules differ, the nearest equal one, up
/// to 1,023 rules further on in either chain, says which of them is a change. So a rule may count as one without need.
///
/// # Errors
///
/// `AllocError` where memory was refused.
pub fn changes_under(
    alloc: Global,
    old: &Subject<'_>,
    new: &Subject<'_>,
) -> Result<Changes, AllocError>
    ensures changes { IfOk result (λ changes. (a : Assignment) → AreChanges (answered old.now a) (answered new.now a) changes) }
    ensures unpaired { IfOk result (AreChangesUnder (whole_of old.now) (whole_of new.now)) }
{
    let pairs = pairs_of(alloc, old, new)?;
    let (first, second) = (&old.boxed.table, &new.boxed.table);
    first.stands();
    second.stands();
    let went = unshared_of(alloc, first, first, pairs.as_slice(), Side::Went)?;
    let came = unshared_of(alloc, second, first, pairs.as_slice(), Side::Came)?;
    Ok(Changes { went, came })
}
