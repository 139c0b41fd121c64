//! Packets grouped by verdict and decider, with their numbers on a field.
ghost use Rattle.std.specs.Prelude.{◌≡◌, ◌↔◌, false, All, Any, IfOk, IsTrue, OnOk};
ghost use Rattle.fields.specs.numbers.Field.{top};
ghost use Rattle.questions.specs.steps.Groups.{AreGroups, HasEnd, IsJoined, IsNamed, IsNumbersOf, Lists};

use crate::walking::task::Leaf;
use fields::{Field, Spans};
use std::alloc::{AllocError, Global};
use table::{Step, Verdict};

/// The packets that one decider gives one verdict, by their numbers on a field.
#[derive(Drop)]
pub struct Reached {
    /// Their verdict.
    pub verdict: Verdict,
    /// The rule that decides, the last that matches; none where the policy does.
    pub by: Option<Step>,
    /// Their numbers on the field.
    pub numbers: Spans,
}

// Whether a leaf has this verdict by this decider.
fn has_end(leaf: &Leaf, verdict: Verdict, by: Option<Step>) -> bool
    ensures { IsTrue result ↔ HasEnd verdict by leaf.now }
{
    leaf.verdict == verdict && leaf.decider() == by
}

// Whether an entry has them.
fn is_named(entry: &Reached, verdict: Verdict, by: Option<Step>) -> bool
    ensures { IsTrue result ↔ IsNamed verdict by entry.now }
{
    entry.verdict == verdict && entry.by == by
}

// Numbers on a field, and those of a leaf where it has this verdict by this decider.
fn joined(
    alloc: Global,
    numbers: Spans,
    field: Field,
    leaf: &Leaf,
    verdict: Verdict,
    by: Option<Step>,
) -> Result<Spans, AllocError>
    requires { numbers.top ≡ top field }
    ensures { IfOk result (IsJoined field verdict by leaf.now numbers) }
{
    if has_end(leaf, verdict, by) {
        return numbers.join(alloc, leaf.area.on(field));
    }
    Ok(numbers)
}

// The numbers on a field of all leaves with this verdict by this decider.
fn numbers_of(
    alloc: Global,
    field: Field,
    exact: &[Leaf],
    verdict: Verdict,
    by: Option<Step>,
) -> Result<Spans, AllocError>
    ensures { IfOk result (IsNumbersOf field exact.now verdict by) }
{
    let mut numbers = Spans::none(alloc, field.top());
    for leaf in exact {
        numbers = joined(alloc, numbers, field, leaf, verdict, by)?;
    }
    Ok(numbers)
}

// Whether some entry has this verdict by this decider.
fn is_listed(reached: &[Reached], verdict: Verdict, by: Option<Step>) -> bool
    ensures there { IsTrue result → Any (IsNamed verdict by) reached.now }
    ensures apart { result ≡ false → All (λ entry. IsNamed verdict by entry → ⊥) reached.now }
{
    for entry in reached {
        if is_named(entry, verdict, by) {
            return true;
        }
    }
    false
}

// Adds an entry for the verdict and the decider of a leaf, if there is none yet.
fn add_end(
    alloc: Global,
    field: Field,
    exact: &[Leaf],
    leaf: &Leaf,
    reached: &mut Vec<Reached>,
) -> Result<(), AllocError>
    ensures { OnOk result (Lists field exact.now leaf.now reached.old.items reached.new.items) }
{
    let by = leaf.decider();
    if is_listed(reached.as_slice(), leaf.verdict, by) {
        return Ok(());
    }
    let numbers = numbers_of(alloc, field, exact, leaf.verdict, by)?;
    reached.push(Reached {
        verdict: leaf.verdict,
        by,
        numbers,
    })?;
    Ok(())
}

// The numbers on a field by verdict and decider.
pub(crate) fn grouped(
    alloc: Global,
    field: Field,
    exact: &[Leaf],
) -> Result<Vec<Reached>, AllocError>
    ensures { IfOk result (λ reached. AreGroups field exact.now reached.items) }
{
    let mut reached = Vec::new(alloc);
    for leaf in exact {
        add_end(alloc, field, exact, leaf, &mut reached)?;
    }
    Ok(reached)
}
