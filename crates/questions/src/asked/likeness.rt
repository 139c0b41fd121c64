//! Whether two tables give the packets of a scope the same verdicts: those of each leaf of the first table walk the second one.
ghost use Rattle.std.specs.Prelude.{ℕ, All, IfOk};
ghost use Rattle.questions.specs.Scopes.{scope_of, whole_of};
ghost use Rattle.questions.specs.asked.Alike.{IsGivenBy, IsOtherIf, IsSameIf, IsSameOn, SaysIf};
ghost use Rattle.questions.specs.asked.Differing.{IsUnclearIf, MayDifferOn};
ghost use Rattle.questions.specs.declared.foreign.subject.Subject.{Subject as First};
ghost use Rattle.questions.specs.steps.Compared.{AreWalked, IsUnwritten, MayDifferAmong, MayDifferIn};

use crate::asked::exact::{exact_at, has_packets};
use crate::asked::other::{all_give, other_among};
use crate::foreign::answers::Answers;
use crate::foreign::subject::Subject;
use crate::walking::course::Course;
use crate::walking::engine::leaves_under;
use crate::walking::scope::Scope;
use crate::walking::task::Leaf;
use fields::{Hook, Words};
use std::alloc::AllocError;

/// What is known of two tables.
#[derive(Drop)]
pub enum Likeness {
    /// Both give each packet that can be at the hook the same verdict, whichever rule or policy gives it, and whatever holds that rules need.
    Same,
    /// These words write a packet, and where the answers are right the tables give it two verdicts.
    Differ(Words, Answers),
    /// Neither is known: the steps don't suffice, a trail is full, or the tables give some packet two verdicts, and none that a line writes.
    Unclear,
}

// What is said of the packets of a leaf of a first table, where those of the leaves of the second one that have another verdict can't be
// written: it is told by packets that can be at the hook.
fn likeness_unwritten(hook: Hook, leaf: &Leaf, found: &[Leaf]) -> Result<Likeness, AllocError>
    requires { All (IsUnwritten hook leaf.now.verdict) found.now }
    ensures same { IfOk result (λ likeness. (new : First) → AreWalked (whole_of new) hook (scope_of leaf.now) found.now
        → IsSameIf (IsGivenBy new hook leaf.now) likeness) }
    ensures other { IfOk result (λ likeness. (old new : First) → IsOtherIf old new hook likeness) }
    ensures unclear { IfOk result (λ likeness. (new : First) (budget : ℕ) → AreWalked (whole_of new) hook (scope_of leaf.now) found.now
        → IsUnclearIf (MayDifferIn (whole_of new) hook budget leaf.now) likeness) }
{
    let alloc = *leaf.trail.allocator();
    let exact = exact_at(alloc, hook, &leaf.area, found)?;
    if all_give(exact.as_slice(), leaf.verdict) {
        return Ok(Likeness::Same);
    }
    Ok(Likeness::Unclear)
}

// What is said of the packets of a leaf of a first table, where these get the leaf's verdict: they walk the second one.
fn likeness_in(
    new: &Subject<'_>,
    hook: Hook,
    leaf: &Leaf,
    budget: usize,
) -> Result<Likeness, AllocError>
    ensures same { IfOk result (IsSameIf (IsGivenBy new.now hook leaf.now)) }
    ensures other { IfOk result (λ likeness. (old : First) → IsGivenBy old hook leaf.now → IsOtherIf old new.now hook likeness) }
    ensures unclear { IfOk result (IsUnclearIf (MayDifferIn (whole_of new.now) hook budget leaf.now)) }
{
    let alloc = *leaf.trail.allocator();
    let area = leaf.area.copy(alloc)?;
    let answers = leaf.answers.copy(alloc)?;
    let start = Scope { area, answers };
    let Some(found) = leaves_under(alloc, new, hook, start, budget)? else {
        if has_packets(alloc, hook, &leaf.area)? {
            return Ok(Likeness::Unclear);
        }
        return Ok(Likeness::Same);
    };
    if all_give(found.as_slice(), leaf.verdict) {
        return Ok(Likeness::Same);
    }
    match other_among(hook, found.as_slice(), leaf.verdict)? {
        None => likeness_unwritten(hook, leaf, found.as_slice()),
        Some(shown) => {
            shown.answers.stand();
            Ok(Likeness::Differ(shown.words, shown.answers))
        }
    }
}

// What is said of the packets of all leaves of a first table, where these get the leaves' verdicts.
fn likeness_among(
    new: &Subject<'_>,
    hook: Hook,
    found: &[Leaf],
    budget: usize,
) -> Result<Likeness, AllocError>
    ensures says { IfOk result (λ likeness. (old : First) → All (IsGivenBy old hook) found.now
        → SaysIf (All (IsGivenBy new.now hook) found.now) old new.now hook likeness) }
    ensures unclear { IfOk result (IsUnclearIf (MayDifferAmong (whole_of new.now) hook budget found.now)) }
{
    let mut clear = true;
    for leaf in found {
        match likeness_in(new, hook, leaf, budget)? {
            Likeness::Same => {}
            Likeness::Differ(words, answers) => return Ok(Likeness::Differ(words, answers)),
            Likeness::Unclear => clear = false,
        }
    }
    if clear {
        return Ok(Likeness::Same);
    }
    Ok(Likeness::Unclear)
}

// What is said of the packets of a scope: they walk the first table, and each leaf the second one.
pub(crate) fn likeness_on(
    old: &Subject<'_>,
    new: &Subject<'_>,
    course: Course,
    start: Scope,
) -> Result<Likeness, AllocError>
    ensures says { IfOk result (SaysIf (IsSameOn old.now new.now course.hook start) old.now new.now course.hook) }
    ensures unclear { IfOk result (IsUnclearIf (MayDifferOn (whole_of old.now) (whole_of new.now) course.hook course.budget start)) }
{
    let Some(found) = leaves_under(course.alloc, old, course.hook, start, course.budget)? else {
        return Ok(Likeness::Unclear);
    };
    likeness_among(new, course.hook, found.as_slice(), course.budget)
}
