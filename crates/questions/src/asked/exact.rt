//! The leaves of a set of packets, cut into boxes that have only packets which can be at the hook.
ghost use Rattle.std.specs.Prelude.{ℕ, List, All, Any, IfOk, IsFalse, IsTrue, MatchOption, OnOk};
ghost use Rattle.fields.specs.declared.packet.hook.Hook.{Hook as HookView};
ghost use Rattle.table.specs.chains.Table.{Table};
ghost use Rattle.questions.specs.Foreign.{Assignment};
ghost use Rattle.questions.specs.Scopes.{Known, Whole, answered, known_by, under, whole_of};
ghost use Rattle.questions.specs.asked.Differing.{HasPackets};
ghost use Rattle.questions.specs.boxes.Boxes.{Has, HasNumbers};
ghost use Rattle.questions.specs.declared.foreign.answers.Answer.{Answer};
ghost use Rattle.questions.specs.declared.walking.scope.Scope.{Scope as ScopeView};
ghost use Rattle.questions.specs.steps.Compared.{AreWalked};
ghost use Rattle.questions.specs.steps.Exact.{AddsExact, AreExact, AreExactWalksUnder, ArePossible, IsPartIn, IsShown};
ghost use Rattle.questions.specs.steps.Taken.{IsUnfinishedUnder};
ghost use Rattle.questions.specs.steps.Transports.{AreByTransport};

use crate::boxes::area::Area;
use crate::boxes::meeting::meet;
use crate::boxes::transport::by_transport;
use crate::foreign::subject::Subject;
use crate::walking::engine::leaves_under;
use crate::walking::scope::Scope;
use crate::walking::task::{Leaf, copy_trail};
use fields::Hook;
use std::alloc::{AllocError, Global};

// The part of a leaf that is in a box, if it has packets. It takes no memory where the boxes share none.
fn part_of(leaf: &Leaf, area: &Area) -> Result<Option<Leaf>, AllocError>
    ensures { IfOk result (IsPartIn leaf.now area.now) }
{
    if !meet(leaf.area.sets(), area.sets()) {
        return Ok(None);
    }
    let alloc = *leaf.trail.allocator();
    let part = leaf.area.within(alloc, area.sets())?;
    if part.is_empty() {
        return Ok(None);
    }
    let answers = leaf.answers.copy(alloc)?;
    let trail = copy_trail(alloc, leaf.trail.as_slice())?;
    Ok(Some(Leaf {
        area: part,
        answers,
        trail,
        verdict: leaf.verdict,
        by_policy: leaf.by_policy,
    }))
}

// Adds the parts of a leaf that are in some boxes.
fn add_parts(possible: &[Area], leaf: &Leaf, exact: &mut Vec<Leaf>) -> Result<(), AllocError>
    ensures { OnOk result ((t : Table) (known : Known) (hook : HookView) (scope : ScopeView) → AreByTransport scope.area possible.now
        → IsShown t known hook scope leaf.now → AddsExact t known hook scope leaf.now exact.old.items exact.new.items) }
{
    for area in possible {
        match part_of(leaf, area)? {
            None => {}
            Some(part) => exact.push(part)?,
        }
    }
    Ok(())
}

// The packets that some leaves share with a box, which is given by its packets with each transport header, as boxes of packets that can be
// at the hook.
fn exact_of(alloc: Global, possible: &[Area], found: &[Leaf]) -> Result<Vec<Leaf>, AllocError>
    ensures { IfOk result (λ exact. (t : Table) (known : Known) (hook : HookView) (scope : ScopeView) → AreByTransport scope.area possible.now
        → All (IsShown t known hook scope) found.now → AreExact t known hook scope found.now exact.items) }
{
    let mut exact = Vec::new(alloc);
    for leaf in found {
        add_parts(possible, leaf, &mut exact)?;
    }
    Ok(exact)
}

// The walks of all packets of a scope that can be at a hook, as boxes of such packets; none where the scope can't be walked within the budget.
pub(crate) fn exact_walks(
    alloc: Global,
    subject: &Subject<'_>,
    hook: Hook,
    start: Scope,
    budget: usize,
) -> Result<Option<Vec<Leaf>>, AllocError>
    ensures { IfOk result (λ found. MatchOption found
        (IsUnfinishedUnder (whole_of subject.now) hook start budget)
        (λ exact. (a : Assignment) → AreExactWalksUnder (answered subject.now a) (known_by subject.now a) hook start exact.items)) }
{
    let possible = by_transport(alloc, &start.area)?;
    match leaves_under(alloc, subject, hook, start, budget)? {
        None => Ok(None),
        Some(found) => Ok(Some(exact_of(alloc, possible.as_slice(), found.as_slice())?)),
    }
}

// The packets of a box that can be at a hook, as a box for each transport header.
fn possible_of(alloc: Global, hook: Hook, area: &Area) -> Result<Vec<Area>, AllocError>
    ensures { IfOk result (λ boxes. ArePossible hook area.now boxes.items) }
{
    let there = Area::at_hook(alloc, hook)?.within(alloc, area.sets())?;
    let boxes = by_transport(alloc, &there)?;
    Ok(boxes)
}

// Whether one of some boxes has numbers.
fn has_some(boxes: &[Area]) -> bool
    ensures some { IsTrue result → Any HasNumbers boxes.now }
    ensures none { IsFalse result → All (λ part. (numbers : List ℕ) → Has part numbers → ⊥) boxes.now }
{
    for part in boxes {
        if !part.is_empty() {
            return true;
        }
    }
    false
}

// Whether some packet that can be at a hook is in a box.
pub(crate) fn has_packets(alloc: Global, hook: Hook, area: &Area) -> Result<bool, AllocError>
    ensures some { IfOk result (λ is. IsTrue is → HasPackets hook area.now) }
    ensures none { IfOk result (λ is. IsFalse is → HasPackets hook area.now → ⊥) }
{
    let possible = possible_of(alloc, hook, area)?;
    Ok(has_some(possible.as_slice()))
}

// The leaves of a box's packets, cut into boxes that have only packets which can be at the hook.
pub(crate) fn exact_at(
    alloc: Global,
    hook: Hook,
    area: &Area,
    found: &[Leaf],
) -> Result<Vec<Leaf>, AllocError>
    ensures walked { IfOk result (λ exact. (t : Whole) (answers : List Answer) → AreWalked t hook (under area.now answers) found.now
        → AreWalked t hook (under area.now answers) exact.items) }
    ensures some { IfOk result (λ exact. (t : Whole) (answers : List Answer) → AreWalked t hook (under area.now answers) found.now
        → All (λ leaf. HasPackets hook leaf.area) exact.items) }
{
    let possible = possible_of(alloc, hook, area)?;
    exact_of(alloc, possible.as_slice(), found)
}
