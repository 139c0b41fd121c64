//! Whether a packet surely comes to a rule: all that it may meet before leaves it where it may be.
ghost use Rattle.std.specs.Prelude.{◌≡◌, ◌⊎◌, ◌<◌, true, false, length, slice_index, IfOk, IsTrue};
ghost use Rattle.rules.specs.rule.Actions.{target_of};
ghost use Rattle.rules.specs.rule.Allows.{matches};
ghost use Rattle.questions.specs.Ends.{IsRule};
ghost use Rattle.questions.specs.Foreign.{Agrees, Assignment};
ghost use Rattle.questions.specs.Leaves.{entry_of};
ghost use Rattle.questions.specs.Scopes.{answered, table_of};
ghost use Rattle.questions.specs.asked.Necessary.{AreEnough};
ghost use Rattle.questions.specs.boxes.Boxes.{IsAtHook};
ghost use Rattle.questions.specs.steps.Before.{AreMetBefore, AreMetIn, IsMetThere, IsSought, LeavesThere};
ghost use Rattle.questions.specs.steps.Lengths.{number_of};

use crate::foreign::need::{Standing, known_of};
use crate::seeking::before::{Approach, Before};
use crate::seeking::seen::Seen;
use crate::walking::engine::hook_index;
use crate::walking::lengths::{are_short, number_of};
use rules::Target;
use std::alloc::{AllocError, Global};
use table::{Step, Table};

// Whether a rule that matches leaves the packet where it may be.
fn leaves_there(table: &Table, before: &Before<'_>, by: Step, target: Option<Target>) -> bool
    requires far { length before.now.far.items ≡ length table.now.table.chains }
    requires back { length before.now.back.items ≡ length table.now.table.chains }
    requires there { by.chain < length table.now.table.chains }
    ensures { IsTrue result → LeavesThere (number_of table.now.table.chains before.now.far.items) (number_of table.now.table.chains before.now.back.items)
        (slice_index before.now.far.items by.chain) (slice_index before.now.back.items by.chain) by.number target }
{
    let far = before.far.as_slice();
    let back = before.back.as_slice();
    match target {
        Some(Target::Accept | Target::Drop | Target::Reject(_)) => false,
        Some(Target::Log) | None => by.number < far[by.chain],
        Some(Target::Return) => 0 < back[by.chain],
        Some(Target::Jump(name)) => {
            let is_back = 0 < number_of(table, back, name.bytes());
            0 < number_of(table, far, name.bytes()) && (!is_back || by.number < far[by.chain])
        }
        Some(Target::Goto(name)) => {
            let is_back = 0 < number_of(table, back, name.bytes());
            0 < number_of(table, far, name.bytes()) && (!is_back || 0 < back[by.chain])
        }
    }
}

// Whether a rule, of which all holds that it needs, leaves the packet where it may be, or is the wanted one.
fn stays_by(approach: &Approach<'_, '_, '_>, before: &Before<'_>, seen: &Seen<'_>, by: Step) -> bool
    requires can { IsAtHook approach.now.packet.now }
    requires far { length before.now.far.items ≡ length (table_of approach.now.subject).chains }
    requires back { length before.now.back.items ≡ length (table_of approach.now.subject).chains }
    requires there { by.chain < length (table_of approach.now.subject).chains }
    ensures passed { IsTrue result → matches approach.now.packet.now.values seen.now.rule.now ≡ false → by.number < slice_index before.now.far.items by.chain }
    ensures matched { IsTrue result → matches approach.now.packet.now.values seen.now.rule.now ≡ true
        → (by ≡ approach.now.wanted) ⊎ LeavesThere (number_of (table_of approach.now.subject).chains before.now.far.items) (number_of (table_of approach.now.subject).chains before.now.back.items)
        (slice_index before.now.far.items by.chain) (slice_index before.now.back.items by.chain) by.number (target_of seen.now.rule.now) }
{
    if !seen.matches(approach.packet) {
        return by.number < before.far[by.chain];
    }
    let table = &approach.subject.boxed.table;
    by == approach.wanted || leaves_there(table, before, by, seen.rule.target())
}

// Whether a rule leaves the packet where it may be, or is the wanted one.
fn is_met(approach: &Approach<'_, '_, '_>, before: &Before<'_>, by: Step) -> bool
    requires can { IsAtHook approach.now.packet.now }
    requires far { length before.now.far.items ≡ length (table_of approach.now.subject).chains }
    requires back { length before.now.back.items ≡ length (table_of approach.now.subject).chains }
    ensures { IsTrue result → IsMetThere approach.now.subject approach.now.packet.now approach.now.answers.now approach.now.wanted before.now.far.items before.now.back.items by }
{
    let subject = approach.subject;
    let Some(seen) = Seen::at(subject, by) else {
        return false;
    };
    let goes_on = by.number < before.far[by.chain];
    match known_of(seen.needs, approach.answers) {
        Standing::Fails => goes_on,
        Standing::Holds => stays_by(approach, before, &seen, by),
        Standing::Open(_) => goes_on && stays_by(approach, before, &seen, by),
    }
}

// Whether each rule of the chain at a place does, and its end.
fn are_met(approach: &Approach<'_, '_, '_>, before: &Before<'_>, place: usize) -> bool
    requires can { IsAtHook approach.now.packet.now }
    requires far { length before.now.far.items ≡ length (table_of approach.now.subject).chains }
    requires back { length before.now.back.items ≡ length (table_of approach.now.subject).chains }
    requires there { place < length (table_of approach.now.subject).chains }
    ensures { IsTrue result → AreMetIn approach.now.subject approach.now.packet.now approach.now.answers.now approach.now.wanted before.now.far.items before.now.back.items place }
{
    let count = approach.subject.boxed.table.rule_count(place);
    let far = before.far[place];
    for passed in 0..count.min(far) {
        let by = Step {
            chain: place,
            number: passed + 1,
        };
        if !is_met(approach, before, by) {
            return false;
        }
    }
    far <= count || 0 < before.back[place]
}

// Whether those of all chains do.
fn are_all_met(approach: &Approach<'_, '_, '_>, before: &Before<'_>) -> bool
    requires can { IsAtHook approach.now.packet.now }
    requires far { length before.now.far.items ≡ length (table_of approach.now.subject).chains }
    requires back { length before.now.back.items ≡ length (table_of approach.now.subject).chains }
    ensures { IsTrue result → AreMetBefore approach.now.subject approach.now.packet.now approach.now.answers.now approach.now.wanted before.now.far.items before.now.back.items }
{
    for place in 0..approach.subject.boxed.table.chain_count() {
        if !are_met(approach, before, place) {
            return false;
        }
    }
    true
}

// Whether a packet is known to come to a rule, if its walk isn't too long, where the answers are right and whatever else holds. It takes a look at each rule that
// the packet may meet before, twice, and the memory of three numbers a chain, and of the rows of those that lead one to another.
fn comes_surely(alloc: Global, approach: &Approach<'_, '_, '_>) -> Result<bool, AllocError>
    requires can { IsAtHook approach.now.packet.now }
    requires wanted { IsRule (table_of approach.now.subject) approach.now.wanted }
    ensures { IfOk result (λ is. IsTrue is → (a : Assignment) → Agrees a approach.now.answers.now
        → IsSought (answered approach.now.subject a) (entry_of (answered approach.now.subject a).chains approach.now.wanted) approach.now.packet.now) }
{
    let table = &approach.subject.boxed.table;
    table.stands();
    let count = table.chain_count();
    let first = hook_index(approach.packet.hook());
    let mut before = Before::nowhere(alloc, count)?;
    before.spread(approach, first)?;
    if before.far.len() != count || before.back.len() != count || first >= count {
        return Ok(false);
    }
    if before.far[first] == 0 || before.back[first] > 0 {
        return Ok(false);
    }
    Ok(are_all_met(approach, &before))
}

// Whether answers are known to suffice for a rule to be on the walk of a packet, without a walk for each assignment.
pub(crate) fn suffice_surely(
    alloc: Global,
    approach: &Approach<'_, '_, '_>,
) -> Result<bool, AllocError>
    requires can { IsAtHook approach.now.packet.now }
    requires wanted { IsRule (table_of approach.now.subject) approach.now.wanted }
    ensures { IfOk result (λ is. IsTrue is → AreEnough approach.now.subject approach.now.wanted approach.now.packet.now approach.now.answers.now) }
{
    if !are_short(&approach.subject, approach.packet.hook()) {
        return Ok(false);
    }
    let comes = comes_surely(alloc, approach)?;
    Ok(comes)
}
