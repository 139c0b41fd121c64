//! Chains from which a packet comes back at once, and what rules need where no jump into such a chain asks anything.
ghost use Rattle.std.specs.Prelude.{◌≡◌, ◌<◌, ◌↔◌, ℕ, List, length, map, IfOk, IsTrue};
ghost use Rattle.table.specs.chains.Table.{chain_at};
ghost use Rattle.questions.specs.Foreign.{IsNeeded, needs_at};
ghost use Rattle.questions.specs.Scopes.{table_of};
ghost use Rattle.questions.specs.asked.Idle.{AreIdle, AreSpared, ComesBack, IsIdleJump, IsSpared};
ghost use Rattle.questions.specs.boxes.Boxes.{IsAtHook};
ghost use Rattle.questions.specs.steps.Ending.{AreIdleMarks, AreSparedIn, items_in};
ghost use Rattle.questions.specs.steps.Waiting.{IsThere, rule_ahead};

use crate::foreign::left::unmeetable;
use crate::foreign::need::{Need, Needs};
use crate::foreign::subject::Subject;
use crate::seeking::seen::Seen;
use crate::walking::task::Pending;
use fields::Packet;
use rules::{Rule, Target};
use std::alloc::{AllocError, Global};
use table::{Step, Table};

// Whether a target leaves a packet in its chain, or sends it back from there.
fn comes_back(target: Option<Target>) -> bool
    ensures { IsTrue result ↔ ComesBack target }
{
    match target {
        None | Some(Target::Log | Target::Return) => true,
        Some(
            Target::Accept | Target::Drop | Target::Reject(_) | Target::Jump(_) | Target::Goto(_),
        ) => false,
    }
}

// Whether a packet comes back at once from the chain at a place, whatever holds.
fn is_idle(subject: &Subject<'_>, packet: &Packet, place: usize) -> bool
    requires can { IsAtHook packet.now }
    requires place { place < length (table_of subject.now).chains }
    ensures { IsTrue result ↔ AreIdle packet.now.values (chain_at (table_of subject.now) place).rules }
{
    for passed in 0..subject.boxed.table.rule_count(place) {
        let by = Step {
            chain: place,
            number: passed + 1,
        };
        let Some(seen) = Seen::at(*subject, by) else {
            return true;
        };
        if seen.matches(packet) && !comes_back(seen.rule.target()) {
            return false;
        }
    }
    true
}

// A mark for each chain, whether a packet comes back at once from there.
fn idle_marks(
    alloc: Global,
    subject: &Subject<'_>,
    packet: &Packet,
) -> Result<Vec<bool>, AllocError>
    requires { IsAtHook packet.now }
    ensures { IfOk result (λ marks. AreIdleMarks (table_of subject.now) packet.now.values marks.items) }
{
    let mut marks = Vec::new(alloc);
    for place in 0..subject.boxed.table.chain_count() {
        marks.push(is_idle(subject, packet, place))?;
    }
    Ok(marks)
}

// Whether a rule jumps to a marked chain. One that isn't there has no rules, and the packet comes back.
fn is_idle_jump(table: &Table, marks: &[bool], rule: &Rule) -> bool
    requires { length marks.now ≡ length table.now.table.chains }
    ensures { (values : List ℕ) → AreIdleMarks table.now.table values marks.now → IsTrue result ↔ IsIdleJump table.now.table values rule.now }
{
    match rule.target() {
        Some(Target::Jump(name)) => match table.index_of(name.bytes()) {
            Some(place) => marks[place],
            None => true,
        },
        _ => false,
    }
}

// What a rule needs, where it asks nothing if it is such a jump.
fn spared_at(
    alloc: Global,
    subject: &Subject<'_>,
    marks: &[bool],
    at: Pending,
) -> Result<Vec<Need>, AllocError>
    requires long { length marks.now ≡ length (table_of subject.now).chains }
    requires there { IsThere (table_of subject.now).chains at }
    requires passed { at.passed < length (chain_at (table_of subject.now) at.chain).rules }
    ensures { IfOk result (λ needs. (values : List ℕ) → AreIdleMarks (table_of subject.now) values marks.now
        → IsSpared (table_of subject.now) values (rule_ahead (table_of subject.now) at) (needs_at subject.now.needs.now at.chain at.passed) needs.items) }
{
    let table = &subject.boxed.table;
    table.stands();
    let count = table.rule_count(at.chain);
    prove!(at.passed < count);
    let rule = table.rule(at.chain, at.passed + 1);
    let needs = subject.needs.at(at.chain, at.passed);
    let Some(first) = needs.first() else {
        return Ok(Vec::new(alloc));
    };
    if is_idle_jump(table, marks, rule) {
        return unmeetable(alloc, *first);
    }
    let mut same = Vec::new(alloc);
    same.extend_from_slice(needs)?;
    Ok(same)
}

// The same of the rules of the chain at a place.
fn spared_in(
    alloc: Global,
    subject: &Subject<'_>,
    marks: &[bool],
    place: usize,
) -> Result<Vec<Vec<Need>>, AllocError>
    requires long { length marks.now ≡ length (table_of subject.now).chains }
    requires place { place < length (table_of subject.now).chains }
    ensures { IfOk result (λ lists. (values : List ℕ) → AreIdleMarks (table_of subject.now) values marks.now
        → AreSparedIn (table_of subject.now) values subject.now.needs.now place (map items_in lists.items)) }
{
    let count = subject.boxed.table.rule_count(place);
    let mut lists = Vec::new(alloc);
    for passed in 0..count {
        let at = Pending {
            chain: place,
            passed,
        };
        lists.push(spared_at(alloc, subject, marks, at)?)?;
    }
    Ok(lists)
}

// What the rules of a table need, where no jump asks anything into a chain from which the packet comes back at once. It takes a look at each rule.
pub(crate) fn spared(
    alloc: Global,
    subject: &Subject<'_>,
    packet: &Packet,
) -> Result<Needs, AllocError>
    requires { IsAtHook packet.now }
    ensures spared { IfOk result (AreSpared (table_of subject.now) packet.now.values subject.now.needs.now) }
    ensures asked { IfOk result (λ others. (condition : ℕ) → IsNeeded others condition → IsNeeded subject.now.needs.now condition) }
{
    let marks = idle_marks(alloc, subject, packet)?;
    let mut chains = Vec::new(alloc);
    for place in 0..subject.boxed.table.chain_count() {
        chains.push(spared_in(alloc, subject, marks.as_slice(), place)?)?;
    }
    Ok(Needs::of(chains))
}
