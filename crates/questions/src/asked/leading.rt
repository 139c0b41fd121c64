//! The chains from which jumps and gotos lead to a chain.
ghost use Rattle.std.specs.Prelude.{◌≡◌, ◌<◌, ◌↔◌, false, true, length, option_map, slice_index_or, IfOk, IfSome, IsTrue};
ghost use Rattle.fields.specs.declared.packet.hook.Hook.{Hook as HookView};
ghost use Rattle.table.specs.chains.Table.{chain_at};
ghost use Rattle.table.specs.steps.Kept.{hook_index};
ghost use Rattle.questions.specs.Ends.{IsRule, rule_at};
ghost use Rattle.questions.specs.boxes.Calls.{IsCall};
ghost use Rattle.questions.specs.steps.Leading.{AreClosed, AreLeading, AreSpread, Counts, IsClosedBy, IsMarkedName, NamesMarked, Spreads, unmarked};

use crate::boxes::boxed_table::BoxedTable;
use crate::boxes::meeting::meet;
use crate::seeking::calls::Call;
use crate::walking::engine::hook_index;
use fields::Hook;
use rules::{Rule, Target};
use std::alloc::{AllocError, Global};
use table::{Step, Table};

// Whether a name is that of a marked chain.
fn is_marked(table: &Table, marks: &[bool], name: &[u8]) -> bool
    requires { length marks.now ≡ length table.now.table.chains }
    ensures { IsTrue result ↔ IsMarkedName table.now.table.chains marks.now name.now }
{
    table.stands();
    match table.index_of(name) {
        Some(place) => marks[place],
        None => false,
    }
}

// Whether a rule names a marked chain.
pub(crate) fn names_marked(table: &Table, marks: &[bool], rule: &Rule) -> bool
    requires { length marks.now ≡ length table.now.table.chains }
    ensures { IsTrue result ↔ NamesMarked table.now.table.chains marks.now rule.now }
{
    match rule.target() {
        Some(Target::Jump(name)) => is_marked(table, marks, name.bytes()),
        Some(Target::Goto(name)) => is_marked(table, marks, name.bytes()),
        Some(Target::Accept | Target::Drop | Target::Reject(_) | Target::Log | Target::Return)
        | None => false,
    }
}

// Whether a rule counts: beside another one, if it is given, only where both allow some numbers.
fn counts(subject: &BoxedTable, own: Option<Step>, by: Step) -> bool
    requires own { IfSome own (IsRule subject.now.table.table) }
    requires by { IsRule subject.now.table.table by }
    ensures { IsTrue result ↔ Counts (option_map (rule_at subject.now.table.table) own) (rule_at subject.now.table.table by) }
{
    match own {
        None => true,
        Some(step) => meet(
            subject.at(step.chain, step.number).spans(),
            subject.at(by.chain, by.number).spans(),
        ),
    }
}

// Marks the chain of a rule that counts and leads to a marked one. Whether it wasn't marked before.
fn mark_by(subject: &BoxedTable, own: Option<Step>, marks: &mut Vec<bool>, call: Call) -> bool
    requires own { IfSome own (IsRule subject.now.table.table) }
    requires long { length marks.old.items ≡ length subject.now.table.table.chains }
    requires call { IsCall subject.now.table.table call }
    ensures more { Spreads subject.now.table.table (option_map (rule_at subject.now.table.table) own) marks.old.items marks.new.items }
    ensures fewer { IsTrue result → unmarked marks.new.items < unmarked marks.old.items }
    ensures same { result ≡ false → marks.new.items ≡ marks.old.items }
    ensures closed { result ≡ false → IsClosedBy subject.now.table.table (option_map (rule_at subject.now.table.table) own) marks.old.items call }
{
    let Call { to, by } = call;
    if !marks[to] || marks[by.chain] {
        return false;
    }
    if !counts(subject, own, by) {
        return false;
    }
    subject.table.stands();
    marks[by.chain] = true;
    true
}

// Marks the chain of each such rule. Whether one is marked that wasn't before.
fn spread(subject: &BoxedTable, own: Option<Step>, marks: &mut Vec<bool>) -> bool
    requires own { IfSome own (IsRule subject.now.table.table) }
    requires long { length marks.old.items ≡ length subject.now.table.table.chains }
    ensures more { Spreads subject.now.table.table (option_map (rule_at subject.now.table.table) own) marks.old.items marks.new.items }
    ensures fewer { IsTrue result → unmarked marks.new.items < unmarked marks.old.items }
    ensures closed { result ≡ false
        → AreClosed subject.now.table.table (option_map (rule_at subject.now.table.table) own) marks.new.items }
{
    subject.table.stands();
    let calls = subject.calls();
    let mut is_more = false;
    for call in calls {
        if mark_by(subject, own, marks, *call) {
            is_more = true;
        }
    }
    is_more
}

// Whether the chain at a place is that of a hook, which no rule names.
fn is_first(place: usize) -> bool
    ensures { IsTrue result → place < 3 }
{
    place < Hook::ALL.len()
}

// A mark for each chain from which rules that count lead to the one at a place, also in no step. The marks spread until each
// chain with such a rule that names a marked one is marked: each time but the last there are more. Each time takes a look at each rule
// that names a chain. To the chain of a hook leads no other one.
pub(crate) fn spread_from(
    alloc: Global,
    subject: &BoxedTable,
    own: Option<Step>,
    place: usize,
) -> Result<Vec<bool>, AllocError>
    requires own { IfSome own (IsRule subject.now.table.table) }
    requires place { place < length subject.now.table.table.chains }
    ensures { IfOk result (λ marks. AreSpread subject.now.table.table (option_map (rule_at subject.now.table.table) own) place marks.items) }
{
    let count = subject.table.chain_count();
    let mut marks = vec![in alloc; false; count]?;
    marks[place] = true;
    if is_first(place) {
        subject.table.stands();
        return Ok(marks);
    }
    while spread(subject, own, &mut marks) {}
    Ok(marks)
}

// A mark for each chain from which jumps and gotos lead to the one at a place, also in no step.
pub(crate) fn leading_to(
    alloc: Global,
    subject: &BoxedTable,
    place: usize,
) -> Result<Vec<bool>, AllocError>
    requires { place < length subject.now.table.table.chains }
    ensures { IfOk result (λ marks. AreLeading subject.now.table.table (chain_at subject.now.table.table place).name marks.items) }
{
    subject.table.stands();
    let marks = spread_from(alloc, subject, None, place)?;
    Ok(marks)
}

// Whether the chain of a hook is marked.
pub(crate) fn is_led(marks: &[bool], hook: Hook) -> bool
    ensures { result ≡ slice_index_or marks.now (hook_index hook) false }
{
    let place = hook_index(hook);
    place < marks.len() && marks[place]
}

// Whether the chain of no hook is marked.
pub(crate) fn none_led(marks: &[bool]) -> bool
    ensures none { IsTrue result → (hook : HookView) → slice_index_or marks.now (hook_index hook) false ≡ false }
    ensures some { result ≡ false → (hook : HookView) × (slice_index_or marks.now (hook_index hook) false ≡ true) }
{
    !is_led(marks, Hook::Input) && !is_led(marks, Hook::Forward) && !is_led(marks, Hook::Output)
}
