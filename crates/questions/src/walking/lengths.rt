//! How many rules match in a walk at most.
ghost use Rattle.std.specs.Prelude.{◌≡◌, ◌≢◌, ◌<◌, ◌≤◌, ◌↔◌, false, length, min, slice_index, IfOk, IsTrue};
ghost use Rattle.fields.specs.Packet.{PacketView};
ghost use Rattle.rules.specs.rule.Actions.{target_of};
ghost use Rattle.table.specs.declared.verdict.Verdict.TheVariants.{TooLong};
ghost use Rattle.table.specs.walk.Walk.{walk};
ghost use Rattle.questions.specs.Foreign.{Assignment};
ghost use Rattle.questions.specs.Scopes.{answered, table_of};
ghost use Rattle.questions.specs.steps.Lengths.{AreBounds, AreLeastBounds, IsBounded, Raises, added, added_at, number_of, room_left};

use crate::foreign::subject::Subject;
use crate::walking::engine::{LIMIT, hook_index};
use fields::Hook;
use rules::{Rule, Target};
use std::alloc::{AllocError, Global};
use table::Table;

// The number of the chain of a name.
pub(crate) fn number_of(table: &Table, numbers: &[usize], name: &[u8]) -> usize
    requires { length numbers.now ≡ length table.now.table.chains }
    ensures { result ≡ number_of table.now.table.chains numbers.now name.now }
{
    match table.index_of(name) {
        Some(place) => numbers[place],
        None => 0,
    }
}

// By how much a rule that matches lengthens a walk that it doesn't decide.
fn added(table: &Table, numbers: &[usize], rule: &Rule) -> usize
    requires { length numbers.now ≡ length table.now.table.chains }
    ensures { min 65536 result ≡ min 65536 (added (number_of table.now.table.chains numbers.now) (target_of rule.now)) }
{
    match rule.target() {
        Some(Target::Accept | Target::Drop | Target::Reject(_)) => 0,
        Some(Target::Log | Target::Return) | None => 1,
        Some(Target::Jump(name)) => number_of(table, numbers, name.bytes()).saturating_add(1),
        Some(Target::Goto(name)) => number_of(table, numbers, name.bytes()).saturating_add(1),
    }
}

// By how much the rules of the chain at a place do.
fn added_at(table: &Table, numbers: &[usize], place: usize) -> usize
    requires long { length numbers.now ≡ length table.now.table.chains }
    requires place { place < length table.now.table.chains }
    ensures { result ≡ added_at table.now.table numbers.now place }
{
    let mut sum = 0usize;
    for passed in 0..table.rule_count(place) {
        let more = added(table, numbers, table.rule(place, passed + 1));
        sum = sum.saturating_add(more).min(LIMIT);
    }
    sum
}

// Raises the number of the chain at a place to what its rules add. Whether it was less.
fn raise_at(table: &Table, numbers: &mut Vec<usize>, place: usize) -> bool
    requires long { length numbers.old.items ≡ length table.now.table.chains }
    requires place { place < length table.now.table.chains }
    ensures raised { Raises table.now.table numbers.old.items numbers.new.items }
    ensures less { IsTrue result → room_left numbers.new.items < room_left numbers.old.items }
    ensures same { result ≡ false → numbers.new.items ≡ numbers.old.items }
    ensures bound { result ≡ false → added_at table.now.table numbers.old.items place ≤ slice_index numbers.old.items place }
{
    let least = added_at(table, numbers.as_slice(), place);
    if least <= numbers[place] {
        return false;
    }
    numbers[place] = least;
    true
}

// Raises the number of each chain. Whether one was less.
fn raise(table: &Table, numbers: &mut Vec<usize>) -> bool
    requires { length numbers.old.items ≡ length table.now.table.chains }
    ensures raised { Raises table.now.table numbers.old.items numbers.new.items }
    ensures less { IsTrue result → room_left numbers.new.items < room_left numbers.old.items }
    ensures bounds { result ≡ false → AreBounds table.now.table numbers.new.items (length table.now.table.chains) }
{
    let mut is_more = false;
    for place in 0..table.chain_count() {
        if raise_at(table, numbers, place) {
            is_more = true;
        }
    }
    is_more
}

// The least number for each chain that is a bound of how much its rules lengthen a walk. The numbers are raised until no chain's rules add more
// than its own: as many times as chains are nested, and once. Each time takes a look at each rule.
pub(crate) fn bounds_of(alloc: Global, table: &Table) -> Result<Vec<usize>, AllocError>
    ensures { IfOk result (λ numbers. AreLeastBounds table.now.table numbers.items) }
{
    let count = table.chain_count();
    let mut numbers = vec![in alloc; 0usize; count]?;
    while raise(table, &mut numbers) {}
    Ok(numbers)
}

// Whether it is known without a walk that none from a hook's chain is too long, whatever holds: by numbers for the chains, which say how many rules
// that don't decide match there and in the chains to which they lead, if all of them match.
pub(crate) fn are_short(subject: &Subject<'_>, hook: Hook) -> bool
    ensures short { IsTrue result → (a : Assignment) (p : PacketView) → p.hook ≡ hook → (walk (answered subject.now a) p).verdict ≢ TooLong }
    ensures bounded { IsTrue result ↔ IsBounded (table_of subject.now) hook }
{
    subject.boxed.table.stands();
    let numbers = subject.boxed.bounds();
    numbers[hook_index(hook)] < LIMIT
}
