//! Which rules lead to a chain.
ghost use Rattle.std.specs.Prelude.{◌≡◌, ◌<◌, Some, IfOk, IsTrue, OnOk, length};
ghost use Rattle.questions.specs.boxes.Calls.{AreCalls, IsCalledIn, place_named};

use rules::Target;
use std::alloc::{AllocError, Global};
use table::{Step, Table};

// A rule that names a chain by `-j` or `-g`, and the place of this chain in the order of a listing.
#[derive(Clone, Copy)]
pub(crate) struct Call {
    pub to: usize,
    pub by: Step,
}

// The place of the chain that a target names.
pub(crate) fn place_named(table: &Table, target: Option<Target>) -> Option<usize>
    ensures { result ≡ place_named table.now.table.chains target }
{
    match target {
        Some(Target::Jump(name) | Target::Goto(name)) => table.index_of(name.bytes()),
        Some(Target::Accept | Target::Drop | Target::Reject(_) | Target::Log | Target::Return)
        | None => None,
    }
}

// Whether a target names the chain at a place.
pub(crate) fn enters(table: &Table, target: Option<Target>, place: usize) -> bool
    ensures { IsTrue result → place_named table.now.table.chains target ≡ Some place }
{
    place_named(table, target) == Some(place)
}

// Adds those by the rules of the chain at a place.
fn add_calls_of(table: &Table, place: usize, calls: &mut Vec<Call>) -> Result<(), AllocError>
    requires { place < length table.now.table.chains }
    ensures { OnOk result (IsCalledIn table.now.table place calls.old.items calls.new.items) }
{
    for passed in 0..table.rule_count(place) {
        let by = Step {
            chain: place,
            number: passed + 1,
        };
        if let Some(to) = place_named(table, table.rule(place, passed + 1).target()) {
            calls.push(Call { to, by })?;
        }
    }
    Ok(())
}

// All rules of a table that name a chain. It takes a look at each rule.
pub(crate) fn calls_in(alloc: Global, table: &Table) -> Result<Vec<Call>, AllocError>
    ensures { IfOk result (λ calls. AreCalls table.now.table calls.items) }
{
    let mut calls = Vec::new(alloc);
    for place in 0..table.chain_count() {
        add_calls_of(table, place, &mut calls)?;
    }
    Ok(calls)
}
