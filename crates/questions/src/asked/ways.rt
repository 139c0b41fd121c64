//! The rules by which packets come to a rule's chain, where none of these packets is left to the rule.
ghost use Rattle.std.specs.Prelude.{◌≡◌, ◌<◌, length, IfOk, MatchOption, OnOk};
ghost use Rattle.questions.specs.Ends.{IsRule};
ghost use Rattle.questions.specs.asked.Reason.{IsExcluded};
ghost use Rattle.questions.specs.steps.Candidates.{AddsRules};
ghost use Rattle.questions.specs.steps.Leading.{IsOpen, IsWay};

use crate::asked::leading::{names_marked, none_led, spread_from};
use crate::boxes::boxed_table::BoxedTable;
use std::alloc::{AllocError, Global};
use table::{Step, Table};

// Adds the rules of the chain at a place that name a marked chain.
fn add_ways(
    table: &Table,
    marks: &[bool],
    place: usize,
    ways: &mut Vec<Step>,
) -> Result<(), AllocError>
    requires long { length marks.now ≡ length table.now.table.chains }
    requires place { place < length table.now.table.chains }
    ensures { OnOk result (AddsRules (IsWay table.now.table marks.now) place ways.old.items ways.new.items) }
{
    for passed in 0..table.rule_count(place) {
        let number = passed + 1;
        if names_marked(table, marks, table.rule(place, number)) {
            ways.push(Step {
                chain: place,
                number,
            })?;
        }
    }
    Ok(())
}

// The rules by which packets come into some chains, of which one is the rule's and none is built in, if no packet that one of them
// matches is one of the rule's box. There are none only where rules whose boxes all have packets of it lead to the rule's chain.
pub(crate) fn ways_into(
    alloc: Global,
    subject: &BoxedTable,
    step: Step,
) -> Result<Option<Vec<Step>>, AllocError>
    requires { IsRule subject.now.table.table step }
    ensures { IfOk result (λ found. MatchOption found
        (IsOpen subject.now.table.table step) (λ ways. IsExcluded subject.now.table.table step ways.items)) }
{
    subject.table.stands();
    let marks = spread_from(alloc, subject, Some(step), step.chain)?;
    if !none_led(marks.as_slice()) {
        return Ok(None);
    }
    let mut ways = Vec::new(alloc);
    for place in 0..subject.table.chain_count() {
        if !marks[place] {
            add_ways(&subject.table, marks.as_slice(), place, &mut ways)?;
        }
    }
    Ok(Some(ways))
}
