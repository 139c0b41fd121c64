//! A table with the boxes of its rules.
ghost use Rattle.std.specs.Prelude.{◌≡◌, ◌+◌, ◌-◌, ◌^◌, ◌<◌, ◌≤◌, [], false, length, map, min, slice_index_or, IfOk, IsTrue};
ghost use Rattle.rules.specs.Boxed.{IsBoxOf};
ghost use Rattle.rules.specs.rule.Rules.{empty_rule};
ghost use Rattle.table.specs.chains.Table.{chain_at};
ghost use Rattle.questions.specs.boxes.Boxes.{HasNumbers, AreBoxesOf, AreBoxesOfRules, rules_in};
ghost use Rattle.questions.specs.boxes.Calls.{AreCalls};
ghost use Rattle.questions.specs.boxes.Cut.{IsAllowedIn, IsApart};
ghost use Rattle.questions.specs.steps.Lengths.{AreLeastBounds};
ghost use Rattle.questions.specs.steps.Outlines.{IsOutlined};

use crate::boxes::area::Area;
use crate::boxes::ends::Outline;
use crate::boxes::rule_box::RuleBox;
use crate::seeking::calls::{Call, calls_in};
use crate::walking::lengths::bounds_of;
use rules::{Boxed, Work};
use std::alloc::{AllocError, Global};
use table::Table;

/// A table with the boxes of its rules. These are made once, for any number of questions, and no question changes
/// them.
#[derive(Drop)]
pub struct BoxedTable {
    /// The table.
    pub table: Table,
    // The boxes of the rules, chain by chain in the order of a listing.
    chains: Vec<Vec<RuleBox>>,
    // The rules that lead to other chains.
    calls: Vec<Call>,
    // For each chain a bound of how much its rules lengthen a walk.
    bounds: Vec<usize>,
    ghost boxes: { AreBoxesOf table.table.chains (map (λ v. v.items) chains.items) },
    ghost called: { AreCalls table.table calls.items },
    ghost bounded: { AreLeastBounds table.table bounds.items },
}

// The boxes of the rules of the chain at a place.
fn boxes_of_chain(
    alloc: Global,
    table: &Table,
    place: usize,
    work: &mut Work,
) -> Result<Vec<RuleBox>, AllocError>
    requires { place < length table.now.table.chains }
    ensures counted { IfOk result (λ boxes. work.new ≡ min (work.old + length (chain_at table.now.table place).rules) (2 ^ 64 - 1)) }
    ensures boxes { IfOk result (λ boxes. AreBoxesOfRules (chain_at table.now.table place).rules boxes.items) }
{
    let _made = work.boxes();
    let mut boxes = Vec::new(alloc);
    for before in 0..table.rule_count(place) {
        let boxed = Boxed::of(alloc, table.rule(place, before + 1), work)?;
        boxes.push(RuleBox::of(alloc, boxed)?)?;
    }
    Ok(boxes)
}

impl BoxedTable {
    /// A table with the boxes of its rules: each is made, and counted in `work`.
    ///
    /// # Errors
    ///
    /// `AllocError` where memory was refused.
    pub fn of(alloc: Global, table: Table, work: &mut Work) -> Result<BoxedTable, AllocError>
        ensures table { IfOk result (λ made. made.table ≡ table) }
        ensures counted { IfOk result (λ made. work.new ≡ min (work.old + rules_in table.table.chains) (2 ^ 64 - 1)) }
    {
        let _made = work.boxes();
        let mut chains = Vec::new(alloc);
        for place in 0..table.chain_count() {
            chains.push(boxes_of_chain(alloc, &table, place, work)?)?;
        }
        let calls = calls_in(alloc, &table)?;
        let bounds = bounds_of(alloc, &table)?;
        Ok(BoxedTable {
            table,
            chains,
            calls,
            bounds,
        })
    }

    // The box of rule `number` of the chain at a place, from 1, with its outline; it is lent.
    pub(crate) fn own_at(&self, place: usize, number: usize) -> &RuleBox
        requires place { place < length self.now.table.table.chains }
        requires first { 0 < number }
        requires last { number ≤ length (chain_at self.now.table.table place).rules }
        ensures { IsBoxOf (slice_index_or (chain_at self.now.table.table place).rules (number - 1) empty_rule) result.now }
    {
        &self.chains[place][number - 1]
    }

    // The rules that name a chain by `-j` or `-g`; they are lent.
    pub(crate) fn calls(&self) -> &[Call]
        ensures { AreCalls self.now.table.table result.now }
    {
        self.calls.as_slice()
    }

    // The least bound for each chain of how much its rules lengthen a walk; they are lent.
    pub(crate) fn bounds(&self) -> &[usize]
        ensures { AreLeastBounds self.now.table.table result.now }
    {
        self.bounds.as_slice()
    }

    // The box alone; it is lent.
    pub(crate) fn at(&self, place: usize, number: usize) -> &Boxed
        requires place { place < length self.now.table.table.chains }
        requires first { 0 < number }
        requires last { number ≤ length (chain_at self.now.table.table place).rules }
        ensures { IsBoxOf (slice_index_or (chain_at self.now.table.table place).rules (number - 1) empty_rule) result.now }
    {
        self.own_at(place, number).boxed()
    }

    // Whether rule `number` of the chain at a place, from 1, matches no packet of a box, by its own box. It takes no memory.
    pub(crate) fn is_apart(
        &self,
        area: &Area,
        outline: &Outline,
        place: usize,
        number: usize,
    ) -> bool
        requires outline { IsOutlined area.now outline.now }
        requires place { place < length self.now.table.table.chains }
        requires first { 0 < number }
        requires last { number ≤ length (chain_at self.now.table.table place).rules }
        ensures none { IsTrue result → IsApart (slice_index_or (chain_at self.now.table.table place).rules (number - 1) empty_rule) area.now }
        ensures some { result ≡ false → HasNumbers area.now
            → IsAllowedIn (slice_index_or (chain_at self.now.table.table place).rules (number - 1) empty_rule) area.now }
    {
        self.own_at(place, number).is_apart(area, outline)
    }
}
