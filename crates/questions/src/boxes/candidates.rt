//! The rules of a table that may match packets of a box: what a walk of the box, or of a part of it, has to look at.
ghost use Rattle.std.specs.Prelude.{◌≡◌, ◌<◌, ◌≤◌, ◌⊎◌, ℕ, List, length, slice_index_or, IfOk, OnOk};
ghost use Rattle.fields.specs.numbers.Spans.{SpanSet};
ghost use Rattle.rules.specs.rule.Rules.{empty_rule};
ghost use Rattle.table.specs.chains.Table.{Table, chain_at};
ghost use Rattle.questions.specs.boxes.Cut.{IsApart};
ghost use Rattle.questions.specs.steps.Candidates.{AreCandidates, AreFor, AreKept, AreNexts, nexts_at};
ghost use Rattle.questions.specs.steps.Outlines.{IsOutlined};
ghost use Rattle.questions.specs.steps.Waiting.{rule_ahead};

use crate::boxes::area::Area;
use crate::boxes::boxed_table::BoxedTable;
use crate::boxes::ends::{Outline, outline_of};
use std::alloc::{AllocError, Global};

// After how many looks at rules the candidates are found: fewer rules than most searches look at, so that short searches stay short.
const MANY_LOOKS: usize = 1024;

// Which rules may match a packet of a box: all of them, until the others are found.
#[derive(Drop)]
pub(crate) struct Candidates {
    // How many rules were looked at so far.
    pub looks: usize,
    // The box.
    pub start: Area,
    // For each chain, in the order of a listing, and each of its rules, from the last on, where the first candidate is among this rule and
    // those behind it; the number of rules where there is none. No chain before they are found.
    pub chains: Vec<Vec<usize>>,
}

impl Candidates {
    // All rules.
    pub(crate) fn all(alloc: Global, start: &Area) -> Result<Candidates, AllocError>
        ensures { IfOk result (λ candidates. (t : Table) → AreFor t start.now candidates) }
    {
        let start = start.copy(alloc)?;
        Ok(Candidates {
            looks: 0,
            start,
            chains: Vec::new(alloc),
        })
    }

    // So many rules were looked at.
    pub(crate) fn count(&mut self, looks: usize)
        ensures { (t : Table) → AreKept t self.old self.new }
    {
        self.looks = self.looks.saturating_add(looks);
    }

    // Finds them, where many rules were looked at before. That takes a look at each rule, and eight bytes for it.
    pub(crate) fn find(&mut self, alloc: Global, subject: &BoxedTable) -> Result<(), AllocError>
        ensures { OnOk result (AreKept subject.now.table.table self.old self.new) }
    {
        if self.looks <= MANY_LOOKS || !self.chains.is_empty() {
            return Ok(());
        }
        self.chains = nexts_of_all(alloc, subject, &self.start)?;
        Ok(())
    }

    // The list of the chain at a place.
    fn in_chain(&self, place: usize) -> &[usize]
        ensures { result.now ≡ nexts_at self.now place }
    {
        match self.chains.get(place) {
            Some(nexts) => nexts.as_slice(),
            None => &[],
        }
    }

    // Where the first candidate is among the rules of a chain behind so many others; a place behind all of them where there is none.
    pub(crate) fn next_of(&self, chain: usize, passed: usize) -> usize
        ensures low { passed ≤ result }
        ensures others { (t : Table) (box : List SpanSet) → AreFor t box self.now → (k : ℕ) → passed ≤ k → k < result
            → IsApart (rule_ahead t (record { chain = chain; passed = k })) box }
    {
        let nexts = self.in_chain(chain);
        if passed >= nexts.len() {
            return passed;
        }
        passed.max(nexts[nexts.len() - 1 - passed])
    }
}

// Where the first candidate is from the rule behind so many others on, given where it is behind that rule. The outlines say it, and no set
// is looked at.
fn next_from(
    subject: &BoxedTable,
    outline: &Outline,
    place: usize,
    passed: usize,
    next: usize,
) -> usize
    requires place { place < length subject.now.table.table.chains }
    requires passed { passed < length (chain_at subject.now.table.table place).rules }
    ensures { (area : List SpanSet) → IsOutlined area outline.now
        → ((result ≡ next) × IsApart (slice_index_or (chain_at subject.now.table.table place).rules passed empty_rule) area) ⊎ (result ≡ passed) }
{
    let count = subject.table.rule_count(place);
    prove!(passed < count);
    if subject.own_at(place, passed + 1).is_outside(outline) {
        return next;
    }
    passed
}

// For each rule of the chain at a place, from the last on, where the first candidate is from there on.
fn nexts_of(
    alloc: Global,
    subject: &BoxedTable,
    outline: &Outline,
    place: usize,
) -> Result<Vec<usize>, AllocError>
    requires place { place < length subject.now.table.table.chains }
    ensures { IfOk result (λ nexts. (area : List SpanSet) → IsOutlined area outline.now
        → AreNexts (chain_at subject.now.table.table place).rules area nexts.items) }
{
    let count = subject.table.rule_count(place);
    let mut nexts = Vec::new(alloc);
    let mut next = count;
    for done in 0..count {
        next = next_from(subject, outline, place, count - 1 - done, next);
        nexts.push(next)?;
    }
    Ok(nexts)
}

// The same of all chains.
fn nexts_of_all(
    alloc: Global,
    subject: &BoxedTable,
    area: &Area,
) -> Result<Vec<Vec<usize>>, AllocError>
    ensures { IfOk result (λ chains. AreCandidates subject.now.table.table area.now (record { looks = 0; start = area.now; chains = chains })) }
{
    let outline = outline_of(area.sets());
    let mut chains = Vec::new(alloc);
    for place in 0..subject.table.chain_count() {
        chains.push(nexts_of(alloc, subject, &outline, place)?)?;
    }
    Ok(chains)
}
