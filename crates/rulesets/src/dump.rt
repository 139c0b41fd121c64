//! A whole dump of which is asked: its table, and what its rules need.
use crate::conditions::open_conditions::OpenConditions;
use crate::verdicts::{GivenVerdict, OwnVerdict, OwnVerdicts};
use dumps::{Conditions, Foreign, ForeignNeed};
use questions::{BoxedTable, Need, Needs, Subject, needs_left};
use rules::Rule;
use std::alloc::{AllocError, Global};
use table::{Step, Table, Verdict};

/// A table, and what its rules need.
#[derive(Drop)]
pub struct Dump {
    boxed: BoxedTable,
    // What each rule asks, as it was read.
    asked: Needs,
    // What each rule still needs, by the answers of `--when`.
    needs: Needs,
    // Whether none needs anything.
    is_plain: bool,
    // Which rules have verdicts of their own.
    verdicts: OwnVerdicts,
}

// The needs of a rule, for a question.
fn needs_of(alloc: Global, found: &[ForeignNeed]) -> Result<Vec<Need>, AllocError> {
    let mut needs = Vec::new(alloc);
    for need in found {
        needs.push(Need {
            condition: need.condition,
            inverted: need.inverted,
        })?;
    }
    Ok(needs)
}

// The needs of a chain's rules, for a question.
fn needs_of_rules(alloc: Global, found: &[Vec<ForeignNeed>]) -> Result<Vec<Vec<Need>>, AllocError> {
    let mut rules = Vec::new(alloc);
    for needs in found {
        rules.push(needs_of(alloc, needs.as_slice())?)?;
    }
    Ok(rules)
}

// What the rules of a table need, chain by chain, as they were read.
#[derive(Drop)]
struct Placed {
    listed: Vec<Vec<Vec<Need>>>,
    // Whether each chain has as many rules as were read of it.
    is_whole: bool,
}

// What the rules of a table need, whose conditions are numbered among others.
fn placed_needs(
    alloc: Global,
    table: &Table,
    foreign: &Foreign,
    conditions: &mut Conditions,
) -> Result<Placed, AllocError> {
    let mut placed = Placed {
        listed: Vec::new(alloc),
        is_whole: true,
    };
    for place in 0..table.chain_count() {
        let found = conditions.needs_of_chain(foreign, table.chain_name(place))?;
        if found.len() != table.rule_count(place) {
            placed.is_whole = false;
        }
        placed
            .listed
            .push(needs_of_rules(alloc, found.as_slice())?)?;
    }
    Ok(placed)
}

/// What the rules of a table need, chain by chain in its order, whose conditions are numbered among others. It isn't known where a chain
/// hasn't the rules that were read of it, and some rule that was read needs anything.
///
/// # Errors
///
/// `AllocError` where memory was refused.
pub(crate) fn listed_needs(
    alloc: Global,
    table: &Table,
    foreign: &Foreign,
    conditions: &mut Conditions,
) -> Result<Option<Vec<Vec<Vec<Need>>>>, AllocError> {
    if foreign.is_empty() {
        return Ok(Some(Vec::new(alloc)));
    }
    let Placed { listed, is_whole } = placed_needs(alloc, table, foreign, conditions)?;
    if is_whole {
        return Ok(Some(listed));
    }
    Ok(None)
}

// What the rule of a number needs; it is lent.
fn needs_at(needs: &Needs, at: Step) -> &[Need] {
    match at.number.checked_sub(1) {
        Some(passed) => needs.at(at.chain, passed),
        None => &[],
    }
}

// Whether some of the rules of a chain, so many, needs anything.
fn rules_need(needs: &Needs, chain: usize, count: usize) -> bool {
    for passed in 0..count {
        if !needs.at(chain, passed).is_empty() {
            return true;
        }
    }
    false
}

// Whether some rule of a table needs anything.
fn any_need(table: &Table, needs: &Needs) -> bool {
    for chain in 0..table.chain_count() {
        if rules_need(needs, chain, table.rule_count(chain)) {
            return true;
        }
    }
    false
}

/// Whether the opposite of a need is among some.
pub fn has_opposite(needs: &[Need], need: Need) -> bool {
    for other in needs {
        if other.condition == need.condition && other.inverted != need.inverted {
            return true;
        }
    }
    false
}

/// Whether no assignment meets these.
pub fn contradict(needs: &[Need]) -> bool {
    for need in needs {
        if has_opposite(needs, *need) {
            return true;
        }
    }
    false
}

/// The rule that stands there, if there is one.
pub fn rule_at(table: &Table, at: Step) -> Option<&Rule> {
    if at.chain >= table.chain_count() || at.number == 0 || at.number > table.rule_count(at.chain) {
        return None;
    }
    Some(table.rule(at.chain, at.number))
}

impl Dump {
    /// A loaded file with what its rules need, by the answers of `--when`, and their verdicts.
    ///
    /// # Errors
    ///
    /// `AllocError` where memory was refused.
    pub(crate) fn new(
        alloc: Global,
        boxed: BoxedTable,
        verdicts: OwnVerdicts,
        asked: Vec<Vec<Vec<Need>>>,
        open: &OpenConditions,
    ) -> Result<Dump, AllocError> {
        let asked = Needs::of(asked);
        let left = needs_left(alloc, &asked, &open.answers(alloc)?)?;
        let is_plain = !any_need(&boxed.table, &left);
        let needs = if is_plain { Needs::none(alloc) } else { left };
        Ok(Dump {
            boxed,
            asked,
            needs,
            is_plain,
            verdicts,
        })
    }

    /// The table, with the boxes of its rules.
    pub fn boxed(&self) -> &BoxedTable {
        &self.boxed
    }

    /// The table.
    pub fn table(&self) -> &Table {
        &self.boxed.table
    }

    /// How many chains it has.
    pub fn chain_count(&self) -> usize {
        self.boxed.table.chain_count()
    }

    /// How many rules the chain at a place has; none where there is no chain.
    pub fn rule_count(&self, place: usize) -> usize {
        let table = &self.boxed.table;
        if place < table.chain_count() {
            return table.rule_count(place);
        }
        0
    }

    /// The name of the chain at a place; no bytes where there is none.
    pub fn chain_name(&self, place: usize) -> &[u8] {
        let table = &self.boxed.table;
        if place < table.chain_count() {
            return table.chain_name(place);
        }
        b""
    }

    /// What questions are asked about.
    pub fn subject(&self) -> Subject<'_> {
        Subject {
            boxed: &self.boxed,
            needs: &self.needs,
        }
    }

    /// The same with another table, whose rules are those of this one but for what those do that have verdicts of their own.
    pub fn read_as<'s>(&'s self, boxed: &'s BoxedTable) -> Subject<'s> {
        Subject {
            boxed,
            needs: &self.needs,
        }
    }

    /// Whether no rule needs anything.
    pub fn is_plain(&self) -> bool {
        self.is_plain
    }

    /// The rule, if its verdict is its own; it is lent.
    pub fn own_verdict(&self, at: Step) -> Option<&OwnVerdict> {
        self.verdicts.at(at)
    }

    /// Whether some rule has a verdict of its own.
    pub fn has_own_verdicts(&self) -> bool {
        !self.verdicts.is_empty()
    }

    /// What becomes of a packet that gets this verdict from a rule, or else from a policy.
    pub fn given(&self, verdict: Verdict, by: Option<Step>) -> GivenVerdict<'_> {
        match by.and_then(|at| self.own_verdict(at)) {
            Some(own) => GivenVerdict::Own(own.words.as_slice()),
            None => GivenVerdict::Read(verdict),
        }
    }

    /// What a rule still needs, by the answers of `--when`; it is lent.
    pub fn needs_of(&self, at: Step) -> &[Need] {
        needs_at(&self.needs, at)
    }

    /// What a rule asks, whatever `--when` answers; it is lent.
    pub fn asked_by(&self, at: Step) -> &[Need] {
        needs_at(&self.asked, at)
    }
}
