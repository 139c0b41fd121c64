//! Which rules match packets that were given, and under which answers.
ghost use Rattle.std.specs.Prelude.{◌<◌, length};

use questions::Need;
use std::alloc::{AllocError, Global};
use table::{Step, Table};

// What packets that were given show of a rule.
#[derive(Drop)]
enum Mark {
    // None of them matches it.
    Unmet,
    // None is known to match it, and of one it isn't known whether it does.
    Unclear,
    // One matches it where these answers are right; there are none where it does whichever are.
    Met(Vec<Need>),
}

/// For each rule of a table a mark: whether it matches packets that were given. And the lines of those packets of which it isn't known which rules they
/// match.
#[derive(Drop)]
pub struct Marks {
    // How many rules stand before each chain.
    before: Vec<usize>,
    // The mark of each rule, chain after chain.
    marks: Vec<Mark>,
    unclear_lines: Vec<u64>,
}

// Puts as many places without a mark behind the others as a chain has rules.
fn push_unmet(marks: &mut Vec<Mark>, count: usize) -> Result<(), AllocError> {
    for _ in 0..count {
        marks.push(Mark::Unmet)?;
    }
    Ok(())
}

impl Marks {
    /// No rule is marked.
    ///
    /// # Errors
    ///
    /// `AllocError` where memory was refused.
    pub fn new(alloc: Global, table: &Table) -> Result<Marks, AllocError> {
        let mut before = Vec::new(alloc);
        let mut marks = Vec::new(alloc);
        for place in 0..table.chain_count() {
            before.push(marks.len())?;
            push_unmet(&mut marks, table.rule_count(place))?;
        }
        Ok(Marks {
            before,
            marks,
            unclear_lines: Vec::new(alloc),
        })
    }

    // Where the mark of a rule stands, if there is one.
    fn place_of(&self, at: Step) -> Option<usize> {
        let before = self.before.get(at.chain)?;
        before.checked_add(at.number)?.checked_sub(1)
    }

    // The mark of a rule.
    fn mark_of(&self, at: Step) -> Option<&Mark> {
        self.marks.get(self.place_of(at)?)
    }

    /// The answers under which a rule matches a packet, if one is known to match it; there are none where it matches one whichever are right.
    pub(crate) fn given(&self, at: Step) -> Option<&[Need]> {
        match self.mark_of(at)? {
            Mark::Met(given) => return Some(given.as_slice()),
            Mark::Unmet | Mark::Unclear => return None,
        }
    }

    /// Whether no packet is known to match a rule, and of one it isn't known whether it does.
    pub(crate) fn is_unclear(&self, at: Step) -> bool {
        matches!(self.mark_of(at), Some(Mark::Unclear))
    }

    /// Whether a rule is known to match a packet where all holds that it needs itself, whatever else does: no packet asks less.
    pub(crate) fn is_met_by(&self, at: Step, own: &[Need]) -> bool {
        match self.given(at) {
            Some(given) => given.iter().all(|answer| own.contains(answer)),
            None => false,
        }
    }

    /// Marks a rule that matches a packet where these answers are right; there are none where it does whichever are. If it is known to match another
    /// one under as few answers, these stay.
    pub(crate) fn mark(&mut self, at: Step, given: Vec<Need>) {
        if let Some(known) = self.given(at) {
            if known.len() <= given.len() {
                return;
            }
        }
        if let Some(place) = self.place_of(at) {
            if place < self.marks.len() {
                self.marks[place] = Mark::Met(given);
            }
        }
    }

    /// Marks a rule of which it isn't known whether a packet matches it, unless one is known to match it.
    pub(crate) fn mark_unclear(&mut self, at: Step) {
        if self.given(at).is_some() {
            return;
        }
        if let Some(place) = self.place_of(at) {
            if place < self.marks.len() {
                self.marks[place] = Mark::Unclear;
            }
        }
    }

    /// The lines of the packets of which it isn't known which rules they match, from 1, in their order; they are lent.
    pub fn unclear_lines(&self) -> &[u64] {
        self.unclear_lines.as_slice()
    }

    /// Notes the line of such a packet.
    ///
    /// # Errors
    ///
    /// `AllocError` where memory was refused.
    pub fn note_unclear(&mut self, line: u64) -> Result<(), AllocError> {
        self.unclear_lines.push(line)?;
        Ok(())
    }
}
