//! The conditions of one or two dumps, and which of them are answered by `--when`.
ghost use Rattle.std.specs.Prelude.{◌≡◌, IfOk};
ghost use Rattle.rulesets.specs.OpenConditions.{is_open, open_among};

use crate::text::condition_text::condition_bytes;
use dumps::Conditions;
use questions::{Answers, Need};
use std::alloc::{AllocError, Global};

/// Where a condition is asked: in a chain, at the rule of a number; or, of two dumps, the how-many-eth of its text there it is, if it isn't the
/// first.
#[derive(Clone, Copy)]
pub struct Place<'a> {
    /// The chain, by its name.
    pub chain: &'a [u8],
    /// The number of the rule, of one dump.
    pub number: Option<usize>,
    /// The how-many-eth of its text, of two dumps.
    pub nth: Option<usize>,
}

/// Whether an answer was taken in.
#[derive(Clone, Copy)]
pub(crate) enum Taken {
    /// It is about some conditions.
    Answered,
    /// It is about none.
    NoCondition,
    /// The opposite was answered of one of them.
    Contradiction,
}

/// The conditions, and what `--when` answers.
#[derive(Drop)]
pub struct OpenConditions {
    conditions: Conditions,
    // What is answered of each, if anything.
    given: Vec<Option<bool>>,
    // Whether they are those of two dumps, so that a number of a rule says nothing.
    are_of_two: bool,
}

// What a word of `--when` answers, and of which condition: whether it holds.
fn read_when(word: &str) -> (bool, &str) {
    match word.strip_prefix('!') {
        Some(text) => (false, text.trim_ascii_start()),
        None => (true, word),
    }
}

// As many conditions without an answer.
fn all_open(alloc: Global, count: usize) -> Result<Vec<Option<bool>>, AllocError> {
    let mut given = Vec::new(alloc);
    for _ in 0..count {
        given.push(None)?;
    }
    Ok(given)
}

impl OpenConditions {
    /// Those conditions, of one dump or of two, without an answer.
    ///
    /// # Errors
    ///
    /// `AllocError` where memory was refused.
    pub(crate) fn new(
        alloc: Global,
        conditions: Conditions,
        are_of_two: bool,
    ) -> Result<OpenConditions, AllocError> {
        let given = all_open(alloc, conditions.len())?;
        Ok(OpenConditions {
            conditions,
            given,
            are_of_two,
        })
    }

    // Whether a text is that of a condition, or this condition with its place.
    fn is_meant(&self, alloc: Global, condition: usize, text: &[u8]) -> Result<bool, AllocError> {
        match text.strip_prefix(self.text(condition)) {
            Some(rest) if rest.is_empty() => Ok(true),
            Some(_) => Ok(condition_bytes(alloc, self, condition)?.as_slice() == text),
            None => Ok(false),
        }
    }

    // Takes in that a condition holds, or doesn't. Whether nothing else was answered of it before.
    fn give(&mut self, condition: usize, holds: bool) -> bool {
        if condition < self.given.len() {
            if self.given[condition] == Some(!holds) {
                return false;
            }
            self.given[condition] = Some(holds);
        }
        true
    }

    /// Takes in the answer of a word of `--when`, `CONDITION` or `! CONDITION`: of a text for all conditions that have it, and of a condition as
    /// it is written with its place for this one.
    ///
    /// # Errors
    ///
    /// `AllocError` where memory was refused.
    pub(crate) fn answer(&mut self, alloc: Global, word: &str) -> Result<Taken, AllocError> {
        let (holds, text) = read_when(word);
        let mut taken = Taken::NoCondition;
        for condition in 0..self.len() {
            if self.is_meant(alloc, condition, text.as_bytes())? {
                if !self.give(condition, holds) {
                    return Ok(Taken::Contradiction);
                }
                taken = Taken::Answered;
            }
        }
        Ok(taken)
    }

    /// How many conditions there are.
    pub(crate) fn len(&self) -> usize {
        self.conditions.len()
    }

    /// Whether a condition has no answer.
    pub(crate) fn is_open(&self, condition: usize) -> bool
        ensures { result ≡ is_open self.now.given.items condition }
    {
        condition < self.given.len() && self.given[condition].is_none()
    }

    /// The words of a condition; they are lent.
    pub fn text(&self, condition: usize) -> &[u8] {
        self.conditions.text(condition)
    }

    /// The match that asks a condition, by its name; it is lent.
    pub fn match_name(&self, condition: usize) -> &[u8] {
        self.conditions.name(condition)
    }

    /// Where a condition is asked that is one of a place.
    pub fn place(&self, condition: usize) -> Option<Place<'_>> {
        let place = self.conditions.place(condition)?;
        let chain = place.chain.as_slice();
        if self.are_of_two {
            return Some(Place {
                chain,
                number: None,
                nth: self.nth(condition, chain),
            });
        }
        Some(Place {
            chain,
            number: Some(place.rule),
            nth: None,
        })
    }

    // Whether a condition is one of a chain, with this text.
    fn is_alike(&self, condition: usize, chain: &[u8], text: &[u8]) -> bool {
        if self.conditions.text(condition) != text {
            return false;
        }
        match self.conditions.place(condition) {
            Some(place) => place.chain.as_slice() == chain,
            None => false,
        }
    }

    // The how-many-eth of its text in its chain a condition is, where it isn't the first.
    fn nth(&self, condition: usize, chain: &[u8]) -> Option<usize> {
        let mut before = 0usize;
        for other in 0..condition {
            if self.is_alike(other, chain, self.text(condition)) {
                before = before.saturating_add(1);
            }
        }
        if before == 0 {
            return None;
        }
        Some(before.saturating_add(1))
    }

    /// Whether some condition that is open is one of a place.
    pub fn has_places(&self) -> bool {
        for condition in 0..self.len() {
            if self.is_open(condition) && self.place(condition).is_some() {
                return true;
            }
        }
        false
    }

    /// Whether some condition that is open is of a thing which may change while a packet walks, as a set of addresses is, and not of a place.
    pub fn has_things(&self) -> bool {
        for condition in 0..self.len() {
            if self.is_open(condition) && self.conditions.is_of_thing(condition) {
                return true;
            }
        }
        false
    }

    /// The first condition that is open of which a target sets, while a packet walks, what it asks.
    pub(crate) fn first_set(&self) -> Option<usize> {
        for condition in 0..self.len() {
            if self.is_open(condition) && self.conditions.is_set(condition) {
                return Some(condition);
            }
        }
        None
    }

    /// The answers of `--when`.
    ///
    /// # Errors
    ///
    /// `AllocError` where memory was refused.
    pub(crate) fn answers(&self, alloc: Global) -> Result<Answers, AllocError> {
        let mut answers = Answers::none(alloc);
        for (condition, given) in self.given.iter().enumerate() {
            if let Some(holds) = given {
                answers.give(condition, *holds)?;
            }
        }
        Ok(answers)
    }

    /// The answers of `--when`, and these.
    ///
    /// # Errors
    ///
    /// `AllocError` where memory was refused.
    pub fn start(&self, alloc: Global, given: &[Need]) -> Result<Answers, AllocError> {
        let mut answers = self.answers(alloc)?;
        for need in given {
            answers.give(need.condition, !need.inverted)?;
        }
        Ok(answers)
    }

    /// The answers about conditions that `--when` leaves open, and no others: what is shown of them contradicts nothing that `--when` says. Whatever
    /// the others are, the table is the same (`needs_left`).
    ///
    /// # Errors
    ///
    /// `AllocError` where memory was refused.
    pub fn shown(&self, alloc: Global, answers: &Answers) -> Result<Vec<Need>, AllocError>
        ensures { IfOk result (λ shown. shown.items ≡ open_among self.now.given.items answers.now) }
    {
        let mut shown = Vec::new(alloc);
        for answer in answers.listed() {
            if self.is_open(answer.condition) {
                shown.push(Need {
                    condition: answer.condition,
                    inverted: !answer.holds,
                })?;
            }
        }
        Ok(shown)
    }
}
