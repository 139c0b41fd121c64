//! Answers about conditions that this program doesn't know.
ghost use Rattle.std.specs.Prelude.{◌≡◌, ◌<◌, [], ◌∷◌, ◌++◌, length, Contains, IfNone, IfOk, IfSome, OnOk};
ghost use Rattle.questions.specs.Foreign.{AreConsistent, IsGiven, IsUnanswered};
ghost use Rattle.questions.specs.steps.Answered.{AreSameIndex, answers_but};

use std::alloc::{AllocError, Global};
use std::marker::Model;

/// Whether a condition, told by its number, holds.
#[derive(Clone, Copy)]
pub struct Answer {
    /// The number of the condition.
    pub condition: usize,
    /// Whether the condition holds.
    pub holds: bool,
}

/// Answers, no two of which are about one condition. They take the memory of a list, and of an `Option<bool>` for each condition up to the last that is answered.
#[derive(Drop)]
pub struct Answers {
    listed: Vec<Answer>,
    // What each condition was answered, from the first on, if it was; those behind weren't.
    index: Vec<Option<bool>>,
}

impl Model for Answers {
    ghost use Rattle.std.specs.Prelude.{List};
    ghost use Rattle.questions.specs.declared.foreign.answers.Answer.{Answer};
    ghost use Rattle.questions.specs.steps.Answered.{AreIndexed};

    ghost Value = { List Answer };

    ghost view = { λ answers. answers.listed.items };

    ghost invariant = { λ answers. AreIndexed answers.index.items answers.listed.items };
}

impl Answers {
    /// None.
    pub fn none(alloc: Global) -> Answers
        ensures { result ≡ [] }
    {
        Answers {
            listed: Vec::new(alloc),
            index: Vec::new(alloc),
        }
    }

    /// The answers, in the order in which they were given; they are lent.
    pub fn listed(&self) -> &[Answer]
        ensures { result.now ≡ self.now }
    {
        self.listed.as_slice()
    }

    /// One more, about a condition. Whether it had none; else what it was answered stays.
    ///
    /// # Errors
    ///
    /// `AllocError` where memory was refused.
    pub fn give(&mut self, condition: usize, holds: bool) -> Result<bool, AllocError>
        ensures { IfOk result (λ is_new. IsGiven condition holds is_new self.old self.new) }
    {
        if self.to(condition).is_some() {
            return Ok(false);
        }
        self.add(condition, holds)?;
        Ok(true)
    }

    // No two of them are about one condition. It does nothing.
    pub(crate) fn stand(&self)
        ensures { AreConsistent self.now }
    {
        let _count = self.listed.len();
    }

    // What a condition was answered, if it was.
    pub(crate) fn to(&self, condition: usize) -> Option<bool>
        ensures answered { IfSome result (λ holds. Contains self.now (record { condition = condition; holds = holds })) }
        ensures unanswered { IfNone result (IsUnanswered self.now condition) }
    {
        if condition >= self.index.len() {
            return None;
        }
        self.index[condition]
    }

    // The same answers.
    pub(crate) fn copy(&self, alloc: Global) -> Result<Answers, AllocError>
        ensures { IfOk result (λ copy. copy ≡ self.now) }
    {
        let mut listed = Vec::new(alloc);
        listed.extend_from_slice(self.listed.as_slice())?;
        let mut index = Vec::new(alloc);
        index.extend_from_slice(self.index.as_slice())?;
        Ok(Answers { listed, index })
    }

    // The same answers but one, to a condition.
    pub(crate) fn without(&self, alloc: Global, condition: usize) -> Result<Answers, AllocError>
        ensures { IfOk result (λ others. others ≡ answers_but condition self.now) }
    {
        let mut listed = Vec::new(alloc);
        listed.extend_from_slice(self.listed.as_slice())?;
        listed.retain(|answer| answer.condition != condition);
        let mut index = Vec::new(alloc);
        index.extend_from_slice(self.index.as_slice())?;
        if condition < index.len() {
            index[condition] = None;
        }
        Ok(Answers { listed, index })
    }

    // One more, about a condition that has none.
    pub(crate) fn add(&mut self, condition: usize, holds: bool) -> Result<(), AllocError>
        requires { IsUnanswered self.old condition }
        ensures { OnOk result (self.new ≡ self.old ++ record { condition = condition; holds = holds } ∷ []) }
    {
        reach(&mut self.index, condition)?;
        self.listed.push(Answer { condition, holds })?;
        self.index[condition] = Some(holds);
        Ok(())
    }
}

// An index that has a condition, too; nothing that it has is changed.
fn reach(index: &mut Vec<Option<bool>>, condition: usize) -> Result<(), AllocError>
    ensures same { AreSameIndex index.old.items index.new.items }
    ensures there { OnOk result (condition < length index.new.items) }
{
    if condition < index.len() {
        return Ok(());
    }
    index.resize(condition.saturating_add(1), None)
}
