//! What is left of the needs of rules once some conditions are answered.
ghost use Rattle.std.specs.Prelude.{◌≡◌, [], ◌∷◌, not, IfOk};
ghost use Rattle.table.specs.chains.Table.{Table};
ghost use Rattle.questions.specs.Foreign.{AgreeOnOpen, Agrees, Assignment, resolved};
ghost use Rattle.questions.specs.steps.Answered.{AreAlike, AreAlikeInChain, AreFree, AreFreeInChain};

use crate::foreign::answers::Answers;
use crate::foreign::need::{Need, Needs};
use std::alloc::{AllocError, Global};

// What no assignment meets: a need, and the same inverted.
pub(crate) fn unmeetable(alloc: Global, need: Need) -> Result<Vec<Need>, AllocError>
    ensures { IfOk result (λ both. both.items ≡ need ∷ record { condition = need.condition; inverted = not need.inverted } ∷ []) }
{
    let mut both = Vec::new(alloc);
    both.push(need)?;
    both.push(Need {
        condition: need.condition,
        inverted: !need.inverted,
    })?;
    Ok(both)
}

// What a rule still needs.
fn left_of(alloc: Global, needs: &[Need], answers: &Answers) -> Result<Vec<Need>, AllocError>
    ensures alike { IfOk result (λ left. AreAlike answers.now needs.now left.items) }
    ensures free { IfOk result (λ left. AreFree answers.now left.items) }
{
    let mut left = Vec::new(alloc);
    for need in needs {
        match answers.to(need.condition) {
            None => left.push(*need)?,
            Some(holds) => {
                if holds == need.inverted {
                    return unmeetable(alloc, *need);
                }
            }
        }
    }
    Ok(left)
}

// What the rules of a chain still need.
fn left_in(
    alloc: Global,
    chain: &[Vec<Need>],
    answers: &Answers,
) -> Result<Vec<Vec<Need>>, AllocError>
    ensures alike { IfOk result (λ left. AreAlikeInChain answers.now chain.now left.items) }
    ensures free { IfOk result (λ left. AreFreeInChain answers.now left.items) }
{
    let mut lists = Vec::new(alloc);
    for needs in chain {
        lists.push(left_of(alloc, needs.as_slice(), answers)?)?;
    }
    Ok(lists)
}

/// What is left of needs where some answers are right: what is answered as a rule needs it is needed no more, and a rule of which something
/// fails needs what can't be met. So each assignment that gives the answers leaves the same of any table by both; and by what is left it doesn't
/// matter how an answered condition is taken.
///
/// # Errors
///
/// `AllocError` where memory was refused.
pub fn needs_left(alloc: Global, needs: &Needs, answers: &Answers) -> Result<Needs, AllocError>
    ensures same { IfOk result (λ left. (a : Assignment) (t : Table) → Agrees a answers.now → resolved left a t ≡ resolved needs.now a t) }
    ensures free { IfOk result (λ left. (a b : Assignment) (t : Table) → AgreeOnOpen answers.now a b → resolved left a t ≡ resolved left b t) }
{
    let mut left = Vec::new(alloc);
    for chain in needs.listed() {
        left.push(left_in(alloc, chain.as_slice(), answers)?)?;
    }
    Ok(Needs::of(left))
}
