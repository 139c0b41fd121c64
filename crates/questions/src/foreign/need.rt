//! What rules need of conditions that this program doesn't know.
ghost use Rattle.std.specs.Prelude.{◌≡◌, ◌↔◌, [], false, map, All, Contains, IfOk, IsFalse, IsTrue, MatchOption};
ghost use Rattle.questions.specs.Foreign.{AreWithoutNeeds, Assignment, all_hold, needs_at, needs_listed};
ghost use Rattle.questions.specs.steps.Answered.{IsMeeting, IsStanding, MeetsNever};

use crate::foreign::answers::Answers;
use std::alloc::{AllocError, Global};
use std::marker::Model;

/// What a rule needs of a condition, which is told by its number: that it holds or, inverted, that it doesn't.
#[derive(Clone, Copy, PartialEq, Eq)]
pub struct Need {
    /// The number of the condition.
    pub condition: usize,
    /// Whether the rule needs that the condition doesn't hold.
    pub inverted: bool,
}

/// What the rules of a table need beyond what they match.
#[derive(Drop)]
pub struct Needs {
    chains: Vec<Vec<Vec<Need>>>,
    // Whether no rule needs anything.
    none: bool,
}

impl Model for Needs {
    ghost use Rattle.std.specs.Prelude.{◌↔◌, List, IsTrue};
    ghost use Rattle.questions.specs.Foreign.{AreWithoutNeeds, needs_listed};
    ghost use Rattle.questions.specs.declared.foreign.need.Need.{Need};

    ghost Value = { List (List (List Need)) };

    ghost view = { λ needs. needs_listed needs.chains };

    ghost invariant = { λ needs. IsTrue needs.none ↔ AreWithoutNeeds (needs_listed needs.chains) };
}

impl Needs {
    /// None of them needs anything.
    pub fn none(alloc: Global) -> Needs
        ensures { result ≡ [] }
    {
        Needs {
            chains: Vec::new(alloc),
            none: true,
        }
    }

    /// What is listed, chain by chain in the order of a listing of the table, and rule by rule. A rule for which nothing is listed needs nothing.
    /// It takes a look at each.
    pub fn of(chains: Vec<Vec<Vec<Need>>>) -> Needs
        ensures { result ≡ needs_listed chains }
    {
        let none = are_free(chains.as_slice());
        Needs { chains, none }
    }

    // What is listed, chain by chain; it is lent.
    pub(crate) fn listed(&self) -> &[Vec<Vec<Need>>]
        ensures { map (λ chain. map (λ needs. needs.items) chain.items) result.now ≡ self.now }
    {
        self.chains.as_slice()
    }

    // Whether no rule needs anything.
    pub(crate) fn are_none(&self) -> bool
        ensures none { IsTrue result → AreWithoutNeeds self.now }
        ensures some { result ≡ false → AreWithoutNeeds self.now → ⊥ }
    {
        self.none
    }

    // Whether the same is listed. It takes no memory, and time linear in the needs.
    pub(crate) fn equals(&self, other: &Needs) -> bool
        ensures { IsTrue result ↔ (self.now ≡ other.now) }
    {
        self.listed() == other.listed()
    }

    /// What the rule at a place of the chain at a place needs, both from 0; it is lent. A rule for which nothing is listed needs nothing.
    pub fn at(&self, place: usize, passed: usize) -> &[Need]
        ensures { result.now ≡ needs_at self.now place passed }
    {
        let Some(chain) = self.chains.get(place) else {
            return &[];
        };
        match chain.get(passed) {
            Some(needs) => needs.as_slice(),
            None => &[],
        }
    }
}

// Whether none of these rules of a chain needs anything.
fn are_empty(chain: &[Vec<Need>]) -> bool
    ensures none { IsTrue result → All (λ needs. needs.items ≡ []) chain.now }
    ensures some { result ≡ false → All (λ needs. needs.items ≡ []) chain.now → ⊥ }
{
    for needs in chain {
        if !needs.is_empty() {
            return false;
        }
    }
    true
}

// Whether no rule of these chains needs anything.
fn are_free(chains: &[Vec<Vec<Need>>]) -> bool
    ensures none { IsTrue result → All (λ chain. All (λ needs. needs.items ≡ []) chain.items) chains.now }
    ensures some { result ≡ false → All (λ chain. All (λ needs. needs.items ≡ []) chain.items) chains.now → ⊥ }
{
    for chain in chains {
        if !are_empty(chain.as_slice()) {
            return false;
        }
    }
    true
}

// What is known of all that a rule needs.
#[derive(Clone, Copy)]
pub(crate) enum Standing {
    // It holds.
    Holds,
    // Some of it doesn't.
    Fails,
    // It hangs on this condition, which isn't answered yet.
    Open(usize),
}

// Whether something is among needs.
fn is_among(needs: &[Need], wanted: Need) -> bool
    ensures { IsTrue result ↔ Contains needs.now wanted }
{
    needs.contains(&wanted)
}

// Whether needs ask that a condition holds, and that it doesn't.
fn are_contrary(needs: &[Need], condition: usize) -> bool
    ensures { IsTrue result → (a : Assignment) → IsFalse (all_hold a needs.now) }
{
    let held = Need {
        condition,
        inverted: false,
    };
    let not_held = Need {
        condition,
        inverted: true,
    };
    let is_held = is_among(needs, held);
    let is_not_held = is_among(needs, not_held);
    is_held && is_not_held
}

// What is known of a rule's needs by the answers: one fails, or two are contrary, or all hold, or else it hangs on the first condition that has no
// answer.
pub(crate) fn known_of(needs: &[Need], answers: &Answers) -> Standing
    ensures { IsStanding needs.now answers.now result }
{
    let mut found = None;
    for need in needs {
        match answers.to(need.condition) {
            None => found = found.or(Some(need.condition)),
            Some(holds) => {
                if holds == need.inverted {
                    return Standing::Fails;
                }
            }
        }
    }
    match found {
        None => Standing::Holds,
        Some(condition) => {
            if are_contrary(needs, condition) {
                return Standing::Fails;
            }
            Standing::Open(condition)
        }
    }
}

// The answers, with more that meet the needs which they leave open; none where some need can't be met.
pub(crate) fn meeting(needs: &[Need], mut answers: Answers) -> Result<Option<Answers>, AllocError>
    ensures { IfOk result (λ found. MatchOption found (MeetsNever needs.now answers) (IsMeeting needs.now answers)) }
{
    for wanted in needs {
        match answers.to(wanted.condition) {
            None => answers.add(wanted.condition, !wanted.inverted)?,
            Some(holds) => {
                if holds == wanted.inverted {
                    return Ok(None);
                }
            }
        }
    }
    answers.stand();
    Ok(Some(answers))
}
