//! Boxes on their way through the table, with what is left of their chains and their trails; and leaves, at the end
//! of their walks.
ghost use Rattle.std.specs.Prelude.{◌≡◌, ◌≢◌, ◌<◌, false, length, IfOk};
ghost use Rattle.table.specs.declared.verdict.Verdict.TheVariants.{TooLong};
ghost use Rattle.questions.specs.Foreign.{AreConsistent};

use crate::boxes::area::Area;
use crate::foreign::answers::Answers;
use crate::walking::scope::Scope;
use std::alloc::{AllocError, Global};
use table::{Step, Verdict};

// What is left of a chain: its place in the order of a listing, from 0, and how many of its rules were passed.
#[derive(Clone, Copy)]
pub(crate) struct Pending {
    pub chain: usize,
    pub passed: usize,
}

// Packets whose walks are at one place: what is left of the chains there, the newest last, and the trail so far. Where a rule of the trail
// hands over, some of what it needs may be open.
#[derive(Drop)]
pub(crate) struct Task {
    pub scope: Scope,
    pub rests: Vec<Pending>,
    pub trail: Vec<Step>,
}

/// A box with a walk that isn't too long, where these answers are right: its trail, its verdict, and whether the policy gave it.
#[derive(Drop)]
pub struct Leaf {
    /// The box.
    pub area: Area,
    /// The answers.
    pub answers: Answers,
    /// The rules that match, in turn. One that hands over may be there while something that it needs is open: then it matches if that holds.
    pub trail: Vec<Step>,
    /// The verdict.
    pub verdict: Verdict,
    /// Whether the policy gives the verdict.
    pub by_policy: bool,
    ghost consistent: { AreConsistent answers },
    ghost short: { verdict ≢ TooLong },
    ghost decided: { by_policy ≡ false → 0 < length trail.items },
}

impl Leaf {
    ghost use Rattle.questions.specs.Ends.{step_of};

    /// The rule that decides the walk that the leaf shows, the last of the trail; none where the policy does.
    pub fn decider(&self) -> Option<Step>
        ensures { result ≡ step_of self.now }
    {
        if self.by_policy {
            return None;
        }
        self.trail.last().copied()
    }
}

// The trail again.
pub(crate) fn copy_trail(alloc: Global, trail: &[Step]) -> Result<Vec<Step>, AllocError>
    ensures { IfOk result (λ copy. copy.items ≡ trail.now) }
{
    let mut copy = Vec::new(alloc);
    copy.extend_from_slice(trail)?;
    Ok(copy)
}

// A task of another box beside this one, with the same answers, rests and trail.
pub(crate) fn beside(alloc: Global, task: &Task, area: Area) -> Result<Task, AllocError>
    ensures scope { IfOk result (λ other. other.scope ≡ record { area = area; answers = task.now.scope.answers }) }
    ensures rests { IfOk result (λ other. other.rests.items ≡ task.now.rests.items) }
    ensures trail { IfOk result (λ other. other.trail.items ≡ task.now.trail.items) }
{
    let answers = task.scope.answers.copy(alloc)?;
    let mut rests = Vec::new(alloc);
    rests.extend_from_slice(task.rests.as_slice())?;
    let trail = copy_trail(alloc, task.trail.as_slice())?;
    Ok(Task {
        scope: Scope { area, answers },
        rests,
        trail,
    })
}
