//! How the walk of one packet ends, whatever holds that rules need.
ghost use Rattle.std.specs.Prelude.{◌≡◌, All, IfOk, IfSome, MatchOption};
ghost use Rattle.questions.specs.Ends.{step_of};
ghost use Rattle.questions.specs.Foreign.{AreAsked};
ghost use Rattle.questions.specs.asked.Idle.{AreEnds, MayNotEnd};
ghost use Rattle.questions.specs.steps.Ending.{AreShown};

use crate::asked::walks::walks;
use crate::foreign::answers::Answers;
use crate::foreign::subject::Subject;
use crate::walking::idle::spared;
use crate::walking::lengths::are_short;
use crate::walking::task::Leaf;
use crate::written::WrittenPacket;
use std::alloc::{AllocError, Global};
use table::{Step, Verdict};

/// How the walk of a packet ends where these answers are right.
#[derive(Drop)]
pub struct End {
    /// The answers.
    pub answers: Answers,
    /// The verdict.
    pub verdict: Verdict,
    /// The rule that decides; none where the policy does.
    pub by: Option<Step>,
}

// The ends of the walks that leaves show.
fn ends_of(alloc: Global, leaves: &[Leaf]) -> Result<Vec<End>, AllocError>
    ensures { IfOk result (λ ends. AreShown leaves.now ends.items) }
{
    let mut ends = Vec::new(alloc);
    for leaf in leaves {
        leaf.answers.stand();
        ends.push(End {
            answers: leaf.answers.copy(alloc)?,
            verdict: leaf.verdict,
            by: leaf.decider(),
        })?;
    }
    Ok(ends)
}

/// How the walk of a packet that a line writes ends: under each assignment that gives the answers as one of these ends says; and each says how it
/// ends under each assignment that gives its answers, which are these and perhaps more, about conditions that some rule needs.
///
/// A jump asks nothing if of its chain no rule that matches the packet has a verdict, jumps or goes elsewhere: the packet comes back from there. So a
/// hundred such jumps are one walk, where `walks` has one for each set of conditions that hold. There are none only where walks may be too long, or
/// where those in which such jumps ask nothing use up the budget of `leaves_under`, or fill a trail.
///
/// It takes a look at each rule, and the memory of what the rules need.
///
/// # Errors
///
/// `AllocError` where memory was refused.
pub fn ends(
    alloc: Global,
    subject: &Subject<'_>,
    written: &WrittenPacket,
    answers: &Answers,
    budget: usize,
) -> Result<Option<Vec<End>>, AllocError>
    ensures asked { IfOk result (λ found. IfSome found (λ ends. All (λ end. AreAsked subject.now.needs.now answers.now end.answers) ends.items)) }
    ensures ends { IfOk result (λ found. MatchOption found
        (MayNotEnd subject.now budget answers.now written.now) (λ ends. AreEnds subject.now written.now answers.now ends.items)) }
{
    subject.boxed.table.stands();
    let packet = written.packet();
    if !are_short(subject, packet.hook()) {
        return Ok(None);
    }
    let needs = spared(alloc, subject, packet)?;
    let others = Subject {
        boxed: subject.boxed,
        needs: &needs,
    };
    match walks(alloc, &others, written, answers, budget)? {
        Some(leaves) => Ok(Some(ends_of(alloc, leaves.as_slice())?)),
        None => Ok(None),
    }
}
