//! How many of some answers suffice for a rule to be on the walk of a packet.
ghost use Rattle.std.specs.Prelude.{◌≡◌, ◌≤◌, take, length, IfOk};
ghost use Rattle.questions.specs.Ends.{IsRule};
ghost use Rattle.questions.specs.Leaves.{entry_of};
ghost use Rattle.questions.specs.Scopes.{table_of};
ghost use Rattle.questions.specs.asked.Always.{IsLiveWith};
ghost use Rattle.questions.specs.asked.Necessary.{AreEnough, AreFew};
ghost use Rattle.questions.specs.boxes.Boxes.{IsAtHook};

use crate::asked::necessary::necessary_of;
use crate::foreign::answers::Answers;
use crate::foreign::subject::Subject;
use crate::seeking::before::Approach;
use crate::seeking::surely::suffice_surely;
use fields::{Packet, Words};
use std::alloc::{AllocError, Global};
use table::Step;

// Up to so many answers are tried one by one.
const FEW: usize = 8;

// The first of some answers, so many.
fn first_of(alloc: Global, answers: &Answers, count: usize) -> Result<Answers, AllocError>
    requires { count ≤ length answers.now }
    ensures { IfOk result (λ first. first ≡ take count answers.now) }
{
    answers.stand();
    let mut first = Answers::none(alloc);
    for answer in &answers.listed()[..count] {
        first.add(answer.condition, answer.holds)?;
    }
    Ok(first)
}

// Few answers as they are; of more the first half, as long as it is known to suffice: where these are right, the rule is on the walk of the packet.
fn first_enough(
    alloc: Global,
    subject: &Subject<'_>,
    packet: &Packet,
    mut answers: Answers,
    step: Step,
) -> Result<Answers, AllocError>
    requires step { IsRule (table_of subject.now) step }
    requires can { IsAtHook packet.now }
    ensures { IfOk result (λ enough. AreEnough subject.now step packet.now answers → AreEnough subject.now step packet.now enough) }
{
    while answers.listed().len() > FEW {
        let half = first_of(alloc, &answers, answers.listed().len() / 2)?;
        let approach = Approach {
            subject: *subject,
            packet,
            answers: &half,
            wanted: step,
        };
        if !suffice_surely(alloc, &approach)? {
            return Ok(answers);
        }
        answers = half;
    }
    Ok(answers)
}

// Fewer of the answers that bring the packet which the words write to a rule: of many answers the first half, again and again, as long as it suffices; of few, those
// that are necessary.
pub(crate) fn enough_of(
    alloc: Global,
    subject: &Subject<'_>,
    words: &Words,
    answers: Answers,
    step: Step,
    budget: usize,
) -> Result<Answers, AllocError>
    requires { IsRule (table_of subject.now) step }
    ensures enough { IfOk result (λ enough. IsLiveWith subject.now (entry_of (table_of subject.now).chains step) words.now answers
        → IsLiveWith subject.now (entry_of (table_of subject.now).chains step) words.now enough) }
    ensures few { IfOk result (AreFew subject.now step words.now budget) }
{
    answers.stand();
    let Ok(packet) = Packet::read(words, 0) else {
        return Ok(answers);
    };
    let first = first_enough(alloc, subject, &packet, answers, step)?;
    if first.listed().len() > FEW {
        first.stand();
        return Ok(first);
    }
    let enough = necessary_of(alloc, subject, &packet, &first, step, budget)?;
    enough.stand();
    Ok(enough)
}
