//! Which of some answers are necessary for a rule to be on the walk of a packet.
ghost use Rattle.std.specs.Prelude.{◌≡◌, false, All, Any, IfOk, IsTrue};
ghost use Rattle.questions.specs.Ends.{IsRule};
ghost use Rattle.questions.specs.Scopes.{table_of};
ghost use Rattle.questions.specs.asked.Necessary.{AreEnough, AreNecessary, MayNotSuffice};
ghost use Rattle.questions.specs.boxes.Boxes.{IsAtHook, IsIn};
ghost use Rattle.questions.specs.steps.Takers.{IsMissed, IsSurelyOn, needs_of};

use crate::asked::missing::{is_off, is_surely_on};
use crate::asked::walks::walks_of;
use crate::boxes::area::Area;
use crate::boxes::matched::has;
use crate::foreign::answers::{Answer, Answers};
use crate::foreign::subject::Subject;
use crate::seeking::before::Approach;
use crate::seeking::surely::suffice_surely;
use crate::walking::task::Leaf;
use fields::Packet;
use std::alloc::{AllocError, Global};
use table::Step;

// Whether each leaf that has the packet has the rule surely on its trail.
fn all_have(subject: &Subject<'_>, found: &[Leaf], packet: &Packet, step: Step) -> bool
    requires { IsRule (table_of subject.now) step }
    ensures yes { IsTrue result → All (λ leaf. IsIn leaf.area packet.now → IsSurelyOn (needs_of subject.now.needs.now step) step leaf) found.now }
    ensures no { result ≡ false → Any (λ leaf. IsIn leaf.area packet.now × IsMissed (needs_of subject.now.needs.now step) step leaf) found.now }
{
    let needs = subject.needs.at(step.chain, step.number - 1);
    for leaf in found {
        if has(leaf.area.sets(), packet) && !is_surely_on(needs, leaf, step) {
            return false;
        }
    }
    true
}

// Whether all walks of a packet where the answers are right are known to have the rule.
fn walks_have(
    alloc: Global,
    approach: &Approach<'_, '_, '_>,
    budget: usize,
) -> Result<bool, AllocError>
    requires step { IsRule (table_of approach.now.subject) approach.now.wanted }
    requires can { IsAtHook approach.now.packet.now }
    ensures yes { IfOk result (λ is. IsTrue is → AreEnough approach.now.subject approach.now.wanted approach.now.packet.now approach.now.answers.now) }
    ensures no { IfOk result (λ is. is ≡ false → MayNotSuffice approach.now.subject approach.now.wanted approach.now.packet.now budget approach.now.answers.now) }
{
    let subject = approach.subject;
    let packet = approach.packet;
    subject.boxed.table.stands();
    let whole = Area::at_hook(alloc, packet.hook())?;
    match walks_of(alloc, &subject, &whole, packet, approach.answers, budget)? {
        None => Ok(false),
        Some(found) => Ok(all_have(&subject, found.as_slice(), packet, approach.wanted)),
    }
}

// Whether a rule is known to be on the walk of a packet where the answers are right: the packet surely comes there, or all its walks have the rule.
pub(crate) fn is_always_on(
    alloc: Global,
    approach: &Approach<'_, '_, '_>,
    budget: usize,
) -> Result<bool, AllocError>
    requires step { IsRule (table_of approach.now.subject) approach.now.wanted }
    requires can { IsAtHook approach.now.packet.now }
    ensures yes { IfOk result (λ is. IsTrue is → AreEnough approach.now.subject approach.now.wanted approach.now.packet.now approach.now.answers.now) }
    ensures no { IfOk result (λ is. is ≡ false → MayNotSuffice approach.now.subject approach.now.wanted approach.now.packet.now budget approach.now.answers.now) }
{
    if suffice_surely(alloc, approach)? {
        return Ok(true);
    }
    walks_have(alloc, approach, budget)
}

// Whether answers are known to suffice without one more: not where a walk misses the rule on which that one is turned.
fn suffice_without(
    alloc: Global,
    others: &Approach<'_, '_, '_>,
    answer: Answer,
    budget: usize,
) -> Result<bool, AllocError>
    requires step { IsRule (table_of others.now.subject) others.now.wanted }
    requires can { IsAtHook others.now.packet.now }
    ensures yes { IfOk result (λ is. IsTrue is → AreEnough others.now.subject others.now.wanted others.now.packet.now others.now.answers.now) }
    ensures no { IfOk result (λ is. is ≡ false → MayNotSuffice others.now.subject others.now.wanted others.now.packet.now budget others.now.answers.now) }
{
    let mut turned = others.answers.copy(alloc)?;
    let _is_new = turned.give(answer.condition, !answer.holds)?;
    let missing = Approach {
        answers: &turned,
        ..*others
    };
    if is_off(alloc, &missing)? {
        return Ok(false);
    }
    is_always_on(alloc, others, budget)
}

// Those of some answers that are necessary: one after another is left out where the others suffice.
pub(crate) fn necessary_of(
    alloc: Global,
    subject: &Subject<'_>,
    packet: &Packet,
    answers: &Answers,
    step: Step,
    budget: usize,
) -> Result<Answers, AllocError>
    requires step { IsRule (table_of subject.now) step }
    requires can { IsAtHook packet.now }
    ensures enough { IfOk result (λ enough. AreEnough subject.now step packet.now answers.now → AreEnough subject.now step packet.now enough) }
    ensures necessary { IfOk result (AreNecessary subject.now step packet.now budget) }
{
    let mut necessary = answers.copy(alloc)?;
    for answer in answers.listed() {
        let others = necessary.without(alloc, answer.condition)?;
        others.stand();
        let approach = Approach {
            subject: *subject,
            packet,
            answers: &others,
            wanted: step,
        };
        if suffice_without(alloc, &approach, *answer, budget)? {
            necessary = others;
        }
    }
    Ok(necessary)
}
