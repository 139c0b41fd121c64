//! A walk of a packet that misses a rule.
ghost use Rattle.std.specs.Prelude.{◌≡◌, false, Any, Contains, IfOk, IsTrue, OnOk};
ghost use Rattle.table.specs.walk.Walk.{walk};
ghost use Rattle.questions.specs.Ends.{IsRule};
ghost use Rattle.questions.specs.Foreign.{Agrees, Assignment};
ghost use Rattle.questions.specs.Leaves.{entry_of};
ghost use Rattle.questions.specs.Scopes.{answered, table_of};
ghost use Rattle.questions.specs.boxes.Boxes.{IsAtHook, IsIn};
ghost use Rattle.questions.specs.steps.Takers.{IsMissed, IsSurelyOn, needs_of};
ghost use Rattle.questions.specs.steps.Waiting.{IsSettled};

use crate::asked::rule::is_on;
use crate::asked::walks::box_of;
use crate::boxes::area::Area;
use crate::boxes::candidates::Candidates;
use crate::boxes::matched::has;
use crate::foreign::answers::Answers;
use crate::foreign::need::{Need, Standing, known_of};
use crate::foreign::subject::Subject;
use crate::seeking::before::Approach;
use crate::walking::ahead::advanced;
use crate::walking::engine::{LIMIT, begin, policy_at, step};
use crate::walking::scope::Scope;
use crate::walking::task::{Leaf, Task};
use fields::Packet;
use std::alloc::{AllocError, Global};
use table::Step;

// Whether a rule is on the trail of a leaf, and all holds that it needs where the leaf's answers are right.
pub(crate) fn is_surely_on(needs: &[Need], leaf: &Leaf, step: Step) -> bool
    ensures yes { IsTrue result → IsSurelyOn needs.now step leaf.now }
    ensures no { result ≡ false → IsMissed needs.now step leaf.now }
{
    leaf.answers.stand();
    match known_of(needs, &leaf.answers) {
        Standing::Holds => is_on(leaf.trail.as_slice(), step),
        Standing::Fails => false,
        Standing::Open(_) => false,
    }
}

// Whether the newest leaf has the packet and misses the rule.
fn is_newest_off(subject: &Subject<'_>, found: &[Leaf], packet: &Packet, step: Step) -> bool
    requires { IsRule (table_of subject.now) step }
    ensures { IsTrue result → Any (λ leaf. IsIn leaf.area packet.now × IsMissed (needs_of subject.now.needs.now step) step leaf) found.now }
{
    let needs = subject.needs.at(step.chain, step.number - 1);
    match found.last() {
        None => false,
        Some(leaf) => has(leaf.area.sets(), packet) && !is_surely_on(needs, leaf, step),
    }
}

// Answers the needs that are open: all hold, or none.
fn settle(answers: &mut Answers, needs: &[Need], hold: bool) -> Result<(), AllocError>
    ensures { OnOk result ((a : Assignment) → Agrees a answers.new → Agrees a answers.old) }
{
    for need in needs {
        let _is_new = answers.give(need.condition, need.inverted != hold)?;
    }
    Ok(())
}

// A task whose next rule hangs on conditions, with answers to them.
fn settled(subject: &Subject<'_>, mut task: Task, hold: bool) -> Result<Task, AllocError>
    ensures { IfOk result (IsSettled task) }
{
    if let Some(at) = task.rests.last() {
        let needs = subject.needs.at(at.chain, at.passed);
        if matches!(known_of(needs, &task.scope.answers), Standing::Open(_)) {
            settle(&mut task.scope.answers, needs, hold)?;
        }
    }
    Ok(task)
}

// Whether a walk of a packet from a scope, of so many steps at most, misses the rule: the one on which rules that hang on conditions match, or don't.
fn is_missed_from(
    alloc: Global,
    approach: &Approach<'_, '_, '_>,
    start: Scope,
    hold: bool,
) -> Result<bool, AllocError>
    requires step { IsRule (table_of approach.now.subject) approach.now.wanted }
    requires can { IsAtHook approach.now.packet.now }
    ensures { IfOk result (λ is. IsTrue is → (a : Assignment) × Agrees a start.answers
        × (Contains (walk (answered approach.now.subject a) approach.now.packet.now).trail (entry_of (table_of approach.now.subject).chains approach.now.wanted) → ⊥)) }
{
    let subject = approach.subject;
    let packet = approach.packet;
    subject.boxed.table.stands();
    let policy = policy_at(&subject.boxed.table, packet.hook());
    let mut candidates = Candidates::all(alloc, &start.area)?;
    let mut front = begin(alloc, &subject, packet.hook(), start)?;
    for _ in 0..LIMIT {
        let Some(task) = front.tasks.pop() else {
            return Ok(false);
        };
        if task.trail.len() >= LIMIT {
            return Ok(false);
        }
        let next = settled(&subject, advanced(&subject, &mut candidates, task)?, hold)?;
        step(&subject, policy, &mut front, next)?;
        if is_newest_off(&subject, front.leaves.as_slice(), packet, approach.wanted) {
            return Ok(true);
        }
    }
    Ok(false)
}

// Whether a rule is seen to be off the walk of a packet under some assignment that gives the answers.
pub(crate) fn is_off(alloc: Global, approach: &Approach<'_, '_, '_>) -> Result<bool, AllocError>
    requires step { IsRule (table_of approach.now.subject) approach.now.wanted }
    requires can { IsAtHook approach.now.packet.now }
    ensures { IfOk result (λ is. IsTrue is → (a : Assignment) × Agrees a approach.now.answers.now
        × (Contains (walk (answered approach.now.subject a) approach.now.packet.now).trail (entry_of (table_of approach.now.subject).chains approach.now.wanted) → ⊥)) }
{
    let whole = Area::at_hook(alloc, approach.packet.hook())?;
    for hold in [false, true] {
        let answers = approach.answers.copy(alloc)?;
        let area = box_of(alloc, &whole, approach.packet)?;
        if is_missed_from(alloc, approach, Scope { area, answers }, hold)? {
            return Ok(true);
        }
    }
    Ok(false)
}
