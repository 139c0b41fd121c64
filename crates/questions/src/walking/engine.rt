//! The walk of a box through a table, step after step, until no box is left.
ghost use Rattle.std.specs.Prelude.{◌≡◌, ◌≢◌, ◌+◌, ◌<◌, List, All, length, IfOk, IfSome, MatchOption, OnOk};
ghost use Rattle.fields.specs.numbers.Field.{all_fields};
ghost use Rattle.fields.specs.Packet.{PacketView};
ghost use Rattle.table.specs.declared.verdict.Verdict.{Verdict};
ghost use Rattle.table.specs.declared.verdict.Verdict.TheVariants.{TooLong};
ghost use Rattle.table.specs.steps.Kept.{hook_index};
ghost use Rattle.table.specs.walk.Walk.{end_verdict};
ghost use Rattle.questions.specs.Foreign.{AreAsked, Assignment};
ghost use Rattle.questions.specs.Scopes.{AreExactUnder, AreLeavesUnder, IsSurely, answered, known_by, table_of, whole_of};
ghost use Rattle.questions.specs.declared.foreign.need.Need.{Need};
ghost use Rattle.questions.specs.steps.Waiting.{AllAsked, KeepsAsked, AreThere, Begins, Moves, stage_of};
ghost use Rattle.questions.specs.steps.Taken.{AddsTasks, GetsOn, AddsParts, IsFinishedUnder, IsFirst, IsUnfinishedUnder};

use crate::boxes::candidates::Candidates;
use crate::foreign::subject::Subject;
use crate::walking::ahead::advanced;
use crate::walking::front::Front;
use crate::walking::scope::Scope;
use crate::walking::task::{Leaf, Pending, Task};
use crate::walking::turn::ask;
use fields::Hook;
use std::alloc::{AllocError, Global};
use table::{Policy, Table, Verdict};

// The most rules that match in a walk.
pub(crate) const LIMIT: usize = 65536;

// One step of the walks of a task: the policy decides them, a chain comes back, or a rule is asked.
pub(crate) fn step(
    subject: &Subject<'_>,
    policy: Verdict,
    front: &mut Front,
    mut task: Task,
) -> Result<(), AllocError>
    requires there { AreThere (table_of subject.now).chains task }
    requires room { length task.trail.items < 65536 }
    requires short { policy ≢ TooLong }
    ensures moves { OnOk result ((a : Assignment) → Moves (answered subject.now a) (known_by subject.now a) policy task.scope
        (stage_of (known_by subject.now a) (answered subject.now a).chains task) front.old front.new) }
    ensures asked { OnOk result (KeepsAsked subject.now.needs.now task.scope.answers front.old front.new) }
    ensures on { OnOk result (AddsTasks (GetsOn (whole_of subject.now) task.scope task.rests.items task.trail.items) front.old front.new) }
    ensures parts { OnOk result (AddsParts (length all_fields + 2) task.scope front.old front.new) }
{
    match task.rests.pop() {
        None => front.add_leaf(task, policy, true),
        Some(at) => {
            subject.boxed.table.stands();
            if at.passed >= subject.boxed.table.rule_count(at.chain) {
                return front.add_task(task);
            }
            ask(subject, front, task, at)
        }
    }
}

// The place of a hook's chain in the order of a listing.
pub(crate) fn hook_index(hook: Hook) -> usize
    ensures { result ≡ hook_index hook }
{
    match hook {
        Hook::Input => 0,
        Hook::Forward => 1,
        Hook::Output => 2,
    }
}

// The verdict of a hook's chain at its end.
pub(crate) fn policy_at(table: &Table, hook: Hook) -> Verdict
    ensures ends { (p : PacketView) → p.hook ≡ hook → end_verdict table.now.table p ≡ result }
    ensures short { result ≢ TooLong }
{
    match table.policy(hook_index(hook)) {
        Some(Policy::Drop) => Verdict::Drop,
        _ => Verdict::Accept,
    }
}

// A scope at the first rule of a hook's chain.
pub(crate) fn begin(
    alloc: Global,
    subject: &Subject<'_>,
    hook: Hook,
    start: Scope,
) -> Result<Front, AllocError>
    ensures begins { IfOk result (λ front. (a : Assignment) → Begins (answered subject.now a) (known_by subject.now a) hook start front) }
    ensures first { IfOk result (IsFirst hook start) }
    ensures asked { IfOk result (λ front. (needs : List (List (List Need))) → AllAsked needs start.answers front) }
{
    subject.boxed.table.stands();
    let mut front = Front {
        alloc,
        tasks: Vec::new(alloc),
        leaves: Vec::new(alloc),
    };
    let mut rests = Vec::new(alloc);
    rests.push(Pending {
        chain: hook_index(hook),
        passed: 0,
    })?;
    front.tasks.push(Task {
        scope: start,
        rests,
        trail: Vec::new(alloc),
    })?;
    Ok(front)
}

/// The walk of a box under answers, from the first rule of a hook's chain: leaves, such that for each assignment that gives the answers every packet of
/// the box that can be at the hook is in a leaf whose answers the assignment gives, too, and such a leaf has no packet at the hook from outside the
/// box. In the table that the assignment leaves, the packet's walk is the one that the leaf shows; and all holds that the rule needs which decides
/// it. A leaf's answers are those of the box, or about conditions that some rule needs. There are no leaves only where the whole budget was used up
/// with a box left, or a trail was full, with 65,536 rules, before.
///
/// A step of the budget is one rule tested on one box, one box that parts by a condition, or one chain at its end; rules that share no packet with the
/// box are passed without a step. A test makes at most two parts more than there are fields, each with some of the box's numbers, of which no
/// two share any. Rules that share no packet with the first box are set aside after many looks, with one at each rule and eight bytes
/// for it. A step takes the memory of a copy of the box, of the rests that wait and of the trail for each field on which the rule
/// leaves numbers out.
///
/// # Errors
///
/// `AllocError` where memory was refused.
pub fn leaves_under(
    alloc: Global,
    subject: &Subject<'_>,
    hook: Hook,
    start: Scope,
    budget: usize,
) -> Result<Option<Vec<Leaf>>, AllocError>
    ensures leaves { IfOk result (λ found. IfSome found (λ leaves. (a : Assignment)
        → AreLeavesUnder (answered subject.now a) (known_by subject.now a) hook start leaves.items)) }
    ensures exact { IfOk result (λ found. IfSome found (λ leaves. (a : Assignment)
        → AreExactUnder (answered subject.now a) (known_by subject.now a) hook start leaves.items)) }
    ensures decided { IfOk result (λ found. IfSome found (λ leaves. (a : Assignment) → All (IsSurely (known_by subject.now a)) leaves.items)) }
    ensures asked { IfOk result (λ found. IfSome found (λ leaves. All (λ leaf. AreAsked subject.now.needs.now start.answers leaf.answers) leaves.items)) }
    ensures steps { IfOk result (λ found. MatchOption found
        (IsUnfinishedUnder (whole_of subject.now) hook start budget) (λ leaves. IsFinishedUnder (whole_of subject.now) hook start budget leaves.items)) }
{
    let mut candidates = Candidates::all(alloc, &start.area)?;
    let policy = policy_at(&subject.boxed.table, hook);
    let mut front = begin(alloc, subject, hook, start)?;
    for taken in 0..budget {
        match front.tasks.pop() {
            None => return Ok(Some(front.leaves)),
            Some(task) => {
                if task.trail.len() >= LIMIT {
                    return Ok(None);
                }
                let next = advanced(subject, &mut candidates, task)?;
                step(subject, policy, &mut front, next)?;
            }
        }
    }
    if front.tasks.is_empty() {
        return Ok(Some(front.leaves));
    }
    Ok(None)
}
