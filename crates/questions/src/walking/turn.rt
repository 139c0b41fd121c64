//! Where the next rule sends the parts of a box.
ghost use Rattle.std.specs.Prelude.{◌⊎◌, ◌+◌, ◌<◌, ◌∷◌, [], ◌++◌, List, length, IfSome, IsTrue, OnOk};
ghost use Rattle.fields.specs.numbers.Field.{all_fields};
ghost use Rattle.rules.specs.rule.Actions.{target_of};
ghost use Rattle.table.specs.chains.Table.{Table as Filter, chain_at};
ghost use Rattle.table.specs.declared.verdict.Verdict.{Verdict};
ghost use Rattle.table.specs.walk.Cases.{Under, on_by};
ghost use Rattle.table.specs.walk.Walk.{after_match, whole};
ghost use Rattle.questions.specs.Foreign.{Agrees, Assignment, IsNeeded, IsUnanswered, needs_at};
ghost use Rattle.questions.specs.Scopes.{Known, answered, entries_by, is_met, known_by, table_of, whole_of};
ghost use Rattle.questions.specs.declared.foreign.need.Need.{Need as Needed};
ghost use Rattle.questions.specs.steps.Straying.{Stays, CanAsk, IsBranch, IsNeededBy, target_at};
ghost use Rattle.questions.specs.steps.Waiting.{KeepsAsked, AreNamedAlike, AreThere, IsLastMet, IsThere, Moves, PassesOver, rest_of, rests_of, rule_ahead, stage_at};
ghost use Rattle.questions.specs.boxes.Cut.{MatchesAll};
ghost use Rattle.questions.specs.steps.Taken.{AddsTasks, GetsOn, IsAnswered, IsBesides, IsEntered, IsGoneWith, IsNeededNext, IsPut, IsTurned, AddsBoxes, AddsOne, AddsParts};

use crate::boxes::area::Area;
use crate::boxes::cut::{Cut, cut_by, matches_all};
use crate::foreign::answers::Answers;
use crate::foreign::need::{Need, Standing, known_of};
use crate::foreign::subject::Subject;
use crate::walking::front::Front;
use crate::walking::task::{Pending, Task, beside};
use fields::Name;
use rules::{Rule, Target};
use std::alloc::AllocError;
use table::{Step, Table, Verdict};

// The walks go on with one more rest.
fn go_on(front: &mut Front, mut task: Task, at: Pending) -> Result<(), AllocError>
    ensures moves { OnOk result ((t : Filter) (known : Known) (policy : Verdict) → IsThere t.chains at → AreThere t.chains task
        → Moves t known policy task.scope (stage_at known t.chains at task) front.old front.new) }
    ensures asked { OnOk result ((needs : List (List (List Needed))) → KeepsAsked needs task.scope.answers front.old front.new) }
    ensures on { OnOk result (AddsTasks (IsPut task.scope (task.rests.items ++ at ∷ []) task.trail.items) front.old front.new) }
    ensures one { OnOk result (AddsOne task.scope front.old front.new) }
{
    task.rests.push(at)?;
    front.add_task(task)
}

// The walks go on in a chain. One that isn't there has no rules.
fn enter(table: &Table, front: &mut Front, task: Task, name: &Name) -> Result<(), AllocError>
    ensures moves { OnOk result ((t : Filter) (known : Known) (policy : Verdict) → AreNamedAlike t table.now.table → AreThere t.chains task
        → Moves t known policy task.scope
        (Under (whole name.now ∷ rests_of t.chains task.rests.items) (entries_by known t.chains task.trail.items)) front.old front.new) }
    ensures asked { OnOk result ((needs : List (List (List Needed))) → KeepsAsked needs task.scope.answers front.old front.new) }
    ensures on { OnOk result (AddsTasks (IsEntered table.now.table.chains name.now task.rests.items task.trail.items) front.old front.new) }
    ensures one { OnOk result (AddsOne task.scope front.old front.new) }
{
    match table.index_of(name.bytes()) {
        Some(chain) => go_on(front, task, Pending { chain, passed: 0 }),
        None => front.add_task(task),
    }
}

// The walks go where a target says, from behind its rule.
fn turn(
    table: &Table,
    front: &mut Front,
    mut task: Task,
    behind: Pending,
    target: Option<Target>,
) -> Result<(), AllocError>
    requires { 0 < length task.trail.items }
    ensures moves { OnOk result ((t : Filter) (known : Known) (policy : Verdict) → AreNamedAlike t table.now.table → IsThere t.chains behind → AreThere t.chains task
        → (Agrees known.holds task.scope.answers → IsLastMet known task.trail.items ⊎ Stays target)
        → Moves t known policy task.scope
        (on_by (after_match target (rest_of t.chains behind) (rests_of t.chains task.rests.items)) (entries_by known t.chains task.trail.items))
        front.old front.new) }
    ensures asked { OnOk result ((needs : List (List (List Needed))) → KeepsAsked needs task.scope.answers front.old front.new) }
    ensures on { OnOk result (AddsTasks (IsTurned table.now.table.chains target task.rests.items behind task.trail.items) front.old front.new) }
    ensures parts { OnOk result (AddsParts 1 task.scope front.old front.new) }
{
    match target {
        None => go_on(front, task, behind),
        Some(Target::Log) => go_on(front, task, behind),
        Some(Target::Accept) => front.add_leaf(task, Verdict::Accept, false),
        Some(Target::Drop) => front.add_leaf(task, Verdict::Drop, false),
        Some(Target::Reject(kind)) => front.add_leaf(task, Verdict::Reject(kind), false),
        Some(Target::Return) => front.add_task(task),
        Some(Target::Jump(name)) => {
            task.rests.push(behind)?;
            enter(table, front, task, &name)
        }
        Some(Target::Goto(name)) => enter(table, front, task, &name),
    }
}

// The rule goes on the trail of the walks that it matches, and they go where its target says.
fn follow(
    table: &Table,
    front: &mut Front,
    mut task: Task,
    behind: Pending,
    rule: &Rule,
) -> Result<(), AllocError>
    ensures moves { OnOk result ((t : Filter) (known : Known) (policy : Verdict) → AreNamedAlike t table.now.table → IsThere t.chains behind → AreThere t.chains task
        → (Agrees known.holds task.scope.answers → IsTrue (is_met known (record { chain = behind.chain; number = behind.passed })) ⊎ Stays (target_of rule.now))
        → Moves t known policy task.scope
        (on_by (after_match (target_of rule.now) (rest_of t.chains behind) (rests_of t.chains task.rests.items))
        (entries_by known t.chains (task.trail.items ++ record { chain = behind.chain; number = behind.passed } ∷ [])))
        front.old front.new) }
    ensures asked { OnOk result ((needs : List (List (List Needed))) → KeepsAsked needs task.scope.answers front.old front.new) }
    ensures on { OnOk result (AddsTasks (IsTurned table.now.table.chains (target_of rule.now) task.rests.items behind
        (task.trail.items ++ record { chain = behind.chain; number = behind.passed } ∷ [])) front.old front.new) }
    ensures parts { OnOk result (AddsParts 1 task.scope front.old front.new) }
{
    task.trail.push(Step {
        chain: behind.chain,
        number: behind.passed,
    })?;
    turn(table, front, task, behind, rule.target())
}

// The walks of some boxes go on at one place, each box in a task beside this one.
fn pass_over(
    front: &mut Front,
    mut boxes: Vec<Area>,
    task: &Task,
    at: Pending,
) -> Result<(), AllocError>
    ensures moves { OnOk result ((t : Filter) (known : Known) (policy : Verdict) → IsThere t.chains at → AreThere t.chains task.now
        → PassesOver t known policy boxes.items task.now.scope.answers (stage_at known t.chains at task.now) front.old front.new) }
    ensures asked { OnOk result ((needs : List (List (List Needed))) → KeepsAsked needs task.now.scope.answers front.old front.new) }
    ensures on { OnOk result (AddsTasks (IsBesides boxes.items task.now.scope.answers (task.now.rests.items ++ at ∷ []) task.now.trail.items) front.old front.new) }
    ensures boxes { OnOk result (AddsBoxes boxes.items task.now.scope.answers front.old front.new) }
{
    while let Some(area) = boxes.pop() {
        let next = beside(front.alloc, task, area)?;
        go_on(front, next, at)?;
    }
    Ok(())
}

// The walks part by whether a condition holds, and go on at one place.
fn part(front: &mut Front, mut task: Task, at: Pending, condition: usize) -> Result<(), AllocError>
    requires { IsUnanswered task.scope.answers condition }
    ensures moves { OnOk result ((t : Filter) (known : Known) (policy : Verdict) → IsThere t.chains at → AreThere t.chains task
        → Moves t known policy task.scope (stage_at known t.chains at task) front.old front.new) }
    ensures asked { OnOk result ((needs : List (List (List Needed))) → IsNeeded needs condition → KeepsAsked needs task.scope.answers front.old front.new) }
    ensures on { OnOk result ((needs : List (List (List Needed))) → IsNeededNext needs at condition
        → AddsTasks (IsAnswered needs task.scope.answers (task.rests.items ++ at ∷ []) task.trail.items) front.old front.new) }
    ensures parts { OnOk result (AddsParts 2 task.scope front.old front.new) }
{
    let same = task.scope.area.copy(front.alloc)?;
    let mut other = beside(front.alloc, &task, same)?;
    other.scope.answers.add(condition, false)?;
    go_on(front, other, at)?;
    task.scope.answers.add(condition, true)?;
    go_on(front, task, at)
}

// What becomes of the packets that a rule's box has.
enum Branch {
    // The rule doesn't match them.
    Passed,
    // It matches them; or it hands them over, if it matches them.
    Followed,
    // That hangs on this condition.
    Parted(usize),
}

// What becomes of the packets that a rule's box has, by what the rule needs and what is answered.
fn branch_of(needs: &[Need], answers: &Answers, rule: &Rule) -> Branch
    ensures branch { IsBranch needs.now answers.now (target_of rule.now) result }
    ensures needed { IsNeededBy needs.now result }
{
    match known_of(needs, answers) {
        Standing::Fails => Branch::Passed,
        Standing::Holds => Branch::Followed,
        Standing::Open(condition) => match rule.target() {
            None | Some(Target::Log) => Branch::Followed,
            _ => Branch::Parted(condition),
        },
    }
}

// The packets of a box, all of which the next rule of a chain matches, follow its target, or part by an open condition.
fn go_with(
    subject: &Subject<'_>,
    front: &mut Front,
    task: Task,
    at: Pending,
    parted: Option<usize>,
) -> Result<(), AllocError>
    requires there { IsThere (table_of subject.now).chains at }
    requires passed { at.passed < length (chain_at (table_of subject.now) at.chain).rules }
    requires rests { AreThere (table_of subject.now).chains task }
    requires room { length task.trail.items < 65536 }
    requires all { MatchesAll (rule_ahead (table_of subject.now) at) task.scope.area }
    requires needed { IfSome parted (IsNeededNext subject.now.needs.now at) }
    requires parted { CanAsk (needs_at subject.now.needs.now at.chain at.passed) task.scope.answers (target_at (table_of subject.now) at) parted }
    ensures moves { OnOk result ((a : Assignment) (policy : Verdict)
        → Moves (answered subject.now a) (known_by subject.now a) policy task.scope
        (stage_at (known_by subject.now a) (answered subject.now a).chains at task) front.old front.new) }
    ensures asked { OnOk result (KeepsAsked subject.now.needs.now task.scope.answers front.old front.new) }
    ensures on { OnOk result (AddsTasks (IsGoneWith subject.now.needs.now task.scope.answers (task.rests.items ++ at ∷ []) task.trail.items) front.old front.new) }
    ensures parts { OnOk result (AddsParts 2 task.scope front.old front.new) }
{
    let table = &subject.boxed.table;
    table.stands();
    let count = table.rule_count(at.chain);
    prove!(at.passed < count);
    if let Some(condition) = parted {
        return part(front, task, at, condition);
    }
    let rule = table.rule(at.chain, at.passed + 1);
    let behind = Pending {
        chain: at.chain,
        passed: at.passed + 1,
    };
    follow(table, front, task, behind, rule)
}

// Cuts a box by the next rule of a chain: the packets that the rule matches go with it; the others go on behind it. A box of which it matches all
// packets isn't copied. Where that depends on both ports, the box is parted by ports first, and the rule is tested again on its parts.
fn cut(
    subject: &Subject<'_>,
    front: &mut Front,
    mut task: Task,
    at: Pending,
    parted: Option<usize>,
) -> Result<(), AllocError>
    requires there { IsThere (table_of subject.now).chains at }
    requires passed { at.passed < length (chain_at (table_of subject.now) at.chain).rules }
    requires rests { AreThere (table_of subject.now).chains task }
    requires room { length task.trail.items < 65536 }
    requires needed { IfSome parted (IsNeededNext subject.now.needs.now at) }
    requires parted { CanAsk (needs_at subject.now.needs.now at.chain at.passed) task.scope.answers (target_at (table_of subject.now) at) parted }
    ensures moves { OnOk result ((a : Assignment) (policy : Verdict)
        → Moves (answered subject.now a) (known_by subject.now a) policy task.scope
        (stage_at (known_by subject.now a) (answered subject.now a).chains at task) front.old front.new) }
    ensures asked { OnOk result (KeepsAsked subject.now.needs.now task.scope.answers front.old front.new) }
    ensures on { OnOk result (AddsTasks (GetsOn (whole_of subject.now) task.scope (task.rests.items ++ at ∷ []) task.trail.items) front.old front.new) }
    ensures parts { OnOk result (AddsParts (length all_fields + 2) task.scope front.old front.new) }
{
    let table = &subject.boxed.table;
    table.stands();
    let count = table.rule_count(at.chain);
    prove!(at.passed < count);
    let rule = table.rule(at.chain, at.passed + 1);
    let own = subject.boxed.own_at(at.chain, at.passed + 1);
    if matches_all(rule, own, &task.scope.area) {
        return go_with(subject, front, task, at, parted);
    }
    let behind = Pending {
        chain: at.chain,
        passed: at.passed + 1,
    };
    match cut_by(front.alloc, rule, own.boxed(), &task.scope.area)? {
        Cut::Apart => go_on(front, task, behind),
        Cut::Parts(inside, outside) => {
            pass_over(front, outside, &task, behind)?;
            task.scope.area = inside;
            go_with(subject, front, task, at, parted)
        }
        Cut::ByPorts(again, outside) => {
            pass_over(front, outside, &task, behind)?;
            pass_over(front, again, &task, at)
        }
    }
}

// The next rule of a chain is tested on a box. Where something that it needs doesn't hold, the box goes on behind it.
pub(crate) fn ask(
    subject: &Subject<'_>,
    front: &mut Front,
    task: Task,
    at: Pending,
) -> Result<(), AllocError>
    requires there { IsThere (table_of subject.now).chains at }
    requires passed { at.passed < length (chain_at (table_of subject.now) at.chain).rules }
    requires rests { AreThere (table_of subject.now).chains task }
    requires room { length task.trail.items < 65536 }
    ensures moves { OnOk result ((a : Assignment) (policy : Verdict)
        → Moves (answered subject.now a) (known_by subject.now a) policy task.scope
        (stage_at (known_by subject.now a) (answered subject.now a).chains at task) front.old front.new) }
    ensures asked { OnOk result (KeepsAsked subject.now.needs.now task.scope.answers front.old front.new) }
    ensures on { OnOk result (AddsTasks (GetsOn (whole_of subject.now) task.scope (task.rests.items ++ at ∷ []) task.trail.items) front.old front.new) }
    ensures parts { OnOk result (AddsParts (length all_fields + 2) task.scope front.old front.new) }
{
    let table = &subject.boxed.table;
    table.stands();
    let count = table.rule_count(at.chain);
    prove!(at.passed < count);
    let needs = subject.needs.at(at.chain, at.passed);
    let rule = table.rule(at.chain, at.passed + 1);
    match branch_of(needs, &task.scope.answers, rule) {
        Branch::Passed => {
            let behind = Pending {
                chain: at.chain,
                passed: at.passed + 1,
            };
            go_on(front, task, behind)
        }
        Branch::Followed => cut(subject, front, task, at, None),
        Branch::Parted(condition) => cut(subject, front, task, at, Some(condition)),
    }
}
