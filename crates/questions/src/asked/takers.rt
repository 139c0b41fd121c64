//! Which rules and policies decide the packets that a rule would match.
ghost use Rattle.std.specs.Prelude.{◌≡◌, ◌<◌, ◌⊎◌, [], false, length, IfOk, IsFalse, IsTrue, MatchOption, OnOk};
ghost use Rattle.table.specs.chains.Table.{chain_at};
ghost use Rattle.questions.specs.Ends.{IsRule};
ghost use Rattle.questions.specs.Leaves.{entry_of};
ghost use Rattle.questions.specs.Scopes.{table_of};
ghost use Rattle.questions.specs.asked.Always.{IsAlwaysDead};
ghost use Rattle.questions.specs.asked.Unknown.{IsUndecidedAtUnder, IsUndecidedUnder, LeadsTo};
ghost use Rattle.questions.specs.asked.Reason.{IsTakenUnder};
ghost use Rattle.questions.specs.steps.Answered.{MeetsNever};
ghost use Rattle.questions.specs.steps.Deciding.{AddsAt, AddsBy, AreBefore, AreTakersOf};
ghost use Rattle.questions.specs.steps.Leading.{AreLeading};
ghost use Rattle.questions.specs.steps.Takers.{IsScopeBy, needs_of, IsLetBy};

use crate::asked::exact::exact_walks;
use crate::asked::leading::is_led;
use crate::asked::matching::scope_at;
use crate::asked::rule::none_on;
use crate::foreign::subject::Subject;
use crate::seeking::calls::Call;
use crate::walking::course::Course;
use crate::walking::engine::hook_index;
use crate::walking::scope::Scope;
use crate::walking::task::Leaf;
use fields::Hook;
use std::alloc::{AllocError, Global};
use table::Step;

/// Which rules and policies decide some packets, each named once.
#[derive(Drop)]
pub struct Takers {
    /// The rules.
    pub rules: Vec<Step>,
    /// The hooks whose policies decide some of the packets there.
    pub policies: Vec<Hook>,
}

impl Takers {
    ghost use Rattle.questions.specs.steps.Takers.{Takes, TakesAll};

    // Whether they are none.
    pub(crate) fn are_none(&self) -> bool
        ensures none { IsTrue result → (self.now.rules.items ≡ []) × (self.now.policies.items ≡ []) }
        ensures some { result ≡ false → (0 < length self.now.rules.items) ⊎ (0 < length self.now.policies.items) }
    {
        self.rules.is_empty() && self.policies.is_empty()
    }

    // Adds the decider of a leaf of packets at a hook.
    fn add(&mut self, hook: Hook, leaf: &Leaf) -> Result<(), AllocError>
        ensures { OnOk result (Takes hook leaf.now self.old self.new) }
    {
        let Some(step) = leaf.decider() else {
            if self.policies.contains(&hook) {
                return Ok(());
            }
            self.policies.push(hook)?;
            return Ok(());
        };
        if self.rules.contains(&step) {
            return Ok(());
        }
        self.rules.push(step)?;
        Ok(())
    }

    // Adds the deciders of leaves of packets at a hook.
    fn add_all(&mut self, hook: Hook, found: &[Leaf]) -> Result<(), AllocError>
        ensures { OnOk result (TakesAll hook found.now self.old self.new) }
    {
        for leaf in found {
            self.add(hook, leaf)?;
        }
        Ok(())
    }
}

// The packets at a hook that a rule's box has and another rule lets in, if one is given, under answers that meet what the rule needs; none where no
// assignment meets that.
fn scope_by(
    subject: &Subject<'_>,
    course: Course,
    step: Step,
    by: Option<Step>,
) -> Result<Option<Scope>, AllocError>
    requires step { IsRule (table_of subject.now) step }
    requires by { LeadsTo (table_of subject.now) step by }
    ensures { IfOk result (λ found. MatchOption found
        (MeetsNever (needs_of subject.now.needs.now step) []) (IsScopeBy (table_of subject.now) subject.now.needs.now step by course.hook)) }
{
    let Some(scope) = scope_at(course.alloc, subject, course.hook, step)? else {
        return Ok(None);
    };
    let Some(by) = by else {
        return Ok(Some(scope));
    };
    let Scope { area, answers } = scope;
    let area = area.within(course.alloc, subject.boxed.at(by.chain, by.number).spans())?;
    Ok(Some(Scope { area, answers }))
}

// The walks of the packets at a hook that a rule matches where all holds that it needs, and that another rule lets in, if one is given, as boxes of
// packets that can be there, if the rule is on none. There are none where what it needs contradicts itself. Of a rule that asks both ports it isn't known
// which packets of its box it matches.
fn walks_before(
    subject: &Subject<'_>,
    course: Course,
    step: Step,
    by: Option<Step>,
) -> Result<Option<Vec<Leaf>>, AllocError>
    requires step { IsRule (table_of subject.now) step }
    requires by { LeadsTo (table_of subject.now) step by }
    ensures { IfOk result (λ found. MatchOption found
        (IsUndecidedAtUnder subject.now step course.budget course.hook)
        (λ leaves. AreBefore subject.now step (IsLetBy (table_of subject.now) by) course.hook leaves.items)) }
{
    let table = &subject.boxed.table;
    table.stands();
    let Some(start) = scope_by(subject, course, step, by)? else {
        return Ok(Some(Vec::new(course.alloc)));
    };
    let rule = table.rule(step.chain, step.number);
    if rule.asks_both() {
        return Ok(None);
    }
    let Some(found) = exact_walks(course.alloc, subject, course.hook, start, course.budget)? else {
        return Ok(None);
    };
    if !none_on(found.as_slice(), step) {
        return Ok(None);
    }
    Ok(Some(found))
}

// Adds who decides these packets. Whether that is known, and the rule is on none of their walks.
fn add_by(
    subject: &Subject<'_>,
    course: Course,
    step: Step,
    by: Option<Step>,
    takers: &mut Takers,
) -> Result<bool, AllocError>
    requires step { IsRule (table_of subject.now) step }
    requires by { LeadsTo (table_of subject.now) step by }
    ensures known { IfOk result (λ is. IsTrue is → AddsBy subject.now step by course.hook takers.old takers.new) }
    ensures unknown { IfOk result (λ is. IsFalse is → IsUndecidedAtUnder subject.now step course.budget course.hook) }
{
    let Some(found) = walks_before(subject, course, step, by)? else {
        return Ok(false);
    };
    takers.add_all(course.hook, found.as_slice())?;
    Ok(true)
}

// Adds who decides the packets at a hook that a rule would match where all holds that it needs; if just the near ones are asked about, those that may come
// to the rule's chain. Whether that is known, and the rule is on none of their walks.
fn add_at(
    subject: &Subject<'_>,
    course: Course,
    step: Step,
    near: bool,
    takers: &mut Takers,
) -> Result<bool, AllocError>
    requires { IsRule (table_of subject.now) step }
    ensures known { IfOk result (λ is. IsTrue is → AddsAt subject.now step near course.hook takers.old takers.new) }
    ensures unknown { IfOk result (λ is. IsFalse is → IsUndecidedAtUnder subject.now step course.budget course.hook) }
{
    subject.boxed.table.stands();
    if !near || hook_index(course.hook) == step.chain {
        return add_by(subject, course, step, None, takers);
    }
    for call in subject.boxed.calls() {
        let Call { to, by } = *call;
        if to == step.chain && !add_by(subject, course, step, Some(by), takers)? {
            return Ok(false);
        }
    }
    Ok(true)
}

// Who decides the packets that a rule would match where all holds that it needs, if it is dead; if just the near ones are asked about, those that may come
// to the rule's chain. The marks are those of the chains that lead there.
fn takers_by(
    alloc: Global,
    subject: &Subject<'_>,
    step: Step,
    marks: &[bool],
    budget: usize,
    near: bool,
) -> Result<Option<Takers>, AllocError>
    requires step { IsRule (table_of subject.now) step }
    requires marks { AreLeading (table_of subject.now) (chain_at (table_of subject.now) step.chain).name marks.now }
    ensures { IfOk result (λ found. MatchOption found
        (IsUndecidedUnder subject.now step budget)
        (λ takers. IsAlwaysDead subject.now (entry_of (table_of subject.now).chains step) × AreTakersOf subject.now step near takers)) }
{
    subject.boxed.table.stands();
    let mut takers = Takers {
        rules: Vec::new(alloc),
        policies: Vec::new(alloc),
    };
    for hook in Hook::ALL {
        if !is_led(marks, hook) {
            continue;
        }
        let course = Course {
            alloc,
            hook,
            budget,
        };
        if !add_at(subject, course, step, near, &mut takers)? {
            return Ok(None);
        }
    }
    Ok(Some(takers))
}

// Who decides the packets that a rule would match where all holds that it needs, if it is dead: those that may come to its chain or, where none may, all of
// them. The marks are those of the chains that lead there.
pub(crate) fn takers_of(
    alloc: Global,
    subject: &Subject<'_>,
    step: Step,
    marks: &[bool],
    budget: usize,
) -> Result<Option<Takers>, AllocError>
    requires step { IsRule (table_of subject.now) step }
    requires marks { AreLeading (table_of subject.now) (chain_at (table_of subject.now) step.chain).name marks.now }
    ensures { IfOk result (λ found. MatchOption found
        (IsUndecidedUnder subject.now step budget)
        (λ takers. IsAlwaysDead subject.now (entry_of (table_of subject.now).chains step) × IsTakenUnder subject.now step takers)) }
{
    let Some(near) = takers_by(alloc, subject, step, marks, budget, true)? else {
        return Ok(None);
    };
    if near.are_none() {
        return takers_by(alloc, subject, step, marks, budget, false);
    }
    Ok(Some(near))
}
