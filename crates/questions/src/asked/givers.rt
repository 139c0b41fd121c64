//! Whether packets of a set come to rules that give one of some verdicts.
ghost use Rattle.std.specs.Prelude.{◌≡◌, ◌<◌, ◌≤◌, ◌↔◌, length, All, IfOk, IsTrue};
ghost use Rattle.rules.specs.rule.Actions.{target_of};
ghost use Rattle.table.specs.chains.Table.{chain_at};
ghost use Rattle.questions.specs.Ends.{IsRule, verdict_given};
ghost use Rattle.questions.specs.Scopes.{table_of};
ghost use Rattle.questions.specs.steps.Claimed.{AreStarts, GivesOne, IsStart, SaysByRule, SaysByRules, SaysInChain};

use crate::asked::claims::{Claimed, is_forbidden};
use crate::asked::reach::{Given, GivenPackets, met};
use crate::asked::rule::Life;
use crate::boxes::area::Area;
use crate::foreign::answers::Answers;
use crate::foreign::subject::Subject;
use crate::seeking::seek::seek;
use crate::walking::course::Course;
use crate::walking::engine::policy_at;
use crate::walking::scope::Scope;
use fields::Hook;
use rules::{Rule, Target};
use std::alloc::{AllocError, Global};
use table::{Step, Verdict};

// The verdict that a target gives, if it gives one.
fn verdict_of(target: Option<Target>) -> Option<Verdict>
    ensures { result ≡ verdict_given target }
{
    match target {
        Some(Target::Accept) => Some(Verdict::Accept),
        Some(Target::Drop) => Some(Verdict::Drop),
        Some(Target::Reject(kind)) => Some(Verdict::Reject(kind)),
        Some(Target::Jump(_) | Target::Goto(_) | Target::Return | Target::Log) | None => None,
    }
}

// Whether a rule gives one of the verdicts.
fn gives_one(forbidden: &[Verdict], rule: &Rule) -> bool
    ensures { IsTrue result ↔ GivesOne forbidden.now (target_of rule.now) }
{
    match verdict_of(rule.target()) {
        Some(verdict) => is_forbidden(forbidden, verdict),
        None => false,
    }
}

// The packets of a box that can be at a hook, with nothing answered.
fn start_of(alloc: Global, hook: Hook, area: &Area) -> Result<Scope, AllocError>
    ensures { IfOk result (IsStart (record { hook = hook; area = area.now })) }
{
    let Given { hook: _, area } = met(alloc, hook, area)?;
    Ok(Scope {
        area,
        answers: Answers::none(alloc),
    })
}

// The same of each box.
fn starts_of(alloc: Global, given: &GivenPackets) -> Result<Vec<Scope>, AllocError>
    ensures { IfOk result (λ starts. AreStarts given.now starts.items) }
{
    let mut starts = Vec::new(alloc);
    for area in given.boxes.as_slice() {
        starts.push(start_of(alloc, given.hook, area)?)?;
    }
    Ok(starts)
}

// What is known of the packets of some scopes and a rule: none comes to it, or one does.
fn told_by_rule(
    subject: &Subject<'_>,
    course: Course,
    starts: &[Scope],
    step: Step,
) -> Result<Claimed, AllocError>
    requires { IsRule (table_of subject.now) step }
    ensures { IfOk result (SaysByRule subject.now course.hook starts.now step) }
{
    let mut clear = true;
    for start in starts {
        match seek(subject, course, start, step)? {
            Life::Dead => {}
            Life::Live(words, answers) => {
                answers.stand();
                return Ok(Claimed::Fails(words, answers));
            }
            Life::Unclear => clear = false,
        }
    }
    if clear {
        return Ok(Claimed::Holds);
    }
    Ok(Claimed::Unclear)
}

// The same of the rules of the chain at a place that give one of the verdicts.
fn told_in_chain(
    subject: &Subject<'_>,
    course: Course,
    starts: &[Scope],
    forbidden: &[Verdict],
    place: usize,
) -> Result<Claimed, AllocError>
    requires { place < length (table_of subject.now).chains }
    ensures { IfOk result (SaysInChain subject.now course.hook starts.now forbidden.now place) }
{
    let table = &subject.boxed.table;
    table.stands();
    let mut clear = true;
    for passed in 0..table.rule_count(place) {
        let step = Step {
            chain: place,
            number: passed + 1,
        };
        if !gives_one(forbidden, table.rule(place, passed + 1)) {
            continue;
        }
        match told_by_rule(subject, course, starts, step)? {
            Claimed::Holds => {}
            Claimed::Fails(words, answers) => return Ok(Claimed::Fails(words, answers)),
            Claimed::Unclear => clear = false,
        }
    }
    if clear {
        return Ok(Claimed::Holds);
    }
    Ok(Claimed::Unclear)
}

// What is known of a claim from the rules that give one of the verdicts. It isn't known to hold where the hook's policy gives one.
pub(crate) fn told_by_rules(
    alloc: Global,
    subject: &Subject<'_>,
    given: &GivenPackets,
    forbidden: &[Verdict],
    budget: usize,
) -> Result<Claimed, AllocError>
    ensures { IfOk result (SaysByRules subject.now given.now forbidden.now) }
{
    let table = &subject.boxed.table;
    table.stands();
    let hook = given.hook;
    let starts = starts_of(alloc, given)?;
    let course = Course {
        alloc,
        hook,
        budget,
    };
    let policy = policy_at(table, hook);
    let mut clear = !is_forbidden(forbidden, policy) && !is_forbidden(forbidden, Verdict::TooLong);
    for place in 0..table.chain_count() {
        match told_in_chain(subject, course, starts.as_slice(), forbidden, place)? {
            Claimed::Holds => {}
            Claimed::Fails(words, answers) => return Ok(Claimed::Fails(words, answers)),
            Claimed::Unclear => clear = false,
        }
    }
    if clear {
        return Ok(Claimed::Holds);
    }
    Ok(Claimed::Unclear)
}
