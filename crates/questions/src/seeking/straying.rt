//! The packets of a scope that aren't led away by some rules, in parts.
ghost use Rattle.std.specs.Prelude.{◌≡◌, ◌-◌, ◌<◌, true, IfOk, IfSome, IsTrue, OnOk, slice_get};
ghost use Rattle.rules.specs.rule.Allows.{matches};
ghost use Rattle.questions.specs.Foreign.{all_hold, need_holds};
ghost use Rattle.questions.specs.steps.Seeking.{AddsBoxes, AddsParts, AreScopesOf, EndsAt, IsLeftIn, IsSameScope, KeepsIn, LeadsAwayAt, NoneAheadTakesOut};

use crate::boxes::area::Area;
use crate::boxes::cut::{Cut, cut_by, inside_of};
use crate::foreign::answers::Answers;
use crate::foreign::need::{Need, meeting};
use crate::foreign::subject::Subject;
use crate::seeking::calls::enters;
use crate::seeking::seen::{Seen, decides, takes_out};
use crate::seeking::way::{Way, met_with};
use crate::walking::scope::Scope;
use std::alloc::{AllocError, Global};
use table::Step;

// An equal scope.
pub(crate) fn copy_of(alloc: Global, scope: &Scope) -> Result<Scope, AllocError>
    ensures { IfOk result (IsSameScope scope.now) }
{
    Ok(Scope {
        area: scope.area.copy(alloc)?,
        answers: scope.answers.copy(alloc)?,
    })
}

// Adds the packets of a scope for which a need fails.
fn add_failing(
    alloc: Global,
    need: Need,
    scope: &Scope,
    scopes: &mut Vec<Scope>,
) -> Result<(), AllocError>
    ensures { OnOk result (AddsParts scope.now (λ a p. IsTrue (need_holds a need)) scopes.old.items scopes.new.items) }
{
    match scope.answers.to(need.condition) {
        None => {
            let mut part = copy_of(alloc, scope)?;
            part.answers.add(need.condition, need.inverted)?;
            scopes.push(part)?;
        }
        Some(holds) => {
            if holds == need.inverted {
                scopes.push(copy_of(alloc, scope)?)?;
            }
        }
    }
    Ok(())
}

// Adds the packets of a scope for which some need fails, in parts that may share packets.
fn add_unmet(
    alloc: Global,
    needs: &[Need],
    scope: &Scope,
    scopes: &mut Vec<Scope>,
) -> Result<(), AllocError>
    ensures { OnOk result (AddsParts scope.now (λ a p. IsTrue (all_hold a needs.now)) scopes.old.items scopes.new.items) }
{
    for need in needs {
        add_failing(alloc, *need, scope, scopes)?;
    }
    Ok(())
}

// Adds the packets of some boxes under the same answers.
pub(crate) fn add_boxes(
    alloc: Global,
    mut boxes: Vec<Area>,
    answers: &Answers,
    scopes: &mut Vec<Scope>,
) -> Result<(), AllocError>
    ensures { OnOk result (AddsBoxes boxes.items answers.now scopes.old.items scopes.new.items) }
{
    while let Some(area) = boxes.pop() {
        let answers = answers.copy(alloc)?;
        scopes.push(Scope { area, answers })?;
    }
    Ok(())
}

// Adds what a rule may match of a scope, whatever it needs beyond that: parts, where the ports are to be parted first.
pub(crate) fn add_matching(
    alloc: Global,
    seen: &Seen<'_>,
    scope: &Scope,
    scopes: &mut Vec<Scope>,
) -> Result<(), AllocError>
    ensures { OnOk result (AddsParts scope.now (λ a p. matches p.values seen.now.rule.now ≡ true → ⊥) scopes.old.items scopes.new.items) }
{
    let cut = cut_by(alloc, seen.rule, seen.own.boxed(), &scope.area)?;
    let areas = inside_of(alloc, cut)?;
    add_boxes(alloc, areas, &scope.answers, scopes)?;
    Ok(())
}

// Adds the packets of a scope that a rule doesn't match, or for which something fails that it needs; the others are what is left. A rule that asks both
// ports leaves none, where the ports are to be parted first.
fn split(
    alloc: Global,
    seen: &Seen<'_>,
    scope: Scope,
    scopes: &mut Vec<Scope>,
) -> Result<Option<Scope>, AllocError>
    ensures { IfOk result (λ left. AddsParts scope (IsLeftIn seen.now.rule.now seen.now.needs.now left) scopes.old.items scopes.new.items) }
{
    add_unmet(alloc, seen.needs, &scope, scopes)?;
    let Scope { area, answers } = scope;
    match cut_by(alloc, seen.rule, seen.own.boxed(), &area)? {
        Cut::Apart => {
            scopes.push(Scope { area, answers })?;
            Ok(None)
        }
        Cut::ByPorts(again, others) => {
            add_boxes(alloc, others, &answers, scopes)?;
            add_boxes(alloc, again, &answers, scopes)?;
            Ok(None)
        }
        Cut::Parts(area, others) => {
            add_boxes(alloc, others, &answers, scopes)?;
            match meeting(seen.needs, answers)? {
                None => Ok(None),
                Some(answers) => Ok(Some(Scope { area, answers })),
            }
        }
    }
}

// Adds the packets of a scope that a rule takes out of its chain, if it does so.
fn add_taken(
    alloc: Global,
    subject: &Subject<'_>,
    scope: &Scope,
    by: Step,
    scopes: &mut Vec<Scope>,
) -> Result<(), AllocError>
    requires { 0 < by.number }
    ensures { OnOk result (AddsParts scope.now (KeepsIn subject.now by) scopes.old.items scopes.new.items) }
{
    subject.boxed.table.stands();
    let Some(seen) = Seen::at(*subject, by) else {
        return Ok(());
    };
    if !takes_out(seen.rule.target()) {
        return Ok(());
    }
    if let Some(taken) = met_with(alloc, &seen, scope)? {
        add_matching(alloc, &seen, &taken, scopes)?;
    }
    Ok(())
}

// Adds the packets of a scope that some rule ahead takes out of its chain.
fn add_taken_ahead(
    alloc: Global,
    subject: &Subject<'_>,
    scope: &Scope,
    by: Step,
    scopes: &mut Vec<Scope>,
) -> Result<(), AllocError>
    ensures { OnOk result (AddsParts scope.now (NoneAheadTakesOut subject.now by (by.number - 1)) scopes.old.items scopes.new.items) }
{
    for number in 1..by.number {
        let ahead = Step {
            chain: by.chain,
            number,
        };
        add_taken(alloc, subject, scope, ahead, scopes)?;
    }
    Ok(())
}

// Adds the packets of a scope that don't get a verdict by a path: of its rules each enters the chain of the next one, and the last one decides. Whether
// the path is one.
fn part_by(
    alloc: Global,
    subject: &Subject<'_>,
    path: &[Step],
    scope: Scope,
    scopes: &mut Vec<Scope>,
) -> Result<bool, AllocError>
    ensures { IfOk result (λ is. IsTrue is → IfSome (slice_get path.now 0) (λ by. AddsParts scope (EndsAt subject.now by) scopes.old.items scopes.new.items)) }
{
    subject.boxed.table.stands();
    let Some((by, after)) = path.split_first() else {
        return Ok(false);
    };
    let Some(seen) = Seen::at(*subject, *by) else {
        return Ok(false);
    };
    let Some(left) = split(alloc, &seen, scope, scopes)? else {
        return Ok(true);
    };
    let Some(next) = after.first() else {
        return Ok(decides(seen.rule.target()));
    };
    if !enters(&subject.boxed.table, seen.rule.target(), next.chain) {
        return Ok(false);
    }
    add_taken_ahead(alloc, subject, &left, *next, scopes)?;
    part_by(alloc, subject, after, left, scopes)
}

// Adds the packets of a scope that a rule doesn't lead away by itself, if it takes packets out of its chain; else those that don't get a verdict by a
// path that begins with it. Whether that is so.
fn part_from(
    alloc: Global,
    subject: &Subject<'_>,
    path: &[Step],
    scope: Scope,
    scopes: &mut Vec<Scope>,
) -> Result<bool, AllocError>
    ensures { IfOk result (λ is. IsTrue is → IfSome (slice_get path.now 0) (λ by. AddsParts scope (LeadsAwayAt subject.now by) scopes.old.items scopes.new.items)) }
{
    subject.boxed.table.stands();
    let Some(by) = path.first() else {
        return Ok(false);
    };
    let Some(seen) = Seen::at(*subject, *by) else {
        return Ok(false);
    };
    if takes_out(seen.rule.target()) {
        let _left = split(alloc, &seen, scope, scopes)?;
        return Ok(true);
    }
    part_by(alloc, subject, path, scope, scopes)
}

// The packets of a way's scope that some rules don't lead away: the first stands ahead on the way. None where these lead nothing away.
pub(crate) fn others(
    alloc: Global,
    subject: &Subject<'_>,
    way: &Way,
    path: &[Step],
) -> Result<Option<Vec<Scope>>, AllocError>
    ensures { IfOk result (λ found. IfSome found (λ scopes. AreScopesOf subject.now way.now scopes.items)) }
{
    subject.boxed.table.stands();
    let Some(by) = path.first() else {
        return Ok(None);
    };
    if by.number == 0 {
        return Ok(None);
    }
    let Some(_place) = way.place_behind(*by) else {
        return Ok(None);
    };
    let mut scopes = Vec::new(alloc);
    let scope = copy_of(alloc, &way.scope)?;
    if part_from(alloc, subject, path, scope, &mut scopes)? {
        return Ok(Some(scopes));
    }
    Ok(None)
}
