//! The search for a packet that comes to a rule: packets of its box walk, one after another, and each that is led away says
//! which packets to try next. Where none is left, the rule is dead.
ghost use Rattle.std.specs.Prelude.{◌↔◌, All, Contains, IfOk, IfSome, IsTrue};
ghost use Rattle.table.specs.walk.Walk.{walk};
ghost use Rattle.questions.specs.Ends.{IsRule};
ghost use Rattle.questions.specs.Foreign.{Agrees, Assignment};
ghost use Rattle.questions.specs.Leaves.{entry_of};
ghost use Rattle.questions.specs.Scopes.{answered, table_of, whole_of};
ghost use Rattle.questions.specs.Written.{IsSampleOf};
ghost use Rattle.questions.specs.asked.Always.{SaysIn};
ghost use Rattle.questions.specs.asked.Unclear.{IsSoughtInVain, IsUnclearAt};
ghost use Rattle.questions.specs.boxes.Boxes.{IsAtHook};
ghost use Rattle.questions.specs.steps.Seeking.{AreScopesOf, IsLess};
ghost use Rattle.questions.specs.steps.Tried.{IsElsewhere, IsTried};

use crate::asked::necessary::is_always_on;
use crate::asked::rule::{Life, is_on};
use crate::foreign::answers::Answers;
use crate::foreign::subject::Subject;
use crate::sampling::sample::{Sample, sample_of};
use crate::seeking::before::Approach;
use crate::seeking::less::are_less;
use crate::seeking::parting::parts_without;
use crate::seeking::seen::Seen;
use crate::seeking::steering::{Ending, steer};
use crate::seeking::straying::others;
use crate::seeking::walked::walked;
use crate::seeking::way::{Way, add_longer, add_parts, met_with};
use crate::walking::course::Course;
use crate::walking::engine::hook_index;
use crate::walking::scope::Scope;
use fields::{Hook, Packet, Words};
use std::alloc::{AllocError, Global};
use table::Step;

// What came of a way.
#[derive(Drop)]
pub(crate) enum Tried {
    // A packet comes by it where these answers are right; these words write it.
    Comes(Words, Answers),
    // Others take its packets over.
    Parted,
    // That isn't known.
    Unknown,
}

// Whether a rule is known to be on a packet's walk where the answers are right.
fn is_shown(
    alloc: Global,
    subject: &Subject<'_>,
    packet: &Packet,
    answers: &Answers,
    step: Step,
    budget: usize,
) -> Result<bool, AllocError>
    requires step { IsRule (table_of subject.now) step }
    requires can { IsAtHook packet.now }
    ensures { IfOk result (λ is. IsTrue is → (a : Assignment) → Agrees a answers.now
        → Contains (walk (answered subject.now a) packet.now).trail (entry_of (table_of subject.now).chains step)) }
{
    if subject.needs.are_none() {
        let trail = subject.boxed.table.trail(packet)?;
        return Ok(is_on(trail.steps(), step));
    }
    let approach = Approach {
        subject: *subject,
        packet,
        answers,
        wanted: step,
    };
    is_always_on(alloc, &approach, budget)
}

// The packets of a way's scope that some rules don't lead away, if these lead some away.
fn led_away(
    alloc: Global,
    subject: &Subject<'_>,
    way: &Way,
    path: &[Step],
) -> Result<Option<Vec<Scope>>, AllocError>
    ensures all { IfOk result (λ found. IfSome found (λ scopes. AreScopesOf subject.now way.now scopes.items)) }
    ensures less { IfOk result (λ found. IfSome found (λ scopes. All (IsLess way.now.scope) scopes.items)) }
{
    let Some(scopes) = others(alloc, subject, way, path)? else {
        return Ok(None);
    };
    if are_less(&way.scope, scopes.as_slice()) {
        return Ok(Some(scopes));
    }
    Ok(None)
}

// Whether a way begins in a chain that is there, and isn't the hook's.
fn begins_elsewhere(subject: &Subject<'_>, hook: Hook, way: &Way) -> bool
    ensures { IsTrue result ↔ IsElsewhere (table_of subject.now) hook way.now }
{
    let chain = way.chain();
    chain != hook_index(hook) && chain < subject.boxed.table.chain_count()
}

// What comes of a way, by a packet of its scope.
fn try_by(
    subject: &Subject<'_>,
    course: Course,
    way: &Way,
    sample: Sample,
    ways: &mut Vec<Way>,
) -> Result<Tried, AllocError>
    requires step { IsRule (table_of subject.now) way.now.wanted }
    requires sample { IsSampleOf course.hook way.now.scope.area sample.words sample.packet }
    ensures { IfOk result (IsTried subject.now course way.now ways.old.items ways.new.items) }
{
    let alloc = course.alloc;
    let packet = sample.packet;
    subject.boxed.table.stands();
    if let Some(scopes) = parts_without(alloc, subject, way, &packet)? {
        add_parts(alloc, way, scopes, ways)?;
        return Ok(Tried::Parted);
    }
    let answers = way.scope.answers.copy(alloc)?;
    match steer(alloc, subject, &packet, way, answers, course.budget)? {
        Ending::Comes(answers) => {
            if begins_elsewhere(subject, course.hook, way) {
                add_longer(alloc, subject, course.hook, way, ways)?;
                return Ok(Tried::Parted);
            }
            if is_shown(alloc, subject, &packet, &answers, way.wanted, course.budget)? {
                answers.stand();
                return Ok(Tried::Comes(sample.words, answers));
            }
        }
        Ending::Strays(path) => {
            if let Some(scopes) = led_away(alloc, subject, way, path.as_slice())? {
                add_parts(alloc, way, scopes, ways)?;
                return Ok(Tried::Parted);
            }
        }
    }
    walked(subject, course, way, sample, ways)
}

// What comes of a way.
fn try_way(
    subject: &Subject<'_>,
    course: Course,
    way: &Way,
    ways: &mut Vec<Way>,
) -> Result<Tried, AllocError>
    requires { IsRule (table_of subject.now) way.now.wanted }
    ensures { IfOk result (IsTried subject.now course way.now ways.old.items ways.new.items) }
{
    if way.scope.area.is_empty() {
        return Ok(Tried::Parted);
    }
    match sample_of(course.alloc, course.hook, &way.scope.area)? {
        None => Ok(Tried::Unknown),
        Some(sample) => try_by(subject, course, way, sample, ways),
    }
}

// What packets of a scope that are sought at a hook tell of a rule: one comes to it, or none does.
pub(crate) fn seek(
    subject: &Subject<'_>,
    course: Course,
    start: &Scope,
    step: Step,
) -> Result<Life, AllocError>
    requires { IsRule (table_of subject.now) step }
    ensures says { IfOk result (SaysIn subject.now step course.hook start.now) }
    ensures vain { IfOk result (IsUnclearAt (IsSoughtInVain (whole_of subject.now) start.now step course.hook course.budget)) }
{
    subject.boxed.table.stands();
    let Some(seen) = Seen::at(*subject, step) else {
        return Ok(Life::Dead);
    };
    let Some(scope) = met_with(course.alloc, &seen, start)? else {
        return Ok(Life::Dead);
    };
    let mut ways = Vec::new(course.alloc);
    ways.push(Way::first(course.alloc, step, scope))?;
    let mut clear = true;
    for tried in 0..course.budget {
        let Some(way) = ways.pop() else {
            if clear {
                return Ok(Life::Dead);
            }
            return Ok(Life::Unclear);
        };
        match try_way(subject, course, &way, &mut ways)? {
            Tried::Comes(words, answers) => return Ok(Life::Live(words, answers)),
            Tried::Parted => {}
            Tried::Unknown => clear = false,
        }
    }
    if clear && ways.is_empty() {
        return Ok(Life::Dead);
    }
    Ok(Life::Unclear)
}
