//! The walks of one packet of a way, where the way doesn't tell what becomes of it: one of them has the rule, or all other packets of the way are left.
ghost use Rattle.std.specs.Prelude.{All, Any, Contains, IfOk, MatchOption, OnOk};
ghost use Rattle.fields.specs.Packet.{PacketView};
ghost use Rattle.questions.specs.Ends.{IsRule};
ghost use Rattle.questions.specs.Scopes.{table_of};
ghost use Rattle.questions.specs.Written.{IsSampleOf};
ghost use Rattle.questions.specs.boxes.Boxes.{IsAtHook, IsIn};
ghost use Rattle.questions.specs.steps.Answered.{IsMeeting, MeetsNever};
ghost use Rattle.questions.specs.steps.Tried.{IsTried, TakesAllBut, IsCome, IsGone};
ghost use Rattle.questions.specs.steps.Seeking.{AddsWays, IsWayFor};

use crate::asked::rule::is_on;
use crate::asked::walks::box_of;
use crate::boxes::area::Area;
use crate::boxes::cut::outside;
use crate::boxes::matched::has;
use crate::foreign::answers::Answers;
use crate::foreign::need::{Need, meeting};
use crate::foreign::subject::Subject;
use crate::sampling::sample::Sample;
use crate::seeking::seek::Tried;
use crate::seeking::straying::add_boxes;
use crate::seeking::way::{Way, add_parts};
use crate::walking::course::Course;
use crate::walking::engine::leaves_under;
use crate::walking::scope::Scope;
use crate::walking::task::Leaf;
use fields::Packet;
use std::alloc::{AllocError, Global};
use table::Step;

// The answers of a trail, with more that meet what the rule of a step needs; none where the rule isn't on the trail, or they can't meet that.
fn coming(
    alloc: Global,
    needs: &[Need],
    answers: &Answers,
    trail: &[Step],
    wanted: Step,
) -> Result<Option<Answers>, AllocError>
    ensures { IfOk result (λ found. MatchOption found
        (Contains trail.now wanted → MeetsNever needs.now answers.now)
        (λ more. Contains trail.now wanted × IsMeeting needs.now answers.now more)) }
{
    if !is_on(trail, wanted) {
        return Ok(None);
    }
    meeting(needs, answers.copy(alloc)?)
}

// The answers under which a leaf that has a packet shows that the rule of a step is on the packet's walk, if there is such a leaf.
fn came_among(
    alloc: Global,
    needs: &[Need],
    found: &[Leaf],
    packet: &Packet,
    wanted: Step,
) -> Result<Option<Answers>, AllocError>
    ensures { IfOk result (λ came. MatchOption came
        (All (IsGone needs.now wanted packet.now) found.now) (λ answers. Any (IsCome needs.now wanted packet.now answers) found.now)) }
{
    for leaf in found {
        if !has(leaf.area.sets(), packet) {
            continue;
        }
        if let Some(answers) = coming(alloc, needs, &leaf.answers, leaf.trail.as_slice(), wanted)? {
            return Ok(Some(answers));
        }
    }
    Ok(None)
}

// Takes a way for all packets of its scope but those of a box, which has one of them.
fn add_all_but(alloc: Global, way: &Way, own: &Area, ways: &mut Vec<Way>) -> Result<(), AllocError>
    requires { (p : PacketView) × IsAtHook p × IsIn way.now.scope.area p × IsIn own.now p }
    ensures takes { OnOk result (TakesAllBut own.now way.now ways.old.items ways.new.items) }
    ensures less { OnOk result (AddsWays (IsWayFor way.now) ways.old.items ways.new.items) }
{
    let parts = outside(alloc, way.scope.area.sets(), own.sets())?;
    let mut scopes = Vec::new(alloc);
    add_boxes(alloc, parts, &way.scope.answers, &mut scopes)?;
    add_parts(alloc, way, scopes, ways)?;
    Ok(())
}

// What comes of a way by the walks of one of its packets, for all assignments that give the way's answers.
pub(crate) fn walked(
    subject: &Subject<'_>,
    course: Course,
    way: &Way,
    sample: Sample,
    ways: &mut Vec<Way>,
) -> Result<Tried, AllocError>
    requires step { IsRule (table_of subject.now) way.now.wanted }
    requires sample { IsSampleOf course.hook way.now.scope.area sample.words sample.packet }
    ensures { IfOk result (IsTried subject.now course way.now ways.old.items ways.new.items) }
{
    let alloc = course.alloc;
    subject.boxed.table.stands();
    let Sample { words, packet } = sample;
    let own = box_of(alloc, &way.scope.area, &packet)?;
    let area = own.copy(alloc)?;
    let answers = way.scope.answers.copy(alloc)?;
    let start = Scope { area, answers };
    let Some(found) = leaves_under(alloc, subject, course.hook, start, course.budget)? else {
        return Ok(Tried::Unknown);
    };
    let needs = subject.needs.at(way.wanted.chain, way.wanted.number - 1);
    if let Some(answers) = came_among(alloc, needs, found.as_slice(), &packet, way.wanted)? {
        answers.stand();
        return Ok(Tried::Comes(words, answers));
    }
    add_all_but(alloc, way, &own, ways)?;
    Ok(Tried::Parted)
}
