//! The walks of one packet, whatever holds that rules need.
ghost use Rattle.std.specs.Prelude.{◌≡◌, All, IfOk, IfSome, MatchOption};
ghost use Rattle.fields.specs.Packet.{IsPacket};
ghost use Rattle.questions.specs.Foreign.{AreAsked, Assignment};
ghost use Rattle.questions.specs.Scopes.{answered, known_by, whole_of};
ghost use Rattle.questions.specs.asked.Unclear.{IsUnended};
ghost use Rattle.questions.specs.asked.Walks.{AreWalks, AreWalksUnder};
ghost use Rattle.questions.specs.boxes.Boxes.{IsAtHook, IsIn, IsOnly};

use crate::boxes::area::Area;
use crate::boxes::matched::has;
use crate::foreign::answers::Answers;
use crate::foreign::subject::Subject;
use crate::walking::engine::leaves_under;
use crate::walking::scope::Scope;
use crate::walking::task::Leaf;
use crate::written::WrittenPacket;
use fields::{Field, Packet, Spans};
use std::alloc::{AllocError, Global};

// The box of one packet of a box.
pub(crate) fn box_of(alloc: Global, area: &Area, packet: &Packet) -> Result<Area, AllocError>
    requires packet { IsPacket packet.now }
    requires inside { IsIn area.now packet.now }
    ensures { IfOk result (λ own. IsOnly own packet.now) }
{
    let mut own = area.copy(alloc)?;
    for field in Field::ALL {
        let number = packet.point(field);
        let set = Spans::one(alloc, field.top(), number, number)?;
        own = own.narrow(alloc, field, &set)?;
    }
    Ok(own)
}

// The walks of a packet of a box, for all assignments that give the answers: the packet's own box walks.
pub(crate) fn walks_of(
    alloc: Global,
    subject: &Subject<'_>,
    area: &Area,
    packet: &Packet,
    answers: &Answers,
    budget: usize,
) -> Result<Option<Vec<Leaf>>, AllocError>
    requires can { IsAtHook packet.now }
    requires inside { IsIn area.now packet.now }
    ensures asked { IfOk result (λ found. IfSome found (λ leaves. All (λ leaf. AreAsked subject.now.needs.now answers.now leaf.answers) leaves.items)) }
    ensures walks { IfOk result (λ found. MatchOption found
        (IsUnended (whole_of subject.now) packet.now.hook budget answers.now packet.now)
        (λ leaves. (a : Assignment) → AreWalksUnder (answered subject.now a) (known_by subject.now a) packet.now answers.now leaves.items)) }
{
    let answers = answers.copy(alloc)?;
    let area = box_of(alloc, area, packet)?;
    let start = Scope { area, answers };
    let found = leaves_under(alloc, subject, packet.hook(), start, budget)?;
    Ok(found)
}

/// The walks of a packet that a line writes, as leaves: under each assignment that gives the answers the packet has the walk that one of them
/// shows; and each of them shows the walk that the packet has under each assignment that gives the leaf's answers, which are these and
/// perhaps more, about conditions that some rule needs. Each leaf's answers can be given. There are none only where the steps of `leaves_under`
/// for the packet's own box use the budget up, or a trail is full.
///
/// # Errors
///
/// `AllocError` where memory was refused.
pub fn walks(
    alloc: Global,
    subject: &Subject<'_>,
    written: &WrittenPacket,
    answers: &Answers,
    budget: usize,
) -> Result<Option<Vec<Leaf>>, AllocError>
    ensures asked { IfOk result (λ found. IfSome found (λ leaves. All (λ leaf. AreAsked subject.now.needs.now answers.now leaf.answers) leaves.items)) }
    ensures walks { IfOk result (λ found. MatchOption found
        (IsUnended (whole_of subject.now) written.now.hook budget answers.now written.now)
        (λ leaves. AreWalks subject.now written.now answers.now leaves.items)) }
{
    let packet = written.packet();
    let whole = Area::at_hook(alloc, packet.hook())?;
    let Some(mut found) = walks_of(alloc, subject, &whole, packet, answers, budget)? else {
        return Ok(None);
    };
    found.retain(|leaf| has(leaf.area.sets(), packet));
    Ok(Some(found))
}
