//! Ways of which a rule asks both ports: their packets are parted by the ports that it lists, until it matches all of them.
ghost use Rattle.std.specs.Prelude.{All, Any, IfOk, IfSome};
ghost use Rattle.fields.specs.Packet.{PacketView};
ghost use Rattle.table.specs.declared.walk.trail.Step.{Step as Place};
ghost use Rattle.questions.specs.Foreign.{Assignment};
ghost use Rattle.questions.specs.Scopes.{table_of};
ghost use Rattle.questions.specs.boxes.Boxes.{IsAtHook};
ghost use Rattle.questions.specs.steps.Seeking.{AllMatch, IsHere, IsPlaceOf, IsSeen, IsLess};

use crate::foreign::subject::Subject;
use crate::seeking::less::are_less;
use crate::seeking::seen::Seen;
use crate::seeking::straying::add_matching;
use crate::seeking::way::Way;
use crate::walking::scope::Scope;
use fields::Packet;
use rules::cross;
use std::alloc::{AllocError, Global};
use table::Step;

// The rule of a step, if it asks both ports and doesn't match those of a packet.
fn missing<'a>(subject: Subject<'a>, by: Step, packet: &Packet) -> Option<Seen<'a>>
    ensures { IfSome result (IsSeen subject.entry by) }
{
    let seen = Seen::at(subject, by)?;
    if seen.rule.asks_both() && !cross(seen.rule, packet) {
        return Some(seen);
    }
    None
}

// A rule of a way that asks both ports and doesn't match those of a packet, if there is one.
fn missing_on<'a>(subject: Subject<'a>, way: &Way, packet: &Packet) -> Option<Seen<'a>>
    ensures { IfSome result (λ seen. (by : Place) × IsPlaceOf way.now by × IsSeen subject.entry by seen) }
{
    for place in way.places.as_slice() {
        if let Some(seen) = missing(subject, *place, packet) {
            return Some(seen);
        }
    }
    missing(subject, way.wanted, packet)
}

// Smaller parts of a way's scope with all packets that the way's rules may match, where one of these asks both ports and doesn't match a packet of the
// scope.
pub(crate) fn parts_without(
    alloc: Global,
    subject: &Subject<'_>,
    way: &Way,
    packet: &Packet,
) -> Result<Option<Vec<Scope>>, AllocError>
    ensures all { IfOk result (λ found. IfSome found (λ scopes. (a : Assignment) (p : PacketView) → IsAtHook p → IsHere a p way.now.scope
        → AllMatch (table_of subject.now) p way.now → Any (IsHere a p) scopes.items)) }
    ensures less { IfOk result (λ found. IfSome found (λ scopes. All (IsLess way.now.scope) scopes.items)) }
{
    let Some(seen) = missing_on(*subject, way, packet) else {
        return Ok(None);
    };
    let mut scopes = Vec::new(alloc);
    add_matching(alloc, &seen, &way.scope, &mut scopes)?;
    if are_less(&way.scope, scopes.as_slice()) {
        return Ok(Some(scopes));
    }
    Ok(None)
}
