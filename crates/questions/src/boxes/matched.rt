//! Which packets a box has, and which a rule matches.
ghost use Rattle.std.specs.Prelude.{◌≡◌};
ghost use Rattle.classify.specs.Classifier.{box_matches};
ghost use Rattle.rules.specs.Boxed.{IsBox};
ghost use Rattle.rules.specs.rule.Allows.{matches};
ghost use Rattle.questions.specs.Ends.{IsRule, rule_at};
ghost use Rattle.questions.specs.boxes.Boxes.{IsAtHook};
ghost use Rattle.questions.specs.boxes.Cut.{AreWholeBut};

use crate::boxes::boxed_table::BoxedTable;
use crate::written::WrittenPacket;
use fields::{FIELDS, Field, Packet, Spans};
use rules::cross;
use table::Step;

// Whether a box has a packet, by its sets. It takes no memory.
pub(crate) fn has(sets: &[Spans], packet: &Packet) -> bool
    requires { IsBox sets.now }
    ensures { result ≡ box_matches packet.now.values sets.now }
{
    for field in Field::ALL {
        if !sets[field.index()].has(packet.point(field)) {
            return false;
        }
    }
    true
}

// The same, given the fields on which the box leaves numbers out: no other is looked at.
pub(crate) fn has_on(sets: &[Spans], packet: &Packet, narrow: &[bool; FIELDS]) -> bool
    requires sets { IsBox sets.now }
    requires can { IsAtHook packet.now }
    requires narrow { AreWholeBut narrow.now sets.now }
    ensures { result ≡ box_matches packet.now.values sets.now }
{
    for field in Field::ALL {
        let place = field.index();
        if narrow[place] && !sets[place].has(packet.point(field)) {
            return false;
        }
    }
    true
}

/// Whether a rule matches a packet that a line writes (iptables(8), PARAMETERS), whatever it needs beyond that and wherever it stands. It takes
/// no memory, and time logarithmic in the intervals that the rule allows on each field.
pub fn rule_matches(boxed: &BoxedTable, at: Step, written: &WrittenPacket) -> bool
    requires { IsRule boxed.now.table.table at }
    ensures { result ≡ matches written.now.values (rule_at boxed.now.table.table at) }
{
    let packet = written.packet();
    let own = boxed.at(at.chain, at.number);
    has(own.spans(), packet) && cross(boxed.table.rule(at.chain, at.number), packet)
}
