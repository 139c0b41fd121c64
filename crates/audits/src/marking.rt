//! A packet marks the rules that it matches.
pub(crate) mod marks;
pub(crate) mod possible;

use crate::asking::Asking;
use crate::each_rule::shown_in_order;
use crate::marking::marks::Marks;
use crate::marking::possible::possible_rules;
use questions::{Coming, WrittenPacket};
use rulesets::{Dump, OpenConditions};
use std::alloc::{AllocError, Global};
use std::io::IsTerminal;
use std::rt::Clock;
use table::Step;

// Marks the rules on the walk of a packet in a dump whose rules need nothing.
fn mark_walk(
    alloc: Global,
    dump: &Dump,
    packet: &WrittenPacket,
    marks: &mut Marks,
) -> Result<(), AllocError> {
    let trail = dump.table().trail(packet.packet())?;
    for at in trail.steps() {
        marks.mark(*at, Vec::new(alloc));
    }
    Ok(())
}

// Marks a rule that a packet may match, where it does. Whether that is known.
fn mark_rule<R: Clock, E: Print + IsTerminal>(
    asking: &Asking<'_, R, E>,
    dump: &Dump,
    open: &OpenConditions,
    packet: &WrittenPacket,
    at: Step,
    marks: &mut Marks,
) -> Result<bool, AllocError> {
    let subject = dump.subject();
    let table = &subject.boxed.table;
    if at.chain >= table.chain_count() || at.number == 0 || at.number > table.rule_count(at.chain) {
        return Ok(true);
    }
    match asking.coming(&subject, packet, at)? {
        Coming::Never => Ok(true),
        Coming::Under(answers) => {
            marks.mark(at, shown_in_order(asking.alloc(), open, &answers)?);
            Ok(true)
        }
        Coming::Unclear => {
            marks.mark_unclear(at);
            Ok(false)
        }
    }
}

/// Marks the rules that a packet matches under some answers. One of which it isn't known whether it does is marked as unclear, and that is told. A rule
/// isn't asked of again that is known to match another packet where all holds that the rule needs itself.
///
/// # Errors
///
/// `AllocError` where memory was refused.
pub fn mark_packet<R: Clock, E: Print + IsTerminal>(
    asking: &Asking<'_, R, E>,
    dump: &Dump,
    open: &OpenConditions,
    packet: &WrittenPacket,
    marks: &mut Marks,
) -> Result<bool, AllocError> {
    if dump.is_plain() {
        mark_walk(asking.alloc(), dump, packet, marks)?;
        return Ok(true);
    }
    let mut clear = true;
    for at in possible_rules(asking.alloc(), dump, packet)? {
        if !marks.is_met_by(at, dump.needs_of(at))
            && !mark_rule(asking, dump, open, packet, at, marks)?
        {
            clear = false;
        }
    }
    Ok(clear)
}
