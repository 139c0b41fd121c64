//! A box of packets cut by a rule: the packets that it matches, and parts with all the others; or, where that depends
//! on both ports, parts on which the rule has to be tested again.
ghost use Rattle.std.specs.Prelude.{◌≡◌, ◌<◌, ◌≤◌, ◌⊎◌, ℕ, true, List, All, length, IfOk, IsTrue, OnOk};
ghost use Rattle.fields.specs.numbers.Spans.{SpanSet};
ghost use Rattle.fields.specs.numbers.Field.{top};
ghost use Rattle.rules.specs.Boxed.{IsBox, IsBoxOf, set_on};
ghost use Rattle.rules.specs.rule.Allows.{matches};
ghost use Rattle.rules.specs.rule.Crossing.{IsListedByRule, IsParted};
ghost use Rattle.rules.specs.rule.Rules.{Rule};
ghost use Rattle.classify.specs.Classifier.{IsPoint};
ghost use Rattle.questions.specs.boxes.Boxes.{Has, HasNumbers, IsBoth};
ghost use Rattle.questions.specs.boxes.Cut.{IsCutBy, IsInSome, AreMet, AreByPorts, AreDisjoint, AreFew, IsSideOf, MatchesAll, boxes_of};
ghost use Rattle.questions.specs.steps.Sides.{AddsLeaving, LeavesAt};

use crate::boxes::area::Area;
use crate::boxes::lying::is_part;
use crate::boxes::meeting::meet;
use crate::boxes::rule_box::RuleBox;
use fields::{FIELDS, Field, Spans};
use rules::{Boxed, Crossing, Rule, cross_ports};
use std::alloc::{AllocError, Global};

// What a rule makes of a box.
#[derive(Drop)]
pub(crate) enum Cut {
    // The rule matches no packet of the box.
    Apart,
    // The packets that it matches are in the first, each other in one of those after it.
    Parts(Area, Vec<Area>),
    // The rule is to be asked again of the first boxes, which differ by the ports of one field: the packets that it matches
    // are in one of these, each other there or in one of those after them.
    ByPorts(Vec<Area>, Vec<Area>),
}

// What a rule may match of a box that it cuts: all of one part, or parts that are cut again.
pub(crate) fn inside_of(alloc: Global, cut: Cut) -> Result<Vec<Area>, AllocError>
    ensures { IfOk result (λ parts. (rule : Rule) (box : List SpanSet) (numbers : List ℕ) → IsCutBy rule box cut → IsPoint numbers → matches numbers rule ≡ true
        → Has box numbers → IsInSome parts.items numbers) }
{
    match cut {
        Cut::Apart => Ok(Vec::new(alloc)),
        Cut::Parts(inside, _others) => {
            let mut parts = Vec::new(alloc);
            parts.push(inside)?;
            Ok(parts)
        }
        Cut::ByPorts(again, _others) => Ok(again),
    }
}

// Adds the part of a box that leaves another one at a place, if it has packets.
fn put_part(
    alloc: Global,
    own: &[Spans],
    other: &[Spans],
    at: usize,
    parts: &mut Vec<Area>,
) -> Result<(), AllocError>
    requires own { IsBox own.now }
    requires other { IsBox other.now }
    requires at { at < FIELDS }
    requires met { AreMet own.now other.now }
    ensures kept { OnOk result ((numbers : List ℕ) → IsInSome parts.old.items numbers → IsInSome parts.new.items numbers) }
    ensures added { OnOk result ((numbers : List ℕ) → IsPoint numbers → Has own.now numbers
        → LeavesAt at other.now numbers → IsInSome parts.new.items numbers) }
    ensures only { OnOk result ((numbers : List ℕ) → IsPoint numbers → IsInSome parts.new.items numbers
        → IsInSome parts.old.items numbers ⊎ (Has own.now numbers × (Has other.now numbers → ⊥))) }
    ensures leaves { OnOk result (AddsLeaving at other.now parts.old.items parts.new.items) }
{
    if is_part(&own[at], &other[at]) {
        return Ok(());
    }
    parts.push(Area::part(alloc, own, other, at)?)?;
    Ok(())
}

// The parts of a box that aren't in another one: those of later fields, which are narrower, come first in the list, and a walk goes on
// with them first.
pub(crate) fn outside(
    alloc: Global,
    own: &[Spans],
    other: &[Spans],
) -> Result<Vec<Area>, AllocError>
    requires own { IsBox own.now }
    requires other { IsBox other.now }
    requires met { AreMet own.now other.now }
    ensures all { IfOk result (λ parts. (numbers : List ℕ) → IsPoint numbers → Has own.now numbers
        → (Has other.now numbers → ⊥) → IsInSome parts.items numbers) }
    ensures only { IfOk result (λ parts. (numbers : List ℕ) → IsPoint numbers → IsInSome parts.items numbers
        → Has own.now numbers × (Has other.now numbers → ⊥)) }
    ensures disjoint { IfOk result (λ parts. AreDisjoint parts.items) }
    ensures few { IfOk result (λ parts. length parts.items ≤ FIELDS) }
{
    let mut parts = Vec::new(alloc);
    for done in 0..FIELDS {
        put_part(alloc, own, other, FIELDS - 1 - done, &mut parts)?;
    }
    Ok(parts)
}

// The two parts of a box: the packets whose number on a field is in a set, and the others.
fn halves(alloc: Global, area: Area, field: Field, wanted: &Spans) -> Result<Vec<Area>, AllocError>
    requires top { wanted.now.top ≡ top field }
    requires some { HasNumbers area }
    requires parted { IsParted (record { top = top field; intervals = set_on field area }) wanted.now }
    ensures all { IfOk result (λ parts. (numbers : List ℕ) → IsPoint numbers → Has area numbers → IsInSome parts.items numbers) }
    ensures only { IfOk result (λ parts. (numbers : List ℕ) → IsPoint numbers → IsInSome parts.items numbers → Has area numbers) }
    ensures sides { IfOk result (λ parts. All (IsSideOf field wanted.now area) parts.items) }
    ensures disjoint { IfOk result (λ parts. AreDisjoint parts.items) }
    ensures two { IfOk result (λ parts. length parts.items ≡ 2) }
{
    let others = wanted.except(alloc)?;
    let with = area.copy(alloc)?.narrow(alloc, field, wanted)?;
    let without = area.narrow(alloc, field, &others)?;
    let mut parts = Vec::new(alloc);
    parts.push(with)?;
    parts.push(without)?;
    Ok(parts)
}

// Cuts a box of which a rule's box has the packets inside, where the ports of one field have to be parted first.
fn cut_apart(
    alloc: Global,
    boxed: &Boxed,
    area: &Area,
    inside: Area,
    field: Field,
    listed: &Spans,
) -> Result<Cut, AllocError>
    requires met { AreMet area.now boxed.now }
    requires inside { IsBoth area.now boxed.now inside }
    requires top { listed.now.top ≡ top field }
    requires some { HasNumbers inside }
    requires parted { IsParted (record { top = top field; intervals = set_on field inside }) listed.now }
    ensures cuts { (rule : Rule) → IsBoxOf rule boxed.now → IfOk result (IsCutBy rule area.now) }
    ensures ports { (rule : Rule) → IsListedByRule listed.now rule → IfOk result (AreByPorts rule area.now) }
    ensures disjoint { IfOk result (λ cut. AreDisjoint (boxes_of cut)) }
    ensures few { IfOk result AreFew }
{
    let parts = halves(alloc, inside, field, listed)?;
    let others = outside(alloc, area.sets(), boxed.spans())?;
    Ok(Cut::ByPorts(parts, others))
}

// Whether a rule matches all packets of a box, where it asks no two ports at once. It takes no memory.
pub(crate) fn matches_all(rule: &Rule, own: &RuleBox, area: &Area) -> bool
    requires { IsBoxOf rule.now own.now }
    ensures { IsTrue result → MatchesAll rule.now area.now }
{
    !rule.asks_both() && own.has_all(area)
}

// Cuts a box by a rule. Where the rule's box has packets in common with it, that costs one meeting of two sets a field, and
// for each field on which the rule leaves numbers out a copy of the box; else no memory. Of a rule that asks both ports, the
// packets that its box has are first parted by ports that it lists, until it matches all of them or none.
pub(crate) fn cut_by(
    alloc: Global,
    rule: &Rule,
    boxed: &Boxed,
    area: &Area,
) -> Result<Cut, AllocError>
    requires { IsBoxOf rule.now boxed.now }
    ensures cuts { IfOk result (IsCutBy rule.now area.now) }
    ensures ports { IfOk result (AreByPorts rule.now area.now) }
    ensures disjoint { IfOk result (λ cut. AreDisjoint (boxes_of cut)) }
    ensures few { IfOk result AreFew }
{
    if !meet(area.sets(), boxed.spans()) {
        return Ok(Cut::Apart);
    }
    let inside = area.within(alloc, boxed.spans())?;
    let (from, to) = (Field::SourcePort, Field::DestinationPort);
    match cross_ports(alloc, rule, inside.on(from), inside.on(to))? {
        Crossing::Fails => Ok(Cut::Apart),
        Crossing::Holds => {
            let others = outside(alloc, area.sets(), boxed.spans())?;
            Ok(Cut::Parts(inside, others))
        }
        Crossing::BySource(listed) => cut_apart(alloc, boxed, area, inside, from, &listed),
        Crossing::ByDestination(listed) => cut_apart(alloc, boxed, area, inside, to, &listed),
    }
}
