//! Rules and their boxes.
use crate::trouble::{Trouble, expect};
use crate::written::{packet_of, rule_of};
use fields::{FIELDS, Field, Packet, RejectType};
use rules::{Boxed, Rule, Target, Work, cross};
use std::alloc::Global;

/// Whether a rule goes to the long chain.
fn goes(rule: &Rule) -> bool {
    match rule.target() {
        Some(Target::Goto(name)) => name.bytes() == b"chain-of-more-than-16-bytes".as_slice(),
        _ => false,
    }
}

/// Whether one rule rejects, with a condition on the way in alone, and the other goes to the long chain, with one on the
/// way out alone.
fn are_told(reject: &Rule, jump: &Rule) -> bool {
    reject.target() == Some(Target::Reject(RejectType::default()))
        && reject.on_in()
        && !reject.on_out()
        && jump.on_out()
        && !jump.on_in()
        && goes(jump)
}

/// `Rule::target`, `on_in` and `on_out`.
pub fn target(alloc: Global, times: u32) -> Result<(), Trouble> {
    let reject = rule_of(alloc, b"-i eth+ -j REJECT")?;
    let jump = rule_of(
        alloc,
        b"! -o lo -m comment --comment \"a b\" -g chain-of-more-than-16-bytes",
    )?;
    for _ in 0..times {
        expect(are_told(&reject, &jump))?;
    }
    Ok(())
}

/// `Rule::copy` of a rule that leads to no chain.
pub fn copies(alloc: Global, times: u32) -> Result<(), Trouble> {
    let rule = rule_of(
        alloc,
        b"-p udp -m multiport --ports 22,80:90 -m comment --comment \"a b\" -j DROP",
    )?;
    for _ in 0..times {
        expect(rule.copy(alloc)?.equals(&rule))?;
    }
    Ok(())
}

/// Whether what a rule asks of both ports holds of one packet, and fails of another.
fn tells(rule: &Rule, one: &Packet, other: &Packet) -> bool {
    cross(rule, one) && !cross(rule, other)
}

/// `cross`.
pub fn crossing(alloc: Global, times: u32) -> Result<(), Trouble> {
    let rule = rule_of(
        alloc,
        b"-p tcp -m multiport --ports 22 -m multiport ! --ports 80 -m multiport --ports 1:1023",
    )?;
    let without = rule_of(alloc, b"-m ttl --ttl-eq 1")?;
    let one = packet_of(
        alloc,
        b"INPUT src=10.0.0.1 dst=10.0.0.2 proto=tcp sport=22 dport=1000",
    )?;
    let other = packet_of(
        alloc,
        b"INPUT src=10.0.0.1 dst=10.0.0.2 proto=tcp sport=22 dport=80",
    )?;
    for _ in 0..times {
        expect(tells(&rule, &one, &other) && cross(&without, &other))?;
    }
    Ok(())
}

/// Whether a box allows the last of some ports, and not an address.
fn is_boxed(boxed: &Boxed) -> bool {
    boxed.spans().len() == FIELDS
        && boxed.on(Field::DestinationPort).has(9)
        && !boxed.on(Field::Source).has(167_772_161)
}

/// `Boxed::on` and `spans`, `Work::new` and `boxes`.
pub fn boxed(alloc: Global, times: u32) -> Result<(), Trouble> {
    let rule = rule_of(
        alloc,
        b"! -s 10.1.2.3/8 -p tcp -m multiport --dports 1,2:9 -m tcp --sport 7 -j LOG",
    )?;
    let boxed = Boxed::of(alloc, &rule, &mut Work::new())?;
    for _ in 0..times {
        let work = Work::new();
        expect(work.boxes() == 0 && is_boxed(&boxed))?;
    }
    Ok(())
}
