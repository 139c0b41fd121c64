//! The rules that a packet may match, whatever holds.
ghost use Rattle.std.specs.Prelude.{◌<◌, length};

use questions::{BoxedTable, WrittenPacket, rule_matches};
use rules::{Rule, Target};
use rulesets::{Dump, contradict};
use std::alloc::{AllocError, Global};
use table::{Step, Table};

// The chains that a packet may enter, by their places, each once.
#[derive(Drop)]
struct Entered {
    places: Vec<usize>,
    // Whether the chain at each place is among them.
    seen: Vec<bool>,
}

impl Entered {
    // None of the chains of a table.
    fn none(alloc: Global, table: &Table) -> Result<Entered, AllocError> {
        let mut seen = Vec::new(alloc);
        for _ in 0..table.chain_count() {
            seen.push(false)?;
        }
        Ok(Entered {
            places: Vec::new(alloc),
            seen,
        })
    }

    // One more, by its name.
    fn enter(&mut self, table: &Table, name: &[u8]) -> Result<(), AllocError> {
        let Some(place) = table.index_of(name) else {
            return Ok(());
        };
        if place < self.seen.len() && !self.seen[place] {
            self.seen[place] = true;
            self.places.push(place)?;
        }
        Ok(())
    }

    // The chain to which a rule leads, if it leads to one.
    fn follow(&mut self, table: &Table, rule: &Rule) -> Result<(), AllocError> {
        match rule.target() {
            Some(Target::Jump(name)) => self.enter(table, name.bytes()),
            Some(Target::Goto(name)) => self.enter(table, name.bytes()),
            Some(Target::Accept | Target::Drop | Target::Reject(_) | Target::Log | Target::Return)
            | None => Ok(()),
        }
    }
}

// Whether a packet that matches a rule doesn't go on to the next rule of its chain.
fn leaves_chain(rule: &Rule) -> bool {
    match rule.target() {
        Some(
            Target::Accept | Target::Drop | Target::Reject(_) | Target::Return | Target::Goto(_),
        ) => true,
        Some(Target::Jump(_) | Target::Log) | None => false,
    }
}

// Adds the rules of a chain that a packet may match which enters it: those that match it, under answers that can be given, up to the first that
// does under all and leads out of the chain.
fn add_in_chain(
    dump: &Dump,
    boxed: &BoxedTable,
    packet: &WrittenPacket,
    place: usize,
    entered: &mut Entered,
    rules: &mut Vec<Step>,
) -> Result<(), AllocError>
    requires { place < length boxed.now.table.table.chains }
{
    let table = &boxed.table;
    for before in 0..table.rule_count(place) {
        let at = Step {
            chain: place,
            number: before + 1,
        };
        let needs = dump.needs_of(at);
        if contradict(needs) || !rule_matches(boxed, at, packet) {
            continue;
        }
        let rule = table.rule(place, before + 1);
        rules.push(at)?;
        entered.follow(table, rule)?;
        if needs.is_empty() && leaves_chain(rule) {
            return Ok(());
        }
    }
    Ok(())
}

/// The rules that a packet may match, whatever holds, chain by chain as it may enter them. It takes time linear in the rules of these chains.
///
/// # Errors
///
/// `AllocError` where memory was refused.
pub(crate) fn possible_rules(
    alloc: Global,
    dump: &Dump,
    packet: &WrittenPacket,
) -> Result<Vec<Step>, AllocError> {
    let boxed = dump.boxed();
    let table = &boxed.table;
    let mut rules = Vec::new(alloc);
    let mut entered = Entered::none(alloc, table)?;
    entered.enter(table, packet.packet().hook().name())?;
    for turn in 0..table.chain_count() {
        let Some(place) = entered.places.get(turn).copied() else {
            return Ok(rules);
        };
        if place < table.chain_count() {
            add_in_chain(dump, boxed, packet, place, &mut entered, &mut rules)?;
        }
    }
    Ok(rules)
}
