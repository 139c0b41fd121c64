//! Where a packet may be before it comes to a rule: how far it gets in each chain, each condition that is open taken for itself.
use crate::foreign::answers::Answers;
use crate::foreign::need::{Standing, known_of};
use crate::foreign::subject::Subject;
use crate::seeking::calls::place_named;
use crate::seeking::seen::Seen;
use crate::walking::engine::LIMIT;
use classify::CandidateRows;
use fields::Packet;
use rules::{Rule, Target, cross};
use std::alloc::{AllocError, Global};
use table::{Step, Table};

// A packet on its way to a rule, where answers are right.
#[derive(Clone, Copy)]
pub(crate) struct Approach<'s, 'p, 'a> {
    pub subject: Subject<'s>,
    pub packet: &'p Packet,
    pub answers: &'a Answers,
    pub wanted: Step,
}

// A chain in which the packet is, and which rules there have it in their boxes.
#[derive(Drop)]
struct Open<'s> {
    place: usize,
    rows: CandidateRows<'s>,
}

// Where the packet may be, chain by chain.
#[derive(Drop)]
pub(crate) struct Before<'s> {
    // At how many of the chain's rules it may be, from the first on; more than all where it may be at the chain's end.
    pub far: Vec<usize>,
    // 1 if it may be back from the chain, or else 0.
    pub back: Vec<usize>,
    // Whether it may get a verdict in the chain, or in one to which this leads.
    ends: Vec<bool>,
    // The chains in which it is, each entered from the one before.
    open: Vec<Open<'s>>,
}

// What a rule makes of the packet.
#[derive(Clone, Copy)]
enum Turn {
    On,
    Stays,
    Enters(usize),
    Ends,
}

// Which rules of the chain at a place have a packet in their boxes, for several searches; the rows are lent.
pub(crate) fn rows_at<'s>(
    subject: &Subject<'s>,
    packet: &Packet,
    place: usize,
) -> Option<CandidateRows<'s>> {
    let table = &subject.boxed.table;
    if place >= table.chain_count() {
        return None;
    }
    let candidates = table.classifier(place).at(packet.numbers());
    Some(candidates.rows())
}

// The number of the chain at a place, if there is one.
fn number_at(numbers: &[usize], place: usize) -> usize {
    numbers.get(place).copied().unwrap_or(0)
}

// Sets it.
fn put_at(numbers: &mut Vec<usize>, place: usize, number: usize) {
    if place < numbers.len() {
        numbers[place] = number;
    }
}

impl<'s> Before<'s> {
    // It is in none of so many chains.
    pub(crate) fn nowhere(alloc: Global, count: usize) -> Result<Before<'s>, AllocError> {
        Ok(Before {
            far: vec![in alloc; 0usize; count]?,
            back: vec![in alloc; 0usize; count]?,
            ends: vec![in alloc; false; count]?,
            open: Vec::new(alloc),
        })
    }

    // Whether it may get a verdict once it is in a chain.
    pub(crate) fn ends_in(&self, place: usize) -> bool {
        self.ends.get(place).copied().unwrap_or(true)
    }

    // What a rule makes of it that leads from one chain to another, from which it comes back after a jump.
    fn enter(&mut self, own: usize, place: usize, is_jump: bool, after: Turn) -> Turn {
        if number_at(self.far.as_slice(), place) == 0 {
            return Turn::Enters(place);
        }
        if self.ends_in(place) {
            return Turn::Ends;
        }
        let is_back = number_at(self.back.as_slice(), place) > 0;
        if is_jump && is_back {
            return Turn::On;
        }
        if is_back {
            put_at(&mut self.back, own, 1);
        }
        after
    }

    // What a rule that matches makes of it in its chain.
    fn follow(&mut self, table: &Table, rule: &Rule, own: usize, after: Turn) -> Turn {
        let is_jump = match rule.target() {
            Some(Target::Accept | Target::Drop | Target::Reject(_)) => return Turn::Ends,
            Some(Target::Log) | None => return Turn::On,
            Some(Target::Return) => {
                put_at(&mut self.back, own, 1);
                return after;
            }
            Some(Target::Jump(_)) => true,
            Some(Target::Goto(_)) => false,
        };
        match place_named(table, rule.target()) {
            Some(place) => self.enter(own, place, is_jump, after),
            None => Turn::On,
        }
    }

    // What a rule makes of it whose box has the packet.
    fn meet(&mut self, approach: &Approach<'_, '_, '_>, by: Step) -> Turn {
        let Some(seen) = Seen::at(approach.subject, by) else {
            return Turn::On;
        };
        if !cross(seen.rule, approach.packet) {
            return Turn::On;
        }
        let after = match known_of(seen.needs, approach.answers) {
            Standing::Holds => Turn::Stays,
            Standing::Open(_) => Turn::On,
            Standing::Fails => return Turn::On,
        };
        if by == approach.wanted {
            return after;
        }
        self.follow(&approach.subject.boxed.table, seen.rule, by.chain, after)
    }

    // It may get a verdict in all chains in which it is.
    fn end(&mut self) {
        while let Some(open) = self.open.pop() {
            if open.place < self.ends.len() {
                self.ends[open.place] = true;
            }
        }
    }

    // It is in one more chain.
    fn open_at(&mut self, approach: &Approach<'s, '_, '_>, place: usize) -> Result<(), AllocError> {
        put_at(&mut self.far, place, 1);
        if let Some(rows) = rows_at(&approach.subject, approach.packet, place) {
            self.open.push(Open { place, rows })?;
        }
        Ok(())
    }

    // One step through the newest of these.
    fn step(&mut self, approach: &Approach<'s, '_, '_>) -> Result<(), AllocError> {
        let Some(newest) = self.open.last() else {
            return Ok(());
        };
        let chain = newest.place;
        let start = number_at(self.far.as_slice(), chain).saturating_sub(1);
        let Some(passed) = newest.rows.next(start) else {
            put_at(&mut self.far, chain, usize::MAX);
            put_at(&mut self.back, chain, 1);
            let _done = self.open.pop();
            return Ok(());
        };
        let number = passed.saturating_add(1);
        put_at(&mut self.far, chain, number);
        match self.meet(approach, Step { chain, number }) {
            Turn::On => put_at(&mut self.far, chain, number.saturating_add(1)),
            Turn::Stays => {
                let _done = self.open.pop();
            }
            Turn::Enters(place) => self.open_at(approach, place)?,
            Turn::Ends => self.end(),
        }
        Ok(())
    }

    // Goes through a chain, and through those to which it leads, as far as the packet may.
    pub(crate) fn spread(
        &mut self,
        approach: &Approach<'s, '_, '_>,
        place: usize,
    ) -> Result<(), AllocError> {
        if number_at(self.far.as_slice(), place) > 0 {
            return Ok(());
        }
        self.open_at(approach, place)?;
        for _ in 0..LIMIT {
            if self.open.is_empty() {
                return Ok(());
            }
            self.step(approach)?;
        }
        self.end();
        Ok(())
    }
}
