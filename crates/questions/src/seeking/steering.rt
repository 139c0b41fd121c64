//! The walk of one packet on its way to a rule, where open conditions are answered so that no other rule leads it away.
use crate::foreign::answers::Answers;
use crate::foreign::need::{Need, Standing, known_of};
use crate::foreign::subject::Subject;
use crate::seeking::before::{Approach, Before, rows_at};
use crate::seeking::calls::place_named;
use crate::seeking::seen::Seen;
use crate::seeking::way::Way;
use crate::walking::engine::LIMIT;
use classify::CandidateRows;
use fields::Packet;
use rules::{Target, cross};
use std::alloc::{AllocError, Global};
use table::Step;

// How such a walk ends.
#[derive(Drop)]
pub(crate) enum Ending {
    // It comes to the rule, where these answers are right.
    Comes(Answers),
    // It doesn't: it left the way by the first of these rules, and each but the last enters the chain of the next one.
    Strays(Vec<Step>),
}

// What a rule that matches makes of the walk.
enum Turn {
    On,
    Comes,
    Strays,
}

// What is left of a chain behind so many of its rules, those that have the packet in their boxes, and how many rules off the way led there.
#[derive(Drop)]
struct Rest<'s> {
    chain: usize,
    passed: usize,
    rows: CandidateRows<'s>,
    led: usize,
}

// A packet's walk to a rule: what is left of its chains, the rules that led off the way, how many of its places it took, and where it may have been.
#[derive(Drop)]
struct Walker<'s, 'p> {
    subject: Subject<'s>,
    packet: &'p Packet,
    way: &'p Way,
    rests: Vec<Rest<'s>>,
    path: Vec<Step>,
    taken: usize,
    answers: Answers,
    before: Before<'s>,
}

// What an open need of a condition has to be answered, so that it fails.
fn failing(needs: &[Need], condition: usize) -> bool {
    needs
        .iter()
        .any(|need| need.condition == condition && need.inverted)
}

impl<'s, 'p> Walker<'s, 'p> {
    // Whether all holds that a rule needs, of which so much is known. Where that is open, it is answered so that it doesn't.
    fn meets(&mut self, needs: &[Need], known: Standing) -> Result<bool, AllocError> {
        match known {
            Standing::Holds => Ok(true),
            Standing::Fails => Ok(false),
            Standing::Open(condition) => {
                let _is_new = self.answers.give(condition, failing(needs, condition))?;
                Ok(false)
            }
        }
    }

    // Whether a rule is the next place of the way, on which the walk still is.
    fn is_next(&self, by: Step) -> bool {
        self.path.is_empty() && by == self.way.place_after(self.taken)
    }

    // Whether a jump off the way to the chain at a place can be passed by: the packet gets no verdict where it leads, so that it comes back, or to
    // the rule.
    fn passes_by(&mut self, by: Step, place: Option<usize>) -> Result<bool, AllocError> {
        let Some(chain) = place else {
            return Ok(false);
        };
        if self.is_next(by) {
            return Ok(false);
        }
        let approach = Approach {
            subject: self.subject,
            packet: self.packet,
            answers: &self.answers,
            wanted: self.way.wanted,
        };
        self.before.spread(&approach, chain)?;
        Ok(!self.before.ends_in(chain))
    }

    // The walk goes on at the first rule of a chain.
    fn begin(&mut self, chain: usize) -> Result<(), AllocError> {
        if let Some(rows) = rows_at(&self.subject, self.packet, chain) {
            self.rests.push(Rest {
                chain,
                passed: 0,
                rows,
                led: self.path.len(),
            })?;
        }
        Ok(())
    }

    // A rule enters a chain: on the way, if it is the way's next place.
    fn enter(&mut self, by: Step, place: Option<usize>) -> Result<Turn, AllocError> {
        let Some(chain) = place else {
            return Ok(Turn::On);
        };
        if self.is_next(by) {
            self.taken = self.taken.saturating_add(1);
        } else {
            self.path.push(by)?;
        }
        self.begin(chain)?;
        Ok(Turn::On)
    }

    // What a rule makes of the walk, which matches but for its needs and isn't the one that is sought.
    fn take(&mut self, seen: &Seen<'_>, by: Step) -> Result<Turn, AllocError> {
        let known = known_of(seen.needs, &self.answers);
        if matches!(known, Standing::Fails) {
            return Ok(Turn::On);
        }
        let place = place_named(&self.subject.boxed.table, seen.rule.target());
        let is_passed = match seen.rule.target() {
            Some(Target::Log) | None => true,
            Some(Target::Jump(_)) => self.passes_by(by, place)?,
            _ => false,
        };
        if is_passed || !self.meets(seen.needs, known)? {
            return Ok(Turn::On);
        }
        let is_on_way = self.path.is_empty();
        match seen.rule.target() {
            Some(Target::Jump(_)) => self.enter(by, place),
            Some(Target::Goto(_)) if !is_on_way || self.is_next(by) => {
                let _left = self.rests.pop();
                self.enter(by, place)
            }
            Some(Target::Return) if !is_on_way => {
                let _left = self.rests.pop();
                Ok(Turn::On)
            }
            _ => Ok(Turn::Strays),
        }
    }

    // One step of the walk: the rule that led it away or was sought, if it is at an end.
    fn step(&mut self) -> Result<(Turn, Option<Step>), AllocError> {
        let Some(rest) = self.rests.last_mut() else {
            return Ok((Turn::Strays, None));
        };
        self.path.truncate(rest.led);
        let Some(passed) = rest.rows.next(rest.passed) else {
            let _left = self.rests.pop();
            return Ok((Turn::On, None));
        };
        rest.passed = passed.saturating_add(1);
        let by = Step {
            chain: rest.chain,
            number: rest.passed,
        };
        let Some(seen) = Seen::at(self.subject, by) else {
            return Ok((Turn::On, None));
        };
        if !cross(seen.rule, self.packet) {
            return Ok((Turn::On, None));
        }
        if by == self.way.wanted {
            return Ok((Turn::Comes, Some(by)));
        }
        let turn = self.take(&seen, by)?;
        Ok((turn, Some(by)))
    }
}

// The walk of a packet to a rule by a way, by so many steps at most, where the way's answers are right, and more that keep it there.
pub(crate) fn steer(
    alloc: Global,
    subject: &Subject<'_>,
    packet: &Packet,
    way: &Way,
    answers: Answers,
    budget: usize,
) -> Result<Ending, AllocError> {
    let mut walker = Walker {
        subject: *subject,
        packet,
        way,
        rests: Vec::new(alloc),
        path: Vec::new(alloc),
        taken: 0,
        answers,
        before: Before::nowhere(alloc, subject.boxed.table.chain_count())?,
    };
    walker.begin(way.chain())?;
    for _ in 0..LIMIT.min(budget) {
        let (turn, by) = walker.step()?;
        match turn {
            Turn::On => {}
            Turn::Comes => return Ok(Ending::Comes(walker.answers)),
            Turn::Strays => {
                let mut path = walker.path;
                if let Some(last) = by {
                    path.push(last)?;
                }
                return Ok(Ending::Strays(path));
            }
        }
    }
    Ok(Ending::Strays(Vec::new(alloc)))
}
