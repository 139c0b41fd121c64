//! A box taken out of a classifier and put in again: at the front, in the middle and at the end.

use crate::made::box_of;
use crate::workload::Workload;
use anyhow::Result;
use classify::Classifier;
use rules::Boxed;
use std::alloc::Global;
use std::rt::Clock;
use std::time::Instant;

/// How often each edit is made.
const TIMES: usize = 8;

/// Where an edit is made.
#[derive(Clone, Copy)]
pub(crate) enum Spot {
    Front,
    Middle,
    End,
}

impl Spot {
    /// All spots.
    pub(crate) const ALL: [Spot; 3] = [Spot::Front, Spot::Middle, Spot::End];

    /// The spot's name.
    pub(crate) fn name(self) -> &'static str {
        match self {
            Spot::Front => "at the front",
            Spot::Middle => "in the middle",
            Spot::End => "at the end",
        }
    }

    /// The place among so many rules.
    fn place(self, count: usize) -> usize {
        match self {
            Spot::Front => 0,
            Spot::Middle => count / 2,
            Spot::End => count.saturating_sub(1),
        }
    }
}

/// The nanoseconds that the quickest of some edits took: to take the box out, and to put it in again.
#[derive(Clone, Copy)]
pub(crate) struct Spent {
    pub out: u128,
    pub back: u128,
}

/// The nanoseconds that it takes to take the box at a place out.
fn time_remove(rt: &impl Clock, classifier: &mut Classifier, place: usize) -> Result<u128> {
    let start = Instant::now(rt)?;
    if place < classifier.len() {
        classifier.remove(place);
    }
    Ok(start.elapsed(rt)?.as_nanos())
}

/// The nanoseconds that it takes to put a box in at a place.
fn time_insert(
    rt: &impl Clock,
    classifier: &mut Classifier,
    place: usize,
    boxed: Boxed,
) -> Result<u128> {
    let start = Instant::now(rt)?;
    if place <= classifier.len() {
        classifier.insert(place, boxed)?;
    }
    Ok(start.elapsed(rt)?.as_nanos())
}

/// Takes the box at a spot out of the classifier of a workload, and puts it in again, some times.
pub(crate) fn edit<R: Clock + AllocGlobal>(
    rt: &R,
    classifier: &mut Classifier,
    workload: &Workload,
    spot: Spot,
) -> Result<Spent> {
    let place = spot.place(workload.rules.len());
    let mut spent = Spent {
        out: u128::MAX,
        back: u128::MAX,
    };
    if let Some(rule) = workload.rules.get(place) {
        for _ in 0..TIMES {
            let boxed = box_of(rt.alloc(), rule)?;
            spent.out = spent.out.min(time_remove(rt, classifier, place)?);
            spent.back = spent.back.min(time_insert(rt, classifier, place, boxed)?);
        }
    }
    Ok(spent)
}
