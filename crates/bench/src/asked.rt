//! Answers about packets: how often each is the expected one, and how long it takes.

use crate::walk;
use crate::workload::Workload;
use anyhow::Result;
use classify::Classifier;
use fields::Packet;
use rules::Boxed;
use std::alloc::{AllocError, Global};
use std::rt::Clock;
use std::time::{Duration, Instant};
use table::{Table, Verdict};

/// How often all packets are asked about at most.
const ROUNDS: usize = 1000;

/// A packet, and what the plain walks answer: the place of the first box that allows it, and the verdict.
#[derive(Drop)]
pub(crate) struct Question {
    packet: Packet,
    place: Option<usize>,
    verdict: Verdict,
}

/// The packets of a workload.
pub(crate) fn questions(alloc: Global, workload: &Workload) -> Result<Vec<Question>, AllocError> {
    let mut questions = Vec::with_capacity(alloc, workload.packets.len())?;
    for packet in &workload.packets {
        questions.push(Question {
            packet: *packet,
            place: walk::first(&workload.boxes, packet.numbers()),
            verdict: walk::verdict(workload, packet),
        })?;
    }
    Ok(questions)
}

/// Who is asked.
#[derive(Clone, Copy)]
pub(crate) enum Asked<'a> {
    /// The classifier of the rules, for the place.
    Classifier(&'a Classifier),
    /// The plain walk over boxes, for the place.
    Boxes(&'a [Boxed]),
    /// The table, for the verdict.
    Table(&'a Table),
    /// The plain walk over the boxes and rules of a workload, for the verdict.
    Rules(&'a Workload),
}

impl Asked<'_> {
    /// Whether the answer is the one that is expected.
    fn is_right(self, question: &Question) -> bool {
        let packet = &question.packet;
        match self {
            Asked::Classifier(classifier) => {
                classifier.next(packet.numbers(), 0) == question.place
            }
            Asked::Boxes(boxes) => walk::first(boxes, packet.numbers()) == question.place,
            Asked::Table(table) => table.verdict(packet) == question.verdict,
            Asked::Rules(workload) => walk::verdict(workload, packet) == question.verdict,
        }
    }

    /// How many answers are right.
    pub(crate) fn right(self, questions: &[Question]) -> usize {
        questions
            .iter()
            .filter(|question| self.is_right(question))
            .count()
    }

    /// The nanoseconds that an answer takes, and how many were wrong. The packets are asked about in turn, round and round for a
    /// second or so.
    pub(crate) fn time(self, rt: &impl Clock, questions: &[Question]) -> Result<(u128, usize)> {
        let start = Instant::now(rt)?;
        let (mut asked, mut right) = (0usize, 0usize);
        for _ in 0..ROUNDS {
            asked = asked.saturating_add(questions.len());
            right = right.saturating_add(self.right(questions));
            if start.elapsed(rt)? >= Duration::from_secs(1) {
                break;
            }
        }
        let took = start.elapsed(rt)?.as_nanos();
        Ok((took / (asked as u128).max(1), asked.saturating_sub(right)))
    }
}
