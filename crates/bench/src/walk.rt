//! The plain walk, which the classifier is measured against: each box in turn, and of it each field.

use crate::workload::Workload;
use fields::{FIELDS, Packet};
use rules::{Boxed, Target, cross};
use table::Verdict;

/// Whether a box allows each number of a point on its field.
fn allows(boxed: &Boxed, point: &[u128; FIELDS]) -> bool {
    boxed
        .spans()
        .iter()
        .zip(point)
        .all(|(set, number)| set.has(*number))
}

/// The place of the first box that allows a point.
pub(crate) fn first(boxes: &[Boxed], point: &[u128; FIELDS]) -> Option<usize> {
    boxes.iter().position(|boxed| allows(boxed, point))
}

/// The verdict of a packet by rules that accept or drop: the first decides whose box allows each number and whose condition on
/// both ports holds. Where none does, the packet is dropped.
pub(crate) fn verdict(workload: &Workload, packet: &Packet) -> Verdict {
    for (boxed, rule) in workload.boxes.iter().zip(&workload.rules) {
        if allows(boxed, packet.numbers()) && cross(rule, packet) {
            return match rule.target() {
                Some(Target::Accept) => Verdict::Accept,
                _ => Verdict::Drop,
            };
        }
    }
    Verdict::Drop
}
