//! The cases: the calls that promise to take no memory.
use crate::free::{planted, rows, rulings, sets, walks};
use crate::trouble::Trouble;
use std::alloc::Global;

/// Which calls are made. Each case makes all calls of one kind of value, and compares their answers.
#[derive(Clone, Copy, PartialEq, Eq)]
pub enum Case {
    /// Sets of numbers: what they lend.
    Spans,
    /// The target of a rule.
    Target,
    /// A copy of a rule that leads to no chain.
    Copy,
    /// What a rule asks of several fields at once, of a packet.
    Cross,
    /// What the box of a rule lends.
    Box,
    /// A row of bits.
    BitRow,
    /// The verdict of a packet's walk.
    Verdict,
    /// A call that takes memory: the check has to report it.
    Planted,
}

impl Case {
    /// All cases.
    pub const ALL: [Case; 8] = [
        Case::Spans,
        Case::Target,
        Case::Copy,
        Case::Cross,
        Case::Box,
        Case::BitRow,
        Case::Verdict,
        Case::Planted,
    ];

    /// The word that asks for the case.
    pub fn name(self) -> &'static str {
        match self {
            Case::Spans => "spans",
            Case::Target => "target",
            Case::Copy => "copy",
            Case::Cross => "cross",
            Case::Box => "box",
            Case::BitRow => "bit-row",
            Case::Verdict => "verdict",
            Case::Planted => "planted",
        }
    }

    /// Makes what the calls need, and then the calls so many times.
    pub fn run(self, alloc: Global, times: u32) -> Result<(), Trouble> {
        match self {
            Case::Spans => sets::spans(alloc, times),
            Case::Target => rulings::target(alloc, times),
            Case::Copy => rulings::copies(alloc, times),
            Case::Cross => rulings::crossing(alloc, times),
            Case::Box => rulings::boxed(alloc, times),
            Case::BitRow => rows::bit_row(alloc, times),
            Case::Verdict => walks::verdict(alloc, times),
            Case::Planted => planted::takes_memory(alloc, times),
        }
    }
}
