//! Claims about all packets, and what is known of them.
use crate::each_rule::tally::status;
use crate::walking::walk::Walk;
use fields::Words;
use questions::{GivenPackets, Need};
use table::Verdict;

/// A claim: no packet of some gets one of some verdicts.
#[derive(Drop)]
pub struct Claim {
    /// The number of its line, from 1.
    pub line: u64,
    /// Its name, where it has one.
    pub name: Option<String>,
    /// Its words.
    pub text: String,
    /// The packets.
    pub given: GivenPackets,
    /// The verdicts.
    pub forbidden: Vec<Verdict>,
    /// Whether a target's own verdict is as one of these.
    pub forbids_own: bool,
}

/// A packet that gets a forbidden verdict where some answers are right, and its walk, if that is known.
#[derive(Drop)]
pub struct Counterexample {
    /// The words of the packet.
    pub words: Words,
    /// The answers.
    pub given: Vec<Need>,
    /// Its walk where they are right.
    pub walk: Option<Walk>,
}

/// What is known of a claim.
#[derive(Drop)]
pub enum ClaimAnswer {
    /// It holds for every packet, whatever conditions hold.
    Holds,
    /// It fails for this packet.
    Fails(Counterexample),
    /// It isn't known.
    Unclear,
}

/// What is known of each of some claims, in their order.
#[derive(Drop)]
pub struct AnsweredClaims {
    /// What is known.
    pub answers: Vec<ClaimAnswer>,
}

/// How many claims there are of each kind.
#[derive(Clone, Copy)]
pub struct ClaimTally {
    /// Those that hold.
    pub holding: usize,
    /// Those that fail.
    pub failing: usize,
    /// The others.
    pub unclear: usize,
}

impl AnsweredClaims {
    /// How many there are of each kind.
    pub fn tally(&self) -> ClaimTally {
        let mut tally = ClaimTally {
            holding: 0,
            failing: 0,
            unclear: 0,
        };
        for answer in self.answers.as_slice() {
            let count = match answer {
                ClaimAnswer::Holds => &mut tally.holding,
                ClaimAnswer::Fails(_) => &mut tally.failing,
                ClaimAnswer::Unclear => &mut tally.unclear,
            };
            *count = count.saturating_add(1);
        }
        tally
    }

    /// The status: 1 where a claim fails, else 3 where one isn't known, else 0.
    pub fn status(&self) -> u8 {
        let tally = self.tally();
        status(tally.failing > 0, tally.unclear > 0)
    }
}
