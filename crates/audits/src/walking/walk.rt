//! The walks of a packet, and what becomes of it.
use questions::{Need, WrittenPacket};
use table::{Step, Verdict};

/// A rule on a walk. Where it needs something beside what is answered, it matches if that holds.
#[derive(Drop)]
pub struct Passed {
    /// The rule.
    pub at: Step,
    /// What it needs beside what is answered.
    pub needs: Vec<Need>,
}

/// A walk, and the answers under which it is so.
#[derive(Drop)]
pub struct Walk {
    /// The answers.
    pub given: Vec<Need>,
    /// The rules that match, in turn.
    pub rules: Vec<Passed>,
    /// How it ends.
    pub verdict: Verdict,
    /// The rule that decides; none where the policy does.
    pub by: Option<Step>,
}

/// What becomes of a packet under some answers: its verdict, and the rule that decides; none where the policy does.
#[derive(Drop)]
pub struct Branch {
    /// The answers.
    pub given: Vec<Need>,
    /// The verdict.
    pub verdict: Verdict,
    /// The rule that decides.
    pub by: Option<Step>,
}

impl Branch {
    /// Whether another branch ends alike.
    pub fn ends_as(&self, other: &Branch) -> bool {
        self.verdict == other.verdict && self.by == other.by
    }
}

/// A packet that was given, and the line that writes it.
#[derive(Drop)]
pub struct GivenPacket {
    /// The line, without its newline.
    pub line: Vec<u8>,
    /// The packet.
    pub packet: WrittenPacket,
}

/// What becomes of each packet, in their order.
#[derive(Drop)]
pub struct PacketWalks {
    /// The branches of each packet, of which the first whose conditions that are to hold do hold is right; none where they aren't known.
    pub branches: Vec<Option<Vec<Branch>>>,
}

impl PacketWalks {
    /// The status: 3 where it isn't known of a packet, else 0.
    pub fn status(&self) -> u8 {
        for branches in self.branches.as_slice() {
            if branches.is_none() {
                return 3;
            }
        }
        0
    }
}
