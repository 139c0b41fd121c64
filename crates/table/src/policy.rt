//! Policies of built-in chains.
ghost use Rattle.std.specs.Prelude.{◌≡◌};

use crate::verdict::Verdict;

/// The verdict of a packet that no rule of the walk decides (iptables(8), `-P`).
#[derive(Clone, Copy, Debug, PartialEq, Eq)]
pub enum Policy {
    /// The packet is let through.
    Accept,
    /// The packet is dropped.
    Drop,
}

impl Policy {
    ghost use Rattle.table.specs.edits.Edits.{policy_named};
    ghost use Rattle.table.specs.walk.Walk.{policy_verdict};

    // The policy that a word names: ACCEPT or DROP, in upper case.
    pub(crate) fn read(text: &[u8]) -> Option<Policy>
        ensures { result ≡ policy_named text.now }
    {
        if text == b"ACCEPT".as_slice() {
            Some(Policy::Accept)
        } else if text == b"DROP".as_slice() {
            Some(Policy::Drop)
        } else {
            None
        }
    }

    // The verdict that the policy gives.
    pub(crate) fn verdict(self) -> Verdict
        ensures { result ≡ policy_verdict self }
    {
        match self {
            Policy::Accept => Verdict::Accept,
            Policy::Drop => Verdict::Drop,
        }
    }
}
