//! Targets.
use fields::{Name, RejectType};

/// Where the packets go that a rule matches (iptables(8), `-j` and `-g`).
#[derive(Debug, PartialEq, Eq, Drop)]
pub enum Target {
    /// The packet is let through.
    Accept,
    /// The packet is dropped.
    Drop,
    /// The walk goes on after the rule that jumped to this chain.
    Return,
    /// The packet is dropped, and answered in this way.
    Reject(RejectType),
    /// The packet is logged, and the walk goes on.
    Log,
    /// The walk goes on in a chain, and comes back.
    Jump(Name),
    /// The walk goes on in a chain, and doesn't come back to this one.
    Goto(Name),
}
