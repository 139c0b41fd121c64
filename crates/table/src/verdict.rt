//! Verdicts.
use fields::RejectType;

/// The end of a packet's walk (iptables(8), "TARGETS").
#[derive(Clone, Copy, Debug, PartialEq, Eq)]
pub enum Verdict {
    /// The packet is let through.
    Accept,
    /// The packet is dropped.
    Drop,
    /// The packet is dropped, and answered in this way.
    Reject(RejectType),
    /// The walk is too long: more rules match than it may have, 65,536.
    TooLong,
}
