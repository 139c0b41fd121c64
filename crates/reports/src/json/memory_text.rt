//! Lines that are written in memory, as texts. Bytes that are no UTF-8 become U+FFFD.
use crate::json::names::name_text;
use crate::lines::packet_line::put_packet;
use crate::lines::rule_line::put_listed;
use crate::lines::verdict_line::put_verdict;
use fields::{Tap, Words};
use rulesets::{Dump, GivenVerdict, bytes_of};
use std::alloc::{AllocError, Global};
use table::Step;

// The text of a line.
fn line_text(alloc: Global, line: Tap<Vec<u8>>) -> Result<String, AllocError> {
    name_text(alloc, bytes_of(line)?.as_slice())
}

/// The line of a rule in a listing.
///
/// # Errors
///
/// `AllocError` where memory was refused.
pub(crate) fn rule_text(alloc: Global, dump: &Dump, at: Step) -> Result<String, AllocError> {
    let mut line = Tap::new(Vec::new(alloc));
    let _ = put_listed(dump, at, &mut line);
    line_text(alloc, line)
}

/// The line of a packet.
///
/// # Errors
///
/// `AllocError` where memory was refused.
pub(crate) fn packet_text(alloc: Global, words: &Words) -> Result<String, AllocError> {
    let mut line = Tap::new(Vec::new(alloc));
    let _ = put_packet(words, &mut line);
    line_text(alloc, line)
}

/// A verdict: `ACCEPT`, `REJECT icmp-port-unreachable`, or a target's own.
///
/// # Errors
///
/// `AllocError` where memory was refused.
pub(crate) fn verdict_text(alloc: Global, verdict: GivenVerdict<'_>) -> Result<String, AllocError> {
    let mut line = Tap::new(Vec::new(alloc));
    let _ = put_verdict(verdict, &mut line);
    line_text(alloc, line)
}
