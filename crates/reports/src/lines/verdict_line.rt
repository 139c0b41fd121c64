//! The text of a verdict.
use fields::{Tap, WriteFailed};
use rulesets::GivenVerdict;
use std::io::Write;
use table::Verdict;

/// Writes a verdict: `ACCEPT`, `REJECT icmp-port-unreachable`, or a target's own, `NFQUEUE --queue-num 0`.
///
/// # Errors
///
/// `WriteFailed` where a write failed.
pub(crate) fn put_verdict<W: Write>(
    verdict: GivenVerdict<'_>,
    output: &mut Tap<W>,
) -> Result<(), WriteFailed> {
    match verdict {
        GivenVerdict::Read(Verdict::Accept) => output.put(b"ACCEPT"),
        GivenVerdict::Read(Verdict::Drop) => output.put(b"DROP"),
        GivenVerdict::Read(Verdict::Reject(kind)) => {
            output.put(b"REJECT ")?;
            kind.put(output)
        }
        GivenVerdict::Read(Verdict::TooLong) => output.put(b"TOOLONG"),
        GivenVerdict::Own(words) => output.put(words),
    }
}
