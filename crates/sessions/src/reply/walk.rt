//! What a session prints of a packet.
ghost use Rattle.std.specs.Prelude.{◌≡◌, false, flat_map};
ghost use Rattle.fields.specs.Packet.{PacketView as PacketValue};
ghost use Rattle.fields.specs.text.Tap.{has_failed, Puts};
ghost use Rattle.table.specs.chains.Table.{chain_at};
ghost use Rattle.table.specs.walk.Walk.{Shows, Walked, walk};
ghost use Rattle.sessions.specs.Replies.{entry_at, trail_text, cause_text, entry_line, packet_reply, verdict_line, walked_text};

use fields::{RejectType, Tap, WriteFailed};
use itoa::Buffer;
use std::io::Write;
use table::{Step, Table, Trail, Verdict};

// The name of the chain at a place in the order of a listing; no bytes where there is none.
fn name_at(table: &Table, place: usize) -> &[u8]
    ensures { result.now ≡ (chain_at table.now.table place).name }
{
    if place < table.chain_count() {
        table.chain_name(place)
    } else {
        b""
    }
}

// Writes the line of a rule that matched: `INPUT 1`.
fn put_entry<W: Write>(table: &Table, step: Step, output: &mut Tap<W>) -> Result<(), WriteFailed>
    ensures { Puts W.contents output.old output.new result (entry_line (entry_at table.now.table step)) }
{
    let mut number = Buffer::new();
    output.put_all(&[
        name_at(table, step.chain),
        b" ",
        number.format(step.number).as_bytes(),
        b"\n",
    ])
}

// Writes the lines of the rules that matched.
fn put_entries<W: Write>(
    table: &Table,
    steps: &[Step],
    output: &mut Tap<W>,
) -> Result<(), WriteFailed>
    requires { has_failed output.old ≡ false }
    ensures { Puts W.contents output.old output.new result
        (flat_map (λ step. entry_line (entry_at table.now.table step)) steps.now) }
{
    for step in steps {
        put_entry(table, *step, output)?;
    }
    Ok(())
}

// The end of a verdict's line: whether the policy decided, or a rule.
fn cause_text(by_policy: bool) -> &'static [u8]
    ensures { result.now ≡ cause_text by_policy }
{
    if by_policy {
        b" by policy\n"
    } else {
        b" by rule\n"
    }
}

// Writes the line of the verdict REJECT: `verdict REJECT icmp-port-unreachable by rule`.
fn put_rejected<W: Write>(
    kind: RejectType,
    by_policy: bool,
    output: &mut Tap<W>,
) -> Result<(), WriteFailed>
    ensures { Puts W.contents output.old output.new result (verdict_line (Verdict.Reject kind) by_policy) }
{
    output.put(b"verdict REJECT ")?;
    kind.put(output)?;
    output.put(cause_text(by_policy))
}

// Writes the line of a verdict: `verdict ACCEPT by rule`.
fn put_verdict<W: Write>(
    verdict: Verdict,
    by_policy: bool,
    output: &mut Tap<W>,
) -> Result<(), WriteFailed>
    ensures { Puts W.contents output.old output.new result (verdict_line verdict by_policy) }
{
    match verdict {
        Verdict::Accept => output.put_all(&[b"verdict ACCEPT", cause_text(by_policy)]),
        Verdict::Drop => output.put_all(&[b"verdict DROP", cause_text(by_policy)]),
        Verdict::Reject(kind) => put_rejected(kind, by_policy, output),
        Verdict::TooLong => output.put(b"verdict TOOLONG\n"),
    }
}

/// Writes the walk of a packet: a line `CHAIN NUMBER` for each rule that matched, in turn, and then the verdict with
/// what decided, as `verdict ACCEPT by rule` (iptables(8), "TARGETS"). Of a walk that is too long it is `verdict
/// TOOLONG` alone.
///
/// It writes any trail. Of a trail that the table gave as it is now, the text is that of the packet's walk.
///
/// It takes no memory, and time linear in the text, which is written as it comes.
///
/// # Errors
///
/// `WriteFailed` where the writer failed, now or before: it then got a beginning of the text, none where it had
/// failed before.
pub fn write_walk<W: Write>(
    table: &Table,
    trail: &Trail,
    output: &mut Tap<W>,
) -> Result<(), WriteFailed>
    ensures text { Puts W.contents output.old output.new result (trail_text table.now.table trail.now) }
    ensures walked { (walked : Walked) → Shows table.now.table.chains walked trail.now
        → Puts W.contents output.old output.new result (walked_text walked) }
    ensures packet { (packet : PacketValue) → Shows table.now.table.chains (walk table.now.table packet) trail.now
        → Puts W.contents output.old output.new result (packet_reply table.now.table packet) }
{
    if output.failed() {
        return Err(WriteFailed);
    }
    put_entries(table, trail.steps(), output)?;
    put_verdict(trail.verdict(), trail.by_policy(), output)
}
