//! Whether two dumps give each packet the same verdict, and how many rules only one of them has, as lines.
use crate::lines::condition_text::put_if;
use crate::lines::open_counts::put_open;
use crate::lines::packet_line::put_packet;
use crate::lines::tally::put_changes;
use crate::lines::walk_text::put_walk;
use audits::{Difference, Differing, HookAnswer, HookLikeness, Pair, Walk};
use fields::{Tap, WriteFailed};
use rulesets::{Dump, MatchCount, OpenConditions};
use std::io::Write;

// Writes what a table does with a packet, below a heading.
fn put_side<W: Write>(
    heading: &[u8],
    dump: &Dump,
    open: &OpenConditions,
    walk: &Option<Walk>,
    output: &mut Tap<W>,
) -> Result<(), WriteFailed> {
    output.put(heading)?;
    match walk {
        Some(walk) => put_walk(dump, open, walk, output),
        None => output.put(b"unclear\n"),
    }
}

// Writes a packet that gets two verdicts, and its walk in each table.
fn put_difference<W: Write>(
    pair: Pair<'_>,
    found: &Differing,
    output: &mut Tap<W>,
) -> Result<(), WriteFailed> {
    put_packet(&found.words, output)?;
    output.put(b"\n")?;
    put_if(pair.open, b"", found.given.as_slice(), output)?;
    put_side(b"old:\n", pair.old, pair.open, &found.old, output)?;
    put_side(b"new:\n", pair.new, pair.open, &found.new, output)
}

// Writes what is known of the packets at a hook.
fn put_hook<W: Write>(
    pair: Pair<'_>,
    entry: &HookLikeness,
    output: &mut Tap<W>,
) -> Result<(), WriteFailed> {
    output.put(entry.hook.name())?;
    match &entry.answer {
        HookAnswer::Same => output.put(b" same\n"),
        HookAnswer::Differ(found) => {
            output.put(b" differs\n")?;
            put_difference(pair, found, output)
        }
        HookAnswer::Unclear => output.put(b" unclear\n"),
    }
}

/// Writes what is known of the packets at each hook, as lines: `INPUT same`, `INPUT unclear`, or `INPUT differs` and a packet; then
/// the counts of changed rules, how many conditions are open, and the premise, if an answer has it.
///
/// # Errors
///
/// `WriteFailed` where a write failed.
pub(crate) fn put_differences<W: Write>(
    pair: Pair<'_>,
    found: &Difference,
    counts: &[MatchCount],
    output: &mut Tap<W>,
) -> Result<(), WriteFailed> {
    for entry in found.hooks.as_slice() {
        put_hook(pair, entry, output)?;
    }
    put_changes(&found.tally, output)?;
    put_open(pair.open, counts, b"", output)?;
    if found.has_premise(pair.open) {
        output.put(
            b"same if each condition of a place answers one packet the same each time, in both files\n",
        )?;
    }
    Ok(())
}
