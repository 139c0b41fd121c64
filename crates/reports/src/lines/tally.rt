//! How many rules there are of each kind, as lines.
use audits::Tally;
use fields::{Tap, WriteFailed};
use rulesets::put_number;
use std::io::Write;

// Writes each count with the text after it.
fn put_counts<W: Write>(counts: &[(usize, &[u8])], output: &mut Tap<W>) -> Result<(), WriteFailed> {
    for (count, text) in counts {
        put_number(b"", *count, text, output)?;
    }
    Ok(())
}

/// Writes the line of the counts, without those of packets that were given: `23 rules, 1 dead, 0 unclear`; and, where a rule is
/// dead, another one: `1 redundant, 0 shadowed`.
///
/// # Errors
///
/// `WriteFailed` where a write failed.
pub(crate) fn put_tally<W: Write>(tally: &Tally, output: &mut Tap<W>) -> Result<(), WriteFailed> {
    put_counts(
        &[
            (tally.rules(), b" rules, ".as_slice()),
            (tally.dead, b" dead, ".as_slice()),
            (tally.unclear, b" unclear\n".as_slice()),
        ],
        output,
    )?;
    if tally.dead == 0 {
        return Ok(());
    }
    put_counts(
        &[
            (tally.redundant, b" redundant, ".as_slice()),
            (tally.shadowed, b" shadowed\n".as_slice()),
        ],
        output,
    )
}

/// Writes the line of all counts: `23 rules, 20 covered, 2 missed, 1 dead, 0 unclear`, or `20 covered (3 if conditions hold)` where some rules are
/// so under some answers alone.
///
/// # Errors
///
/// `WriteFailed` where a write failed.
pub(crate) fn put_coverage<W: Write>(
    tally: &Tally,
    output: &mut Tap<W>,
) -> Result<(), WriteFailed> {
    put_counts(
        &[
            (tally.rules(), b" rules, ".as_slice()),
            (tally.covered, b" covered".as_slice()),
        ],
        output,
    )?;
    if tally.covered_if > 0 {
        put_number(b" (", tally.covered_if, b" if conditions hold)", output)?;
    }
    output.put(b", ")?;
    put_counts(
        &[
            (tally.live, b" missed, ".as_slice()),
            (tally.dead, b" dead, ".as_slice()),
            (tally.unclear, b" unclear\n".as_slice()),
        ],
        output,
    )
}

/// Writes the line of the counts of changed rules: `2 changed rules, 1 dead, 0 unclear`.
///
/// # Errors
///
/// `WriteFailed` where a write failed.
pub(crate) fn put_changes<W: Write>(tally: &Tally, output: &mut Tap<W>) -> Result<(), WriteFailed> {
    put_counts(
        &[
            (tally.rules(), b" changed rules, ".as_slice()),
            (tally.dead, b" dead, ".as_slice()),
            (tally.unclear, b" unclear\n".as_slice()),
        ],
        output,
    )
}
