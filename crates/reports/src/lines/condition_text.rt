//! What is written of conditions.
use fields::{Tap, WriteFailed};
use questions::Need;
use rulesets::{OpenConditions, put_condition};
use std::io::Write;

// Writes what stands before a condition: ` and ` behind others, and `not ` where it is inverted.
fn put_before<W: Write>(place: usize, need: Need, output: &mut Tap<W>) -> Result<(), WriteFailed> {
    if place > 0 {
        output.put(b" and ")?;
    }
    if need.inverted {
        output.put(b"not ")?;
    }
    Ok(())
}

/// Writes that conditions hold, or don't: `limit --limit 3/min at INPUT 4 and not addrtype --dst-type LOCAL`.
///
/// # Errors
///
/// `WriteFailed` where a write failed.
pub(crate) fn put_given<W: Write>(
    open: &OpenConditions,
    given: &[Need],
    output: &mut Tap<W>,
) -> Result<(), WriteFailed> {
    for (place, need) in given.iter().enumerate() {
        put_before(place, *need, output)?;
        put_condition(open, need.condition, output)?;
    }
    Ok(())
}

/// Writes what a rule asks, behind the rule: ` if limit --limit 3/min`. There are no places, since the rule has one.
///
/// # Errors
///
/// `WriteFailed` where a write failed.
pub(crate) fn put_asked<W: Write>(
    open: &OpenConditions,
    asked: &[Need],
    output: &mut Tap<W>,
) -> Result<(), WriteFailed> {
    if !asked.is_empty() {
        output.put(b" if ")?;
    }
    for (place, need) in asked.iter().enumerate() {
        put_before(place, *need, output)?;
        output.put(open.text(need.condition))?;
    }
    Ok(())
}

/// Writes those of the answers that conditions hold: `limit --limit 3/min at INPUT 4`.
///
/// # Errors
///
/// `WriteFailed` where a write failed.
pub(crate) fn put_holding<W: Write>(
    open: &OpenConditions,
    given: &[Need],
    output: &mut Tap<W>,
) -> Result<(), WriteFailed> {
    let mut before = b"".as_slice();
    for need in given {
        if !need.inverted {
            output.put(before)?;
            put_condition(open, need.condition, output)?;
            before = b" and ";
        }
    }
    Ok(())
}

/// Writes the line of the answers under which something is so, after some bytes; there is none where there are no answers.
///
/// # Errors
///
/// `WriteFailed` where a write failed.
pub(crate) fn put_if<W: Write>(
    open: &OpenConditions,
    before: &[u8],
    given: &[Need],
    output: &mut Tap<W>,
) -> Result<(), WriteFailed> {
    if given.is_empty() {
        return Ok(());
    }
    output.put_all(&[before, b"  if "])?;
    put_given(open, given, output)?;
    output.put(b"\n")
}
