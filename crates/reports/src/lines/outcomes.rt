//! The verdicts of a set of packets, grouped by a field, as lines.
ghost use Rattle.std.specs.Prelude.{◌≡◌, All};
ghost use Rattle.fields.specs.numbers.Field.{top};

use crate::fault::ReportFault;
use crate::lines::rule_line::put_rule_name;
use crate::lines::verdict_line::put_verdict;
use fields::{Field, Tap, WriteFailed};
use notation::set_word;
use questions::Reached;
use rulesets::Dump;
use std::alloc::Global;
use std::io::Write;
use table::Step;

/// Writes what decides: `policy`, or a rule as `INPUT 3`.
///
/// # Errors
///
/// `WriteFailed` where a write failed.
pub(crate) fn put_decider<W: Write>(
    dump: &Dump,
    by: Option<Step>,
    output: &mut Tap<W>,
) -> Result<(), WriteFailed> {
    match by {
        Some(step) => put_rule_name(dump, step, output),
        None => output.put(b"policy"),
    }
}

/// Writes the verdicts of a set of packets, a line for each verdict and decider, with the word of its packets on the field:
/// `ACCEPT by INPUT 3: dport=22,80`.
///
/// # Errors
///
/// Where memory was refused, or a write failed.
pub(crate) fn put_outcomes<W: Write>(
    alloc: Global,
    dump: &Dump,
    field: Field,
    found: &[Reached],
    output: &mut Tap<W>,
) -> Result<(), ReportFault>
    requires { All (λ reached. reached.numbers.top ≡ top field) found.now }
{
    for reached in found {
        let numbers = set_word(alloc, field, &reached.numbers)?;
        put_verdict(dump.given(reached.verdict, reached.by), output)?;
        output.put(b" by ")?;
        put_decider(dump, reached.by, output)?;
        output.put_all(&[b": ", numbers.as_slice(), b"\n"])?;
    }
    Ok(())
}
