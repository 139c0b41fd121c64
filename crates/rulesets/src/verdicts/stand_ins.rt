//! Verdicts that stand in for targets' own, where one of them is all the same to a question.
use crate::dump::Dump;
use crate::text::bytes_of;
use crate::verdicts::replaced::put_target;
use fields::{RejectType, Tap, WriteFailed};
use questions::BoxedTable;
use rules::Work;
use sessions::Session;
use std::alloc::{AllocError, Global};
use std::io::Write;
use table::{Step, Table, Verdict};

// Verdicts that any rule can give, whatever it matches.
const GIVEN_BY_ANY: [Verdict; 9] = [
    Verdict::Drop,
    Verdict::Accept,
    Verdict::Reject(RejectType::NetUnreachable),
    Verdict::Reject(RejectType::HostUnreachable),
    Verdict::Reject(RejectType::PortUnreachable),
    Verdict::Reject(RejectType::ProtoUnreachable),
    Verdict::Reject(RejectType::NetProhibited),
    Verdict::Reject(RejectType::HostProhibited),
    Verdict::Reject(RejectType::AdminProhibited),
];

/// A verdict that any rule can give: one of some verdicts, or one that isn't among them. There is none where they are all that it could be, or it could be none of them.
pub fn stand_in(some: &[Verdict], is_among: bool) -> Option<Verdict> {
    GIVEN_BY_ANY
        .iter()
        .copied()
        .find(|verdict| some.contains(verdict) == is_among)
}

// Writes the target that gives a verdict.
fn put_verdict<W: Write>(verdict: Verdict, output: &mut Tap<W>) -> Result<(), WriteFailed> {
    match verdict {
        Verdict::Accept => output.put(b"ACCEPT"),
        Verdict::Drop | Verdict::TooLong => output.put(b"DROP"),
        Verdict::Reject(kind) => {
            output.put(b"REJECT --reject-with ")?;
            kind.put(output)
        }
    }
}

// Gives a target to those rules of a chain that have verdicts of their own. Whether all could be put there.
fn put_in_chain(
    alloc: Global,
    dump: &Dump,
    chain: usize,
    target: &[u8],
    table: &mut Table,
    work: &mut Work,
) -> Result<bool, AllocError> {
    for passed in 0..dump.rule_count(chain) {
        let at = Step {
            chain,
            number: passed.saturating_add(1),
        };
        if dump.own_verdict(at).is_some() && !put_target(alloc, dump, at, target, table, work)? {
            return Ok(false);
        }
    }
    Ok(true)
}

/// The table of a dump, but for rules with verdicts of their own, which give this one; none where the text of such a rule couldn't be read again.
///
/// # Errors
///
/// `AllocError` where memory was refused.
///
/// # Cost
///
/// A copy of the table.
pub fn table_with(
    alloc: Global,
    dump: &Dump,
    verdict: Verdict,
) -> Result<Option<BoxedTable>, AllocError> {
    let mut line = Tap::new(Vec::new(alloc));
    let _ = put_verdict(verdict, &mut line);
    let target = bytes_of(line)?;
    let mut table = dump.table().copy()?;
    let (_none, mut work) = Session::new(alloc)?.into_parts();
    for chain in 0..dump.chain_count() {
        if !put_in_chain(alloc, dump, chain, target.as_slice(), &mut table, &mut work)? {
            return Ok(None);
        }
    }
    Ok(Some(BoxedTable::of(alloc, table, &mut work)?))
}
