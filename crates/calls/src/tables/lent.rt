//! Rules that a table lends.
use crate::trouble::{Trouble, expect};
use crate::written::{has_text, table_of};
use std::alloc::Global;

/// `Table::rule`, of the two rules of FORWARD.
pub fn rules(alloc: Global) -> Result<(), Trouble> {
    let rules = &[
        (b"FORWARD".as_slice(), b"-j LOG".as_slice()),
        (b"FORWARD".as_slice(), b"-p icmp -j ACCEPT".as_slice()),
    ];
    let table = table_of(alloc, &[], rules)?;
    if table.chain_count() != 3 || table.rule_count(1) != 2 {
        return Err(Trouble::OtherAnswer);
    }
    expect(has_text(alloc, table.rule(1, 1), b" -j LOG")?)?;
    expect(has_text(alloc, table.rule(1, 2), b" -p icmp -j ACCEPT")?)
}
