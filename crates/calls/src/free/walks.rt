//! The walk of a packet.
use crate::trouble::{Trouble, expect};
use crate::written::{Placed, packet_of, table_of};
use fields::Packet;
use std::alloc::Global;
use table::{Table, Verdict};

/// A rule that allows each number of the walked packet on its field, and doesn't match it.
const FAILS: &[u8] = b"-p tcp -m multiport --ports 80,90 -j ACCEPT";

/// The rules of a walk that jumps, goes and returns: their chains and lines. Before each rule that matches there is one
/// that fails, and in the chain that the walk goes to there is one after it.
const WALKED: &[Placed] = &[
    (b"INPUT", FAILS),
    (b"INPUT", b"-s 10.0.0.0/8 -p tcp --dport 22 -j a"),
    (b"INPUT", FAILS),
    (b"INPUT", b"-p tcp -j DROP"),
    (b"a", FAILS),
    (b"a", b"-g b"),
    (b"b", FAILS),
    (b"b", b"-p tcp -m multiport ! --ports 22 -j ACCEPT"),
    (b"b", b"-m ttl --ttl-lt 64 -j ACCEPT"),
    (b"b", b"-j RETURN"),
    (b"b", FAILS),
];

/// Whether a table drops a packet and accepts another.
fn divides(table: &Table, dropped: &Packet, passed: &Packet) -> bool {
    table.verdict(dropped) == Verdict::Drop && table.verdict(passed) == Verdict::Accept
}

/// `Table::verdict`, of a walk that jumps, goes and returns, over rules that fail, and of one that ends at the policy.
pub fn verdict(alloc: Global, times: u32) -> Result<(), Trouble> {
    let table = table_of(alloc, &[b"a", b"b"], WALKED)?;
    let first = b"INPUT src=10.0.0.1 dst=10.0.0.2 proto=tcp sport=7 dport=22";
    let dropped = packet_of(alloc, first)?;
    let passed = packet_of(alloc, b"OUTPUT src=10.0.0.1 dst=10.0.0.2 proto=47")?;
    for _ in 0..times {
        expect(divides(&table, &dropped, &passed))?;
    }
    Ok(())
}
