//! The numbers of packets.
use fields::{FIELDS, Field, Hook, Packet, Words};
use std::alloc::Global;

// The packet that a line describes, from a place of its words on.
fn packet_of(alloc: Global, line: &[u8], from: usize) -> Option<Packet> {
    match Words::split(alloc, line) {
        Ok(words) => Packet::read(&words, from).ok(),
        Err(_) => None,
    }
}

// Whether a packet's number on a field is that of a list, both by its field and among all numbers.
fn has_number(packet: &Packet, numbers: &[u128; FIELDS], field: Field) -> bool {
    let number = numbers[field.index()];
    packet.point(field) == number && packet.numbers()[field.index()] == number
}

// Whether a packet has these numbers, one for each field.
fn has_numbers(packet: &Packet, numbers: &[u128; FIELDS]) -> bool {
    Field::ALL
        .iter()
        .all(|field| has_number(packet, numbers, *field))
}

// A line, the hook of its packet, and the packet's numbers.
type Row = (&'static [u8], Hook, [u128; FIELDS]);

const ETH0: u128 = 0x6574_6830_0000_0000_0000_0000_0000_0000;

const PACKETS: &[Row] = &[
    (
        b"packet INPUT src=10.9.9.9 dst=2.2.2.2 proto=47",
        Hook::Input,
        [0x0a09_0909, 0x0202_0202, 0, 0, 47, 0, 0, 0, 0, 0, 0, 64],
    ),
    (
        b"packet OUTPUT proto=0 dst=0.0.0.0 src=255.255.255.255 out=a=b",
        Hook::Output,
        [0xffff_ffff, 0, 0, 0x613d62 << 104, 0, 0, 0, 0, 0, 0, 0, 64],
    ),
    (
        b"packet FORWARD src=0.0.0.1 dst=0.0.0.2 proto=tcp in=eth0 out=eth+ ttl=1 sport=7 dport=65535 \
        flags=SYN,ACK ct=NEW",
        Hook::Forward,
        [1, 2, ETH0, 0x6574682b << 96, 6, 0, 7, 65535, 18, 0, 2, 1],
    ),
    (
        b"packet FORWARD src=0.0.0.1 dst=0.0.0.2 proto=tcp in=eth0 out=eth+ frag=0 sport=7 dport=65535 \
        flags=SYN,ACK ct=NEW",
        Hook::Forward,
        [1, 2, ETH0, 0x6574682b << 96, 6, 0, 7, 65535, 18, 0, 2, 64],
    ),
    (
        b"packet INPUT ttl=3 frag=1 src=0.0.0.1 dst=0.0.0.2 proto=icmp",
        Hook::Input,
        [1, 2, 0, 0, 1, 1, 0, 0, 0, 0, 0, 3],
    ),
    (
        b"packet INPUT proto=icmp icmp=8/3 src=0.0.0.1 ttl=255 dst=0.0.0.2",
        Hook::Input,
        [1, 2, 0, 0, 1, 0, 0, 0, 0, 2051, 0, 255],
    ),
    (
        b"packet INPUT proto=udplite sport=0 dport=2 src=0.0.0.1 dst=0.0.0.2 ct=Established,Snat,Dnat",
        Hook::Input,
        [1, 2, 0, 0, 136, 0, 0, 2, 0, 0, 13, 64],
    ),
    (
        b"packet INPUT src=0.0.0.1 dst=0.0.0.2 proto=icmpv6 frag=0 ttl=0",
        Hook::Input,
        [1, 2, 0, 0, 58, 0, 0, 0, 0, 0, 0, 0],
    ),
    (
        b"packet INPUT src=0.0.0.1 dst=0.0.0.2 proto=icmp icmp=255/255 ttl=254",
        Hook::Input,
        [1, 2, 0, 0, 1, 0, 0, 0, 0, 65535, 0, 254],
    ),
    (
        b"packet INPUT src=0.0.0.1 dst=0.0.0.2 proto=6 sport=1 dport=2 flags=all",
        Hook::Input,
        [1, 2, 0, 0, 6, 0, 1, 2, 63, 0, 0, 64],
    ),
];

// Whether the packet of a line has its hook and its numbers.
fn is_packet(alloc: Global, row: &Row) -> bool {
    match packet_of(alloc, row.0, 1) {
        Some(packet) => packet.hook() == row.1 && has_numbers(&packet, &row.2),
        None => false,
    }
}

#[test]
fn packets_have_a_hook_and_numbers(rt: HostRuntime) {
    for row in PACKETS {
        assert!(rt; is_packet(rt.alloc(), row));
    }
}

// Each value of `ct`, and its number.
const STATES: &[(&[u8], u128)] = &[
    (b"invalid", 0),
    (b"Untracked", 1),
    (b"NEW", 2),
    (b"new,snat", 3),
    (b"New,Dnat", 4),
    (b"NEW,SNAT,DNAT", 5),
    (b"RELATED", 6),
    (b"related,SNAT", 7),
    (b"RELATED,dnat", 8),
    (b"RELATED,SNAT,DNAT", 9),
    (b"established", 10),
    (b"ESTABLISHED,SNAT", 11),
    (b"ESTABLISHED,DNAT", 12),
    (b"Established,Snat,Dnat", 13),
];

// The state of a packet with a value of `ct`.
fn state_of(alloc: Global, text: &[u8]) -> Option<u128> {
    let mut line = Vec::from_slice(alloc, b"INPUT src=1.1.1.1 dst=2.2.2.2 proto=47 ct=").ok()?;
    line.extend_from_slice(text).ok()?;
    Some(packet_of(alloc, &line, 0)?.point(Field::ConnectionState))
}

#[test]
fn packets_have_states(rt: HostRuntime) {
    for (text, number) in STATES {
        assert!(rt; state_of(rt.alloc(), text) == Some(*number));
    }
}
