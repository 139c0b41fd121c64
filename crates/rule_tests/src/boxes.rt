//! The numbers that rules allow on each field.
use crate::lines::read;
use fields::{Field, Interval, Spans};
use rules::{Boxed, Work};
use std::alloc::Global;
use std::process::Abort;
use std::test::Fail;

// Intervals, by their first and last number.
type Intervals = &'static [(u128, u128)];

const TOP: u128 = u128::MAX;

// Each field's greatest number.
const TOPS: [(Field, u128); 12] = [
    (Field::Source, 4294967295),
    (Field::Destination, 4294967295),
    (Field::InIface, TOP),
    (Field::OutIface, TOP),
    (Field::Protocol, 255),
    (Field::Fragment, 1),
    (Field::SourcePort, 65535),
    (Field::DestinationPort, 65535),
    (Field::TcpFlags, 63),
    (Field::IcmpType, 65535),
    (Field::ConnectionState, 13),
    (Field::TimeToLive, 255),
];

const ETH: u128 = 0x6574_6800_0000_0000_0000_0000_0000_0000;

const ETI: u128 = 0x6574_6900_0000_0000_0000_0000_0000_0000;

const ETH0: u128 = 0x6574_6830_0000_0000_0000_0000_0000_0000;

const FIRST: (Field, Intervals) = (Field::Fragment, &[(0, 0)]);

const TCP: (Field, Intervals) = (Field::Protocol, &[(6, 6)]);

const UDP: (Field, Intervals) = (Field::Protocol, &[(17, 17)]);

const ICMP: (Field, Intervals) = (Field::Protocol, &[(1, 1)]);

const NO_SOURCE: (Field, Intervals) = (Field::Source, &[]);

// A line, and what it allows on the fields on which it doesn't allow all numbers.
type Row = (&'static str, &'static [(Field, Intervals)]);

const BOXES: &[Row] = &[
    ("", &[]),
    ("-j LOG", &[]),
    ("-m comment --comment x -j DROP", &[]),
    (
        "-s 10.1.2.3/8 -j ACCEPT",
        &[(Field::Source, &[(167772160, 184549375)])],
    ),
    ("-s 0.0.0.0/0", &[]),
    ("! -s 0.0.0.0/0", &[NO_SOURCE]),
    (
        "! -s 10.0.0.0/8",
        &[(Field::Source, &[(0, 167772159), (184549376, 4294967295)])],
    ),
    (
        "-d 255.255.255.255 -j DROP",
        &[(Field::Destination, &[(4294967295, 4294967295)])],
    ),
    (
        "! -d 255.255.255.255",
        &[(Field::Destination, &[(0, 4294967294)])],
    ),
    ("-i eth+ -j DROP", &[(Field::InIface, &[(ETH, ETI - 1)])]),
    (
        "! -i eth+",
        &[(Field::InIface, &[(0, ETH - 1), (ETI, TOP)])],
    ),
    ("-i +", &[]),
    ("! -i +", &[(Field::InIface, &[])]),
    ("-o eth0", &[(Field::OutIface, &[(ETH0, ETH0)])]),
    (
        "! -o eth0",
        &[(Field::OutIface, &[(0, ETH0 - 1), (ETH0 + 1, TOP)])],
    ),
    ("-p tcp", &[TCP]),
    ("! -p tcp", &[(Field::Protocol, &[(0, 5), (7, 255)])]),
    ("-p all", &[]),
    ("-f", &[(Field::Fragment, &[(1, 1)])]),
    ("! -f", &[FIRST]),
    ("-p tcp -m tcp", &[TCP, FIRST]),
    ("-p tcp -m tcp -f", &[TCP, (Field::Fragment, &[])]),
    ("-p tcp -m tcp ! -f", &[TCP, FIRST]),
    (
        "-p tcp --dport 22 -j DROP",
        &[TCP, FIRST, (Field::DestinationPort, &[(22, 22)])],
    ),
    (
        "-p tcp ! --dport 80 -j DROP",
        &[
            TCP,
            FIRST,
            (Field::DestinationPort, &[(0, 79), (81, 65535)]),
        ],
    ),
    (
        "-p udp --sport :53",
        &[UDP, FIRST, (Field::SourcePort, &[(0, 53)])],
    ),
    (
        "-p tcp -m tcp --dport 1:10 -m tcp --dport 5:20",
        &[TCP, FIRST, (Field::DestinationPort, &[(5, 10)])],
    ),
    (
        "-p tcp --syn -j DROP",
        &[
            TCP,
            FIRST,
            (Field::TcpFlags, &[(2, 2), (10, 10), (34, 34), (42, 42)]),
        ],
    ),
    (
        "-p tcp --tcp-flags NONE SYN",
        &[TCP, FIRST, (Field::TcpFlags, &[])],
    ),
    ("-p tcp ! --tcp-flags NONE SYN", &[TCP, FIRST]),
    (
        "-p tcp ! --tcp-flags NONE NONE",
        &[TCP, FIRST, (Field::TcpFlags, &[])],
    ),
    (
        "-p icmp --icmp-type ping -j REJECT",
        &[ICMP, FIRST, (Field::IcmpType, &[(2048, 2303)])],
    ),
    (
        "-p icmp --icmp-type host-unreachable",
        &[ICMP, FIRST, (Field::IcmpType, &[(769, 769)])],
    ),
    ("-p icmp -m icmp", &[ICMP, FIRST]),
    (
        "-p icmp ! --icmp-type any",
        &[ICMP, FIRST, (Field::IcmpType, &[])],
    ),
    (
        "-p tcp -m multiport --dports 80,22,100:110",
        &[
            TCP,
            FIRST,
            (Field::DestinationPort, &[(22, 22), (80, 80), (100, 110)]),
        ],
    ),
    (
        "-p tcp -m multiport --dports 22,23",
        &[TCP, FIRST, (Field::DestinationPort, &[(22, 23)])],
    ),
    ("-p tcp -m multiport --dports 0:65535", &[TCP, FIRST]),
    (
        "-p udp -m multiport ! --sports 1:10,5",
        &[UDP, FIRST, (Field::SourcePort, &[(0, 0), (11, 65535)])],
    ),
    (
        "-p tcp -m multiport --dports 20:30 ! --dport 25",
        &[TCP, FIRST, (Field::DestinationPort, &[(20, 24), (26, 30)])],
    ),
    (
        "-m iprange --src-range 10.0.0.9-10.0.0.1 -j DROP",
        &[NO_SOURCE],
    ),
    ("-m iprange ! --src-range 10.0.0.9-10.0.0.1", &[]),
    (
        "-m iprange --dst-range 0.0.0.1-0.0.1.0",
        &[(Field::Destination, &[(1, 256)])],
    ),
    (
        "-s 10.0.0.0/8 -m iprange --src-range 9.255.255.255-10.0.0.5",
        &[(Field::Source, &[(167772160, 167772165)])],
    ),
    (
        "-p 6 -m state --state established,NEW -j ACCEPT",
        &[TCP, (Field::ConnectionState, &[(2, 5), (10, 13)])],
    ),
    (
        "-m state --state UNTRACKED",
        &[(Field::ConnectionState, &[(1, 1)])],
    ),
    (
        "-m conntrack ! --ctstate INVALID,UNTRACKED",
        &[(Field::ConnectionState, &[(2, 13)])],
    ),
    (
        "-m conntrack --ctstate RELATED,DNAT",
        &[(Field::ConnectionState, &[(4, 9), (12, 13)])],
    ),
    (
        "-m conntrack --ctstate SNAT",
        &[(
            Field::ConnectionState,
            &[(3, 3), (5, 5), (7, 7), (9, 9), (11, 11), (13, 13)],
        )],
    ),
];

// The same of rules that ask both ports together, which no field shows.
const BOTH_PORTS: &[Row] = &[
    ("-p tcp -m multiport --ports 22", &[TCP, FIRST]),
    ("-p tcp -m multiport ! --ports 22", &[TCP, FIRST]),
    ("-p udp -m multiport --ports 0:65535", &[UDP, FIRST]),
    ("-p udp -m multiport ! --ports 0:65535", &[UDP, FIRST]),
    (
        "-p tcp -m multiport --ports 22 -m multiport ! --ports 80 -m multiport --ports 1:1023",
        &[TCP, FIRST],
    ),
    (
        "-p tcp -m multiport --ports 22 -f",
        &[TCP, (Field::Fragment, &[])],
    ),
    (
        "-p tcp -m multiport --ports 22 ! --dport 80",
        &[
            TCP,
            FIRST,
            (Field::DestinationPort, &[(0, 79), (81, 65535)]),
        ],
    ),
    (
        "-p tcp -m multiport ! --sports 22 -m multiport --ports 1,2",
        &[TCP, FIRST, (Field::SourcePort, &[(0, 21), (23, 65535)])],
    ),
];

// The same of rules that ask the time to live.
const LIVES: &[Row] = &[
    ("-m ttl --ttl-eq 0", &[(Field::TimeToLive, &[(0, 0)])]),
    ("-m ttl --ttl-eq 64", &[(Field::TimeToLive, &[(64, 64)])]),
    ("-m ttl --ttl-eq 255", &[(Field::TimeToLive, &[(255, 255)])]),
    ("-m ttl ! --ttl-eq 0", &[(Field::TimeToLive, &[(1, 255)])]),
    (
        "-m ttl ! --ttl-eq 64",
        &[(Field::TimeToLive, &[(0, 63), (65, 255)])],
    ),
    ("-m ttl ! --ttl-eq 255", &[(Field::TimeToLive, &[(0, 254)])]),
    ("-m ttl --ttl-lt 0", &[(Field::TimeToLive, &[])]),
    ("-m ttl --ttl-lt 1", &[(Field::TimeToLive, &[(0, 0)])]),
    ("-m ttl --ttl-lt 5", &[(Field::TimeToLive, &[(0, 4)])]),
    ("-m ttl --ttl-lt 255", &[(Field::TimeToLive, &[(0, 254)])]),
    ("-m ttl --ttl-gt 0", &[(Field::TimeToLive, &[(1, 255)])]),
    ("-m ttl --ttl-gt 64", &[(Field::TimeToLive, &[(65, 255)])]),
    ("-m ttl --ttl-gt 254", &[(Field::TimeToLive, &[(255, 255)])]),
    ("-m ttl --ttl-gt 255", &[(Field::TimeToLive, &[])]),
    (
        "-m ttl --ttl-gt 4 -m ttl --ttl-lt 9",
        &[(Field::TimeToLive, &[(5, 8)])],
    ),
    (
        "-m ttl --ttl-lt 4 -m ttl --ttl-gt 9",
        &[(Field::TimeToLive, &[])],
    ),
    (
        "-m ttl ! --ttl-eq 5 -m ttl --ttl-lt 7",
        &[(Field::TimeToLive, &[(0, 4), (6, 6)])],
    ),
    (
        "-m ttl --ttl-eq 7 -m ttl --ttl-eq 8",
        &[(Field::TimeToLive, &[])],
    ),
    (
        "-f -m ttl --ttl-lt 5",
        &[(Field::Fragment, &[(1, 1)]), (Field::TimeToLive, &[(0, 4)])],
    ),
    (
        "! -p tcp -m ttl --ttl-eq 1 -j DROP",
        &[
            (Field::Protocol, &[(0, 5), (7, 255)]),
            (Field::TimeToLive, &[(1, 1)]),
        ],
    ),
];

// Whether the set has these intervals.
fn are(found: &[Interval], wanted: &[(u128, u128)]) -> bool {
    found.len() == wanted.len()
        && found.iter().zip(wanted).all(|(one, (first, last))| one.first == *first
            && one.last == *last)
}

// Whether the set has what is asked on the field, or all numbers up to the top where nothing is.
fn is_asked(set: &Spans, field: Field, top: u128, asked: &[(Field, Intervals)]) -> bool {
    match asked.iter().find(|(other, _)| *other == field) {
        Some((_, intervals)) => are(set.intervals(), intervals),
        None => are(set.intervals(), &[(0, top)]),
    }
}

// Whether the box allows these numbers, and all numbers of the other fields.
fn allows(boxed: &Boxed, asked: &[(Field, Intervals)]) -> bool {
    boxed.spans().len() == TOPS.len()
        && TOPS
            .iter()
            .zip(boxed.spans())
            .all(|((field, top), set)| is_asked(set, *field, *top, asked))
}

fn box_of(alloc: Global, line: &str, work: &mut Work) -> Result<Boxed, Fail> {
    let rule = read(alloc, line)?;
    Ok(Boxed::of(alloc, &rule, work)?)
}

// Compares the boxes of some lines, each of which is made once.
fn are_boxed(rt: &impl Abort, alloc: Global, rows: &[Row]) -> Result<(), Fail> {
    let mut work = Work::new();
    for (line, asked) in rows {
        let boxed = box_of(alloc, line, &mut work)?;
        assert!(rt; allows(&boxed, asked), "{line}");
    }
    assert!(rt; work.boxes() == rows.len() as u64);
    Ok(())
}

#[test]
fn boxes_have_what_rules_allow(rt: HostRuntime) -> Result<(), Fail> {
    are_boxed(&rt, rt.alloc(), BOXES)?;
    are_boxed(&rt, rt.alloc(), BOTH_PORTS)?;
    are_boxed(&rt, rt.alloc(), LIVES)
}
