//! What rules ask of both ports, of all packets whose ports are in two sets.
use crate::again::{Refusals, again, expect_kept};
use crate::intervals::{Ends, has_just};
use crate::trouble::{Trouble, expect};
use crate::written::{has_text, rule_of};
use fields::{Field, Spans};
use rules::{Crossing, Rule, cross_ports};
use std::alloc::{AllocError, Global};

/// The first port and the last.
type Ports = (u16, u16);

/// What is said, and by which ports the packets can be parted.
#[derive(Clone, Copy)]
enum Said {
    Holds,
    Fails,
    BySource(&'static [Ends]),
    ByDestination(&'static [Ends]),
}

/// The source ports, the destination ports, and what is said of them.
type Row = (Ports, Ports, Said);

const ALL: Ports = (0, 65535);

/// Rules with their texts, and what is said of ports.
const RULES: &[(&[u8], &[u8], &[Row])] = &[
    (
        b"-p udp -m multiport --ports 53,67:68 -j DROP",
        b" -p udp -m multiport --ports 53,67:68 -j DROP",
        &[
            ((53, 53), ALL, Said::Holds),
            (ALL, (67, 68), Said::Holds),
            ((69, 65535), (54, 66), Said::Fails),
            ((50, 65535), (54, 66), Said::BySource(&[(53, 53), (67, 68)])),
            ((0, 52), ALL, Said::ByDestination(&[(53, 53), (67, 68)])),
        ],
    ),
    (
        b"-p udp -m multiport ! --ports 53 -j DROP",
        b" -p udp -m multiport ! --ports 53 -j DROP",
        &[
            ((53, 53), ALL, Said::Fails),
            ((54, 65535), (0, 52), Said::Holds),
            (ALL, (0, 52), Said::BySource(&[(53, 53)])),
        ],
    ),
    (
        b"-p tcp -m multiport --ports 22,80 -m multiport ! --ports 80 -j DROP",
        b" -p tcp -m multiport --ports 22,80 -m multiport ! --ports 80 -j DROP",
        &[
            ((22, 22), (81, 90), Said::Holds),
            ((22, 22), (80, 80), Said::Fails),
            ((81, 90), (81, 90), Said::Fails),
            ((22, 22), (79, 90), Said::ByDestination(&[(80, 80)])),
        ],
    ),
    (
        b"-p tcp --dport 22 -j DROP",
        b" -p tcp -m tcp --dport 22 -j DROP",
        &[(ALL, ALL, Said::Holds)],
    ),
];

/// Whether that is what was said.
fn is_said(crossing: &Crossing, said: Said) -> bool {
    match crossing {
        Crossing::Holds => matches!(said, Said::Holds),
        Crossing::Fails => matches!(said, Said::Fails),
        Crossing::BySource(listed) => match said {
            Said::BySource(ends) => has_just(listed, ends),
            _ => false,
        },
        Crossing::ByDestination(listed) => match said {
            Said::ByDestination(ends) => has_just(listed, ends),
            _ => false,
        },
    }
}

/// What is said of a rule.
fn said_of(
    alloc: Global,
    rule: &Rule,
    source: Ports,
    destination: Ports,
) -> Result<Crossing, AllocError> {
    let from = Spans::one(
        alloc,
        Field::SourcePort.top(),
        u128::from(source.0),
        u128::from(source.1),
    )?;
    let to = Spans::one(
        alloc,
        Field::DestinationPort.top(),
        u128::from(destination.0),
        u128::from(destination.1),
    )?;
    cross_ports(alloc, rule, &from, &to)
}

/// Asks it of a rule; a refusal leaves the rule's text.
fn expect_said(
    alloc: Global,
    refusals: &mut Refusals,
    rule: &Rule,
    text: &[u8],
    row: &Row,
) -> Result<(), Trouble> {
    let (source, destination, said) = *row;
    let found = again!(
        refusals,
        said_of(alloc, rule, source, destination),
        has_text(alloc, rule, text)?
    );
    expect(is_said(&found, said))
}

/// `cross_ports`.
pub fn crossed(alloc: Global, refusals: &mut Refusals) -> Result<(), Trouble> {
    for (line, text, rows) in RULES {
        let rule = again!(refusals, rule_of(alloc, line), true);
        for row in *rows {
            expect_said(alloc, refusals, &rule, text, row)?;
        }
    }
    Ok(())
}
