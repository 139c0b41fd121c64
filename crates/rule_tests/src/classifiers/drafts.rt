//! What a rule says: its text, and the numbers that it allows on each field.

ghost use Rattle.std.specs.Prelude.{◌<◌};

use fields::Field;
use std::alloc::{AllocError, Global};
use std::fmt::Write;
use std::net::Ipv4Addr;

// How many fields the rules ask.
pub(crate) const ASKED_COUNT: usize = 8;

// The fields that the rules ask.
pub(crate) const ASKED: [Field; ASKED_COUNT] = [
    Field::Source,
    Field::Protocol,
    Field::Fragment,
    Field::DestinationPort,
    Field::TcpFlags,
    Field::IcmpType,
    Field::ConnectionState,
    Field::TimeToLive,
];

// How many numbers of a field are tried: all, or all up to the last at which a rule's answer changes.
pub(crate) fn numbers(field: Field) -> u64
    ensures { 0 < result }
{
    let last: u16 = match field {
        Field::Source => 420,
        Field::DestinationPort => 70,
        Field::IcmpType => 1100,
        Field::Protocol | Field::Fragment | Field::TcpFlags => 255,
        Field::ConnectionState | Field::TimeToLive => 255,
        _ => 0,
    };
    (field.top().min(u128::from(last)) as u64).saturating_add(1)
}

const FLAGS: [&str; 6] = ["FIN", "SYN", "RST", "PSH", "ACK", "URG"];

const STATES: [&str; 5] = ["INVALID", "UNTRACKED", "NEW", "RELATED", "ESTABLISHED"];

// Which times to live are meant: one, all others, those above it, or those below it.
#[derive(Clone, Copy)]
pub(crate) enum Lives {
    Same(u8),
    Others(u8),
    Greater(u8),
    Smaller(u8),
}

// What a rule says.
#[derive(Clone, Copy)]
pub(crate) struct Draft {
    // The first and the last of some addresses, and whether these are meant or all others.
    pub(crate) source: Option<(u16, u16, bool)>,
    // A protocol, and whether it is meant or all others.
    pub(crate) protocol: Option<(u8, bool)>,
    // Whether second and further fragments are meant, or the first ones.
    pub(crate) fragment: Option<bool>,
    // One bit for each destination port below 64, 15 of them at most, and whether these are meant or all others.
    pub(crate) ports: Option<(u64, bool)>,
    // Which flags are looked at, and which of these are set.
    pub(crate) flags: Option<(u8, u8)>,
    // A type, and a code.
    pub(crate) icmp: Option<(u8, Option<u8>)>,
    // One bit for each state, and whether these are meant or all others.
    pub(crate) states: Option<(u8, bool)>,
    // Times to live.
    pub(crate) lives: Option<Lives>,
}

impl Draft {
    // A rule that allows every number of each field.
    pub(crate) const WHOLE: Draft = Draft {
        source: None,
        protocol: None,
        fragment: None,
        ports: None,
        flags: None,
        icmp: None,
        states: None,
        lives: None,
    };
}

fn write_inverted(text: &mut String, meant: bool) -> Result<(), AllocError> {
    text.push_str(if meant { " " } else { " ! " })
}

// Writes the names of the bits that are set, separated by commas.
fn write_names(text: &mut String, names: &[&str], bits: u8) -> Result<(), AllocError> {
    let mut before = ' ';
    for (place, name) in names.iter().enumerate() {
        if place < 8 && bits >> place & 1 == 1 {
            text.push(before)?;
            text.push_str(name)?;
            before = ',';
        }
    }
    if before == ' ' {
        text.push_str(" NONE")?;
    }
    Ok(())
}

// Writes the places of the bits that are set, separated by commas.
fn write_ports(text: &mut String, ports: u64) -> Result<(), AllocError> {
    let mut before = ' ';
    for port in 0..64u32 {
        if ports >> port & 1 == 1 {
            text.push(before)?;
            write!(text, "{port}")?;
            before = ',';
        }
    }
    Ok(())
}

// Writes what a rule asks of the address that a packet comes from.
fn write_source(text: &mut String, draft: &Draft) -> Result<(), AllocError> {
    if let Some((first, last, meant)) = draft.source {
        text.push_str(" -m iprange")?;
        write_inverted(text, meant)?;
        let first = Ipv4Addr::from(u32::from(first));
        let last = Ipv4Addr::from(u32::from(last));
        write!(text, "--src-range {first}-{last}")?;
    }
    Ok(())
}

// Writes what a rule asks of the protocol and of fragments.
fn write_protocol(text: &mut String, draft: &Draft) -> Result<(), AllocError> {
    if let Some((number, meant)) = draft.protocol {
        write_inverted(text, meant)?;
        write!(text, "-p {number}")?;
    }
    if let Some(further) = draft.fragment {
        write_inverted(text, further)?;
        text.push_str("-f")?;
    }
    Ok(())
}

// Writes what a rule asks of that which is its protocol's.
fn write_transport(text: &mut String, draft: &Draft) -> Result<(), AllocError> {
    if let Some((looked, set)) = draft.flags {
        text.push_str(" --tcp-flags")?;
        write_names(text, FLAGS.as_slice(), looked)?;
        write_names(text, FLAGS.as_slice(), set)?;
    }
    if let Some((ports, meant)) = draft.ports {
        text.push_str(" -m multiport")?;
        write_inverted(text, meant)?;
        text.push_str("--dports")?;
        write_ports(text, ports)?;
    }
    match draft.icmp {
        Some((kind, Some(code))) => write!(text, " --icmp-type {kind}/{code}")?,
        Some((kind, None)) => write!(text, " --icmp-type {kind}")?,
        None => {}
    }
    Ok(())
}

// Writes what a rule asks of the connection.
fn write_states(text: &mut String, draft: &Draft) -> Result<(), AllocError> {
    if let Some((states, meant)) = draft.states {
        text.push_str(" -m conntrack")?;
        write_inverted(text, meant)?;
        text.push_str("--ctstate")?;
        write_names(text, STATES.as_slice(), states)?;
    }
    Ok(())
}

// Writes what a rule asks of the time to live.
fn write_lives(text: &mut String, draft: &Draft) -> Result<(), AllocError> {
    match draft.lives {
        Some(Lives::Same(number)) => write!(text, " -m ttl --ttl-eq {number}"),
        Some(Lives::Others(number)) => write!(text, " -m ttl ! --ttl-eq {number}"),
        Some(Lives::Greater(number)) => write!(text, " -m ttl --ttl-gt {number}"),
        Some(Lives::Smaller(number)) => write!(text, " -m ttl --ttl-lt {number}"),
        None => Ok(()),
    }
}

// The rule's text.
pub(crate) fn text_of(alloc: Global, draft: &Draft) -> Result<String, AllocError> {
    let mut text = String::new(alloc);
    write_protocol(&mut text, draft)?;
    write_transport(&mut text, draft)?;
    write_source(&mut text, draft)?;
    write_states(&mut text, draft)?;
    write_lives(&mut text, draft)?;
    text.push_str(" -j DROP")?;
    Ok(text)
}

// The bit of a connection's state: four numbers for each of the last three states, one for the others.
fn state_bit(x: u64) -> u8 {
    match x {
        0 => 1,
        1 => 2,
        2..=5 => 4,
        6..=9 => 8,
        _ => 16,
    }
}

// Whether the rule asks for what a first fragment alone has.
fn asks_header(draft: &Draft) -> bool {
    draft.ports.is_some() || draft.flags.is_some() || draft.icmp.is_some()
}

// Whether the rule's answer could change on a field.
pub(crate) fn asks(draft: &Draft, field: Field) -> bool {
    match field {
        Field::Source => draft.source.is_some(),
        Field::Protocol => draft.protocol.is_some(),
        Field::Fragment => draft.fragment.is_some() || asks_header(draft),
        Field::DestinationPort => draft.ports.is_some(),
        Field::TcpFlags => draft.flags.is_some(),
        Field::IcmpType => draft.icmp.is_some(),
        Field::ConnectionState => draft.states.is_some(),
        Field::TimeToLive => draft.lives.is_some(),
        _ => false,
    }
}

// Whether the rule allows a number on a field.
pub(crate) fn allows(draft: &Draft, field: Field, x: u64) -> bool {
    match field {
        Field::Source => match draft.source {
            Some((first, last, meant)) => (u64::from(first) <= x && x <= u64::from(last)) == meant,
            None => true,
        },
        Field::Protocol => match draft.protocol {
            Some((number, meant)) => (x == u64::from(number)) == meant,
            None => true,
        },
        Field::Fragment => match draft.fragment {
            Some(further) => (x == 1) == further,
            None => x == 0 || !asks_header(draft),
        },
        Field::DestinationPort => match draft.ports {
            Some((ports, meant)) => (x < 64 && ports >> x & 1 == 1) == meant,
            None => true,
        },
        Field::TcpFlags => match draft.flags {
            Some((looked, set)) => x & u64::from(looked) == u64::from(set),
            None => true,
        },
        Field::IcmpType => match draft.icmp {
            Some((kind, Some(code))) => x / 256 == u64::from(kind) && x % 256 == u64::from(code),
            Some((kind, None)) => x / 256 == u64::from(kind),
            None => true,
        },
        Field::ConnectionState => match draft.states {
            Some((states, meant)) => (states & state_bit(x) != 0) == meant,
            None => true,
        },
        Field::TimeToLive => match draft.lives {
            Some(Lives::Same(number)) => x == u64::from(number),
            Some(Lives::Others(number)) => x != u64::from(number),
            Some(Lives::Greater(number)) => u64::from(number) < x,
            Some(Lives::Smaller(number)) => x < u64::from(number),
            None => true,
        },
        _ => true,
    }
}
