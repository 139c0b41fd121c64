//! Values: the numbers that they hold of, and those that stand where none is given.
use fields::{IcmpType, IfPattern, IpRange, LogLevel, Name, PortRange, Prefix};
use std::test::Fail;

// The kinds of values whose sets alone a session asks.
#[derive(Clone, Copy)]
enum Kind {
    Prefix,
    Range,
    Interface,
    Icmp,
}

// Whether the value of a text holds of a number, if the text is a value.
fn holds(kind: Kind, text: &[u8], number: u128) -> Option<bool> {
    match kind {
        Kind::Prefix => Some(Prefix::read(text)?.holds(u32::try_from(number).ok()?)),
        Kind::Range => Some(IpRange::read(text)?.holds(u32::try_from(number).ok()?)),
        Kind::Interface => Some(IfPattern::read(text)?.holds(number)),
        Kind::Icmp => Some(IcmpType::read(text)?.holds(u16::try_from(number).ok()?)),
    }
}

// The numbers of `eti` and of `eth0`.
const ETI: u128 = 0x6574_6900_0000_0000_0000_0000_0000_0000;

const ETH0: u128 = 0x6574_6830_0000_0000_0000_0000_0000_0000;

// A text, a number, and whether the value holds of it.
const HELD: &[(Kind, &[u8], u128, bool)] = &[
    (Kind::Prefix, b"10.0.0.0/8", 0x0a09_0909, true),
    (Kind::Prefix, b"10.0.0.0/8", 0x0b00_0001, false),
    (Kind::Prefix, b"10.0.0.0/9", 0x0a80_0000, false),
    (Kind::Prefix, b"1.2.3.4", 0x0102_0304, true),
    (Kind::Prefix, b"1.2.3.4", 0x0102_0305, false),
    (Kind::Prefix, b"0.0.0.0/0", 0xffff_ffff, true),
    (Kind::Range, b"10.0.0.1-10.0.0.9", 0x0a00_0000, false),
    (Kind::Range, b"10.0.0.1-10.0.0.9", 0x0a00_0001, true),
    (Kind::Range, b"10.0.0.1-10.0.0.9", 0x0a00_0009, true),
    (Kind::Range, b"10.0.0.1-10.0.0.9", 0x0a00_000a, false),
    (Kind::Range, b"1.2.3.4", 0x0102_0304, true),
    (Kind::Range, b"1.2.3.4", 0x0102_0305, false),
    (Kind::Range, b"10.0.0.9-10.0.0.1", 0x0a00_0005, false),
    (Kind::Range, b"10.0.0.9-10.0.0.1", 0x0a00_0009, false),
    (Kind::Range, b"0.0.0.0-255.255.255.255", 0xffff_ffff, true),
    (Kind::Interface, b"eth+", ETH0, true),
    (Kind::Interface, b"eth+", ETI, false),
    (Kind::Interface, b"eth0", ETH0, true),
    (Kind::Interface, b"eth0", ETI, false),
    (Kind::Interface, b"+", ETI, true),
    (Kind::Icmp, b"any", 0, true),
    (Kind::Icmp, b"any", 65535, true),
    (Kind::Icmp, b"8", 2047, false),
    (Kind::Icmp, b"8", 2048, true),
    (Kind::Icmp, b"8", 2303, true),
    (Kind::Icmp, b"8", 2304, false),
    (Kind::Icmp, b"8/0", 2048, true),
    (Kind::Icmp, b"8/0", 2049, false),
    (Kind::Icmp, b"254/255", 65279, true),
    (Kind::Icmp, b"254/255", 65535, false),
];

#[test]
fn values_hold_of_numbers(rt: HostRuntime) {
    for (kind, text, number, held) in HELD {
        assert!(rt; holds(*kind, text, *number) == Some(*held));
    }
}

#[test]
fn values_where_none_is_given(rt: HostRuntime) {
    assert!(rt; LogLevel::default().number() == 4);
    assert!(rt; PortRange::default().is_all());
    assert!(rt; Prefix::read(b"1.2.3.4/0") == Some(Prefix::any()));
}

#[test]
fn names_have_an_order(rt: HostRuntime) -> Result<(), Fail> {
    let (upper, lower) = (Name::read(b"Z"), Name::read(b"a"));
    assert!(rt; upper.ok_or("refused")? < lower.ok_or("refused")?);
    Ok(())
}
