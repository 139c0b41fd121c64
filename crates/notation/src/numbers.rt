//! Numbers, addresses, ports and ICMP types, alone or from one to another.
ghost use Rattle.std.specs.Prelude.{◌≡◌, ◌≤◌, ◌+◌, ◌-◌};
ghost use Rattle.fields.specs.values.Icmp.{packet_icmp_of};
ghost use Rattle.notation.specs.Range.{between, ends_at, addresses_in, ports_in, numbers_in, protocols_in, types_in};
ghost use Rattle.fields.specs.values.Prefix.{address_of, block_size};

use fields::{PortRange, Prefix, Protocol, cut_at, read_address, read_number_to};

fn between(first: u32, last: u32) -> Option<(u128, u128)>
    ensures { result ≡ between first last }
{
    if first <= last {
        Some((first.into(), last.into()))
    } else {
        None
    }
}

// One address, or two with a dash.
fn two_addresses(text: &[u8]) -> Option<(u128, u128)>
    ensures { result ≡ ends_at 45 address_of text.now }
{
    match cut_at(text, b'-') {
        Some((first, last)) => between(read_address(first)?, read_address(last)?),
        None => {
            let address = read_address(text)?;
            Some((address.into(), address.into()))
        }
    }
}

// How many addresses beside the first have a prefix of this length.
fn others(length: u8) -> u128
    requires { length ≤ 32 }
    ensures { result ≡ block_size length - 1 }
{
    u128::from((1u64 << (32 - length)) - 1)
}

// The addresses of a prefix.
fn prefix_range(prefix: Prefix) -> (u128, u128)
    ensures { result ≡ (prefix.address, prefix.address + (block_size prefix.length - 1)) }
{
    let first = u128::from(prefix.address());
    (first, first + others(prefix.length()))
}

/// The addresses of `a.b.c.d`, `a.b.c.d/n` or `a.b.c.d-e.f.g.h`.
#[tactic(auto, unfolding(crate::specs::Range::addresses_in))]
pub(crate) fn addresses(text: &[u8]) -> Option<(u128, u128)>
    ensures { result ≡ addresses_in text.now }
{
    match Prefix::read(text) {
        Some(prefix) => Some(prefix_range(prefix)),
        None => two_addresses(text),
    }
}

/// The ports of `a` or `a:b`.
#[tactic(auto, unfolding(crate::specs::Range::ports_in))]
pub(crate) fn ports(text: &[u8]) -> Option<(u128, u128)>
    ensures { result ≡ ports_in text.now }
{
    let range = PortRange::read(text)?;
    Some((range.first().into(), range.last().into()))
}

/// The numbers up to a top of `a` or `a:b`.
#[tactic(auto, unfolding(crate::specs::Range::numbers_in))]
pub(crate) fn numbers(text: &[u8], top: u32) -> Option<(u128, u128)>
    ensures { result ≡ numbers_in top text.now }
{
    match cut_at(text, b':') {
        Some((first, last)) => between(read_number_to(first, top)?, read_number_to(last, top)?),
        None => {
            let number = read_number_to(text, top)?;
            Some((number.into(), number.into()))
        }
    }
}

/// A protocol by its name or number, or the numbers of `a:b`.
#[tactic(auto, unfolding(crate::specs::Range::protocols_in))]
pub(crate) fn protocols(text: &[u8]) -> Option<(u128, u128)>
    ensures { result ≡ protocols_in text.now }
{
    match Protocol::read_one(text) {
        Some(protocol) => Some((protocol.number().into(), protocol.number().into())),
        None => numbers(text, 255),
    }
}

// The number of an ICMP type and code.
#[tactic(auto, unfolding(fields::specs::values::Icmp::packet_icmp_of))]
fn type_and_code(text: &[u8]) -> Option<u32>
    ensures { result ≡ packet_icmp_of text.now }
{
    let (of_type, code) = cut_at(text, b'/')?;
    let of_type = read_number_to(of_type, 255)?;
    let code = read_number_to(code, 255)?;
    Some(of_type * 256 + code)
}

// One type with its code, or two with a dash.
fn two_types(text: &[u8]) -> Option<(u128, u128)>
    ensures { result ≡ ends_at 45 packet_icmp_of text.now }
{
    match cut_at(text, b'-') {
        Some((first, last)) => between(type_and_code(first)?, type_and_code(last)?),
        None => {
            let number = type_and_code(text)?;
            Some((number.into(), number.into()))
        }
    }
}

/// The ICMP types and codes of `3`, `3/1` or `3/0-4/5`.
#[tactic(auto, unfolding(crate::specs::Range::types_in))]
pub(crate) fn types(text: &[u8]) -> Option<(u128, u128)>
    ensures { result ≡ types_in text.now }
{
    match read_number_to(text, 255) {
        Some(number) => Some((u128::from(number) * 256, u128::from(number) * 256 + 255)),
        None => two_types(text),
    }
}
