//! The least number of an interface with a name that a set has.
ghost use Rattle.std.specs.Prelude.{◌≡◌, ◌<◌, ◌≤◌, ◌+◌, ◌^◌, IfSome, MatchOption, if◌then◌else◌};
ghost use Rattle.fields.specs.numbers.Spans.{has, in_span};
ghost use Rattle.fields.specs.values.Interface.{interface_value, is_interface_byte};
ghost use Rattle.questions.specs.steps.Sampled.{FindsNone, HasNoneFrom, IsFound, IsLeast, IsNameByte, IsNamed, IsTail, IsInterfaceNumber};

use fields::{IfPattern, Interval, Spans};

// The names of interfaces that are tried first.
const NAMES: [&[u8]; 2] = [b"eth0", b"eth1"];

// Whether a name can have the byte.
#[tactic(auto, unfolding(fields::specs::values::Interface::interface_of))]
fn is_name_byte(byte: u8) -> bool
    ensures { result ≡ is_interface_byte byte }
{
    IfPattern::read(&[byte]).is_some()
}

// The least byte above another that a name can have.
fn byte_above(byte: u8) -> Option<u8>
    ensures { MatchOption result (HasNoneFrom IsNameByte (byte + 1)) (IsLeast IsNameByte (byte + 1)) }
{
    for next in byte..126 {
        if is_name_byte(next + 1) {
            return Some(next + 1);
        }
    }
    None
}

// What follows a byte, if a name can have the byte.
fn behind(byte: u8, rest: Option<u128>) -> Option<u128>
    ensures { result ≡ (if is_interface_byte byte then rest else None) }
{
    if is_name_byte(byte) { rest } else { None }
}

// The least number, from another one on, of the last bytes of an interface's number, so many after the first of them. The
// first byte stays if a name can have it and there are such bytes from the others on; else it is raised, and zeros follow.
fn tail_from(after: u32, number: u128) -> Option<u128>
    requires after { after ≤ 15 }
    requires fits { number < 256 ^ (after + 1) }
    ensures { MatchOption result (HasNoneFrom (IsTail after) number) (IsLeast (IsTail after) number) }
{
    if number == 0 {
        return Some(0);
    }
    if after == 0 {
        return None;
    }
    let unit = 256u128.pow(after);
    let byte = (number / unit) as u8;
    let rest = tail_from(after - 1, number % unit);
    match behind(byte, rest) {
        Some(rest) => Some(u128::from(byte) * unit + rest),
        None => match byte_above(byte) {
            Some(next) => Some(u128::from(next) * unit),
            None => None,
        },
    }
}

// The least number of an interface from another number on.
fn named_from(number: u128) -> Option<u128>
    ensures { MatchOption result (HasNoneFrom IsInterfaceNumber number) (IsLeast IsInterfaceNumber number) }
{
    tail_from(15, number)
}

// The least number of an interface with a name in an interval.
fn named_within(span: &Interval) -> Option<u128>
    ensures { MatchOption result (FindsNone IsNamed (λ n. in_span n span.now)) (IsFound IsNamed (λ n. in_span n span.now)) }
{
    let Some(number) = named_from(span.first.max(1)) else {
        return None;
    };
    if number <= span.last {
        return Some(number);
    }
    None
}

// The least number of an interface with a name in the first interval that has any.
fn named_in(set: &Spans) -> Option<u128>
    ensures { MatchOption result (FindsNone IsNamed (has set.now.intervals)) (IsFound IsNamed (has set.now.intervals)) }
{
    for span in set.intervals() {
        if let Some(number) = named_within(span) {
            return Some(number);
        }
    }
    None
}

// The number of the interface of this name.
fn number_of(name: &[u8]) -> Option<u128>
    ensures { IfSome result IsInterfaceNumber }
{
    Some(IfPattern::read(name)?.value())
}

// The number of the first of the common interfaces that the set has.
fn common_in(set: &Spans) -> Option<u128>
    ensures { IfSome result (IsFound IsInterfaceNumber (has set.now.intervals)) }
{
    for name in NAMES {
        if let Some(number) = number_of(name)
            && set.has(number)
        {
            return Some(number);
        }
    }
    None
}

// The number of an interface of the set: of one with a name, or of a missing one.
fn other_in(set: &Spans) -> Option<u128>
    ensures { MatchOption result (FindsNone IsInterfaceNumber (has set.now.intervals)) (IsFound IsInterfaceNumber (has set.now.intervals)) }
{
    match named_in(set) {
        Some(number) => Some(number),
        None if set.has(0) => Some(0),
        None => None,
    }
}

// The number of an interface of the set, if it has one: a common one before others.
pub(crate) fn interface_in(set: &Spans) -> Option<u128>
    ensures { MatchOption result (FindsNone IsInterfaceNumber (has set.now.intervals)) (IsFound IsInterfaceNumber (has set.now.intervals)) }
{
    match common_in(set) {
        Some(number) => Some(number),
        None => other_in(set),
    }
}
