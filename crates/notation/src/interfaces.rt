//! Interfaces as text: `none`, a name, a beginning of names with `+`, or two numbers of 32 hexadecimal digits.
ghost use Rattle.std.specs.Prelude.{◌≡◌, ◌<◌, ◌≤◌, nat_lt, length, slice_index, Some, IfSome};
ghost use Rattle.fields.specs.values.Interface.{interface_of, filled, bytes_value, is_open, interface_interval};
ghost use Rattle.notation.specs.Range.{between, ends_at, digit_of, digits_from, hexadecimal_of, interfaces_in};

use fields::{IfPattern, cut_at};

// A number with one digit of base 16 more would have more than 128 bits from here on.
const TOO_LARGE: u128 = 0x1000_0000_0000_0000_0000_0000_0000_0000;

// A byte of these 16: the bytes, and a filling after them.
fn filled_byte(bytes: &[u8], fill: u8, place: usize) -> u8
    requires { place < 16 }
    ensures { result ≡ slice_index (filled fill bytes.now) place }
{
    if place < bytes.len() {
        bytes[place]
    } else {
        fill
    }
}

// The number of those 16 bytes.
fn filled_value(bytes: &[u8], fill: u8) -> u128
    requires { length bytes.now ≤ 16 }
    ensures { result ≡ bytes_value (filled fill bytes.now) }
{
    let mut value = 0u128;
    for place in 0..16 {
        value = value * 256 + u128::from(filled_byte(bytes, fill, place));
    }
    value
}

// Whether a pattern ends in `+`.
fn is_open(pattern: &[u8]) -> bool
    ensures { result ≡ is_open pattern.now }
{
    !pattern.is_empty() && pattern[pattern.len() - 1] == b'+'
}

// The first and the last number of which a pattern holds.
#[tactic(auto, unfolding(fields::specs::values::Interface::interface_interval))]
fn pattern_range(pattern: &[u8]) -> (u128, u128)
    requires few { length pattern.now ≤ 15 }
    requires reads { interface_of pattern.now ≡ Some pattern.now }
    ensures { result ≡ interface_interval pattern.now }
{
    if is_open(pattern) {
        let stem = &pattern[..pattern.len() - 1];
        (filled_value(stem, 0), filled_value(stem, 255))
    } else {
        let value = filled_value(pattern, 0);
        (value, value)
    }
}

fn digit(byte: u8) -> Option<u8>
    ensures value { result ≡ digit_of byte }
    ensures small { IfSome result (λ n. n < 16) }
{
    match byte {
        b'0'..=b'9' => Some(byte - b'0'),
        b'a'..=b'f' => Some(byte - b'a' + 10),
        _ => None,
    }
}

// Whether a number stays within 128 bits with one digit of base 16 more.
fn has_room(number: u128) -> bool
    ensures { result ≡ nat_lt number 21267647932558653966460912964485513216 }
{
    number < TOO_LARGE
}

fn digits_value(text: &[u8]) -> Option<u128>
    ensures { result ≡ digits_from 0 text.now }
{
    let mut value = 0u128;
    for byte in text {
        if !has_room(value) {
            return None;
        }
        let digit = digit(*byte)?;
        value = value * 16 + u128::from(digit);
    }
    Some(value)
}

#[tactic(auto, unfolding(crate::specs::Range::hexadecimal_of))]
fn hexadecimal(text: &[u8]) -> Option<u128>
    ensures { result ≡ hexadecimal_of text.now }
{
    if text.len() == 32 {
        digits_value(text)
    } else {
        None
    }
}

// Two numbers with a dash, or one.
fn two_numbers(text: &[u8]) -> Option<(u128, u128)>
    ensures { result ≡ ends_at 45 hexadecimal_of text.now }
{
    match cut_at(text, b'-') {
        Some((first, last)) => {
            let first = hexadecimal(first)?;
            let last = hexadecimal(last)?;
            if first <= last {
                Some((first, last))
            } else {
                None
            }
        }
        None => {
            let number = hexadecimal(text)?;
            Some((number, number))
        }
    }
}

/// The interfaces of `none`, `eth0` or `eth+`, or two numbers of them.
#[tactic(auto, unfolding(crate::specs::Range::interfaces_in))]
pub(crate) fn interfaces(text: &[u8]) -> Option<(u128, u128)>
    ensures { result ≡ interfaces_in text.now }
{
    if text == b"none".as_slice() {
        return Some((0, 0));
    }
    match IfPattern::read(text) {
        Some(pattern) => Some(pattern_range(pattern.bytes())),
        None => two_numbers(text),
    }
}
