//! The plain text of an interval, which always reads back as its numbers: both ends with a mark between them; of flags and states one number, or
//! a state with all its translations.
ghost use Rattle.std.specs.Prelude.{◌≡◌, ◌≤◌, ◌<◌, ◌++◌, ◌∷◌, flat_map, OnOk, IfOk};
ghost use Rattle.fields.specs.numbers.Field.{top};
ghost use Rattle.notation.specs.IntervalText.{IsPart, digit_byte, digits_of, end_text, has_ranges, hexadecimal_text, mark_of, one_text, plain_mark, plain_text, plus_for, with_plus};
ghost use Rattle.notation.specs.SetText.{IsRangeText};
ghost use Rattle.notation.specs.ValueText.{value_text};

use crate::values::put_value;
use fields::{Field, Interval};
use std::alloc::{AllocError, Global};

// A digit of base 16.
fn digit(value: u8) -> u8
    requires { value < 16 }
    ensures { result ≡ digit_byte value }
{
    if value < 10 {
        b'0' + value
    } else {
        b'a' - 10 + value
    }
}

// Writes the two digits of each of some bytes.
fn put_digits(text: &mut Vec<u8>, bytes: &[u8]) -> Result<(), AllocError>
    ensures { OnOk result (text.new.items ≡ text.old.items ++ flat_map digits_of bytes.now) }
{
    for byte in bytes {
        text.push(digit(*byte / 16))?;
        text.push(digit(*byte % 16))?;
    }
    Ok(())
}

// Writes a number by 32 digits.
fn put_hexadecimal(text: &mut Vec<u8>, number: u128) -> Result<(), AllocError>
    ensures { OnOk result (text.new.items ≡ text.old.items ++ hexadecimal_text number) }
{
    put_digits(text, &number.to_be_bytes())
}

// A plus sign for a comma, else the same byte.
fn plus_for(byte: u8) -> u8
    ensures { result ≡ plus_for byte }
{
    if byte == b',' { b'+' } else { byte }
}

// Writes names with plus signs for the commas that join them.
fn put_with_plus(text: &mut Vec<u8>, names: &[u8]) -> Result<(), AllocError>
    ensures { OnOk result (text.new.items ≡ text.old.items ++ with_plus names.now) }
{
    for byte in names {
        text.push(plus_for(*byte))?;
    }
    Ok(())
}

// Writes the names of a number, with plus signs between them.
fn put_joined(text: &mut Vec<u8>, field: Field, number: u128) -> Result<(), AllocError>
    requires { number ≤ top field }
    ensures { OnOk result (text.new.items ≡ text.old.items ++ with_plus (value_text field number)) }
{
    let mut names = Vec::new(*text.allocator());
    put_value(&mut names, field, number)?;
    put_with_plus(text, names.as_slice())
}

// Writes what stands behind a state without a translation that could have one.
fn put_plain_mark(text: &mut Vec<u8>, number: u128) -> Result<(), AllocError>
    ensures { OnOk result (text.new.items ≡ text.old.items ++ plain_mark number) }
{
    if number == 2 || number == 6 || number == 10 {
        return text.extend_from_slice(b"+PLAIN");
    }
    Ok(())
}

// Writes an end of an interval.
fn put_end(text: &mut Vec<u8>, field: Field, number: u128) -> Result<(), AllocError>
    requires { number ≤ top field }
    ensures { OnOk result (text.new.items ≡ text.old.items ++ end_text field number) }
{
    match field {
        Field::InIface | Field::OutIface => put_hexadecimal(text, number),
        Field::TcpFlags => put_joined(text, field, number),
        Field::ConnectionState => {
            put_joined(text, field, number)?;
            put_plain_mark(text, number)
        }
        _ => put_value(text, field, number),
    }
}

// Writes one number or, of a state with all its translations, its name.
fn put_one(text: &mut Vec<u8>, field: Field, span: &Interval) -> Result<(), AllocError>
    requires { span.now.first ≤ top field }
    ensures { OnOk result (text.new.items ≡ text.old.items ++ one_text field span.now) }
{
    if span.first == span.last {
        return put_end(text, field, span.first);
    }
    put_value(text, field, span.first)
}

// Writes both ends with a mark between them.
fn put_ends(text: &mut Vec<u8>, field: Field, span: &Interval) -> Result<(), AllocError>
    requires first { span.now.first ≤ top field }
    requires last { span.now.last ≤ top field }
    ensures { OnOk result (text.new.items ≡ text.old.items ++ (end_text field span.now.first ++ mark_of field ∷ end_text field span.now.last)) }
{
    put_end(text, field, span.first)?;
    text.push(mark(field))?;
    put_end(text, field, span.last)
}

// What stands between the two ends.
fn mark(field: Field) -> u8
    ensures { result ≡ mark_of field }
{
    match field {
        Field::Source | Field::Destination | Field::InIface | Field::OutIface | Field::IcmpType =>
            b'-',
        _ => b':',
    }
}

/// Whether a text may stand for several numbers on a field.
pub(crate) fn has_ranges(field: Field) -> bool
    ensures { result ≡ has_ranges field }
{
    !matches!(field, Field::TcpFlags | Field::ConnectionState)
}

/// Both ends of an interval; of flags and states one number, or a state with all its translations.
pub(crate) fn plain_text(
    alloc: Global,
    field: Field,
    span: &Interval,
) -> Result<Vec<u8>, AllocError>
    requires { IsPart field span.now }
    ensures written { IfOk result (λ text. text.items ≡ plain_text field span.now) }
    ensures reads_back { IfOk result (λ text. IsRangeText field text.items span.now) }
{
    let mut text = Vec::new(alloc);
    if has_ranges(field) {
        put_ends(&mut text, field, span)?;
    } else {
        put_one(&mut text, field, span)?;
    }
    Ok(text)
}
