//! A text as a user would write it, of one number, or where that is shorter than the first and the last number. The
//! caller reads it back, and takes the plain text where it stands for other numbers.
ghost use Rattle.std.specs.Prelude.{◌≡◌, ◌-◌, ◌≤◌, ◌<◌, ◌^◌, ◌++◌, true, IfOk, OnOk};
ghost use Rattle.std.specs.Int.{w32, leading_zeros};
ghost use Rattle.notation.specs.IntervalText.{IsPart, has_ranges};
ghost use Rattle.notation.specs.steps.UsualText.{addresses_text, interfaces_text, types_text, usual_text};

use crate::plain::{has_ranges, plain_text};
use crate::values::{put_number, put_value};
use fields::{Field, Interval};
use std::alloc::{AllocError, Global};

// The length of the prefix that has just these addresses, if one has: all numbers up to their distance leave as many
// bits at 0.
fn prefix_length(span: &Interval) -> u32
    requires ordered { span.now.first ≤ span.now.last }
    requires within { span.now.last < 2 ^ 32 }
    ensures { result ≡ leading_zeros w32 (span.now.last - span.now.first) }
{
    ((span.last - span.first) as u32).leading_zeros()
}

// One address, or the first of a prefix and its length.
fn put_addresses(text: &mut Vec<u8>, span: &Interval) -> Result<(), AllocError>
    requires ordered { span.now.first ≤ span.now.last }
    requires within { span.now.last < 2 ^ 32 }
    ensures { OnOk result (text.new.items ≡ text.old.items ++ addresses_text span.now) }
{
    put_value(text, Field::Source, span.first)?;
    if span.first == span.last {
        return Ok(());
    }
    text.push(b'/')?;
    put_number(text, prefix_length(span))
}

// `none` for a missing interface, one interface, or all names with one beginning.
fn put_interfaces(text: &mut Vec<u8>, span: &Interval) -> Result<(), AllocError>
    requires { span.now.first < 2 ^ 128 }
    ensures { OnOk result (text.new.items ≡ text.old.items ++ interfaces_text span.now) }
{
    if span.last == 0 {
        return text.extend_from_slice(b"none");
    }
    put_value(text, Field::InIface, span.first)?;
    if span.last != span.first {
        text.push(b'+')?;
    }
    Ok(())
}

// One ICMP type with one code, or a type with all its codes.
fn put_types(text: &mut Vec<u8>, span: &Interval) -> Result<(), AllocError>
    requires { span.now.first ≤ 65535 }
    ensures { OnOk result (text.new.items ≡ text.old.items ++ types_text span.now) }
{
    if span.first == span.last {
        return put_value(text, Field::IcmpType, span.first);
    }
    put_number(text, (span.first / 256) as u32)
}

// Writes the usual text of an interval, other than of flags and states.
#[tactic(auto, unfolding(crate::specs::steps::UsualText::usual_text))]
fn put_usual(text: &mut Vec<u8>, field: Field, span: &Interval) -> Result<(), AllocError>
    requires part { IsPart field span.now }
    requires ranges { has_ranges field ≡ true }
    ensures { OnOk result (text.new.items ≡ text.old.items ++ usual_text field span.now) }
{
    match field {
        Field::Source | Field::Destination => put_addresses(text, span),
        Field::InIface | Field::OutIface => put_interfaces(text, span),
        Field::IcmpType => put_types(text, span),
        _ => put_value(text, field, span.first),
    }
}

/// One number, a prefix, all names with one beginning, a type with all its codes; of flags and states the plain text.
#[tactic(auto, unfolding(crate::specs::steps::UsualText::usual_text))]
pub(crate) fn usual_text(
    alloc: Global,
    field: Field,
    span: &Interval,
) -> Result<Vec<u8>, AllocError>
    requires { IsPart field span.now }
    ensures { IfOk result (λ text. text.items ≡ usual_text field span.now) }
{
    if !has_ranges(field) {
        return plain_text(alloc, field, span);
    }
    let mut text = Vec::new(alloc);
    put_usual(&mut text, field, span)?;
    Ok(text)
}
