//! The word of a set of numbers on a field.
ghost use Rattle.std.specs.Prelude.{◌≡◌, ◌≢◌, ◌+◌, ◌-◌, ◌≤◌, ◌==◌, ◌++◌, ◌∷◌, [], ◌||◌, ◌&&◌, ◌↔◌, not, codes, ℕ, List, All, true, IfOk};
ghost use Rattle.std.specs.List.{list_all};
ghost use Rattle.fields.specs.declared.numbers.field.Field.TheVariants.{ConnectionState};
ghost use Rattle.fields.specs.numbers.Field.{name, state_top, top};
ghost use Rattle.fields.specs.numbers.Spans.{has, in_span};
ghost use Rattle.notation.specs.IntervalText.{IsPart, is_one};
ghost use Rattle.notation.specs.Words.{SaysSet};
ghost use Rattle.notation.specs.SetText.{is_plain, IsRangeText, IsPartText, IsListText, IsWordText, one_by_one, parts, span_parts, state_parts};

use crate::plain::plain_text;
use crate::range::read_range;
use crate::usual::usual_text;
use crate::words::is_any;
use fields::{Field, Interval, Spans};
use std::alloc::{AllocError, Global};

fn has_no_comma(text: &[u8]) -> bool
    ensures { result ≡ list_all (λ byte. not (byte == 44)) text.now }
{
    text.iter().all(|byte| *byte != b',')
}

fn is_plain(text: &[u8]) -> bool
    ensures { result ≡ is_plain text.now }
{
    has_no_comma(text) && !is_any(text)
}

// Whether a text reads back as just these numbers, and can stand in a list.
fn is_range_text(
    alloc: Global,
    field: Field,
    text: &[u8],
    span: &Interval,
) -> Result<bool, AllocError>
    ensures { IfOk result (λ is. is ≡ true ↔ IsRangeText field text.now span.now) }
{
    Ok(is_plain(text) && read_range(alloc, field, text)? == Some((span.first, span.last)))
}

// A text that reads back as the numbers of an interval: the usual one, where that does, else the plain one.
fn range_text(alloc: Global, field: Field, span: &Interval) -> Result<Vec<u8>, AllocError>
    requires { IsPart field span.now }
    ensures { IfOk result (λ text. IsPartText field text.items span.now) }
{
    let usual = usual_text(alloc, field, span)?;
    if is_range_text(alloc, field, usual.as_slice(), span)? {
        return Ok(usual);
    }
    let plain = plain_text(alloc, field, span)?;
    Ok(plain)
}

// Adds the text of an interval to a list of others.
fn add_range(
    alloc: Global,
    field: Field,
    span: &Interval,
    list: &mut Vec<u8>,
) -> Result<(), AllocError>
    requires { IsPart field span.now }
    ensures { IfOk result (λ done. (before : List Interval) → before ≢ [] → IsListText field before list.old.items
        → IsListText field (before ++ span.now ∷ []) list.new.items) }
{
    let text = range_text(alloc, field, span)?;
    list.push(b',')?;
    list.extend_from_slice(text.as_slice())?;
    Ok(())
}

// Adds the texts of some intervals to a list of others.
fn add_ranges(
    alloc: Global,
    field: Field,
    spans: &[Interval],
    list: &mut Vec<u8>,
) -> Result<(), AllocError>
    requires { All (IsPart field) spans.now }
    ensures { IfOk result (λ done. (before : List Interval) → before ≢ [] → IsListText field before list.old.items
        → IsListText field (before ++ spans.now) list.new.items) }
{
    for span in spans {
        add_range(alloc, field, span, list)?;
    }
    Ok(())
}

// The texts of some intervals, with a comma between two.
fn list_text(alloc: Global, field: Field, spans: &[Interval]) -> Result<Vec<u8>, AllocError>
    requires { All (IsPart field) spans.now }
    ensures { IfOk result (λ text. IsListText field spans.now text.items) }
{
    let Some((first, rest)) = spans.split_first() else {
        return Ok(Vec::new(alloc));
    };
    let mut list = range_text(alloc, field, first)?;
    add_ranges(alloc, field, rest, &mut list)?;
    Ok(list)
}

// The numbers of an interval, one by one.
fn add_each(field: Field, span: &Interval, parts: &mut Vec<Interval>) -> Result<(), AllocError>
    requires ordered { span.now.first ≤ span.now.last }
    requires within { span.now.last ≤ top field }
    ensures items { IfOk result (λ done. parts.new.items ≡ parts.old.items ++ one_by_one span.now.first (span.now.last + 1 - span.now.first)) }
    ensures members { IfOk result (λ done. (x : ℕ) → has parts.new.items x ≡ (has parts.old.items x || in_span x span.now)) }
    ensures parts { IfOk result (λ done. All (IsPart field) parts.old.items → All (IsPart field) parts.new.items) }
{
    for number in span.first..span.last {
        parts.push(Interval {
            first: number,
            last: number,
        })?;
    }
    parts.push(Interval {
        first: span.last,
        last: span.last,
    })?;
    Ok(())
}

// Adds what an interval has of a state: all its numbers as one part, or those that it has, one by one.
fn add_state(
    span: &Interval,
    first: u128,
    last: u128,
    parts: &mut Vec<Interval>,
) -> Result<(), AllocError>
    requires ordered { first ≤ last }
    requires within { last ≤ state_top }
    requires state { is_one ConnectionState (record { first = first; last = last }) ≡ true }
    ensures items { IfOk result (λ done. parts.new.items ≡ parts.old.items ++ state_parts span.now (first, last)) }
    ensures members { IfOk result (λ done. (x : ℕ) → has parts.new.items x
        ≡ (has parts.old.items x || (in_span x span.now && in_span x (record { first = first; last = last })))) }
    ensures parts { IfOk result (λ done. All (IsPart ConnectionState) parts.old.items → All (IsPart ConnectionState) parts.new.items) }
{
    let own = Interval {
        first: span.first.max(first),
        last: span.last.min(last),
    };
    if own.last < own.first {
        return Ok(());
    }
    if own.first == first && own.last == last {
        parts.push(own)?;
        return Ok(());
    }
    add_each(Field::ConnectionState, &own, parts)
}

// Adds what an interval has of each state: INVALID, UNTRACKED, NEW, RELATED and ESTABLISHED.
fn add_states(span: &Interval, parts: &mut Vec<Interval>) -> Result<(), AllocError>
    ensures items { IfOk result (λ done. parts.new.items ≡ parts.old.items ++ span_parts ConnectionState span.now) }
    ensures members { IfOk result (λ done. (x : ℕ) → x ≤ state_top → has parts.new.items x ≡ (has parts.old.items x || in_span x span.now)) }
    ensures parts { IfOk result (λ done. All (IsPart ConnectionState) parts.old.items → All (IsPart ConnectionState) parts.new.items) }
{
    add_state(span, 0, 0, parts)?;
    add_state(span, 1, 1, parts)?;
    add_state(span, 2, 5, parts)?;
    add_state(span, 6, 9, parts)?;
    add_state(span, 10, 13, parts)
}

// Adds the parts of an interval.
fn add_parts(field: Field, span: &Interval, parts: &mut Vec<Interval>) -> Result<(), AllocError>
    requires ordered { span.now.first ≤ span.now.last }
    requires within { span.now.last ≤ top field }
    ensures items { IfOk result (λ done. parts.new.items ≡ parts.old.items ++ span_parts field span.now) }
    ensures members { IfOk result (λ done. (x : ℕ) → x ≤ top field → has parts.new.items x ≡ (has parts.old.items x || in_span x span.now)) }
    ensures parts { IfOk result (λ done. All (IsPart field) parts.old.items → All (IsPart field) parts.new.items) }
{
    match field {
        Field::TcpFlags => add_each(field, span, parts),
        Field::ConnectionState => add_states(span, parts),
        _ => {
            parts.push(*span)?;
            Ok(())
        }
    }
}

// The parts that a set's list is made of.
fn parts_of(alloc: Global, field: Field, set: &Spans) -> Result<Vec<Interval>, AllocError>
    requires { set.now.top ≡ top field }
    ensures items { IfOk result (λ found. found.items ≡ parts field set.now.intervals) }
    ensures members { IfOk result (λ parts. (x : ℕ) → x ≤ top field → has parts.items x ≡ has set.now.intervals x) }
    ensures parts { IfOk result (λ parts. All (IsPart field) parts.items) }
{
    let mut parts = Vec::new(alloc);
    let spans = set.intervals();
    for span in spans {
        add_parts(field, span, &mut parts)?;
    }
    Ok(parts)
}

// The key of a field, a mark and a list.
fn word_of(alloc: Global, field: Field, mark: &[u8], list: &[u8]) -> Result<Vec<u8>, AllocError>
    ensures { IfOk result (λ text. text.items ≡ name field ++ (mark.now ++ list.now)) }
{
    let mut text = field.name().to_vec(alloc)?;
    text.extend_from_slice(mark)?;
    text.extend_from_slice(list)?;
    Ok(text)
}

/// The word of a set's numbers on a field: `key=any`; or the key, `=` and a list, whose values hold for just the set's numbers, or `!=` and a
/// list, whose values hold for just the others, where that list has fewer values. `PacketWord::read` reads the word as that set, or as one that denies the
/// others. A value is the text that a user would write, as `10.0.0.0/8`, where such a text stands for just the numbers of an interval, and else
/// both ends. The set's top is the field's.
///
/// # Errors
///
/// `AllocError` where memory was refused.
pub fn set_word(alloc: Global, field: Field, set: &Spans) -> Result<Vec<u8>, AllocError>
    requires { set.now.top ≡ top field }
    ensures word { IfOk result (λ text. IsWordText field set.now text.items) }
    ensures reads_back { IfOk result (λ text. (x : ℕ) → x ≤ top field → has set.now.intervals x ≡ true → SaysSet field set.now text.items) }
{
    let others = set.except(alloc)?;
    if others.intervals().is_empty() {
        return word_of(alloc, field, b"=", b"any");
    }
    let out = parts_of(alloc, field, &others)?;
    let within = parts_of(alloc, field, set)?;
    if out.len() >= within.len() {
        let list = list_text(alloc, field, within.as_slice())?;
        return word_of(alloc, field, b"=", list.as_slice());
    }
    let list = list_text(alloc, field, out.as_slice())?;
    word_of(alloc, field, b"!=", list.as_slice())
}
