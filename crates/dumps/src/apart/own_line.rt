//! The own line: the own words of a line as text.
ghost use Rattle.std.specs.Prelude.{◌≡◌, ◌++◌, ◌∷◌, not, true, map, IfOk, flat_map};
ghost use Rattle.fields.specs.text.WordSlice.{words_in};
ghost use Rattle.std.specs.List.{list_all};
ghost use Rattle.fields.specs.text.Words.{is_bare};
ghost use Rattle.dumps.specs.Own.{numbered, all_numbered, given_value, given_words, own_words, own_part_words, stands_bare, escaped, in_quotes, spelled, line_of};
ghost use Rattle.dumps.specs.Views.{table_in, names_in, part_in, parts_of};

use crate::apart::own::{is_own, is_separator};
use crate::apart::part::Part;
use crate::apart::taking::decides;
use crate::options::row::Role;
use crate::options::table::{NameRow, OptionTable, number_of};
use std::alloc::{AllocError, Global};

// Whether a byte may stand in a word without quotes.
fn is_bare(byte: u8) -> bool
    ensures { result ≡ is_bare byte }
{
    byte != b' ' && byte != b'\t' && byte != b'"' && byte != b'\n'
}

fn are_bare(word: &[u8]) -> bool
    ensures { result ≡ list_all is_bare word.now }
{
    word.iter().all(|byte| is_bare(*byte))
}

// Whether a word may stand without quotes.
fn stands_bare(word: &[u8]) -> bool
    ensures { result ≡ stands_bare word.now }
{
    !word.is_empty() && are_bare(word)
}

// Appends a byte as it stands between quotes.
fn append_escaped(line: &mut Vec<u8>, byte: u8) -> Result<(), AllocError>
    ensures { IfOk result (λ _. line.new.items ≡ line.old.items ++ escaped byte) }
{
    if byte == b'"' || byte == b'\\' {
        return line.extend_from_slice(&[b'\\', byte]);
    }
    line.push(byte)?;
    Ok(())
}

// Appends bytes as they stand between quotes.
fn append_all_escaped(line: &mut Vec<u8>, text: &[u8]) -> Result<(), AllocError>
    ensures { IfOk result (λ _. line.new.items ≡ line.old.items ++ flat_map escaped text.now) }
{
    for byte in text {
        append_escaped(line, *byte)?;
    }
    Ok(())
}

// Appends a text between quotes.
fn append_in_quotes(line: &mut Vec<u8>, text: &[u8]) -> Result<(), AllocError>
    ensures { IfOk result (λ _. line.new.items ≡ line.old.items ++ in_quotes text.now) }
{
    line.push(b'"')?;
    append_all_escaped(line, text)?;
    line.push(b'"')?;
    Ok(())
}

// Appends a word, in quotes where it must be.
pub(crate) fn append_spelled(line: &mut Vec<u8>, word: &[u8]) -> Result<(), AllocError>
    ensures { IfOk result (λ _. line.new.items ≡ line.old.items ++ spelled word.now) }
{
    if stands_bare(word) {
        line.extend_from_slice(word)
    } else {
        append_in_quotes(line, word)
    }
}

// Appends a word, after a blank.
pub(crate) fn append_word(line: &mut Vec<u8>, word: &[u8]) -> Result<(), AllocError>
    ensures { IfOk result (λ _. line.new.items ≡ line.old.items ++ 32 ∷ spelled word.now) }
{
    line.push(b' ')?;
    append_spelled(line, word)
}

// Appends the number of a name, or the text itself.
fn append_numbered(text: &mut Vec<u8>, rows: &[NameRow<'_>], name: &[u8]) -> Result<(), AllocError>
    ensures { IfOk result (λ _. text.new.items ≡ text.old.items ++ numbered (names_in rows.now) name.now) }
{
    match number_of(rows, name) {
        Some(number) => text.extend_from_slice(number),
        None => text.extend_from_slice(name),
    }
}

// A value with the number of each name between `,` and `:`.
fn all_numbered(alloc: Global, rows: &[NameRow<'_>], value: &[u8]) -> Result<Vec<u8>, AllocError>
    ensures { IfOk result (λ text. text.items ≡ all_numbered (names_in rows.now) value.now) }
{
    let mut text = Vec::new(alloc);
    let mut from = 0;
    for (i, byte) in value.iter().enumerate() {
        if is_separator(*byte) {
            append_numbered(&mut text, rows, &value[from..i])?;
            text.push(*byte)?;
            from = i + 1;
        }
    }
    append_numbered(&mut text, rows, &value[from..])?;
    Ok(text)
}

// Appends ports as the program is given them, after a blank.
fn append_ports(line: &mut Vec<u8>, rows: &[NameRow<'_>], value: &[u8]) -> Result<(), AllocError>
    ensures { IfOk result (λ _. line.new.items ≡ line.old.items ++ 32 ∷ spelled (all_numbered (names_in rows.now) value.now)) }
{
    let text = all_numbered(*line.allocator(), rows, value)?;
    append_word(line, text.as_slice())
}

// Appends a type of ICMP so.
fn append_icmp_type(
    line: &mut Vec<u8>,
    rows: &[NameRow<'_>],
    value: &[u8],
) -> Result<(), AllocError>
    ensures { IfOk result (λ _. line.new.items ≡ line.old.items ++ 32 ∷ spelled (numbered (names_in rows.now) value.now)) }
{
    match number_of(rows, value) {
        Some(number) => append_word(line, number),
        None => append_word(line, value),
    }
}

// Appends a value so.
fn append_value(
    line: &mut Vec<u8>,
    table: &OptionTable<'_>,
    role: Role,
    value: &[u8],
) -> Result<(), AllocError>
    ensures { IfOk result (λ _. line.new.items ≡ line.old.items ++ 32 ∷ spelled (given_value (table_in table.now) role value.now)) }
{
    match role {
        Role::Ports => append_ports(line, table.ports, value),
        Role::IcmpType => append_icmp_type(line, table.icmp_types, value),
        Role::Target if decides(table, value) => append_word(line, b"DROP".as_slice()),
        _ => append_word(line, value),
    }
}

// Appends the values of a part so.
fn append_values(
    line: &mut Vec<u8>,
    table: &OptionTable<'_>,
    part: &Part<'_>,
) -> Result<(), AllocError>
    ensures { IfOk result (λ _. line.new.items ≡ line.old.items
        ++ line_of (map (given_value (table_in table.now) part.now.row.role) (words_in part.now.values))) }
{
    let mut rest = part.values;
    while let Some((word, after)) = rest.split_first() {
        append_value(line, table, part.row.role, word)?;
        rest = after;
    }
    Ok(())
}

// Appends the words of a part so.
pub(crate) fn append_part(
    line: &mut Vec<u8>,
    table: &OptionTable<'_>,
    part: &Part<'_>,
) -> Result<(), AllocError>
    ensures { IfOk result (λ _. line.new.items ≡ line.old.items ++ line_of (given_words (table_in table.now) (part_in part.now))) }
{
    if part.inverted {
        append_word(line, b"!".as_slice())?;
    }
    append_word(line, part.option)?;
    append_values(line, table, part)
}

// Appends the words of a part where it is own, before the parts that follow.
fn append_if_own(
    line: &mut Vec<u8>,
    table: &OptionTable<'_>,
    part: &Part<'_>,
    after: &[Part<'_>],
) -> Result<(), AllocError>
    ensures { IfOk result (λ _. line.new.items ≡ line.old.items
        ++ line_of (own_part_words (table_in table.now) (part_in part.now) (parts_of after.now))) }
{
    if is_own(table, part, after) {
        return append_part(line, table, part);
    }
    Ok(())
}

// Appends the own words of a line, each after a blank.
pub(crate) fn append_own(
    line: &mut Vec<u8>,
    table: &OptionTable<'_>,
    parts: &[Part<'_>],
) -> Result<(), AllocError>
    ensures { IfOk result (λ _. line.new.items ≡ line.old.items ++ line_of (own_words (table_in table.now) (parts_of parts.now))) }
{
    for (i, part) in parts.iter().enumerate() {
        append_if_own(line, table, part, &parts[i + 1..])?;
    }
    Ok(())
}
