//! The own words of a line: those that the program reads.
ghost use Rattle.std.specs.Prelude.{◌≡◌, ◌++◌, ◌∷◌, ◌&&◌, ◌||◌, not, true, map, IfOk, is_some};
ghost use Rattle.std.specs.List.{list_any, list_all};
ghost use Rattle.fields.specs.text.Words.{is_bare};
ghost use Rattle.dumps.specs.Options.{extension_of};
ghost use Rattle.dumps.specs.Own.{numbered, is_separator, all_numbered, has_letter, given_value, reads_value, is_read, begins, is_of, up_to_next, match_stays, target_stays, is_own};
ghost use Rattle.dumps.specs.Views.{table_in, names_in, part_in, parts_of};

use crate::apart::part::Part;
use crate::options::row::{Kind, Role};
use crate::options::table::{NameRow, OptionTable, extension_in, number_of};
use fields::{IcmpType, Protocol};

// Whether a text has a letter.
fn has_letter(text: &[u8]) -> bool
    ensures { result ≡ has_letter text.now }
{
    text.iter().any(|byte| byte.is_ascii_alphabetic())
}

// Whether the number of a name, or the text itself, has a letter.
fn has_letter_numbered(rows: &[NameRow<'_>], text: &[u8]) -> bool
    ensures { result ≡ has_letter (numbered (names_in rows.now) text.now) }
{
    match number_of(rows, text) {
        Some(number) => has_letter(number),
        None => has_letter(text),
    }
}

// Whether a byte stands between two ports.
pub(crate) fn is_separator(byte: u8) -> bool
    ensures { result ≡ is_separator byte }
{
    byte == b',' || byte == b':'
}

// Whether each text between `,` and `:` has no letter, or a number without one.
fn have_numbers(rows: &[NameRow<'_>], value: &[u8]) -> bool
    ensures { result ≡ not (has_letter (all_numbered (names_in rows.now) value.now)) }
{
    let mut from = 0;
    for (i, byte) in value.iter().enumerate() {
        if is_separator(*byte) {
            if has_letter_numbered(rows, &value[from..i]) {
                return false;
            }
            from = i + 1;
        }
    }
    !has_letter_numbered(rows, &value[from..])
}

// Whether a text is a type of ICMP, or may be none for want of a name.
fn reads_icmp_type(text: &[u8]) -> bool
    ensures { result ≡ reads_value Role.IcmpType text.now }
{
    !has_letter(text) || IcmpType::read(text).is_some()
}

// The same of the number of a name, or of the text itself.
fn reads_icmp_name(rows: &[NameRow<'_>], text: &[u8]) -> bool
    ensures { result ≡ reads_value Role.IcmpType (numbered (names_in rows.now) text.now) }
{
    match number_of(rows, text) {
        Some(number) => reads_icmp_type(number),
        None => reads_icmp_type(text),
    }
}

// Whether a text is a protocol, or may be none for want of a name.
fn reads_protocol(text: &[u8]) -> bool
    ensures { result ≡ reads_value Role.Protocol text.now }
{
    !has_letter(text) || Protocol::read(text).is_some()
}

// Whether a part that begins no match and names no target is read by the program.
pub(crate) fn is_read(table: &OptionTable<'_>, part: &Part<'_>) -> bool
    ensures { result ≡ is_read (table_in table.now) (part_in part.now) }
{
    match part.row.role {
        Role::Ports => have_numbers(table.ports, part.value()),
        Role::IcmpType => reads_icmp_name(table.icmp_types, part.value()),
        Role::Protocol => reads_protocol(part.value()),
        Role::Own => true,
        _ => false,
    }
}

// Whether a part is `-m` with this name.
pub(crate) fn begins(name: &[u8], part: &Part<'_>) -> bool
    ensures { result ≡ begins name.now (part_in part.now) }
{
    match part.row.role {
        Role::Match => part.value() == name,
        _ => false,
    }
}

// Whether its option is that of a match or target of this name.
pub(crate) fn is_of(name: &[u8], part: &Part<'_>) -> bool
    ensures { result ≡ is_of name.now (part_in part.now) }
{
    part.row.owner == name
}

// The parts up to where a match of this name is begun again.
pub(crate) fn up_to_next<'b, 'a>(name: &[u8], parts: &'b [Part<'a>]) -> &'b [Part<'a>]
    ensures { parts_of result.now ≡ up_to_next name.now (parts_of parts.now) }
{
    for (i, part) in parts.iter().enumerate() {
        if begins(name, part) {
            return &parts[..i];
        }
    }
    parts
}

// Whether one of the parts is an option of this match.
pub(crate) fn has_part(name: &[u8], parts: &[Part<'_>]) -> bool
    ensures { result ≡ list_any (is_of name.now) (parts_of parts.now) }
{
    for part in parts {
        if is_of(name, part) {
            return true;
        }
    }
    false
}

// Whether the program reads one of its options.
fn has_read(table: &OptionTable<'_>, name: &[u8], parts: &[Part<'_>]) -> bool
    ensures { result ≡ list_any (λ part. is_of name.now part && is_read (table_in table.now) part) (parts_of parts.now) }
{
    for part in parts {
        if is_of(name, part) && is_read(table, part) {
            return true;
        }
    }
    false
}

// Whether `-m` with this match stays, where these of the parts that follow may be its own.
fn match_stays(table: &OptionTable<'_>, name: &[u8], parts: &[Part<'_>]) -> bool
    ensures { result ≡ match_stays (table_in table.now) name.now (parts_of parts.now)
        (extension_of (table_in table.now).extensions name.now) }
{
    match extension_in(table.extensions, name) {
        None => false,
        Some(row) => match row.kind {
            Kind::Known { alone } => {
                alone || !has_part(name, parts) || has_read(table, name, parts)
            }
            _ => false,
        },
    }
}

// Whether `-j` with this target stays.
fn target_stays(table: &OptionTable<'_>, name: &[u8]) -> bool
    ensures { result ≡ target_stays (extension_of (table_in table.now).extensions name.now) }
{
    match extension_in(table.extensions, name) {
        None => true,
        Some(row) => match row.kind {
            Kind::Passes => false,
            _ => true,
        },
    }
}

// Whether a part is the program's own, before the parts that follow.
pub(crate) fn is_own(table: &OptionTable<'_>, part: &Part<'_>, after: &[Part<'_>]) -> bool
    ensures { result ≡ is_own (table_in table.now) (part_in part.now) (parts_of after.now) }
{
    match part.row.role {
        Role::Match => match_stays(table, part.value(), up_to_next(part.value(), after)),
        Role::Target => target_stays(table, part.value()),
        _ => is_read(table, part),
    }
}
