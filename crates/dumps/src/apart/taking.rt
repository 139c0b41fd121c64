//! A line is taken apart, left to right.
ghost use Rattle.std.specs.Prelude.{◌≡◌, ◌∷◌, ◌≤◌, ◌<◌, not, true, codes, List, length, Option, None, option_map, MatchResult, IfSome, IsSome, IfOk, IfErr};
ghost use Rattle.std.specs.Option.{option_or};
ghost use Rattle.fields.specs.text.WordSlice.{words_in};
ghost use Rattle.dumps.specs.Options.{is_match, has_match, has_target, decides, option_of, begins_or_names};
ghost use Rattle.dumps.specs.Parts.{begun_by, implied_by, option_of_begun, newest, option_after, refused_with, value_of, checked, with_values, with_row, after_bang, next_part, IsTakenApart, IsRefused, IsOneWay, IsNeverBoth, IsRefusedOneWay, HasOutcome};
ghost use Rattle.dumps.specs.Views.{table_in, row_in, rows_in, part_in, parts_of, parts_in, refusal_in, refusal_at, PartGives, begun};

use crate::apart::Apart;
use crate::apart::fault::ApartFault;
use crate::apart::part::Part;
use crate::options::row::{Kind, OptionRow, Role};
use crate::options::table::{OptionTable, begun_by_protocol, extension_in, option_in};
use fields::WordSlice;
use std::alloc::Global;

// Whether a kind is that of a match.
pub(crate) fn is_match(kind: Kind) -> bool
    ensures { result ≡ is_match kind }
{
    match kind {
        Kind::Known { .. } | Kind::Foreign(_) => true,
        _ => false,
    }
}

// Whether there is a match of this name.
fn has_match(table: &OptionTable<'_>, name: &[u8]) -> bool
    ensures { result ≡ has_match (table_in table.now) name.now }
{
    match extension_in(table.extensions, name) {
        None => false,
        Some(row) => is_match(row.kind),
    }
}

// Whether there is a target of this name.
pub(crate) fn has_target(table: &OptionTable<'_>, name: &[u8]) -> bool
    ensures { result ≡ has_target (table_in table.now) name.now }
{
    match extension_in(table.extensions, name) {
        None => false,
        Some(row) => !is_match(row.kind),
    }
}

// Whether a target of this name has a verdict of its own, unread.
pub(crate) fn decides(table: &OptionTable<'_>, name: &[u8]) -> bool
    ensures { result ≡ decides (table_in table.now) name.now }
{
    match extension_in(table.extensions, name) {
        None => false,
        Some(row) => match row.kind {
            Kind::Decides { .. } => true,
            _ => false,
        },
    }
}

// The name of the match or target that a part begins.
pub(crate) fn begun_by<'a>(table: &OptionTable<'_>, part: &Part<'a>) -> Option<&'a [u8]>
    ensures { option_map (λ name. name.now) result ≡ begun_by (table_in table.now) (part_in part.now) }
{
    match part.row.role {
        Role::Match => Some(part.value()),
        Role::Target => {
            if has_target(table, part.value()) {
                Some(part.value())
            } else {
                None
            }
        }
        _ => None,
    }
}

// The name of the match that a part begins by its protocol.
fn implied_by<'a>(table: &OptionTable<'a>, part: &Part<'_>) -> Option<&'a [u8]>
    ensures { option_map (λ name. name.now) result ≡ implied_by (table_in table.now) (part_in part.now) }
{
    match part.row.role {
        Role::Protocol => {
            if part.inverted {
                None
            } else {
                begun_by_protocol(table.extensions, part.value())
            }
        }
        _ => None,
    }
}

// How a part begins a match or a target: by its name, or a match by its protocol.
#[derive(Clone, Copy)]
enum Beginning {
    Name,
    Protocol,
}

// The name of what a part begins so.
fn begun<'a>(table: &OptionTable<'a>, part: &Part<'a>, by: Beginning) -> Option<&'a [u8]>
    ensures { option_map (λ name. name.now) result ≡ begun by (table_in table.now) (part_in part.now) }
{
    match by {
        Beginning::Name => begun_by(table, part),
        Beginning::Protocol => implied_by(table, part),
    }
}

// The option of what a part begins so, if it has one that is spelled so.
fn option_begun<'a>(
    table: &OptionTable<'a>,
    part: &Part<'a>,
    spelling: &[u8],
    by: Beginning,
) -> Option<OptionRow<'a>>
    ensures { option_map row_in result ≡ option_of_begun (table_in table.now) spelling.now (begun by (table_in table.now) (part_in part.now)) }
{
    match begun(table, part, by) {
        None => None,
        Some(name) => option_in(table.options, name, spelling),
    }
}

// The option of the newest part that so begins something which has one that is spelled so.
fn newest_option<'a>(
    table: &OptionTable<'a>,
    parts: &[Part<'a>],
    spelling: &[u8],
    by: Beginning,
) -> Option<OptionRow<'a>>
    ensures { option_map row_in result ≡ newest (table_in table.now) (begun by (table_in table.now)) (parts_of parts.now) spelling.now }
{
    let mut found = None;
    for part in parts {
        if let Some(row) = option_begun(table, part, spelling, by) {
            found = Some(row);
        }
    }
    found
}

// The option that is spelled so after these parts.
fn option_after<'a>(
    table: &OptionTable<'a>,
    parts: &[Part<'a>],
    spelling: &[u8],
) -> Option<OptionRow<'a>>
    ensures { option_map row_in result ≡ option_after (table_in table.now) (parts_of parts.now) spelling.now }
{
    if let Some(row) = option_in(table.options, b"".as_slice(), spelling) {
        return Some(row);
    }
    if let Some(row) = newest_option(table, parts, spelling, Beginning::Name) {
        return Some(row);
    }
    newest_option(table, parts, spelling, Beginning::Protocol)
}

// Why a part may not stand anywhere.
fn refused<'a>(table: &OptionTable<'a>, part: &Part<'a>) -> Option<ApartFault<'a>>
    ensures value { refusal_at result ≡ refused_with (table_in table.now) part.now.row.role (value_of (part_in part.now)) }
    ensures memory { IfSome result (λ fault. IsSome (refusal_in fault)) }
{
    match part.row.role {
        Role::Match => {
            if has_match(table, part.value()) {
                None
            } else {
                Some(ApartFault::UnknownMatch(part.value()))
            }
        }
        _ => None,
    }
}

// The part and what follows it, unless it is refused.
fn checked<'a>(
    table: &OptionTable<'a>,
    part: Part<'a>,
    rest: WordSlice<'a>,
) -> Result<(Part<'a>, WordSlice<'a>), ApartFault<'a>>
    ensures gives { PartGives result (checked (table_in table.now) (part_in part.entry) (words_in rest.entry)) }
    ensures after { IfOk result (λ r. words_in r.1 ≡ words_in rest.entry) }
    ensures told { IfErr result (λ fault. IsSome (refusal_in fault)) }
{
    match refused(table, &part) {
        Some(fault) => return Err(fault),
        None => return Ok((part, rest)),
    }
}

// Whether an option begins a match or names a target.
fn begins_or_names(role: Role) -> bool
    ensures { result ≡ begins_or_names role }
{
    match role {
        Role::Match | Role::Target => true,
        _ => false,
    }
}

// The part with an option and the words of its values, and the words after it.
fn with_values<'a>(
    table: &OptionTable<'a>,
    inverted: bool,
    option: &'a [u8],
    row: OptionRow<'a>,
    words: WordSlice<'a>,
) -> Result<(Part<'a>, WordSlice<'a>), ApartFault<'a>>
    ensures gives { PartGives result (with_values (table_in table.now) inverted option.now (row_in row.entry) (words_in words.entry)) }
    ensures shorter { IfOk result (λ r. length (words_in r.1) ≤ length (words_in words.entry)) }
    ensures told { IfErr result (λ fault. IsSome (refusal_in fault)) }
{
    if inverted && begins_or_names(row.role) {
        return Err(ApartFault::InversionNotAllowed(option));
    }
    if words.len() < row.values {
        return Err(ApartFault::ValueMissing(option));
    }
    let (values, rest) = words.split_at(row.values);
    let part = Part {
        inverted,
        option,
        values,
        row,
    };
    checked(table, part, rest)
}

// The part of this option, if there is one.
fn with_row<'a>(
    table: &OptionTable<'a>,
    inverted: bool,
    option: &'a [u8],
    row: Option<OptionRow<'a>>,
    words: WordSlice<'a>,
) -> Result<(Part<'a>, WordSlice<'a>), ApartFault<'a>>
    ensures gives { PartGives result (with_row (table_in table.now) inverted option.now (option_map row_in row.entry) (words_in words.entry)) }
    ensures shorter { IfOk result (λ r. length (words_in r.1) ≤ length (words_in words.entry)) }
    ensures told { IfErr result (λ fault. IsSome (refusal_in fault)) }
{
    match row {
        None => return Err(ApartFault::UnknownOption(option)),
        Some(row) => return with_values(table, inverted, option, row, words),
    }
}

// The part that begins with an option at the front of the words, after `!`.
fn after_bang<'a>(
    table: &OptionTable<'a>,
    parts: &[Part<'a>],
    bang: &'a [u8],
    words: WordSlice<'a>,
) -> Result<(Part<'a>, WordSlice<'a>), ApartFault<'a>>
    requires { bang.now ≡ codes "!" }
    ensures gives { PartGives result (after_bang (table_in table.now) (parts_of parts.now) (words_in words.entry)) }
    ensures shorter { IfOk result (λ r. length (words_in r.1) ≤ length (words_in words.entry)) }
    ensures told { IfErr result (λ fault. IsSome (refusal_in fault)) }
{
    match words.split_first() {
        None => return Err(ApartFault::ValueMissing(bang)),
        Some((option, rest)) => {
            let row = option_after(table, parts, option);
            return with_row(table, true, option, row, rest);
        }
    }
}

// The part that a word begins, with the words after it, and what follows.
#[tactic(auto, unfolding(crate::specs::Parts::next_part))]
fn next_part<'a>(
    table: &OptionTable<'a>,
    parts: &[Part<'a>],
    word: &'a [u8],
    words: WordSlice<'a>,
) -> Result<(Part<'a>, WordSlice<'a>), ApartFault<'a>>
    ensures gives { PartGives result (next_part (table_in table.now) (parts_of parts.now) word.now (words_in words.entry)) }
    ensures shorter { IfOk result (λ r. length (words_in r.1) ≤ length (words_in words.entry)) }
    ensures told { IfErr result (λ fault. IsSome (refusal_in fault)) }
{
    if word == b"!".as_slice() {
        return after_bang(table, parts, word, words);
    }
    let row = option_after(table, parts, word);
    with_row(table, false, word, row, words)
}

/// Takes the words of a line, those after `-A` and the chain, apart (iptables(8), PARAMETERS; iptables-extensions(8)).
///
/// A part is an optional `!`, an option and as many words as its row says, whatever they look like. The option is the
/// rule's own; else that of the newest match or target begun before which has it; else that of the match which the
/// protocol begins by itself. `apart_in_one_way` says that there is no other way.
///
/// # Errors
///
/// The first part that may not stand where it stands, with its word; `NoMemory` where an allocation was refused.
///
/// # Cost
///
/// For each option one pass over the table, and one more for each match and target before it. The parts lie in one
/// `Vec`, and their words stay where they are.
pub fn take_apart<'a>(
    alloc: Global,
    table: &OptionTable<'a>,
    words: WordSlice<'a>,
) -> Result<Apart<'a>, ApartFault<'a>>
    ensures { MatchResult result
        (λ apart. IsTakenApart (table_in table.now) (words_in words.entry) (parts_in apart))
        (λ fault. IfSome (refusal_in fault) (IsRefused (table_in table.now) (words_in words.entry))) }
{
    let mut parts = Vec::new(alloc);
    let mut rest = words;
    while let Some((word, after)) = rest.split_first() {
        let (part, left) = next_part(table, parts.as_slice(), word, after)?;
        match parts.push(part) {
            Ok(()) => {}
            Err(_) => return Err(ApartFault::NoMemory),
        }
        rest = left;
    }
    Ok(Apart { parts })
}

/// The law that a line is taken apart in one way or refused in one way, and never both.
///
/// It does nothing: its contract is the law.
pub fn apart_in_one_way()
    ensures one { IsOneWay }
    ensures never_both { IsNeverBoth }
    ensures refused { IsRefusedOneWay }
    ensures outcome { HasOutcome }
{}
