//! The states of a packet's connection.
ghost use Rattle.std.specs.Prelude.{◌≡◌, IfOk};
ghost use Rattle.std.specs.Str.{str_eq_ignore_ascii_case};
ghost use Rattle.fields.specs.values.ConnectionState.{packet_states, packet_state_of};
ghost use Rattle.fields.specs.values.NameList.{number_named};
ghost use Rattle.notation.specs.Range.{if_any, range_named, state_ranges, state_with, states_in};
ghost use Rattle.notation.specs.Rows.{ranges_of, rows_of};

use crate::joined::with_commas;
use fields::cut_at;
use std::alloc::{AllocError, Global};

// The states with their numbers.
static STATES: [(&[u8], u8); 14] = [
    (b"INVALID", 0),
    (b"UNTRACKED", 1),
    (b"NEW", 2),
    (b"NEW,SNAT", 3),
    (b"NEW,DNAT", 4),
    (b"NEW,SNAT,DNAT", 5),
    (b"RELATED", 6),
    (b"RELATED,SNAT", 7),
    (b"RELATED,DNAT", 8),
    (b"RELATED,SNAT,DNAT", 9),
    (b"ESTABLISHED", 10),
    (b"ESTABLISHED,SNAT", 11),
    (b"ESTABLISHED,DNAT", 12),
    (b"ESTABLISHED,SNAT,DNAT", 13),
];

// The states alone, with the first and the last number that each has with its translations.
static RANGES: [(&[u8], u8, u8); 5] = [
    (b"INVALID", 0, 0),
    (b"UNTRACKED", 1, 1),
    (b"NEW", 2, 5),
    (b"RELATED", 6, 9),
    (b"ESTABLISHED", 10, 13),
];

// The rows of that table.
fn ranges() -> &'static [(&'static [u8], u8, u8)]
    ensures { ranges_of result.now ≡ state_ranges }
{
    &RANGES
}

/// The rows of the table, by their numbers.
pub(crate) fn rows() -> &'static [(&'static [u8], u8)]
    ensures { rows_of result.now ≡ packet_states }
{
    &STATES
}

fn is_name(name: &[u8], text: &[u8]) -> bool
    ensures { result ≡ str_eq_ignore_ascii_case name.now text.now }
{
    name.eq_ignore_ascii_case(text)
}

// The number of the first row of this name.
fn number_in(text: &[u8], rows: &[(&[u8], u8)]) -> Option<u8>
    ensures { result ≡ number_named (rows_of rows.now) text.now }
{
    for (name, number) in rows {
        if is_name(name, text) {
            return Some(*number);
        }
    }
    None
}

/// The number of a state, in any mix of upper and lower case.
pub(crate) fn read_state(text: &[u8]) -> Option<u8>
    ensures { result ≡ packet_state_of text.now }
{
    number_in(text, rows())
}

// The numbers of the first state of this name.
fn range_of(text: &[u8], rows: &[(&[u8], u8, u8)]) -> Option<(u128, u128)>
    ensures { result ≡ range_named (ranges_of rows.now) text.now }
{
    for (name, first, last) in rows {
        if is_name(name, text) {
            return Some((u128::from(*first), u128::from(*last)));
        }
    }
    None
}

// The number, as both ends.
fn alone(number: Option<u8>) -> Option<(u128, u128)>
    ensures { result ≡ if_any number }
{
    let number = u128::from(number?);
    Some((number, number))
}

// The number of a state with the translations behind it.
fn with_translations(
    alloc: Global,
    state: &[u8],
    translations: &[u8],
    text: &[u8],
) -> Result<Option<u8>, AllocError>
    ensures { IfOk result (λ number. number ≡ state_with state.now translations.now text.now) }
{
    if is_name(b"PLAIN", translations) {
        return Ok(read_state(state));
    }
    let names = with_commas(alloc, text)?;
    Ok(read_state(names.as_slice()))
}

/// The numbers of `NEW`, `NEW+DNAT`, `NEW+SNAT+DNAT` or `NEW+PLAIN`.
#[tactic(auto, unfolding(crate::specs::Range::states_in))]
pub(crate) fn states(alloc: Global, text: &[u8]) -> Result<Option<(u128, u128)>, AllocError>
    ensures { IfOk result (λ ends. ends ≡ states_in text.now) }
{
    match cut_at(text, b'+') {
        None => Ok(range_of(text, ranges())),
        Some((state, translations)) => {
            let number = with_translations(alloc, state, translations, text)?;
            Ok(alone(number))
        }
    }
}
