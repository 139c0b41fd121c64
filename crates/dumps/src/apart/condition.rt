//! The conditions of a line: what its foreign parts ask.
ghost use Rattle.std.specs.Prelude.{ℕ, List, ◌≡◌, ◌++◌, ◌∷◌, [], ◌&&◌, ◌||◌, not, IfOk, filter, flat_map};
ghost use Rattle.dumps.specs.Own.{is_of};
ghost use Rattle.std.specs.List.{list_any};
ghost use Rattle.fields.specs.text.WordSlice.{words_in};
ghost use Rattle.dumps.specs.Parts.{spelled_words};
ghost use Rattle.dumps.specs.Conditions.{asks, asked_thing, counts, lasting_by, is_opposed, turns, holds, is_single, differ, is_inverted, text_words, always_hold, condition_of, unless_always, is_unread, asked_options, asked_as, asked_by, is_there, implied_by, protocol_condition, asked_first, conditions_after, taken_as, conditions};
ghost use Rattle.dumps.specs.Views.{asks_in, extension_in, table_in, texts_in, part_in, parts_of, passes, conditions_in};

use crate::apart::own::{begins, is_of, is_read, up_to_next};
use crate::apart::part::Part;
use crate::apart::target::target_of;
use crate::options::row::{ExtensionRow, Kind, Lasting, Role};
use crate::options::table::{OptionTable, extension_in};
use fields::WordSlice;
use std::alloc::{AllocError, Global};

/// A condition of a rule.
#[derive(Drop)]
pub struct Condition<'a> {
    /// The name of the match, or `protocol`.
    pub name: &'a [u8],
    /// The thing of which it is asked, where an option names one.
    pub thing: Option<&'a [u8]>,
    pub lasting: Lasting,
    /// The words of its text, after the name.
    pub words: Vec<&'a [u8]>,
    /// Whether the rule needs that it doesn't hold.
    pub inverted: bool,
}

// Whether a part asks a condition by itself.
fn asks(part: &Part<'_>) -> bool
    ensures { result ≡ asks (part_in part.now) }
{
    match part.row.role {
        Role::Says | Role::Turns | Role::Sets => false,
        _ => true,
    }
}

// Whether a part turns what its match asks.
fn turns(part: &Part<'_>) -> bool
    ensures { result ≡ turns (part_in part.now) }
{
    match part.row.role {
        Role::Turns => true,
        _ => false,
    }
}

// Whether a part asks after `!` the opposite of what it asks without.
fn is_opposed(part: &Part<'_>) -> bool
    ensures { result ≡ is_opposed (part_in part.now) }
{
    match part.row.role {
        Role::Asks | Role::AsksOf | Role::Holds => true,
        _ => false,
    }
}

// Whether what a part asks always holds.
fn holds(part: &Part<'_>) -> bool
    ensures { result ≡ holds (part_in part.now) }
{
    match part.row.role {
        Role::Holds => true,
        _ => false,
    }
}

// Whether a part asks how often packets before had its match.
fn counts(part: &Part<'_>) -> bool
    ensures { result ≡ counts (part_in part.now) }
{
    match part.row.role {
        Role::Counts => true,
        _ => false,
    }
}

// What a part may be.
#[derive(Clone, Copy)]
enum Test {
    Asks,
    AsksOpposite,
    Turns,
    Holds,
    Counts,
}

// Whether a part is so.
fn passes(test: Test, part: &Part<'_>) -> bool
    ensures { result ≡ passes test (part_in part.now) }
{
    match test {
        Test::Asks => asks(part),
        Test::AsksOpposite => is_opposed(part) && part.inverted,
        Test::Turns => turns(part),
        Test::Holds => holds(part),
        Test::Counts => counts(part),
    }
}

// Whether one of the parts is so.
fn one_passes(test: Test, parts: &[Part<'_>]) -> bool
    ensures { result ≡ list_any (passes test) (parts_of parts.now) }
{
    for part in parts {
        if passes(test, part) {
            return true;
        }
    }
    false
}

// Whether just one of the parts asks.
fn is_single(parts: &[Part<'_>]) -> bool
    ensures { result ≡ is_single (parts_of parts.now) }
{
    for (i, part) in parts.iter().enumerate() {
        if asks(part) {
            return !one_passes(Test::Asks, &parts[i + 1..]);
        }
    }
    false
}

// Whether the condition that the parts ask is inverted.
fn is_inverted(parts: &[Part<'_>]) -> bool
    ensures { result ≡ is_inverted (parts_of parts.now) }
{
    let inverted = is_single(parts) && one_passes(Test::AsksOpposite, parts);
    if inverted {
        !one_passes(Test::Turns, parts)
    } else {
        one_passes(Test::Turns, parts)
    }
}

// Whether what they ask always holds.
fn always_hold(parts: &[Part<'_>]) -> bool
    ensures { result ≡ always_hold (parts_of parts.now) }
{
    is_single(parts) && one_passes(Test::Holds, parts) && !is_inverted(parts)
}

// Adds some words.
fn add_all<'a>(words: &mut Vec<&'a [u8]>, more: WordSlice<'a>) -> Result<(), AllocError>
    ensures { IfOk result (λ _. texts_in words.new.items ≡ texts_in words.old.items ++ words_in more.entry) }
{
    let mut rest = more;
    while let Some((word, after)) = rest.split_first() {
        words.push(word)?;
        rest = after;
    }
    Ok(())
}

// Adds the words of a part, after a `!` or not.
fn add_words<'a>(words: &mut Vec<&'a [u8]>, part: &Part<'a>, bang: bool) -> Result<(), AllocError>
    ensures { IfOk result (λ _. texts_in words.new.items ≡ texts_in words.old.items
        ++ spelled_words bang part.now.option.now (words_in part.now.values)) }
{
    if bang {
        words.push(b"!".as_slice())?;
    }
    words.push(part.option)?;
    add_all(words, part.values)
}

// Adds what of a part is in the text of a condition.
fn add_text<'a>(words: &mut Vec<&'a [u8]>, part: &Part<'a>, single: bool) -> Result<(), AllocError>
    ensures { IfOk result (λ _. texts_in words.new.items ≡ texts_in words.old.items ++ text_words single (part_in part.now)) }
{
    if turns(part) {
        return Ok(());
    }
    let bang = part.inverted && !(single && is_opposed(part));
    add_words(words, part, bang)
}

// The words of the text of the condition that the parts ask.
fn text_of<'a>(alloc: Global, parts: &[Part<'a>], single: bool) -> Result<Vec<&'a [u8]>, AllocError>
    ensures { IfOk result (λ words. texts_in words.items ≡ flat_map (text_words single) (parts_of parts.now)) }
{
    let mut words = Vec::new(alloc);
    for part in parts {
        add_text(&mut words, part, single)?;
    }
    Ok(words)
}

// The thing that the first of the parts names which names one.
fn asked_thing<'a>(parts: &[Part<'a>]) -> Option<&'a [u8]>
    ensures { (name : List ℕ) → asks_in result name ≡ asked_thing name (parts_of parts.now) }
{
    for part in parts {
        if part.row.role == Role::AsksOf {
            return Some(part.value());
        }
    }
    None
}

// Of which uses the condition is one that the parts ask.
fn lasting_by(parts: &[Part<'_>], lasting: Lasting) -> Lasting
    ensures { result ≡ lasting_by (parts_of parts.now) lasting }
{
    if one_passes(Test::Counts, parts) {
        return Lasting::Place;
    }
    lasting
}

// Adds the condition that the parts ask.
fn push_condition<'a>(
    alloc: Global,
    conditions: &mut Vec<Condition<'a>>,
    name: &'a [u8],
    lasting: Lasting,
    parts: &[Part<'a>],
) -> Result<(), AllocError>
    ensures { IfOk result (λ _. conditions_in conditions.new.items ≡ conditions_in conditions.old.items
        ++ condition_of name.now lasting (parts_of parts.now) ∷ []) }
{
    let words = text_of(alloc, parts, is_single(parts))?;
    conditions.push(Condition {
        name,
        thing: asked_thing(parts),
        lasting: lasting_by(parts, lasting),
        words,
        inverted: is_inverted(parts),
    })?;
    Ok(())
}

// Adds the condition that the parts ask, unless it always holds.
fn add_condition<'a>(
    alloc: Global,
    conditions: &mut Vec<Condition<'a>>,
    name: &'a [u8],
    lasting: Lasting,
    parts: &[Part<'a>],
) -> Result<(), AllocError>
    ensures { IfOk result (λ _. conditions_in conditions.new.items ≡ conditions_in conditions.old.items
        ++ unless_always name.now lasting (parts_of parts.now)) }
{
    if always_hold(parts) {
        return Ok(());
    }
    push_condition(alloc, conditions, name, lasting, parts)
}

// Whether the program doesn't read one of the options of a match.
fn has_unread(table: &OptionTable<'_>, name: &[u8], parts: &[Part<'_>]) -> bool
    ensures { result ≡ list_any (is_unread (table_in table.now) name.now) (parts_of parts.now) }
{
    for part in parts {
        if is_of(name, part) && !is_read(table, part) {
            return true;
        }
    }
    false
}

// The options of a match.
fn options_of<'a>(
    alloc: Global,
    name: &[u8],
    parts: &[Part<'a>],
) -> Result<Vec<Part<'a>>, AllocError>
    ensures { IfOk result (λ found. parts_of found.items ≡ filter (is_of name.now) (parts_of parts.now)) }
{
    let mut found = Vec::new(alloc);
    for part in parts {
        if is_of(name, part) {
            found.push(*part)?;
        }
    }
    Ok(found)
}

// All options of a match, if the program doesn't read one of them.
fn asked_options<'a>(
    alloc: Global,
    table: &OptionTable<'_>,
    name: &[u8],
    parts: &[Part<'a>],
) -> Result<Vec<Part<'a>>, AllocError>
    ensures { IfOk result (λ found. parts_of found.items ≡ asked_options (table_in table.now) name.now (parts_of parts.now)) }
{
    if !has_unread(table, name, parts) {
        return Ok(Vec::new(alloc));
    }
    options_of(alloc, name, parts)
}

// Adds what a match of this kind asks.
fn add_of_kind<'a>(
    alloc: Global,
    conditions: &mut Vec<Condition<'a>>,
    name: &'a [u8],
    kind: Kind,
    parts: &[Part<'a>],
) -> Result<(), AllocError>
    ensures { IfOk result (λ _. conditions_in conditions.new.items ≡ conditions_in conditions.old.items
        ++ asked_as name.now (parts_of parts.now) kind) }
{
    match kind {
        Kind::Known { .. } => {
            if parts.is_empty() {
                Ok(())
            } else {
                add_condition(alloc, conditions, name, Lasting::Place, parts)
            }
        }
        Kind::Foreign(lasting) => add_condition(alloc, conditions, name, lasting, parts),
        _ => Ok(()),
    }
}

// Adds what a match asks whose parts are among these, up to where it is begun again.
fn add_match<'a>(
    alloc: Global,
    conditions: &mut Vec<Condition<'a>>,
    table: &OptionTable<'_>,
    name: &'a [u8],
    parts: &[Part<'a>],
) -> Result<(), AllocError>
    ensures { IfOk result (λ _. conditions_in conditions.new.items ≡ conditions_in conditions.old.items
        ++ asked_by (table_in table.now) name.now (parts_of parts.now)) }
{
    match extension_in(table.extensions, name) {
        None => Ok(()),
        Some(row) => {
            let found = asked_options(alloc, table, name, up_to_next(name, parts))?;
            add_of_kind(alloc, conditions, name, row.kind, found.as_slice())
        }
    }
}

// Adds the condition that a protocol is which the program doesn't read.
fn add_protocol<'a>(
    alloc: Global,
    conditions: &mut Vec<Condition<'a>>,
    part: &Part<'a>,
) -> Result<(), AllocError>
    ensures { IfOk result (λ _. conditions_in conditions.new.items ≡ conditions_in conditions.old.items
        ++ protocol_condition (part_in part.now) ∷ []) }
{
    let mut words = Vec::new(alloc);
    words.push(part.value())?;
    conditions.push(Condition {
        name: b"protocol".as_slice(),
        thing: None,
        lasting: Lasting::Text,
        words,
        inverted: part.inverted,
    })?;
    Ok(())
}

// Whether a match of this name was begun, or an option of it given.
fn is_there(name: &[u8], parts: &[Part<'_>]) -> bool
    ensures { result ≡ is_there name.now (parts_of parts.now) }
{
    for part in parts {
        if begins(name, part) || is_of(name, part) {
            return true;
        }
    }
    false
}

// Adds what the match of an option asks that begins it without `-m`. The second parts begin with that option.
fn add_implied<'a>(
    alloc: Global,
    conditions: &mut Vec<Condition<'a>>,
    table: &OptionTable<'_>,
    before: &[Part<'a>],
    name: &'a [u8],
    parts: &[Part<'a>],
) -> Result<(), AllocError>
    ensures { IfOk result (λ _. conditions_in conditions.new.items ≡ conditions_in conditions.old.items
        ++ implied_by (table_in table.now) (parts_of before.now) name.now (parts_of parts.now)) }
{
    if name.is_empty() || is_there(name, before) {
        return Ok(());
    }
    add_match(alloc, conditions, table, name, parts)
}

// Adds what the match asks that the first of some parts begins, after the parts before it.
fn add_at<'a>(
    alloc: Global,
    conditions: &mut Vec<Condition<'a>>,
    table: &OptionTable<'_>,
    before: &[Part<'a>],
    parts: &[Part<'a>],
) -> Result<(), AllocError>
    ensures { IfOk result (λ _. conditions_in conditions.new.items ≡ conditions_in conditions.old.items
        ++ asked_first (table_in table.now) (parts_of before.now) (parts_of parts.now)) }
{
    let (part, after) = match parts {
        [] => return Ok(()),
        [part, after @ ..] => (part, after),
    };
    match part.row.role {
        Role::Match => add_match(alloc, conditions, table, part.value(), after),
        Role::Protocol => {
            if is_read(table, part) {
                Ok(())
            } else {
                add_protocol(alloc, conditions, part)
            }
        }
        _ => add_implied(alloc, conditions, table, before, part.row.owner, parts),
    }
}

// The conditions of the matches of a line, in the order in which these begin.
fn conditions_of<'a>(
    alloc: Global,
    table: &OptionTable<'_>,
    parts: &[Part<'a>],
) -> Result<Vec<Condition<'a>>, AllocError>
    ensures { IfOk result (λ all. conditions_in all.items ≡ conditions_after (table_in table.now) [] (parts_of parts.now)) }
{
    let mut conditions = Vec::new(alloc);
    for place in 0..parts.len() {
        add_at(
            alloc,
            &mut conditions,
            table,
            &parts[..place],
            &parts[place..],
        )?;
    }
    Ok(conditions)
}

// Adds the condition that a target is which takes some packets alone.
fn add_taking<'a>(
    alloc: Global,
    conditions: &mut Vec<Condition<'a>>,
    row: ExtensionRow<'a>,
    parts: &[Part<'a>],
) -> Result<(), AllocError>
    ensures { IfOk result (λ _. conditions_in conditions.new.items ≡ conditions_in conditions.old.items
        ++ taken_as (extension_in row.entry).name (parts_of parts.now) (extension_in row.entry).kind) }
{
    if !matches!(row.kind, Kind::Decides { all: false }) {
        return Ok(());
    }
    let options = options_of(alloc, row.name, parts)?;
    push_condition(
        alloc,
        conditions,
        row.name,
        Lasting::Place,
        options.as_slice(),
    )
}

// The conditions of a line: those of its matches, and that of its target.
pub(crate) fn all_conditions<'a>(
    alloc: Global,
    table: &OptionTable<'a>,
    parts: &[Part<'a>],
) -> Result<Vec<Condition<'a>>, AllocError>
    ensures { IfOk result (λ all. conditions_in all.items ≡ conditions (table_in table.now) (parts_of parts.now)) }
{
    let mut conditions = conditions_of(alloc, table, parts)?;
    if let Some(row) = target_of(table, parts) {
        add_taking(alloc, &mut conditions, row, parts)?;
    }
    Ok(conditions)
}
