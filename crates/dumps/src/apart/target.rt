//! The target of a line.
ghost use Rattle.std.specs.Prelude.{◌≡◌, ◌++◌, filter, flat_map, option_map, IfOk};
ghost use Rattle.std.specs.List.{list_all};
ghost use Rattle.dumps.specs.Foreign.{ends_each, is_of_target, kept_names, kept_verdict, set_by, set_things, verdict_of};
ghost use Rattle.dumps.specs.Conditions.{named_thing};
ghost use Rattle.dumps.specs.Options.{is_ending};
ghost use Rattle.dumps.specs.Parts.{target_by, target_of};
ghost use Rattle.dumps.specs.Own.{given_words, is_of, line_of};
ghost use Rattle.dumps.specs.Views.{table_in, extension_in, part_in, parts_of, texts_in};

use crate::apart::own::is_of;
use crate::apart::own_line::append_part;
use crate::apart::part::Part;
use crate::apart::taking::has_target;
use crate::options::row::{ExtensionRow, Kind, Role};
use crate::options::table::{OptionTable, extension_in};
use std::alloc::{AllocError, Global};

// The target that a part names, where the table has it.
fn target_by<'a>(table: &OptionTable<'a>, part: &Part<'_>) -> Option<ExtensionRow<'a>>
    ensures { option_map extension_in result ≡ target_by (table_in table.now) (part_in part.now) }
{
    match part.row.role {
        Role::Target if has_target(table, part.value()) => {
            extension_in(table.extensions, part.value())
        }
        _ => None,
    }
}

// The target of the last part that names one which the table has.
pub(crate) fn target_of<'a>(table: &OptionTable<'a>, parts: &[Part<'_>]) -> Option<ExtensionRow<'a>>
    ensures { option_map extension_in result ≡ target_of (table_in table.now) (parts_of parts.now) }
{
    let mut found = None;
    for part in parts {
        if let Some(row) = target_by(table, part) {
            found = Some(row);
        }
    }
    found
}

// Adds copies of names.
fn add_names(alloc: Global, set: &mut Vec<Vec<u8>>, names: &[&[u8]]) -> Result<(), AllocError>
    ensures { IfOk result (λ _. kept_names set.new.items ≡ kept_names set.old.items ++ texts_in names.now) }
{
    for name in names {
        set.push(name.to_vec(alloc)?)?;
    }
    Ok(())
}

// A thing by its name: a blank stands before it.
pub(crate) fn named_thing(alloc: Global, name: &[u8]) -> Result<Vec<u8>, AllocError>
    ensures { IfOk result (λ thing. thing.items ≡ named_thing name.now) }
{
    let mut thing = Vec::new(alloc);
    thing.push(b' ')?;
    thing.extend_from_slice(name)?;
    Ok(thing)
}

// Adds the things that parts name which their target sets, each behind a blank.
fn add_things(alloc: Global, set: &mut Vec<Vec<u8>>, parts: &[Part<'_>]) -> Result<(), AllocError>
    ensures { IfOk result (λ _. kept_names set.new.items ≡ kept_names set.old.items ++ set_things (parts_of parts.now)) }
{
    for part in parts {
        if part.row.role == Role::Sets {
            set.push(named_thing(alloc, part.value())?)?;
        }
    }
    Ok(())
}

// What the target of parts sets: what some matches ask, and things by their names.
pub(crate) fn set_by(
    alloc: Global,
    table: &OptionTable<'_>,
    parts: &[Part<'_>],
) -> Result<Vec<Vec<u8>>, AllocError>
    ensures { IfOk result (λ set. kept_names set.items ≡ set_by (table_in table.now) (parts_of parts.now)) }
{
    let mut set = Vec::new(alloc);
    if let Some(row) = target_of(table, parts) {
        add_names(alloc, &mut set, row.sets)?;
    }
    add_things(alloc, &mut set, parts)?;
    Ok(set)
}

// Appends the words of the options of a target as the program is given them, each after a blank.
fn append_options(
    text: &mut Vec<u8>,
    table: &OptionTable<'_>,
    name: &[u8],
    parts: &[Part<'_>],
) -> Result<(), AllocError>
    ensures { IfOk result (λ _. text.new.items ≡ text.old.items
        ++ line_of (flat_map (given_words (table_in table.now)) (filter (is_of name.now) (parts_of parts.now)))) }
{
    for part in parts {
        if is_of(name, part) {
            append_part(text, table, part)?;
        }
    }
    Ok(())
}

// The verdict of its own of the target of parts, if it has one: its name and its options, as a line has them.
pub(crate) fn verdict_of(
    alloc: Global,
    table: &OptionTable<'_>,
    parts: &[Part<'_>],
) -> Result<Option<Vec<u8>>, AllocError>
    ensures { IfOk result (λ verdict. kept_verdict verdict ≡ verdict_of (table_in table.now) (parts_of parts.now)) }
{
    match target_of(table, parts) {
        Some(row) if matches!(row.kind, Kind::Decides { .. }) => {
            let mut text = row.name.to_vec(alloc)?;
            append_options(&mut text, table, row.name, parts)?;
            Ok(Some(text))
        }
        _ => Ok(None),
    }
}

// Whether all parts are those of a target.
fn are_of_target(name: &[u8], parts: &[Part<'_>]) -> bool
    ensures { result ≡ list_all (is_of_target name.now) (parts_of parts.now) }
{
    for part in parts {
        if part.row.role != Role::Target && !is_of(name, part) {
            return false;
        }
    }
    true
}

// Whether a target may end the walk: one that the program reads, or one with a verdict of its own for each packet.
fn is_ending(kind: Kind) -> bool
    ensures { result ≡ is_ending kind }
{
    match kind {
        Kind::Ends => true,
        Kind::Decides { all } => all,
        Kind::Known { .. } | Kind::Foreign(_) | Kind::Logs | Kind::Passes => false,
    }
}

// Whether a rule of these parts ends the walk of each packet.
pub(crate) fn ends_each(table: &OptionTable<'_>, parts: &[Part<'_>]) -> bool
    ensures { result ≡ ends_each (table_in table.now) (parts_of parts.now) }
{
    match target_of(table, parts) {
        None => false,
        Some(row) => {
            is_ending(row.kind)
                && row.name != b"RETURN".as_slice()
                && are_of_target(row.name, parts)
        }
    }
}
