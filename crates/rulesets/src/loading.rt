//! A file is read as a whole dump, line by line, and what the program reads of it is restored.
pub(crate) mod address_types;
pub(crate) mod assumptions;
pub(crate) mod line_input;
pub(crate) mod unknown_options;

use crate::fault::RulesetFault;
use crate::loading::address_types::{AddressTypes, known_conditions};
use crate::loading::assumptions::Repeating;
use crate::loading::line_input::{LINE_MAX, Line};
use crate::loading::unknown_options::known_options;
use dumps::{DumpFault, Foreign, LineWord, OptionTable, Reading, Refusal, Whole};
use fields::{LineEnd, Tap};
use programs::{Audit, ProgramFault, buffered_input, load_from, open_file};
use questions::BoxedTable;
use sessions::Session;
use std::alloc::{AllocError, Global};
use std::io::{self, BufRead};
use std::rt::Files;

/// What was read of a file.
#[derive(Drop)]
pub(crate) struct Loaded {
    /// The table, with the boxes of its rules.
    pub(crate) boxed: BoxedTable,
    /// What its rules ask beyond that.
    pub(crate) foreign: Foreign,
}

// Adds those of some spellings that begin with a word and aren't there yet.
fn add_beginning<'t>(
    names: &[&'t [u8]],
    word: &[u8],
    found: &mut Vec<&'t [u8]>,
) -> Result<(), AllocError> {
    for name in names {
        if name.starts_with(word) && !found.iter().any(|other| *other == *name) {
            found.push(*name)?;
        }
    }
    Ok(())
}

// The long option that a word shortens, if it shortens one alone.
fn shortened<'t>(
    alloc: Global,
    table: OptionTable<'t>,
    word: &[u8],
) -> Result<Option<&'t [u8]>, AllocError> {
    let mut found = Vec::new(alloc);
    if word.len() <= 2 || !word.starts_with(b"--") {
        return Ok(None);
    }
    for row in table.options {
        add_beginning(row.names, word, &mut found)?;
    }
    match found.as_slice() {
        [name] => Ok(Some(*name)),
        _ => Ok(None),
    }
}

// The long option that was perhaps meant, where an option isn't known.
fn meant(
    alloc: Global,
    table: OptionTable<'_>,
    fault: &DumpFault,
) -> Result<Option<LineWord>, AllocError> {
    let DumpFault::Refused(Refusal::UnknownOption, word) = fault else {
        return Ok(None);
    };
    match shortened(alloc, table, word.bytes())? {
        Some(name) => Ok(Some(LineWord::of(alloc, name)?)),
        None => Ok(None),
    }
}

// Writes why a line of a file was refused, as a restore does, and what was perhaps meant.
fn refused<'a, E: Print>(
    errors: &E,
    file: &'a str,
    number: u64,
    fault: DumpFault,
    meant: Option<LineWord>,
) -> RulesetFault<'a> {
    let written = match (fault, meant) {
        (DumpFault::NoMemory, _) => return RulesetFault::Program(ProgramFault::NoMemory),
        (fault, Some(meant)) => println!(errors; "line {number}: {fault}, perhaps {meant}"),
        (fault, None) => println!(errors; "line {number}: {fault}"),
    };
    match written {
        Ok(()) => RulesetFault::CannotRestore(file),
        Err(_) => RulesetFault::Program(ProgramFault::OutputFailed),
    }
}

// Reads the lines of a file, to its end or to a line that is too long. Whether there is one.
fn read_lines<'a, E: Print, R: BufRead>(
    alloc: Global,
    errors: &E,
    file: &'a str,
    input: &mut Tap<R>,
    table: OptionTable<'_>,
    reading: &mut Reading<'_>,
) -> Result<bool, RulesetFault<'a>> {
    let mut line = Line::new(alloc)?;
    for number in 1..u64::MAX {
        let read = match line.read_from(input) {
            Ok(read) => read,
            Err(_) => return Err(RulesetFault::Program(ProgramFault::CannotRead(file))),
        };
        if read.end == LineEnd::Nothing {
            break;
        }
        if read.too_long {
            return Ok(true);
        }
        if let Err(fault) = reading.line(line.bytes()) {
            let meant = meant(alloc, table, &fault)?;
            return Err(refused(errors, file, number, fault, meant));
        }
    }
    Ok(false)
}

// Adds a line that is too long, which a restore refuses and behind which it reads nothing.
fn add_too_long(text: &mut Vec<u8>) -> Result<(), AllocError> {
    for _ in 0..=LINE_MAX {
        text.push(b' ')?;
    }
    Ok(())
}

// A file taken apart by a table of options. What was assumed when it was made to load is repeated on `errors`.
fn read_by<'a, R, E>(
    rt: &R,
    errors: &E,
    file: &'a str,
    table: OptionTable<'_>,
) -> Result<Whole, RulesetFault<'a>>
where
    R: Files + AllocGlobal,
    E: Print,
{
    let opened = Repeating::new(open_file(rt, file)?, io::writer(errors));
    let mut input = buffered_input(rt.alloc(), opened)?;
    let mut reading = Reading::new(rt.alloc(), table);
    let is_cut = read_lines(rt.alloc(), errors, file, &mut input, table, &mut reading)?;
    let Whole { mut text, foreign } = reading.finish();
    if is_cut {
        add_too_long(&mut text)?;
    }
    Ok(Whole { text, foreign })
}

// A file taken apart by a table of options, and by what is known of types of addresses.
fn read_with_types<'a, R, E>(
    rt: &R,
    errors: &E,
    file: &'a str,
    table: OptionTable<'_>,
    types: &AddressTypes,
) -> Result<Whole, RulesetFault<'a>>
where
    R: Files + AllocGlobal,
    E: Print,
{
    let words = types.words(rt.alloc())?;
    let known = known_conditions(rt.alloc(), words.as_slice())?;
    read_by(rt, errors, file, table.knowing(known.as_slice()))
}

// A file taken apart as the words of the program say: by the options of iptables and those of `--unknown`, and by the types that `--local` tells.
fn read_whole<'a, R, E>(
    rt: &R,
    errors: &E,
    file: &'a str,
    audit: &Audit<'a>,
) -> Result<Whole, RulesetFault<'a>>
where
    R: Files + AllocGlobal,
    E: Print,
{
    let known = known_options(rt.alloc(), audit.unknown.as_slice())?;
    let rows = known.rows(rt.alloc())?;
    let Some(addresses) = audit.local else {
        return read_by(rt, errors, file, rows.table());
    };
    let types = AddressTypes::read(rt.alloc(), addresses)?;
    read_with_types(rt, errors, file, rows.table(), &types)
}

// A session that has restored a text.
fn restored<'a, R, E>(
    rt: &R,
    errors: &E,
    file: &'a str,
    text: &[u8],
) -> Result<Session, RulesetFault<'a>>
where
    R: AllocGlobal,
    E: Print,
{
    let mut session = Session::new(rt.alloc())?;
    match load_from(rt, errors, &mut session, file, text)? {
        0 => Ok(session),
        4 => Err(RulesetFault::Program(ProgramFault::NoMemory)),
        _ => Err(RulesetFault::CannotRestore(file)),
    }
}

/// Reads a file as a whole dump, as the words of the program say, and restores what the program reads of it.
///
/// # Errors
///
/// `NoMatch` or `CannotAdd` where a word of `--unknown` adds nothing; those of `AddressTypes::read`; or where the file cannot be opened or read, a
/// line is refused, or memory was refused.
pub(crate) fn load_dump<'a, R, E>(
    rt: &R,
    errors: &E,
    file: &'a str,
    audit: &Audit<'a>,
) -> Result<Loaded, RulesetFault<'a>>
where
    R: Files + AllocGlobal,
    E: Print,
{
    let Whole { text, foreign } = read_whole(rt, errors, file, audit)?;
    let (table, mut work) = restored(rt, errors, file, text.as_slice())?.into_parts();
    let boxed = BoxedTable::of(rt.alloc(), table, &mut work)?;
    Ok(Loaded { boxed, foreign })
}
