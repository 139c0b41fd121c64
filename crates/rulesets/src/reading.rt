//! Dumps as they are asked about: with the conditions of their rules, and the answers of `--when`.
use crate::conditions::file_answers::{FileAnswers, answer_from};
use crate::conditions::open_conditions::{OpenConditions, Taken};
use crate::dump::{Dump, listed_needs};
use crate::fault::RulesetFault;
use crate::loading::{Loaded, load_dump};
use crate::verdicts::OwnVerdicts;
use crate::verdicts::accepted::TwoVerdicts;
use dumps::{Conditions, LineWord};
use programs::Audit;
use questions::{BoxedTable, Need};
use std::alloc::{AllocError, Global};
use std::rt::Files;

/// A dump, and the conditions of its rules.
#[derive(Drop)]
pub struct OneDump {
    /// The dump.
    pub dump: Dump,
    /// Its conditions.
    pub open: OpenConditions,
}

/// Two dumps, and the conditions of their rules.
#[derive(Drop)]
pub struct TwoDumps {
    /// The old one.
    pub old: Dump,
    /// The new one.
    pub new: Dump,
    /// The conditions of both.
    pub open: OpenConditions,
    /// The verdicts of their own in both.
    pub verdicts: TwoVerdicts,
}

// What the rules of a file need, whose conditions are numbered among others.
fn needs_of<'a>(
    alloc: Global,
    file: &'a str,
    loaded: &Loaded,
    conditions: &mut Conditions,
) -> Result<Vec<Vec<Vec<Need>>>, RulesetFault<'a>> {
    match listed_needs(alloc, &loaded.boxed.table, &loaded.foreign, conditions)? {
        Some(listed) => Ok(listed),
        None => Err(RulesetFault::CannotPlace(file)),
    }
}

// Takes in the answers of words of `--when`.
fn answer_all<'a>(
    alloc: Global,
    open: &mut OpenConditions,
    when: &[&'a str],
) -> Result<(), RulesetFault<'a>> {
    for word in when {
        match open.answer(alloc, word)? {
            Taken::Answered => {}
            Taken::NoCondition => return Err(RulesetFault::NoCondition(word)),
            Taken::Contradiction => return Err(RulesetFault::AnsweredTwice(word)),
        }
    }
    Ok(())
}

// Conditions of one dump or of two, with the answers of words of `--when`.
fn answered<'a>(
    alloc: Global,
    conditions: Conditions,
    are_of_two: bool,
    when: &[&'a str],
) -> Result<OpenConditions, RulesetFault<'a>> {
    let mut open = OpenConditions::new(alloc, conditions, are_of_two)?;
    answer_all(alloc, &mut open, when)?;
    Ok(open)
}

// A table with the boxes of its rules, what these need, and their verdicts.
#[derive(Drop)]
struct ListedTable {
    boxed: BoxedTable,
    needs: Vec<Vec<Vec<Need>>>,
    verdicts: OwnVerdicts,
}

// What is left of a loaded file once its needs are listed.
fn listed(
    alloc: Global,
    loaded: Loaded,
    needs: Vec<Vec<Vec<Need>>>,
) -> Result<ListedTable, AllocError> {
    let Loaded { boxed, foreign } = loaded;
    let verdicts = OwnVerdicts::of(alloc, &boxed.table, &foreign)?;
    Ok(ListedTable {
        boxed,
        needs,
        verdicts,
    })
}

// The dump of a table.
fn dump_of(alloc: Global, listed: ListedTable, open: &OpenConditions) -> Result<Dump, AllocError> {
    let ListedTable {
        boxed,
        needs,
        verdicts,
    } = listed;
    Dump::new(alloc, boxed, verdicts, needs, open)
}

// The conditions of a loaded file are numbered, and its needs listed.
fn listed_one<'a>(
    alloc: Global,
    file: &'a str,
    loaded: &Loaded,
) -> Result<(Conditions, Vec<Vec<Vec<Need>>>), RulesetFault<'a>> {
    let mut conditions = Conditions::new(alloc, &[&loaded.foreign])?;
    let needs = needs_of(alloc, file, loaded, &mut conditions)?;
    Ok((conditions, needs))
}

// The dump of a loaded file with the conditions of its rules, by the answers of words of `--when` and of a file.
fn one_loaded<'a>(
    alloc: Global,
    file: &'a str,
    loaded: Loaded,
    when: &[&'a str],
    given: &FileAnswers<'a>,
) -> Result<OneDump, RulesetFault<'a>> {
    let (conditions, needs) = listed_one(alloc, file, &loaded)?;
    let listed = listed(alloc, loaded, needs)?;
    let mut open = answered(alloc, conditions, false, when)?;
    answer_from(alloc, &mut open, given)?;
    let dump = dump_of(alloc, listed, &open)?;
    Ok(OneDump { dump, open })
}

/// Reads a file, as the words of the program say, with the answers of `--when` and those of another file.
///
/// # Errors
///
/// Those of words of `--unknown`, `--local` and `--when`, and of the answers of the other file; `CannotPlace`; or where the file cannot be opened,
/// read or restored, or memory was refused.
pub fn read_answered<'a, R, E>(
    rt: &R,
    errors: &E,
    file: &'a str,
    audit: &Audit<'a>,
    given: &FileAnswers<'a>,
) -> Result<OneDump, RulesetFault<'a>>
where
    R: Files + AllocGlobal,
    E: Print,
{
    let loaded = load_dump(rt, errors, file, audit)?;
    one_loaded(rt.alloc(), file, loaded, audit.when.as_slice(), given)
}

/// Reads a file, as the words of the program say, with the answers of `--when`.
///
/// # Errors
///
/// Those of words of `--unknown`, `--local` and `--when`, `CannotPlace`, or where the file cannot be opened, read or restored, or memory was
/// refused.
pub fn read_one<'a, R, E>(
    rt: &R,
    errors: &E,
    file: &'a str,
    audit: &Audit<'a>,
) -> Result<OneDump, RulesetFault<'a>>
where
    R: Files + AllocGlobal,
    E: Print,
{
    let given = FileAnswers {
        file,
        answers: Vec::new(rt.alloc()),
    };
    read_answered(rt, errors, file, audit, &given)
}

/// Reads a file as `read_one` does, none of whose rules may have conditions.
///
/// # Errors
///
/// `HasConditions`, and those of `read_one`.
pub fn read_plain<'a, R, E>(
    rt: &R,
    errors: &E,
    file: &'a str,
    audit: &Audit<'a>,
) -> Result<OneDump, RulesetFault<'a>>
where
    R: Files + AllocGlobal,
    E: Print,
{
    let one = read_one(rt, errors, file, audit)?;
    if one.open.len() > 0 {
        return Err(RulesetFault::HasConditions(file));
    }
    Ok(one)
}

// The conditions of two loaded files, and what the rules of each need.
#[derive(Drop)]
struct Numbered {
    conditions: Conditions,
    old: Vec<Vec<Vec<Need>>>,
    new: Vec<Vec<Vec<Need>>>,
}

// The conditions of two loaded files are numbered, and their needs listed.
fn listed_two<'a>(
    alloc: Global,
    old: &'a str,
    new: &'a str,
    first: &Loaded,
    second: &Loaded,
) -> Result<Numbered, RulesetFault<'a>> {
    let mut conditions = Conditions::new(alloc, &[&first.foreign, &second.foreign])?;
    let needed = needs_of(alloc, old, first, &mut conditions)?;
    let needed_later = needs_of(alloc, new, second, &mut conditions)?;
    Ok(Numbered {
        conditions,
        old: needed,
        new: needed_later,
    })
}

// The dumps of two tables, of which the old one's file is named; the text of each rule is read again as it.
fn two_of<'a>(
    alloc: Global,
    file: &'a str,
    old: ListedTable,
    new: ListedTable,
    open: OpenConditions,
) -> Result<TwoDumps, RulesetFault<'a>> {
    let old = dump_of(alloc, old, &open)?;
    let new = dump_of(alloc, new, &open)?;
    match TwoVerdicts::of(alloc, &old, &new, &open)? {
        Some(verdicts) => Ok(TwoDumps {
            old,
            new,
            open,
            verdicts,
        }),
        None => Err(RulesetFault::CannotRestore(file)),
    }
}

// The dumps of two loaded files. What a target sets may differ between them, so that conditions of it can't be compared.
fn two_loaded<'a>(
    alloc: Global,
    file: &'a str,
    first: Loaded,
    second: Loaded,
    numbered: Numbered,
    when: &[&'a str],
) -> Result<TwoDumps, RulesetFault<'a>> {
    let Numbered {
        conditions,
        old,
        new,
    } = numbered;
    let (old, new) = (listed(alloc, first, old)?, listed(alloc, second, new)?);
    let open = answered(alloc, conditions, true, when)?;
    if let Some(condition) = open.first_set() {
        let words = LineWord::of(alloc, open.text(condition))?;
        return Err(RulesetFault::IsSet(words));
    }
    two_of(alloc, file, old, new, open)
}

/// Reads two files, as the words of the program say, with the answers of `--when`.
///
/// # Errors
///
/// `IsSet`, and those of `read_one`.
pub fn read_two<'a, R, E>(
    rt: &R,
    errors: &E,
    old: &'a str,
    new: &'a str,
    audit: &Audit<'a>,
) -> Result<TwoDumps, RulesetFault<'a>>
where
    R: Files + AllocGlobal,
    E: Print,
{
    let first = load_dump(rt, errors, old, audit)?;
    let second = load_dump(rt, errors, new, audit)?;
    let numbered = listed_two(rt.alloc(), old, new, &first, &second)?;
    two_loaded(
        rt.alloc(),
        old,
        first,
        second,
        numbered,
        audit.when.as_slice(),
    )
}
