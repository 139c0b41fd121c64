//! Verdicts of their own in two tables that are compared. Two of them are the same just where they accept or drop alike in each of some readings: the
//! verdicts are numbered from 1, and in the reading of a binary digit a rule accepts if its verdict's number has the digit. Beside these stands the
//! reading in which all of them drop, so that none is ACCEPT; and since no number is 0, none is DROP.
use crate::conditions::open_conditions::OpenConditions;
use crate::dump::Dump;
use crate::verdicts::replaced::put_target;
use questions::{BoxedTable, Need, Needs, Subject};
use sessions::Session;
use std::alloc::{AllocError, Global};
use table::Step;

/// Two tables in which some rules with verdicts of their own accept, and the others drop.
#[derive(Drop)]
pub struct Reading {
    /// The old one.
    pub old: BoxedTable,
    /// The new one.
    pub new: BoxedTable,
}

// What the rules of both tables need, and of each rule with a verdict of its own a condition besides, by which others differ from it.
#[derive(Drop)]
struct Told {
    old: Needs,
    new: Needs,
}

/// The verdicts of their own in two dumps.
#[derive(Drop)]
pub struct TwoVerdicts {
    readings: Vec<Reading>,
    told: Option<Told>,
}

// The number of a verdict among some, from 1, if it is among them.
fn number_of(names: &[Vec<u8>], words: &[u8]) -> Option<usize> {
    for (place, name) in names.iter().enumerate() {
        if name.as_slice() == words {
            return Some(place.saturating_add(1));
        }
    }
    None
}

// A rule with a verdict of its own.
#[derive(Clone, Copy)]
struct OwnRule {
    at: Step,
    // The number of its verdict.
    number: usize,
}

// The number of a verdict, which is added where it isn't among these.
fn numbered(names: &mut Vec<Vec<u8>>, words: &[u8]) -> Result<usize, AllocError> {
    if let Some(number) = number_of(names.as_slice(), words) {
        return Ok(number);
    }
    let name = words.to_vec(*names.allocator())?;
    names.push(name)?;
    Ok(names.len())
}

// Adds the rules of a chain that have verdicts of their own.
fn add_rules(
    dump: &Dump,
    chain: usize,
    names: &mut Vec<Vec<u8>>,
    rules: &mut Vec<OwnRule>,
) -> Result<(), AllocError> {
    for passed in 0..dump.rule_count(chain) {
        let at = Step {
            chain,
            number: passed.saturating_add(1),
        };
        if let Some(own) = dump.own_verdict(at) {
            let number = numbered(names, own.words.as_slice())?;
            rules.push(OwnRule { at, number })?;
        }
    }
    Ok(())
}

// The rules of a dump that have verdicts of their own.
fn own_rules(
    alloc: Global,
    dump: &Dump,
    names: &mut Vec<Vec<u8>>,
) -> Result<Vec<OwnRule>, AllocError> {
    let mut rules = Vec::new(alloc);
    for chain in 0..dump.chain_count() {
        add_rules(dump, chain, names, &mut rules)?;
    }
    Ok(rules)
}

// Whether a number has a binary digit, which is 1, 2, 4 and so on.
fn has_digit(number: usize, digit: usize) -> bool {
    number.checked_div(digit).is_some_and(|rest| rest % 2 == 1)
}

// The table of a dump in which the rules accept whose verdict's number has a digit; none where a rule couldn't be put there.
fn accepting_table(
    alloc: Global,
    dump: &Dump,
    rules: &[OwnRule],
    digit: usize,
) -> Result<Option<BoxedTable>, AllocError> {
    let mut table = dump.table().copy()?;
    let (_none, mut work) = Session::new(alloc)?.into_parts();
    for rule in rules {
        if has_digit(rule.number, digit)
            && !put_target(alloc, dump, rule.at, b"ACCEPT", &mut table, &mut work)?
        {
            return Ok(None);
        }
    }
    Ok(Some(BoxedTable::of(alloc, table, &mut work)?))
}

// The reading of each digit of the verdicts' numbers, which are counted here; none where a rule couldn't be put there.
fn readings(
    alloc: Global,
    old: &Dump,
    new: &Dump,
    names: &mut Vec<Vec<u8>>,
) -> Result<Option<Vec<Reading>>, AllocError> {
    let own = own_rules(alloc, old, names)?;
    let own_later = own_rules(alloc, new, names)?;
    let mut readings = Vec::new(alloc);
    let mut digit = 1usize;
    for _ in 0..usize::BITS {
        if digit > names.len() {
            break;
        }
        let (Some(old), Some(new)) = (
            accepting_table(alloc, old, own.as_slice(), digit)?,
            accepting_table(alloc, new, own_later.as_slice(), digit)?,
        ) else {
            return Ok(None);
        };
        readings.push(Reading { old, new })?;
        digit = digit.saturating_mul(2);
    }
    Ok(Some(readings))
}

// What a rule needs, and one more condition where its verdict is its own.
fn told_needs(
    alloc: Global,
    dump: &Dump,
    names: &[Vec<u8>],
    first: usize,
    at: Step,
) -> Result<Vec<Need>, AllocError> {
    let mut needs = dump.needs_of(at).to_vec(alloc)?;
    if let Some(own) = dump.own_verdict(at) {
        if let Some(number) = number_of(names, own.words.as_slice()) {
            needs.push(Need {
                condition: first.saturating_add(number),
                inverted: false,
            })?;
        }
    }
    Ok(needs)
}

// The same of each rule of a chain.
fn told_of_chain(
    alloc: Global,
    dump: &Dump,
    names: &[Vec<u8>],
    first: usize,
    chain: usize,
) -> Result<Vec<Vec<Need>>, AllocError> {
    let mut rules = Vec::new(alloc);
    for passed in 0..dump.rule_count(chain) {
        let at = Step {
            chain,
            number: passed.saturating_add(1),
        };
        rules.push(told_needs(alloc, dump, names, first, at)?)?;
    }
    Ok(rules)
}

// The same of each rule of a dump.
fn told_of_dump(
    alloc: Global,
    dump: &Dump,
    names: &[Vec<u8>],
    first: usize,
) -> Result<Needs, AllocError> {
    let mut chains = Vec::new(alloc);
    for chain in 0..dump.chain_count() {
        chains.push(told_of_chain(alloc, dump, names, first, chain)?)?;
    }
    Ok(Needs::of(chains))
}

impl TwoVerdicts {
    /// Those of two dumps with these conditions; none where the text of a rule couldn't be read again.
    ///
    /// # Errors
    ///
    /// `AllocError` where memory was refused.
    ///
    /// # Cost
    ///
    /// For n verdicts of their own a copy of both tables for each binary digit of n.
    pub(crate) fn of(
        alloc: Global,
        old: &Dump,
        new: &Dump,
        open: &OpenConditions,
    ) -> Result<Option<TwoVerdicts>, AllocError> {
        let mut names = Vec::new(alloc);
        let Some(readings) = readings(alloc, old, new, &mut names)? else {
            return Ok(None);
        };
        let told = if names.is_empty() {
            None
        } else {
            Some(Told {
                old: told_of_dump(alloc, old, names.as_slice(), open.len())?,
                new: told_of_dump(alloc, new, names.as_slice(), open.len())?,
            })
        };
        Ok(Some(TwoVerdicts { readings, told }))
    }

    /// The readings beside the one in which all drop; they are lent.
    pub fn readings(&self) -> &[Reading] {
        self.readings.as_slice()
    }

    /// Two dumps in which rules with different verdicts of their own differ, however they are read.
    pub fn told<'s>(&'s self, old: &'s Dump, new: &'s Dump) -> (Subject<'s>, Subject<'s>) {
        match &self.told {
            None => (old.subject(), new.subject()),
            Some(told) => (
                Subject {
                    boxed: old.boxed(),
                    needs: &told.old,
                },
                Subject {
                    boxed: new.boxed(),
                    needs: &told.new,
                },
            ),
        }
    }
}
