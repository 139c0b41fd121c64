//! Dumps read, and what was made of them printed.
use crate::trouble::Trouble;
use dumps::{
    Conditions, DumpFault, Foreign, ForeignNeed, KnownOptions, OptionTable, Reading, Whole,
};
use fields::{Tap, WordFault, Words};
use std::alloc::{AllocError, Global};
use std::collections::BTreeSet;
use std::io::{Read, Write};

/// What begins a second dump.
const NEXT: &[u8] = b"\n# next\n";

/// The bytes of a reader.
fn read_all<R: Read>(alloc: Global, input: &mut R) -> Result<Vec<u8>, Trouble> {
    let mut bytes = Vec::new(alloc);
    for _turn in 0..u64::MAX {
        let mut some = [0u8; 4096];
        match input.read(&mut some) {
            Ok(0) => return Ok(bytes),
            Ok(count) => bytes.extend_from_slice(&some[..count])?,
            Err(_) => return Err(Trouble::Other),
        }
    }
    Err(Trouble::Other)
}

/// Puts some bytes.
fn put<W: Write>(output: &mut Tap<W>, bytes: &[u8]) -> Result<(), Trouble> {
    output.put(bytes).or(Err(Trouble::Other))
}

/// Puts a number, after a text.
fn put_number<W: Write>(
    alloc: Global,
    output: &mut Tap<W>,
    before: &[u8],
    number: usize,
) -> Result<(), Trouble> {
    put(output, before)?;
    let digits = format!(in alloc; "{number}")?;
    put(output, digits.as_bytes())
}

/// Says why a line is refused.
fn put_fault<W: Write>(
    alloc: Global,
    output: &mut Tap<W>,
    number: usize,
    fault: &DumpFault,
) -> Result<(), Trouble> {
    if *fault == DumpFault::NoMemory {
        return Err(Trouble::NoMemory);
    }
    let text = format!(in alloc; "line {number}: {fault}\n")?;
    put(output, text.as_bytes())?;
    output.flush().or(Err(Trouble::Other))?;
    Err(Trouble::Refused)
}

/// Reads a dump.
fn whole<W: Write>(
    alloc: Global,
    output: &mut Tap<W>,
    table: OptionTable<'_>,
    dump: &[u8],
) -> Result<Whole, Trouble> {
    let mut reading = Reading::new(alloc, table);
    let text = dump.strip_suffix(b"\n").unwrap_or(dump);
    for (number, line) in text.split(|byte| *byte == b'\n').enumerate() {
        match reading.line(line) {
            Ok(()) => {}
            Err(fault) => put_fault(alloc, output, number.saturating_add(1), &fault)?,
        }
    }
    Ok(reading.finish())
}

/// Puts the verdict of its own of a rule, if it has one.
fn put_verdict<W: Write>(
    alloc: Global,
    output: &mut Tap<W>,
    chain: &[u8],
    rule: usize,
    verdict: Option<&[u8]>,
) -> Result<(), Trouble> {
    let Some(verdict) = verdict else {
        return Ok(());
    };
    put(output, b"# ")?;
    put(output, chain)?;
    put_number(alloc, output, b" ", rule)?;
    put(output, b" -j ")?;
    put(output, verdict)?;
    put(output, b"\n")
}

/// Puts the needs of a rule, if it has some.
fn put_needs<W: Write>(
    alloc: Global,
    output: &mut Tap<W>,
    chain: &[u8],
    rule: usize,
    needs: &[ForeignNeed],
) -> Result<(), Trouble> {
    if needs.is_empty() {
        return Ok(());
    }
    put(output, b"# ")?;
    put(output, chain)?;
    put_number(alloc, output, b" ", rule)?;
    for need in needs {
        let before: &[u8] = if need.inverted { b" !" } else { b" " };
        put_number(alloc, output, before, need.condition)?;
    }
    put(output, b"\n")
}

/// Puts the needs of the rules of a chain, and behind them their verdicts of their own.
fn put_chain<W: Write>(
    alloc: Global,
    output: &mut Tap<W>,
    conditions: &mut Conditions,
    foreign: &Foreign,
    chain: &[u8],
) -> Result<(), Trouble> {
    let rules = conditions.needs_of_chain(foreign, chain)?;
    for (place, needs) in rules.iter().enumerate() {
        put_needs(
            alloc,
            output,
            chain,
            place.saturating_add(1),
            needs.as_slice(),
        )?;
    }
    let verdicts = foreign.verdicts_of_chain(alloc, chain)?;
    for (place, verdict) in verdicts.iter().enumerate() {
        put_verdict(alloc, output, chain, place.saturating_add(1), *verdict)?;
    }
    Ok(())
}

/// The words of a line; none where it has no words.
fn words_of(alloc: Global, line: &[u8]) -> Result<Option<Words>, AllocError> {
    match Words::split(alloc, line) {
        Ok(words) => Ok(Some(words)),
        Err(WordFault::Quoting) => Ok(None),
        Err(WordFault::NoMemory) => Err(AllocError),
    }
}

/// The chain of a line with a rule.
fn chain_of(words: &Words) -> Option<&[u8]> {
    if words.is_empty() {
        return None;
    }
    let from = if words.get(0).starts_with(b"[") { 1 } else { 0 };
    match words.after(from).split_first() {
        Some((command, after)) => {
            if command != b"-A".as_slice() && command != b"--append".as_slice() {
                return None;
            }
            match after.split_first() {
                Some((chain, _)) => return Some(chain),
                None => return None,
            }
        }
        None => return None,
    }
}

/// Puts the needs of the chain of a line, if that is the first line of the chain.
fn put_chain_of_line<W: Write>(
    alloc: Global,
    output: &mut Tap<W>,
    conditions: &mut Conditions,
    foreign: &Foreign,
    seen: &mut BTreeSet<Vec<u8>>,
    line: &[u8],
) -> Result<(), Trouble> {
    let Some(words) = words_of(alloc, line)? else {
        return Ok(());
    };
    let Some(chain) = chain_of(&words) else {
        return Ok(());
    };
    if seen.contains(chain) {
        return Ok(());
    }
    let name = chain.to_vec(alloc)?;
    match seen.insert(name) {
        Ok(_) => {}
        Err(_) => return Err(Trouble::NoMemory),
    }
    put_chain(alloc, output, conditions, foreign, chain)
}

/// Puts what was made of a dump.
fn put_whole<W: Write>(
    alloc: Global,
    output: &mut Tap<W>,
    conditions: &mut Conditions,
    whole: &Whole,
) -> Result<(), Trouble> {
    put(output, whole.text.as_slice())?;
    let mut seen = BTreeSet::new(alloc);
    for line in whole.text.split(|byte| *byte == b'\n') {
        put_chain_of_line(alloc, output, conditions, &whole.foreign, &mut seen, line)?;
    }
    Ok(())
}

/// Puts the conditions.
fn put_conditions<W: Write>(
    alloc: Global,
    output: &mut Tap<W>,
    conditions: &Conditions,
) -> Result<(), Trouble> {
    for number in 0..conditions.len() {
        put_number(alloc, output, b"# ", number)?;
        put(output, b" ")?;
        put(output, conditions.name(number))?;
        put(output, b": ")?;
        put(output, conditions.text(number))?;
        if let Some(place) = conditions.place(number) {
            put(output, b" at ")?;
            put(output, place.chain.as_slice())?;
            put_number(alloc, output, b" ", place.rule)?;
        }
        put(output, b"\n")?;
    }
    Ok(())
}

/// Puts what was made of two dumps.
fn put_both<W: Write>(
    alloc: Global,
    output: &mut Tap<W>,
    first: &Whole,
    second: &Whole,
) -> Result<(), Trouble> {
    let mut conditions = Conditions::new(alloc, &[&first.foreign, &second.foreign])?;
    put_whole(alloc, output, &mut conditions, first)?;
    put(output, b"# next\n")?;
    put_whole(alloc, output, &mut conditions, second)?;
    put_conditions(alloc, output, &conditions)
}

/// Puts what was made of a dump.
fn put_one<W: Write>(alloc: Global, output: &mut Tap<W>, only: &Whole) -> Result<(), Trouble> {
    let mut conditions = Conditions::new(alloc, &[&only.foreign])?;
    put_whole(alloc, output, &mut conditions, only)?;
    put_conditions(alloc, output, &conditions)
}

/// Reads a dump, or two, by a table, and prints what is made of them.
fn read_dumps<W: Write>(
    alloc: Global,
    output: &mut Tap<W>,
    table: OptionTable<'_>,
    bytes: &[u8],
) -> Result<(), Trouble> {
    match bytes.windows(NEXT.len()).position(|window| window == NEXT) {
        None => {
            let only = whole(alloc, output, table, bytes)?;
            put_one(alloc, output, &only)
        }
        Some(at) => {
            let first = whole(alloc, output, table, &bytes[..at])?;
            let second = whole(alloc, output, table, &bytes[at + NEXT.len()..])?;
            put_both(alloc, output, &first, &second)
        }
    }
}

/// The options of iptables, and one more if there is a text.
fn known_options(alloc: Global, option: Option<&[u8]>) -> Result<KnownOptions<'_>, Trouble> {
    let mut known = KnownOptions::new(alloc)?;
    if let Some(text) = option {
        known.add(text)?;
    }
    Ok(known)
}

/// Reads dumps with a further option, or none, and prints what is made of them.
pub fn answer<R: Read, W: Write + Drop>(
    alloc: Global,
    option: Option<&[u8]>,
    input: &mut R,
    writer: W,
) -> Result<(), Trouble> {
    let bytes = read_all(alloc, input)?;
    let known = known_options(alloc, option)?;
    let rows = known.rows(alloc)?;
    let mut output = Tap::new(writer);
    read_dumps(alloc, &mut output, rows.table(), bytes.as_slice())?;
    output.flush().or(Err(Trouble::Other))
}
