//! What lines write: words, rules, packets and tables; and the texts of rules and tables.
use crate::trouble::Trouble;
use fields::{Packet, Tap, WordFault, Words};
use restore::write_listing;
use rules::{Rule, RuleFault, Work, read_rule, write_rule};
use std::alloc::Global;
use table::Table;

/// The words of a line.
pub fn words_of(alloc: Global, line: &[u8]) -> Result<Words, Trouble> {
    match Words::split(alloc, line) {
        Ok(words) => Ok(words),
        Err(WordFault::NoMemory) => Err(Trouble::NoMemory),
        Err(WordFault::Quoting) => Err(Trouble::OtherAnswer),
    }
}

/// Whether these are the words.
pub fn are_words(words: &Words, expected: &[&[u8]]) -> bool {
    if words.len() != expected.len() {
        return false;
    }
    for place in 0..words.len() {
        if words.get(place) != expected[place] {
            return false;
        }
    }
    true
}

/// The rule that a line writes.
pub fn rule_of(alloc: Global, line: &[u8]) -> Result<Rule, Trouble> {
    let words = words_of(alloc, line)?;
    match read_rule(alloc, &words, 0) {
        Ok(rule) => Ok(rule),
        Err(RuleFault::NoMemory) => Err(Trouble::NoMemory),
        Err(RuleFault::Refused(_)) => Err(Trouble::OtherAnswer),
    }
}

/// Whether a rule's text is this one.
pub fn has_text(alloc: Global, rule: &Rule, text: &[u8]) -> Result<bool, Trouble> {
    let mut output = Tap::new(Vec::with_capacity(alloc, 256)?);
    let written = write_rule(rule, &mut output);
    Ok(written.is_ok() && output.into_device().as_slice() == text)
}

/// The packet that a line describes.
pub fn packet_of(alloc: Global, line: &[u8]) -> Result<Packet, Trouble> {
    match Packet::read(&words_of(alloc, line)?, 0) {
        Ok(packet) => Ok(packet),
        Err(_) => Err(Trouble::OtherAnswer),
    }
}

/// A chain, and the line of a rule in it.
pub type Placed = (&'static [u8], &'static [u8]);

/// Puts the rule that a line writes last in a chain.
fn append(alloc: Global, table: &mut Table, placed: Placed) -> Result<(), Trouble> {
    let (chain, line) = placed;
    let rule = rule_of(alloc, line)?;
    Ok(table.append(chain, rule, &mut Work::new())?)
}

/// A table with these user chains, and rules one after another.
pub fn table_of(alloc: Global, chains: &[&[u8]], rules: &[Placed]) -> Result<Table, Trouble> {
    let mut table = Table::new(alloc)?;
    for name in chains {
        table.new_chain(name)?;
    }
    for placed in rules {
        append(alloc, &mut table, *placed)?;
    }
    Ok(table)
}

/// The beginning of every listing here.
const HEAD: &[u8] = b"*filter\n:INPUT ACCEPT [0:0]\n:FORWARD ACCEPT [0:0]\n:OUTPUT ACCEPT [0:0]\n";

/// Whether this is the rest of a table's listing, after the policies.
pub fn has_listing(alloc: Global, table: &Table, rest: &[u8]) -> Result<bool, Trouble> {
    let mut output = Tap::new(Vec::with_capacity(alloc, 512)?);
    let written = write_listing(table, &mut output);
    let is_same = output.into_device().as_slice().strip_prefix(HEAD) == Some(rest);
    Ok(written.is_ok() && is_same)
}
