//! What the rules of a dump need beyond what the program reads.
ghost use Rattle.std.specs.Prelude.{◌≡◌, ◌++◌, ◌∷◌, [], map, not, option_map, OnOk, IfOk};
ghost use Rattle.std.specs.List.{list_any};
ghost use Rattle.dumps.specs.Foreign.{ends_each, set_by, verdict_of, needed, needed_in, needs_in, rule_in, rules_in, sets_in, is_in, needs_some, words_for, known_words, is_ended, is_unknown, unknown_needs, is_named, kept_names, kept_verdict, lent_verdicts, verdicts_in, written};
ghost use Rattle.dumps.specs.Own.{line_of};
ghost use Rattle.dumps.specs.Views.{condition_in, conditions_in, parts_in, table_in, texts_in, all_known_in};

use crate::apart::Apart;
use crate::apart::condition::Condition;
use crate::apart::own_line::append_word;
use crate::apart::target::named_thing;
use crate::options::row::Lasting;
use crate::options::table::{KnownCondition, OptionTable, known_of};
use std::alloc::{AllocError, Global};

/// A condition that a rule needs, by its text.
#[derive(Drop)]
pub(crate) struct NeededText {
    // The name of its match.
    pub(crate) name: Vec<u8>,
    // What it asks: a thing by its name, behind a blank, or what its match asks at all.
    pub(crate) asks: Vec<u8>,
    // Its words with the name, each quoted if it must be, with blanks between.
    pub(crate) text: Vec<u8>,
    pub(crate) lasting: Lasting,
    pub(crate) inverted: bool,
}

/// A rule of a dump.
#[derive(Drop)]
pub(crate) struct ForeignRule {
    pub(crate) chain: Vec<u8>,
    pub(crate) needs: Vec<NeededText>,
    // What its target sets.
    pub(crate) sets: Vec<Vec<u8>>,
    // Whether it ends the walk of each packet.
    pub(crate) ends: bool,
    // The verdict of its own that its target gives, by its words.
    pub(crate) verdict: Option<Vec<u8>>,
}

/// What the rules of the section `filter` of a dump need beyond what the program reads, rule by rule, and what their targets set.
#[derive(Drop)]
pub struct Foreign {
    alloc: Global,
    pub(crate) rules: Vec<ForeignRule>,
}

// Appends words, each after a blank.
fn append_words(text: &mut Vec<u8>, words: &[&[u8]]) -> Result<(), AllocError>
    ensures { IfOk result (λ _. text.new.items ≡ text.old.items ++ line_of (texts_in words.now)) }
{
    for word in words {
        append_word(text, *word)?;
    }
    Ok(())
}

// The text of a condition.
fn text_of(alloc: Global, condition: &Condition<'_>) -> Result<Vec<u8>, AllocError>
    ensures { IfOk result (λ text. text.items ≡ (needed (condition_in condition.now)).text) }
{
    let mut text = condition.name.to_vec(alloc)?;
    append_words(&mut text, condition.words.as_slice())?;
    Ok(text)
}

// What a condition asks.
fn asks_of(alloc: Global, condition: &Condition<'_>) -> Result<Vec<u8>, AllocError>
    ensures { IfOk result (λ asks. asks.items ≡ (condition_in condition.now).asks) }
{
    match condition.thing {
        Some(thing) => named_thing(alloc, thing),
        None => condition.name.to_vec(alloc),
    }
}

// The condition by its text.
fn needed(alloc: Global, condition: &Condition<'_>) -> Result<NeededText, AllocError>
    ensures { IfOk result (λ made. needed_in made ≡ needed (condition_in condition.now)) }
{
    let name = condition.name.to_vec(alloc)?;
    let text = text_of(alloc, condition)?;
    Ok(NeededText {
        name,
        asks: asks_of(alloc, condition)?,
        text,
        lasting: condition.lasting,
        inverted: condition.inverted,
    })
}

// The conditions by their texts.
pub(crate) fn all_needed(
    alloc: Global,
    conditions: &[Condition<'_>],
) -> Result<Vec<NeededText>, AllocError>
    ensures { IfOk result (λ made. needs_in made.items ≡ map needed (conditions_in conditions.now)) }
{
    let mut needs = Vec::new(alloc);
    for condition in conditions {
        needs.push(needed(alloc, condition)?)?;
    }
    Ok(needs)
}

// Appends the words for a need, if its condition is known.
fn append_for(
    text: &mut Vec<u8>,
    known: &[KnownCondition<'_>],
    need: &NeededText,
) -> Result<(), AllocError>
    ensures { IfOk result (λ _. text.new.items ≡ text.old.items ++ line_of (words_for (all_known_in known.now) (needed_in need.now))) }
{
    match known_of(known, need.text.as_slice()) {
        None => Ok(()),
        Some(row) => {
            if need.inverted {
                append_words(text, row.fails)
            } else {
                append_words(text, row.holds)
            }
        }
    }
}

// Appends the words for the needs of which the conditions are known.
pub(crate) fn append_known(
    text: &mut Vec<u8>,
    known: &[KnownCondition<'_>],
    needs: &[NeededText],
) -> Result<(), AllocError>
    ensures { IfOk result (λ _. text.new.items ≡ text.old.items ++ line_of (known_words (all_known_in known.now) (needs_in needs.now))) }
{
    for need in needs {
        append_for(text, known, need)?;
    }
    Ok(())
}

// Whether the condition of a need isn't known.
fn is_unknown(known: &[KnownCondition<'_>], need: &NeededText) -> bool
    ensures { result ≡ is_unknown (all_known_in known.now) (needed_in need.now) }
{
    known_of(known, need.text.as_slice()).is_none()
}

// Keeps the needs of which the conditions aren't known.
pub(crate) fn keep_unknown(needs: &mut Vec<NeededText>, known: &[KnownCondition<'_>])
    ensures { needs_in needs.new.items ≡ unknown_needs (all_known_in known.now) (needs_in needs.old.items) }
{
    needs.retain(|need| is_unknown(known, need));
}

// A verdict that is kept; it is lent.
fn lent(verdict: &Option<Vec<u8>>) -> Option<&[u8]>
    ensures { option_map (λ text. text.now) result ≡ kept_verdict verdict.now }
{
    match verdict {
        None => None,
        Some(text) => Some(text.as_slice()),
    }
}

// Whether a rule needs something, or its verdict is its own.
fn needs_some(rule: &ForeignRule) -> bool
    ensures { result ≡ needs_some (rule_in rule.now) }
{
    !rule.needs.is_empty() || rule.verdict.is_some()
}

// Whether one of some rules needs something.
fn one_needs(rules: &[ForeignRule]) -> bool
    ensures { result ≡ list_any needs_some (map rule_in rules.now) }
{
    for rule in rules {
        if needs_some(rule) {
            return true;
        }
    }
    false
}

// Whether one of some rules is in a chain.
fn one_in(rules: &[ForeignRule], chain: &[u8]) -> bool
    ensures { result ≡ list_any (is_in chain.now) (map rule_in rules.now) }
{
    for rule in rules {
        if rule.chain.as_slice() == chain {
            return true;
        }
    }
    false
}

// The verdicts of their own of the rules of a chain among some.
fn verdicts_among<'s>(
    alloc: Global,
    rules: &'s [ForeignRule],
    chain: &[u8],
) -> Result<Vec<Option<&'s [u8]>>, AllocError>
    ensures { IfOk result (λ all. lent_verdicts all.items ≡ verdicts_in chain.now (map rule_in rules.now)) }
{
    let mut all = Vec::new(alloc);
    for rule in rules {
        if rule.chain.as_slice() == chain {
            all.push(lent(&rule.verdict))?;
        }
    }
    Ok(all)
}

// Whether the first of some rules that is in a chain ends the walk of each packet.
fn is_ended(chain: &[u8], rules: &[ForeignRule]) -> bool
    ensures { result ≡ is_ended chain.now (map rule_in rules.now) }
{
    for rule in rules {
        if rule.chain.as_slice() == chain {
            return rule.ends;
        }
    }
    false
}

// Adds copies of names.
fn add_names(alloc: Global, set: &mut Vec<Vec<u8>>, names: &[Vec<u8>]) -> Result<(), AllocError>
    ensures { IfOk result (λ _. kept_names set.new.items ≡ kept_names set.old.items ++ kept_names names.now) }
{
    for name in names {
        set.push(name.as_slice().to_vec(alloc)?)?;
    }
    Ok(())
}

// Adds what targets of some rules set while a packet walks: the next rule of the chain doesn't end its walk.
fn add_written(
    alloc: Global,
    names: &mut Vec<Vec<u8>>,
    rules: &[ForeignRule],
) -> Result<(), AllocError>
    ensures { IfOk result (λ _. kept_names names.new.items ≡ kept_names names.old.items ++ written (map rule_in rules.now)) }
{
    for (place, rule) in rules.iter().enumerate() {
        if !rule.sets.is_empty() && !is_ended(rule.chain.as_slice(), &rules[place + 1..]) {
            add_names(alloc, names, rule.sets.as_slice())?;
        }
    }
    Ok(())
}

// Whether a name is among some.
pub(crate) fn is_named(names: &[Vec<u8>], name: &[u8]) -> bool
    ensures { result ≡ is_named (kept_names names.now) name.now }
{
    for one in names {
        if name == one.as_slice() {
            return true;
        }
    }
    false
}

impl Foreign {
    // No rule so far.
    pub(crate) fn new(alloc: Global) -> Foreign
        ensures { rules_in result ≡ [] }
    {
        Foreign {
            alloc,
            rules: Vec::new(alloc),
        }
    }

    // Adds a rule that needs this, the last of its chain.
    pub(crate) fn add<'a>(
        &mut self,
        chain: &[u8],
        needs: Vec<NeededText>,
        apart: &Apart<'a>,
        table: &OptionTable<'a>,
    ) -> Result<(), AllocError>
        ensures { OnOk result (rules_in self.new ≡ rules_in self.old ++ record {
          chain = chain.now;
          needs = needs_in needs.items;
          sets = set_by (table_in table.now) (parts_in apart.now);
          ends = ends_each (table_in table.now) (parts_in apart.now);
          verdict = verdict_of (table_in table.now) (parts_in apart.now);
        } ∷ []) }
    {
        let rule = ForeignRule {
            chain: chain.to_vec(self.alloc)?,
            needs,
            sets: apart.sets(self.alloc, table)?,
            ends: apart.ends_each(table),
            verdict: apart.verdict(self.alloc, table)?,
        };
        self.rules.push(rule)?;
        Ok(())
    }

    // Adds what targets set while a packet walks.
    pub(crate) fn add_written(
        &self,
        alloc: Global,
        names: &mut Vec<Vec<u8>>,
    ) -> Result<(), AllocError>
        ensures { IfOk result (λ _. kept_names names.new.items ≡ kept_names names.old.items ++ sets_in self.now) }
    {
        add_written(alloc, names, self.rules.as_slice())
    }

    /// Whether no rule needs anything, or has a verdict of its own.
    pub fn is_empty(&self) -> bool
        ensures { result ≡ not (list_any needs_some (rules_in self.now)) }
    {
        !one_needs(self.rules.as_slice())
    }

    /// The verdicts of their own of the rules of a chain, rule by rule, each by its words; they are lent.
    ///
    /// # Errors
    ///
    /// `AllocError` where memory was refused.
    ///
    /// # Cost
    ///
    /// A pass over the rules of all chains.
    pub fn verdicts_of_chain<'s>(
        &'s self,
        alloc: Global,
        chain: &[u8],
    ) -> Result<Vec<Option<&'s [u8]>>, AllocError>
        ensures { IfOk result (λ all. lent_verdicts all.items ≡ verdicts_in chain.now (rules_in self.now)) }
    {
        verdicts_among(alloc, self.rules.as_slice(), chain)
    }

    // Whether a chain has a rule.
    pub(crate) fn has_rule(&self, chain: &[u8]) -> bool
        ensures { result ≡ list_any (is_in chain.now) (rules_in self.now) }
    {
        one_in(self.rules.as_slice(), chain)
    }
}
