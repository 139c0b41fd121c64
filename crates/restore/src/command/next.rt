//! The next word, number or rule of a command.
ghost use Rattle.std.specs.Prelude.{◌≡◌, [], ◌∷◌, length, drop, Some, None, option_map};
ghost use Rattle.rules.specs.reading.Steps.{rule_of};
ghost use Rattle.restore.specs.Sequence.{Gives, made_into, refused_as};
ghost use Rattle.restore.specs.commands.Command.{is_out_of_memory};
ghost use Rattle.restore.specs.commands.CommandForms.{Word, if_fits◌then◌else◌, refused, takes};
ghost use Rattle.restore.specs.steps.Reading.{next_number, next_number_if_digits, next_or};

use crate::command::digits::is_digits;
use crate::fault::CommandFault;
use fields::{Words, read_number};
use rules::{Refusal, Rule, RuleFault, read_rule};
use std::alloc::Global;

// The word at a place and the place after it, or else the fault.
pub(crate) fn next_word<'a>(
    words: &'a Words,
    place: usize,
    fault: CommandFault,
) -> Result<(&'a [u8], usize), CommandFault>
    ensures { made_into (λ p. (p.0.now, drop p.1 words.now)) result ≡ next_or fault (drop place words.now) }
{
    if place >= words.len() {
        return Err(fault);
    }
    Ok((words.get(place), place + 1))
}

// No word is left.
pub(crate) fn nothing(words: &Words, place: usize) -> Result<(), CommandFault>
    ensures { result ≡ takes [] tt (length words.now) (drop place words.now) }
{
    if place < words.len() {
        return Err(CommandFault::WordCount);
    }
    Ok(())
}

// The word at a place, which is the last.
pub(crate) fn last_word<'a>(words: &'a Words, place: usize) -> Result<&'a [u8], CommandFault>
    ensures { made_into (λ w. w.now) result ≡ takes (Word ∷ []) (λ w. w) (length words.now) (drop place words.now) }
{
    let (word, after) = next_word(words, place, CommandFault::WordCount)?;
    nothing(words, after)?;
    Ok(word)
}

// The word at a place, which is the last, or none.
pub(crate) fn last_word_if_any<'a>(
    words: &'a Words,
    place: usize,
) -> Result<Option<&'a [u8]>, CommandFault>
    ensures { made_into (option_map (λ w. w.now)) result
        ≡ (if_fits Word ∷ [] then (λ w. Some w) else takes [] None) (length words.now) (drop place words.now) }
{
    if place >= words.len() {
        return Ok(None);
    }
    let word = last_word(words, place)?;
    Ok(Some(word))
}

// The word at a place as a number, and the place after it.
pub(crate) fn next_number(words: &Words, place: usize) -> Result<(usize, usize), CommandFault>
    ensures { made_into (λ p. (p.0, drop p.1 words.now)) result ≡ next_number (drop place words.now) }
{
    let (word, after) = next_word(words, place, CommandFault::WordCount)?;
    match read_number(word) {
        Some(number) => Ok((number as usize, after)),
        None => Err(CommandFault::Rule(RuleFault::Refused(Refusal::BadValue))),
    }
}

// The same, where the word at the place is made of digits alone.
pub(crate) fn next_number_if_digits(
    words: &Words,
    place: usize,
) -> Result<Option<(usize, usize)>, CommandFault>
    ensures { made_into (option_map (λ p. (p.0, drop p.1 words.now))) result
        ≡ next_number_if_digits (drop place words.now) }
{
    if place >= words.len() {
        return Ok(None);
    }
    if !is_digits(words.get(place)) {
        return Ok(None);
    }
    let number = next_number(words, place)?;
    Ok(Some(number))
}

// The words from a place on, as a rule.
pub(crate) fn rule(alloc: Global, words: &Words, place: usize) -> Result<Rule, CommandFault>
    ensures { Gives is_out_of_memory (λ r. r) result (refused_as refused (rule_of (length words.now) (drop place words.now))) }
{
    match read_rule(alloc, words, place) {
        Ok(rule) => Ok(rule),
        Err(fault) => Err(CommandFault::Rule(fault)),
    }
}
