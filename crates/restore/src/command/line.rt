//! A command, after the table that may be named before it.
ghost use Rattle.std.specs.Prelude.{◌≡◌, ◌||◌, length, drop, map, find, codes, Err};
ghost use Rattle.std.specs.Str.{bytes_eq};
ghost use Rattle.rules.specs.declared.reading.fault.Refusal.TheVariants as refusal;
ghost use Rattle.restore.specs.commands.Command.{IsRead};
ghost use Rattle.restore.specs.commands.CommandForms.{followed, is_name_of, line_of, named, refused, value};
ghost use Rattle.restore.specs.steps.Reading.{row_of};

use crate::command::Command;
use crate::command::name::CommandName;
use crate::command::next::next_word;
use crate::fault::CommandFault;
use fields::Words;
use rules::{Refusal, RuleFault};
use std::alloc::Global;

// A refusal of a value before the rule.
fn refused(refusal: Refusal) -> CommandFault
    ensures { result ≡ refused refusal }
{
    CommandFault::Rule(RuleFault::Refused(refusal))
}

// Whether a word says that the table's name follows.
fn is_table(word: &[u8]) -> bool
    ensures { result ≡ (bytes_eq word.now (codes "-t") || bytes_eq word.now (codes "--table")) }
{
    word == b"-t".as_slice() || word == b"--table".as_slice()
}

// The one of these commands that a word names, with the words from a place on.
fn command_named<'a>(
    alloc: Global,
    command_names: &[CommandName],
    name: &[u8],
    words: &'a Words,
    place: usize,
) -> Result<Command<'a>, CommandFault>
    ensures { IsRead result
        (followed (find (is_name_of name.now) (map row_of command_names.now)) (length words.now) (drop place words.now)) }
{
    match CommandName::named(command_names, name) {
        Some(name) => name.parse_args(alloc, words, place),
        None => Err(CommandFault::NoCommand),
    }
}

// The refusal of a table that is named again.
fn named_again<'a>(words: &'a Words, place: usize) -> Result<Command<'a>, CommandFault>
    ensures { IsRead result
        (value (λ name end words. Err (refused refusal.RepeatedOption)) (length words.now) (drop place words.now)) }
{
    next_word(words, place, refused(Refusal::ValueMissing))?;
    Err(refused(Refusal::RepeatedOption))
}

// The name of the table, which is `filter`, and one of these commands.
fn with_table<'a>(
    alloc: Global,
    command_names: &[CommandName],
    words: &'a Words,
    place: usize,
) -> Result<Command<'a>, CommandFault>
    ensures { IsRead result (value (named (map row_of command_names.now)) (length words.now) (drop place words.now)) }
{
    let (table, after) = next_word(words, place, refused(Refusal::ValueMissing))?;
    if table != b"filter".as_slice() {
        return Err(CommandFault::OtherTable);
    }
    let (name, after) = next_word(words, after, CommandFault::NoCommand)?;
    if is_table(name) {
        return named_again(words, after);
    }
    command_named(alloc, command_names, name, words, after)
}

// One of these commands, after its table where that is named.
pub(crate) fn read_line<'a>(
    alloc: Global,
    command_names: &[CommandName],
    words: &'a Words,
    place: usize,
) -> Result<Command<'a>, CommandFault>
    ensures { IsRead result (line_of (map row_of command_names.now) (length words.now) (drop place words.now)) }
{
    let (name, after) = next_word(words, place, CommandFault::NoCommand)?;
    if is_table(name) {
        return with_table(alloc, command_names, words, after);
    }
    command_named(alloc, command_names, name, words, after)
}
