//! Commands, and their reader.
ghost use Rattle.std.specs.Prelude.{length, drop, map};
ghost use Rattle.restore.specs.Sequence.{made_into, refused_as};
ghost use Rattle.restore.specs.commands.Command.{Change, IsRead};
ghost use Rattle.restore.specs.commands.CommandForms.{command_of, edit_of, line_of, or_second};
ghost use Rattle.restore.specs.steps.Reading.{row_of};

mod args;
pub(crate) mod digits;
mod line;
mod name;
mod next;
mod second;

use crate::command::line::read_line;
use crate::command::name::CommandName;
use crate::command::second::or_second;
use crate::fault::CommandFault;
use fields::Words;
use rules::Rule;
use std::alloc::Global;

/// A command (iptables(8), "COMMANDS"). The words that it was read from are lent to it; names are any bytes.
#[derive(Drop)]
pub enum Command<'a> {
    /// `-A chain rule`: puts the rule last.
    Append(&'a [u8], Rule),
    /// `-I chain number rule`: the rule becomes that number, from 1.
    Insert(&'a [u8], usize, Rule),
    /// `-R chain number rule`: the rule takes the place of that number, from 1.
    Replace(&'a [u8], usize, Rule),
    /// `-D chain number`: takes the rule out.
    DeleteAt(&'a [u8], usize),
    /// `-D chain rule`: takes the first such rule out.
    DeleteRule(&'a [u8], Rule),
    /// `-C chain rule`: checks whether such a rule is there.
    Check(&'a [u8], Rule),
    /// `-F chain`: empties the chain.
    Flush(&'a [u8]),
    /// `-F`: empties every chain.
    FlushAll,
    /// `-N name`: makes a chain.
    NewChain(&'a [u8]),
    /// `-X chain`: takes the chain away.
    DeleteChain(&'a [u8]),
    /// `-X`: takes all user chains away.
    DeleteChains,
    /// `-P chain policy`: sets the policy of a built-in chain.
    SetPolicy(&'a [u8], &'a [u8]),
    /// `-E old new`: renames a chain.
    Rename(&'a [u8], &'a [u8]),
    /// `-S [chain]`: lists the rules of the chain, or of all.
    ListRules(Option<&'a [u8]>),
}

// One of these commands, or why the words from a place on write none.
fn read_among<'a>(
    alloc: Global,
    command_names: &[CommandName],
    words: &'a Words,
    from: usize,
) -> Result<Command<'a>, CommandFault>
    ensures { IsRead result
        (let rest = drop from words.now in refused_as (or_second (length words.now) rest) (line_of (map row_of command_names.now) (length words.now) rest)) }
{
    match read_line(alloc, command_names, words, from) {
        Ok(command) => Ok(command),
        Err(fault) => Err(or_second(words, from, fault)),
    }
}

impl<'a> Command<'a> {
    /// The command that the words from a place on write (iptables(8), "SYNOPSIS" and "COMMANDS"): its name, short or
    /// long, with `-t filter` before it or not, the words that follow the name, and a rule where it takes one. From
    /// beyond the last word on there are no words.
    ///
    /// It takes memory for the rule alone, as `read_rule` says, and time linear in the words and their bytes.
    ///
    /// # Errors
    ///
    /// The first fault in the order of the checks. `CommandFault::NoCommand`, C1, where no word is left for the
    /// command, or the word there names none; `TwoCommands`, C2, where the rule's reader comes on a word that it
    /// doesn't know and that names a command; `WordCount`, C3, for too few words before the rule, or words after a
    /// command that takes no rule; `OtherTable`, C4, for another table than `filter`; and `Rule` with the first fault
    /// of the rule, or of a value before it: a table without a name or named twice, or a number that can't be read.
    /// P0 is answered where memory was refused, never of words that write a command without a rule, nor where C1, C3
    /// or C4 is due.
    pub fn read(alloc: Global, words: &'a Words, from: usize) -> Result<Command<'a>, CommandFault>
        ensures { IsRead result (command_of (length words.now) (drop from words.now)) }
    {
        read_among(alloc, &CommandName::ALL, words, from)
    }

    // The same, of any command but `-S`, which is none here.
    pub(crate) fn read_edit(
        alloc: Global,
        words: &'a Words,
        from: usize,
    ) -> Result<Command<'a>, CommandFault>
        ensures { IsRead result (made_into Change (edit_of (length words.now) (drop from words.now))) }
    {
        read_among(alloc, &CommandName::ALL[..CommandName::EDITS], words, from)
    }
}
