//! A second command among the words of a rule.
ghost use Rattle.std.specs.Prelude.{◌≡◌, length, drop};
ghost use Rattle.restore.specs.commands.CommandForms.{is_command, or_second, word_at};

use crate::command::name::CommandName;
use crate::command::next::next_word;
use crate::fault::CommandFault;
use fields::Words;
use rules::{Refusal, RuleFault};

// Whether the name of a command stands at a place, which is read as `from` where it stands before that.
fn is_command_at(words: &Words, from: usize, place: usize) -> bool
    ensures { result ≡ is_command (word_at (length words.now) (drop from words.now) place) }
{
    match next_word(words, from.max(place), CommandFault::NoCommand) {
        Ok((word, _)) => CommandName::named(&CommandName::ALL, word).is_some(),
        Err(_) => false,
    }
}

// The fault of the words from a place on: an unknown option that is a command's name is a second command.
pub(crate) fn or_second(words: &Words, from: usize, fault: CommandFault) -> CommandFault
    ensures { result ≡ or_second (length words.now) (drop from words.now) fault }
{
    match fault {
        CommandFault::Rule(RuleFault::Refused(Refusal::UnknownOption(place))) => {
            if is_command_at(words, from, place) {
                return CommandFault::TwoCommands;
            }
            fault
        }
        _ => fault,
    }
}
