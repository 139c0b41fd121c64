//! What follows the name of a command, a row a command.
ghost use Rattle.std.specs.Prelude.{length, drop};
ghost use Rattle.restore.specs.commands.Command.{IsRead};
ghost use Rattle.restore.specs.steps.Reading.{row_of};
ghost use Rattle.restore.specs.declared.command.name.CommandName.TheVariants as command_names;

use crate::command::Command;
use crate::command::name::CommandName;
use crate::command::next::{
    last_word, last_word_if_any, next_number, next_number_if_digits, next_word, nothing, rule,
};
use crate::fault::CommandFault;
use fields::Words;
use std::alloc::Global;

// A chain, and a rule to be put last.
#[tactic(auto, using(crate::proofs::laws::commands::LineLaws::of_rule, crate::proofs::laws::commands::LineLaws::appended))]
fn append<'a>(alloc: Global, words: &'a Words, place: usize) -> Result<Command<'a>, CommandFault>
    ensures { IsRead result ((row_of command_names.Append).follows (length words.now) (drop place words.now)) }
{
    let (chain, after) = next_word(words, place, CommandFault::WordCount)?;
    let rule = rule(alloc, words, after)?;
    Ok(Command::Append(chain, rule))
}

// A chain, and a rule to be looked for.
#[tactic(auto, using(crate::proofs::laws::commands::LineLaws::of_rule, crate::proofs::laws::commands::LineLaws::checked))]
fn check<'a>(alloc: Global, words: &'a Words, place: usize) -> Result<Command<'a>, CommandFault>
    ensures { IsRead result ((row_of command_names.Check).follows (length words.now) (drop place words.now)) }
{
    let (chain, after) = next_word(words, place, CommandFault::WordCount)?;
    let rule = rule(alloc, words, after)?;
    Ok(Command::Check(chain, rule))
}

// A chain, and the number of a rule to be taken out or the rule itself.
#[tactic(auto, using(crate::proofs::laws::commands::LineLaws::of_rule, crate::proofs::laws::commands::LineLaws::deleted))]
fn delete<'a>(alloc: Global, words: &'a Words, place: usize) -> Result<Command<'a>, CommandFault>
    ensures { IsRead result ((row_of command_names.Delete).follows (length words.now) (drop place words.now)) }
{
    let (chain, after) = next_word(words, place, CommandFault::WordCount)?;
    if let Some((number, after)) = next_number_if_digits(words, after)? {
        nothing(words, after)?;
        return Ok(Command::DeleteAt(chain, number));
    }
    let rule = rule(alloc, words, after)?;
    Ok(Command::DeleteRule(chain, rule))
}

// A chain, the number that a rule is to have, or else 1, and the rule.
#[tactic(auto, using(crate::proofs::laws::commands::LineLaws::of_rule, crate::proofs::laws::commands::LineLaws::inserted))]
fn insert<'a>(alloc: Global, words: &'a Words, place: usize) -> Result<Command<'a>, CommandFault>
    ensures { IsRead result ((row_of command_names.Insert).follows (length words.now) (drop place words.now)) }
{
    let (chain, after) = next_word(words, place, CommandFault::WordCount)?;
    match next_number_if_digits(words, after)? {
        Some((number, after)) => {
            let rule = rule(alloc, words, after)?;
            return Ok(Command::Insert(chain, number, rule));
        }
        None => {
            let rule = rule(alloc, words, after)?;
            return Ok(Command::Insert(chain, 1, rule));
        }
    }
}

// A chain, the number of a rule, and the rule to stand there.
#[tactic(auto, using(crate::proofs::laws::commands::LineLaws::of_rule, crate::proofs::laws::commands::LineLaws::replaced))]
fn replace<'a>(alloc: Global, words: &'a Words, place: usize) -> Result<Command<'a>, CommandFault>
    ensures { IsRead result ((row_of command_names.Replace).follows (length words.now) (drop place words.now)) }
{
    let (chain, after) = next_word(words, place, CommandFault::WordCount)?;
    let (number, after) = next_number(words, after)?;
    let rule = rule(alloc, words, after)?;
    Ok(Command::Replace(chain, number, rule))
}

// A chain to be emptied, or all.
#[tactic(auto, using(crate::proofs::laws::commands::LineLaws::of_rule))]
fn flush<'a>(words: &'a Words, place: usize) -> Result<Command<'a>, CommandFault>
    ensures { IsRead result ((row_of command_names.Flush).follows (length words.now) (drop place words.now)) }
{
    match last_word_if_any(words, place)? {
        Some(chain) => Ok(Command::Flush(chain)),
        None => Ok(Command::FlushAll),
    }
}

// A chain to be taken away, or all user chains.
#[tactic(auto, using(crate::proofs::laws::commands::LineLaws::of_rule))]
fn delete_chain<'a>(words: &'a Words, place: usize) -> Result<Command<'a>, CommandFault>
    ensures { IsRead result ((row_of command_names.DeleteChain).follows (length words.now) (drop place words.now)) }
{
    match last_word_if_any(words, place)? {
        Some(chain) => Ok(Command::DeleteChain(chain)),
        None => Ok(Command::DeleteChains),
    }
}

// The name of a chain to be made.
#[tactic(auto, using(crate::proofs::laws::commands::LineLaws::of_rule))]
fn new_chain<'a>(words: &'a Words, place: usize) -> Result<Command<'a>, CommandFault>
    ensures { IsRead result ((row_of command_names.NewChain).follows (length words.now) (drop place words.now)) }
{
    let name = last_word(words, place)?;
    Ok(Command::NewChain(name))
}

// A chain, and its policy.
#[tactic(auto, using(crate::proofs::laws::commands::LineLaws::of_rule))]
fn policy<'a>(words: &'a Words, place: usize) -> Result<Command<'a>, CommandFault>
    ensures { IsRead result ((row_of command_names.Policy).follows (length words.now) (drop place words.now)) }
{
    let (chain, after) = next_word(words, place, CommandFault::WordCount)?;
    let policy = last_word(words, after)?;
    Ok(Command::SetPolicy(chain, policy))
}

// A chain, and its new name.
#[tactic(auto, using(crate::proofs::laws::commands::LineLaws::of_rule))]
fn rename<'a>(words: &'a Words, place: usize) -> Result<Command<'a>, CommandFault>
    ensures { IsRead result ((row_of command_names.Rename).follows (length words.now) (drop place words.now)) }
{
    let (old, after) = next_word(words, place, CommandFault::WordCount)?;
    let new = last_word(words, after)?;
    Ok(Command::Rename(old, new))
}

// A chain whose rules are to be listed, or all.
#[tactic(auto, using(crate::proofs::laws::commands::LineLaws::of_rule))]
fn list_rules<'a>(words: &'a Words, place: usize) -> Result<Command<'a>, CommandFault>
    ensures { IsRead result ((row_of command_names.ListRules).follows (length words.now) (drop place words.now)) }
{
    let chain = last_word_if_any(words, place)?;
    Ok(Command::ListRules(chain))
}

impl CommandName {
    // The command of this name, with the words from a place on.
    pub(crate) fn parse_args<'a>(
        self,
        alloc: Global,
        words: &'a Words,
        place: usize,
    ) -> Result<Command<'a>, CommandFault>
        ensures { IsRead result ((row_of self).follows (length words.now) (drop place words.now)) }
    {
        match self {
            CommandName::Append => append(alloc, words, place),
            CommandName::Check => check(alloc, words, place),
            CommandName::Delete => delete(alloc, words, place),
            CommandName::Insert => insert(alloc, words, place),
            CommandName::Replace => replace(alloc, words, place),
            CommandName::Flush => flush(words, place),
            CommandName::DeleteChain => delete_chain(words, place),
            CommandName::NewChain => new_chain(words, place),
            CommandName::Policy => policy(words, place),
            CommandName::Rename => rename(words, place),
            CommandName::ListRules => list_rules(words, place),
        }
    }
}
