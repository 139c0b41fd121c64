//! What both programs' command lines have in common: how a program, a subcommand and a flag are declared, and how words are
//! parsed.
ghost use Rattle.std.specs.Prelude.{◌≡◌, [], IfErr, IfOk, false, map, true};
ghost use Rattle.clap.specs.Words.{HasMatchesOf, app_of, fault_of as kinds_of, first_of, found_of, is_simple_and_free, new_app, rows_of, rule_of, with_subcommand};
ghost use Rattle.clap.specs.declared.builder.command.Command.TheViews.{out-Command as fields_of};
ghost use Rattle.programs.specs.Line.{IsRefusal, as_program, flag_rule, is_true};

use super::VERSION;
use super::fault::{LineFault, fault_of};
use clap::{Arg, ArgAction, ArgMatches, Command};
use std::alloc::{AllocError, Global};

// A program of this name, without subcommands.
pub(crate) fn named<'a>(
    alloc: Global,
    name: &'a str,
    about: &'a str,
) -> Result<Command<'a>, AllocError>
    ensures { IfOk result (λ c. app_of c ≡ as_program (new_app name.entry.now)) }
{
    Ok(
        Command::new(alloc, name)
            .bin_name(name)?
            .about(about)
            .version(VERSION)
            .no_binary_name(true)
            .disable_help_subcommand(true),
    )
}

// Adds a subcommand without global options.
pub(crate) fn with<'a>(
    command: Command<'a>,
    subcommand: Command<'a>,
) -> Result<Command<'a>, AllocError>
    requires { (fields_of subcommand).has_globals ≡ false }
    ensures { IfOk result (λ c. app_of c ≡ with_subcommand (app_of command.entry) (app_of subcommand.entry).top) }
{
    command.subcommand(subcommand)
}

// A flag, which is written as its name after `--`.
pub(crate) fn flag<'a>(alloc: Global, name: &'a str, help: &'a str) -> Arg<'a>
    ensures rule { rule_of result ≡ flag_rule name.entry.now }
    ensures local { result.global ≡ false }
{
    Arg::new(alloc, name)
        .long(name)
        .action(ArgAction::SetTrue)
        .help(help)
}

// Whether a flag was given.
pub(crate) fn is_set(matches: &ArgMatches<'_>, name: &str) -> bool
    ensures { result ≡ is_true (first_of name.now (rows_of (found_of matches.now))) }
{
    match matches.get_str(name) {
        Some(text) => text == "true",
        None => false,
    }
}

// Parses the words that stand after the program's name.
pub(crate) fn parse<'a>(
    program: Command<'a>,
    words: &'a [&'a str],
) -> Result<ArgMatches<'a>, LineFault>
    requires { is_simple_and_free (app_of program) ≡ true }
    ensures taken { IfOk result (λ _. kinds_of (app_of program.entry) (map (λ s. s.now) words.entry.now) ≡ []) }
    ensures matches { IfOk result (HasMatchesOf (app_of program.entry) (map (λ s. s.now) words.entry.now)) }
    ensures refused { IfErr result (IsRefusal (kinds_of (app_of program.entry) (map (λ s. s.now) words.entry.now))) }
{
    match program.try_get_matches_from(words) {
        Ok(matches) => Ok(matches),
        Err(error) => Err(fault_of(error)),
    }
}
