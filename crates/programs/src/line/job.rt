//! The command line of `iptsim`: the job that the words after the program's name ask for.
ghost use Rattle.std.specs.Prelude.{◌≡◌, IfErr, IfOk, false, map};
ghost use Rattle.clap.specs.Words.{app_of, found_of, rows_of, rule_of};
ghost use Rattle.clap.specs.declared.builder.command.Command.TheViews.{out-Command as fields_of};
ghost use Rattle.programs.specs.JobLine.{IsJobOf, IsSubcommand, LacksFile, load_rule, program_app, restore_app, session_app};
ghost use Rattle.programs.specs.Line.{AsksFor, IsFaultOn};

use super::fault::LineFault;
use super::program::{flag, is_set, named, parse, with};
use clap::{Arg, ArgMatches, Command};
use std::alloc::{AllocError, Global};

/// What the program is asked to do.
#[derive(Clone, Copy, Debug, PartialEq, Eq)]
pub enum Task {
    /// A session from standard input to standard output.
    Session,
    /// A restore from standard input, and the listing that results.
    Restore {
        /// The rules and the user chains that are there stay.
        noflush: bool,
        /// The restore is read and built, and leaves the table as it is.
        test: bool,
    },
}

/// A task, and the file that is restored before it.
#[derive(Clone, Copy, Debug, PartialEq, Eq)]
pub struct Job<'a> {
    pub task: Task,
    pub load: Option<&'a str>,
}

// The option `--load FILE`.
fn load<'a>(alloc: Global) -> Arg<'a>
    ensures rule { rule_of result ≡ load_rule }
    ensures local { result.global ≡ false }
{
    Arg::new(alloc, "load")
        .long("load")
        .value_name("FILE")
        .help("Restore FILE first")
}

fn session<'a>(alloc: Global) -> Result<Command<'a>, AllocError>
    ensures app { IfOk result (λ c. app_of c ≡ session_app) }
    ensures local { IfOk result (λ c. (fields_of c).has_globals ≡ false) }
{
    Command::new(alloc, "session")
        .about("Run a session from standard input to standard output")
        .arg(load(alloc))
}

fn restore<'a>(alloc: Global) -> Result<Command<'a>, AllocError>
    ensures app { IfOk result (λ c. app_of c ≡ restore_app) }
    ensures local { IfOk result (λ c. (fields_of c).has_globals ≡ false) }
{
    Command::new(alloc, "restore")
        .about("Restore the file on standard input, and print the listing that results")
        .arg(flag(
            alloc,
            "noflush",
            "Keep the rules and the user chains that are there",
        ))?
        .arg(flag(
            alloc,
            "test",
            "Only read and build: put nothing in place, and print no listing",
        ))?
        .arg(load(alloc))
}

fn program<'a>(alloc: Global) -> Result<Command<'a>, AllocError>
    ensures { IfOk result (λ c. app_of c ≡ program_app) }
{
    let program = named(
        alloc,
        "iptsim",
        "The table `filter` of iptables for IPv4, without a kernel",
    )?;
    let program = with(program, session(alloc)?)?;
    let program = with(program, restore(alloc)?)?;
    Ok(program)
}

// The job of a subcommand.
fn job_of<'a>(subcommand: &str, matches: &ArgMatches<'a>) -> Job<'a>
    requires { IsSubcommand subcommand.now }
    ensures { IsJobOf subcommand.now (rows_of (found_of matches.now)) result }
{
    let task = match subcommand {
        "session" => Task::Session,
        "restore" => Task::Restore {
            noflush: is_set(matches, "noflush"),
            test: is_set(matches, "test"),
        },
        _ => unreachable!(),
    };
    Job {
        task,
        load: matches.get_str("load"),
    }
}

impl<'a> Job<'a> {
    /// The job that the words after the program's name ask for.
    ///
    /// # Errors
    ///
    /// `NoSubcommand` where `clap` takes the words and they name no subcommand; `Refused` where it refuses them, or they ask
    /// for help or the version; `NoMemory` where a growth of memory is refused.
    pub fn read(alloc: Global, words: &'a [&'a str]) -> Result<Job<'a>, LineFault>
        // `clap` takes the words, and the job is exactly what it makes of them.
        ensures job { IfOk result (AsksFor program_app IsJobOf (map (λ s. s.now) words.entry.now)) }

        // A fault says why the words are no job, unless memory is refused.
        ensures fault { IfErr result (IsFaultOn program_app LacksFile (map (λ s. s.now) words.entry.now)) }
    {
        let matches = parse(program(alloc)?, words)?;
        match matches.subcommand() {
            Some((name, inner)) => Ok(job_of(name, inner)),
            None => Err(LineFault::NoSubcommand),
        }
    }
}
