//! The command line of `iptaudit`: the question that the words after the program's name ask.
ghost use Rattle.std.specs.Prelude.{◌≡◌, IfErr, IfOk, MatchOption, codes, false, map};
ghost use Rattle.clap.specs.Words.{app_of, found_of, rows_of, rule_of};
ghost use Rattle.clap.specs.declared.builder.command.Command.TheViews.{out-Command as fields_of};
ghost use Rattle.programs.specs.AuditLine.{IsAuditOf, IsQuestion, IsSubcommand, LacksFile, assert_app, compare_app, file_rule, json_rule, local_rule, one_file_app, program_app, reach_app, steps_rule, unknown_rule, values_of, when_rule, with_options, with_whole_options, words_rule};
ghost use Rattle.programs.specs.Line.{AsksFor, IsFaultOn};

use super::fault::LineFault;
use super::program::{flag, is_set, named, parse, with};
use clap::{Arg, ArgAction, ArgMatches, Command};
use std::alloc::{AllocError, Global};

/// What is asked, and of which files.
#[derive(Clone, Copy, Debug, PartialEq, Eq)]
pub enum Question<'a> {
    /// Which rules no packet can match.
    Dead { file: &'a str },
    /// Whether two rulesets give each packet the same verdict.
    Compare { old: &'a str, new: &'a str },
    /// A packet for each rule.
    Tests { file: &'a str },
    /// Which rules match none of some packets.
    Cover { file: &'a str },
    /// The verdicts of a set of packets, grouped by a field.
    Reach { file: &'a str },
    /// The walks of some packets.
    Walk { file: &'a str },
    /// Whether claims about all packets hold.
    Assert { file: &'a str, claims: &'a str },
}

/// A question, the number that was given of steps, whether the answer is to be JSON, the conditions that are answered, the options that are
/// added, the addresses of the machine, and the words after the file, where some packets are asked about.
#[derive(Debug, Drop)]
pub struct Audit<'a> {
    pub question: Question<'a>,
    pub steps: Option<&'a str>,
    pub json: bool,
    pub when: Vec<&'a str>,
    pub unknown: Vec<&'a str>,
    pub local: Option<&'a str>,
    pub words: Vec<&'a str>,
}

// The option `--steps N`.
fn steps<'a>(alloc: Global) -> Arg<'a>
    ensures rule { rule_of result ≡ steps_rule }
    ensures local { result.global ≡ false }
{
    Arg::new(alloc, "steps").long("steps").value_name("N").help(
        "Take N steps at most for each question, each a rule asked of a box of packets [default: 20000]",
    )
}

// The flag `--json`.
fn json<'a>(alloc: Global) -> Arg<'a>
    ensures rule { rule_of result ≡ json_rule }
    ensures local { result.global ≡ false }
{
    flag(alloc, "json", "Print the answer as one JSON document")
}

// The option `--when CONDITION`, which may stand several times.
fn when<'a>(alloc: Global) -> Arg<'a>
    ensures rule { rule_of result ≡ when_rule }
    ensures local { result.global ≡ false }
{
    Arg::new(alloc, "when")
        .long("when")
        .action(ArgAction::Append)
        .value_name("CONDITION")
        .help("Take CONDITION as one that holds, or after '! ' as one that doesn't")
}

// The option `--unknown MATCH`, which may stand several times.
fn unknown<'a>(alloc: Global) -> Arg<'a>
    ensures rule { rule_of result ≡ unknown_rule }
    ensures local { result.global ≡ false }
{
    Arg::new(alloc, "unknown")
        .long("unknown")
        .action(ArgAction::Append)
        .value_name("MATCH")
        .help("Read MATCH as a condition; 'MATCH OPTION N' gives it an option with N values")
}

// The option `--local ADDRESSES`.
fn local<'a>(alloc: Global) -> Arg<'a>
    ensures rule { rule_of result ≡ local_rule }
    ensures local { result.global ≡ false }
{
    Arg::new(alloc, "local")
        .long("local")
        .value_name("ADDRESSES")
        .help("Read addrtype by the machine's addresses, ADDRESS/LENGTH, with commas between")
}

// Adds the options that each subcommand has.
fn options<'a>(alloc: Global, command: Command<'a>) -> Result<Command<'a>, AllocError>
    requires { (fields_of command).has_globals ≡ false }
    ensures app { IfOk result (λ c. app_of c ≡ with_options (app_of command.entry)) }
    ensures local { IfOk result (λ c. (fields_of c).has_globals ≡ false) }
{
    command.arg(steps(alloc))?.arg(json(alloc))
}

// Adds the options of a subcommand that takes conditions.
fn whole_options<'a>(alloc: Global, command: Command<'a>) -> Result<Command<'a>, AllocError>
    requires { (fields_of command).has_globals ≡ false }
    ensures app { IfOk result (λ c. app_of c ≡ with_whole_options (app_of command.entry)) }
    ensures local { IfOk result (λ c. (fields_of c).has_globals ≡ false) }
{
    options(alloc, command)?
        .arg(when(alloc))?
        .arg(unknown(alloc))?
        .arg(local(alloc))
}

// A file, which is a word of its own.
fn file<'a>(alloc: Global, name: &'a str, shown: &'a str, help: &'a str) -> Arg<'a>
    ensures rule { rule_of result ≡ file_rule name.entry.now }
    ensures local { result.global ≡ false }
{
    Arg::new(alloc, name)
        .required(true)
        .value_name(shown)
        .help(help)
}

// A subcommand that asks about one file.
fn one_file<'a>(alloc: Global, name: &'a str, about: &'a str) -> Result<Command<'a>, AllocError>
    ensures app { IfOk result (λ c. app_of c ≡ one_file_app name.entry.now) }
    ensures local { IfOk result (λ c. (fields_of c).has_globals ≡ false) }
{
    let command = Command::new(alloc, name)
        .about(about)
        .arg(file(alloc, "file", "FILE", "A file of iptables-restore"))?;
    whole_options(alloc, command)
}

// Words that say which packets are asked about: one or more, after the file.
fn words<'a>(alloc: Global) -> Arg<'a>
    ensures rule { rule_of result ≡ words_rule }
    ensures local { result.global ≡ false }
{
    Arg::new(alloc, "word")
        .required(true)
        .action(ArgAction::Append)
        .num_args(1..)
        .value_name("WORD")
        .help("A hook, key=value of packets, and by=FIELD")
}

fn reach<'a>(alloc: Global) -> Result<Command<'a>, AllocError>
    ensures app { IfOk result (λ c. app_of c ≡ reach_app) }
    ensures local { IfOk result (λ c. (fields_of c).has_globals ≡ false) }
{
    let command = Command::new(alloc, "reach")
        .about("Print the verdicts of a set of packets, grouped by a field")
        .arg(file(alloc, "file", "FILE", "A file of iptables-restore"))?
        .arg(words(alloc))?;
    options(alloc, command)
}

fn compare<'a>(alloc: Global) -> Result<Command<'a>, AllocError>
    ensures app { IfOk result (λ c. app_of c ≡ compare_app) }
    ensures local { IfOk result (λ c. (fields_of c).has_globals ≡ false) }
{
    let command = Command::new(alloc, "compare")
        .about("Print whether two rulesets give each packet the same verdict")
        .arg(file(alloc, "old", "OLD", "A file of iptables-restore"))?
        .arg(file(alloc, "new", "NEW", "Another one"))?;
    whole_options(alloc, command)
}

fn assert<'a>(alloc: Global) -> Result<Command<'a>, AllocError>
    ensures app { IfOk result (λ c. app_of c ≡ assert_app) }
    ensures local { IfOk result (λ c. (fields_of c).has_globals ≡ false) }
{
    let command = Command::new(alloc, "assert")
        .about("Print which claims hold of all packets, or a packet for which one fails")
        .arg(file(alloc, "file", "FILE", "A file of iptables-restore"))?
        .arg(file(alloc, "claims", "CLAIMS", "A file of claims, a line each"))?;
    whole_options(alloc, command)
}

fn program<'a>(alloc: Global) -> Result<Command<'a>, AllocError>
    ensures { IfOk result (λ c. app_of c ≡ program_app) }
{
    let dead = one_file(alloc, "dead", "Print the rules that no packet can match")?;
    let tests = one_file(
        alloc,
        "tests",
        "Print a session with a packet for each rule",
    )?;
    let cover = one_file(
        alloc,
        "cover",
        "Print the rules that match none of the packets on standard input",
    )?;
    let walk = one_file(
        alloc,
        "walk",
        "Print the walks of the packets on standard input",
    )?;
    let program = named(
        alloc,
        "iptaudit",
        "Questions about all packets, asked of files of iptables-restore",
    )?;
    let program = with(program, dead)?;
    let program = with(program, compare(alloc)?)?;
    let program = with(program, tests)?;
    let program = with(program, cover)?;
    let program = with(program, reach(alloc)?)?;
    let program = with(program, walk)?;
    let program = with(program, assert(alloc)?)?;
    Ok(program)
}

// The question of a subcommand, if its files are there.
fn question_of<'a>(subcommand: &str, matches: &ArgMatches<'a>) -> Option<Question<'a>>
    requires { IsSubcommand subcommand.now }
    ensures { MatchOption result (LacksFile subcommand.now (rows_of (found_of matches.now)))
        (IsQuestion subcommand.now (rows_of (found_of matches.now))) }
{
    match subcommand {
        "dead" => match matches.get_str("file") {
            Some(file) => Some(Question::Dead { file }),
            None => None,
        },
        "compare" => match (matches.get_str("old"), matches.get_str("new")) {
            (Some(old), Some(new)) => Some(Question::Compare { old, new }),
            _ => None,
        },
        "tests" => match matches.get_str("file") {
            Some(file) => Some(Question::Tests { file }),
            None => None,
        },
        "cover" => match matches.get_str("file") {
            Some(file) => Some(Question::Cover { file }),
            None => None,
        },
        "reach" => match matches.get_str("file") {
            Some(file) => Some(Question::Reach { file }),
            None => None,
        },
        "walk" => match matches.get_str("file") {
            Some(file) => Some(Question::Walk { file }),
            None => None,
        },
        "assert" => match (matches.get_str("file"), matches.get_str("claims")) {
            (Some(file), Some(claims)) => Some(Question::Assert { file, claims }),
            _ => None,
        },
        _ => unreachable!(),
    }
}

// All that was given under a name, where anything was.
fn words_of<'a>(
    alloc: Global,
    matches: &ArgMatches<'a>,
    name: &str,
) -> Result<Vec<&'a str>, AllocError>
    ensures { IfOk result (λ words. map (λ s. s.now) words.items ≡ values_of name.now (rows_of (found_of matches.now))) }
{
    let mut words = Vec::new(alloc);
    match matches.get_strs(name) {
        Some(given) => {
            words.extend_from_slice(given)?;
            Ok(words)
        }
        None => Ok(words),
    }
}

impl<'a> Audit<'a> {
    /// The audit that the words after the program's name ask for.
    ///
    /// # Errors
    ///
    /// `NoSubcommand` where `clap` takes the words and they name no subcommand; `NoFile` where it gives no file; `Refused`
    /// where it refuses them, or they ask for help or the version; `NoMemory` where a growth of memory is refused.
    pub fn read(alloc: Global, words: &'a [&'a str]) -> Result<Audit<'a>, LineFault>
        // `clap` takes the words, and the audit is exactly what it makes of them.
        ensures audit { IfOk result (AsksFor program_app IsAuditOf (map (λ s. s.now) words.entry.now)) }

        // A fault says why the words are no audit, unless memory is refused.
        ensures fault { IfErr result (IsFaultOn program_app LacksFile (map (λ s. s.now) words.entry.now)) }
    {
        let matches = parse(program(alloc)?, words)?;
        let Some((name, inner)) = matches.subcommand() else {
            return Err(LineFault::NoSubcommand);
        };
        let when = words_of(alloc, inner, "when")?;
        let unknown = words_of(alloc, inner, "unknown")?;
        let local = inner.get_str("local");
        let words = words_of(alloc, inner, "word")?;
        match question_of(name, inner) {
            Some(question) => Ok(Audit {
                question,
                steps: inner.get_str("steps"),
                json: is_set(inner, "json"),
                when,
                unknown,
                local,
                words,
            }),
            None => Err(LineFault::NoFile),
        }
    }
}
