//! Why a ruleset cannot be read.
use dumps::{LineWord, OptionRefusal};
use programs::ProgramFault;
use std::alloc::AllocError;
use thiserror::Error;

/// Why a ruleset cannot be read, with its message.
#[derive(Debug, Drop, Error)]
pub enum RulesetFault<'a> {
    /// One of those of each program.
    #[error(transparent)]
    Program(ProgramFault<'a>),
    /// The word after `--local`.
    #[error("no addresses: {0}")]
    NoAddresses(&'a str),
    /// The word after `--local`.
    #[error("more than 8 addresses: {0}")]
    TooManyAddresses(&'a str),
    /// A word of `--unknown`.
    #[error("neither MATCH nor MATCH OPTION N: {0}")]
    NoMatch(&'a str),
    /// A word of `--unknown` that names a target, or a match or an option which is known.
    #[error("{1}: {0}")]
    CannotAdd(&'a str, OptionRefusal),
    /// A word of `--when`.
    #[error("no rule has this condition: {0}")]
    NoCondition(&'a str),
    /// A word of `--when` that contradicts another one.
    #[error("answered twice: {0}")]
    AnsweredTwice(&'a str),
    /// The file, the number and the text of a line with an answer.
    #[error("{0}:{1}: no rule has this condition: {2}")]
    FileNoCondition(&'a str, u64, String),
    /// The same of an answer that contradicts another one.
    #[error("{0}:{1}: answered twice: {2}")]
    FileAnsweredTwice(&'a str, u64, String),
    /// A file whose chains aren't made by its `-A` lines alone, so that it isn't known which rules ask its conditions.
    #[error("cannot tell which rules of {0} have its conditions")]
    CannotPlace(&'a str),
    /// A file that is asked for the verdicts of a set of packets.
    #[error("reach cannot take conditions, which {0} has")]
    HasConditions(&'a str),
    /// A condition of two files that `--when` leaves open, of which a target sets what it asks.
    #[error("compare cannot take a condition that a target sets, as MARK does, but with --when: {0}")]
    IsSet(LineWord),
    /// A file was refused, and its fault was written.
    #[error("cannot restore {0}")]
    CannotRestore(&'a str),
}

impl From<AllocError> for RulesetFault<'_> {
    fn from(_error: AllocError) -> Self {
        RulesetFault::Program(ProgramFault::NoMemory)
    }
}

impl<'a> From<ProgramFault<'a>> for RulesetFault<'a> {
    fn from(fault: ProgramFault<'a>) -> Self {
        RulesetFault::Program(fault)
    }
}
