//! Why there is no answer.
use fields::WriteFailed;
use programs::ProgramFault;
use reports::ReportFault;
use rulesets::RulesetFault;
use std::alloc::AllocError;
use thiserror::Error;

/// Why the program ends without an answer, with its message.
#[derive(Debug, Drop, Error)]
pub(crate) enum Fault<'a> {
    /// One of those of each program.
    #[error(transparent)]
    Program(ProgramFault<'a>),
    /// A file can't be read as the words say, or can't be asked this.
    #[error(transparent)]
    Ruleset(RulesetFault<'a>),
    /// The word after `--steps`.
    #[error("no number of steps: {0}")]
    NoNumber(&'a str),
    /// The first word of `reach` behind the file.
    #[error("no hook: {0}")]
    NoHook(&'a str),
    /// A word that is no `key=value` of packets and no `by=FIELD`, or one too many.
    #[error("bad word: {0}")]
    BadWord(&'a str),
    /// A word of packets with which those before it leave none at the hook, or `by=FIELD` where none of them carries the field.
    #[error("no such packet: {0}")]
    NoPackets(&'a str),
    /// The first word of a claim, which isn't `never`, `always` or `only`.
    #[error("no claim: {0}")]
    NoClaim(&'a str),
    /// A word of a claim before `at`.
    #[error("no verdict: {0}")]
    NoVerdict(&'a str),
    /// A claim lacks `at` or the hook.
    #[error("at HOOK is missing")]
    NoPlace,
    /// No word of packets stands behind `only`.
    #[error("a word is missing behind only")]
    NoException,
    /// A claim with the name of another one.
    #[error("name given twice: {0}")]
    NamedTwice(&'a str),
    /// A claim in which no verdict is left to stand for targets' own.
    #[error("no verdict is left to stand for those of targets in {0}")]
    Untold(&'a str),
    /// A line of a file of claims is no UTF-8.
    #[error("not UTF-8")]
    NotText,
    /// A line of a file of claims is too long.
    #[error("line too long")]
    TooLong,
    /// The file and the number of a line of claims, and what is wrong there.
    #[error("{0}:{1}: {2}")]
    AtLine(&'a str, u64, String),
    /// A file without claims.
    #[error("no claim in {0}")]
    NoClaims(&'a str),
    /// The word `by=FIELD` is missing.
    #[error("by=FIELD is missing")]
    NoField,
}

impl Fault<'_> {
    /// The status that the program ends with: 2 or 4.
    pub(crate) fn status(&self) -> u8 {
        match self {
            Fault::Program(ProgramFault::NoMemory) => 4,
            _ => 2,
        }
    }
}

impl<'a> From<RulesetFault<'a>> for Fault<'a> {
    fn from(fault: RulesetFault<'a>) -> Self {
        match fault {
            RulesetFault::Program(fault) => Fault::Program(fault),
            other => Fault::Ruleset(other),
        }
    }
}

impl<'a> From<ProgramFault<'a>> for Fault<'a> {
    fn from(fault: ProgramFault<'a>) -> Self {
        Fault::Program(fault)
    }
}

impl From<AllocError> for Fault<'_> {
    fn from(_error: AllocError) -> Self {
        Fault::from(ProgramFault::NoMemory)
    }
}

impl From<WriteFailed> for Fault<'_> {
    fn from(_error: WriteFailed) -> Self {
        Fault::from(ProgramFault::OutputFailed)
    }
}

impl From<ReportFault> for Fault<'_> {
    fn from(fault: ReportFault) -> Self {
        match fault {
            ReportFault::NoMemory => Fault::from(ProgramFault::NoMemory),
            ReportFault::WriteFailed => Fault::from(ProgramFault::OutputFailed),
        }
    }
}
