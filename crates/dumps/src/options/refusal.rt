//! Why an option isn't in the table.
ghost use Rattle.std.specs.Prelude.{◌≡◌, IfSome};
ghost use Rattle.dumps.specs.Known.{add_refused_in};
ghost use Rattle.dumps.specs.declared.options.refusal.OptionFault.TheVariants.{NoMemory};

use crate::reading::fault::LineWord;
use std::alloc::{AllocError, Global};
use thiserror::Error;

/// Why an option isn't in the table.
#[derive(Clone, Copy, Debug, PartialEq, Eq, Error)]
pub enum OptionRefusal {
    /// The text isn't `MATCH OPTION N`, with N of at most 9, or nothing names a match.
    #[error("not MATCH OPTION N")]
    NotAnOption,
    /// A target has the name.
    #[error("name of a target")]
    NameOfTarget,
    /// The program reads the match of this name.
    #[error("match that the program reads")]
    MatchIsRead,
    /// The match, or each rule, has an option that is spelled so.
    #[error("option that is there")]
    OptionIsThere,
    /// A line of the table of iptables is no row.
    #[error("no row of the table")]
    NotARow,
}

/// Why an option isn't in the table, and for which word.
#[derive(Debug, PartialEq, Eq, Drop, Error)]
pub enum OptionFault {
    /// M0: no memory was given.
    #[error("M0 no memory")]
    NoMemory,
    /// The option is refused, for a word.
    #[error("{0}: {1}")]
    Refused(OptionRefusal, LineWord),
}

impl From<AllocError> for OptionFault {
    ghost from_gives = { λ _ fault. fault ≡ NoMemory };

    fn from(_e: AllocError) -> OptionFault {
        OptionFault::NoMemory
    }
}

// The fault of a word.
pub(crate) fn add_refused(alloc: Global, why: OptionRefusal, word: &[u8]) -> OptionFault
    ensures { IfSome (add_refused_in result) (λ came. came ≡ (why, word.now)) }
{
    match LineWord::of(alloc, word) {
        Ok(word) => OptionFault::Refused(why, word),
        Err(_) => OptionFault::NoMemory,
    }
}
