//! Why a line of a dump is refused.
ghost use Rattle.std.specs.Prelude.{◌≡◌, Some, IfSome, option_map};
ghost use Rattle.dumps.specs.Reading.{apart_refusal};
ghost use Rattle.dumps.specs.Views.{refused_in, refusal_in};
ghost use Rattle.dumps.specs.declared.reading.fault.DumpFault.TheVariants.{NoMemory};

use crate::apart::fault::ApartFault;
use std::alloc::{AllocError, Global};
use std::fmt;
use thiserror::Error;

/// A word of a line, or the words of a condition.
#[derive(Debug, PartialEq, Eq, Drop)]
pub struct LineWord {
    bytes: Vec<u8>,
}

impl LineWord {
    ghost use Rattle.std.specs.Prelude.{◌≡◌, IfOk};
    ghost use Rattle.dumps.specs.Views.{word_in};

    /// The word of these bytes.
    ///
    /// # Errors
    ///
    /// `AllocError` where memory was refused.
    pub fn of(alloc: Global, word: &[u8]) -> Result<LineWord, AllocError>
        ensures { IfOk result (λ copy. word_in copy ≡ word.now) }
    {
        Ok(LineWord {
            bytes: word.to_vec(alloc)?,
        })
    }

    /// The bytes of the word.
    pub fn bytes(&self) -> &[u8]
        ensures { result.now ≡ word_in self.now }
    {
        self.bytes.as_slice()
    }
}

/// The word, with `?` in place of each byte that isn't printable ASCII.
impl fmt::Display for LineWord {
    fn fmt<W: fmt::Write>(&self, f: &mut fmt::Formatter<W>) -> fmt::Result {
        for byte in &self.bytes {
            let shown = if *byte >= 32 && *byte < 127 {
                *byte
            } else {
                b'?'
            };
            f.write_char(char::from(shown))?;
        }
        Ok(())
    }
}

/// Why a line of a dump is refused, with its code.
#[derive(Clone, Copy, Debug, PartialEq, Eq, Error)]
pub enum Refusal {
    /// D1: neither the rule nor what it has begun has an option that is spelled so.
    #[error("D1 unknown option")]
    UnknownOption,
    /// D2: fewer words follow than the option has values, or none follows `!`.
    #[error("D2 value missing")]
    ValueMissing,
    /// D3: `-m` with a word that is no match.
    #[error("D3 unknown match")]
    UnknownMatch,
    /// D5: `!` before an option that begins a match or names a target.
    #[error("D5 inversion not allowed")]
    InversionNotAllowed,
    /// D6: a line that may move rules, in a section of which a rule needs a condition or has a verdict of its own.
    #[error("D6 rules with conditions or verdicts of their own are moved")]
    RulesMoved,
    /// D7: a chain gets the name of a target that the program doesn't read.
    #[error("D7 chain has the name of a target")]
    ChainIsTarget,
}

/// Why the reading of a dump ends at a line.
#[derive(Debug, PartialEq, Eq, Drop, Error)]
pub enum DumpFault {
    /// M0: no memory was given.
    #[error("M0 no memory")]
    NoMemory,
    /// The line is refused, for a word.
    #[error("{0}: {1}")]
    Refused(Refusal, LineWord),
}

impl From<AllocError> for DumpFault {
    ghost from_gives = { λ _ fault. fault ≡ NoMemory };

    fn from(_e: AllocError) -> DumpFault {
        DumpFault::NoMemory
    }
}

// The fault of a word.
pub(crate) fn refused(alloc: Global, refusal: Refusal, word: &[u8]) -> DumpFault
    ensures { IfSome (refused_in result) (λ why. why ≡ (refusal, word.now)) }
{
    match LineWord::of(alloc, word) {
        Ok(word) => DumpFault::Refused(refusal, word),
        Err(_) => DumpFault::NoMemory,
    }
}

// The fault of a line that isn't taken apart.
pub(crate) fn refused_apart(alloc: Global, fault: ApartFault<'_>) -> DumpFault
    ensures { IfSome (refused_in result) (λ why. option_map apart_refusal (refusal_in fault.entry) ≡ Some why) }
{
    let (refusal, word) = match fault {
        ApartFault::NoMemory => return DumpFault::NoMemory,
        ApartFault::UnknownOption(word) => (Refusal::UnknownOption, word),
        ApartFault::ValueMissing(word) => (Refusal::ValueMissing, word),
        ApartFault::UnknownMatch(word) => (Refusal::UnknownMatch, word),
        ApartFault::InversionNotAllowed(word) => (Refusal::InversionNotAllowed, word),
    };
    refused(alloc, refusal, word)
}
