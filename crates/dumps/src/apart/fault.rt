//! Why a line isn't taken apart.
use thiserror::Error;

/// Why a line isn't taken apart, with the word that is refused.
#[derive(Clone, Copy, Debug, PartialEq, Eq, Error)]
pub enum ApartFault<'a> {
    /// No memory was given for the parts.
    #[error("no memory")]
    NoMemory,
    /// D1: nobody has an option that is spelled so: not the rule, none of the matches and targets before it, and not the match that
    /// the protocol begins.
    #[error("unknown option")]
    UnknownOption(&'a [u8]),
    /// D2: fewer words follow than the option has values, or none follows `!`.
    #[error("value missing")]
    ValueMissing(&'a [u8]),
    /// D3: `-m` with a word that is no match.
    #[error("unknown match")]
    UnknownMatch(&'a [u8]),
    /// D5: `!` before an option that begins a match or names a target.
    #[error("inversion not allowed")]
    InversionNotAllowed(&'a [u8]),
}
