//! Why words are no rule.
use thiserror::Error;

/// The first rule of reading that the words break.
#[derive(Clone, Copy, Debug, PartialEq, Eq, Error)]
pub enum Refusal {
    /// P1: no option is spelled so, or it belongs to a match that wasn't started; with the place of the refused word.
    #[error("unknown option")]
    UnknownOption(usize),
    /// P2: fewer words follow than the option has values.
    #[error("value missing")]
    ValueMissing,
    /// P3: a value can't be read.
    #[error("bad value")]
    BadValue,
    /// P4: the option was given before.
    #[error("repeated option")]
    RepeatedOption,
    /// P5: `!` stands before a word that isn't an option which may be inverted.
    #[error("inversion not allowed")]
    InversionNotAllowed,
    /// P6: the rule lacks the protocol that the option, the match or the reset needs.
    #[error("protocol needed")]
    ProtocolNeeded,
    /// P7: there is no match of this name.
    #[error("unknown match")]
    UnknownMatch,
    /// P8: the rule has 16 matches already.
    #[error("too many matches")]
    TooManyMatches,
    /// P9: `-j` after `-g`, or `-g` after `-j`.
    #[error("both jump and goto")]
    JumpAndGoto,
    /// P10: a comment of more than 256 bytes, or a log prefix of more than 29.
    #[error("text too long")]
    TextTooLong,
    /// P11: the option belongs to a target that wasn't given before.
    #[error("option of another target")]
    OtherTarget,
    /// P12: a match lacks the option that it needs.
    #[error("match option missing")]
    MatchOptionMissing,
}

/// Why no rule was read.
#[derive(Clone, Copy, Debug, PartialEq, Eq, Error)]
pub enum RuleFault {
    /// P0: no memory was given for the rule.
    #[error("no memory")]
    NoMemory,
    /// P1 to P12: the words are no rule.
    #[error("{0}")]
    Refused(Refusal),
}
