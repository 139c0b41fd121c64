//! Where a line of a session stands: outside of restores, in one, or after the fault of one.
ghost use Rattle.std.specs.Prelude.{◌≡◌};
ghost use Rattle.sessions.specs.line.Outcome.{after_fault, has_ended};

use crate::line::opening::EndWord;
use restore::Restore;

/// Where the next line of a session stands. No line ends a restore from the command line, which has no word.
#[derive(Drop)]
pub(crate) enum Mode {
    /// Outside of restores.
    Outside,
    /// In a restore, which a line that equals its word ends.
    InRestore(Option<EndWord>, Restore),
    /// After the fault of a restore, where lines are passed over up to the one that ends it.
    AfterFault(Option<EndWord>),
}

impl Mode {
    // A fault in a restore ends it.
    pub(crate) fn after_fault(self) -> Mode
        ensures { result ≡ after_fault self }
    {
        match self {
            Mode::Outside => Mode::Outside,
            Mode::InRestore(word, _restore) => Mode::AfterFault(word),
            Mode::AfterFault(word) => Mode::AfterFault(word),
        }
    }

    /// Whether a restore that no line ends has met its fault. No line is read then.
    pub(crate) fn has_ended(&self) -> bool
        ensures { result ≡ has_ended self.now }
    {
        matches!(self, Mode::AfterFault(None))
    }
}
