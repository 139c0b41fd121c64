//! How the calls of a device go: how many bytes each moves at most, and which of them fails, and how.
ghost use Rattle.std.specs.Prelude.{◌≡◌, None, Some, ⊤};
ghost use Rattle.std.specs.IoError.{error_kind};
ghost use Rattle.fields.specs.devices.Fuse.{most_of, calls_of, failure_of, due_of, is_due, counted, failed_call, kind_of, IsFailure, GoesOn};

use std::io::{Error, ErrorKind, Result};

/// How a call of a device fails.
#[derive(Clone, Copy, Debug, PartialEq, Eq)]
pub enum Failure {
    /// By an error of the kind `Other`.
    Error,
    /// By an error of the kind `Interrupted`, after which others try again.
    Interrupted,
    /// A write takes no byte. Reads and flushes, which take none, fail by an error of the kind `Other`.
    Nothing,
}

impl Failure {
    // The error of a call that fails by one.
    pub(crate) fn error(self) -> Error
        ensures { error_kind result ≡ kind_of self }
    {
        match self {
            Failure::Interrupted => Error::from(ErrorKind::Interrupted),
            Failure::Error | Failure::Nothing => Error::from(ErrorKind::Other),
        }
    }

    // What a write that fails answers.
    pub(crate) fn of_write(self) -> Result<usize>
        ensures { IsFailure self result }
    {
        match self {
            Failure::Nothing => Ok(0),
            Failure::Error | Failure::Interrupted => Err(self.error()),
        }
    }
}

/// How the calls of a device go: how many bytes each moves at most, and which one fails, and how.
#[derive(Clone, Copy, Debug)]
pub struct Fuse {
    most: usize,
    calls: u64,
    due: Option<u32>,
    failure: Failure,
}

impl Fuse {
    /// No call fails. Each moves at most `most` bytes; where that is 0, a read moves one, since reading none would say
    /// that the input has ended.
    pub fn never(most: usize) -> Fuse
        ensures most { most_of result ≡ most }
        ensures calls { calls_of result ≡ 0 }
        ensures due { due_of result ≡ None }
    {
        Fuse {
            most,
            calls: 0,
            due: None,
            failure: Failure::Error,
        }
    }

    /// One call fails: the first is call 0. Calls after it go on. Else they move bytes as those of `never` do.
    pub fn failing(most: usize, call: u32, failure: Failure) -> Fuse
        ensures most { most_of result ≡ most }
        ensures calls { calls_of result ≡ 0 }
        ensures due { due_of result ≡ Some call }
        ensures failure { failure_of result ≡ failure }
    {
        Fuse {
            most,
            calls: 0,
            due: Some(call),
            failure,
        }
    }

    // The most bytes of a call.
    pub(crate) fn most(&self) -> usize
        ensures { result ≡ most_of self.now }
    {
        self.most
    }

    // How the call that fails does so.
    pub(crate) fn failure(&self) -> Failure
        ensures { result ≡ failure_of self.now }
    {
        self.failure
    }

    // How many calls there were, up to 2 to the 64 less 1.
    pub(crate) fn calls(&self) -> u64
        ensures { result ≡ calls_of self.now }
    {
        self.calls
    }

    // The call that failed, if it was made.
    pub(crate) fn failed_at(&self) -> Option<u32>
        ensures { result ≡ failed_call self.now }
    {
        match self.due {
            Some(due) if u64::from(due) < self.calls => Some(due),
            _ => None,
        }
    }

    // Counts a call, and says whether it is the one that fails.
    pub(crate) fn count(&mut self) -> bool
        ensures due { result ≡ is_due self.old }
        ensures counts { self.new ≡ counted self.old }
    {
        let call = self.calls;
        self.calls = call.saturating_add(1);
        match self.due {
            Some(due) => u64::from(due) == call,
            None => false,
        }
    }

    // Counts a call, and fails by an error where it is the one that fails.
    pub(crate) fn pass(&mut self) -> Result<()>
        ensures due { GoesOn self.old result (λ _. ⊤) }
        ensures counts { self.new ≡ counted self.old }
    {
        if self.count() {
            return Err(self.failure.error());
        }
        Ok(())
    }
}
