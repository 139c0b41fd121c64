//! The faults that end a program early.
ghost use Rattle.std.specs.Prelude.{◌≡◌};

use sessions::RunFault;
use std::alloc::{AllocError, AllocFailed};
use thiserror::Error;

/// A fault that ends a program early; its text is the message.
#[derive(Debug, Drop, Error)]
pub enum ProgramFault<'a> {
    #[error("no memory")]
    NoMemory,
    /// A word of the program's line is no text.
    #[error("a word is not UTF-8")]
    NotText,
    #[error("no subcommand")]
    NoSubcommand,
    #[error("no file")]
    NoFile,
    #[error("cannot open {0}")]
    CannotOpen(&'a str),
    #[error("cannot read {0}")]
    CannotRead(&'a str),
    #[error("input failed")]
    InputFailed,
    #[error("output failed")]
    OutputFailed,
}

impl From<AllocError> for ProgramFault<'_> {
    ghost use Rattle.programs.specs.declared.fault.ProgramFault.TheVariants.{NoMemory};

    ghost from_gives = { λ _ fault. fault ≡ NoMemory };

    fn from(_error: AllocError) -> Self {
        ProgramFault::NoMemory
    }
}

impl<T: Drop> From<AllocFailed<T>> for ProgramFault<'_> {
    ghost use Rattle.programs.specs.declared.fault.ProgramFault.TheVariants.{NoMemory};

    ghost from_gives = { λ _ fault. fault ≡ NoMemory };

    fn from(_error: AllocFailed<T>) -> Self {
        ProgramFault::NoMemory
    }
}

impl From<RunFault> for ProgramFault<'_> {
    ghost use Rattle.programs.specs.Loaded.{run_stopped};

    ghost from_gives = { λ stopped fault. fault ≡ run_stopped stopped };

    fn from(fault: RunFault) -> Self {
        match fault {
            RunFault::ReadFailed => ProgramFault::InputFailed,
            RunFault::WriteFailed => ProgramFault::OutputFailed,
        }
    }
}
