//! The faults of a command line.
ghost use Rattle.std.specs.Prelude.{◌≡◌};
ghost use Rattle.programs.specs.Line.{StandsFor};

use clap::Error;
use clap::error::ErrorKind;
use std::alloc::AllocError;

/// Why a command line gives no task.
#[derive(Debug, Drop, thiserror::Error)]
pub enum LineFault {
    #[error("no memory")]
    NoMemory,
    #[error("no subcommand")]
    NoSubcommand,
    /// `clap` takes the words, but they name no file.
    #[error("no file")]
    NoFile,
    /// `clap` refuses the words, or is asked for help or the version. Its text ends with a newline.
    #[error("{0}")]
    Refused(Error),
}

impl From<AllocError> for LineFault {
    ghost use Rattle.programs.specs.declared.line.fault.LineFault.TheVariants.{NoMemory};

    ghost from_gives = { λ _ fault. fault ≡ NoMemory };

    fn from(_error: AllocError) -> LineFault {
        LineFault::NoMemory
    }
}

// The fault for an error of `clap`.
pub(crate) fn fault_of(error: Error) -> LineFault
    ensures { StandsFor error result }
{
    if error.kind() == ErrorKind::OutOfMemory {
        LineFault::NoMemory
    } else {
        LineFault::Refused(error)
    }
}
