//! Why a case isn't as expected.
use std::alloc::AllocError;
use table::TableFault;
use thiserror::Error;

/// Why a case isn't as expected.
#[derive(Clone, Copy, Debug, PartialEq, Eq, Drop, Error)]
pub enum Trouble {
    /// Memory was refused, where none is to be.
    #[error("no memory")]
    NoMemory,
    /// A call was refused memory twice, where one allocation is refused in a run at most.
    #[error("refused twice")]
    RefusedTwice,
    /// A call was refused memory, and left what it was given changed.
    #[error("changed by a refusal")]
    Changed,
    /// A call was refused memory that has to succeed without any.
    #[error("refused without a need of memory")]
    Needless,
    /// The answer isn't the expected one.
    #[error("another answer")]
    OtherAnswer,
}

impl From<AllocError> for Trouble {
    fn from(_error: AllocError) -> Trouble {
        Trouble::NoMemory
    }
}

impl From<TableFault> for Trouble {
    fn from(fault: TableFault) -> Trouble {
        match fault {
            TableFault::NoMemory => Trouble::NoMemory,
            _ => Trouble::OtherAnswer,
        }
    }
}

/// What a case comes to: `OtherAnswer` where an answer isn't as expected.
pub fn expect(is_expected: bool) -> Result<(), Trouble> {
    if is_expected {
        Ok(())
    } else {
        Err(Trouble::OtherAnswer)
    }
}
