//! Why there is no answer.
use dumps::OptionFault;
use std::alloc::AllocError;

/// Why there is no answer.
#[derive(Clone, Copy, Debug, PartialEq, Eq)]
pub enum Trouble {
    /// Memory was refused.
    NoMemory,
    /// A line was refused.
    Refused,
    /// A read or a write failed, or the program's word is refused.
    Other,
}

impl From<AllocError> for Trouble {
    fn from(_error: AllocError) -> Trouble {
        Trouble::NoMemory
    }
}

impl From<OptionFault> for Trouble {
    fn from(error: OptionFault) -> Trouble {
        match error {
            OptionFault::NoMemory => Trouble::NoMemory,
            OptionFault::Refused(..) => Trouble::Other,
        }
    }
}
