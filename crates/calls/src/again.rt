//! Calls that are made again after a refusal.
use crate::trouble::Trouble;

/// How many calls were refused memory.
#[derive(Drop)]
pub struct Refusals {
    count: u64,
}

impl Refusals {
    /// None yet.
    pub fn new() -> Refusals {
        Refusals { count: 0 }
    }

    /// One more.
    pub fn note(&mut self) {
        self.count = self.count.saturating_add(1);
    }

    /// Whether there was one.
    pub fn any(&self) -> bool {
        self.count > 0
    }
}

/// What a call comes to that has to succeed without any memory: `Needless` where it was refused.
pub fn expect_given<E: Drop>(answer: Result<(), E>) -> Result<(), Trouble> {
    match answer {
        Ok(()) => Ok(()),
        Err(_) => Err(Trouble::Needless),
    }
}

/// What a refusal comes to: `Changed` where what the call was given isn't as before.
pub fn expect_kept(is_kept: bool) -> Result<(), Trouble> {
    if is_kept {
        Ok(())
    } else {
        Err(Trouble::Changed)
    }
}

/// The value of a call. Where memory was refused, what the call was given has to be as before, and the call is made
/// again.
macro_rules! again {
    ($refusals:expr, $call:expr, $is_kept:expr) => {
        match $call {
            Ok(value) => value,
            Err(_) => {
                $refusals.note();
                expect_kept($is_kept)?;
                match $call {
                    Ok(value) => value,
                    Err(_) => return Err(Trouble::RefusedTwice),
                }
            }
        }
    };
}

pub(crate) use again;
