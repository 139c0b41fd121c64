//! Lines that are repeated: where they begin, and the numbers of the rounds at hand.
use crate::fault::Fault;
use crate::line::Repeat;
use std::alloc::Global;

// One repeat that is open.
#[derive(Clone, Copy, Drop)]
struct Round<'a> {
    // The line after that of the repeat.
    begin: usize,
    // Empty, where the number has no name.
    name: &'a str,
    number: u64,
    last: u64,
    width: usize,
}

/// The repeats that are open, the innermost last.
#[derive(Drop)]
pub(crate) struct Rounds<'a> {
    open: Vec<Round<'a>>,
}

impl<'a> Rounds<'a> {
    /// None.
    pub(crate) fn new(alloc: Global) -> Rounds<'a> {
        Rounds {
            open: Vec::new(alloc),
        }
    }

    /// Whether none is open.
    pub(crate) fn is_none(&self) -> bool {
        self.open.is_empty()
    }

    /// Opens a repeat of the lines from one on.
    pub(crate) fn open(&mut self, repeat: Repeat<'a>, begin: usize) -> Result<(), Fault> {
        let round = match repeat {
            Repeat::Times(times) => Round {
                begin,
                name: "",
                number: 1,
                last: times,
                width: 0,
            },
            Repeat::Numbers {
                name,
                first,
                last,
                width,
            } => Round {
                begin,
                name,
                number: first,
                last,
                width,
            },
        };
        if round.number > round.last {
            return Err(Fault::BadRepeat);
        }
        self.open.push(round)?;
        Ok(())
    }

    /// Ends a round of the innermost repeat: the line where the next begins, or nothing where it was the last.
    pub(crate) fn end_round(&mut self) -> Result<Option<usize>, Fault> {
        let Some(mut round) = self.open.pop() else {
            return Err(Fault::NoRepeat);
        };
        if round.number >= round.last {
            return Ok(None);
        }
        round.number = round.number.saturating_add(1);
        let begin = round.begin;
        self.open.push(round)?;
        Ok(Some(begin))
    }

    /// The number of a name, and how many digits it is to have at least.
    pub(crate) fn number(&self, name: &str) -> Option<(u64, usize)> {
        let round = self
            .open
            .iter()
            .find(|round| !name.is_empty() && round.name == name)?;
        Some((round.number, round.width))
    }
}
