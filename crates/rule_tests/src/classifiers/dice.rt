//! Numbers drawn by lot.

ghost use Rattle.std.specs.Prelude.{◌<◌};

use rand_core::utils::NextWord;
use rand_pcg::Pcg32;

// Numbers that look random, and are always the same.
#[derive(Drop)]
pub(crate) struct Dice {
    words: Pcg32,
}

impl Dice {
    // Before the first number of a row of numbers; there is a row for each seed.
    pub(crate) fn new(seed: u64) -> Dice {
        Dice {
            words: Pcg32::new(seed, 1),
        }
    }

    pub(crate) fn below(&mut self, bound: u64) -> u64
        requires { 0 < bound }
        ensures { result < bound }
    {
        u64::from(self.words.next_word()) % bound
    }

    pub(crate) fn flip(&mut self) -> bool {
        self.below(2) == 0
    }

    // Whether something is so that is so once in so many times.
    pub(crate) fn once_in(&mut self, times: u64) -> bool
        requires { 0 < times }
    {
        self.below(times) == 0
    }

    // A place up to the last one: often the first or the last.
    pub(crate) fn place(&mut self, last: usize) -> usize {
        match self.below(6) {
            0 => 0,
            1 => last,
            _ => self.below((last as u64).saturating_add(1)) as usize,
        }
    }
}
