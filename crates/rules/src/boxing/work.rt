//! A count of the boxes that were made.
ghost use Rattle.std.specs.Prelude.{◌≡◌, ◌+◌, ◌-◌, ◌^◌, min};

use std::marker::Model;

/// A count of the boxes that were made of rules, also of those for which memory was refused, so that a contract can
/// say how many a call makes.
///
/// It stays at its greatest value, 2 to the 64 less 1.
#[derive(Debug, Drop)]
pub struct Work {
    boxes: u64,
}

impl Model for Work {
    ghost use Rattle.std.specs.Prelude.{ℕ};

    ghost Value = { ℕ };

    ghost view = { λ w. w.boxes };
}

impl Work {
    /// No box yet.
    pub fn new() -> Work
        ensures { result ≡ 0 }
    {
        Work { boxes: 0 }
    }

    /// How many boxes were made.
    pub fn boxes(&self) -> u64
        ensures { result ≡ self.now }
    {
        self.boxes
    }

    // One more.
    pub(crate) fn count(&mut self)
        ensures { self.new ≡ min (self.old + 1) (2 ^ 64 - 1) }
    {
        self.boxes = self.boxes.saturating_add(1);
    }
}
