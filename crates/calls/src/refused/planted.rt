//! Planted faults: each case has to end by its trouble, which shows that the program reports it. They take no memory
//! that a refusal could reach, and what they count as refused isn't counted in the run.
use crate::again::{Refusals, again, expect_given, expect_kept};
use crate::bit_lists::has_bits;
use crate::trouble::{Trouble, expect};
use classify::BitRow;
use std::alloc::{AllocError, Global};

/// A call that is refused so many times, and then gives a number.
#[derive(Drop)]
struct Refused {
    left: u32,
}

impl Refused {
    fn call(&mut self) -> Result<u32, AllocError> {
        if self.left > 0 {
            self.left -= 1;
            return Err(AllocError);
        }
        Ok(7)
    }
}

/// Compares a row of no bit with that of one.
pub fn wrong_answer(alloc: Global) -> Result<(), Trouble> {
    let row = BitRow::new(alloc);
    expect(has_bits(&row, &[true]))
}

/// A call that is refused, and what it was given isn't as before.
pub fn changed_value() -> Result<(), Trouble> {
    let mut refusals = Refusals::new();
    let mut refused = Refused { left: 1 };
    let number = again!(refusals, refused.call(), false);
    expect(number == 7)
}

/// A call that is refused each time.
pub fn refused_again() -> Result<(), Trouble> {
    let mut refusals = Refusals::new();
    let mut refused = Refused { left: 2 };
    let number = again!(refusals, refused.call(), true);
    expect(number == 7)
}

/// A call that is refused, and needs no memory.
pub fn refused_with_room() -> Result<(), Trouble> {
    expect_given::<AllocError>(Err(AllocError))
}

/// A call that is refused once, as it may be: it is noted, and made again.
pub fn refused_once() -> Result<(), Trouble> {
    let mut refusals = Refusals::new();
    let mut refused = Refused { left: 1 };
    let number = again!(refusals, refused.call(), refused.left == 0);
    expect(number == 7 && refusals.any())
}
