//! Sets of numbers: what they lend.
use crate::trouble::{Trouble, expect};
use fields::Spans;
use std::alloc::Global;

/// Whether a set up to 63 has no number.
fn is_none(none: &Spans) -> bool {
    none.top() == 63 && none.intervals().is_empty() && !none.has(0)
}

/// Whether a set has the numbers outside one interval from 5 on.
fn is_outside(set: &Spans) -> bool {
    set.has(4) && !set.has(5) && set.has(63) && set.intervals().len() == 2
}

/// `Spans::none`, `has`, `top` and `intervals`.
pub fn spans(alloc: Global, times: u32) -> Result<(), Trouble> {
    let set = Spans::one(alloc, 63, 5, 9)?.except(alloc)?;
    for _ in 0..times {
        expect(is_none(&Spans::none(alloc, 63)))?;
        expect(is_outside(&set))?;
    }
    Ok(())
}
