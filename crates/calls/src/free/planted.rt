//! A call that takes memory, which shows that the check can fail.
use crate::trouble::Trouble;
use std::alloc::Global;

/// Takes memory once each time, and gives it back.
pub fn takes_memory(alloc: Global, times: u32) -> Result<(), Trouble> {
    for _ in 0..times {
        let mut taken = Vec::new(alloc);
        if taken.push(0u8).is_err() {
            return Err(Trouble::NoMemory);
        }
    }
    Ok(())
}
