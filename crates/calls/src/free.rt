//! Calls that promise to take no memory, made as often as it is asked for.
mod case;
pub mod job;
mod planted;
mod rows;
mod rulings;
mod sets;
mod walks;
