//! Calls that take memory: where one answers out of memory, all that it was given has to be as before, and the same call
//! made again has to give the expected answer.
pub mod asked;
pub mod bit_rows;
pub mod planted;
pub mod port_sets;
pub mod sets;
