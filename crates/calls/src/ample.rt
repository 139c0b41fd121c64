//! Calls that may answer out of memory, on large input, with ample memory: each has to succeed, and to give the right
//! answer. No contract can say so, since no clause sees how much memory there is.
pub mod copies;
pub mod rows;
pub mod sets;
