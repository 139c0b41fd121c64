//! A packet of a box, with the words that write it.
pub(crate) mod choice;
mod interface;
pub(crate) mod line;
pub(crate) mod sample;
