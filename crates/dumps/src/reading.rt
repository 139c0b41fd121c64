//! Dumps, read line by line into what the program reads and what it doesn't.
pub(crate) mod dump;
pub(crate) mod fault;
pub(crate) mod foreign;
pub(crate) mod line;
