//! All lines of an input, to its end.

pub(crate) mod console;
pub(crate) mod headline;
pub(crate) mod session;
