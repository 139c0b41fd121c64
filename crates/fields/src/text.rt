//! Text in and out: taps, the lines that come from them, the words of a line, and numbers as they are written.

pub(crate) mod cut;
mod cutting;
pub(crate) mod line;
pub(crate) mod number;
pub(crate) mod tap;
pub(crate) mod word_slice;
pub(crate) mod words;
