//! What is printed of a line, and at the end of the input.

pub(crate) mod answer;
pub(crate) mod end;
pub(crate) mod lines;
pub(crate) mod walk;
