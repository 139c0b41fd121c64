//! Fields, and sets of numbers.
mod field;
mod spans;
