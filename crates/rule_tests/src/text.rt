//! Text in and out.
mod tap;
