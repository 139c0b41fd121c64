//! The programs' lines: what the words after a program's name ask for, over `clap`.
mod audit;
mod fault;
mod job;
mod program;

pub use audit::{Audit, Question};
pub use fault::LineFault;
pub use job::{Job, Task};

/// The version of the programs. Its words in parentheses have as many bytes as the commit that a release puts in their place.
pub const VERSION: &str = "0.9.0 (not released)";
