//! The conditions that rules ask beyond what the program reads.
pub(crate) mod file_answers;
pub(crate) mod match_counts;
pub(crate) mod open_conditions;
