//! Conditions that this program doesn't know.
pub(crate) mod answers;
pub(crate) mod laws;
pub(crate) mod left;
pub(crate) mod need;
pub(crate) mod subject;
