//! The numbers of a packet: the fields that they stand on, and sets of them.

pub(crate) mod field;
pub(crate) mod spans;
