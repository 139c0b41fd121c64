//! Readers and writers over memory that fail where a test wants it.

pub(crate) mod fuse;
pub(crate) mod fused_reader;
pub(crate) mod fused_writer;
