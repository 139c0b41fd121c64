//! Readers and writers that fail.
mod fused_reader;
mod fused_writer;
