//! What an audit found, as JSON documents.
pub(crate) mod claims;
pub(crate) mod condition_entry;
pub(crate) mod counts;
pub(crate) mod difference;
pub(crate) mod document;
pub(crate) mod each_rule;
pub(crate) mod memory_text;
pub(crate) mod names;
pub(crate) mod outcomes;
pub(crate) mod packet_walks;
pub(crate) mod reason_entry;
