//! The values that conditions and targets have: each with its reading, its test, its text and the set of its numbers.

pub(crate) mod connection_state;
pub(crate) mod copied;
pub(crate) mod flag_test;
pub(crate) mod free_text;
pub(crate) mod icmp;
pub(crate) mod interface;
pub(crate) mod ip_range;
pub(crate) mod log_level;
pub(crate) mod name;
pub(crate) mod name_list;
pub(crate) mod port_list;
pub(crate) mod port_range;
pub(crate) mod prefix;
pub(crate) mod protocol;
pub(crate) mod reject;
pub(crate) mod tcp_flags;
pub(crate) mod ttl;
