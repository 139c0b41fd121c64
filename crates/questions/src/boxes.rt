//! Boxes of packets, and how a rule cuts them.
pub(crate) mod area;
pub(crate) mod boxed_table;
pub(crate) mod candidates;
pub(crate) mod cut;
pub(crate) mod ends;
pub(crate) mod lying;
pub(crate) mod matched;
pub(crate) mod meeting;
pub(crate) mod rule_box;
pub(crate) mod said;
pub(crate) mod transport;
