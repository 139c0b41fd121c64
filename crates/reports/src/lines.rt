//! What an audit found, as lines.
pub(crate) mod claims;
pub(crate) mod condition_text;
pub(crate) mod difference;
pub(crate) mod each_rule;
pub(crate) mod open_counts;
pub(crate) mod outcomes;
pub(crate) mod packet_line;
pub(crate) mod packet_walks;
pub(crate) mod reason_line;
pub(crate) mod rule_line;
pub(crate) mod tally;
pub(crate) mod verdict_line;
pub(crate) mod walk_text;
