//! The options of iptables, as a table.
pub(crate) mod kept;
pub(crate) mod known;
pub(crate) mod refusal;
pub(crate) mod row;
pub(crate) mod rows;
pub(crate) mod table;
pub(crate) mod table_line;
