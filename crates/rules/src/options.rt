//! The options of rules: the tables of options and matches, and an option with its value.

pub(crate) mod comment;
pub(crate) mod match_kind;
pub(crate) mod option;
pub(crate) mod option_value;
pub(crate) mod value;
