//! The boxes of rules: on each field the numbers that a rule allows.

pub(crate) mod boxed;
pub(crate) mod condition;
pub(crate) mod work;
