//! The lines of a session, one by one.

pub(crate) mod fault;
pub(crate) mod mode;
pub(crate) mod opening;
pub(crate) mod outcome;
pub(crate) mod request;
