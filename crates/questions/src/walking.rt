//! The walk of whole boxes through a table.
pub(crate) mod ahead;
pub(crate) mod course;
pub(crate) mod engine;
pub(crate) mod front;
pub(crate) mod idle;
pub(crate) mod lengths;
pub(crate) mod scope;
pub(crate) mod task;
pub(crate) mod turn;
