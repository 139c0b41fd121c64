//! What an audit found, as lines and as JSON documents by the schema `docs/schemas/iptaudit.json`.
#![tactic(auto)]

mod fault;
mod finding;
mod json;
mod lines;

pub use fault::ReportFault;
pub use finding::Finding;
pub use finding::outcomes::Outcomes;
