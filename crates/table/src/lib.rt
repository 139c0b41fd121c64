//! The table `filter`: its chains with their classifiers, the edits of their rules, and the walk of a packet.
#![tactic(auto)]

mod chain;
mod check;
mod delete;
mod edit;
mod fault;
mod headline;
mod made;
mod parts;
mod policy;
mod put;
mod references;
mod rename;
mod search;
mod store;
mod table;
mod verdict;
mod walk;

pub use fault::TableFault;
pub use headline::{calls_leave_what_they_accept, walks_go_by_their_cases};
pub use made::tables_are_made_by_edits;
pub use policy::Policy;
pub use table::Table;
pub use verdict::Verdict;
pub use walk::depth::depth_is_bounded;
pub use walk::trail::{Step, Trail};
