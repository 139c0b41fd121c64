//! Commands and restores read from lines, and listings of a table.
#![tactic(auto)]

mod change;
mod command;
mod fault;
mod headline;
mod listing;
mod restore;
mod round_trip;
mod section;

pub use change::apply;
pub use command::Command;
pub use fault::{CommandFault, RestoreFault};
pub use headline::{all_calls_leave_what_they_accept, restores_leave_what_they_accept};
pub use listing::{write_listing, write_rules};
pub use restore::Restore;
pub use round_trip::listings_restore;
pub use section::Transaction;
pub use section::quiet::is_quiet;
