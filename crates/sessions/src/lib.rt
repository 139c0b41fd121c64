//! Sessions with the table `filter`: lines in, replies out (iptables(8), iptables-save(8), iptables-restore(8)).
#![tactic(auto)]

mod line;
mod reply;
mod run;

pub use line::fault::Fault;
pub use reply::lines::write_lines;
pub use reply::walk::write_walk;
pub use run::console::Console;
pub use run::headline::{answers, runs_leave_what_they_accept};
pub use run::session::{RunFault, Session};
