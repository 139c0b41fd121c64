//! Rules: read from the words of a line, printed, compared and copied.
#![tactic(auto)]

mod boxing;
mod options;
mod printing;
mod reading;
mod rule;

pub use boxing::boxed::Boxed;
pub use boxing::work::Work;
pub use printing::listed_line::lines_of_rules_read_back;
pub use printing::write_rule;
pub use reading::fault::{Refusal, RuleFault};
pub use reading::grammar::reading_is_by_grammar;
pub use reading::read_rule;
pub use rule::Rule;
pub use rule::crossing::cross;
pub use rule::port_sets::{Crossing, cross_ports};
pub use rule::renamed::renamed_reads_back;
pub use rule::target::Target;
