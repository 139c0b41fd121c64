//! Questions about all packets: whether a rule can match at all, and why not; whether two rulesets treat every packet
//! alike; and the verdicts of a set of packets. A box of packets walks the table as a whole, and is cut where a rule
//! matches some of its packets. A packet that comes to a rule is sought by walks of single packets.
#![tactic(auto)]

mod asked;
mod boxes;
mod foreign;
mod sampling;
mod seeking;
mod walking;
mod written;

pub use asked::changes::{Changes, changes_under};
pub use asked::claims::{Claimed, check_claim};
pub use asked::coming::{Coming, comes};
pub use asked::compare::compare_at_under;
pub use asked::ends::{End, ends};
pub use asked::laws::{
    answers_exclude_each_other, changes_elsewhere, changes_off_the_walk, dead_rules_can_go,
};
pub use asked::likeness::Likeness;
pub use asked::reach::{GivenPackets, reach};
pub use asked::reached::Reached;
pub use asked::reason::{Reason, why_dead_under};
pub use asked::rule::{Life, dead_under, life_under};
pub use asked::takers::Takers;
pub use asked::walks::walks;
pub use boxes::area::Area;
pub use boxes::boxed_table::BoxedTable;
pub use boxes::matched::rule_matches;
pub use boxes::said::said;
pub use boxes::transport::carrying;
pub use foreign::answers::{Answer, Answers};
pub use foreign::laws::{answers_can_be_given, conditions_leave_a_table};
pub use foreign::left::needs_left;
pub use foreign::need::{Need, Needs};
pub use foreign::subject::Subject;
pub use walking::engine::leaves_under;
pub use walking::scope::Scope;
pub use walking::task::Leaf;
pub use written::WrittenPacket;
