//! An audit: the questions that are asked of whole dumps, rule by rule, hook by hook and packet by packet, with how many steps they may take
//! and how far they are; and what was found, as data.
#![tactic(auto)]

mod asking;
mod claims;
mod difference;
mod each_rule;
mod marking;
mod walking;

pub use asking::Asking;
pub use claims::claim::{AnsweredClaims, Claim, ClaimAnswer, ClaimTally, Counterexample};
pub use claims::{ask_claims, first_untold};
pub use difference::ask_difference;
pub use difference::found::{Difference, Differing, HookAnswer, HookLikeness, Pair};
pub use each_rule::ask_rules;
pub use each_rule::deciding::{Standing, policies_give, policy_of, verdict_of};
pub use each_rule::known::{Form, Found, FoundRule, Inquiry, Known};
pub use each_rule::tally::Tally;
pub use marking::mark_packet;
pub use marking::marks::Marks;
pub use walking::packet_walks::ask_packets;
pub use walking::walk::{Branch, GivenPacket, PacketWalks, Passed, Walk};
