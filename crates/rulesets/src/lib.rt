//! The rulesets that an audit reads: files, as whole dumps with the conditions of their rules, and the answers of `--when`.
#![tactic(auto)]

mod conditions;
mod dump;
mod fault;
mod laws;
mod loading;
mod reading;
mod text;
mod verdicts;

pub use conditions::file_answers::{FileAnswer, FileAnswers};
pub use conditions::match_counts::{MatchCount, open_counts};
pub use conditions::open_conditions::{OpenConditions, Place};
pub use dump::{Dump, contradict, has_opposite, rule_at};
pub use fault::RulesetFault;
pub use laws::{own_verdicts_are_told, rules_stand_beside_needs};
pub use loading::line_input::Line;
pub use reading::{OneDump, TwoDumps, read_answered, read_one, read_plain, read_two};
pub use text::condition_text::put_condition;
pub use text::{bytes_of, put_number};
pub use verdicts::accepted::{Reading, TwoVerdicts};
pub use verdicts::stand_ins::{stand_in, table_with};
pub use verdicts::{GivenVerdict, OwnVerdict};
