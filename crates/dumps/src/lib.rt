//! Whole dumps: each line of the section `filter` is taken apart into what the program reads, and the conditions that it doesn't know.
#![tactic(auto)]

mod apart;
mod conditions;
mod options;
mod reading;
mod services;

pub use apart::Apart;
pub use apart::condition::Condition;
pub use apart::fault::ApartFault;
pub use apart::part::Part;
pub use apart::taking::{apart_in_one_way, take_apart};
pub use conditions::{ConditionPlace, Conditions, ForeignNeed};
pub use options::kept::KnownOptions;
pub use options::known::Rows;
pub use options::refusal::{OptionFault, OptionRefusal};
pub use options::row::{ExtensionRow, Kind, Lasting, OptionRow, Role};
pub use options::table::{KnownCondition, NameRow, OptionTable};
pub use reading::dump::{Reading, Whole};
pub use reading::fault::{DumpFault, LineWord, Refusal};
pub use reading::foreign::Foreign;
