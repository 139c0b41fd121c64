//! Lines of rules, taken apart.
pub(crate) mod condition;
pub(crate) mod fault;
pub(crate) mod own;
pub(crate) mod own_line;
pub(crate) mod part;
pub(crate) mod taking;
pub(crate) mod target;

use crate::apart::condition::{Condition, all_conditions};
use crate::apart::own_line::append_own;
use crate::apart::part::Part;
use crate::apart::target::{ends_each, set_by, target_of, verdict_of};
use crate::options::row::ExtensionRow;
use crate::options::table::OptionTable;
use std::alloc::{AllocError, Global};

/// A line taken apart.
#[derive(Drop)]
pub struct Apart<'a> {
    pub(crate) parts: Vec<Part<'a>>,
}

impl<'a> Apart<'a> {
    ghost use Rattle.std.specs.Prelude.{◌≡◌, ◌++◌, IfOk, option_map};
    ghost use Rattle.dumps.specs.Parts.{target_of};
    ghost use Rattle.dumps.specs.Foreign.{ends_each, kept_names, kept_verdict, set_by, verdict_of};
    ghost use Rattle.dumps.specs.Own.{own_words, line_of, OwnLinesReadBack};
    ghost use Rattle.dumps.specs.Conditions.{conditions, NothingIsLost};
    ghost use Rattle.dumps.specs.Views.{conditions_in, extension_in, table_in, parts_of, parts_in};

    /// The parts, in their order.
    pub fn parts(&self) -> &[Part<'a>]
        ensures { parts_of result.now ≡ parts_in self.now }
    {
        self.parts.as_slice()
    }

    /// Appends the own words, each after a blank: what stands after `-A` and the chain. Names of ports and of types of
    /// ICMP are written as their numbers, and a target with a verdict of its own as DROP. A word stands in quotes where it
    /// is empty or has a blank, a tab or a `"`, with a backslash before each `"` and each backslash (iptables-restore(8)).
    /// The words of that text are these again.
    ///
    /// # Errors
    ///
    /// `AllocError` where memory was refused; a beginning of the text may be appended then.
    ///
    /// # Cost
    ///
    /// Linear in the length of the line, with a pass over the parts for each `-m`, and one over the names for each
    /// port. A value of ports takes an allocation.
    #[tactic(auto, using(crate::proofs::laws::OneLineLaws::own_lines_read_back))]
    pub fn append_own(&self, table: &OptionTable<'a>, line: &mut Vec<u8>) -> Result<(), AllocError>
        ensures appended { IfOk result (λ _. line.new.items ≡ line.old.items
            ++ line_of (own_words (table_in table.now) (parts_in self.now))) }
        ensures reads_back { OwnLinesReadBack }
    {
        append_own(line, table, self.parts.as_slice())
    }

    /// The conditions, in the order in which their matches begin: one for each match that the program doesn't read, and
    /// for each match that it reads with options or values that it doesn't, and one for a protocol that it doesn't read;
    /// and last that its target takes the packet, where it takes some alone.
    /// Its text has all options of the match.
    /// A `!` before its only option that asks, where this is the opposite, or an option that turns it, isn't in the text of
    /// a condition, but inverts it. What always holds is no condition. Nothing else that the program doesn't read of a match is left out.
    ///
    /// # Errors
    ///
    /// `AllocError` where memory was refused.
    ///
    /// # Cost
    ///
    /// A pass over the parts for each part. Each condition takes two allocations.
    #[tactic(auto, using(crate::proofs::laws::KeptLaws::nothing_is_lost))]
    pub fn conditions(
        &self,
        alloc: Global,
        table: &OptionTable<'a>,
    ) -> Result<Vec<Condition<'a>>, AllocError>
        ensures found { IfOk result (λ all. conditions_in all.items ≡ conditions (table_in table.now) (parts_in self.now)) }
        ensures complete { NothingIsLost }
    {
        all_conditions(alloc, table, self.parts.as_slice())
    }

    /// The row of the target of the line, where the table has it.
    pub fn target(&self, table: &OptionTable<'a>) -> Option<ExtensionRow<'a>>
        ensures { option_map extension_in result ≡ target_of (table_in table.now) (parts_in self.now) }
    {
        target_of(table, self.parts.as_slice())
    }

    // What the target of the line sets: what some matches ask, and things by their names.
    pub(crate) fn sets(
        &self,
        alloc: Global,
        table: &OptionTable<'a>,
    ) -> Result<Vec<Vec<u8>>, AllocError>
        ensures { IfOk result (λ set. kept_names set.items ≡ set_by (table_in table.now) (parts_in self.now)) }
    {
        set_by(alloc, table, self.parts.as_slice())
    }

    // The verdict of its own of the target of the line, if it has one.
    pub(crate) fn verdict(
        &self,
        alloc: Global,
        table: &OptionTable<'a>,
    ) -> Result<Option<Vec<u8>>, AllocError>
        ensures { IfOk result (λ verdict. kept_verdict verdict ≡ verdict_of (table_in table.now) (parts_in self.now)) }
    {
        verdict_of(alloc, table, self.parts.as_slice())
    }

    // Whether a rule of the line ends the walk of each packet.
    pub(crate) fn ends_each(&self, table: &OptionTable<'a>) -> bool
        ensures { result ≡ ends_each (table_in table.now) (parts_in self.now) }
    {
        ends_each(table, self.parts.as_slice())
    }
}
