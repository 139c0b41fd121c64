//! Faults of commands and restores, with their codes and texts. Those of rules and tables are within them.
ghost use Rattle.std.specs.Prelude.{◌≡◌};
ghost use Rattle.restore.specs.sections.Section.{is_out_of_memory};

use rules::RuleFault;
use table::TableFault;
use thiserror::Error;

/// Why words are no command (iptables(8), "SYNOPSIS").
#[derive(Clone, Copy, Debug, PartialEq, Eq, Error)]
pub enum CommandFault {
    /// C1: no word is left where the command should stand, or the word there is no command.
    #[error("no command")]
    NoCommand,
    /// C2: a second command stands among the words of the rule.
    #[error("two commands")]
    TwoCommands,
    /// C3: too few words for the command, or words after a command that takes no rule.
    #[error("wrong number of words")]
    WordCount,
    /// C4: another table than `filter` is named.
    #[error("other table")]
    OtherTable,
    /// P0 to P12: a fault of the rule, or of a value before it.
    #[error("{0}")]
    Rule(RuleFault),
}

/// Why a line of a restore is refused (iptables-restore(8)). It ends the restore.
#[derive(Clone, Copy, Debug, PartialEq, Eq, Error)]
pub enum RestoreFault {
    /// A fault of a command.
    #[error("{0}")]
    Command(CommandFault),
    /// The table refuses what the line asks.
    #[error("{0}")]
    Table(TableFault),
    /// R1: outside a section, a line that opens none; inside one, a line whose first word begins with `*`.
    #[error("line not allowed here")]
    NotAllowed,
    /// R2: a chain line of another form.
    #[error("bad chain line")]
    BadChainLine,
    /// R3: a second chain line for a name in one section.
    #[error("duplicate chain line")]
    DuplicateChainLine,
    /// R4: the restore ends inside a section.
    #[error("end before COMMIT")]
    EndBeforeCommit,
    /// R5: the line has no words.
    #[error("bad quoting")]
    Quoting,
    /// R6: the line has more than 10,240 bytes.
    #[error("line too long")]
    LineTooLong,
    /// M0: memory was refused for the words of the line, or for the table of a section.
    #[error("no memory")]
    NoMemory,
}

impl RestoreFault {
    /// Whether it says that memory was refused, whatever asked for it.
    pub fn is_out_of_memory(self) -> bool
        ensures { result ≡ is_out_of_memory self }
    {
        matches!(
            self,
            RestoreFault::NoMemory
                | RestoreFault::Table(TableFault::NoMemory)
                | RestoreFault::Command(CommandFault::Rule(RuleFault::NoMemory))
        )
    }
}
