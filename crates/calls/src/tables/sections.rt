//! Lines of sections that no session gives, and why a line is refused, as a value.
use crate::trouble::{Trouble, expect};
use restore::{CommandFault, Restore, RestoreFault, Transaction};
use rules::{Refusal, RuleFault, Work};
use std::alloc::Global;
use table::{Table, TableFault};

/// A restore after the lines that open a section, with a chain line.
fn begun(alloc: Global, table: &mut Table) -> Result<Restore, RestoreFault> {
    let mut work = Work::new();
    Restore::new(alloc, false, false)
        .line(table, b"*filter", &mut work)?
        .line(table, b":b -", &mut work)
}

/// Why a line is refused after them, if it is.
fn fault_of(alloc: Global, line: &[u8]) -> Result<Option<RestoreFault>, Trouble> {
    let mut table = Table::new(alloc)?;
    let Ok(restore) = begun(alloc, &mut table) else {
        return Err(Trouble::OtherAnswer);
    };
    Ok(restore.line(&mut table, line, &mut Work::new()).err())
}

/// Lines, and why each is refused.
const ROWS: &[(&[u8], RestoreFault)] = &[
    (b"-Z", NO_COMMAND),
    (
        b"-A INPUT -F",
        RestoreFault::Command(CommandFault::TwoCommands),
    ),
    (b"-N", RestoreFault::Command(CommandFault::WordCount)),
    (
        b"-t nat -F",
        RestoreFault::Command(CommandFault::OtherTable),
    ),
    (
        b"[1:2] -A INPUT --bad",
        RestoreFault::Command(CommandFault::Rule(RuleFault::Refused(Refusal::UnknownOption(3)))),
    ),
    (b"-F x", RestoreFault::Table(TableFault::NoSuchChain)),
    (b"*filter", RestoreFault::NotAllowed),
    (b":a", RestoreFault::BadChainLine),
    (b":b -", RestoreFault::DuplicateChainLine),
    (b"\"", RestoreFault::Quoting),
    // No line holds a newline.
    (b"-F\n", RestoreFault::Quoting),
    (b"-N \"a\nb\"", RestoreFault::Quoting),
    (b":a -\n-X a", RestoreFault::Quoting),
    (b"\nCOMMIT", RestoreFault::Quoting),
];

const NO_COMMAND: RestoreFault = RestoreFault::Command(CommandFault::NoCommand);

/// `Restore::line`, of lines that are refused.
pub fn refused(alloc: Global) -> Result<(), Trouble> {
    for (line, fault) in ROWS {
        expect(fault_of(alloc, line)? == Some(*fault))?;
    }
    Ok(())
}

/// Whether a section by itself knows no `COMMIT`, which a restore reads.
fn is_no_command(alloc: Global, noflush: bool, line: &[u8]) -> Result<bool, Trouble> {
    let (table, mut work) = (Table::new(alloc)?, Work::new());
    let section = Transaction::begin(alloc, &table, noflush)?;
    Ok(match section.line(b":a -", &mut work) {
        Ok(section) => section.line(line, &mut work).err() == Some(NO_COMMAND),
        Err(_) => false,
    })
}

/// `Transaction::line`, of the line that ends a section.
pub fn commit_lines(alloc: Global) -> Result<(), Trouble> {
    for line in [b"COMMIT".as_slice(), b" COMMIT "] {
        expect(is_no_command(alloc, false, line)? && is_no_command(alloc, true, line)?)?;
    }
    Ok(())
}
