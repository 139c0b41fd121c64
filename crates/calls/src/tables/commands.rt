//! Commands, read from a place of a line's words on, and how many boxes they make.
use crate::trouble::{Trouble, expect};
use crate::written::{Placed, has_listing, table_of, words_of};
use fields::Words;
use restore::{Command, CommandFault, RestoreFault, apply};
use rules::{Refusal, RuleFault, Work};
use std::alloc::Global;
use table::{Table, TableFault};

/// What words come to as a command.
#[derive(Clone, Copy, PartialEq, Eq, Drop)]
enum Reply {
    /// It is done.
    Done,
    /// It lists rules: whether of a chain `x`.
    Lists(bool),
    /// It is refused.
    Refused(RestoreFault),
}

/// What the words come to from a place on.
fn reply_of(
    alloc: Global,
    table: &mut Table,
    work: &mut Work,
    words: &Words,
    from: usize,
) -> Reply {
    match Command::read(alloc, words, from) {
        Ok(Command::ListRules(name)) => Reply::Lists(name == Some(b"x".as_slice())),
        Ok(command) => match apply(table, command, work) {
            Ok(()) => Reply::Done,
            Err(fault) => Reply::Refused(RestoreFault::Table(fault)),
        },
        Err(fault) => Reply::Refused(RestoreFault::Command(fault)),
    }
}

/// The places from which words are read, and what they come to.
const ROWS: &[(&[u8], usize, Reply)] = &[
    (b"x -F x", 1, Reply::Done),
    (b"-F -F -A x -j LOG", 2, Reply::Done),
    (
        b"-F -F -A -j -f",
        2,
        Reply::Refused(RestoreFault::Table(TableFault::NoSuchChain)),
    ),
    (b"-N -S x", 1, Reply::Lists(true)),
    (
        b"-N x -A INPUT 1 -j DROP",
        2,
        Reply::Refused(RestoreFault::Command(CommandFault::Rule(RuleFault::Refused(
            Refusal::UnknownOption(4),
        )))),
    ),
    (
        b"-t nat -D x 2",
        2,
        Reply::Refused(RestoreFault::Table(TableFault::NumberOutOfRange)),
    ),
    (b"-F", 1, NO_COMMAND),
    (b"-F", 2, NO_COMMAND),
    (b"-F", 1000, NO_COMMAND),
    (b"", 0, NO_COMMAND),
];

const NO_COMMAND: Reply = Reply::Refused(RestoreFault::Command(CommandFault::NoCommand));

/// The rule that the chain `x` has before them.
const BEFORE: &[Placed] = &[(b"x", b"-j DROP")];

/// What the table has after them: the chain was emptied, and has the rule of another line.
const AFTER: &[u8] = b":x - [0:0]\n-A x -j LOG\nCOMMIT\n";

/// `Command::read` from a place of the words on.
pub fn from_a_place(alloc: Global) -> Result<(), Trouble> {
    let mut table = table_of(alloc, &[b"x"], BEFORE)?;
    for (line, from, due) in ROWS {
        let words = words_of(alloc, line)?;
        let answer = reply_of(alloc, &mut table, &mut Work::new(), &words, *from);
        expect(answer == *due)?;
    }
    expect(has_listing(alloc, &table, AFTER)?)
}

/// Commands, and how many boxes were made when each is done.
const COUNTS: &[(&[u8], u64)] = &[
    (b"-N a", 0),
    (b"-A INPUT -j a", 1),
    (b"-A INPUT -s 10.0.0.0/8 -j DROP", 2),
    (b"-I INPUT 1 -j LOG", 3),
    (b"-R INPUT 1 -p udp -j LOG", 4),
    (b"-D INPUT 1", 4),
    (b"-C INPUT -j a", 4),
    (b"-D INPUT -j a", 4),
    (b"-P INPUT DROP", 4),
    (b"-F a", 4),
    (b"-F", 4),
];

/// A rule's box is made once, as the rule is put in.
pub fn boxes(alloc: Global) -> Result<(), Trouble> {
    let (mut table, mut work) = (Table::new(alloc)?, Work::new());
    for (line, count) in COUNTS {
        let words = words_of(alloc, line)?;
        let answer = reply_of(alloc, &mut table, &mut work, &words, 0);
        expect(answer == Reply::Done && work.boxes() == *count)?;
    }
    Ok(())
}
