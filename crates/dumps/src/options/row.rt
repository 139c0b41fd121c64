//! The rows of the table of options: what an option is to the rule that it stands in, and what a match or a target is.

/// What an option is to the rule that it stands in.
#[derive(Clone, Copy, Debug, PartialEq, Eq)]
pub enum Role {
    /// The program reads it.
    Own,
    /// The program reads it. Its value is ports, which may have names.
    Ports,
    /// The program reads it. Its value is a type of ICMP, which may have a name.
    IcmpType,
    /// The program reads it. Its value is a protocol, which may have a name.
    Protocol,
    /// It begins a match.
    Match,
    /// It names a target.
    Target,
    /// It asks a condition, and after `!` its opposite.
    Asks,
    /// It asks a condition, and after `!` another one: there may be packets of which neither holds.
    Unopposed,
    /// What it asks always holds.
    Holds,
    /// It says more of what its match asks, or of what its target does.
    Says,
    /// It turns what its match asks.
    Turns,
    /// It asks a condition of the thing that its first value names, and after `!` its opposite.
    AsksOf,
    /// It asks how often packets before had its match: the condition is one of its place.
    Counts,
    /// It says that its target sets the thing that its first value names.
    Sets,
}

/// Of which uses one condition is asked.
#[derive(Clone, Copy, Debug, PartialEq, Eq)]
pub enum Lasting {
    /// Of all that have one text: the packet alone decides.
    Text,
    /// Of one place alone: the answer depends on the moment, or on what came before.
    Place,
    /// Of one place alone where a target of the dump sets what is asked, and else of all that have one text.
    Set,
}

/// What a match or a target is to the program.
#[derive(Clone, Copy, Debug, PartialEq, Eq)]
pub enum Kind {
    /// A match that the program reads. `alone`: it may stand without an option.
    Known { alone: bool },
    /// A match that it doesn't read.
    Foreign(Lasting),
    /// A target that the program reads, and that may end the walk.
    Ends,
    /// The target LOG.
    Logs,
    /// A target that gives no verdict: the walk goes on with the next rule.
    Passes,
    /// A target with a verdict of its own, which the program doesn't read. `all`: it gives it to each packet that comes to it.
    Decides { all: bool },
}

/// An option of a match or a target, or of the rule itself.
#[derive(Clone, Copy)]
pub struct OptionRow<'a> {
    /// The name of the match or target; nothing where the option is the rule's own.
    pub owner: &'a [u8],
    /// All spellings.
    pub names: &'a [&'a [u8]],
    /// How many values follow.
    pub values: usize,
    pub role: Role,
}

/// A match or a target.
#[derive(Clone, Copy)]
pub struct ExtensionRow<'a> {
    pub name: &'a [u8],
    pub kind: Kind,
    /// The protocols, as `-p` names them, with which one of its options begins it without `-m`.
    pub protocols: &'a [&'a [u8]],
    /// The matches that ask what the target sets, other than by the name of a thing.
    pub sets: &'a [&'a [u8]],
}
