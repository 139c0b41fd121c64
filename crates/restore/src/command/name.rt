//! The names of commands, one row each.
ghost use Rattle.std.specs.Prelude.{◌≡◌, find};
ghost use Rattle.restore.specs.commands.CommandForms.{is_name_of};
ghost use Rattle.restore.specs.steps.Reading.{row_of};

// What a command is named for.
#[derive(Clone, Copy)]
pub(crate) enum CommandName {
    Append,
    Check,
    Delete,
    Insert,
    Replace,
    Flush,
    DeleteChain,
    NewChain,
    Policy,
    Rename,
    ListRules,
}

// The two names of a command.
#[derive(Clone, Copy)]
struct Names {
    short: &'static [u8],
    long: &'static [u8],
}

impl Names {
    fn of(short: &'static [u8], long: &'static [u8]) -> Names
        ensures { result ≡ record { short = short.entry; long = long.entry } }
    {
        Names { short, long }
    }
}

impl CommandName {
    // How many of the command names, from the first on, are those of commands that edit the table.
    pub(crate) const EDITS: usize = 10;

    // Each name.
    pub(crate) const ALL: [CommandName; 11] = [
        CommandName::Append,
        CommandName::Check,
        CommandName::Delete,
        CommandName::Insert,
        CommandName::Replace,
        CommandName::Flush,
        CommandName::DeleteChain,
        CommandName::NewChain,
        CommandName::Policy,
        CommandName::Rename,
        CommandName::ListRules,
    ];

    // The names of the command.
    fn names(self) -> Names
        ensures short { result.short.now ≡ (row_of self).short }
        ensures long { result.long.now ≡ (row_of self).long }
    {
        match self {
            CommandName::Append => Names::of(b"-A", b"--append"),
            CommandName::Check => Names::of(b"-C", b"--check"),
            CommandName::Delete => Names::of(b"-D", b"--delete"),
            CommandName::Insert => Names::of(b"-I", b"--insert"),
            CommandName::Replace => Names::of(b"-R", b"--replace"),
            CommandName::Flush => Names::of(b"-F", b"--flush"),
            CommandName::DeleteChain => Names::of(b"-X", b"--delete-chain"),
            CommandName::NewChain => Names::of(b"-N", b"--new-chain"),
            CommandName::Policy => Names::of(b"-P", b"--policy"),
            CommandName::Rename => Names::of(b"-E", b"--rename-chain"),
            CommandName::ListRules => Names::of(b"-S", b"--list-rules"),
        }
    }

    // Whether a word is the short name or the long.
    fn is_named(self, word: &[u8]) -> bool
        ensures { result ≡ is_name_of word.now (row_of self) }
    {
        let names = self.names();
        word == names.short || word == names.long
    }

    // The one of these command names that a word names.
    pub(crate) fn named(command_names: &[CommandName], word: &[u8]) -> Option<CommandName>
        ensures { result ≡ find (λ name. is_name_of word.now (row_of name)) command_names.now }
    {
        command_names
            .iter()
            .copied()
            .find(|name| name.is_named(word))
    }
}
