//! The levels of LOG.
ghost use Rattle.std.specs.Prelude.{◌≡◌, ◌≤◌, Some};
ghost use Rattle.fields.specs.text.Tap.{Puts};

use crate::text::number::read_number_to;
use crate::text::tap::{Tap, WriteFailed};
use itoa::Buffer;
use std::io::Write;

/// How urgent a message of the target LOG is (iptables-extensions(8), `--log-level`), from 0, the most urgent, to 7.
#[derive(Clone, Copy, Debug, PartialEq, Eq)]
pub enum LogLevel {
    /// 0: the system is unusable.
    Emerg,
    /// 1: action must be taken at once.
    Alert,
    /// 2: critical conditions.
    Crit,
    /// 3: errors.
    Error,
    /// 4: warnings, the default.
    Warning,
    /// 5: normal but significant.
    Notice,
    /// 6: informational.
    Info,
    /// 7: for debugging.
    Debug,
}

impl Default for LogLevel {
    ghost use Rattle.fields.specs.declared.values.log_level.LogLevel.{LogLevel};

    ghost is_default = { λ level. level ≡ LogLevel.Warning };

    fn default() -> LogLevel {
        Self::Warning
    }
}

impl LogLevel {
    ghost use Rattle.fields.specs.values.LogLevel.{level_number, level_name, level_at, level_named, log_level_of, log_level_text};

    // Each level.
    const ALL: [LogLevel; 8] = [
        LogLevel::Emerg,
        LogLevel::Alert,
        LogLevel::Crit,
        LogLevel::Error,
        LogLevel::Warning,
        LogLevel::Notice,
        LogLevel::Info,
        LogLevel::Debug,
    ];

    /// The level that a text writes: its number from 0 to 7, or its name in lower case.
    #[tactic(auto, unfolding(crate::specs::values::LogLevel::log_level_of))]
    pub fn read(text: &[u8]) -> Option<LogLevel>
        ensures { result ≡ log_level_of text.now }
    {
        match read_number_to(text, 7) {
            Some(number) => LogLevel::at(number as u8, &LogLevel::ALL),
            None => LogLevel::named(text, &LogLevel::ALL),
        }
    }

    // The first of some levels with this number.
    fn at(number: u8, levels: &[LogLevel]) -> Option<LogLevel>
        ensures { result ≡ level_at number levels.now }
    {
        levels
            .iter()
            .copied()
            .find(|level| level.number() == number)
    }

    // The first of some levels with this name.
    fn named(text: &[u8], levels: &[LogLevel]) -> Option<LogLevel>
        ensures { result ≡ level_named text.now levels.now }
    {
        levels.iter().copied().find(|level| level.name() == text)
    }

    /// The level's number, 0 to 7.
    pub fn number(self) -> u8
        ensures value { result ≡ level_number self }
        ensures within { result ≤ 7 }
    {
        self as u8
    }

    /// The level's name.
    fn name(self) -> &'static [u8]
        ensures { result.now ≡ level_name self }
    {
        match self {
            LogLevel::Emerg => b"emerg",
            LogLevel::Alert => b"alert",
            LogLevel::Crit => b"crit",
            LogLevel::Error => b"error",
            LogLevel::Warning => b"warning",
            LogLevel::Notice => b"notice",
            LogLevel::Info => b"info",
            LogLevel::Debug => b"debug",
        }
    }

    /// Writes the level's number. That text reads back as this level. It takes no memory.
    #[tactic(auto, using(crate::proofs::laws::values::LogLevelLaws::reads_back))]
    pub fn put<W: Write>(self, output: &mut Tap<W>) -> Result<(), WriteFailed>
        ensures text { Puts W.contents output.old output.new result (log_level_text self) }
        ensures reads_back { log_level_of (log_level_text self) ≡ Some self }
    {
        let mut number = Buffer::new();
        output.put(number.format(self.number()).as_bytes())
    }
}
