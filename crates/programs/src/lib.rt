//! What both programs share: their command lines, the words that they are given, files that they restore, buffers, and the faults that
//! end them early.
//!
//! | Line of `iptsim` | Job |
//! |---|---|
//! | `session [--load FILE]` | a session from standard input to standard output |
//! | `restore [--noflush] [--test] [--load FILE]` | a restore from standard input, and the listing that results |
//!
//! | Line of `iptaudit` | Audit |
//! |---|---|
//! | `dead FILE` | which rules of a ruleset no packet can match |
//! | `compare OLD NEW` | whether two rulesets give each packet the same verdict |
//! | `tests FILE` | a packet for each rule |
//! | `cover FILE` | which rules match none of the packets on standard input |
//! | `reach FILE WORD..` | the verdicts of a set of packets, grouped by a field |
//! | `walk FILE` | the walks of the packets on standard input |
//! | `assert FILE CLAIMS` | whether claims hold of all packets |
//!
//! Each of these takes `[--steps N] [--when CONDITION].. [--json]`. Both programs take `--help` and `--version` in place of a subcommand.
#![tactic(auto)]

mod buffers;
mod fault;
mod files;
mod line;
mod words;

pub use buffers::{buffered_input, buffered_output, let_go};
pub use fault::ProgramFault;
pub use files::{load, load_from, open_file};
pub use line::{Audit, Job, LineFault, Question, Task, VERSION};
pub use words::{answer_line, texts_after_name, words_given};
