//! The program `iptaudit`: questions about all packets, asked of files of iptables-restore.
#![tactic(auto)]

mod claims;
mod fault;
mod packets;
mod program;
mod source;

use crate::program::run;
use std::process::ExitCode;

/// Answers what the words after the program's name ask: `dead FILE`, `compare OLD NEW`, `tests FILE`, `cover FILE`, `walk FILE`,
/// `assert FILE CLAIMS` or `reach FILE HOOK key=value.. by=FIELD`, each with `--steps N` and `--json` where they are wanted, and all but `reach` with `--when CONDITION`,
/// `--unknown MATCH` and `--local ADDRESSES`. `--version` prints the version to standard output.
///
/// `dead` prints a line for each rule that no packet can match, in the order of a listing, with a line that says why, and one
/// for each of which it isn't known; and then how many there were. `compare` prints a line for each built-in chain: whether both rulesets give each
/// packet there the same verdict, and where they don't, a packet with its walk in each; and then how many rules only one of them has, and
/// how many of these are dead there. `tests` prints a session: for each rule a comment that names it, and a packet that it matches. `cover`
/// reads packets from standard input, as lines of a session, and prints of each rule that matches none of them whether there is a packet
/// that it matches, and which, and of each that matches one under some answers alone under which; and then how many rules there were of each kind.
/// `walk` reads packets in the same way, and prints the verdicts of each by the answers about conditions. `reach` prints the verdicts of a set
/// of packets: for each verdict and decider, the numbers that its packets have on a field. `assert` prints of each claim of a file whether it holds for every
/// packet, or a packet for which it fails, with its walk. With `--json` an answer is one JSON document.
///
/// Answers go to standard output. A line `# iptsim-fit: ..` of a file goes to standard error as it stands, when it is read. A
/// fault in a file or in a packet goes there, as `line N: CODE text`, and so does each message of the program itself. Where
/// standard error is a terminal, it shows once a second how many questions were asked so far: one for each rule, or of `compare`
/// one for each built-in chain and for each rule that only one of the rulesets has, and of `assert` one for each claim.
///
/// | Status | Cause |
/// |---|---|
/// | 0 | no rule is dead; the rulesets are alike; all claims hold; each rule that can match does match a packet of standard input; the verdicts of a set of packets, or the walks of those of standard input, are known; the version was printed |
/// | 1 | a rule is dead; a packet gets two verdicts; a claim fails; a rule that can match a packet matches none of standard input |
/// | 2 | a file cannot be opened, read or restored; a line of claims is none; standard input fails, or a line of it is no packet; output failed; the words are refused, ask for help or name no subcommand |
/// | 3 | nothing of this was found, and something isn't known |
/// | 4 | out of memory |
fn main(rt: HostRuntime) -> ExitCode {
    ExitCode::from(run(&rt, &rt.stderr()))
}
