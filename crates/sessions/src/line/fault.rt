//! Why a line of a session is refused: one table of codes, texts and statuses, over the faults of the crates below.
ghost use Rattle.std.specs.Prelude.{◌≡◌};
ghost use Rattle.sessions.specs.line.Fault.{command_text, fault_status, fault_text, line_text, line_status, of_line};
ghost use Rattle.sessions.specs.line.Fault.{packet_text, refusal_text, rule_text, table_text};

use fields::PacketFault;
use restore::{CommandFault, RestoreFault};
use rules::{Refusal, RuleFault};
use table::TableFault;
use thiserror::Error;

/// Why a line of a session is refused.
#[derive(Clone, Copy, Debug, PartialEq, Eq, Error)]
pub enum Fault {
    /// C, P, T and R: as a line of a restore is, also outside of restores.
    #[error("{0}")]
    Line(RestoreFault),
    /// F: the words describe no packet.
    #[error("{0}")]
    Packet(PacketFault),
    /// S1: the first word is that of no kind of line.
    #[error("unknown line")]
    UnknownLine,
    /// S2: the words after `iptables-restore` are no options and an end word.
    #[error("bad restore line")]
    BadRestoreLine,
    /// S3: the input ends in a restore that reported no fault.
    #[error("end word missing")]
    EndWordMissing,
    /// M0: memory was refused.
    #[error("no memory")]
    NoMemory,
}

fn refusal_text(refusal: Refusal) -> &'static [u8]
    ensures { result.now ≡ refusal_text refusal }
{
    match refusal {
        Refusal::UnknownOption(_) => b"P1 unknown option",
        Refusal::ValueMissing => b"P2 value missing",
        Refusal::BadValue => b"P3 bad value",
        Refusal::RepeatedOption => b"P4 repeated option",
        Refusal::InversionNotAllowed => b"P5 inversion not allowed",
        Refusal::ProtocolNeeded => b"P6 protocol needed",
        Refusal::UnknownMatch => b"P7 unknown match",
        Refusal::TooManyMatches => b"P8 too many matches",
        Refusal::JumpAndGoto => b"P9 both jump and goto",
        Refusal::TextTooLong => b"P10 text too long",
        Refusal::OtherTarget => b"P11 option of another target",
        Refusal::MatchOptionMissing => b"P12 match option missing",
    }
}

fn rule_text(fault: RuleFault) -> &'static [u8]
    ensures { result.now ≡ rule_text fault }
{
    match fault {
        RuleFault::Refused(refusal) => refusal_text(refusal),
        RuleFault::NoMemory => b"M0 no memory",
    }
}

fn command_text(fault: CommandFault) -> &'static [u8]
    ensures { result.now ≡ command_text fault }
{
    match fault {
        CommandFault::NoCommand => b"C1 no command",
        CommandFault::TwoCommands => b"C2 two commands",
        CommandFault::WordCount => b"C3 wrong number of words",
        CommandFault::OtherTable => b"C4 other table",
        CommandFault::Rule(fault) => rule_text(fault),
    }
}

fn table_text(fault: TableFault) -> &'static [u8]
    ensures { result.now ≡ table_text fault }
{
    match fault {
        TableFault::NoSuchChain => b"T1 no such chain",
        TableFault::ChainExists => b"T2 chain exists",
        TableFault::BadChainName => b"T3 bad chain name",
        TableFault::NumberOutOfRange => b"T4 number out of range",
        TableFault::NoSuchRule => b"T5 no such rule",
        TableFault::ChainNotEmpty => b"T6 chain not empty",
        TableFault::ChainReferenced => b"T7 chain referenced",
        TableFault::BuiltInChain => b"T8 built-in chain",
        TableFault::NotBuiltInChain => b"T9 not a built-in chain",
        TableFault::Loop => b"T10 loop",
        TableFault::TargetMissing => b"T11 target chain missing",
        TableFault::TargetBuiltIn => b"T12 target is built-in",
        TableFault::InterfaceNotAllowed => b"T13 interface not allowed in this chain",
        TableFault::ChainFull => b"T14 chain full",
        TableFault::TooManyChains => b"T15 too many chains",
        TableFault::BadPolicy => b"T16 bad policy",
        TableFault::NoMemory => b"M0 no memory",
    }
}

fn line_text(fault: RestoreFault) -> &'static [u8]
    ensures { result.now ≡ line_text fault }
{
    match fault {
        RestoreFault::Command(fault) => command_text(fault),
        RestoreFault::Table(fault) => table_text(fault),
        RestoreFault::NotAllowed => b"R1 line not allowed here",
        RestoreFault::BadChainLine => b"R2 bad chain line",
        RestoreFault::DuplicateChainLine => b"R3 duplicate chain line",
        RestoreFault::EndBeforeCommit => b"R4 end before COMMIT",
        RestoreFault::Quoting => b"R5 bad quoting",
        RestoreFault::LineTooLong => b"R6 line too long",
        RestoreFault::NoMemory => b"M0 no memory",
    }
}

fn packet_text(fault: PacketFault) -> &'static [u8]
    ensures { result.now ≡ packet_text fault }
{
    match fault {
        PacketFault::UnknownKey => b"F1 unknown key",
        PacketFault::KeyMissing => b"F2 key missing",
        PacketFault::BadValue => b"F3 bad packet value",
        PacketFault::NotCarried => b"F4 field not carried",
    }
}

// The status where the line couldn't be read, or was refused by the table or a restore.
fn line_status(fault: RestoreFault) -> u8
    ensures { result ≡ line_status fault }
{
    match fault {
        RestoreFault::Command(_) => 2,
        RestoreFault::Table(_)
        | RestoreFault::NotAllowed
        | RestoreFault::BadChainLine
        | RestoreFault::DuplicateChainLine
        | RestoreFault::EndBeforeCommit
        | RestoreFault::Quoting
        | RestoreFault::LineTooLong
        | RestoreFault::NoMemory => 1,
    }
}

impl Fault {
    // Why a line of a restore was refused. Out of memory is one fault, whatever asked for the memory.
    pub(crate) fn of_line(fault: RestoreFault) -> Fault
        ensures { result ≡ of_line fault }
    {
        if fault.is_out_of_memory() {
            return Fault::NoMemory;
        }
        Fault::Line(fault)
    }

    // The code and the text, as a session prints them.
    pub(crate) fn text(self) -> &'static [u8]
        ensures { result.now ≡ fault_text self }
    {
        match self {
            Fault::Line(fault) => line_text(fault),
            Fault::Packet(fault) => packet_text(fault),
            Fault::UnknownLine => b"S1 unknown line",
            Fault::BadRestoreLine => b"S2 bad restore line",
            Fault::EndWordMissing => b"S3 end word missing",
            Fault::NoMemory => b"M0 no memory",
        }
    }

    /// The status of a session whose first fault this is: 1, 2 or 4.
    pub fn status(self) -> u8
        ensures { result ≡ fault_status self }
    {
        match self {
            Fault::Line(fault) if fault.is_out_of_memory() => 4,
            Fault::Line(fault) => line_status(fault),
            Fault::Packet(_) | Fault::UnknownLine | Fault::BadRestoreLine | Fault::EndWordMissing =>
                2,
            Fault::NoMemory => 4,
        }
    }
}
