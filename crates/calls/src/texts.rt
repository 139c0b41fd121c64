//! Every fault that the public calls of `fields`, `rules`, `table`, `restore` and `sessions` answer, with its text. What has to be
//! printed is the table of faults of the manual; a fault that holds another one has the text of that one.
use fields::{PacketFault, ReadFailed, WordFault, WriteFailed};
use restore::{CommandFault, RestoreFault};
use rules::{Refusal, RuleFault};
use sessions::Fault;
use std::fmt::{Debug, Display};
use std::io;
use table::TableFault;

const REFUSALS: [Refusal; 12] = [
    Refusal::UnknownOption(0),
    Refusal::ValueMissing,
    Refusal::BadValue,
    Refusal::RepeatedOption,
    Refusal::InversionNotAllowed,
    Refusal::ProtocolNeeded,
    Refusal::UnknownMatch,
    Refusal::TooManyMatches,
    Refusal::JumpAndGoto,
    Refusal::TextTooLong,
    Refusal::OtherTarget,
    Refusal::MatchOptionMissing,
];

const RULE_FAULTS: [RuleFault; 2] = [RuleFault::NoMemory, RuleFault::Refused(Refusal::BadValue)];

const PACKET_FAULTS: [PacketFault; 4] = [
    PacketFault::UnknownKey,
    PacketFault::KeyMissing,
    PacketFault::BadValue,
    PacketFault::NotCarried,
];

const TABLE_FAULTS: [TableFault; 17] = [
    TableFault::NoSuchChain,
    TableFault::ChainExists,
    TableFault::BadChainName,
    TableFault::NumberOutOfRange,
    TableFault::NoSuchRule,
    TableFault::ChainNotEmpty,
    TableFault::ChainReferenced,
    TableFault::BuiltInChain,
    TableFault::NotBuiltInChain,
    TableFault::Loop,
    TableFault::TargetMissing,
    TableFault::TargetBuiltIn,
    TableFault::InterfaceNotAllowed,
    TableFault::ChainFull,
    TableFault::TooManyChains,
    TableFault::BadPolicy,
    TableFault::NoMemory,
];

const COMMAND_FAULTS: [CommandFault; 6] = [
    CommandFault::NoCommand,
    CommandFault::TwoCommands,
    CommandFault::WordCount,
    CommandFault::OtherTable,
    CommandFault::Rule(RuleFault::NoMemory),
    CommandFault::Rule(RuleFault::Refused(Refusal::ProtocolNeeded)),
];

const RESTORE_FAULTS: [RestoreFault; 12] = [
    RestoreFault::Command(CommandFault::NoCommand),
    RestoreFault::Command(CommandFault::TwoCommands),
    RestoreFault::Command(CommandFault::Rule(RuleFault::Refused(Refusal::UnknownMatch))),
    RestoreFault::Table(TableFault::Loop),
    RestoreFault::Table(TableFault::NoMemory),
    RestoreFault::NotAllowed,
    RestoreFault::BadChainLine,
    RestoreFault::DuplicateChainLine,
    RestoreFault::EndBeforeCommit,
    RestoreFault::Quoting,
    RestoreFault::LineTooLong,
    RestoreFault::NoMemory,
];

const LINE_FAULTS: [Fault; 6] = [
    Fault::Line(RestoreFault::Quoting),
    Fault::Packet(PacketFault::NotCarried),
    Fault::UnknownLine,
    Fault::BadRestoreLine,
    Fault::EndWordMissing,
    Fault::NoMemory,
];

/// Prints faults, each with its text.
fn print_faults<F: Debug + Display>(rt: &impl Print, faults: &[F]) -> io::Result<()> {
    for fault in faults {
        println!(rt; "{fault:?}: {fault}")?;
    }
    Ok(())
}

/// Prints all faults.
pub fn print_all(rt: &impl Print) -> io::Result<()> {
    print_faults(rt, &REFUSALS)?;
    print_faults(rt, &RULE_FAULTS)?;
    print_faults(rt, &[WordFault::Quoting, WordFault::NoMemory])?;
    print_faults(rt, &PACKET_FAULTS)?;
    print_faults(rt, &[ReadFailed])?;
    print_faults(rt, &[WriteFailed])?;
    print_faults(rt, &TABLE_FAULTS)?;
    print_faults(rt, &COMMAND_FAULTS)?;
    print_faults(rt, &RESTORE_FAULTS)?;
    print_faults(rt, &LINE_FAULTS)
}
