//! The values of options.
ghost use Rattle.std.specs.Prelude.{◌≡◌, ◌≤◌, Option, Some, None, List, length};
ghost use Rattle.rules.specs.Sequence.{Gives, RefusesFirst, or_refused};
ghost use Rattle.rules.specs.options.Options.{first_of};
ghost use Rattle.rules.specs.options.OptionValues.{option_of_value, is_trivial, value_of, second_of, text_within, with_opposite};
ghost use Rattle.fields.specs.text.WordSlice.{words_in};
ghost use Rattle.fields.specs.values.Protocol.{protocol_of};

use crate::options::comment::Comment;
use crate::options::option::Opt;
use crate::reading::fault::{Refusal, RuleFault};
use fields::{
    CtSet, FlagTest, IcmpType, IfPattern, IpRange, LogLevel, PortList, PortRange, Prefix, Protocol,
    RejectType, Text, Ttl, WordSlice,
};
use std::alloc::Global;

// A value, of the option that it is named after.
#[derive(PartialEq, Drop)]
pub(crate) enum Value {
    Source(Prefix),
    Destination(Prefix),
    InInterface(IfPattern),
    OutInterface(IfPattern),
    Protocol(Protocol),
    Fragment,
    SourcePort(PortRange),
    DestinationPort(PortRange),
    TcpFlags(FlagTest),
    IcmpType(IcmpType),
    SourcePorts(PortList),
    DestinationPorts(PortList),
    Ports(PortList),
    SourceRange(IpRange),
    DestinationRange(IpRange),
    Ctstate(CtSet),
    State(CtSet),
    Comment(Comment),
    TtlEqual(Ttl),
    TtlGreater(Ttl),
    TtlLess(Ttl),
    RejectWith(RejectType),
    LogPrefix(Text<29>),
    LogLevel(LogLevel),
    LogTcpSequence,
    LogTcpOptions,
    LogIpOptions,
    LogUid,
}

impl Value {
    // The option of the value.
    pub(crate) fn option(&self) -> Opt
        ensures { result ≡ option_of_value self.now }
    {
        match self {
            Value::Source(_) => Opt::Source,
            Value::Destination(_) => Opt::Destination,
            Value::InInterface(_) => Opt::InInterface,
            Value::OutInterface(_) => Opt::OutInterface,
            Value::Protocol(_) => Opt::Protocol,
            Value::Fragment => Opt::Fragment,
            Value::SourcePort(_) => Opt::SourcePort,
            Value::DestinationPort(_) => Opt::DestinationPort,
            Value::TcpFlags(_) => Opt::TcpFlags,
            Value::IcmpType(_) => Opt::IcmpType,
            Value::SourcePorts(_) => Opt::SourcePorts,
            Value::DestinationPorts(_) => Opt::DestinationPorts,
            Value::Ports(_) => Opt::Ports,
            Value::SourceRange(_) => Opt::SourceRange,
            Value::DestinationRange(_) => Opt::DestinationRange,
            Value::Ctstate(_) => Opt::Ctstate,
            Value::State(_) => Opt::State,
            Value::Comment(_) => Opt::Comment,
            Value::TtlEqual(_) => Opt::TtlEqual,
            Value::TtlGreater(_) => Opt::TtlGreater,
            Value::TtlLess(_) => Opt::TtlLess,
            Value::RejectWith(_) => Opt::RejectWith,
            Value::LogPrefix(_) => Opt::LogPrefix,
            Value::LogLevel(_) => Opt::LogLevel,
            Value::LogTcpSequence => Opt::LogTcpSequence,
            Value::LogTcpOptions => Opt::LogTcpOptions,
            Value::LogIpOptions => Opt::LogIpOptions,
            Value::LogUid => Opt::LogUid,
        }
    }

    // Whether it stands for no condition, where it isn't inverted.
    pub(crate) fn is_trivial(&self) -> bool
        ensures { result ≡ is_trivial self.now }
    {
        match self {
            Value::Source(prefix) | Value::Destination(prefix) => prefix.length() == 0,
            Value::InInterface(pattern) | Value::OutInterface(pattern) => pattern.is_any(),
            Value::Protocol(protocol) => protocol.is_all(),
            Value::SourcePort(ports) | Value::DestinationPort(ports) => ports.is_all(),
            Value::TcpFlags(test) => test.asks_nothing(),
            Value::LogPrefix(text) => text.bytes().is_empty(),
            Value::LogLevel(level) => level.number() == 4,
            _ => false,
        }
    }
}

// What was read, or a bad value.
pub(crate) fn or_bad_value<T>(value: Option<T>) -> Result<T, RuleFault>
    ensures gives { Gives (λ x. x) result (or_refused Refusal.BadValue value) }
    ensures refuses { RefusesFirst result (or_refused Refusal.BadValue value) }
{
    match value {
        Some(value) => Ok(value),
        None => Err(RuleFault::Refused(Refusal::BadValue)),
    }
}

// A text of at most `N` bytes; with more it is too long, whatever they are.
pub(crate) fn text_within<const N: usize>(bytes: &[u8]) -> Result<Text<N>, RuleFault>
    ensures gives { Gives (λ x. x) result (text_within N bytes.now) }
    ensures refuses { RefusesFirst result (text_within N bytes.now) }
{
    if bytes.len() > N {
        return Err(RuleFault::Refused(Refusal::TextTooLong));
    }
    or_bad_value(Text::read(bytes))
}

// The protocol; all protocols have no opposite.
fn protocol(inverted: bool, text: &[u8]) -> Option<Protocol>
    ensures { result ≡ with_opposite inverted (protocol_of text.now) }
{
    let protocol = Protocol::read(text)?;
    if inverted && protocol.number() == 0 {
        return None;
    }
    Some(protocol)
}

// The first word, if there is one.
pub(crate) fn first_of(words: WordSlice<'_>) -> &[u8]
    ensures { result.now ≡ first_of (words_in words.entry) }
{
    match words.split_first() {
        None => b"",
        Some((first, _)) => first,
    }
}

// The second word, if there is one.
fn second_of(words: WordSlice<'_>) -> &[u8]
    ensures { result.now ≡ second_of (words_in words.entry) }
{
    match words.split_first() {
        None => b"",
        Some((_, rest)) => first_of(rest),
    }
}

// The value that the words after an option give it; it is refused before memory is taken.
#[tactic(auto, unfolding(crate::specs::options::OptionValues::value_of))]
pub(crate) fn value_of(
    alloc: Global,
    option: Opt,
    inverted: bool,
    words: WordSlice,
) -> Result<Value, RuleFault>
    ensures gives { Gives (λ x. x) result (value_of option inverted (words_in words.entry)) }
    ensures refuses { RefusesFirst result (value_of option inverted (words_in words.entry)) }
{
    let text = first_of(words);
    match option {
        Opt::Source => Ok(Value::Source(or_bad_value(Prefix::read(text))?)),
        Opt::Destination => Ok(Value::Destination(or_bad_value(Prefix::read(text))?)),
        Opt::InInterface => Ok(Value::InInterface(or_bad_value(IfPattern::read(text))?)),
        Opt::OutInterface => Ok(Value::OutInterface(or_bad_value(IfPattern::read(text))?)),
        Opt::Protocol => Ok(Value::Protocol(or_bad_value(protocol(inverted, text))?)),
        Opt::Fragment => Ok(Value::Fragment),
        Opt::SourcePort => Ok(Value::SourcePort(or_bad_value(PortRange::read(text))?)),
        Opt::DestinationPort => Ok(Value::DestinationPort(or_bad_value(PortRange::read(text))?)),
        Opt::TcpFlags => Ok(Value::TcpFlags(or_bad_value(FlagTest::read(text, second_of(words)))?)),
        Opt::Syn => Ok(Value::TcpFlags(FlagTest::syn())),
        Opt::IcmpType => Ok(Value::IcmpType(or_bad_value(IcmpType::read(text))?)),
        Opt::SourcePorts => Ok(Value::SourcePorts(or_bad_value(PortList::read(text))?)),
        Opt::DestinationPorts => Ok(Value::DestinationPorts(or_bad_value(PortList::read(text))?)),
        Opt::Ports => Ok(Value::Ports(or_bad_value(PortList::read(text))?)),
        Opt::SourceRange => Ok(Value::SourceRange(or_bad_value(IpRange::read(text))?)),
        Opt::DestinationRange => Ok(Value::DestinationRange(or_bad_value(IpRange::read(text))?)),
        Opt::Ctstate => Ok(Value::Ctstate(or_bad_value(CtSet::read(text))?)),
        Opt::State => Ok(Value::State(or_bad_value(CtSet::read_state(text))?)),
        Opt::Comment => Ok(Value::Comment(Comment::read(alloc, text)?)),
        Opt::TtlEqual => Ok(Value::TtlEqual(or_bad_value(Ttl::read(text))?)),
        Opt::TtlGreater => Ok(Value::TtlGreater(or_bad_value(Ttl::read(text))?)),
        Opt::TtlLess => Ok(Value::TtlLess(or_bad_value(Ttl::read(text))?)),
        Opt::RejectWith => Ok(Value::RejectWith(or_bad_value(RejectType::read(text))?)),
        Opt::LogPrefix => Ok(Value::LogPrefix(text_within(text)?)),
        Opt::LogLevel => Ok(Value::LogLevel(or_bad_value(LogLevel::read(text))?)),
        Opt::LogTcpSequence => Ok(Value::LogTcpSequence),
        Opt::LogTcpOptions => Ok(Value::LogTcpOptions),
        Opt::LogIpOptions => Ok(Value::LogIpOptions),
        Opt::LogUid => Ok(Value::LogUid),
        Opt::Match | Opt::Jump | Opt::Goto => Err(RuleFault::Refused(Refusal::BadValue)),
    }
}
