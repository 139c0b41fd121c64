//! The name of an option, and of a match, with the blanks around it, written in one piece: a row an option, a row a
//! match.
ghost use Rattle.std.specs.Prelude.{◌≡◌, ◌++◌, [], codes, if◌then◌else◌};
ghost use Rattle.fields.specs.text.Printed.{spaced, bare};
ghost use Rattle.rules.specs.options.Options.{name_of};
ghost use Rattle.rules.specs.options.OptionValues.{option_of_value};
ghost use Rattle.rules.specs.steps.Writing.{has_words, start_text};

use crate::options::match_kind::MatchKind;
use crate::options::value::Value;

// The name of a value's option after a blank, and a blank where words follow.
pub(crate) fn spaced_option(value: &Value) -> &'static [u8]
    ensures { result.now ≡ spaced (bare (name_of (option_of_value value.now))) ++ (if has_words value.now then codes " " else []) }
{
    match value {
        Value::Source(_) => b" -s ",
        Value::Destination(_) => b" -d ",
        Value::InInterface(_) => b" -i ",
        Value::OutInterface(_) => b" -o ",
        Value::Protocol(_) => b" -p ",
        Value::Fragment => b" -f",
        Value::SourcePort(_) => b" --sport ",
        Value::DestinationPort(_) => b" --dport ",
        Value::TcpFlags(_) => b" --tcp-flags ",
        Value::IcmpType(_) => b" --icmp-type ",
        Value::SourcePorts(_) => b" --sports ",
        Value::DestinationPorts(_) => b" --dports ",
        Value::Ports(_) => b" --ports ",
        Value::SourceRange(_) => b" --src-range ",
        Value::DestinationRange(_) => b" --dst-range ",
        Value::Ctstate(_) => b" --ctstate ",
        Value::State(_) => b" --state ",
        Value::Comment(_) => b" --comment ",
        Value::TtlEqual(_) => b" --ttl-eq ",
        Value::TtlGreater(_) => b" --ttl-gt ",
        Value::TtlLess(_) => b" --ttl-lt ",
        Value::RejectWith(_) => b" --reject-with ",
        Value::LogPrefix(_) => b" --log-prefix ",
        Value::LogLevel(_) => b" --log-level ",
        Value::LogTcpSequence => b" --log-tcp-sequence",
        Value::LogTcpOptions => b" --log-tcp-options",
        Value::LogIpOptions => b" --log-ip-options",
        Value::LogUid => b" --log-uid",
    }
}

// What starts a match.
#[tactic(auto, unfolding(crate::specs::steps::Writing::start_text))]
pub(crate) fn spaced_start(kind: MatchKind) -> &'static [u8]
    ensures { result.now ≡ start_text kind }
{
    match kind {
        MatchKind::Tcp => b" -m tcp",
        MatchKind::Udp => b" -m udp",
        MatchKind::Icmp => b" -m icmp",
        MatchKind::Multiport => b" -m multiport",
        MatchKind::Iprange => b" -m iprange",
        MatchKind::Conntrack => b" -m conntrack",
        MatchKind::State => b" -m state",
        MatchKind::Comment => b" -m comment",
        MatchKind::Ttl => b" -m ttl",
    }
}
