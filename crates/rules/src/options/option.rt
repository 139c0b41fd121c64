//! The options of a rule, in one table: of each its spellings, how many values it takes, whether `!` may stand, its
//! owner and its place in a listing.
ghost use Rattle.std.specs.Prelude.{◌≡◌, Option, Some, None};
ghost use Rattle.std.specs.List.{list_any};
ghost use Rattle.std.specs.Str.{bytes_eq};
ghost use Rattle.rules.specs.steps.OptionRows.{names_now};
ghost use Rattle.rules.specs.options.Options.{option_of, spells, is_one_of, is_match_of, kind_has};

use crate::options::match_kind::MatchKind;

// An option, whatever its spelling.
#[derive(Clone, Copy)]
pub(crate) enum Opt {
    Source,
    Destination,
    InInterface,
    OutInterface,
    Protocol,
    Fragment,
    Match,
    Jump,
    Goto,
    SourcePort,
    DestinationPort,
    TcpFlags,
    Syn,
    IcmpType,
    SourcePorts,
    DestinationPorts,
    Ports,
    SourceRange,
    DestinationRange,
    Ctstate,
    State,
    Comment,
    TtlEqual,
    TtlGreater,
    TtlLess,
    RejectWith,
    LogPrefix,
    LogLevel,
    LogTcpSequence,
    LogTcpOptions,
    LogIpOptions,
    LogUid,
}

// The matches that have an option.
#[derive(Clone, Copy)]
pub(crate) enum MatchKinds {
    One(MatchKind),
    Either(MatchKind, MatchKind),
}

// The targets that have options.
#[derive(Clone, Copy)]
pub(crate) enum Extended {
    Reject,
    Log,
}

// What an option belongs to.
#[derive(Clone, Copy)]
pub(crate) enum Owner {
    // The rule itself.
    Rule,
    // It starts a match.
    Start,
    // It names a target.
    Jump,
    // It names a chain to go on with.
    Goto,
    // A match.
    Match(MatchKinds),
    // A target.
    Target(Extended),
}

// An option's spellings, of which the first is printed, how many values follow it, whether `!` may stand before it,
// what it belongs to, and its place among the options of its owner. Options of one place count as one.
#[derive(Clone, Copy)]
pub(crate) struct OptionSpec {
    pub(crate) names: &'static [&'static [u8]],
    pub(crate) values: usize,
    pub(crate) inverts: bool,
    pub(crate) owner: Owner,
    pub(crate) slot: u8,
}

// What belongs to tcp and to udp.
const PORTS: Owner = Owner::Match(MatchKinds::Either(MatchKind::Tcp, MatchKind::Udp));

impl OptionSpec {
    // A row of these.
    fn of(
        names: &'static [&'static [u8]],
        values: usize,
        inverts: bool,
        owner: Owner,
        slot: u8,
    ) -> OptionSpec
        ensures { result ≡ record { names = names.entry; values = values; inverts = inverts; owner = owner; slot = slot } }
    {
        OptionSpec {
            names,
            values,
            inverts,
            owner,
            slot,
        }
    }
}

impl Opt {
    ghost use Rattle.rules.specs.steps.OptionRows.{IsOptionSpec};

    // Each option.
    pub(crate) const ALL: [Opt; 32] = [
        Opt::Source,
        Opt::Destination,
        Opt::InInterface,
        Opt::OutInterface,
        Opt::Protocol,
        Opt::Fragment,
        Opt::Match,
        Opt::Jump,
        Opt::Goto,
        Opt::SourcePort,
        Opt::DestinationPort,
        Opt::TcpFlags,
        Opt::Syn,
        Opt::IcmpType,
        Opt::SourcePorts,
        Opt::DestinationPorts,
        Opt::Ports,
        Opt::SourceRange,
        Opt::DestinationRange,
        Opt::Ctstate,
        Opt::State,
        Opt::Comment,
        Opt::TtlEqual,
        Opt::TtlGreater,
        Opt::TtlLess,
        Opt::RejectWith,
        Opt::LogPrefix,
        Opt::LogLevel,
        Opt::LogTcpSequence,
        Opt::LogTcpOptions,
        Opt::LogIpOptions,
        Opt::LogUid,
    ];

    // The row of the option.
    pub(crate) fn row(self) -> OptionSpec
        ensures { IsOptionSpec result self }
    {
        match self {
            Opt::Source => OptionSpec::of(&[b"-s", b"--source", b"--src"], 1, true, Owner::Rule, 0),
            Opt::Destination => OptionSpec::of(
                &[b"-d", b"--destination", b"--dst"],
                1,
                true,
                Owner::Rule,
                1,
            ),
            Opt::InInterface => OptionSpec::of(
                &[b"-i", b"--in-interface"],
                1,
                true,
                Owner::Rule,
                2,
            ),
            Opt::OutInterface => OptionSpec::of(
                &[b"-o", b"--out-interface"],
                1,
                true,
                Owner::Rule,
                3,
            ),
            Opt::Protocol => OptionSpec::of(&[b"-p", b"--protocol"], 1, true, Owner::Rule, 4),
            Opt::Fragment => OptionSpec::of(&[b"-f", b"--fragment"], 0, true, Owner::Rule, 5),
            Opt::Match => OptionSpec::of(&[b"-m", b"--match"], 1, false, Owner::Start, 0),
            Opt::Jump => OptionSpec::of(&[b"-j", b"--jump"], 1, false, Owner::Jump, 0),
            Opt::Goto => OptionSpec::of(&[b"-g", b"--goto"], 1, false, Owner::Goto, 0),
            Opt::SourcePort => OptionSpec::of(&[b"--sport", b"--source-port"], 1, true, PORTS, 0),
            Opt::DestinationPort => OptionSpec::of(
                &[b"--dport", b"--destination-port"],
                1,
                true,
                PORTS,
                1,
            ),
            Opt::TcpFlags => OptionSpec::of(&[b"--tcp-flags"], 2, true, of(MatchKind::Tcp), 2),
            Opt::Syn => OptionSpec::of(&[b"--syn"], 0, true, of(MatchKind::Tcp), 2),
            Opt::IcmpType => OptionSpec::of(&[b"--icmp-type"], 1, true, of(MatchKind::Icmp), 0),
            Opt::SourcePorts => OptionSpec::of(
                &[b"--sports", b"--source-ports"],
                1,
                true,
                of(MatchKind::Multiport),
                0,
            ),
            Opt::DestinationPorts => OptionSpec::of(
                &[b"--dports", b"--destination-ports"],
                1,
                true,
                of(MatchKind::Multiport),
                0,
            ),
            Opt::Ports => OptionSpec::of(&[b"--ports"], 1, true, of(MatchKind::Multiport), 0),
            Opt::SourceRange => OptionSpec::of(
                &[b"--src-range"],
                1,
                true,
                of(MatchKind::Iprange),
                0,
            ),
            Opt::DestinationRange => OptionSpec::of(
                &[b"--dst-range"],
                1,
                true,
                of(MatchKind::Iprange),
                1,
            ),
            Opt::Ctstate => OptionSpec::of(&[b"--ctstate"], 1, true, of(MatchKind::Conntrack), 0),
            Opt::State => OptionSpec::of(&[b"--state"], 1, true, of(MatchKind::State), 0),
            Opt::Comment => OptionSpec::of(&[b"--comment"], 1, false, of(MatchKind::Comment), 0),
            Opt::TtlEqual => OptionSpec::of(&[b"--ttl-eq"], 1, true, of(MatchKind::Ttl), 0),
            Opt::TtlGreater => OptionSpec::of(&[b"--ttl-gt"], 1, false, of(MatchKind::Ttl), 0),
            Opt::TtlLess => OptionSpec::of(&[b"--ttl-lt"], 1, false, of(MatchKind::Ttl), 0),
            Opt::RejectWith => OptionSpec::of(
                &[b"--reject-with"],
                1,
                false,
                Owner::Target(Extended::Reject),
                0,
            ),
            Opt::LogPrefix => OptionSpec::of(
                &[b"--log-prefix"],
                1,
                false,
                Owner::Target(Extended::Log),
                0,
            ),
            Opt::LogLevel => OptionSpec::of(
                &[b"--log-level"],
                1,
                false,
                Owner::Target(Extended::Log),
                1,
            ),
            Opt::LogTcpSequence => OptionSpec::of(
                &[b"--log-tcp-sequence"],
                0,
                false,
                Owner::Target(Extended::Log),
                2,
            ),
            Opt::LogTcpOptions => OptionSpec::of(
                &[b"--log-tcp-options"],
                0,
                false,
                Owner::Target(Extended::Log),
                3,
            ),
            Opt::LogIpOptions => OptionSpec::of(
                &[b"--log-ip-options"],
                0,
                false,
                Owner::Target(Extended::Log),
                4,
            ),
            Opt::LogUid => OptionSpec::of(
                &[b"--log-uid"],
                0,
                false,
                Owner::Target(Extended::Log),
                5,
            ),
        }
    }

    // Whether a word spells the option.
    fn is_spelled(self, word: &[u8]) -> bool
        ensures { result ≡ spells word.now self }
    {
        is_among(self.row().names, word)
    }

    // The option that a word spells. The spellings that stand in most rules are known at once.
    #[tactic(auto, unfolding(crate::specs::options::Options::option_of))]
    pub(crate) fn read(word: &[u8]) -> Option<Opt>
        ensures { result ≡ option_of word.now }
    {
        match word {
            b"-s" => Some(Opt::Source),
            b"-d" => Some(Opt::Destination),
            b"-p" => Some(Opt::Protocol),
            b"-m" => Some(Opt::Match),
            b"-j" => Some(Opt::Jump),
            b"-i" => Some(Opt::InInterface),
            b"--dport" => Some(Opt::DestinationPort),
            b"--sport" => Some(Opt::SourcePort),
            b"--state" => Some(Opt::State),
            b"--dports" => Some(Opt::DestinationPorts),
            b"--ctstate" => Some(Opt::Ctstate),
            b"--comment" => Some(Opt::Comment),
            _ => Opt::among_all(word),
        }
    }

    // The same, by a search of the table.
    #[tactic(auto, unfolding(crate::specs::options::Options::option_of))]
    fn among_all(word: &[u8]) -> Option<Opt>
        ensures { result ≡ option_of word.now }
    {
        Opt::ALL
            .iter()
            .copied()
            .find(|option| option.is_spelled(word))
    }
}

// Whether a word is one of these.
fn is_among(names: &[&[u8]], word: &[u8]) -> bool
    ensures { result ≡ list_any (bytes_eq word.now) (names_now names.now) }
{
    for name in names {
        if word == *name {
            return true;
        }
    }
    false
}

// Belongs to one match.
fn of(kind: MatchKind) -> Owner
    ensures { result ≡ Owner.Match (MatchKinds.One kind) }
{
    Owner::Match(MatchKinds::One(kind))
}

impl MatchKinds {
    // Whether the match is one of these.
    fn has(self, kind: MatchKind) -> bool
        ensures { result ≡ is_one_of self kind }
    {
        match self {
            MatchKinds::One(one) => one.is(kind),
            MatchKinds::Either(one, other) => one.is(kind) || other.is(kind),
        }
    }
}

impl MatchKind {
    // Whether the match has the option.
    pub(crate) fn has(self, option: Opt) -> bool
        ensures { result ≡ kind_has self option }
    {
        match option.row().owner {
            Owner::Match(kinds) => kinds.has(self),
            _ => false,
        }
    }
}
