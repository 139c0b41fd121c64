//! The matches of a rule, in one table: a row a match.
ghost use Rattle.std.specs.Prelude.{◌≡◌, Option, Some, None};
ghost use Rattle.rules.specs.options.Matches.{kind_of, same_kind};

// A match (iptables-extensions(8)).
#[derive(Clone, Copy, Debug, PartialEq, Eq)]
pub(crate) enum MatchKind {
    Tcp,
    Udp,
    Icmp,
    Multiport,
    Iprange,
    Conntrack,
    State,
    Comment,
    Ttl,
}

// A match's name, the protocols of which it needs one (none: it needs no protocol), whether it needs an option, and
// whether it asks for a first fragment.
#[derive(Clone, Copy)]
pub(crate) struct MatchRow {
    pub(crate) name: &'static [u8],
    pub(crate) protocols: &'static [u8],
    pub(crate) needs_option: bool,
    pub(crate) asks_fragment: bool,
}

impl MatchKind {
    ghost use Rattle.rules.specs.steps.OptionRows.{IsMatchRow};

    // Each match.
    pub(crate) const ALL: [MatchKind; 9] = [
        MatchKind::Tcp,
        MatchKind::Udp,
        MatchKind::Icmp,
        MatchKind::Multiport,
        MatchKind::Iprange,
        MatchKind::Conntrack,
        MatchKind::State,
        MatchKind::Comment,
        MatchKind::Ttl,
    ];

    // Those that an option may start by itself.
    pub(crate) const IMPLIED: [MatchKind; 3] = [MatchKind::Tcp, MatchKind::Udp, MatchKind::Icmp];

    // The row of the match.
    pub(crate) fn row(self) -> MatchRow
        ensures { IsMatchRow result self }
    {
        match self {
            MatchKind::Tcp => MatchRow::of(b"tcp", &[6], false, true),
            MatchKind::Udp => MatchRow::of(b"udp", &[17], false, true),
            MatchKind::Icmp => MatchRow::of(b"icmp", &[1], false, true),
            MatchKind::Multiport => MatchRow::of(b"multiport", &[6, 17, 136, 33, 132], true, true),
            MatchKind::Iprange => MatchRow::of(b"iprange", &[], true, false),
            MatchKind::Conntrack => MatchRow::of(b"conntrack", &[], true, false),
            MatchKind::State => MatchRow::of(b"state", &[], true, false),
            MatchKind::Comment => MatchRow::of(b"comment", &[], true, false),
            MatchKind::Ttl => MatchRow::of(b"ttl", &[], true, false),
        }
    }

    // Whether two matches are one.
    pub(crate) fn is(self, other: MatchKind) -> bool
        ensures { result ≡ same_kind self other }
    {
        self as u8 == other as u8
    }

    // The match of a name.
    #[tactic(auto, unfolding(crate::specs::options::Matches::kind_of))]
    pub(crate) fn read(name: &[u8]) -> Option<MatchKind>
        ensures { result ≡ kind_of name.now }
    {
        MatchKind::ALL
            .iter()
            .copied()
            .find(|kind| kind.row().name == name)
    }
}

impl MatchRow {
    // A row of these.
    fn of(
        name: &'static [u8],
        protocols: &'static [u8],
        needs_option: bool,
        asks_fragment: bool,
    ) -> MatchRow
        ensures { result ≡ record {
          name = name.entry;
          protocols = protocols.entry;
          needs_option = needs_option;
          asks_fragment = asks_fragment;
        } }
    {
        MatchRow {
            name,
            protocols,
            needs_option,
            asks_fragment,
        }
    }
}
