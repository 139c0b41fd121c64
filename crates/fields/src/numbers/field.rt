//! The fields of a packet: one table of their top values and names.
ghost use Rattle.std.specs.Prelude.{◌≡◌, ◌<◌, Some, slice_get};

/// A field: what each packet has one whole number on, and what a condition of a rule tests.
#[derive(Clone, Copy, Debug, PartialEq, Eq)]
pub enum Field {
    /// The address that the packet comes from.
    Source,
    /// The address that it goes to.
    Destination,
    /// The interface that it comes in by.
    InIface,
    /// The interface that it goes out by.
    OutIface,
    /// Its protocol.
    Protocol,
    /// 1 for a further fragment, else 0.
    Fragment,
    /// The port that it comes from.
    SourcePort,
    /// The port that it goes to.
    DestinationPort,
    /// Its TCP flags, as the sum of their numbers.
    TcpFlags,
    /// Its ICMP type times 256, plus the code.
    IcmpType,
    /// The state of its connection, with translations.
    ConnectionState,
    /// Its time to live: how many more times it may be forwarded.
    TimeToLive,
}

/// How many fields there are.
pub const FIELDS: usize = 12;

// The greatest numbers of what stands on the fields.
pub(crate) const ADDRESS_TOP: u128 = u32::MAX as u128;

pub(crate) const INTERFACE_TOP: u128 = u128::MAX;

pub(crate) const PROTOCOL_TOP: u128 = 255;

pub(crate) const FRAGMENT_TOP: u128 = 1;

pub(crate) const PORT_TOP: u128 = 65535;

pub(crate) const FLAGS_TOP: u8 = 63;

pub(crate) const ICMP_TOP: u128 = 65535;

pub(crate) const STATE_TOP: u8 = 13;

pub(crate) const TTL_TOP: u8 = 255;

// The table of fields, in the order of `Field::ALL`: the greatest value and the name of each.
static ROWS: [(u128, &[u8]); FIELDS] = [
    (ADDRESS_TOP, b"src"),
    (ADDRESS_TOP, b"dst"),
    (INTERFACE_TOP, b"in"),
    (INTERFACE_TOP, b"out"),
    (PROTOCOL_TOP, b"proto"),
    (FRAGMENT_TOP, b"frag"),
    (PORT_TOP, b"sport"),
    (PORT_TOP, b"dport"),
    (FLAGS_TOP as u128, b"flags"),
    (ICMP_TOP, b"icmp"),
    (STATE_TOP as u128, b"ct"),
    (TTL_TOP as u128, b"ttl"),
];

impl Field {
    ghost use Rattle.fields.specs.numbers.Field.{row_of, index, top, name};

    /// Each field, at its index.
    pub const ALL: [Field; FIELDS] = [
        Field::Source,
        Field::Destination,
        Field::InIface,
        Field::OutIface,
        Field::Protocol,
        Field::Fragment,
        Field::SourcePort,
        Field::DestinationPort,
        Field::TcpFlags,
        Field::IcmpType,
        Field::ConnectionState,
        Field::TimeToLive,
    ];

    fn row(self) -> (u128, &'static [u8])
        ensures top { result.0 ≡ (row_of self).top }
        ensures name { result.1.now ≡ (row_of self).name }
    {
        ROWS[self as usize]
    }

    /// The greatest value that a packet can have on the field.
    pub fn top(self) -> u128
        ensures { result ≡ top self }
    {
        self.row().0
    }

    /// The field's short name, which is its key on a packet line.
    pub fn name(self) -> &'static [u8]
        ensures { result.now ≡ name self }
    {
        self.row().1
    }

    /// The field's place in `Field::ALL`.
    pub fn index(self) -> usize
        ensures place { result ≡ index self }
        ensures bound { result < FIELDS }
        ensures at { slice_get Self.ALL result ≡ Some self }
    {
        self as usize
    }
}
