//! Packets by their transport header, which says what they carry.
ghost use Rattle.std.specs.Prelude.{◌≡◌, ◌≤◌, ◌==◌, ◌||◌, ℕ, Bool, not, IfOk};
ghost use Rattle.fields.specs.numbers.Field.{protocol_top, top};
ghost use Rattle.fields.specs.numbers.Spans.{has};
ghost use Rattle.questions.specs.boxes.Boxes.{IsCarrying};
ghost use Rattle.questions.specs.steps.Transports.{AreByTransport, AreNumbersWith, IsFirstWith, IsKept, IsWithTransport, is_ported};
ghost use Rattle.fields.specs.values.Protocol.{carries_ports};

use crate::boxes::area::{Area, all_or_zero};
use fields::{FIELDS, Field, Hook, Spans};
use std::alloc::{AllocError, Global};

// What a packet carries behind the header of IP, as far as rules ask for it.
#[derive(Clone, Copy, PartialEq, Eq)]
pub(crate) enum Transport {
    // The header of TCP: ports and flags.
    Tcp,
    // That of UDP, DCCP, SCTP or UDP-Lite: ports.
    Ports,
    // That of ICMP: a type.
    Icmp,
    // That of another protocol.
    Other,
    // None: the packet is a further fragment.
    Missing,
}

const PROTOCOL_TOP: u128 = 255;

const ICMP: u128 = 1;

const TCP: u128 = 6;

// A set of protocols with one more.
fn with_protocol(alloc: Global, own: &Spans, number: u128) -> Result<Spans, AllocError>
    requires own { own.now.top ≡ protocol_top }
    requires number { number ≤ protocol_top }
    ensures top { IfOk result (λ set. set.top ≡ protocol_top) }
    ensures members { IfOk result (λ set. (x : ℕ) → x ≤ protocol_top → has set.intervals x ≡ (has own.now.intervals x || x == number)) }
{
    let one = Spans::one(alloc, PROTOCOL_TOP, number, number)?;
    own.join(alloc, &one)
}

// UDP, DCCP, SCTP and UDP-Lite.
fn ported(alloc: Global) -> Result<Spans, AllocError>
    ensures top { IfOk result (λ set. set.top ≡ protocol_top) }
    ensures members { IfOk result (λ set. (x : ℕ) → x ≤ protocol_top → has set.intervals x ≡ is_ported x) }
{
    let udp = Spans::one(alloc, PROTOCOL_TOP, 17, 17)?;
    let with_dccp = with_protocol(alloc, &udp, 33)?;
    let with_sctp = with_protocol(alloc, &with_dccp, 132)?;
    with_protocol(alloc, &with_sctp, 136)
}

// All protocols but those that have another transport header.
fn other(alloc: Global) -> Result<Spans, AllocError>
    ensures top { IfOk result (λ set. set.top ≡ protocol_top) }
    ensures members { IfOk result (λ set. (x : ℕ) → x ≤ protocol_top → has set.intervals x ≡ not (is_ported x || x == 6 || x == 1)) }
{
    let ported = ported(alloc)?;
    let with_tcp = with_protocol(alloc, &ported, TCP)?;
    let with_icmp = with_protocol(alloc, &with_tcp, ICMP)?;
    with_icmp.except(alloc)
}

impl Transport {
    ghost use Rattle.questions.specs.steps.Transports.{all_transports, fragment_of, with_flags, with_ports, with_type};

    // Each of them; every packet has one.
    pub(crate) const ALL: [Transport; 5] = [
        Transport::Tcp,
        Transport::Ports,
        Transport::Icmp,
        Transport::Other,
        Transport::Missing,
    ];

    pub(crate) fn has_ports(self) -> bool
        ensures { result ≡ with_ports self }
    {
        matches!(self, Transport::Tcp | Transport::Ports)
    }

    pub(crate) fn has_flags(self) -> bool
        ensures { result ≡ with_flags self }
    {
        matches!(self, Transport::Tcp)
    }

    pub(crate) fn has_type(self) -> bool
        ensures { result ≡ with_type self }
    {
        matches!(self, Transport::Icmp)
    }

    fn fragment(self) -> u128
        ensures { result ≡ fragment_of self }
    {
        match self {
            Transport::Tcp | Transport::Ports | Transport::Icmp | Transport::Other => 0,
            Transport::Missing => 1,
        }
    }
}

// The protocols of packets with it.
fn protocols(alloc: Global, transport: Transport) -> Result<Spans, AllocError>
    ensures { IfOk result (AreNumbersWith transport Field.Protocol) }
{
    match transport {
        Transport::Tcp => Spans::one(alloc, PROTOCOL_TOP, TCP, TCP),
        Transport::Ports => ported(alloc),
        Transport::Icmp => Spans::one(alloc, PROTOCOL_TOP, ICMP, ICMP),
        Transport::Other => other(alloc),
        Transport::Missing => Spans::whole(alloc, PROTOCOL_TOP),
    }
}

// The numbers on a field of packets with it.
fn numbers_with(alloc: Global, transport: Transport, field: Field) -> Result<Spans, AllocError>
    ensures { IfOk result (AreNumbersWith transport field) }
{
    match field {
        Field::Protocol => protocols(alloc, transport),
        Field::Fragment => {
            let number = transport.fragment();
            Spans::one(alloc, Field::Fragment.top(), number, number)
        }
        Field::SourcePort => all_or_zero(alloc, field, transport.has_ports()),
        Field::DestinationPort => all_or_zero(alloc, field, transport.has_ports()),
        Field::TcpFlags => all_or_zero(alloc, field, transport.has_flags()),
        Field::IcmpType => all_or_zero(alloc, field, transport.has_type()),
        Field::Source
        | Field::Destination
        | Field::InIface
        | Field::OutIface
        | Field::ConnectionState
        | Field::TimeToLive => all_or_zero(alloc, field, true),
    }
}

// The packets of a box with it.
pub(crate) fn with_transport(
    alloc: Global,
    mut area: Area,
    transport: Transport,
) -> Result<Area, AllocError>
    ensures { IfOk result (IsWithTransport transport area) }
{
    for place in 0..FIELDS {
        let field = Field::ALL[place];
        let wanted = numbers_with(alloc, transport, field)?;
        area = area.narrow(alloc, field, &wanted)?;
    }
    Ok(area)
}

// For each transport header the packets of a box that have it.
pub(crate) fn by_transport(alloc: Global, area: &Area) -> Result<Vec<Area>, AllocError>
    ensures { IfOk result (λ boxes. AreByTransport area.now boxes.items) }
{
    let mut boxes = Vec::new(alloc);
    for transport in Transport::ALL {
        boxes.push(with_transport(alloc, area.copy(alloc)?, transport)?)?;
    }
    Ok(boxes)
}

// The first fragments among the packets of a box that have one of some protocols.
fn first_of(alloc: Global, area: Area, protocols: &Spans) -> Result<Area, AllocError>
    requires { protocols.now.top ≡ protocol_top }
    ensures { (test : ℕ → Bool) → ((x : ℕ) → x ≤ protocol_top → has protocols.now.intervals x ≡ test x) → IfOk result (IsFirstWith test area) }
{
    let first = all_or_zero(alloc, Field::Fragment, false)?;
    let alike = area.narrow(alloc, Field::Protocol, protocols)?;
    alike.narrow(alloc, Field::Fragment, &first)
}

// Those of protocols with ports.
fn first_ported(alloc: Global, area: Area) -> Result<Area, AllocError>
    ensures { IfOk result (IsFirstWith carries_ports area) }
{
    let ported = ported(alloc)?;
    let with_tcp = with_protocol(alloc, &ported, TCP)?;
    first_of(alloc, area, &with_tcp)
}

// Those of one protocol.
fn first_with(alloc: Global, area: Area, protocol: u128) -> Result<Area, AllocError>
    requires { protocol ≤ protocol_top }
    ensures { IfOk result (IsFirstWith (λ x. x == protocol) area) }
{
    let one = Spans::one(alloc, PROTOCOL_TOP, protocol, protocol)?;
    first_of(alloc, area, &one)
}

// Those of a box if they are wanted, else none.
fn kept(alloc: Global, area: Area, field: Field, wanted: bool) -> Result<Area, AllocError>
    ensures { IfOk result (IsKept wanted area) }
{
    if wanted {
        return Ok(area);
    }
    let none = Spans::none(alloc, field.top());
    area.narrow(alloc, field, &none)
}

/// The packets of a box, of those at a hook, that carry the key of a field, and no others.
///
/// # Errors
///
/// `AllocError` where memory was refused.
pub fn carrying(alloc: Global, area: Area, hook: Hook, field: Field) -> Result<Area, AllocError>
    ensures { IfOk result (IsCarrying hook field area) }
{
    match field {
        Field::InIface => kept(alloc, area, field, !matches!(hook, Hook::Output)),
        Field::OutIface => kept(alloc, area, field, !matches!(hook, Hook::Input)),
        Field::SourcePort => first_ported(alloc, area),
        Field::DestinationPort => first_ported(alloc, area),
        Field::TcpFlags => first_with(alloc, area, TCP),
        Field::IcmpType => first_with(alloc, area, ICMP),
        Field::Source
        | Field::Destination
        | Field::Protocol
        | Field::Fragment
        | Field::ConnectionState
        | Field::TimeToLive => Ok(area),
    }
}
