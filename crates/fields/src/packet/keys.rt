//! The keys of a packet line, one row a field: what a key takes, which packets carry it, whether they need it, and
//! the number where no word gives it.
ghost use Rattle.std.specs.Prelude.{◌≡◌, ◌==◌};
ghost use Rattle.fields.specs.values.Protocol.{carries_ports};

use crate::numbers::field::Field;
use crate::packet::hook::Hook;
use crate::text::number::read_number_to;
use crate::values::connection_state::read_packet_state;
use crate::values::icmp::read_packet_icmp;
use crate::values::interface::IfPattern;
use crate::values::prefix::read_address;
use crate::values::protocol::{DCCP, ICMP, Protocol, SCTP, TCP, UDP, UDPLITE};
use crate::values::tcp_flags::TcpFlags;
use crate::values::ttl::Ttl;

// What stands after a key's `=`.
#[derive(Clone, Copy)]
pub(crate) enum ValueKind {
    Address,
    Interface,
    Protocol,
    Bit,
    Port,
    Flags,
    Icmp,
    State,
    Ttl,
}

// Which packets carry a key.
#[derive(Clone, Copy)]
pub(crate) enum Carrier {
    Every,
    Incoming,
    Outgoing,
    WithPorts,
    Tcp,
    Icmp,
}

// What the key of a field takes, who carries it, whether a packet that does needs it, and the field's number where no word
// gives one.
#[derive(Clone, Copy)]
pub(crate) struct KeyRow {
    pub value: ValueKind,
    pub carrier: Carrier,
    pub is_required: bool,
    pub absent: u128,
}

// What decides which keys a packet carries: its hook, its protocol where one is given, and whether it is a further
// fragment.
#[derive(Clone, Copy)]
pub(crate) struct Shape {
    pub hook: Hook,
    pub protocol: Option<u128>,
    pub fragment: u128,
}

impl ValueKind {
    ghost use Rattle.fields.specs.Packet.{value_of};

    pub(crate) fn read(self, text: &[u8]) -> Option<u128>
        ensures { result ≡ value_of self text.now }
    {
        match self {
            ValueKind::Address => Some(u128::from(read_address(text)?)),
            ValueKind::Interface => Some(IfPattern::read(text)?.value()),
            ValueKind::Protocol => Some(u128::from(Protocol::read_one(text)?.number())),
            ValueKind::Bit => Some(u128::from(read_number_to(text, 1)?)),
            ValueKind::Port => Some(u128::from(read_number_to(text, 65535)?)),
            ValueKind::Flags => Some(u128::from(TcpFlags::read(text)?.value())),
            ValueKind::Icmp => Some(u128::from(read_packet_icmp(text)?)),
            ValueKind::State => Some(u128::from(read_packet_state(text)?)),
            ValueKind::Ttl => Some(u128::from(Ttl::read(text)?.number())),
        }
    }
}

// The protocols whose packets have ports.
fn has_ports(protocol: u128) -> bool
    ensures { result ≡ carries_ports protocol }
{
    protocol == TCP as u128
        || protocol == UDP as u128
        || protocol == DCCP as u128
        || protocol == SCTP as u128
        || protocol == UDPLITE as u128
}

impl Shape {
    ghost use Rattle.fields.specs.Packet.{carries, comes_in, goes_out, is_first_of};

    fn comes_in(self) -> bool
        ensures { result ≡ comes_in self.hook }
    {
        match self.hook {
            Hook::Input | Hook::Forward => true,
            Hook::Output => false,
        }
    }

    fn goes_out(self) -> bool
        ensures { result ≡ goes_out self.hook }
    {
        match self.hook {
            Hook::Forward | Hook::Output => true,
            Hook::Input => false,
        }
    }

    fn has_ports(self) -> bool
        ensures { result ≡ is_first_of carries_ports self.fragment self.protocol }
    {
        match self.protocol {
            None => false,
            Some(protocol) => has_ports(protocol) && self.fragment == 0,
        }
    }

    fn is_first_of(self, wanted: u128) -> bool
        ensures { result ≡ is_first_of (λ n. n == wanted) self.fragment self.protocol }
    {
        match self.protocol {
            None => false,
            Some(protocol) => protocol == wanted && self.fragment == 0,
        }
    }

    // Whether a packet of this shape carries the key.
    pub(crate) fn carry(self, carrier: Carrier) -> bool
        ensures { result ≡ carries self carrier }
    {
        match carrier {
            Carrier::Every => true,
            Carrier::Incoming => self.comes_in(),
            Carrier::Outgoing => self.goes_out(),
            Carrier::WithPorts => self.has_ports(),
            Carrier::Tcp => self.is_first_of(TCP as u128),
            Carrier::Icmp => self.is_first_of(ICMP as u128),
        }
    }
}

impl KeyRow {
    ghost use Rattle.fields.specs.Packet.{key, key_of};

    fn new(value: ValueKind, carrier: Carrier, is_required: bool, absent: u128) -> KeyRow
        ensures { result ≡ key value carrier is_required absent }
    {
        KeyRow {
            value,
            carrier,
            is_required,
            absent,
        }
    }

    // The table of keys: one row a field.
    pub(crate) fn of(field: Field) -> KeyRow
        ensures { result ≡ key_of field }
    {
        match field {
            Field::Source => KeyRow::new(ValueKind::Address, Carrier::Every, true, 0),
            Field::Destination => KeyRow::new(ValueKind::Address, Carrier::Every, true, 0),
            Field::InIface => KeyRow::new(ValueKind::Interface, Carrier::Incoming, false, 0),
            Field::OutIface => KeyRow::new(ValueKind::Interface, Carrier::Outgoing, false, 0),
            Field::Protocol => KeyRow::new(ValueKind::Protocol, Carrier::Every, true, 0),
            Field::Fragment => KeyRow::new(ValueKind::Bit, Carrier::Every, false, 0),
            Field::SourcePort => KeyRow::new(ValueKind::Port, Carrier::WithPorts, true, 0),
            Field::DestinationPort => KeyRow::new(ValueKind::Port, Carrier::WithPorts, true, 0),
            Field::TcpFlags => KeyRow::new(ValueKind::Flags, Carrier::Tcp, false, 0),
            Field::IcmpType => KeyRow::new(ValueKind::Icmp, Carrier::Icmp, true, 0),
            Field::ConnectionState => KeyRow::new(ValueKind::State, Carrier::Every, false, 0),
            Field::TimeToLive => KeyRow::new(ValueKind::Ttl, Carrier::Every, false, 64),
        }
    }
}
