//! Protocols by name and number.
ghost use Rattle.std.specs.Prelude.{◌≡◌, ◌≤◌, ◌<◌, ◌↔◌, IsTrue, Option, Some, None, option_map, ℕ, IfOk, ◌==◌};
ghost use Rattle.fields.specs.numbers.Field.{protocol_top};
ghost use Rattle.fields.specs.numbers.Spans.{has};
ghost use Rattle.fields.specs.values.Protocol.{protocols, number_in, name_in, protocol_number, protocol_name, one_protocol_of, protocol_of, protocol_text};
ghost use Rattle.fields.specs.steps.Tables.{entries_of};
ghost use Rattle.fields.specs.text.Printed.{IsBareWord};
ghost use Rattle.fields.specs.text.Tap.{Puts};

use crate::numbers::field::PROTOCOL_TOP;
use crate::numbers::spans::Spans;
use crate::text::number::read_number_to;
use crate::text::tap::{Tap, WriteFailed};
use itoa::Buffer;
use std::alloc::{AllocError, Global};
use std::io::Write;
use std::marker::Model;

pub(crate) const ICMP: u8 = 1;

pub(crate) const TCP: u8 = 6;

pub(crate) const UDP: u8 = 17;

pub(crate) const DCCP: u8 = 33;

pub(crate) const SCTP: u8 = 132;

pub(crate) const UDPLITE: u8 = 136;

// The names with their numbers; of the names of one number the first is printed.
static PROTOCOLS: [(&[u8], u8); 14] = [
    (b"icmp", ICMP),
    (b"igmp", 2),
    (b"tcp", TCP),
    (b"udp", UDP),
    (b"dccp", DCCP),
    (b"gre", 47),
    (b"esp", 50),
    (b"ah", 51),
    (b"ipv6-icmp", 58),
    (b"icmpv6", 58),
    (b"ospf", 89),
    (b"vrrp", 112),
    (b"sctp", SCTP),
    (b"udplite", UDPLITE),
];

// The entries of the table.
fn entries() -> &'static [(&'static [u8], u8)]
    ensures { entries_of result.now ≡ protocols }
{
    &PROTOCOLS
}

// The number of the first entry with this name.
fn number_in(text: &[u8], entries: &[(&[u8], u8)]) -> Option<u8>
    ensures { result ≡ number_in text.now (entries_of entries.now) }
{
    for (name, number) in entries {
        if *name == text {
            return Some(*number);
        }
    }
    None
}

// The name of the first entry with this number.
fn name_in<'a>(protocol: u8, entries: &[(&'a [u8], u8)]) -> Option<&'a [u8]>
    ensures { option_map (λ name. name.now) result ≡ name_in protocol (entries_of entries.now) }
{
    for (name, number) in entries {
        if *number == protocol {
            return Some(*name);
        }
    }
    None
}

/// A protocol by its number, 0 to 255. In a rule 0 stands for all protocols.
#[derive(Clone, Copy, Debug, PartialEq, Eq)]
pub struct Protocol(u8);

impl Model for Protocol {
    ghost use Rattle.std.specs.Prelude.{ℕ, ◌<◌};

    ghost Value = { ℕ };

    ghost view = { λ protocol. protocol.0 };

    ghost invariant = { λ protocol. protocol.0 < 256 };

    ghost inverse = { λ number. record { 0 = number } };
}

impl Protocol {
    /// The protocol that a text writes in a rule: `all`, which is 0, or one protocol (iptables(8), `-p`).
    #[tactic(auto, unfolding(crate::specs::values::Protocol::protocol_of))]
    pub fn read(text: &[u8]) -> Option<Protocol>
        ensures { result ≡ protocol_of text.now }
    {
        if text == b"all".as_slice() {
            return Some(Protocol(0));
        }
        Protocol::read_one(text)
    }

    /// The one protocol that a text writes: a number 0 to 255, or one of icmp, igmp, tcp, udp, dccp,
    /// gre, esp, ah, ipv6-icmp (also icmpv6), ospf, vrrp, sctp and udplite.
    #[tactic(auto, unfolding(crate::specs::values::Protocol::one_protocol_of, crate::specs::values::Protocol::protocol_number))]
    pub fn read_one(text: &[u8]) -> Option<Protocol>
        ensures { result ≡ one_protocol_of text.now }
    {
        if let Some(number) = number_in(text, entries()) {
            return Some(Protocol(number));
        }
        let number = read_number_to(text, 255)?;
        Some(Protocol(number as u8))
    }

    /// The protocol's number.
    pub fn number(self) -> u8
        ensures value { result ≡ self }
        ensures byte { self < 256 }
    {
        let Protocol(number) = self;
        number
    }

    /// Whether it stands for all protocols in a rule, which is no condition.
    pub fn is_all(self) -> bool
        ensures { IsTrue result ↔ (self ≡ 0) }
    {
        self.0 == 0
    }

    /// Writes the first name of the protocol, else its number. That text reads back as this protocol, and needs no
    /// quotes. It takes no memory.
    #[tactic(auto, using(crate::proofs::laws::values::ProtocolLaws::reads_back, crate::proofs::laws::values::BareLaws::protocol_is_bare,), unfolding(crate::specs::values::Protocol::protocol_text, crate::specs::values::Protocol::protocol_name,),)]
    pub fn put<W: Write>(self, output: &mut Tap<W>) -> Result<(), WriteFailed>
        ensures puts { Puts W.contents output.old output.new result (protocol_text self) }
        ensures word { IsBareWord (protocol_text self) }
        ensures reads_back { protocol_of (protocol_text self) ≡ Some self }
    {
        if let Some(name) = name_in(self.0, entries()) {
            return output.put(name);
        }
        let mut number = Buffer::new();
        output.put(number.format(self.0).as_bytes())
    }

    /// The protocol's number alone. It answers `AllocError` only where memory was refused.
    pub fn allowed(&self, alloc: Global) -> Result<Spans, AllocError>
        ensures top { IfOk result (λ set. set.top ≡ protocol_top) }
        ensures members { IfOk result (λ set. (x : ℕ) → x ≤ protocol_top → has set.intervals x ≡ (x == self.now)) }
    {
        let number = u128::from(self.number());
        Spans::one(alloc, PROTOCOL_TOP, number, number)
    }
}
