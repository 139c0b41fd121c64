//! ICMP types and codes.
ghost use Rattle.std.specs.Prelude.{◌≡◌, ℕ, ◌<◌, ◌≤◌, ◌&&◌, nat_le, Some, IfSome, false, IfOk};
ghost use Rattle.fields.specs.numbers.Field.{icmp_top};
ghost use Rattle.fields.specs.numbers.Spans.{has};
ghost use Rattle.fields.specs.values.Icmp.{packet_icmp_of};
ghost use Rattle.fields.specs.text.Tap.{has_failed, Puts};

use crate::numbers::field::ICMP_TOP;
use crate::numbers::spans::Spans;
use crate::text::cut::cut_at;
use crate::text::number::read_number_to;
use crate::text::tap::{Tap, WriteFailed};
use itoa::Buffer;
use std::alloc::{AllocError, Global};
use std::io::Write;
use std::marker::Model;

// What `--icmp-type` asks for.
#[derive(Clone, Copy, Debug, PartialEq, Eq)]
enum Asked {
    // any type
    Any,
    // a type, with any code
    OfType(u8),
    // a type and a code
    OfCode(u8, u8),
}

// What the names stand for.
static NAMES: [(&[u8], Asked); 18] = [
    (b"any", Asked::Any),
    (b"echo-reply", Asked::OfType(0)),
    (b"pong", Asked::OfType(0)),
    (b"destination-unreachable", Asked::OfType(3)),
    (b"network-unreachable", Asked::OfCode(3, 0)),
    (b"host-unreachable", Asked::OfCode(3, 1)),
    (b"protocol-unreachable", Asked::OfCode(3, 2)),
    (b"port-unreachable", Asked::OfCode(3, 3)),
    (b"fragmentation-needed", Asked::OfCode(3, 4)),
    (b"source-quench", Asked::OfType(4)),
    (b"redirect", Asked::OfType(5)),
    (b"echo-request", Asked::OfType(8)),
    (b"ping", Asked::OfType(8)),
    (b"time-exceeded", Asked::OfType(11)),
    (b"ttl-exceeded", Asked::OfType(11)),
    (b"parameter-problem", Asked::OfType(12)),
    (b"timestamp-request", Asked::OfType(13)),
    (b"timestamp-reply", Asked::OfType(14)),
];

impl Asked {
    ghost use Rattle.fields.specs.values.Icmp.{icmp_names, asked_by_name, asked_type, asked_by_numbers, icmp_of, IsAsked};
    ghost use Rattle.fields.specs.steps.Tables.{icmp_rows};

    // The rows of the table of names.
    fn rows() -> &'static [(&'static [u8], Asked)]
        ensures { icmp_rows result.now ≡ icmp_names }
    {
        &NAMES
    }

    // What the first of some names that is the text stands for.
    fn by_name(text: &[u8], rows: &[(&[u8], Asked)]) -> Option<Asked>
        ensures { result ≡ asked_by_name text.now (icmp_rows rows.now) }
    {
        for (name, asked) in rows {
            if *name == text {
                return Some(*asked);
            }
        }
        None
    }

    fn of_type(number: u8) -> Asked
        ensures { result ≡ asked_type number }
    {
        if number == 255 {
            Asked::Any
        } else {
            Asked::OfType(number)
        }
    }

    // `t` or `t/c`.
    #[tactic(auto, unfolding(crate::specs::values::Icmp::asked_by_numbers))]
    fn by_numbers(text: &[u8]) -> Option<Asked>
        ensures { result ≡ asked_by_numbers text.now }
    {
        match cut_at(text, b'/') {
            None => Some(Asked::of_type(read_number_to(text, 255)? as u8)),
            Some((of_type, code)) => {
                let of_type = read_number_to(of_type, 254)?;
                let code = read_number_to(code, 255)?;
                Some(Asked::OfCode(of_type as u8, code as u8))
            }
        }
    }

    #[tactic(auto, unfolding(crate::specs::values::Icmp::icmp_of))]
    fn read(text: &[u8]) -> Option<Asked>
        ensures { result ≡ icmp_of text.now }
    {
        match Asked::by_numbers(text) {
            Some(asked) => Some(asked),
            None => Asked::by_name(text, Asked::rows()),
        }
    }
}

/// What `--icmp-type` of iptables-extensions(8) tests for: any type, a type from 0 to 254, or such a type and a code
/// from 0 to 255.
#[derive(Clone, Copy, Debug, PartialEq, Eq)]
pub struct IcmpType {
    asked: Asked,
}

impl Model for IcmpType {
    ghost use Rattle.fields.specs.declared.values.icmp.Asked.{Asked};
    ghost use Rattle.fields.specs.values.Icmp.{IsAsked};

    ghost Value = { Asked };

    ghost view = { λ icmp. icmp.asked };

    ghost invariant = { λ icmp. IsAsked icmp.asked };

    ghost inverse = { λ asked. record { asked = asked } };
}

impl IcmpType {
    ghost use Rattle.fields.specs.values.Icmp.{icmp_of, IsAsked, icmp_text, icmp_passes};

    /// The value that a text writes: `t` or `t/c`, `any` or 255 for any type, or one of the names. `255/c` is
    /// refused.
    #[tactic(auto, using(crate::proofs::laws::values::IcmpLaws::is_asked))]
    pub fn read(text: &[u8]) -> Option<IcmpType>
        ensures value { result ≡ icmp_of text.now }
        ensures valid { IfSome result IsAsked }
    {
        let asked = Asked::read(text)?;
        Some(IcmpType { asked })
    }

    /// Any type, as the match has it where its option isn't given.
    pub fn any() -> IcmpType
        ensures { result ≡ Asked.Any }
    {
        IcmpType { asked: Asked::Any }
    }

    /// Whether it holds of a packet with this number on the field `icmp`, the type times 256, plus the code.
    pub fn holds(self, value: u16) -> bool
        ensures { result ≡ icmp_passes self value }
    {
        match self.asked {
            Asked::Any => true,
            Asked::OfType(of_type) => value / 256 == u16::from(of_type),
            Asked::OfCode(of_type, code) => {
                value / 256 == u16::from(of_type) && value % 256 == u16::from(code)
            }
        }
    }

    /// The first and the last number on the field `icmp` of which it holds. It holds of those between them too, and of
    /// no other.
    pub(crate) fn interval(self) -> (u16, u16)
        ensures exact { (value : ℕ) → value < 65536
            → icmp_passes self value ≡ (nat_le result.0 value && nat_le value result.1) }
        ensures ordered { result.0 ≤ result.1 }
    {
        match self.asked {
            Asked::Any => (0, u16::MAX),
            Asked::OfType(of_type) => {
                let first = u16::from(of_type) * 256;
                (first, first + 255)
            }
            Asked::OfCode(of_type, code) => {
                let value = u16::from(of_type) * 256 + u16::from(code);
                (value, value)
            }
        }
    }

    /// Writes `t`, `t/c` or `any`. That text reads back as this value. It takes no memory.
    #[tactic(auto, using(crate::proofs::laws::values::IcmpLaws::reads_back))]
    pub fn put<W: Write>(self, output: &mut Tap<W>) -> Result<(), WriteFailed>
        ensures text { Puts W.contents output.old output.new result (icmp_text self) }
        ensures reads_back { icmp_of (icmp_text self) ≡ Some self }
    {
        let mut first = Buffer::new();
        let mut second = Buffer::new();
        match self.asked {
            Asked::Any => output.put(b"any"),
            Asked::OfType(of_type) => output.put(first.format(of_type).as_bytes()),
            Asked::OfCode(of_type, code) => output.put_all(&[
                first.format(of_type).as_bytes(),
                b"/",
                second.format(code).as_bytes(),
            ]),
        }
    }

    /// The numbers of types and codes, type times 256 plus code, of which it holds: one interval. It answers
    /// `AllocError` only where memory was refused.
    pub fn allowed(&self, alloc: Global) -> Result<Spans, AllocError>
        ensures top { IfOk result (λ set. set.top ≡ icmp_top) }
        ensures members { IfOk result (λ set. (x : ℕ) → x ≤ icmp_top → has set.intervals x ≡ icmp_passes self.now x) }
    {
        let (first, last) = self.interval();
        Spans::one(alloc, ICMP_TOP, first.into(), last.into())
    }
}

/// The number on the field `icmp` that a packet line's `type/code` writes, each from 0 to 255: the type times 256, plus
/// the code.
#[tactic(auto, unfolding(crate::specs::values::Icmp::packet_icmp_of))]
pub(crate) fn read_packet_icmp(text: &[u8]) -> Option<u16>
    ensures { result ≡ packet_icmp_of text.now }
{
    let (of_type, code) = cut_at(text, b'/')?;
    let of_type = read_number_to(of_type, 255)?;
    let code = read_number_to(code, 255)?;
    Some((of_type * 256 + code) as u16)
}
