//! Ranges of ports.
ghost use Rattle.std.specs.Prelude.{◌≡◌, ◌≤◌, ◌↔◌, ℕ, drop, IsTrue, Option, Some, None, IfSome, false, IfOk};
ghost use Rattle.fields.specs.numbers.Field.{port_top};
ghost use Rattle.fields.specs.numbers.Spans.{has};
ghost use Rattle.fields.specs.values.PortRange.{port_or};

use crate::numbers::field::PORT_TOP;
use crate::numbers::spans::Spans;
use crate::text::cut::cut_at;
use crate::text::number::read_number_to;
use crate::text::tap::{Tap, WriteFailed};
use itoa::write_digits;
use std::alloc::{AllocError, Global};
use std::io::Write;
use std::marker::Model;

// Room for the text of a range: two ports and a colon.
const ROOM: usize = 11;

/// The ports from one to another, both included.
#[derive(Clone, Copy, Debug, PartialEq, Eq)]
pub struct PortRange {
    from: u16,
    to: u16,
}

impl Model for PortRange {
    ghost use Rattle.std.specs.Prelude.{◌≤◌};
    ghost use Rattle.fields.specs.values.PortRange.{Ports, ArePorts};

    ghost Value = { Ports };

    ghost view = { λ range. record { from = range.from; to = range.to } };

    ghost invariant = { λ range. (range.from ≤ range.to) × (range.to ≤ 65535) };

    ghost inverse = { λ ports. record { from = ports.from; to = ports.to } };
}

impl PortRange {
    ghost use Rattle.fields.specs.values.PortRange.{ArePorts, ports_between, port_range_of, ports_text, has_port, all_ports};
    ghost use Rattle.fields.specs.text.Printed.{IsBareWord};
    ghost use Rattle.fields.specs.text.Tap.{has_failed, Puts};

    /// The ports that a text writes: `a`, or `a:b` with a not above b, where a missing a is 0 and a
    /// missing b is 65535 (iptables-extensions(8), `--sport`).
    #[tactic(auto, unfolding(crate::specs::values::PortRange::port_range_of))]
    pub fn read(text: &[u8]) -> Option<PortRange>
        ensures { result ≡ port_range_of text.now }
    {
        let Some((from, to)) = cut_at(text, b':') else {
            let port = read_number_to(text, 65535)?;
            return PortRange::between(port, port);
        };
        let from = port_or(0, from)?;
        let to = port_or(65535, to)?;
        PortRange::between(from, to)
    }

    pub(crate) fn between(from: u32, to: u32) -> Option<PortRange>
        requires { to ≤ 65535 }
        ensures { result ≡ ports_between from to }
    {
        if from <= to {
            Some(PortRange {
                from: from as u16,
                to: to as u16,
            })
        } else {
            None
        }
    }

    /// The first port.
    pub fn first(self) -> u16
        ensures value { result ≡ self.from }
        ensures ports { ArePorts self }
    {
        self.from
    }

    /// The last port.
    pub fn last(self) -> u16
        ensures value { result ≡ self.to }
        ensures ports { ArePorts self }
    {
        self.to
    }

    /// Whether the port is one of them.
    pub fn holds(self, port: u16) -> bool
        ensures { result ≡ has_port self port }
    {
        port >= self.from && port <= self.to
    }

    /// Whether these are all ports, which is no condition.
    pub fn is_all(self) -> bool
        ensures { IsTrue result ↔ (self ≡ all_ports) }
    {
        (self.from, self.to) == (0, 65535)
    }

    /// Writes one port as its number, more as `a:b`. That text reads back as this range, and needs no quotes. It
    /// takes no memory.
    #[tactic(auto, using(crate::proofs::laws::values::PortRangeLaws::reads_back, crate::proofs::laws::values::BareLaws::range_is_bare))]
    pub fn put<W: Write>(self, output: &mut Tap<W>) -> Result<(), WriteFailed>
        ensures puts { Puts W.contents output.old output.new result (ports_text self) }
        ensures word { IsBareWord (ports_text self) }
        ensures reads_back { port_range_of (ports_text self) ≡ Some self }
    {
        let mut text = [0; ROOM];
        let start = self.write(&mut text);
        output.put(&text[start..])
    }

    // Writes the same at the end of `text`. It answers where it starts.
    fn write(self, text: &mut [u8; ROOM]) -> usize
        ensures written { drop result text.new ≡ ports_text self }
        ensures inside { result ≤ 11 }
    {
        let last = write_digits(u64::from(self.to), text, ROOM);
        if self.from == self.to {
            return last;
        }
        text[last - 1] = b':';
        write_digits(u64::from(self.from), text, last - 1)
    }

    /// The ports of the range: one interval. It answers `AllocError` only where memory was refused.
    pub fn allowed(&self, alloc: Global) -> Result<Spans, AllocError>
        ensures top { IfOk result (λ set. set.top ≡ port_top) }
        ensures members { IfOk result (λ set. (x : ℕ) → x ≤ port_top → has set.intervals x ≡ has_port self.now x) }
    {
        let (first, last) = (self.first().into(), self.last().into());
        Spans::one(alloc, PORT_TOP, first, last)
    }
}

/// All ports.
impl Default for PortRange {
    ghost use Rattle.std.specs.Prelude.{◌≡◌};
    ghost use Rattle.fields.specs.values.PortRange.{all_ports};

    ghost is_default = { λ range. range ≡ all_ports };

    fn default() -> PortRange {
        PortRange { from: 0, to: 65535 }
    }
}

// The port that a text writes, or this one where it is empty.
fn port_or(missing: u32, text: &[u8]) -> Option<u32>
    requires { missing ≤ 65535 }
    ensures value { result ≡ port_or missing text.now }
    ensures small { IfSome result (λ port. port ≤ 65535) }
{
    if text.is_empty() {
        return Some(missing);
    }
    read_number_to(text, 65535)
}
