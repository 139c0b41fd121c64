//! Ranges of IPv4 addresses.
ghost use Rattle.std.specs.Prelude.{◌≡◌, Some, IfSome, false, ◌≤◌, ℕ, IfOk};
ghost use Rattle.fields.specs.numbers.Field.{address_top};
ghost use Rattle.fields.specs.numbers.Spans.{has};
ghost use Rattle.fields.specs.values.IpRange.{AreEnds, ip_range_of, ip_range_text, range_has};
ghost use Rattle.fields.specs.text.Tap.{has_failed, Puts};

use crate::numbers::field::ADDRESS_TOP;
use crate::numbers::spans::Spans;
use crate::text::cut::cut_at;
use crate::text::tap::{Tap, WriteFailed};
use crate::values::prefix::{read_address, write_address};
use std::alloc::{AllocError, Global};
use std::io::Write;
use std::marker::Model;

// Room for the text of a range: two addresses and a dash.
const ROOM: usize = 31;

/// The addresses from one to another, both among them: the range of `--src-range` and `--dst-range` in
/// iptables-extensions(8). Where the first is above the second it has no address.
#[derive(Clone, Copy, Debug, PartialEq, Eq)]
pub struct IpRange {
    from: u32,
    to: u32,
}

impl Model for IpRange {
    ghost use Rattle.fields.specs.values.IpRange.{Ends, AreEnds};

    ghost Value = { Ends };

    ghost view = { λ range. record { from = range.from; to = range.to } };

    ghost invariant = { λ range. AreEnds (record { from = range.from; to = range.to }) };

    ghost inverse = { λ ends. record { from = ends.from; to = ends.to } };
}

impl IpRange {
    /// The range that a text writes: `from-to`, or `from`, which is `from-from`.
    #[tactic(auto, unfolding(crate::specs::values::IpRange::ip_range_of))]
    pub fn read(text: &[u8]) -> Option<IpRange>
        ensures value { result ≡ ip_range_of text.now }
        ensures valid { IfSome result AreEnds }
    {
        match cut_at(text, b'-') {
            None => {
                let from = read_address(text)?;
                Some(IpRange { from, to: from })
            }
            Some((from, to)) => {
                let from = read_address(from)?;
                let to = read_address(to)?;
                Some(IpRange { from, to })
            }
        }
    }

    /// The first address. It may be above the last.
    pub(crate) fn first(self) -> u32
        ensures value { result ≡ self.from }
        ensures valid { AreEnds self }
    {
        self.from
    }

    /// The last address.
    pub(crate) fn last(self) -> u32
        ensures value { result ≡ self.to }
        ensures valid { AreEnds self }
    {
        self.to
    }

    /// Whether an address lies in the range.
    pub fn holds(self, address: u32) -> bool
        ensures { result ≡ range_has self address }
    {
        self.first() <= address && address <= self.last()
    }

    /// Writes `from-to`, both ends always. That text reads back as this range. It takes no memory.
    #[tactic(auto, using(crate::proofs::laws::values::PrefixLaws::reads_back))]
    pub fn put<W: Write>(self, output: &mut Tap<W>) -> Result<(), WriteFailed>
        ensures text { Puts W.contents output.old output.new result (ip_range_text self) }
        ensures reads_back { ip_range_of (ip_range_text self) ≡ Some self }
    {
        let mut text = [0; ROOM];
        let dash = write_address(self.last(), &mut text, ROOM) - 1;
        text[dash] = b'-';
        let start = write_address(self.first(), &mut text, dash);
        output.put(&text[start..])
    }

    /// The addresses of the range: one interval, or none where the first is above the last. It answers `AllocError`
    /// only where memory was refused.
    pub fn allowed(&self, alloc: Global) -> Result<Spans, AllocError>
        ensures top { IfOk result (λ set. set.top ≡ address_top) }
        ensures members { IfOk result (λ set. (x : ℕ) → x ≤ address_top → has set.intervals x ≡ range_has self.now x) }
    {
        let (first, last) = (self.first().into(), self.last().into());
        Spans::one(alloc, ADDRESS_TOP, first, last)
    }
}
