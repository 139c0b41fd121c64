//! Times to live.
ghost use Rattle.std.specs.Prelude.{◌≡◌, ◌≤◌, ◌==◌, ℕ, nat_lt, Some, IfOk};
ghost use Rattle.fields.specs.numbers.Field.{ttl_top};
ghost use Rattle.fields.specs.numbers.Spans.{has};
ghost use Rattle.fields.specs.values.Ttl.{ttl_of, ttl_text};
ghost use Rattle.fields.specs.text.Printed.{IsBareWord};
ghost use Rattle.fields.specs.text.Tap.{Puts};

use crate::numbers::field::TTL_TOP;
use crate::numbers::spans::Spans;
use crate::text::number::read_number_to;
use crate::text::tap::{Tap, WriteFailed};
use itoa::Buffer;
use std::alloc::{AllocError, Global};
use std::io::Write;
use std::marker::Model;

/// A time to live: how many more times a packet may be forwarded, 0 to 255.
#[derive(Clone, Copy, Debug, PartialEq, Eq)]
pub struct Ttl(u8);

impl Model for Ttl {
    ghost use Rattle.std.specs.Prelude.{ℕ, ◌<◌};

    ghost Value = { ℕ };

    ghost view = { λ ttl. ttl.0 };

    ghost invariant = { λ ttl. ttl.0 < 256 };

    ghost inverse = { λ number. record { 0 = number } };
}

impl Ttl {
    /// The time to live that a text writes: a number 0 to 255 (iptables-extensions(8), `--ttl-eq`).
    #[tactic(auto, unfolding(crate::specs::values::Ttl::ttl_of))]
    pub fn read(text: &[u8]) -> Option<Ttl>
        ensures { result ≡ ttl_of text.now }
    {
        let number = read_number_to(text, TTL_TOP.into())?;
        Some(Ttl(number as u8))
    }

    /// The number.
    pub fn number(self) -> u8
        ensures { result ≡ self }
    {
        self.0
    }

    /// Writes the number. That text reads back as this time to live, and needs no quotes. It takes no memory.
    #[tactic(auto, using(crate::proofs::laws::values::TtlLaws::reads_back, crate::proofs::laws::values::BareLaws::ttl_is_bare))]
    pub fn put<W: Write>(self, output: &mut Tap<W>) -> Result<(), WriteFailed>
        ensures puts { Puts W.contents output.old output.new result (ttl_text self) }
        ensures word { IsBareWord (ttl_text self) }
        ensures reads_back { ttl_of (ttl_text self) ≡ Some self }
    {
        let mut number = Buffer::new();
        output.put(number.format(self.0).as_bytes())
    }

    /// The set of this time to live alone. It answers `AllocError` only where memory was refused.
    pub fn same(self, alloc: Global) -> Result<Spans, AllocError>
        ensures top { IfOk result (λ set. set.top ≡ ttl_top) }
        ensures members { IfOk result (λ set. (x : ℕ) → x ≤ ttl_top → has set.intervals x ≡ (x == self)) }
    {
        let number = u128::from(self.0);
        Spans::one(alloc, TTL_TOP.into(), number, number)
    }

    /// The set of the greater ones, up to 255. It answers `AllocError` only where memory was refused.
    pub fn greater(self, alloc: Global) -> Result<Spans, AllocError>
        ensures top { IfOk result (λ set. set.top ≡ ttl_top) }
        ensures members { IfOk result (λ set. (x : ℕ) → x ≤ ttl_top → has set.intervals x ≡ nat_lt self x) }
    {
        if self.0 == TTL_TOP {
            return Ok(Spans::none(alloc, TTL_TOP.into()));
        }
        Spans::one(
            alloc,
            TTL_TOP.into(),
            u128::from(self.0) + 1,
            TTL_TOP.into(),
        )
    }

    /// The set of the smaller ones, down to 0. It answers `AllocError` only where memory was refused.
    pub fn smaller(self, alloc: Global) -> Result<Spans, AllocError>
        ensures top { IfOk result (λ set. set.top ≡ ttl_top) }
        ensures members { IfOk result (λ set. (x : ℕ) → x ≤ ttl_top → has set.intervals x ≡ nat_lt x self) }
    {
        if self.0 == 0 {
            return Ok(Spans::none(alloc, TTL_TOP.into()));
        }
        Spans::one(alloc, TTL_TOP.into(), 0, u128::from(self.0) - 1)
    }
}
