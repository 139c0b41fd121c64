//! The condition on TCP flags.
ghost use Rattle.std.specs.Prelude.{◌≡◌, Some, IfSome, false, codes, ◌≤◌, ℕ, IfOk};
ghost use Rattle.fields.specs.numbers.Field.{flags_top};
ghost use Rattle.fields.specs.numbers.Spans.{has};
ghost use Rattle.fields.specs.text.Tap.{has_failed, Puts};
ghost use Rattle.fields.specs.values.TcpFlags.{tcp_flags_text};

use crate::numbers::field::FLAGS_TOP;
use crate::numbers::spans::Spans;
use crate::text::tap::{Tap, WriteFailed};
use crate::values::tcp_flags::TcpFlags;
use std::alloc::{AllocError, Global};
use std::io::Write;

/// The condition `--tcp-flags mask comp` of iptables-extensions(8): of the flags in the mask, a packet has exactly
/// those of `comp`. It holds of no packet where `comp` has a flag that the mask lacks.
#[derive(Clone, Copy, Debug, PartialEq, Eq)]
pub struct FlagTest {
    /// The flags that are looked at.
    pub mask: TcpFlags,
    /// Those of them that a packet has to have.
    pub comp: TcpFlags,
}

impl FlagTest {
    ghost use Rattle.fields.specs.declared.values.flag_test.FlagTest.{FlagTest};
    ghost use Rattle.fields.specs.values.TcpFlags.{IsFlagTest, flags_pass, flag_test_of, asks_nothing, flag_test_text};

    /// The condition that two flag lists write, the mask first. The two words that `put` writes of a condition read
    /// back as it.
    #[tactic(auto, using(crate::proofs::laws::values::TcpFlagsLaws::test_reads_back))]
    pub fn read(mask: &[u8], comp: &[u8]) -> Option<FlagTest>
        ensures value { result ≡ flag_test_of mask.now comp.now }
        ensures known { IfSome result IsFlagTest }
        ensures reads_back { (test : FlagTest) → IsFlagTest test
            → mask.now ≡ tcp_flags_text test.mask → comp.now ≡ tcp_flags_text test.comp → result ≡ Some test }
    {
        let mask = TcpFlags::read(mask)?;
        let comp = TcpFlags::read(comp)?;
        Some(FlagTest { mask, comp })
    }

    /// The condition of `--syn`, which is `--tcp-flags SYN,RST,ACK,FIN SYN`.
    pub fn syn() -> FlagTest
        ensures { flag_test_of (codes "SYN,RST,ACK,FIN") (codes "SYN") ≡ Some result }
    {
        FlagTest {
            mask: TcpFlags::SYN_MASK,
            comp: TcpFlags::SYN,
        }
    }

    /// Whether it holds of a packet with this number on the field `flags`.
    pub fn holds(self, value: u8) -> bool
        ensures { result ≡ flags_pass self value }
    {
        value & self.mask.value() == self.comp.value()
    }

    /// Whether both sets are empty, so that it holds of every packet.
    pub fn asks_nothing(self) -> bool
        ensures { result ≡ asks_nothing self }
    {
        self.mask.value() == 0 && self.comp.value() == 0
    }

    /// Writes the mask, a blank and the other set. It takes no memory.
    pub fn put<W: Write>(self, output: &mut Tap<W>) -> Result<(), WriteFailed>
        ensures { Puts W.contents output.old output.new result (flag_test_text self) }
    {
        self.mask.put(output)?;
        output.put(b" ")?;
        self.comp.put(output)
    }

    /// The sums of flags of which the condition holds, each sum with the numbers of FIN 1, SYN 2, RST 4, PSH 8, ACK 16
    /// and URG 32. It answers `AllocError` only where memory was refused.
    pub fn allowed(&self, alloc: Global) -> Result<Spans, AllocError>
        ensures top { IfOk result (λ set. set.top ≡ flags_top) }
        ensures members { IfOk result (λ set. (x : ℕ) → x ≤ flags_top → has set.intervals x ≡ flags_pass self.now x) }
    {
        Spans::of_test(alloc, FLAGS_TOP, |flags| self.holds(flags))
    }
}
