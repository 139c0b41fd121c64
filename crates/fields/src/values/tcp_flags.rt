//! Sets of TCP flags.
ghost use Rattle.std.specs.Prelude.{⊤, ◌≡◌, ◌==◌, ◌<◌, Some, IfSome, false, codes};
ghost use Rattle.std.specs.Int.RustNames.{bit_and};
ghost use Rattle.fields.specs.values.TcpFlags.{flag_names, tcp_flags_of, tcp_flags_text};
ghost use Rattle.fields.specs.text.Tap.{has_failed, Puts};

use crate::text::tap::{Tap, WriteFailed};
use crate::values::name_list::{put_names, read_names};
use bitflags::{Flag, Flags};
use std::io::Write;
use std::marker::Model;

// Any bits, of which those of the flags have names.
#[derive(Clone, Copy, Debug, PartialEq, Eq)]
struct FlagBits(u8);

// How many names stand for one flag.
const SINGLE: usize = 6;

// What the names stand for: first each flag alone, in the order of a listing.
static NAMES: [Flag<FlagBits>; 8] = [
    Flag {
        name: "FIN",
        value: FlagBits(1),
    },
    Flag {
        name: "SYN",
        value: FlagBits(2),
    },
    Flag {
        name: "RST",
        value: FlagBits(4),
    },
    Flag {
        name: "PSH",
        value: FlagBits(8),
    },
    Flag {
        name: "ACK",
        value: FlagBits(16),
    },
    Flag {
        name: "URG",
        value: FlagBits(32),
    },
    Flag {
        name: "ALL",
        value: FlagBits(63),
    },
    Flag {
        name: "NONE",
        value: FlagBits(0),
    },
];

impl Flags for FlagBits {
    type Bits = u8;

    ghost exact = { ⊤ };

    ghost table = { flag_names };

    ghost set_of = { λ set. set.0 };

    fn flags<'a>() -> &'a [Flag<FlagBits>] {
        &NAMES
    }

    fn bits(&self) -> u8 {
        self.0
    }

    fn from_bits_retain(bits: u8) -> FlagBits {
        FlagBits(bits)
    }
}

/// A set of the TCP flags FIN 1, SYN 2, RST 4, PSH 8, ACK 16 and URG 32, as the sum of their numbers
/// (iptables-extensions(8), `--tcp-flags`).
#[derive(Clone, Copy, Debug, PartialEq, Eq)]
pub struct TcpFlags {
    bits: FlagBits,
}

impl Model for TcpFlags {
    ghost use Rattle.std.specs.Prelude.{ℕ, ◌<◌};

    ghost Value = { ℕ };

    ghost view = { λ set. set.bits.0 };

    ghost invariant = { λ set. set.bits.0 < 64 };

    ghost inverse = { λ n. record { bits = record { 0 = n } } };
}

impl TcpFlags {
    // SYN alone.
    pub(crate) const SYN: TcpFlags = TcpFlags { bits: FlagBits(2) };

    // SYN, RST, ACK and FIN.
    pub(crate) const SYN_MASK: TcpFlags = TcpFlags { bits: FlagBits(23) };

    /// The set that a flag list writes: names separated by commas, of SYN, ACK, FIN, RST, URG, PSH, ALL and NONE, in
    /// any mix of upper and lower case. ALL is all six flags, NONE adds nothing, and a name may be repeated.
    #[tactic(auto, using(crate::proofs::laws::values::TcpFlagsLaws::known))]
    pub fn read(text: &[u8]) -> Option<TcpFlags>
        ensures value { result ≡ tcp_flags_of text.now }
        ensures known { IfSome result (λ set. set < 64) }
    {
        let bits = read_names(text)?;
        Some(TcpFlags { bits })
    }

    /// The sum of the flags' numbers, 0 to 63: a packet's number on the field `flags`.
    pub fn value(self) -> u8
        ensures sum { result ≡ self }
        ensures known { self < 64 }
    {
        self.bits.0
    }

    /// Writes the names of the set's flags in the order FIN, SYN, RST, PSH, ACK, URG, separated by commas, or `NONE`.
    /// That text reads back as this set. It takes no memory.
    #[tactic(auto, using(crate::proofs::laws::values::TcpFlagsLaws::reads_back), unfolding(crate::specs::values::TcpFlags::tcp_flags_text))]
    pub fn put<W: Write>(self, output: &mut Tap<W>) -> Result<(), WriteFailed>
        ensures text { Puts W.contents output.old output.new result (tcp_flags_text self) }
        ensures reads_back { tcp_flags_of (tcp_flags_text self) ≡ Some self }
    {
        if self.bits.is_empty() {
            output.put(b"NONE")
        } else {
            put_names(self.bits, &NAMES[..SINGLE], output)
        }
    }
}
