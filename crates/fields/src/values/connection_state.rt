//! States of connections.
ghost use Rattle.std.specs.Prelude.{⊤, ◌≡◌, ◌==◌, ◌≤◌, true, Some, IfSome, IsTrue, false, option_map, ℕ, IfOk};
ghost use Rattle.fields.specs.numbers.Field.{state_top};
ghost use Rattle.fields.specs.numbers.Spans.{has};
ghost use Rattle.std.specs.Int.RustNames.{bit_and};
ghost use Rattle.fields.specs.values.ConnectionState.{states, ctstate_of, state_of, IsStates, states_text, packet_states, packet_state_of, marks_of, states_pass};
ghost use Rattle.fields.specs.values.NameList.{number_named};
ghost use Rattle.fields.specs.steps.Tables.{named_numbers, marks_in, all_marked};
ghost use Rattle.fields.specs.text.Tap.{has_failed, Puts};

use crate::numbers::field::STATE_TOP;
use crate::numbers::spans::Spans;
use crate::text::tap::{Tap, WriteFailed};
use crate::values::name_list::{is_name, put_names, read_names};
use bitflags::{Flag, Flags};
use std::alloc::{AllocError, Global};
use std::io::Write;
use std::marker::Model;

// Any bits, of which those of the states and translations have names.
#[derive(Clone, Copy, Debug, PartialEq, Eq)]
struct StateBits(u8);

// What the names stand for, in the order of a listing.
static NAMES: [Flag<StateBits>; 7] = [
    Flag {
        name: "INVALID",
        value: StateBits(1),
    },
    Flag {
        name: "NEW",
        value: StateBits(2),
    },
    Flag {
        name: "RELATED",
        value: StateBits(4),
    },
    Flag {
        name: "ESTABLISHED",
        value: StateBits(8),
    },
    Flag {
        name: "UNTRACKED",
        value: StateBits(16),
    },
    Flag {
        name: "SNAT",
        value: StateBits(32),
    },
    Flag {
        name: "DNAT",
        value: StateBits(64),
    },
];

impl Flags for StateBits {
    type Bits = u8;

    ghost exact = { ⊤ };

    ghost table = { states };

    ghost set_of = { λ set. set.0 };

    fn flags<'a>() -> &'a [Flag<StateBits>] {
        &NAMES
    }

    fn bits(&self) -> u8 {
        self.0
    }

    fn from_bits_retain(bits: u8) -> StateBits {
        StateBits(bits)
    }
}

// The states of a packet with their translations: as a packet line writes them, on the field `ct`, and as a set.
static PACKET_STATES: [(&[u8], u8, StateBits); 14] = [
    (b"INVALID", 0, StateBits(1)),
    (b"UNTRACKED", 1, StateBits(16)),
    (b"NEW", 2, StateBits(2)),
    (b"NEW,SNAT", 3, StateBits(34)),
    (b"NEW,DNAT", 4, StateBits(66)),
    (b"NEW,SNAT,DNAT", 5, StateBits(98)),
    (b"RELATED", 6, StateBits(4)),
    (b"RELATED,SNAT", 7, StateBits(36)),
    (b"RELATED,DNAT", 8, StateBits(68)),
    (b"RELATED,SNAT,DNAT", 9, StateBits(100)),
    (b"ESTABLISHED", 10, StateBits(8)),
    (b"ESTABLISHED,SNAT", 11, StateBits(40)),
    (b"ESTABLISHED,DNAT", 12, StateBits(72)),
    (b"ESTABLISHED,SNAT,DNAT", 13, StateBits(104)),
];

// The rows of that table.
#[tactic(auto, unfolding(crate::specs::values::NameList::set_listed))]
fn rows() -> &'static [(&'static [u8], u8, StateBits)]
    ensures names { named_numbers result.now ≡ packet_states }
    ensures sets { IsTrue (all_marked result.now) }
{
    &PACKET_STATES
}

// The number of the first row of this name.
fn number_in(text: &[u8], rows: &[(&[u8], u8, StateBits)]) -> Option<u8>
    ensures { result ≡ number_named (named_numbers rows.now) text.now }
{
    for (name, number, _) in rows {
        if is_name(name, text) {
            return Some(*number);
        }
    }
    None
}

// The set of the first row of this number.
fn marks_in(value: u8, rows: &[(&[u8], u8, StateBits)]) -> Option<StateBits>
    ensures { option_map (λ set. set.0) result ≡ marks_in value rows.now }
{
    for (_, number, marks) in rows {
        if *number == value {
            return Some(*marks);
        }
    }
    None
}

/// The number on the field `ct` of the state that a packet line writes: INVALID 0; UNTRACKED 1; NEW 2, RELATED 6 and
/// ESTABLISHED 10, plus 1 where `,SNAT` follows, plus 2 where `,DNAT` follows; in any mix of upper and lower case.
#[tactic(auto, using(crate::proofs::laws::values::ConnectionStateLaws::packet_state_within))]
pub(crate) fn read_packet_state(text: &[u8]) -> Option<u8>
    ensures value { result ≡ packet_state_of text.now }
    ensures within { IfSome result (λ number. number ≤ 13) }
{
    number_in(text, rows())
}

/// A set of one or more of the states INVALID, NEW, RELATED, ESTABLISHED and UNTRACKED and the translations SNAT and
/// DNAT (iptables-extensions(8), conntrack `--ctstate` and state `--state`).
#[derive(Clone, Copy, Debug, PartialEq, Eq)]
pub struct CtSet {
    bits: StateBits,
}

impl Model for CtSet {
    ghost use Rattle.std.specs.Prelude.{ℕ};
    ghost use Rattle.fields.specs.values.ConnectionState.{IsStates};

    ghost Value = { ℕ };

    ghost view = { λ set. set.bits.0 };

    ghost invariant = { λ set. IsStates set.bits.0 };

    ghost inverse = { λ n. record { bits = record { 0 = n } } };
}

impl CtSet {
    // SNAT and DNAT.
    const TRANSLATIONS: StateBits = StateBits(96);

    /// The set that a list of `--ctstate` writes: names separated by commas, of all seven, in any mix of upper and
    /// lower case. A name may be repeated.
    #[tactic(auto, using(crate::proofs::laws::values::ConnectionStateLaws::are_states))]
    pub fn read(text: &[u8]) -> Option<CtSet>
        ensures value { result ≡ ctstate_of text.now }
        ensures valid { IfSome result IsStates }
    {
        let bits = read_names(text)?;
        Some(CtSet { bits })
    }

    /// The set that a list of `--state` writes: as `read`, without SNAT and DNAT.
    pub fn read_state(text: &[u8]) -> Option<CtSet>
        ensures value { result ≡ state_of text.now }
        ensures valid { IfSome result IsStates }
        ensures states { IfSome result (λ set. bit_and set 96 ≡ 0) }
    {
        let set = CtSet::read(text)?;
        if set.bits.intersects(CtSet::TRANSLATIONS) {
            None
        } else {
            Some(set)
        }
    }

    /// Whether it holds of a packet with this number on the field `ct`: its state is listed, or SNAT or DNAT is listed
    /// and the packet has it. It holds of no number above 13.
    #[tactic(auto, using(crate::proofs::laws::values::ConnectionStateLaws::marks_in_rows))]
    pub fn holds(self, number: u8) -> bool
        ensures { result ≡ states_pass self number }
    {
        match marks_in(number, rows()) {
            Some(marks) => self.bits.intersects(marks),
            None => false,
        }
    }

    /// Writes the names of the set in the order INVALID, NEW, RELATED, ESTABLISHED, UNTRACKED, SNAT, DNAT, separated by
    /// commas. That text reads back as this set. It takes no memory.
    #[tactic(auto, using(crate::proofs::laws::values::ConnectionStateLaws::ctstate_reads_back, crate::proofs::laws::values::ConnectionStateLaws::state_reads_back,),)]
    pub fn put<W: Write>(self, output: &mut Tap<W>) -> Result<(), WriteFailed>
        ensures text { Puts W.contents output.old output.new result (states_text self) }
        ensures reads_back { ctstate_of (states_text self) ≡ Some self }
        ensures state_reads_back { bit_and self 96 ≡ 0 → state_of (states_text self) ≡ Some self }
    {
        put_names(self.bits, &NAMES, output)
    }

    /// The numbers of the states of packets of which the set holds. It answers `AllocError` only where memory was
    /// refused.
    pub fn allowed(&self, alloc: Global) -> Result<Spans, AllocError>
        ensures top { IfOk result (λ set. set.top ≡ state_top) }
        ensures members { IfOk result (λ set. (x : ℕ) → x ≤ state_top → has set.intervals x ≡ states_pass self.now x) }
    {
        Spans::of_test(alloc, STATE_TOP, |state| self.holds(state))
    }
}
