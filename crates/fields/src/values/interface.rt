//! Interface patterns.
ghost use Rattle.std.specs.Prelude.{◌≡◌, ℕ, ◌<◌, ◌≤◌, ◌^◌, ◌↔◌, ◌&&◌, nat_le, List, length, slice_index, codes, IsTrue, Option, Some, None, IfOk};
ghost use Rattle.fields.specs.numbers.Field.{interface_top};
ghost use Rattle.fields.specs.numbers.Spans.{has};
ghost use Rattle.std.specs.List.{list_all};
ghost use Rattle.fields.specs.values.Interface.{is_interface_byte, is_interface, interface_of, filled, bytes_value, interface_value, interface_holds, interface_interval, interface_matches, IsInterfaceName, is_open};
ghost use Rattle.fields.specs.text.Printed.{IsBareWord};
ghost use Rattle.fields.specs.text.Tap.{Puts};

use crate::numbers::field::INTERFACE_TOP;
use crate::numbers::spans::Spans;
use crate::text::tap::{Tap, WriteFailed};
use crate::values::copied::copied;
use arrayvec::ArrayVec;
use std::alloc::{AllocError, Global};
use std::io::Write;
use std::marker::Model;

/// The name of an interface in a rule, or the beginning of names.
///
/// A last `+` stands for every ending, also the empty one (iptables(8), `-i` and `-o`).
#[derive(Debug, PartialEq, Eq, Drop)]
pub struct IfPattern {
    bytes: ArrayVec<u8, 15>,
}

impl Model for IfPattern {
    ghost use Rattle.std.specs.Prelude.{◌≡◌, ℕ, List, Some};
    ghost use Rattle.fields.specs.values.Interface.{interface_of};

    ghost Value = { List ℕ };

    ghost view = { λ pattern. pattern.bytes.items };

    ghost invariant = { λ pattern. interface_of pattern.bytes.items ≡ Some pattern.bytes.items };

    ghost inverse = { λ bytes. record { bytes = record { items = bytes } } };
}

fn is_interface_byte(byte: u8) -> bool
    ensures { result ≡ is_interface_byte byte }
{
    byte >= 33 && byte <= 126 && byte != b'/' && byte != b'"'
}

fn all_interface_bytes(text: &[u8]) -> bool
    ensures { result ≡ list_all is_interface_byte text.now }
{
    text.iter().all(|byte| is_interface_byte(*byte))
}

fn is_interface(text: &[u8]) -> bool
    ensures { result ≡ is_interface text.now }
{
    !text.is_empty() && text.len() <= 15 && all_interface_bytes(text)
}

// Whether a pattern ends in `+`.
fn is_open(pattern: &[u8]) -> bool
    ensures { result ≡ is_open pattern.now }
{
    !pattern.is_empty() && pattern[pattern.len() - 1] == b'+'
}

// A byte of these 16: the bytes, and a filling after them.
fn filled_byte(bytes: &[u8], fill: u8, place: usize) -> u8
    requires { place < 16 }
    ensures { result ≡ slice_index (filled fill bytes.now) place }
{
    if place < bytes.len() {
        bytes[place]
    } else {
        fill
    }
}

// The number of those 16 bytes.
fn filled_value(bytes: &[u8], fill: u8) -> u128
    requires { length bytes.now ≤ 16 }
    ensures { result ≡ bytes_value (filled fill bytes.now) }
{
    let mut value = 0u128;
    for place in 0..16 {
        value = value * 256 + u128::from(filled_byte(bytes, fill, place));
    }
    value
}

impl IfPattern {
    /// The pattern that a text writes: 1 to 15 bytes of 33 to 126, without `/` and `"`.
    #[tactic(auto, unfolding(crate::specs::values::Interface::interface_of))]
    pub fn read(text: &[u8]) -> Option<IfPattern>
        ensures { result ≡ interface_of text.now }
    {
        if !is_interface(text) {
            return None;
        }
        let bytes = ArrayVec::try_from(text).ok()?;
        Some(IfPattern { bytes })
    }

    /// The pattern as it was read.
    pub fn bytes(&self) -> &[u8]
        ensures value { result.now ≡ self.now }
        ensures reads_back { interface_of self.now ≡ Some self.now }
    {
        self.bytes.as_slice()
    }

    /// The number of the interface of this name, as a packet has it: the bytes of the name followed
    /// by zero bytes up to 16, the first of them highest. A last `+` is here a byte like any other.
    #[tactic(auto, unfolding(crate::specs::values::Interface::interface_value))]
    pub fn value(&self) -> u128
        ensures { result ≡ interface_value self.now }
    {
        filled_value(self.bytes.as_slice(), 0)
    }

    /// The first and the last number of an interface of which the pattern holds. It holds of all
    /// between them, and of no other.
    #[tactic(auto, using(crate::proofs::laws::values::InterfaceLaws::names_hold), unfolding(crate::specs::values::Interface::interface_interval))]
    pub(crate) fn interval(&self) -> (u128, u128)
        ensures value { result ≡ interface_interval self.now }
        ensures exact { (value : ℕ) → value < 2 ^ 128
            → interface_holds self.now value ≡ (nat_le result.0 value && nat_le value result.1) }
        ensures ordered { result.0 ≤ result.1 }

        // Of the names of interfaces it holds exactly of those that the pattern stands for.
        ensures names { (name : List ℕ) → IsInterfaceName name
            → interface_holds self.now (interface_value name) ≡ interface_matches self.now name }
    {
        let pattern = self.bytes.as_slice();
        if is_open(pattern) {
            let stem = &pattern[..pattern.len() - 1];
            (filled_value(stem, 0), filled_value(stem, 255))
        } else {
            let value = filled_value(pattern, 0);
            (value, value)
        }
    }

    /// Whether the pattern holds of an interface's number.
    pub fn holds(&self, value: u128) -> bool
        ensures { result ≡ interface_holds self.now value }
    {
        let (first, last) = self.interval();
        first <= value && value <= last
    }

    /// Whether the pattern is `+`, which holds of every interface, also of a missing one.
    pub fn is_any(&self) -> bool
        ensures any { IsTrue result ↔ (self.now ≡ codes "+") }
        ensures all { IsTrue result → (value : ℕ) → IsTrue (interface_holds self.now value) }
    {
        self.bytes() == b"+".as_slice()
    }

    /// The same pattern again. It takes no memory.
    pub fn copy(&self) -> IfPattern
        ensures { result ≡ self.now }
    {
        IfPattern {
            bytes: copied(&self.bytes),
        }
    }

    /// Writes the pattern as it was read. It needs no quotes. It takes no memory.
    pub fn put<W: Write>(&self, output: &mut Tap<W>) -> Result<(), WriteFailed>
        ensures puts { Puts W.contents output.old output.new result self.now }
        ensures word { IsBareWord self.now }
    {
        output.put(self.bytes.as_slice())
    }

    /// The numbers of the interfaces of which the pattern holds: one interval. It answers `AllocError` only where
    /// memory was refused.
    pub fn allowed(&self, alloc: Global) -> Result<Spans, AllocError>
        ensures top { IfOk result (λ set. set.top ≡ interface_top) }
        ensures members { IfOk result (λ set. (x : ℕ) → x ≤ interface_top → has set.intervals x ≡ interface_holds self.now x) }
    {
        let (first, last) = self.interval();
        Spans::one(alloc, INTERFACE_TOP, first, last)
    }
}
