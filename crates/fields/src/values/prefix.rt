//! IPv4 addresses with a prefix length.
ghost use Rattle.std.specs.Prelude.{◌≡◌, ℕ, ◌<◌, ◌≤◌, ◌+◌, ◌^◌, ◌∷◌, ◌++◌, [], drop, length, decimal, Option, Some, None, IfSome, option_map, IfOk, ◌-◌, true, false};
ghost use Rattle.fields.specs.numbers.Field.{address_top};
ghost use Rattle.fields.specs.numbers.Spans.{has};
ghost use Rattle.std.specs.Char.{is_ascii_digit};
ghost use Rattle.fields.specs.steps.ValueParts.{address_by_octets, octet_at_front};
ghost use Rattle.fields.specs.text.Tap.{has_failed, Puts};
ghost use Rattle.fields.specs.values.Prefix.{Network, IsNetwork, IsAddressText, IsPrefixText, block_size, netmask, mask_length, network, address_of, length_of, prefix_of, address_text, prefix_text, octets, holds};

use crate::numbers::field::ADDRESS_TOP;
use crate::numbers::spans::Spans;
use crate::text::cut::cut_at;
use crate::text::number::read_number_to;
use crate::text::tap::{Tap, WriteFailed};
use itoa::write_digits;
use std::alloc::{AllocError, Global};
use std::io::Write;
use std::marker::Model;

// Room for the text of a prefix: an address, a slash, and a number up to 255.
const ROOM: usize = 19;

/// An IPv4 address and the number of its leading bits that count, 0 to 32: the `address[/mask]` of
/// `--source` and `--destination` in iptables(8). The bits past the length are 0.
#[derive(Clone, Copy, Debug, PartialEq, Eq)]
pub struct Prefix {
    address: u32,
    length: u8,
}

impl Model for Prefix {
    ghost use Rattle.fields.specs.values.Prefix.{Network, IsNetwork};

    ghost Value = { Network };

    ghost view = { λ p. record { address = p.address; length = p.length } };

    ghost invariant = { λ p. IsNetwork (record { address = p.address; length = p.length }) };

    ghost inverse = { λ n. record { address = n.address; length = n.length } };
}

// How many addresses have the same leading bits.
pub(crate) fn block_size(length: u8) -> u64
    requires { length ≤ 32 }
    ensures size { result ≡ block_size length }
    ensures some { 1 ≤ result }
    ensures few { result ≤ 2 ^ 32 }
{
    1u64 << (32 - length)
}

fn netmask(length: u8) -> u32
    requires { length ≤ 32 }
    ensures { result ≡ netmask length }
{
    ((1u64 << 32) - block_size(length)) as u32
}

fn mask_length(mask: u32) -> Option<u8>
    ensures length { result ≡ mask_length mask }
    ensures small { IfSome result (λ n. n ≤ 32) }
{
    let length = mask.count_ones() as u8;
    if netmask(length) == mask {
        Some(length)
    } else {
        None
    }
}

// The number of a digit.
fn digit(byte: u8) -> u32
    requires { is_ascii_digit byte ≡ true }
    ensures value { result ≡ byte - 48 }
    ensures small { result ≤ 9 }
{
    u32::from(byte - b'0')
}

// Of a digit alone before a dot, its number and what follows the dot.
fn one_digit_at_front(text: &[u8]) -> Option<(u32, &[u8])>
    ensures value { IfSome result (λ p. octet_at_front text.now ≡ Some (p.0, p.1.now)) }
    ensures small { IfSome result (λ p. p.0 ≤ 255) }
{
    if text.len() < 2 || text[1] != b'.' || !text[0].is_ascii_digit() {
        return None;
    }
    Some((digit(text[0]), &text[2..]))
}

// The same of two digits, of which the first isn't `0`.
fn two_digits_at_front(text: &[u8]) -> Option<(u32, &[u8])>
    ensures value { IfSome result (λ p. octet_at_front text.now ≡ Some (p.0, p.1.now)) }
    ensures small { IfSome result (λ p. p.0 ≤ 255) }
{
    if text.len() < 3 || text[2] != b'.' || text[0] == b'0' {
        return None;
    }
    if !text[0].is_ascii_digit() || !text[1].is_ascii_digit() {
        return None;
    }
    Some((digit(text[0]) * 10 + digit(text[1]), &text[3..]))
}

// The same of three digits up to 255.
fn three_digits_at_front(text: &[u8]) -> Option<(u32, &[u8])>
    ensures value { IfSome result (λ p. octet_at_front text.now ≡ Some (p.0, p.1.now)) }
    ensures small { IfSome result (λ p. p.0 ≤ 255) }
{
    if text.len() < 4 || text[3] != b'.' || text[0] == b'0' {
        return None;
    }
    if !text[0].is_ascii_digit() || !text[1].is_ascii_digit() || !text[2].is_ascii_digit() {
        return None;
    }
    let octet = (digit(text[0]) * 10 + digit(text[1])) * 10 + digit(text[2]);
    if octet > 255 {
        return None;
    }
    Some((octet, &text[4..]))
}

// The number up to 255 before the first dot, and what follows the dot.
#[inline(always)]
#[tactic(auto, unfolding(crate::specs::steps::ValueParts::octet_at_front))]
fn octet_at_front(text: &[u8]) -> Option<(u32, &[u8])>
    ensures value { option_map (λ p. (p.0, p.1.now)) result ≡ octet_at_front text.now }
    ensures small { IfSome result (λ p. p.0 ≤ 255) }
{
    if let Some(found) = three_digits_at_front(text) {
        return Some(found);
    }
    if let Some(found) = two_digits_at_front(text) {
        return Some(found);
    }
    if let Some(found) = one_digit_at_front(text) {
        return Some(found);
    }
    let (octet, rest) = cut_at(text, b'.')?;
    let octet = read_number_to(octet, 255)?;
    Some((octet, rest))
}

// Four numbers up to 255 with dots.
#[tactic(auto, unfolding(crate::specs::steps::ValueParts::address_by_octets))]
fn dotted_value(text: &[u8]) -> Option<u32>
    ensures { result ≡ address_by_octets text.now }
{
    let (a, rest) = octet_at_front(text)?;
    let (b, rest) = octet_at_front(rest)?;
    let (c, d) = octet_at_front(rest)?;
    let d = read_number_to(d, 255)?;
    Some(((a * 256 + b) * 256 + c) * 256 + d)
}

/// The number of a dotted address `a.b.c.d`, of which `a` is the most significant byte.
#[tactic(auto, using(crate::proofs::laws::values::PrefixLaws::address_of_only, crate::proofs::laws::values::PrefixLaws::address_of_complete, crate::proofs::laws::values::PrefixLaws::address_of_octets,),)]
pub fn read_address(text: &[u8]) -> Option<u32>
    ensures value { result ≡ address_of text.now }
    ensures sound { IfSome result (λ a. IsAddressText text.now a) }
    ensures complete { (a : ℕ) → IsAddressText text.now a → result ≡ Some a }
{
    dotted_value(text)
}

// A length up to 32, or that of a dotted mask.
#[tactic(auto, unfolding(crate::specs::values::Prefix::length_of))]
fn read_length(text: &[u8]) -> Option<u8>
    ensures length { result ≡ length_of text.now }
    ensures small { IfSome result (λ n. n ≤ 32) }
{
    match read_number_to(text, 32) {
        Some(length) => Some(length as u8),
        None => {
            let mask = read_address(text)?;
            mask_length(mask)
        }
    }
}

impl Prefix {
    fn new(address: u32, length: u8) -> Prefix
        requires { length ≤ 32 }
        ensures value { result ≡ network address length }
        ensures valid { IsNetwork result }
    {
        let size = block_size(length);
        let cleared = u64::from(address) / size * size;
        Prefix {
            address: cleared as u32,
            length,
        }
    }

    /// The prefix that a text writes: an address, alone (length 32) or with `/` and a length from 0 to 32 or a dotted
    /// mask whose one bits are all before its zero bits. Bits of the address past the length are cleared.
    #[tactic(auto, using(crate::proofs::laws::values::PrefixLaws::prefix_of_only, crate::proofs::laws::values::PrefixLaws::prefix_of_complete))]
    pub fn read(text: &[u8]) -> Option<Prefix>
        ensures value { result ≡ prefix_of text.now }
        ensures valid { IfSome result (λ p. IsNetwork p) }
        ensures sound { IfSome result (λ p. IsPrefixText text.now p) }
        ensures complete { (p : Network) → IsPrefixText text.now p → result ≡ Some p }
    {
        Prefix::read_parts(text)
    }

    #[tactic(auto, unfolding(crate::specs::values::Prefix::prefix_of))]
    fn read_parts(text: &[u8]) -> Option<Prefix>
        ensures value { result ≡ prefix_of text.now }
        ensures valid { IfSome result (λ p. IsNetwork p) }
    {
        match cut_at(text, b'/') {
            None => {
                let address = read_address(text)?;
                Some(Prefix::new(address, 32))
            }
            Some((address, length)) => {
                let address = read_address(address)?;
                let length = read_length(length)?;
                Some(Prefix::new(address, length))
            }
        }
    }

    /// 0.0.0.0/0, which holds every address.
    pub fn any() -> Prefix
        ensures { result ≡ network 0 0 }
    {
        Prefix::new(0, 0)
    }

    /// The address, whose bits past the length are 0.
    pub fn address(&self) -> u32
        ensures value { result ≡ self.now.address }
        ensures valid { IsNetwork self.now }
    {
        self.address
    }

    /// How many leading bits count: 0 to 32.
    pub fn length(&self) -> u8
        ensures value { result ≡ self.now.length }
        ensures valid { IsNetwork self.now }
    {
        self.length
    }

    /// Whether the leading bits of an address, as many as the length says, are those of the prefix.
    pub fn holds(&self, address: u32) -> bool
        ensures { result ≡ holds self.now address }
    {
        let past = 32 - self.length;
        u64::from(address) >> past == u64::from(self.address) >> past
    }

    /// The four bytes of the address, the most significant first, as its text `a.b.c.d/n` writes them. That text
    /// reads back as this prefix.
    pub(crate) fn octets(&self) -> [u8; 4]
        ensures value { result ≡ octets self.now.address }
        ensures reads_back { prefix_of (prefix_text self.now) ≡ Some self.now }
    {
        self.address.to_be_bytes()
    }

    /// The addresses that the prefix holds: one interval. It answers `AllocError` only where memory was refused.
    pub fn allowed(&self, alloc: Global) -> Result<Spans, AllocError>
        ensures top { IfOk result (λ set. set.top ≡ address_top) }
        ensures members { IfOk result (λ set. (x : ℕ) → x ≤ address_top → has set.intervals x ≡ holds self.now x) }
    {
        let first = u128::from(self.address());
        let others = u128::from(block_size(self.length()) - 1);
        Spans::one(alloc, ADDRESS_TOP, first, first + others)
    }
}

// Writes a number so that its digits end at `end`, and a mark before them. It answers where the mark stands.
#[inline]
fn write_marked(mark: u8, number: u8, text: &mut [u8], end: usize) -> usize
    requires room { 4 ≤ end }
    requires within { end ≤ length text.old }
    ensures written { drop result text.new ≡ mark ∷ (decimal number ++ drop end text.old) }
    ensures near { end ≤ result + 4 }
    ensures inside { result ≤ end }
{
    let start = write_digits(u64::from(number), text, end) - 1;
    text[start] = mark;
    start
}

// Writes the dotted text of an address so that it ends at `end`. It answers where it starts.
pub(crate) fn write_address(address: u32, text: &mut [u8], end: usize) -> usize
    requires room { 15 ≤ end }
    requires within { end ≤ length text.old }
    ensures written { drop result text.new ≡ address_text address ++ drop end text.old }
    ensures near { end ≤ result + 15 }
    ensures inside { result ≤ end }
{
    let fourth = write_marked(b'.', (address % 256) as u8, text, end);
    let third = write_marked(b'.', (address / 256 % 256) as u8, text, fourth);
    let second = write_marked(b'.', (address / 65_536 % 256) as u8, text, third);
    write_digits(u64::from(address / 16_777_216), text, second)
}

impl Prefix {
    /// Writes `a.b.c.d/n`. It takes no memory.
    pub fn put<W: Write>(&self, output: &mut Tap<W>) -> Result<(), WriteFailed>
        ensures { Puts W.contents output.old output.new result (prefix_text self.now) }
    {
        let mut text = [0; ROOM];
        let end = write_marked(b'/', self.length(), &mut text, ROOM);
        let start = write_address(self.address(), &mut text, end);
        output.put(&text[start..])
    }
}
