//! The types of addresses that `--local` tells: conditions of `addrtype`, each as ranges of addresses.
ghost use Rattle.std.specs.Prelude.{◌≡◌, IfOk, IfSome};
ghost use Rattle.fields.specs.numbers.Field.{address_top};

use crate::fault::RulesetFault;
use dumps::KnownCondition;
use fields::{Interval, Prefix, Spans, cut_at, read_address};
use itoa::Buffer;
use std::alloc::{AllocError, Global};

// The greatest address.
const TOP: u32 = u32::MAX;

// 127.0.0.0 and 127.255.255.255: the network of the loopback interface, which each machine has.
const LOOPBACK: u32 = 0x7F00_0000;

const LOOPBACK_LAST: u32 = 0x7FFF_FFFF;

// 224.0.0.0 and 239.255.255.255.
const MULTICAST: u32 = 0xE000_0000;

const MULTICAST_LAST: u32 = 0xEFFF_FFFF;

// The most addresses of a machine.
const MOST: usize = 8;

// The ranges of a type's addresses, and those of all others, as `--dst-range` takes them.
#[derive(Drop)]
struct TypeRanges {
    inside: Vec<Vec<u8>>,
    outside: Vec<Vec<u8>>,
}

/// The types of addresses that are known where the addresses of the machine are (iptables-extensions(8), addrtype): `MULTICAST` is 224.0.0.0/4;
/// of the others `BROADCAST` are 0.0.0.0, 255.255.255.255 and the last address of each network of more than two; and `LOCAL` are the machine's
/// addresses and 127.0.0.0/8, but for those. So Linux has it from version 5.14 on, where no route of these types was added.
#[derive(Drop)]
pub(crate) struct AddressTypes {
    local: TypeRanges,
    broadcast: TypeRanges,
    multicast: TypeRanges,
}

/// A condition that is known, and its words.
#[derive(Drop)]
pub(crate) struct TypeWords<'a> {
    text: &'a [u8],
    holds: Vec<&'a [u8]>,
    fails: Vec<&'a [u8]>,
}

// Appends an address.
fn append_address(text: &mut Vec<u8>, address: u128) -> Result<(), AllocError> {
    for place in 0..4u32 {
        if place > 0 {
            text.push(b'.')?;
        }
        let mut digits = Buffer::new();
        let byte = (address >> (24 - 8 * place)) % 256;
        text.extend_from_slice(digits.format(byte as u8).as_bytes())?;
    }
    Ok(())
}

// The text of a range.
fn range_text(alloc: Global, range: &Interval) -> Result<Vec<u8>, AllocError> {
    let mut text = Vec::new(alloc);
    append_address(&mut text, range.first)?;
    text.push(b'-')?;
    append_address(&mut text, range.last)?;
    Ok(text)
}

// The texts of the ranges of a set.
fn ranges_of(alloc: Global, set: &Spans) -> Result<Vec<Vec<u8>>, AllocError> {
    let mut texts = Vec::new(alloc);
    for range in set.intervals() {
        texts.push(range_text(alloc, range)?)?;
    }
    Ok(texts)
}

// The addresses from one to another.
fn addresses(alloc: Global, first: u32, last: u32) -> Result<Spans, AllocError>
    ensures { IfOk result (λ set. set.top ≡ address_top) }
{
    Spans::one(alloc, TOP.into(), first.into(), last.into())
}

// A set with one address more.
fn with_address(alloc: Global, set: &Spans, address: u32) -> Result<Spans, AllocError>
    requires { set.now.top ≡ address_top }
    ensures { IfOk result (λ more. more.top ≡ address_top) }
{
    set.join(alloc, &addresses(alloc, address, address)?)
}

// The address before a `/`, or of the whole word.
fn address_of(word: &[u8]) -> Option<u32> {
    match cut_at(word, b'/') {
        None => read_address(word),
        Some((address, _)) => read_address(address),
    }
}

// Whether there are more words than a machine may have addresses.
fn are_too_many(words: &str) -> bool {
    let mut number = 0usize;
    for _ in words.split(',') {
        number = number.saturating_add(1);
    }
    number > MOST
}

// The addresses of the machine, if each word is an address, alone or with the length of its network.
fn own_addresses(alloc: Global, words: &str) -> Result<Option<Spans>, AllocError>
    ensures { IfOk result (λ found. IfSome found (λ own. own.top ≡ address_top)) }
{
    let mut own = addresses(alloc, LOOPBACK, LOOPBACK_LAST)?;
    for word in words.split(',') {
        match (address_of(word.as_bytes()), Prefix::read(word.as_bytes())) {
            (Some(address), Some(_)) => own = with_address(alloc, &own, address)?,
            _ => return Ok(None),
        }
    }
    Ok(Some(own))
}

// The last address of the network of a word. A network of one address or two has none for broadcasts.
fn last_address(word: &str) -> Option<u32> {
    let prefix = Prefix::read(word.as_bytes())?;
    if prefix.length() < 31 {
        return Some(prefix.address() | (TOP >> prefix.length()));
    }
    None
}

// The addresses for broadcasts.
fn broadcast_addresses(alloc: Global, words: &str) -> Result<Spans, AllocError>
    ensures { IfOk result (λ set. set.top ≡ address_top) }
{
    let mut set = addresses(alloc, 0, 0)?;
    set = with_address(alloc, &set, TOP)?;
    set = with_address(alloc, &set, LOOPBACK_LAST)?;
    for word in words.split(',') {
        if let Some(last) = last_address(word) {
            set = with_address(alloc, &set, last)?;
        }
    }
    Ok(set)
}

// A set without the addresses of another one.
fn without(alloc: Global, set: &Spans, other: &Spans) -> Result<Spans, AllocError>
    requires own { set.now.top ≡ address_top }
    requires other { other.now.top ≡ address_top }
    ensures { IfOk result (λ left. left.top ≡ address_top) }
{
    set.meet(alloc, &other.except(alloc)?)
}

// The addresses for broadcasts that aren't for multicasts.
fn broadcast_only(alloc: Global, words: &str, multicast: &Spans) -> Result<Spans, AllocError>
    requires { multicast.now.top ≡ address_top }
    ensures { IfOk result (λ left. left.top ≡ address_top) }
{
    without(alloc, &broadcast_addresses(alloc, words)?, multicast)
}

// The addresses of the machine that are for neither multicasts nor broadcasts.
fn local_only(
    alloc: Global,
    own: &Spans,
    multicast: &Spans,
    broadcast: &Spans,
) -> Result<Spans, AllocError>
    requires own { own.now.top ≡ address_top }
    requires multicast { multicast.now.top ≡ address_top }
    requires broadcast { broadcast.now.top ≡ address_top }
{
    without(alloc, &without(alloc, own, multicast)?, broadcast)
}

// The ranges of a set, and those of all other addresses.
fn type_ranges(alloc: Global, set: &Spans) -> Result<TypeRanges, AllocError> {
    let inside = ranges_of(alloc, set)?;
    let outside = ranges_of(alloc, &set.except(alloc)?)?;
    Ok(TypeRanges { inside, outside })
}

// The words that a packet's address, as the option takes it, is in none of the ranges.
fn words_without<'a>(
    alloc: Global,
    option: &'a [u8],
    ranges: &'a [Vec<u8>],
) -> Result<Vec<&'a [u8]>, AllocError> {
    let mut words = Vec::new(alloc);
    for range in ranges {
        words.extend_from_slice(&[
            b"-m".as_slice(),
            b"iprange".as_slice(),
            b"!".as_slice(),
            option,
            range.as_slice(),
        ])?;
    }
    Ok(words)
}

impl AddressTypes {
    /// The types by the addresses of a machine, written as `ADDRESS[/LENGTH],..`.
    ///
    /// # Errors
    ///
    /// `TooManyAddresses` where there are more than 8, whose ranges a rule might not have room for; `NoAddresses` where the words are written
    /// otherwise; or where memory was refused.
    pub(crate) fn read<'a>(
        alloc: Global,
        words: &'a str,
    ) -> Result<AddressTypes, RulesetFault<'a>> {
        if are_too_many(words) {
            return Err(RulesetFault::TooManyAddresses(words));
        }
        match own_addresses(alloc, words)? {
            Some(own) => Ok(AddressTypes::of(alloc, words, &own)?),
            None => Err(RulesetFault::NoAddresses(words)),
        }
    }

    // The types where these are the addresses of the machine.
    fn of(alloc: Global, words: &str, own: &Spans) -> Result<AddressTypes, AllocError>
        requires { own.now.top ≡ address_top }
    {
        let multicast = addresses(alloc, MULTICAST, MULTICAST_LAST)?;
        let broadcast = broadcast_only(alloc, words, &multicast)?;
        let local = local_only(alloc, own, &multicast, &broadcast)?;
        AddressTypes::of_sets(alloc, &local, &broadcast, &multicast)
    }

    // The types whose addresses these are.
    fn of_sets(
        alloc: Global,
        local: &Spans,
        broadcast: &Spans,
        multicast: &Spans,
    ) -> Result<AddressTypes, AllocError> {
        let local = type_ranges(alloc, local)?;
        let broadcast = type_ranges(alloc, broadcast)?;
        let multicast = type_ranges(alloc, multicast)?;
        Ok(AddressTypes {
            local,
            broadcast,
            multicast,
        })
    }

    /// The conditions that are known, with their words, in which these types are lent. An address is of a type if it is in no range of all
    /// other addresses, and of another type if it is in no range of the type.
    ///
    /// # Errors
    ///
    /// `AllocError` where memory was refused.
    pub(crate) fn words(&self, alloc: Global) -> Result<Vec<TypeWords<'_>>, AllocError> {
        let mut known = Vec::new(alloc);
        let (src, dst) = (b"--src-range".as_slice(), b"--dst-range".as_slice());
        for (text, option, ranges) in [
            (b"addrtype --src-type LOCAL".as_slice(), src, &self.local),
            (b"addrtype --dst-type LOCAL".as_slice(), dst, &self.local),
            (
                b"addrtype --src-type BROADCAST".as_slice(),
                src,
                &self.broadcast,
            ),
            (
                b"addrtype --dst-type BROADCAST".as_slice(),
                dst,
                &self.broadcast,
            ),
            (
                b"addrtype --src-type MULTICAST".as_slice(),
                src,
                &self.multicast,
            ),
            (
                b"addrtype --dst-type MULTICAST".as_slice(),
                dst,
                &self.multicast,
            ),
        ] {
            let holds = words_without(alloc, option, ranges.outside.as_slice())?;
            let fails = words_without(alloc, option, ranges.inside.as_slice())?;
            known.push(TypeWords { text, holds, fails })?;
        }
        Ok(known)
    }
}

/// The conditions, as rows for a table of options; their words are lent.
///
/// # Errors
///
/// `AllocError` where memory was refused.
pub(crate) fn known_conditions<'a>(
    alloc: Global,
    words: &'a [TypeWords<'_>],
) -> Result<Vec<KnownCondition<'a>>, AllocError> {
    let mut rows = Vec::new(alloc);
    for row in words {
        rows.push(KnownCondition {
            text: row.text,
            holds: row.holds.as_slice(),
            fails: row.fails.as_slice(),
        })?;
    }
    Ok(rows)
}
