//! Packets, and the reader of a packet line.
ghost use Rattle.std.specs.Prelude.{◌≡◌, ◌<◌, ◌≤◌, [], map, length, drop, IfOk};
ghost use Rattle.std.specs.List.{list_any};
ghost use Rattle.fields.specs.declared.numbers.field.Field.{Field};
ghost use Rattle.fields.specs.numbers.Field.{number_on, top};
ghost use Rattle.fields.specs.Packet.{leftmost_fault};
ghost use Rattle.fields.specs.steps.GivenNumbers.{AllFit, value_in, shape_in, strays_in, lacks_in, checked_in};

mod given;
pub(crate) mod hook;
pub(crate) mod keys;

use crate::numbers::field::{FIELDS, Field};
use crate::packet::given::{given_by, number_in};
use crate::packet::hook::Hook;
use crate::packet::keys::{KeyRow, Shape};
use crate::text::words::Words;
use std::marker::Model;
use thiserror::Error;

/// Why the words of a packet line are no packet.
#[derive(Clone, Copy, Debug, PartialEq, Eq, Error)]
pub enum PacketFault {
    /// F1: the hook is missing or unknown, a word has no `=`, or its key is unknown.
    #[error("unknown key")]
    UnknownKey,
    /// F2: a required key isn't given.
    #[error("key missing")]
    KeyMissing,
    /// F3: a value isn't one of its field, or a key is given twice.
    #[error("bad packet value")]
    BadValue,
    /// F4: a key is given that such a packet doesn't carry.
    #[error("field not carried")]
    NotCarried,
}

/// A packet: its hook, and one whole number on each field, from 0 to the field's top. A part that the packet doesn't
/// carry is 0; the time to live, which each packet has, is 64 where no word gives it.
#[derive(Clone, Copy, Debug, PartialEq, Eq)]
pub struct Packet {
    hook: Hook,
    values: [u128; FIELDS],
}

impl Model for Packet {
    ghost use Rattle.fields.specs.Packet.{PacketView, IsPacket};

    ghost Value = { PacketView };

    ghost view = { λ p. record { hook = p.hook; values = p.values } };

    ghost invariant = { λ p. IsPacket (record { hook = p.hook; values = p.values }) };

    ghost inverse = { λ p. record { hook = p.hook; values = p.values } };
}

fn value_on(given: &[Option<u128>; FIELDS], field: Field) -> u128
    ensures { result ≡ value_in given.now field }
{
    number_in(given, field).unwrap_or(KeyRow::of(field).absent)
}

// The shape, which decides the keys that the packet carries.
fn shape_of(hook: Hook, given: &[Option<u128>; FIELDS]) -> Shape
    ensures { result ≡ shape_in hook given.now }
{
    Shape {
        hook,
        protocol: number_in(given, Field::Protocol),
        fragment: value_on(given, Field::Fragment),
    }
}

// Tells whether the key of a field is given, of a packet that doesn't carry it.
fn strays(shape: Shape, given: &[Option<u128>; FIELDS], field: Field) -> bool
    ensures { result ≡ strays_in shape given.now field }
{
    number_in(given, field).is_some() && !shape.carry(KeyRow::of(field).carrier)
}

fn strays_any(shape: Shape, given: &[Option<u128>; FIELDS], fields: &[Field]) -> bool
    ensures { result ≡ list_any (strays_in shape given.now) fields.now }
{
    fields.iter().any(|field| strays(shape, given, *field))
}

// Tells whether the key of a field has to be given and isn't.
fn lacks(shape: Shape, given: &[Option<u128>; FIELDS], field: Field) -> bool
    ensures { result ≡ lacks_in shape given.now field }
{
    KeyRow::of(field).is_required
        && shape.carry(KeyRow::of(field).carrier)
        && number_in(given, field).is_none()
}

fn lacks_any(shape: Shape, given: &[Option<u128>; FIELDS], fields: &[Field]) -> bool
    ensures { result ≡ list_any (lacks_in shape given.now) fields.now }
{
    fields.iter().any(|field| lacks(shape, given, *field))
}

fn put_values(given: &[Option<u128>; FIELDS], fields: &[Field], values: &mut [u128])
    requires { length values.old ≡ length fields.now }
    ensures { values.new ≡ map (value_in given.now) fields.now }
{
    for (i, field) in fields.iter().enumerate() {
        values[i] = value_on(given, *field);
    }
}

fn values_of(given: &[Option<u128>; FIELDS]) -> [u128; FIELDS]
    ensures { result ≡ map (value_in given.now) Field.ALL }
{
    let mut values = [0; FIELDS];
    put_values(given, &Field::ALL, &mut values);
    values
}

impl Packet {
    ghost use Rattle.fields.specs.Packet.{IsPacket, checked, packet_of, point};

    // The packet that the numbers of a line make at a hook.
    fn of_given(hook: Hook, given: &[Option<u128>; FIELDS]) -> Result<Packet, PacketFault>
        requires { AllFit given.now }
        ensures value { result ≡ checked_in hook given.now }
        ensures valid { IfOk result (λ p. IsPacket p) }
    {
        let shape = shape_of(hook, given);
        if strays_any(shape, given, &Field::ALL) {
            return Err(PacketFault::NotCarried);
        }
        if lacks_any(shape, given, &Field::ALL) {
            return Err(PacketFault::KeyMissing);
        }
        let values = values_of(given);
        Ok(Packet { hook, values })
    }

    fn after_hook(hook: Hook, words: &Words, first: usize) -> Result<Packet, PacketFault>
        requires { first ≤ length words.now }
        ensures value { result ≡ checked hook (drop first words.now) (leftmost_fault [] (drop first words.now)) }
        ensures valid { IfOk result (λ p. IsPacket p) }
    {
        let given = given_by(words, first)?;
        Packet::of_given(hook, &given)
    }

    /// The packet that the words from a place on write: the hook, and then `key=value` in any order. It takes no
    /// memory.
    ///
    /// Each word is cut, its key looked up and its value read once. A word that repeats a key ends the reading, so it
    /// takes at most one word more than there are fields.
    ///
    /// # Errors
    ///
    /// The fault of the leftmost word at fault (F1 or F3), else F4, else F2.
    pub fn read(words: &Words, from: usize) -> Result<Packet, PacketFault>
        ensures value { result ≡ packet_of (drop from words.now) }
        ensures valid { IfOk result (λ p. IsPacket p) }
    {
        if from >= words.len() {
            return Err(PacketFault::UnknownKey);
        }
        match Hook::read(words.get(from)) {
            None => Err(PacketFault::UnknownKey),
            Some(hook) => Packet::after_hook(hook, words, from + 1),
        }
    }

    /// Where the packet meets the table.
    pub fn hook(&self) -> Hook
        ensures value { result ≡ self.now.hook }
        ensures valid { IsPacket self.now }
    {
        self.hook
    }

    /// The packet's number on each field, in the order of `Field::ALL`, each within its field's top; they are lent.
    pub fn numbers(&self) -> &[u128; FIELDS]
        ensures value { result.now ≡ self.now.values }
        ensures point { (field : Field) → number_on result.now field ≡ point self.now field }
        ensures within { (field : Field) → number_on result.now field ≤ top field }
    {
        &self.values
    }

    /// The packet's number on a field: at most the field's top.
    pub fn point(&self, field: Field) -> u128
        ensures value { result ≡ point self.now field }
        ensures within { result ≤ top field }
    {
        self.values[field.index()]
    }
}
