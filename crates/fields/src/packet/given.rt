//! The numbers that the words of a packet line give the fields: each word is read once.
ghost use Rattle.std.specs.Prelude.{◌≡◌, ◌≤◌, [], length, drop, IfOk};
ghost use Rattle.fields.specs.Packet.{field_of, part_of, leftmost_fault};
ghost use Rattle.fields.specs.steps.GivenNumbers.{number_in, IsGiven, fault_in, with_part, fault_of};

use crate::numbers::field::{FIELDS, Field};
use crate::packet::PacketFault;
use crate::packet::keys::KeyRow;
use crate::text::cut::cut_at;
use crate::text::words::Words;

// The field of a key: the one whose name is the key.
fn field_of(key: &[u8]) -> Option<Field>
    ensures { result ≡ field_of key.now }
{
    match key {
        b"src" => Some(Field::Source),
        b"dst" => Some(Field::Destination),
        b"in" => Some(Field::InIface),
        b"out" => Some(Field::OutIface),
        b"proto" => Some(Field::Protocol),
        b"frag" => Some(Field::Fragment),
        b"sport" => Some(Field::SourcePort),
        b"dport" => Some(Field::DestinationPort),
        b"flags" => Some(Field::TcpFlags),
        b"icmp" => Some(Field::IcmpType),
        b"ct" => Some(Field::ConnectionState),
        b"ttl" => Some(Field::TimeToLive),
        _ => None,
    }
}

// The number that the words give a field, if one does. It stands at the field's index.
pub(crate) fn number_in(given: &[Option<u128>; FIELDS], field: Field) -> Option<u128>
    ensures { result ≡ number_in given.now field }
{
    given[field.index()]
}

// Puts the number of one more word beside those of the words before it, or says why the word is at fault.
fn take_word(given: &mut [Option<u128>; FIELDS], word: &[u8]) -> Result<(), PacketFault>
    ensures fault { fault_of result ≡ fault_in given.old (part_of word.now) }
    ensures kept { IfOk result (λ _. given.new ≡ with_part given.old (part_of word.now)) }
{
    let Some((key, text)) = cut_at(word, b'=') else {
        return Err(PacketFault::UnknownKey);
    };
    let Some(field) = field_of(key) else {
        return Err(PacketFault::UnknownKey);
    };
    if number_in(given, field).is_some() {
        return Err(PacketFault::BadValue);
    }
    let Some(number) = KeyRow::of(field).value.read(text) else {
        return Err(PacketFault::BadValue);
    };
    given[field.index()] = Some(number);
    Ok(())
}

// The numbers that the words from `first` on give, or the fault of the leftmost word at fault.
pub(crate) fn given_by(words: &Words, first: usize) -> Result<[Option<u128>; FIELDS], PacketFault>
    requires { first ≤ length words.now }
    ensures fault { fault_of result ≡ leftmost_fault [] (drop first words.now) }
    ensures given { IfOk result (λ given. IsGiven given (drop first words.now)) }
{
    let mut given = [None; FIELDS];
    for place in first..words.len() {
        take_word(&mut given, words.get(place))?;
    }
    Ok(given)
}
