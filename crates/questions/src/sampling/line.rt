//! The line of a packet, by its numbers.
ghost use Rattle.std.specs.Prelude.{◌≡◌, ◌≤◌, ◌++◌, ◌∷◌, OnOk, IfOk};
ghost use Rattle.fields.specs.declared.packet.hook.Hook.{Hook};
ghost use Rattle.fields.specs.numbers.Field.{top};
ghost use Rattle.fields.specs.values.Protocol.{carries_ports};
ghost use Rattle.questions.specs.steps.Sampled.{is_written, word_of, CanBeWritten, Writes, packet_with};

use fields::{FIELDS, Field, Hook};
use notation::put_value;
use std::alloc::{AllocError, Global};

const ICMP: u128 = 1;

// Writes the word of a field, after a blank.
fn put_word(line: &mut Vec<u8>, field: Field, number: u128) -> Result<(), AllocError>
    requires { number ≤ top field }
    ensures { OnOk result (line.new.items ≡ line.old.items ++ 32 ∷ word_of field number) }
{
    line.push(b' ')?;
    line.extend_from_slice(field.name())?;
    line.push(b'=')?;
    put_value(line, field, number)
}

// The protocols whose packets have ports.
fn has_ports(protocol: u128) -> bool
    ensures { result ≡ carries_ports protocol }
{
    protocol == 6 || protocol == 17 || protocol == 33 || protocol == 132 || protocol == 136
}

// Whether a word gives the number on a field, which no hook decides.
fn is_written(numbers: &[u128; FIELDS], field: Field) -> bool
    ensures { (hook : Hook) → result ≡ is_written (packet_with hook numbers.now) field }
{
    let protocol = numbers[Field::Protocol.index()];
    let is_first = numbers[Field::Fragment.index()] == 0;
    match field {
        Field::InIface
        | Field::OutIface
        | Field::Fragment
        | Field::TcpFlags
        | Field::ConnectionState => numbers[field.index()] != 0,
        Field::SourcePort | Field::DestinationPort => has_ports(protocol) && is_first,
        Field::IcmpType => protocol == ICMP && is_first,
        Field::Source | Field::Destination | Field::Protocol | Field::TimeToLive => true,
    }
}

// The line of the packet at the hook with these numbers.
pub(crate) fn line_of(
    alloc: Global,
    hook: Hook,
    numbers: &[u128; FIELDS],
) -> Result<Vec<u8>, AllocError>
    requires { CanBeWritten (packet_with hook numbers.now) }
    ensures { IfOk result (λ line. Writes line.items (packet_with hook numbers.now)) }
{
    let mut line = Vec::new(alloc);
    line.extend_from_slice(hook.name())?;
    for field in Field::ALL {
        if is_written(numbers, field) {
            put_word(&mut line, field, numbers[field.index()])?;
        }
    }
    Ok(line)
}
