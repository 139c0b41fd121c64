//! The text of one number on a field.
ghost use Rattle.std.specs.Prelude.{◌≡◌, ◌≤◌, ◌/◌, ◌%◌, ◌++◌, ◌∷◌, [], filter, decimal, OnOk};
ghost use Rattle.fields.specs.numbers.Field.{state_top, top};
ghost use Rattle.fields.specs.values.NameList.{names_listed};
ghost use Rattle.fields.specs.values.Prefix.{address_text};
ghost use Rattle.fields.specs.values.TcpFlags.{flags, tcp_flags_text};
ghost use Rattle.notation.specs.Rows.{rows_of};
ghost use Rattle.notation.specs.ValueText.{HasText, IsValueText, icmp_text, interface_name, is_some_byte, state_name, value_text};

use crate::states::rows;
use fields::Field;
use itoa::Buffer;
use std::alloc::AllocError;

// The TCP flags with their bits, the lowest bit first.
static FLAGS: [(&[u8], u8); 6] = [
    (b"FIN", 1),
    (b"SYN", 2),
    (b"RST", 4),
    (b"PSH", 8),
    (b"ACK", 16),
    (b"URG", 32),
];

/// Writes a number in decimal.
pub(crate) fn put_number(line: &mut Vec<u8>, number: u32) -> Result<(), AllocError>
    ensures { OnOk result (line.new.items ≡ line.old.items ++ decimal number) }
{
    let mut digits = Buffer::new();
    line.extend_from_slice(digits.format(number).as_bytes())
}

// Writes a number in decimal, and a mark behind it.
fn put_marked(line: &mut Vec<u8>, number: u32, mark: u8) -> Result<(), AllocError>
    ensures { OnOk result (line.new.items ≡ line.old.items ++ (decimal number ++ mark ∷ [])) }
{
    put_number(line, number)?;
    line.push(mark)?;
    Ok(())
}

// Writes the four bytes of an address, with a dot between two.
fn put_address(line: &mut Vec<u8>, address: u32) -> Result<(), AllocError>
    ensures { OnOk result (line.new.items ≡ line.old.items ++ address_text address) }
{
    put_marked(line, address / 16_777_216, b'.')?;
    put_marked(line, address / 65_536 % 256, b'.')?;
    put_marked(line, address / 256 % 256, b'.')?;
    put_number(line, address % 256)
}

// Writes those of some bytes that aren't 0.
fn put_name(line: &mut Vec<u8>, bytes: &[u8]) -> Result<(), AllocError>
    ensures { OnOk result (line.new.items ≡ line.old.items ++ filter is_some_byte bytes.now) }
{
    for byte in bytes {
        if *byte != 0 {
            line.push(*byte)?;
        }
    }
    Ok(())
}

// Writes the name of an interface.
fn put_interface(line: &mut Vec<u8>, number: u128) -> Result<(), AllocError>
    ensures { OnOk result (line.new.items ≡ line.old.items ++ interface_name number) }
{
    put_name(line, &number.to_be_bytes())
}

// Writes the names of those of some flags that a set has, with a comma between two.
fn put_names(line: &mut Vec<u8>, set: u8, rows: &[(&[u8], u8)]) -> Result<(), AllocError>
    ensures { OnOk result (line.new.items ≡ line.old.items ++ names_listed (rows_of rows.now) set) }
{
    let mut separator: &[u8] = b"";
    for (name, bit) in rows {
        if set & *bit == *bit {
            line.extend_from_slice(separator)?;
            line.extend_from_slice(name)?;
            separator = b",";
        }
    }
    Ok(())
}

// The rows of the table of flags.
fn flags() -> &'static [(&'static [u8], u8)]
    ensures { rows_of result.now ≡ flags }
{
    &FLAGS
}

// Writes the names of a set of flags, or `NONE`.
#[tactic(auto, unfolding(fields::specs::values::TcpFlags::tcp_flags_text))]
fn put_flags(line: &mut Vec<u8>, set: u8) -> Result<(), AllocError>
    ensures { OnOk result (line.new.items ≡ line.old.items ++ tcp_flags_text set) }
{
    if set == 0 {
        line.extend_from_slice(b"NONE")
    } else {
        put_names(line, set, flags())
    }
}

// Writes an ICMP type and its code.
fn put_icmp(line: &mut Vec<u8>, number: u32) -> Result<(), AllocError>
    ensures { OnOk result (line.new.items ≡ line.old.items ++ icmp_text number) }
{
    put_marked(line, number / 256, b'/')?;
    put_number(line, number % 256)
}

// The name of the state of a number.
fn state_name(number: usize) -> &'static [u8]
    requires { number ≤ state_top }
    ensures { result.now ≡ state_name number }
{
    rows()[number].0
}

/// Writes the text of a number on a field, at most the field's top, after what the line has. A packet line reads that
/// text as the number, and it needs no quotes there, wherever the number has a text: of interfaces the numbers of
/// names have one, of other fields all have.
///
/// # Errors
///
/// `AllocError` where memory was refused; then the line may have some of the text.
#[tactic(auto, using(crate::proofs::ValueTextLaws::is_value_text))]
pub fn put_value(line: &mut Vec<u8>, field: Field, number: u128) -> Result<(), AllocError>
    requires { number ≤ top field }
    ensures written { OnOk result (line.new.items ≡ line.old.items ++ value_text field number) }
    ensures reads_back { HasText field number → IsValueText field (value_text field number) number }
{
    match field {
        Field::Source | Field::Destination => put_address(line, number as u32),
        Field::InIface | Field::OutIface => put_interface(line, number),
        Field::TcpFlags => put_flags(line, number as u8),
        Field::IcmpType => put_icmp(line, number as u32),
        Field::ConnectionState => line.extend_from_slice(state_name(number as usize)),
        Field::Protocol
        | Field::Fragment
        | Field::SourcePort
        | Field::DestinationPort
        | Field::TimeToLive => put_number(line, number as u32),
    }
}
