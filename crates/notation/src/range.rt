//! The first and the last number that a text stands for on a field: a row a field.
ghost use Rattle.std.specs.Prelude.{◌≡◌, IfOk};
ghost use Rattle.notation.specs.Range.{flags_in, range_in};

use crate::interfaces::interfaces;
use crate::joined::with_commas;
use crate::numbers::{addresses, numbers, ports, protocols, types};
use crate::states::states;
use fields::{Field, TcpFlags};
use std::alloc::{AllocError, Global};

// The flags of `SYN+ACK`, as both ends.
#[tactic(auto, unfolding(crate::specs::Range::flags_in))]
fn flags(alloc: Global, text: &[u8]) -> Result<Option<(u128, u128)>, AllocError>
    ensures { IfOk result (λ ends. ends ≡ flags_in text.now) }
{
    let names = with_commas(alloc, text)?;
    match TcpFlags::read(names.as_slice()) {
        None => Ok(None),
        Some(flags) => Ok(Some((flags.value().into(), flags.value().into()))),
    }
}

/// The first and the last number that a text stands for on a field; none where it stands for nothing there.
///
/// A text is one number as a packet line has it, or, of addresses, ports, numbers, interfaces, ICMP types and states, several
/// of them, as `10.0.0.0/8`, `1024:65535`, `eth+` or `NEW`; plus signs join flags, and a state with its translations. The definition `Range`
/// has the forms of each field.
///
/// # Errors
///
/// `AllocError` where memory was refused.
pub(crate) fn read_range(
    alloc: Global,
    field: Field,
    text: &[u8],
) -> Result<Option<(u128, u128)>, AllocError>
    ensures { IfOk result (λ ends. ends ≡ range_in field text.now) }
{
    let ends = match field {
        Field::Source | Field::Destination => addresses(text),
        Field::InIface | Field::OutIface => interfaces(text),
        Field::Protocol => protocols(text),
        Field::Fragment => numbers(text, 1),
        Field::SourcePort | Field::DestinationPort => ports(text),
        Field::TcpFlags => flags(alloc, text)?,
        Field::IcmpType => types(text),
        Field::ConnectionState => states(alloc, text)?,
        Field::TimeToLive => numbers(text, 255),
    };
    Ok(ends)
}
