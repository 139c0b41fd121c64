//! The packets that words say, as boxes.
ghost use Rattle.std.specs.Prelude.{◌≡◌, IfOk};
ghost use Rattle.questions.specs.boxes.Said.{AreSaid};
ghost use Rattle.questions.specs.steps.Saying.{is_carried, IsAllowed, IsSaidOf, IsSaidWith};

use crate::boxes::area::Area;
use crate::boxes::transport::{Transport, with_transport};
use fields::{Field, Hook, Spans};
use notation::PacketWord;
use std::alloc::{AllocError, Global};

// Whether packets at a hook with a transport header carry the key of a field.
fn is_carried(hook: Hook, transport: Transport, field: Field) -> bool
    ensures { result ≡ is_carried hook transport field }
{
    match field {
        Field::InIface => !matches!(hook, Hook::Output),
        Field::OutIface => !matches!(hook, Hook::Input),
        Field::SourcePort | Field::DestinationPort => transport.has_ports(),
        Field::TcpFlags => transport.has_flags(),
        Field::IcmpType => transport.has_type(),
        Field::Source
        | Field::Destination
        | Field::Protocol
        | Field::Fragment
        | Field::ConnectionState
        | Field::TimeToLive => true,
    }
}

// The numbers that a word allows packets which carry its key.
fn allowed(alloc: Global, word: &PacketWord) -> Result<Spans, AllocError>
    ensures { IfOk result (IsAllowed word.now) }
{
    if word.denies {
        return word.numbers.except(alloc);
    }
    word.numbers.meet(alloc, &word.numbers)
}

// The packets of a box, at a hook and with a transport header, of which a word holds.
fn narrowed(
    alloc: Global,
    area: Area,
    hook: Hook,
    transport: Transport,
    word: &PacketWord,
) -> Result<Area, AllocError>
    ensures { IfOk result (IsSaidWith transport hook word.now area) }
{
    if is_carried(hook, transport, word.field) {
        let numbers = allowed(alloc, word)?;
        return area.narrow(alloc, word.field, &numbers);
    }
    if word.denies {
        return Ok(area);
    }
    area.narrow(alloc, word.field, &Spans::none(alloc, word.field.top()))
}

// The packets at a hook with a transport header of which all words hold.
fn said_with(
    alloc: Global,
    hook: Hook,
    transport: Transport,
    words: &[PacketWord],
) -> Result<Area, AllocError>
    ensures { IfOk result (IsSaidOf transport hook words.now) }
{
    let mut area = with_transport(alloc, Area::at_hook(alloc, hook)?, transport)?;
    for word in words {
        area = narrowed(alloc, area, hook, transport, word)?;
    }
    Ok(area)
}

/// The packets at a hook of which all words hold, as boxes: each of them is in one, of no other packet at the hook is any, and no packet is in
/// two. There is a box for each transport header.
///
/// # Errors
///
/// `AllocError` where memory was refused.
pub fn said(alloc: Global, hook: Hook, words: &[PacketWord]) -> Result<Vec<Area>, AllocError>
    ensures { IfOk result (λ boxes. AreSaid hook words.now boxes.items) }
{
    let mut boxes = Vec::new(alloc);
    for transport in Transport::ALL {
        boxes.push(said_with(alloc, hook, transport, words)?)?;
    }
    Ok(boxes)
}
