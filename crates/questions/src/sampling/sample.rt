//! A packet of a box at a hook, with the words that write it; none only where no line writes one.
ghost use Rattle.std.specs.Prelude.{◌≡◌, Ok, IfOk, MatchOption};
ghost use Rattle.fields.specs.Packet.{PacketView, packet_of};
ghost use Rattle.questions.specs.Written.{HasNoneWritten, IsSampleOf};
ghost use Rattle.questions.specs.steps.Sampled.{Writes};

use crate::boxes::area::Area;
use crate::sampling::choice::numbers_in;
use crate::sampling::line::line_of;
use fields::{Hook, Packet, WordFault, Words};
use std::alloc::{AllocError, Global};

// A packet, and the words that write it.
#[derive(Drop)]
pub(crate) struct Sample {
    pub words: Words,
    pub packet: Packet,
}

// The packet that a line writes.
fn read(alloc: Global, line: &[u8]) -> Result<Sample, AllocError>
    requires { (p : PacketView) × Writes line.now p }
    ensures written { IfOk result (λ sample. packet_of sample.words ≡ Ok sample.packet) }
    ensures same { (p : PacketView) → Writes line.now p → IfOk result (λ sample. sample.packet ≡ p) }
{
    let words = match Words::split(alloc, line) {
        Ok(words) => words,
        Err(WordFault::NoMemory) => return Err(AllocError),
        Err(WordFault::Quoting) => unreachable!(),
    };
    let packet = match Packet::read(&words, 0) {
        Ok(packet) => packet,
        Err(_) => unreachable!(),
    };
    Ok(Sample { words, packet })
}

// A packet at the hook that is one of the box; there is none only where no line writes such a packet.
pub(crate) fn sample_of(
    alloc: Global,
    hook: Hook,
    area: &Area,
) -> Result<Option<Sample>, AllocError>
    ensures { IfOk result (λ found. MatchOption found
        (HasNoneWritten hook area.now) (λ sample. IsSampleOf hook area.now sample.words sample.packet)) }
{
    let Some(numbers) = numbers_in(area, hook) else {
        return Ok(None);
    };
    let line = line_of(alloc, hook, &numbers)?;
    let sample = read(alloc, line.as_slice())?;
    Ok(Some(sample))
}
