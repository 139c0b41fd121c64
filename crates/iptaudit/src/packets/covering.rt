//! Packets of standard input mark the rules that they match.
use crate::fault::Fault;
use crate::packets::packet_input::{TakesPackets, take_packets};
use audits::{Asking, Marks, mark_packet};
use programs::buffered_input;
use questions::WrittenPacket;
use rulesets::{Dump, OpenConditions};
use std::alloc::AllocError;
use std::io::IsTerminal;
use std::rt::Clock;

// Packets that mark the rules that they match.
#[derive(Drop)]
struct Covering<'a, 'b, R, E> {
    asking: &'a Asking<'b, R, E>,
    errors: &'a E,
    dump: &'a Dump,
    open: &'a OpenConditions,
    marks: Marks,
}

impl<'a, 'b, R: Clock, E: Print + IsTerminal> TakesPackets for Covering<'a, 'b, R, E> {
    fn take(&mut self, number: u64, _line: &[u8], packet: WrittenPacket) -> Result<(), AllocError> {
        let (dump, open) = (self.dump, self.open);
        if !mark_packet(self.asking, dump, open, &packet, &mut self.marks)? {
            self.marks.note_unclear(number)?;
            let _ = println!(self.errors; "line {number}: unclear");
        }
        Ok(())
    }
}

/// Marks the rules that match a packet of standard input under some answers, and those of which that isn't known of one, of which
/// `errors` is told. There are no marks where a line of it was refused, whose fault was written.
///
/// # Errors
///
/// Where memory was refused, or standard input failed.
pub(crate) fn read_covered<'a, R, E>(
    rt: &R,
    errors: &E,
    asking: &Asking<'_, R, E>,
    dump: &Dump,
    open: &OpenConditions,
) -> Result<Option<Marks>, Fault<'a>>
where
    R: Clock + Input + AllocGlobal,
    E: Print + IsTerminal,
{
    let mut input = buffered_input(rt.alloc(), rt.reader())?;
    let mut covering = Covering {
        asking,
        errors,
        dump,
        open,
        marks: Marks::new(rt.alloc(), dump.table())?,
    };
    if !take_packets(rt.alloc(), &mut input, errors, &mut covering)? {
        return Ok(None);
    }
    Ok(Some(covering.marks))
}
