//! The packets of standard input, with their lines.
pub(crate) mod asked_packets;
pub(crate) mod covering;
pub(crate) mod packet_input;
pub(crate) mod packet_words;

use crate::fault::Fault;
use crate::packets::packet_input::{TakesPackets, take_packets};
use audits::GivenPacket;
use programs::buffered_input;
use questions::WrittenPacket;
use std::alloc::{AllocError, Global};

// The packets so far.
#[derive(Drop)]
struct Packets {
    alloc: Global,
    listed: Vec<GivenPacket>,
}

impl TakesPackets for Packets {
    fn take(&mut self, _number: u64, line: &[u8], packet: WrittenPacket) -> Result<(), AllocError> {
        self.listed.push(GivenPacket {
            line: line.to_vec(self.alloc)?,
            packet,
        })?;
        Ok(())
    }
}

/// The packets of standard input. There are none where a line of it was refused, whose fault was written.
///
/// # Errors
///
/// Where memory was refused, or standard input failed.
pub(crate) fn read_packets<'a, R, E>(
    rt: &R,
    errors: &E,
) -> Result<Option<Vec<GivenPacket>>, Fault<'a>>
where
    R: Input + AllocGlobal,
    E: Print,
{
    let mut input = buffered_input(rt.alloc(), rt.reader())?;
    let mut packets = Packets {
        alloc: rt.alloc(),
        listed: Vec::new(rt.alloc()),
    };
    if take_packets(rt.alloc(), &mut input, errors, &mut packets)? {
        return Ok(Some(packets.listed));
    }
    Ok(None)
}
