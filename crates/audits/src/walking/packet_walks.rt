//! What becomes of each of some packets, by answers.
use crate::asking::Asking;
use crate::walking::branches::{branches_among, joined};
use crate::walking::walk::{Branch, GivenPacket, PacketWalks};
use crate::walking::{ends_of, walks_of};
use questions::WrittenPacket;
use rulesets::{Dump, OpenConditions};
use std::alloc::AllocError;
use std::io::IsTerminal;
use std::rt::Clock;

// What becomes of a packet, if that is known: by the ends of its walk, for which no condition is asked that changes nothing; where walks may be too
// long by the walks.
fn branches_of<R: Clock, E: Print + IsTerminal>(
    asking: &Asking<'_, R, E>,
    dump: &Dump,
    open: &OpenConditions,
    packet: &WrittenPacket,
) -> Result<Option<Vec<Branch>>, AllocError> {
    if !dump.is_plain() {
        if let Some(branches) = ends_of(asking, dump, open, packet)? {
            return joined(asking.alloc(), branches);
        }
    }
    match walks_of(asking, dump, open, packet, &[])? {
        Some(walks) => joined(asking.alloc(), branches_among(asking.alloc(), walks)?),
        None => Ok(None),
    }
}

/// Asks what becomes of each packet.
///
/// # Errors
///
/// `AllocError` where memory was refused.
pub fn ask_packets<R: Clock, E: Print + IsTerminal>(
    asking: &mut Asking<'_, R, E>,
    dump: &Dump,
    open: &OpenConditions,
    packets: &[GivenPacket],
) -> Result<PacketWalks, AllocError> {
    asking.begin(packets.len());
    let mut all = Vec::new(asking.alloc());
    for given in packets {
        asking.next();
        all.push(branches_of(asking, dump, open, &given.packet)?)?;
    }
    Ok(PacketWalks { branches: all })
}
