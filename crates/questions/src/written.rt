//! Packets that packet lines write.
ghost use Rattle.std.specs.Prelude.{◌≡◌, drop};
ghost use Rattle.fields.specs.Packet.{packet_of};
ghost use Rattle.questions.specs.Written.{IsWritten};

use fields::{Packet, PacketFault, Words};
use std::marker::Model;

/// A packet that some packet line writes. So it can be at its hook.
#[derive(Clone, Copy)]
pub struct WrittenPacket {
    packet: Packet,
}

impl Model for WrittenPacket {
    ghost use Rattle.fields.specs.Packet.{PacketView};
    ghost use Rattle.questions.specs.Written.{IsWritten};

    ghost Value = { PacketView };

    ghost view = { λ written. written.packet };

    ghost invariant = { λ written. IsWritten written.packet };

    ghost inverse = { λ p. record { packet = p } };
}

impl WrittenPacket {
    /// The packet that the words from a place on write, as `Packet::read` reads it. It takes no memory.
    ///
    /// # Errors
    ///
    /// The fault that `Packet::read` answers.
    pub fn read(words: &Words, from: usize) -> Result<WrittenPacket, PacketFault>
        ensures { result ≡ packet_of (drop from words.now) }
    {
        let packet = Packet::read(words, from)?;
        Ok(WrittenPacket { packet })
    }

    /// The packet; it is lent.
    pub fn packet(&self) -> &Packet
        ensures value { result.now ≡ self.now }
        ensures written { IsWritten self.now }
    {
        &self.packet
    }
}
