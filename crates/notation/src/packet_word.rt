//! What a word says of a packet, and why a word says nothing.
ghost use Rattle.std.specs.Prelude.{◌≡◌};
ghost use Rattle.fields.specs.numbers.Field.{top};
ghost use Rattle.notation.specs.declared.packet_word.PacketWordFault.TheVariants.{NoMemory};

use fields::{Field, Spans};
use std::alloc::AllocError;
use thiserror::Error;

/// What a word says of a packet: that it carries the key of a field and its number there is one of a set; or, where the word denies that, that
/// it isn't so.
#[derive(Drop)]
pub struct PacketWord {
    /// The field.
    pub field: Field,
    /// Whether the word denies it.
    pub denies: bool,
    /// The numbers, up to the field's top.
    pub numbers: Spans,
    ghost greatest: { numbers.top ≡ top field },
}

/// Why a word says nothing.
#[derive(Clone, Copy, Debug, PartialEq, Eq, Error)]
pub enum PacketWordFault {
    /// No memory was given.
    #[error("no memory")]
    NoMemory,
    /// It doesn't begin with a key, and `=` or `!=`.
    #[error("unknown key")]
    UnknownKey,
    /// A value of its list isn't one of the field.
    #[error("bad value")]
    BadValue,
}

impl From<AllocError> for PacketWordFault {
    ghost from_gives = { λ _ fault. fault ≡ NoMemory };

    fn from(_e: AllocError) -> PacketWordFault {
        PacketWordFault::NoMemory
    }
}
