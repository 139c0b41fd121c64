//! Numbers on a field as text: single numbers and sets, as they are written and read back.
#![tactic(auto)]

mod interfaces;
mod joined;
mod numbers;
mod packet_word;
mod plain;
mod range;
mod sets;
mod states;
mod usual;
mod values;
mod words;

pub use packet_word::{PacketWord, PacketWordFault};
pub use sets::set_word;
pub use values::put_value;
