//! The line of a packet.
use fields::{Tap, Text, Words, WriteFailed};
use std::io::Write;

// How many bytes a word of a packet line has at most.
const WORD_MAX: usize = 256;

// Whether a byte stands between quotes.
fn is_quoted(byte: u8) -> bool {
    matches!(byte, b' ' | b'\t' | b'"' | b'\'' | b'\\')
}

// Writes a word of a line, in quotes where it needs them.
fn put_word<W: Write>(word: &[u8], output: &mut Tap<W>) -> Result<(), WriteFailed> {
    if word.iter().any(|byte| is_quoted(*byte)) {
        if let Some(text) = Text::<WORD_MAX>::read(word) {
            return text.put(output);
        }
    }
    output.put(word)
}

/// Writes the line that asks a session about a packet, without its newline: `packet INPUT src=10.0.0.1 ..`.
///
/// # Errors
///
/// `WriteFailed` where a write failed.
pub(crate) fn put_packet<W: Write>(words: &Words, output: &mut Tap<W>) -> Result<(), WriteFailed> {
    output.put(b"packet")?;
    for place in 0..words.len() {
        output.put(b" ")?;
        put_word(words.get(place), output)?;
    }
    Ok(())
}
