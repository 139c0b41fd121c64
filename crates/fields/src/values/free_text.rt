//! Texts of any bytes but newlines: comments and log prefixes.
ghost use Rattle.std.specs.Prelude.{◌≡◌, ◌≤◌, ◌∷◌, [], length, Option, Some, None, false, flat_map};
ghost use Rattle.std.specs.List.{list_all};
ghost use Rattle.fields.specs.text.Line.{IsOneLine, is_one_line};
ghost use Rattle.fields.specs.text.Words.{words_of};
ghost use Rattle.fields.specs.values.FreeText.{text_of, is_plain_byte, is_plain, escaped, in_quotes, quoted};
ghost use Rattle.fields.specs.text.Printed.{LinesReadBack};
ghost use Rattle.fields.specs.text.Tap.{has_failed, Puts};

use crate::text::tap::{Tap, WriteFailed};
use crate::values::copied::copied;
use arrayvec::ArrayVec;
use std::io::Write;
use std::marker::Model;

/// A text of any bytes but newlines, at most `N` of them: a comment has 256 at most, a log prefix 29
/// (iptables-extensions(8), comment and LOG).
#[derive(Debug, PartialEq, Eq, Drop)]
pub struct Text<const N: usize> {
    bytes: ArrayVec<u8, N>,
}

impl<const N: usize> Model for Text<N> {
    ghost use Rattle.std.specs.Prelude.{ℕ, ◌≤◌, List, length};

    ghost Value = { List ℕ };

    ghost view = { λ text. text.bytes.items };

    ghost use Rattle.fields.specs.text.Line.{IsOneLine};

    ghost invariant = { λ text. (length text.bytes.items ≤ N) × IsOneLine text.bytes.items };

    ghost inverse = { λ bytes. record { bytes = record { items = bytes } } };
}

impl<const N: usize> Text<N> {
    /// The text of these bytes, where there are at most `N`, and no newline (10) among them. It takes no memory.
    #[tactic(auto, using(crate::proofs::laws::text::PrintedLaws::one_line_is), unfolding(crate::specs::values::FreeText::text_of))]
    pub fn read(bytes: &[u8]) -> Option<Text<N>>
        ensures { result ≡ text_of N bytes.now }
    {
        if bytes.len() > N || !is_one_line(bytes) {
            return None;
        }
        let bytes = ArrayVec::try_from(bytes).ok()?;
        Some(Text { bytes })
    }

    /// The bytes of the text.
    pub fn bytes(&self) -> &[u8]
        ensures value { result.now ≡ self.now }
        ensures bounded { length self.now ≤ N }
        ensures one_line { IsOneLine self.now }
    {
        self.bytes.as_slice()
    }

    /// The same text again. It takes no memory.
    pub fn copy(&self) -> Text<N>
        ensures { result ≡ self.now }
    {
        Text {
            bytes: copied(&self.bytes),
        }
    }

    /// Writes the text as one word, which reads back as this text: without quotes if it has at least one byte and all
    /// are ASCII letters, digits, `_` or `-`, else in `"`, with a backslash before each `"`, `\` and `'`. It takes no
    /// memory.
    #[tactic(auto, using(crate::proofs::laws::text::PrintedLaws::text_reads_back, crate::proofs::laws::text::PrintedLaws::lines_read_back, crate::proofs::laws::text::PrintedLaws::quoted_one_line,),)]
    pub fn put<W: Write>(&self, output: &mut Tap<W>) -> Result<(), WriteFailed>
        ensures puts { Puts W.contents output.old output.new result (quoted self.now) }

        // The words of what is written are this text alone. In a line of words, each after one
        // blank, it is one of the words.
        ensures reads_back { words_of (quoted self.now) ≡ Some (self.now ∷ []) }
        ensures lines_read_back { LinesReadBack }
        ensures one_line { IsOneLine (quoted self.now) }
    {
        let text = self.bytes.as_slice();
        if is_plain(text) {
            return output.put(text);
        }
        put_in_quotes(output, text)
    }
}

fn is_one_line(bytes: &[u8]) -> bool
    ensures { result ≡ is_one_line bytes.now }
{
    bytes.iter().all(|byte| *byte != b'\n')
}

fn is_plain_byte(byte: u8) -> bool
    ensures { result ≡ is_plain_byte byte }
{
    byte.is_ascii_alphanumeric() || byte == b'_' || byte == b'-'
}

fn all_plain_bytes(text: &[u8]) -> bool
    ensures { result ≡ list_all is_plain_byte text.now }
{
    text.iter().all(|byte| is_plain_byte(*byte))
}

fn is_plain(text: &[u8]) -> bool
    ensures { result ≡ is_plain text.now }
{
    !text.is_empty() && all_plain_bytes(text)
}

// Writes a byte as it stands between quotes.
fn put_escaped_byte<W: Write>(output: &mut Tap<W>, byte: u8) -> Result<(), WriteFailed>
    ensures { Puts W.contents output.old output.new result (escaped byte) }
{
    if byte == b'"' || byte == b'\\' || byte == b'\'' {
        return output.put(&[b'\\', byte]);
    }
    output.put(&[byte])
}

fn put_escaped<W: Write>(output: &mut Tap<W>, text: &[u8]) -> Result<(), WriteFailed>
    requires { has_failed output.old ≡ false }
    ensures { Puts W.contents output.old output.new result (flat_map escaped text.now) }
{
    for byte in text {
        put_escaped_byte(output, *byte)?;
    }
    Ok(())
}

fn put_in_quotes<W: Write>(output: &mut Tap<W>, text: &[u8]) -> Result<(), WriteFailed>
    ensures { Puts W.contents output.old output.new result (in_quotes text.now) }
{
    output.put(b"\"")?;
    put_escaped(output, text)?;
    output.put(b"\"")
}
