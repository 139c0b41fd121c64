//! Names of chains.
ghost use Rattle.std.specs.Prelude.{◌≡◌, Option, Some, None};
ghost use Rattle.std.specs.List.{list_all};
ghost use Rattle.fields.specs.values.Name.{is_name_byte, has_name_form, is_target_word, is_name, name_of};
ghost use Rattle.fields.specs.text.Printed.{IsBareWord};
ghost use Rattle.fields.specs.text.Tap.{Puts};

use crate::text::tap::{Tap, WriteFailed};
use crate::values::copied::copied;
use arrayvec::ArrayVec;
use std::io::Write;
use std::marker::Model;

/// The name of a chain. Names are ordered by their bytes.
#[derive(Debug, PartialEq, Eq, PartialOrd, Ord, Drop)]
pub struct Name {
    bytes: ArrayVec<u8, 28>,
}

impl Model for Name {
    ghost use Rattle.std.specs.Prelude.{◌≡◌, ℕ, List, Some};
    ghost use Rattle.fields.specs.values.Name.{name_of};

    ghost Value = { List ℕ };

    ghost view = { λ name. name.bytes.items };

    ghost invariant = { λ name. name_of name.bytes.items ≡ Some name.bytes.items };

    ghost inverse = { λ bytes. record { bytes = record { items = bytes } } };
}

fn is_name_byte(byte: u8) -> bool
    ensures { result ≡ is_name_byte byte }
{
    byte >= 33 && byte <= 126 && byte != b'"'
}

fn all_name_bytes(text: &[u8]) -> bool
    ensures { result ≡ list_all is_name_byte text.now }
{
    text.iter().all(|byte| is_name_byte(*byte))
}

fn has_name_form(text: &[u8]) -> bool
    ensures { result ≡ has_name_form text.now }
{
    !text.is_empty()
        && text.len() <= 28
        && text[0] != b'-'
        && text[0] != b'!'
        && all_name_bytes(text)
}

// Whether the text is a word that targets have for themselves.
fn is_target_word(text: &[u8]) -> bool
    ensures { result ≡ is_target_word text.now }
{
    text == b"ACCEPT".as_slice()
        || text == b"DROP".as_slice()
        || text == b"RETURN".as_slice()
        || text == b"QUEUE".as_slice()
        || text == b"REJECT".as_slice()
        || text == b"LOG".as_slice()
}

impl Name {
    /// The name that a text writes: 1 to 28 bytes of 33 to 126 without `"`, which don't begin with
    /// `-` or `!` and aren't ACCEPT, DROP, RETURN, QUEUE, REJECT or LOG.
    ///
    /// The names of the built-in chains are names too.
    #[tactic(auto, unfolding(crate::specs::values::Name::name_of))]
    pub fn read(text: &[u8]) -> Option<Name>
        ensures { result ≡ name_of text.now }
    {
        if !has_name_form(text) || is_target_word(text) {
            return None;
        }
        let bytes = ArrayVec::try_from(text).ok()?;
        Some(Name { bytes })
    }

    /// The bytes of the name.
    pub fn bytes(&self) -> &[u8]
        ensures value { result.now ≡ self.now }
        ensures reads_back { name_of self.now ≡ Some self.now }
    {
        self.bytes.as_slice()
    }

    /// The same name again. It takes no memory.
    pub fn copy(&self) -> Name
        ensures { result ≡ self.now }
    {
        Name {
            bytes: copied(&self.bytes),
        }
    }

    /// Writes the name as it was read. It needs no quotes. It takes no memory.
    pub fn put<W: Write>(&self, output: &mut Tap<W>) -> Result<(), WriteFailed>
        ensures puts { Puts W.contents output.old output.new result self.now }
        ensures word { IsBareWord self.now }
    {
        output.put(self.bytes.as_slice())
    }
}
