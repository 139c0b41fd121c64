//! The text of a comment.
ghost use Rattle.std.specs.Prelude.{◌≡◌, ◌≤◌, length, false, IfOk, Ok};
ghost use Rattle.rules.specs.options.OptionValues.{text_within};
ghost use Rattle.fields.specs.text.Tap.{has_failed, Puts};
ghost use Rattle.fields.specs.values.FreeText.{quoted};
ghost use Rattle.rules.specs.Sequence.{Gives, RefusesFirst};

use crate::options::value::text_within;
use crate::reading::fault::RuleFault;
use fields::{Tap, Text, WriteFailed};
use std::alloc::{AllocError, Global};
use std::io::Write;
use std::marker::Model;

// A comment of at most 256 bytes, in memory of its own, so that other values stay small.
#[derive(Drop)]
pub(crate) struct Comment {
    text: Box<Text<256>>,
}

impl Model for Comment {
    ghost use Rattle.std.specs.Prelude.{ℕ, List};

    ghost Value = { List ℕ };

    ghost view = { λ comment. comment.text.value };
}

impl PartialEq for Comment {
    ghost use Rattle.std.specs.Prelude.{nat_eq};
    ghost use Rattle.std.specs.Cmp.Lexicographic.{pointwise, nat_list_eq_equiv};
    ghost use Rattle.std.specs.Cmp.{partial_equiv_from_equiv};

    ghost eq = { pointwise nat_eq };

    ghost laws = { partial_equiv_from_equiv nat_list_eq_equiv };

    fn eq(&self, other: &Self) -> bool {
        self.bytes() == other.bytes()
    }
}

impl Comment {
    // The comment of these bytes; it is refused before memory is taken.
    pub(crate) fn read(alloc: Global, bytes: &[u8]) -> Result<Comment, RuleFault>
        ensures gives { Gives (λ x. x) result (text_within 256 bytes.now) }
        ensures refuses { RefusesFirst result (text_within 256 bytes.now) }
    {
        let text = text_within(bytes)?;
        match Box::new(alloc, text) {
            Ok(text) => Ok(Comment { text }),
            Err(_) => Err(RuleFault::NoMemory),
        }
    }

    // The bytes of the comment.
    pub(crate) fn bytes(&self) -> &[u8]
        ensures { result.now ≡ self.now }
    {
        self.text.bytes()
    }

    // The same comment again.
    pub(crate) fn copy(&self, alloc: Global) -> Result<Comment, AllocError>
        ensures { IfOk result (λ copy. copy ≡ self.now) }
    {
        let text = Box::new(alloc, self.text.copy())?;
        Ok(Comment { text })
    }

    // Writes the comment as one word.
    pub(crate) fn put<W: Write>(&self, output: &mut Tap<W>) -> Result<(), WriteFailed>
        requires { has_failed output.old ≡ false }
        ensures { Puts W.contents output.old output.new result (quoted self.now) }
    {
        self.text.put(output)
    }
}
