//! The words of a line, in one buffer, with the places where they end.
ghost use Rattle.std.specs.Prelude.{◌≡◌, ◌<◌, ◌≤◌, ◌↔◌, ℕ, List, [], length, drop, slice_get, IsTrue, Some, None, MatchResult, OnOk, IfOk, IfErr};
ghost use Rattle.fields.specs.text.Line.{IsOneLine, AreOneLine};
ghost use Rattle.fields.specs.text.Words.{words_of, AreWords, OnQuoting};
ghost use Rattle.fields.specs.text.WordSlice.{words_in};

use crate::text::cutting::Cutting;
use crate::text::word_slice::WordSlice;
use std::alloc::Global;
use std::marker::Model;
use thiserror::Error;

/// Why a line has no words.
#[derive(Clone, Copy, Debug, PartialEq, Eq, Error)]
pub enum WordFault {
    /// A `"` is left open, stands inside an unquoted word, or is followed by more of a word.
    #[error("bad quoting")]
    Quoting,
    /// No memory was given for the words.
    #[error("no memory")]
    NoMemory,
}

/// The words of a line, in their order.
#[derive(Drop)]
pub struct Words {
    bytes: Vec<u8>,
    ends: Vec<usize>,
}

impl Model for Words {
    ghost use Rattle.std.specs.Prelude.{◌≡◌, ℕ, List, true, length};
    ghost use Rattle.fields.specs.text.Line.{AreOneLine};
    ghost use Rattle.fields.specs.text.Words.{words_to, do_rise};

    ghost Value = { List (List ℕ) };

    ghost view = { λ words. words_to words.bytes.items 0 words.ends.items };

    ghost invariant = { λ words. (do_rise 0 words.ends.items (length words.bytes.items) ≡ true)
        × AreOneLine (words_to words.bytes.items 0 words.ends.items) };
}

impl Words {
    /// Cuts a line into its words (iptables-restore(8)).
    ///
    /// Words are separated by blanks (32) and tabs (9) alone. A word is a run of bytes without blank, tab and `"`, or
    /// a text between two `"`, in which a backslash before any byte gives that byte; so `""` is the empty word. A
    /// quoted word is followed by a blank, a tab or the line's end. A line with a newline has no words, and no word
    /// has one.
    ///
    /// # Errors
    ///
    /// `Quoting` where the line has no words, `NoMemory` where an allocation was refused.
    ///
    /// # Cost
    ///
    /// One pass: linear in the length of the line. Two allocations, however many words it has: one for their bytes
    /// and one for the places where they end, each with room for what a line of that length can have.
    pub fn split(alloc: Global, line: &[u8]) -> Result<Words, WordFault>
        // The function that finds the words of a line says what comes.
        ensures exact { MatchResult result (λ words. words_of line.now ≡ Some words)
            (λ fault. OnQuoting fault (words_of line.now ≡ None)) }

        // What comes are the words that the line is made of, and there are no others.
        ensures found { IfOk result (λ words. AreWords words line.now) }
        ensures only { (words : List (List ℕ)) → AreWords words line.now
            → MatchResult result (λ found. found ≡ words) (λ fault. fault ≡ WordFault.NoMemory) }
        ensures quoting { IfErr result
            (λ fault. OnQuoting fault ((words : List (List ℕ)) → ¬ AreWords words line.now)) }

        // That function finds what the line is made of.
        ensures law { (words : List (List ℕ))
            → (words_of line.now ≡ Some words) ↔ AreWords words line.now }

        // A line with a newline has no words, and no word has one.
        ensures one_line { OnOk result (IsOneLine line.now) }
        ensures words_in_line { IfOk result AreOneLine }
    {
        let cutting = Cutting::of(alloc, line)?;
        Ok(Words {
            bytes: cutting.bytes,
            ends: cutting.ends,
        })
    }

    // All words.
    fn all(&self) -> WordSlice<'_>
        ensures value { words_in result ≡ self.now }
        ensures one_line { AreOneLine self.now }
    {
        WordSlice::new(self.bytes.as_slice(), self.ends.as_slice())
    }

    /// The words from a place on, counted from 0, lent: none from beyond the last word.
    pub fn after(&self, from: usize) -> WordSlice<'_>
        ensures value { words_in result ≡ drop from self.now }
        ensures one_line { AreOneLine self.now }
    {
        let words = self.all();
        words.split_at(from.min(words.len())).1
    }

    /// How many words there are.
    pub fn len(&self) -> usize
        ensures { result ≡ length self.now }
    {
        self.all().len()
    }

    /// Whether there is no word.
    pub fn is_empty(&self) -> bool
        ensures { IsTrue result ↔ (self.now ≡ []) }
    {
        self.all().is_empty()
    }

    /// The bytes of the word at a place, counted from 0 and below `len`, without quotes and escapes.
    pub fn get(&self, place: usize) -> &[u8]
        requires { place < length self.now }
        ensures value { slice_get self.now place ≡ Some result.now }
        ensures one_line { IsOneLine result.now }
    {
        self.all().get(place)
    }
}
