//! The words that open a restore among the lines of a session: its options, and the line that ends it.
ghost use Rattle.std.specs.Prelude.{◌≡◌, ◌≤◌, drop, length};
ghost use Rattle.sessions.specs.line.Request.{ended_by, is_end_word, joined, opening_of, option_of, options_of};

use arrayvec::ArrayVec;
use fields::Words;
use std::marker::Model;

/// The line that ends a restore, of 1 to 64 bytes.
#[derive(Drop)]
pub(crate) struct EndWord {
    bytes: ArrayVec<u8, 64>,
}

impl Model for EndWord {
    ghost use Rattle.std.specs.Prelude.{ℕ, List, length, ◌≤◌};

    ghost Value = { List ℕ };

    ghost view = { λ word. word.bytes.items };

    ghost invariant = { λ word. length word.bytes.items ≤ 64 };

    ghost inverse = { λ bytes. record { bytes = record { items = bytes } } };
}

impl EndWord {
    // The bytes of the line.
    pub(crate) fn bytes(&self) -> &[u8]
        ensures value { result.now ≡ self.now }
        ensures few { length self.now ≤ 64 }
    {
        self.bytes.as_slice()
    }
}

// The options of a restore: whether it keeps the table, and whether it puts none in place.
#[derive(Clone, Copy)]
pub(crate) struct Options {
    pub(crate) noflush: bool,
    pub(crate) test: bool,
}

// A restore's options, and the line that ends it.
#[derive(Drop)]
pub(crate) struct Opening {
    pub(crate) options: Options,
    pub(crate) word: EndWord,
}

// A word that is an option.
fn option_of(word: &[u8]) -> Option<Options>
    ensures { result ≡ option_of word.now }
{
    if word == b"-n".as_slice() || word == b"--noflush".as_slice() {
        return Some(Options {
            noflush: true,
            test: false,
        });
    }
    if word == b"-t".as_slice() || word == b"--test".as_slice() {
        return Some(Options {
            noflush: false,
            test: true,
        });
    }
    None
}

// Two options, of which neither is given twice.
fn joined(first: Options, second: Options) -> Option<Options>
    ensures { result ≡ joined first second }
{
    if first.noflush && second.noflush || first.test && second.test {
        return None;
    }
    Some(Options {
        noflush: first.noflush || second.noflush,
        test: first.test || second.test,
    })
}

// Whether a word is `<<` and 1 to 64 bytes.
fn is_end_word(word: &[u8]) -> bool
    ensures { result ≡ is_end_word word.now }
{
    word.starts_with(b"<<") && word.len() > 2 && word.len() <= 66
}

// These options, and the end word.
fn ended_by(word: &[u8], options: Options) -> Option<Opening>
    ensures { result ≡ ended_by word.now options }
{
    if !is_end_word(word) {
        return None;
    }
    let bytes = ArrayVec::try_from(&word[2..]).ok()?;
    Some(Opening {
        options,
        word: EndWord { bytes },
    })
}

// The options of two words.
fn options_of(first: &[u8], second: &[u8]) -> Option<Options>
    ensures { result ≡ options_of first.now second.now }
{
    joined(option_of(first)?, option_of(second)?)
}

impl Opening {
    // What the words after the first say: no option, one, or both in either order, and then the end word. It takes no
    // memory.
    pub(crate) fn read(words: &Words) -> Option<Opening>
        ensures { result ≡ opening_of (drop 1 words.now) }
    {
        match words.len() {
            2 => ended_by(
                words.get(1),
                Options {
                    noflush: false,
                    test: false,
                },
            ),
            3 => ended_by(words.get(2), option_of(words.get(1))?),
            4 => ended_by(words.get(3), options_of(words.get(1), words.get(2))?),
            _ => None,
        }
    }
}
