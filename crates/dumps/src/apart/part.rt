//! A part of a line: an option with its values.
use crate::options::row::OptionRow;
use fields::WordSlice;

/// An optional `!`, an option and its values, as they stand in the line, with the row of the option.
#[derive(Clone, Copy)]
pub struct Part<'a> {
    /// Whether `!` stands before it.
    pub inverted: bool,
    /// The option, as it is spelled.
    pub option: &'a [u8],
    /// The words of its values.
    pub values: WordSlice<'a>,
    /// What the option is, and whose.
    pub row: OptionRow<'a>,
}

impl<'a> Part<'a> {
    ghost use Rattle.std.specs.Prelude.{◌≡◌};
    ghost use Rattle.fields.specs.text.WordSlice.{words_in};
    ghost use Rattle.dumps.specs.Parts.{first_of};

    // The first value, or the empty word.
    pub(crate) fn value(&self) -> &'a [u8]
        ensures { result.now ≡ first_of (words_in self.now.values) }
    {
        match self.values.split_first() {
            None => return b"".as_slice(),
            Some((word, _)) => return word,
        }
    }
}
