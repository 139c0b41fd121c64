//! Some of the words of a line, lent.
ghost use Rattle.std.specs.Prelude.{◌≡◌, ◌∷◌, ◌≤◌, true, length, slice_index};
ghost use Rattle.fields.specs.text.Words.{do_rise};

/// Some words of a line, one after another, lent by the `Words` that have them. No call takes memory.
#[derive(Clone, Copy)]
pub struct WordSlice<'a> {
    bytes: &'a [u8],
    from: usize,
    ends: &'a [usize],
    ghost rise: { do_rise from ends.now (length bytes.now) ≡ true },
}

// Where the word at a place begins: where the one before it ends, and the first at `from`. Also where one would begin after
// the last.
fn start_of(from: usize, ends: &[usize], place: usize) -> usize
    requires { place ≤ length ends.now }
    ensures { result ≡ slice_index (from ∷ ends.now) place }
{
    if place == 0 { from } else { ends[place - 1] }
}

impl<'a> WordSlice<'a> {
    ghost use Rattle.std.specs.Prelude.{◌≡◌, ◌<◌, ◌≤◌, ◌↔◌, ◌∷◌, [], length, take, drop, true, slice_get, Some, IsTrue, MatchOption};
    ghost use Rattle.fields.specs.text.Words.{do_rise, words_to};
    ghost use Rattle.fields.specs.text.WordSlice.{words_in};

    // All words of the bytes, by their ends.
    pub(crate) fn new(bytes: &'a [u8], ends: &'a [usize]) -> WordSlice<'a>
        requires { do_rise 0 ends.now (length bytes.now) ≡ true }
        ensures { words_in result ≡ words_to bytes.now 0 ends.now }
    {
        WordSlice {
            bytes,
            from: 0,
            ends,
        }
    }

    /// How many words there are.
    pub fn len(self) -> usize
        ensures { result ≡ length (words_in self.entry) }
    {
        self.ends.len()
    }

    /// Whether there is no word.
    pub fn is_empty(self) -> bool
        ensures { IsTrue result ↔ (words_in self.entry ≡ []) }
    {
        self.ends.is_empty()
    }

    /// The bytes of the word at a place, counted from 0 and below `len`.
    pub fn get(self, place: usize) -> &'a [u8]
        requires { place < length (words_in self) }
        ensures { slice_get (words_in self.entry) place ≡ Some result.now }
    {
        &self.bytes[start_of(self.from, self.ends, place)..self.ends[place]]
    }

    /// The bytes of the first word and the words after it, if there is a word.
    pub fn split_first(self) -> Option<(&'a [u8], WordSlice<'a>)>
        ensures { MatchOption result (words_in self.entry ≡ [])
            (λ split. words_in self.entry ≡ split.0.now ∷ words_in split.1) }
    {
        match self.ends {
            [] => None,
            [end, ends @ ..] => {
                let word = &self.bytes[self.from..*end];
                let after = WordSlice {
                    bytes: self.bytes,
                    from: *end,
                    ends,
                };
                Some((word, after))
            }
        }
    }

    /// The first `count` words, of at least as many, and the words after them.
    pub fn split_at(self, count: usize) -> (WordSlice<'a>, WordSlice<'a>)
        requires { count ≤ length (words_in self) }
        ensures first { words_in result.0 ≡ take count (words_in self.entry) }
        ensures after { words_in result.1 ≡ drop count (words_in self.entry) }
    {
        let first = WordSlice {
            bytes: self.bytes,
            from: self.from,
            ends: &self.ends[..count],
        };
        let after = WordSlice {
            bytes: self.bytes,
            from: start_of(self.from, self.ends, count),
            ends: &self.ends[count..],
        };
        (first, after)
    }
}
