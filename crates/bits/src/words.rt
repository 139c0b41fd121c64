//! Bits moved within words and from word to word.

ghost use Rattle.std.specs.Prelude.{◌≡◌, ◌≢◌, ◌++◌, ◌∷◌, [], ◌<◌, ◌≤◌, ◌+◌, ◌*◌, length, false, insert, remove, slice_set, slice_index, slice_index_or, take, ℕ, IsTrue, ◌↔◌};
ghost use Rattle.bits.specs.steps.Packing.{word_bits, all_bits, low_bit, top_bit, AreAlikeBeside, IsPacked};
ghost use Rattle.bits.specs.steps.StoredRows.{words_of};

use crate::row_words::RowWords;

/// The bit at a place of some words.
pub(crate) fn bit_at(words: &[u64], at: usize) -> bool
    requires { at < 64 * length words.now }
    ensures { result ≡ slice_index_or (all_bits words.now) at false }
{
    (words[at / 64] >> (at % 64)) % 2 == 1
}

/// Whether the words of two rows of one length have equal bits.
pub(crate) fn same_bits(one: &RowWords<'_>, other: &RowWords<'_>) -> bool
    requires { (len : ℕ) × IsPacked (words_of one.now) len × IsPacked (words_of other.now) len }
    ensures { (len : ℕ) → IsPacked (words_of one.now) len → IsPacked (words_of other.now) len
        → (IsTrue result ↔ (take len (all_bits (words_of one.now)) ≡ take len (all_bits (words_of other.now)))) }
{
    for k in 0..one.len() {
        let word = one.word(k);
        let others = other.word(k);
        if word != others {
            return false;
        }
    }
    true
}

// Whether two words, each the k-th of a row, have equal bits beside those at a place of the rows.
fn same_word_beside(word: u64, other: u64, k: usize, at: usize) -> bool
    ensures { IsTrue result ↔ ((r : ℕ) → r < 64 → 64 * k + r ≢ at
        → slice_index_or (word_bits 64 word) r false ≡ slice_index_or (word_bits 64 other) r false) }
{
    if word == other {
        return true;
    }
    if k != at / 64 {
        return false;
    }
    let offset = (at % 64) as u32;
    set_bit(word, offset, false) == set_bit(other, offset, false)
}

/// Whether the words of two rows have equal bits beside those at one place.
pub(crate) fn same_beside(one: &RowWords<'_>, other: &RowWords<'_>, at: usize) -> bool
    requires { length (words_of one.now) ≡ length (words_of other.now) }
    ensures { IsTrue result ↔ AreAlikeBeside at (64 * length (words_of one.now)) (all_bits (words_of one.now)) (all_bits (words_of other.now)) }
{
    for k in 0..one.len() {
        if !same_word_beside(one.word(k), other.word(k), k, at) {
            return false;
        }
    }
    true
}

// Puts a bit into a word: the later bits move up, and the highest falls out.
pub(crate) fn insert_bit(word: u64, offset: u32, bit: bool) -> u64
    requires { offset < 64 }
    ensures { word_bits 64 result ++ top_bit word ∷ [] ≡ insert (word_bits 64 word) offset bit }
{
    let low = word & ((1 << offset) - 1);
    let high = ((word >> offset) << 1) | u64::from(bit);
    (high << offset) | low
}

// Takes a bit out of a word: the later bits move down, and `top` comes in as the highest.
pub(crate) fn remove_bit(word: u64, offset: u32, top: bool) -> u64
    requires { offset < 64 }
    ensures { word_bits 64 result ≡ remove (word_bits 64 word) offset ++ top ∷ [] }
{
    let low = word & ((1 << offset) - 1);
    let high = (word >> offset) >> 1;
    (u64::from(top) << 63) | ((high << offset) | low)
}

// Writes a bit of a word.
pub(crate) fn set_bit(word: u64, offset: u32, bit: bool) -> u64
    requires { offset < 64 }
    ensures { word_bits 64 result ≡ slice_set (word_bits 64 word) offset bit }
{
    if bit {
        return word | 1 << offset;
    }
    word & !(1 << offset)
}

// Moves the bits of a word up by one: the highest bit of the word below comes in first.
pub(crate) fn shift_up(word: u64, below: u64) -> u64
    ensures { word_bits 64 result ++ top_bit word ∷ [] ≡ top_bit below ∷ word_bits 64 word }
{
    (word << 1) | (below >> 63)
}

// Moves the bits of a word down by one: the lowest bit of the word above comes in last.
pub(crate) fn shift_down(word: u64, above: u64) -> u64
    ensures { word_bits 64 result ≡ remove (word_bits 64 word) 0 ++ low_bit above ∷ [] }
{
    (above << 63) | (word >> 1)
}

// Puts a bit in at a place: the later bits move up, from word to word, and the last falls out.
pub(crate) fn shift_in(words: &mut [u64], at: usize, bit: bool) -> bool
    requires { at ≤ 64 * length words.old }
    ensures { all_bits words.new ++ result ∷ [] ≡ insert (all_bits words.old) at bit }
{
    let first = at / 64;
    if first >= words.len() {
        return bit;
    }
    let mut below = words[first];
    words[first] = insert_bit(below, (at % 64) as u32, bit);
    for k in first + 1..words.len() {
        let word = words[k];
        words[k] = shift_up(word, below);
        below = word;
    }
    below >> 63 == 1
}

// The word at a place, or 0 past the last.
pub(crate) fn word_at(words: &[u64], place: usize) -> u64
    ensures { result ≡ slice_index words.now place }
{
    match words.get(place) {
        Some(word) => *word,
        None => 0,
    }
}

// Takes the bit at a place out: the later bits move down, from word to word, and a 0 comes in last. Each word is made of two
// that stand as before, so that the compiler moves several at once.
pub(crate) fn shift_out(words: &mut [u64], at: usize)
    requires { at < 64 * length words.old }
    ensures { all_bits words.new ≡ remove (all_bits words.old) at ++ false ∷ [] }
{
    let first = at / 64;
    let above = word_at(words, first + 1);
    words[first] = remove_bit(words[first], (at % 64) as u32, above % 2 == 1);
    let last = words.len() - 1;
    for k in first + 1..last {
        words[k] = shift_down(words[k], words[k + 1]);
    }
    if first < last {
        words[last] = shift_down(words[last], 0);
    }
}
