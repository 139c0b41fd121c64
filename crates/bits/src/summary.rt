//! Summaries of rows: 64 bits that say which words have no bit, so that a search or an edit passes over them. The two
//! words of a pair share a bit of the summary, and so do pairs that are 64 apart.

ghost use Rattle.std.specs.Prelude.{ℕ, ◌≡◌, ◌<◌, ◌≤◌, ◌^◌, ◌+◌, ◌%◌, true, IfSome, IsTrue, ◌↔◌};
ghost use Rattle.bits.specs.steps.Summaries.{Nowhere, FromOn, HasPair, IsMarked};

/// Whether a summary has the bit of a word. Where it hasn't, no bit is in the word.
pub fn is_marked(summary: u64, word: usize) -> bool
    ensures { IsTrue result ↔ IsMarked summary word }
{
    (summary >> (word / 2 % 64)) % 2 == 1
}

/// A summary with the bit of a word as well, where a bit came into that word.
pub(crate) fn marked(summary: u64, word: usize, bit: bool) -> u64
    ensures kept { (k : ℕ) → IsMarked summary k → IsMarked result k }
    ensures more { bit ≡ true → IsMarked result word }
{
    if bit {
        return summary | 1 << (word / 2 % 64);
    }
    summary
}

/// A summary with the bits of the first so many words alone, and of one more where that shares its bit with them; of more
/// than 126 words it is the summary as it was.
pub(crate) fn kept(summary: u64, words: usize) -> u64
    ensures { (k : ℕ) → k < words → IsMarked summary k → IsMarked result k }
{
    if words > 126 {
        return summary;
    }
    summary & ((1 << words.div_ceil(2)) - 1)
}

// The first pair, from one on, that a summary has. Pairs that are 64 apart share their bit, so the whole summary says what
// comes after the bits from the pair's on.
fn next_pair(summary: u64, pair: usize) -> Option<usize>
    requires { pair < 2 ^ 58 }
    ensures first { FromOn (HasPair summary) pair result }
    ensures near { IfSome result (λ n. n < pair + 128) }
{
    let first = 64 * (pair / 64);
    let ahead = summary & (u64::MAX << (pair % 64));
    if ahead != 0 {
        return Some(first + ahead.trailing_zeros() as usize);
    }
    if summary != 0 {
        return Some(first + 64 + summary.trailing_zeros() as usize);
    }
    None
}

/// The first word from `start` on, among `words` of them, whose bit the summary has, or `words` where there is none.
/// There are fewer than 2 to the 58 words, and `start` is at most their number.
pub fn next_marked(summary: u64, start: usize, words: usize) -> usize
    requires few { words < 2 ^ 58 }
    requires within { start ≤ words }
    ensures low { start ≤ result }
    ensures high { result ≤ words }
    ensures none { Nowhere (IsMarked summary) start result }
    ensures next { result < words → IsMarked summary result }
    ensures pairs { start % 2 ≡ 0 → words % 2 ≡ 0 → result % 2 ≡ 0 }
{
    match next_pair(summary, start / 2) {
        Some(pair) => words.min(start.max(2 * pair)),
        None => words,
    }
}
