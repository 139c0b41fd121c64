//! The rows of a point's pieces, and the search for a box that all of them have.

ghost use Rattle.std.specs.Prelude.{◌≡◌, ℕ, length, map, take};
ghost use Rattle.fields.specs.declared.numbers.field.TheConstants.{FIELDS};
ghost use Rattle.classify.specs.NextMatch.{next_match};
ghost use Rattle.classify.specs.steps.CommonPlaces.{AreRowsOf, rows_found, AreFound, IsOfAll};
ghost use Rattle.classify.specs.steps.Fields.{shown_line, EachLine};

use crate::line::owned::OwnedLine;
use crate::search;
use bits::{RowWords, TurnedWords};
use fields::FIELDS;
use std::marker::Model;

/// A row without a word.
#[inline(always)]
pub(crate) fn blank<'a>() -> TurnedWords<'a> {
    let none = RowWords {
        start: 0,
        count: 0,
        kept: &[],
    };
    TurnedWords {
        own: none,
        turn: none,
        summary: 0,
    }
}

/// Lends the rows of pieces: for each of some lines, that at its place. They have one margin, where all lines have one. It answers
/// with their summary, which has the bit of each word that all of theirs have.
#[inline(always)]
pub(crate) fn lend<'a>(
    lines: &'a [OwnedLine],
    others: &[usize],
    places: &[u32; FIELDS],
    rows: &mut [TurnedWords<'a>; FIELDS],
) -> u64
    requires found { AreFound (map shown_line lines.now) others.now places.now }
    requires fields { length lines.now ≡ FIELDS }
    requires long { length rows.old ≡ FIELDS }
    ensures long { length rows.new ≡ FIELDS }
    ensures rows { (margin : ℕ) → EachLine (λ l. l.room.before ≡ margin) lines.now → AreRowsOf margin
        (rows_found (map shown_line lines.now) others.now places.now) (length others.now) (take (length others.now) rows.new) }
    ensures summed { IsOfAll result (take (length others.now) rows.new) }
{
    let mut summary = u64::MAX;
    for i in 0..others.len() {
        let row = lines[others[i]].row(places[i] as usize);
        rows[i] = row;
        summary &= row.summary;
    }
    summary
}

/// Whether each box allows a point, at the box's place, as what the rows of the point have in common. They are lent: the first
/// `count` are looked at, each of `len` bits after one margin, and they have one summary.
#[derive(Drop)]
pub struct CandidateRows<'a> {
    pub(crate) margin: usize,
    pub(crate) len: usize,
    pub(crate) rows: [TurnedWords<'a>; FIELDS],
    pub(crate) count: usize,
    pub(crate) summary: u64,
}

impl<'a> Model for CandidateRows<'a> {
    ghost use Rattle.std.specs.Prelude.{Bool, List, ◌≤◌, ◌+◌, drop, take};
    ghost use Rattle.fields.specs.declared.numbers.field.TheConstants.{FIELDS};
    ghost use Rattle.classify.specs.steps.CommonPlaces.{common_bits, AreCandidates};

    ghost Value = { List Bool };

    ghost view = { λ c. drop c.margin (common_bits (c.margin + c.len) (take c.count c.rows)) };

    ghost invariant = { λ c. (c.count ≤ FIELDS) × AreCandidates (c.margin + c.len) c.summary (take c.count c.rows) };
}

impl<'a> CandidateRows<'a> {
    /// The least place, at or after `from`, of a box that allows the point; there may be none.
    ///
    /// It takes no memory. It costs a word of each row where all rows may have a box: a row has a summary of 64 bits, one for
    /// two words, which says which words to pass over. Up to 8,192 boxes no two pairs of words share a bit. So to go through
    /// all boxes that allow the point costs the words of the rows, and a look for each box found.
    pub fn next(&self, from: usize) -> Option<usize>
        ensures { result ≡ next_match (λ bit. bit) self.now from }
    {
        let words = (self.margin + self.len).div_ceil(64);
        let rows = &self.rows[..self.count];
        search::first_after(rows, self.summary, words, self.margin, from)
    }
}
