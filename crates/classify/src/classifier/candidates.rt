//! The candidates at a point: the boxes that allow it, as a list of bits that is lent, and the search among them.

ghost use Rattle.std.specs.Prelude.{◌≡◌};
ghost use Rattle.classify.specs.NextMatch.{next_match};

use crate::classifier::rows::{self, CandidateRows};
use crate::line::owned::OwnedLine;
use crate::search;
use fields::FIELDS;
use std::marker::Model;

/// Whether each box allows a point, at the box's place. It keeps what was looked up: the place of the point's piece on each line
/// that a search looks at. The lines are lent.
#[derive(Drop)]
pub struct Candidates<'a> {
    pub(crate) lines: &'a [OwnedLine],
    // The places of the lines that a search looks at.
    pub(crate) others: &'a [usize],
    // The place of a piece on each of these.
    pub(crate) places: [u32; FIELDS],
    pub(crate) len: usize,
}

impl<'a> Model for Candidates<'a> {
    ghost use Rattle.std.specs.Prelude.{Bool, List, map};
    ghost use Rattle.classify.specs.steps.Fields.{shown_line, IsKept};
    ghost use Rattle.classify.specs.steps.CommonPlaces.{in_common, rows_found, AreFound};

    ghost Value = { List Bool };

    ghost view = { λ c. in_common c.len (rows_found (map shown_line c.lines.now) c.others.now c.places) };

    ghost invariant = { λ c. IsKept c.len c.lines.now × AreFound (map shown_line c.lines.now) c.others.now c.places };
}

impl<'a> Candidates<'a> {
    /// The same, with the rows of the pieces, for several searches. It takes no memory and copies no words.
    pub fn rows(&self) -> CandidateRows<'a>
        ensures { result ≡ self.now }
    {
        let mut lent = [rows::blank(); FIELDS];
        let summary = rows::lend(self.lines, self.others, &self.places, &mut lent);
        CandidateRows {
            margin: self.lines[0].margin(),
            len: self.len,
            rows: lent,
            count: self.others.len(),
            summary,
        }
    }

    /// The least place, at or after `from`, of a box that allows the point; there may be none. It takes no memory. It costs what
    /// `rows` and one `CandidateRows::next` do, but moves no row.
    pub fn next(&self, from: usize) -> Option<usize>
        ensures { result ≡ next_match (λ bit. bit) self.now from }
    {
        let mut lent = [rows::blank(); FIELDS];
        let summary = rows::lend(self.lines, self.others, &self.places, &mut lent);
        let margin = self.lines[0].margin();
        let words = (margin + self.len).div_ceil(64);
        let rows = &lent[..self.others.len()];
        search::first_after(rows, summary, words, margin, from)
    }
}
