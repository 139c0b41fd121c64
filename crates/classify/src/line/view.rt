//! The line of a field as it is lent: its pieces, and the row of each.

ghost use Rattle.std.specs.Prelude.{◌≡◌, ◌<◌, length, false, slice_index_or, []};
ghost use Rattle.std.specs.Iterator.{YieldsFirst, item_count};
ghost use Rattle.classify.specs.NextMatch.{next_match};

use crate::line::owned::OwnedLine;
use crate::search;
use bits::TurnedWords;
use std::marker::Model;

/// The answers of each box in a piece, at the box's place.
#[derive(Drop)]
pub struct Row<'a> {
    margin: usize,
    len: usize,
    words: TurnedWords<'a>,
}

impl<'a> Model for Row<'a> {
    ghost use Rattle.std.specs.Prelude.{Bool, List, ◌+◌, take, drop};
    ghost use Rattle.bits.specs.steps.Summaries.{IsSummaryOf};
    ghost use Rattle.classify.specs.steps.CommonPlaces.{ArePacked, bits_of};

    ghost Value = { List Bool };

    ghost view = { λ r. drop r.margin (take (r.margin + r.len) (bits_of r.words)) };

    ghost invariant = { λ r. ArePacked (r.margin + r.len) r.words
        × IsSummaryOf r.words.summary (take (r.margin + r.len) (bits_of r.words)) };
}

impl<'a> Row<'a> {
    /// How many boxes there are.
    pub fn len(&self) -> usize
        ensures { result ≡ length self.now }
    {
        self.len
    }

    /// Whether the box at a place, below `len`, allows the numbers of the piece.
    pub fn get(&self, at: usize) -> bool
        requires { at < length self.now }
        ensures { result ≡ slice_index_or self.now at false }
    {
        let place = self.margin + at;
        self.words.turn.bit(place) != self.words.own.bit(place)
    }

    /// The least place, at or after `from`, of a box that allows the numbers of the piece; there may be none.
    ///
    /// It takes no memory. It passes over words without such a box, mostly many at a time, so a walk from one such box to
    /// the next costs no more than the words of the row and the boxes that it finds.
    pub fn next_set(&self, from: usize) -> Option<usize>
        ensures { result ≡ next_match (λ bit. bit) self.now from }
    {
        let words = self.words;
        search::first_after(&[words], words.summary, words.own.len(), self.margin, from)
    }
}

/// A piece of a line: from its start on, up to the next piece, each box answers as its row says.
#[derive(Drop)]
pub struct Piece<'a> {
    line: &'a OwnedLine,
    place: usize,
}

impl<'a> Model for Piece<'a> {
    ghost use Rattle.std.specs.Prelude.{Bool, List, ℕ, ◌<◌, length, slice_index_or, []};

    ghost Value = { ℕ × List Bool };

    ghost view = { λ p. slice_index_or p.line.now.pieces p.place (0, []) };

    ghost invariant = { λ p. p.place < length p.line.now.pieces };
}

impl<'a> Piece<'a> {
    /// The first number of the piece.
    pub fn start(&self) -> u128
        ensures { result ≡ self.now.0 }
    {
        self.line.start(self.place)
    }

    /// The answers of the boxes; they are lent.
    pub fn row(&self) -> Row<'a>
        ensures { result ≡ self.now.1 }
    {
        let line = self.line;
        let place = self.place;
        Row {
            margin: line.margin(),
            len: line.bits(place),
            words: line.row(place),
        }
    }
}

/// The line of a list of boxes on one field, from 0 to the field's top, lent by a classifier.
#[derive(Drop)]
pub struct Line<'a> {
    line: &'a OwnedLine,
}

impl<'a> Model for Line<'a> {
    ghost use Rattle.std.specs.Prelude.{Bool, List, ℕ};

    ghost Value = { List (ℕ × List Bool) };

    ghost view = { λ l. l.line.now.pieces };
}

impl<'a> Line<'a> {
    // The line as it is kept, lent.
    pub(crate) fn of(line: &'a OwnedLine) -> Line<'a>
        ensures { result ≡ line.now.pieces }
    {
        Line { line }
    }

    /// How many pieces there are: one at least.
    pub fn len(&self) -> usize
        ensures { result ≡ length self.now }
    {
        self.line.len()
    }

    /// The piece at a place, below `len`: their starts rise, and the first is 0.
    pub fn piece(&self, at: usize) -> Piece<'a>
        requires { at < length self.now }
        ensures { result ≡ slice_index_or self.now at (0, []) }
    {
        Piece {
            line: self.line,
            place: at,
        }
    }

    /// The pieces in rising order; the first starts at 0.
    pub fn pieces(&self) -> Pieces<'a>
        ensures { result ≡ self.now }
    {
        Pieces {
            line: self.line,
            next: 0,
        }
    }
}

/// The pieces of a line, one after the other.
#[derive(Drop)]
pub struct Pieces<'a> {
    line: &'a OwnedLine,
    next: usize,
}

impl<'a> Model for Pieces<'a> {
    ghost use Rattle.std.specs.Prelude.{Bool, List, ℕ, drop};

    ghost Value = { List (ℕ × List Bool) };

    ghost view = { λ p. drop p.next p.line.now.pieces };
}

impl<'a> Iterator for Pieces<'a> {
    type Item = Piece<'a>;

    ghost next_gives = { YieldsFirst (λ s. s) };

    ghost remaining = { item_count (λ s. s) };

    fn next(&mut self) -> Option<Piece<'a>> {
        let place = self.next;
        if place >= self.line.len() {
            return None;
        }
        self.next = place + 1;
        Some(Piece {
            line: self.line,
            place,
        })
    }
}
