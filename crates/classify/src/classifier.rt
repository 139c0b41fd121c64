//! The classifier: the lines of all fields, and the edits of the list of boxes.

ghost use Rattle.std.specs.Prelude.{◌≡◌, ◌≢◌, ◌≤◌, ◌+◌, ◌%◌, OnOk, OnErr, IsOk, IfOk, List, [], ◌<◌, map, insert, remove, slice_set};
ghost use Rattle.fields.specs.numbers.Spans.{SpanSet};
ghost use Rattle.fields.specs.numbers.Field.{index};
ghost use Rattle.rules.specs.Boxed.{IsBoxOf};
ghost use Rattle.rules.specs.rule.Allows.{allows_each};
ghost use Rattle.rules.specs.rule.Rules.{Rule};
ghost use Rattle.classify.specs.NextMatch.{next_match};

use crate::classifier::candidates::Candidates;
use crate::line::owned::OwnedLine;
use crate::line::view::Line;
use arrayvec::ArrayVec;
use bits::MOST_BITS;
use fields::{FIELDS, Field};
use rules::Boxed;
use std::alloc::{AllocError, Global};
use std::array;
use std::marker::Model;

pub(crate) mod candidates;
pub(crate) mod lines;
pub(crate) mod of_rules;
pub(crate) mod rows;
pub(crate) mod whole;

/// The classifier of a list of boxes: on each field the line of their answers, and no more. A line is cut exactly
/// where some box's answer changes, and the row of each piece between two cuts is their answers. Places count from 0.
///
/// A box put in at the end costs the pieces that it allows. So does one put in at the front: it takes one of the
/// blank places that stand before the rows. A box taken out at the front leaves one. Where there is none, a box put
/// in at the front makes two words of them, by one move of all words. A box put in elsewhere moves the words of all
/// rows from its place on, but passes over words that allow nothing. Where a line then has no room after its rows, it
/// turns two words of blank places into room, by one move of all words; with fewer it takes twice the room, or, where
/// that memory is refused, moves all rows by one bit.
///
/// The rows of a line have one room, which doubles: then its rows are copied. A replacement looks at each piece of
/// each line. A removal asks one bit of each piece, and compares two rows where that bit changes; at the front it
/// writes a 0 into each row, and elsewhere it moves words as an insert does. A cut is made or goes only where the
/// box's own answers change; it moves the starts after it on that line, and copies one row. Both cuts of an interval
/// that lies within one piece move them once.
#[derive(Drop)]
pub struct Classifier {
    len: usize,
    lines: [OwnedLine; FIELDS],
    // The lines that are marked are whole: a search leaves them out.
    marks: [bool; FIELDS],
    // The places of the lines that it looks at.
    others: ArrayVec<usize, FIELDS>,
}

impl Model for Classifier {
    ghost use Rattle.std.specs.Prelude.{map};
    ghost use Rattle.classify.specs.Classifier.{ClassifiedAndRoom};

    ghost Value = { ClassifiedAndRoom };

    ghost use Rattle.classify.specs.steps.Fields.{shown_line, room_beside, IsKept};
    ghost use Rattle.classify.specs.steps.Kept.{AreMarked, AreOthers};

    ghost view = { λ c. record {
      shown = record { len = c.len; lines = map shown_line c.lines };
      room = room_beside c.len c.lines;
    } };

    ghost invariant = { λ c. IsKept c.len c.lines × AreMarked c.marks c.lines × AreOthers c.marks c.others.items };
}

impl Classifier {
    ghost use Rattle.classify.specs.Classifier.{IsClassifierOf, IsClassifierOfRules, EditsBoxes, EditsRules, lines_of, HasNoNewCut, line_on, IsPoint, box_matches};

    /// The classifier of no box.
    ///
    /// # Errors
    ///
    /// `AllocError` where memory was refused.
    pub fn new(alloc: Global) -> Result<Classifier, AllocError>
        ensures boxes { IfOk result (λ classifier. IsClassifierOf [] classifier.shown) }
        ensures rules { IfOk result (λ classifier. IsClassifierOfRules [] classifier.shown) }
    {
        let lines: [OwnedLine; FIELDS] = array::try_from_fn(|_| OwnedLine::open(alloc))?;
        let marks = [true; FIELDS];
        Ok(Classifier {
            len: 0,
            lines,
            marks,
            others: whole::others(&marks),
        })
    }

    /// A classifier with the same lines. It costs the memory of the rows and of their room.
    ///
    /// # Errors
    ///
    /// `AllocError` where memory was refused.
    pub fn copy(&self, alloc: Global) -> Result<Classifier, AllocError>
        ensures { IfOk result (λ classifier. classifier.shown ≡ self.now.shown) }
    {
        let lines: [OwnedLine; FIELDS] = self.lines.each_ref().try_map(|line| line.copy(alloc))?;
        Ok(Classifier {
            len: self.len,
            lines,
            marks: self.marks,
            others: whole::others(&self.marks),
        })
    }

    /// How many boxes there are. Where that is no multiple of 64, there is room for one more.
    pub fn len(&self) -> usize
        ensures len { result ≡ self.now.shown.len }
        ensures room { result % 64 ≢ 0 → 0 < self.now.room }
    {
        self.len
    }

    /// The line of a field; it is lent.
    pub fn line(&self, field: Field) -> Line<'_>
        ensures line { result ≡ line_on field self.now.shown }
        ensures rules { (rules : List Rule) → IsClassifierOfRules rules self.now.shown → result ≡ lines_of rules field }
    {
        let line = &self.lines[field.index()];
        Line::of(line)
    }

    /// Puts a box in at a place, at most `len`: the later ones move up by one. It takes the box, also where memory is
    /// refused. A box that brings no new cut uses the room of one box.
    ///
    /// # Errors
    ///
    /// `AllocError` where memory was refused: the boxes are as before, and no room is lost. It succeeds where there
    /// is room and the box brings no new cut. There is room where the number of boxes is no multiple of 64, and after
    /// `remove`.
    pub fn insert(&mut self, at: usize, boxed: Boxed) -> Result<(), AllocError>
        requires { at ≤ self.old.shown.len }
        ensures boxes { OnOk result (EditsBoxes (λ boxes. insert boxes at boxed) self.old.shown self.new.shown) }
        ensures rules { OnOk result ((rule : Rule) → IsBoxOf rule boxed
            → EditsRules (λ rules. insert rules at rule) self.old.shown self.new.shown) }
        ensures err { OnErr result (self.new.shown ≡ self.old.shown) }
        ensures kept { OnErr result (self.old.room ≤ self.new.room) }
        ensures there { 0 < self.old.room → HasNoNewCut boxed self.old.shown → IsOk result }
        ensures part { self.old.shown.len % 64 ≢ 0 → HasNoNewCut boxed self.old.shown → IsOk result }
        ensures room { OnOk result (HasNoNewCut boxed self.old.shown → self.old.room ≤ self.new.room + 1) }
    {
        if self.len >= MOST_BITS {
            return Err(AllocError);
        }
        lines::insert_lines(&mut self.lines, self.len, at, boxed.spans())?;
        whole::unmark(&mut self.marks, boxed.spans());
        self.others = whole::others(&self.marks);
        self.len += 1;
        Ok(())
    }

    /// Puts a box in the place, below `len`, of another. It takes the box, also where memory is refused. A box that
    /// brings no new cut uses no room.
    ///
    /// # Errors
    ///
    /// `AllocError` where memory was refused: the boxes are as before, and no room is lost. It succeeds where the box
    /// brings no new cut.
    pub fn replace(&mut self, at: usize, boxed: Boxed) -> Result<(), AllocError>
        requires { at < self.old.shown.len }
        ensures boxes { OnOk result (EditsBoxes (λ boxes. slice_set boxes at boxed) self.old.shown self.new.shown) }
        ensures rules { OnOk result ((rule : Rule) → IsBoxOf rule boxed
            → EditsRules (λ rules. slice_set rules at rule) self.old.shown self.new.shown) }
        ensures err { OnErr result (self.new.shown ≡ self.old.shown) }
        ensures kept { OnErr result (self.old.room ≤ self.new.room) }
        ensures there { HasNoNewCut boxed self.old.shown → IsOk result }
        ensures room { OnOk result (HasNoNewCut boxed self.old.shown → self.old.room ≤ self.new.room) }
    {
        lines::replace_lines(&mut self.lines, self.len, at, boxed.spans())?;
        whole::unmark(&mut self.marks, boxed.spans());
        self.others = whole::others(&self.marks);
        Ok(())
    }

    /// Takes the box at a place, below `len`, out: the later ones move down by one. It takes no memory, and leaves
    /// room for one more box.
    pub fn remove(&mut self, at: usize)
        requires { at < self.old.shown.len }
        ensures boxes { EditsBoxes (λ boxes. remove boxes at) self.old.shown self.new.shown }
        ensures rules { EditsRules (λ rules. remove rules at) self.old.shown self.new.shown }
        ensures room { self.old.room < self.new.room }
    {
        lines::remove_lines(&mut self.lines, at);
        self.len -= 1;
    }

    /// Takes every box out. It takes no memory, and leaves room for as many more boxes.
    pub fn clear(&mut self)
        ensures boxes { IsClassifierOf [] self.new.shown }
        ensures rules { IsClassifierOfRules [] self.new.shown }
        ensures room { self.old.room + self.old.shown.len ≤ self.new.room }
    {
        lines::clear_lines(&mut self.lines);
        self.marks = [true; FIELDS];
        self.others = whole::others(&self.marks);
        self.len = 0;
    }

    /// Which boxes allow a point, as a list of bits, one a box. The point has a number for each field, in the order
    /// of `Field::ALL`, each at most the field's top.
    ///
    /// It takes no memory and copies no row. It costs a search for a place on each line but those marked as whole.
    #[inline(always)]
    pub fn at(&self, point: &[u128; FIELDS]) -> Candidates<'_>
        requires { IsPoint point.now }
        ensures boxes { (boxes : List (List SpanSet)) → IsClassifierOf boxes self.now.shown
            → result ≡ map (box_matches point.now) boxes }
        ensures rules { (rules : List Rule) → IsClassifierOfRules rules self.now.shown
            → result ≡ map (allows_each point.now) rules }
    {
        let len = self.len;
        // A line that isn't among these has every bit in each row: what the others have in common it has.
        let others = self.others.as_slice();
        let mut places = [0; FIELDS];
        for i in 0..others.len() {
            let field = others[i];
            places[i] = self.lines[field].place_at(point[field]);
        }
        Candidates {
            lines: &self.lines,
            others,
            places,
            len,
        }
    }

    /// The least place, at or after `from`, of a box that allows the point; there may be none. The point is as in
    /// `at`. What a rule tests on several fields at once isn't tested: the place is that of a candidate. It takes no
    /// memory, and costs what `at` and one `Candidates::next` do.
    pub fn next(&self, point: &[u128; FIELDS], from: usize) -> Option<usize>
        requires { IsPoint point.now }
        ensures boxes { (boxes : List (List SpanSet)) → IsClassifierOf boxes self.now.shown
            → result ≡ next_match (box_matches point.now) boxes from }
        ensures rules { (rules : List Rule) → IsClassifierOfRules rules self.now.shown
            → result ≡ next_match (allows_each point.now) rules from }
    {
        self.at(point).next(from)
    }
}
