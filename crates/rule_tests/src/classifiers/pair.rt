//! A classifier beside the plain list of rules that it has to answer for.

use crate::classifiers::dice::Dice;
use crate::classifiers::drafts::{ASKED, ASKED_COUNT, Draft, allows, numbers, text_of};
use crate::classifiers::drawn::edges;
use crate::classifiers::searches::is_point;
use crate::classifiers::texts::boxed;
use classify::{Classifier, Line, Row};
use fields::{FIELDS, Field};
use rules::Boxed;
use std::alloc::Global;
use std::process::Abort;
use std::test::Fail;

// A classifier, and the rules whose boxes were put into it.
#[derive(Drop)]
pub(crate) struct Pair {
    classifier: Classifier,
    drafts: Vec<Draft>,
}

// The box of a rule.
fn boxed_of(alloc: Global, draft: &Draft) -> Result<Boxed, Fail> {
    let text = text_of(alloc, draft)?;
    boxed(alloc, text.as_str())
}

// Whether a row has the rules that allow a number on a field, by each of its bits and by a walk from one to the next.
fn is_row(row: &Row, drafts: &[Draft], field: Field, x: u64) -> bool {
    let mut from = 0;
    for (place, draft) in drafts.iter().enumerate() {
        let is_allowed = allows(draft, field, x);
        if place >= row.len() || row.get(place) != is_allowed {
            return false;
        }
        if is_allowed {
            if row.next_set(from) != Some(place) {
                return false;
            }
            from = place.saturating_add(1);
        }
    }
    row.len() == drafts.len() && row.next_set(from).is_none()
}

// Whether the answer of a rule changes at a number.
fn changes(drafts: &[Draft], field: Field, x: u64) -> bool {
    let before = x.saturating_sub(1);
    drafts.iter().any(|draft| allows(draft, field, before) != allows(draft, field, x))
}

// Whether a line has a piece from 0 on and from each number on at which a rule's answer changes, and no further one, each
// with the row of its first number.
fn is_line(line: &Line, drafts: &[Draft], field: Field) -> bool {
    let mut pieces = line.pieces();
    for x in 0..numbers(field) {
        if x == 0 || changes(drafts, field, x) {
            let Some(piece) = pieces.next() else {
                return false;
            };
            if piece.start() != u128::from(x) || !is_row(&piece.row(), drafts, field, x) {
                return false;
            }
        }
    }
    pieces.next().is_none()
}

// The first rule from a place on that allows the number of each field.
fn first_of(drafts: &[Draft], drawn: &[u64; ASKED_COUNT], from: usize) -> Option<usize> {
    for (place, draft) in drafts.iter().enumerate() {
        if place >= from && (0..ASKED_COUNT).all(|k| allows(draft, ASKED[k], drawn[k])) {
            return Some(place);
        }
    }
    None
}

// The numbers on all fields: 0 on those that no rule asks.
fn point_of(drawn: &[u64; ASKED_COUNT]) -> [u128; FIELDS] {
    let mut point = [0; FIELDS];
    for k in 0..ASKED_COUNT {
        point[ASKED[k].index()] = u128::from(drawn[k]);
    }
    point
}

impl Pair {
    pub(crate) fn new(alloc: Global) -> Result<Pair, Fail> {
        Ok(Pair {
            classifier: Classifier::new(alloc)?,
            drafts: Vec::new(alloc),
        })
    }

    pub(crate) fn len(&self) -> usize {
        self.drafts.len()
    }

    pub(crate) fn insert(
        &mut self,
        rt: &impl Abort,
        alloc: Global,
        at: usize,
        draft: Draft,
    ) -> Result<(), Fail> {
        let boxed = boxed_of(alloc, &draft)?;
        assert!(rt; at <= self.drafts.len());
        assert!(rt; at <= self.classifier.len());
        self.drafts.insert(at, draft)?;
        self.classifier.insert(at, boxed)?;
        Ok(())
    }

    pub(crate) fn replace(
        &mut self,
        rt: &impl Abort,
        alloc: Global,
        at: usize,
        draft: Draft,
    ) -> Result<(), Fail> {
        let boxed = boxed_of(alloc, &draft)?;
        assert!(rt; at < self.drafts.len());
        assert!(rt; at < self.classifier.len());
        self.drafts[at] = draft;
        self.classifier.replace(at, boxed)?;
        Ok(())
    }

    pub(crate) fn remove(&mut self, rt: &impl Abort, at: usize) {
        assert!(rt; at < self.drafts.len());
        assert!(rt; at < self.classifier.len());
        self.drafts.remove(at);
        self.classifier.remove(at);
    }

    pub(crate) fn clear(&mut self) {
        self.drafts.clear();
        self.classifier.clear();
    }

    // Goes on with a copy of the classifier.
    pub(crate) fn change_to_copy(&mut self, alloc: Global) -> Result<(), Fail> {
        self.classifier = self.classifier.copy(alloc)?;
        Ok(())
    }

    // Whether the line of a field is what the rules say.
    pub(crate) fn has_line(&self, field: Field) -> bool {
        is_line(&self.classifier.line(field), &self.drafts, field)
    }

    // Whether the piece that a number is in has the rules that allow it.
    pub(crate) fn has_row(&self, field: Field, x: u64) -> bool {
        let line = self.classifier.line(field);
        let mut last = None;
        for piece in line.pieces() {
            if piece.start() <= u128::from(x) {
                last = Some(piece);
            }
        }
        match last {
            Some(piece) => is_row(&piece.row(), &self.drafts, field, x),
            None => false,
        }
    }

    // Whether the line of each field is what the rules say, and there are as many rules.
    pub(crate) fn has_lines(&self) -> bool {
        self.classifier.len() == self.drafts.len()
            && Field::ALL.iter().all(|field| self.has_line(*field))
    }

    // Whether a search finds the rule that a walk over the rules finds.
    pub(crate) fn finds(&self, drawn: &[u64; ASKED_COUNT], from: usize) -> bool {
        let point = point_of(drawn);
        is_point(&point)
            && self.classifier.next(&point, from) == first_of(&self.drafts, drawn, from)
    }

    // The same of a point at the edges of one of the rules, from the first rule, that one, the next, or any.
    pub(crate) fn finds_one(&self, dice: &mut Dice) -> bool {
        let places = (self.drafts.len() as u64).saturating_add(2);
        let at = dice.below(places) as usize;
        let draft = match self.drafts.get(at) {
            Some(draft) => *draft,
            None => Draft::WHOLE,
        };
        let from = match dice.below(4) {
            0 => 0,
            1 => at,
            2 => at.saturating_add(1),
            _ => dice.below(places) as usize,
        };
        self.finds(&edges(dice, &draft), from)
    }
}
