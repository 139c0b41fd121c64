//! Searches, beside a plain one that asks each rule's bit on each field.

ghost use Rattle.std.specs.Prelude.{IsTrue};
ghost use Rattle.classify.specs.Classifier.{IsPoint};

use crate::classifiers::texts::append;
use classify::Classifier;
use fields::{FIELDS, Field};
use std::alloc::Global;
use std::process::Abort;
use std::test::Fail;

pub(crate) fn is_point(point: &[u128; FIELDS]) -> bool
    ensures { IsTrue result → IsPoint point.now }
{
    for place in 0..FIELDS {
        if point[place] > Field::ALL[place].top() {
            return false;
        }
    }
    true
}

// Whether the rule at a place allows a number: its bit in the last piece that starts at the number or before it.
fn allows(classifier: &Classifier, field: Field, number: u128, place: usize) -> bool {
    let mut is_allowed = false;
    for piece in classifier.line(field).pieces() {
        let row = piece.row();
        if piece.start() <= number && place < row.len() {
            is_allowed = row.get(place);
        }
    }
    is_allowed
}

// The next match, rule by rule and field by field.
fn next_plain(classifier: &Classifier, point: &[u128; FIELDS], from: usize) -> Option<usize> {
    for place in from..classifier.len() {
        let matches = Field::ALL.iter().all(|field| {
            allows(classifier, *field, point[field.index()], place)
        });
        if matches {
            return Some(place);
        }
    }
    None
}

// Asks for the next match, and compares it with the plain search.
fn next_of(
    rt: &impl Abort,
    classifier: &Classifier,
    point: &[u128; FIELDS],
    from: usize,
) -> Option<usize> {
    assert!(rt; is_point(point));
    let found = classifier.next(point, from);
    assert_eq!(rt; found, next_plain(classifier, point, from));
    found
}

// Searches with the only match at the last place, and with none.
fn search_in(rt: &impl Abort, alloc: Global, count: usize) -> Result<(), Fail> {
    let mut point = [0; FIELDS];
    point[Field::Source.index()] = 184549377;
    let mut classifier = Classifier::new(alloc)?;
    for _ in 0..count {
        append(rt, alloc, &mut classifier, "-s 10.0.0.0/8 -j DROP")?;
    }
    assert_eq!(rt;
        next_of(rt, &classifier, &point, 0),
        None,
        "none of {count}"
    );
    append(rt, alloc, &mut classifier, "-j DROP")?;
    for from in [0, 1, 64, 255, count] {
        let want = if from <= count { Some(count) } else { None };
        assert_eq!(rt;
            next_of(rt, &classifier, &point, from),
            want,
            "{from} of {count}"
        );
    }
    assert_eq!(rt;
        next_of(rt, &classifier, &point, count.saturating_add(1)),
        None
    );
    point[Field::Source.index()] = 167772161;
    assert_eq!(rt;
        next_of(rt, &classifier, &point, 0),
        Some(0),
        "first of {count}"
    );
    Ok(())
}

#[test]
fn searches_of_each_length(rt: HostRuntime) -> Result<(), Fail> {
    let alloc = rt.alloc();
    for count in [0, 1, 62, 63, 64, 65, 254, 255, 256, 257] {
        search_in(&rt, alloc, count)?;
    }
    Ok(())
}

#[test]
fn search_of_a_full_chain(rt: HostRuntime) -> Result<(), Fail> {
    search_in(&rt, rt.alloc(), 8191)?;
    Ok(())
}
