//! Marks of whole lines: their rows have every bit, so a search leaves these lines out.

ghost use Rattle.std.specs.Prelude.{◌≡◌, ◌↔◌, ℕ, IsTrue, false, length, slice_index_or};
ghost use Rattle.fields.specs.numbers.Spans.{SpanSet};
ghost use Rattle.classify.specs.steps.Kept.{IsEverything, AreOthers, AreUnmarked};

use arrayvec::ArrayVec;
use fields::{FIELDS, Spans};

// Whether a set has every number up to its top.
fn is_everything(spans: &Spans) -> bool
    ensures { IsTrue result ↔ IsEverything spans.now }
{
    if spans.intervals().len() != 1 {
        return false;
    }
    spans.has(0) && spans.has(spans.top())
}

/// Takes the marks away of the lines whose field a box doesn't allow wholly.
pub(crate) fn unmark(marks: &mut [bool], spans: &[Spans])
    requires { length spans.now ≡ length marks.old }
    ensures { (k : ℕ) (s : SpanSet) → IsTrue (slice_index_or marks.new k false)
        ↔ (IsTrue (slice_index_or marks.old k false) × IsEverything (slice_index_or spans.now k s)) }
{
    for k in 0..marks.len() {
        if !is_everything(&spans[k]) {
            marks[k] = false;
        }
    }
}

// The places of the lines that aren't marked, in rising order.
fn unmarked(marks: &[bool; FIELDS]) -> ArrayVec<usize, FIELDS>
    ensures { AreUnmarked marks.now FIELDS result.items }
{
    let mut places = ArrayVec::new();
    for k in 0..FIELDS {
        if !marks[k] {
            places.push(k);
        }
    }
    places
}

/// The places of the lines that a search looks at: of those that aren't marked, and where all are, of the first, since the
/// search wants a row.
pub(crate) fn others(marks: &[bool; FIELDS]) -> ArrayVec<usize, FIELDS>
    ensures { AreOthers marks.now result.items }
{
    let mut places = unmarked(marks);
    if places.is_empty() {
        places.push(0);
    }
    places
}
