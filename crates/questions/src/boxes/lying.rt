//! Whether all packets of a box are in another one.
ghost use Rattle.std.specs.Prelude.{◌≡◌, ◌≤◌, ℕ, List, false, true, IsFalse, IsTrue};
ghost use Rattle.fields.specs.numbers.Spans.{has};
ghost use Rattle.rules.specs.Boxed.{IsBox};
ghost use Rattle.classify.specs.Classifier.{IsPoint};
ghost use Rattle.questions.specs.boxes.Boxes.{Has, IsNarrower};
ghost use Rattle.questions.specs.boxes.Cut.{AreWholeBut};

use fields::{FIELDS, Interval, Spans};

// Whether an interval of a set has all numbers of this one.
fn has_span(set: &Spans, span: Interval) -> bool
    requires { span.first ≤ span.last }
    ensures all { IsTrue result → (x : ℕ) → span.first ≤ x → x ≤ span.last → has set.now.intervals x ≡ true }
    ensures some { IsFalse result → (x : ℕ) × (span.first ≤ x) × (x ≤ span.last) × (has set.now.intervals x ≡ false) }
{
    for other in set.intervals() {
        if other.first <= span.first && span.last <= other.last {
            return true;
        }
    }
    false
}

// Whether a set has all numbers of another one.
pub(crate) fn is_part(own: &Spans, other: &Spans) -> bool
    ensures all { IsTrue result → (x : ℕ) → has own.now.intervals x ≡ true → has other.now.intervals x ≡ true }
    ensures some { IsFalse result → (x : ℕ) × (x ≤ own.now.top) × (has own.now.intervals x ≡ true) × (has other.now.intervals x ≡ false) }
{
    for span in own.intervals() {
        if !has_span(other, *span) {
            return false;
        }
    }
    true
}

// Whether all packets of a box are in another one, by their sets. It takes no memory.
pub(crate) fn lies_in(own: &[Spans], other: &[Spans]) -> bool
    requires own { IsBox own.now }
    requires other { IsBox other.now }
    ensures all { IsTrue result → (numbers : List ℕ) → Has own.now numbers → Has other.now numbers }
    ensures some { IsFalse result → IsNarrower own.now other.now }
{
    for place in 0..FIELDS {
        if !is_part(&own[place], &other[place]) {
            return false;
        }
    }
    true
}

// Whether all packets of a box are in another one, given the fields on which this leaves numbers out: no other is looked at.
pub(crate) fn lies_on(own: &[Spans], other: &[Spans], narrow: &[bool; FIELDS]) -> bool
    requires own { IsBox own.now }
    requires other { IsBox other.now }
    requires narrow { AreWholeBut narrow.now other.now }
    ensures { IsTrue result → (numbers : List ℕ) → IsPoint numbers → Has own.now numbers → Has other.now numbers }
{
    for place in 0..FIELDS {
        if narrow[place] && !is_part(&own[place], &other[place]) {
            return false;
        }
    }
    true
}
