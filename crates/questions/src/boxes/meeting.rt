//! Whether boxes have packets in common, which a step tests before it takes memory.
ghost use Rattle.std.specs.Prelude.{◌≡◌, ◌&&◌, ℕ, List, false, IsTrue};
ghost use Rattle.fields.specs.numbers.Spans.{has};
ghost use Rattle.rules.specs.Boxed.{IsBox};
ghost use Rattle.classify.specs.Classifier.{IsPoint};
ghost use Rattle.questions.specs.boxes.Boxes.{Has, HasNumbers};
ghost use Rattle.questions.specs.boxes.Cut.{AreMet, AreWholeBut, HaveCommon, IsWhole};

use fields::{FIELDS, Spans};

// Whether two sets with one top have a number in common. It takes no memory, and time linear in their intervals.
fn share(own: &Spans, other: &Spans) -> bool
    requires { own.now.top ≡ other.now.top }
    ensures some { IsTrue result → HaveCommon own.now other.now }
    ensures none { result ≡ false → (x : ℕ) → (has own.now.intervals x && has other.now.intervals x) ≡ false }
{
    let mut left = own.intervals();
    let mut right = other.intervals();
    while let (Some((a, after_a)), Some((b, after_b))) = (left.split_first(), right.split_first()) {
        let first = a.first.max(b.first);
        let last = a.last.min(b.last);
        if first <= last {
            return true;
        }
        let rests = if a.last <= b.last {
            (after_a, right)
        } else {
            (left, after_b)
        };
        (left, right) = rests;
    }
    false
}

// Whether two boxes have packets in common, by their sets: on each field a number. It takes no memory.
pub(crate) fn meet(own: &[Spans], other: &[Spans]) -> bool
    requires own { IsBox own.now }
    requires other { IsBox other.now }
    ensures some { IsTrue result → AreMet own.now other.now }
    ensures none { result ≡ false → (numbers : List ℕ) → Has own.now numbers → Has other.now numbers → ⊥ }
{
    for place in 0..FIELDS {
        if !share(&own[place], &other[place]) {
            return false;
        }
    }
    true
}

// Whether a set has all numbers up to its top.
fn is_whole(set: &Spans) -> bool
    ensures { IsTrue result → IsWhole set.now }
{
    match set.intervals().first() {
        Some(only) => only.first == 0 && only.last == set.top(),
        None => false,
    }
}

// The fields on which a box leaves numbers out, by their places.
pub(crate) fn narrow_fields(sets: &[Spans]) -> [bool; FIELDS]
    requires { IsBox sets.now }
    ensures { AreWholeBut result sets.now }
{
    let mut narrow = [false; FIELDS];
    for place in 0..FIELDS {
        narrow[place] = !is_whole(&sets[place]);
    }
    narrow
}

// Whether two boxes have no packets in common, as far as some fields tell: the same as `meet`, faster where these are the fields on which the
// second one leaves numbers out.
pub(crate) fn are_apart(own: &[Spans], other: &[Spans], fields: &[bool; FIELDS]) -> bool
    requires own { IsBox own.now }
    requires other { IsBox other.now }
    ensures none { IsTrue result → (numbers : List ℕ) → Has own.now numbers → Has other.now numbers → ⊥ }
    ensures some { result ≡ false → HasNumbers own.now → AreWholeBut fields.now other.now → AreMet own.now other.now }
{
    for place in 0..FIELDS {
        if fields[place] && !share(&own[place], &other[place]) {
            return true;
        }
    }
    false
}
