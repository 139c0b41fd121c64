//! The least and the greatest number of a box on five fields: where they tell boxes apart, no set is looked at.
ghost use Rattle.std.specs.Prelude.{◌≡◌, ◌≤◌, ℕ, List, true, min, IsTrue};
ghost use Rattle.fields.specs.numbers.Field.{number_on, top};
ghost use Rattle.fields.specs.numbers.Spans.{has, in_span};
ghost use Rattle.rules.specs.Boxed.{IsBox};
ghost use Rattle.classify.specs.Classifier.{IsPoint};
ghost use Rattle.questions.specs.boxes.Boxes.{Has};
ghost use Rattle.questions.specs.steps.Outlines.{IsBetween, IsOutlined, IsWithin};

use fields::{Field, Interval, Spans};

// Numbers from the first to the last.
#[derive(Clone, Copy)]
pub(crate) struct Ends {
    pub first: u32,
    pub last: u32,
}

// A number in four bytes; the greatest of these where it is greater.
fn clipped(number: u128) -> u32
    ensures { result ≡ min number 4294967295 }
{
    u32::try_from(number).unwrap_or(u32::MAX)
}

// The ends of numbers and of an interval together.
fn widened(ends: Ends, span: Interval) -> Ends
    ensures kept { (x : ℕ) → IsBetween ends x → IsBetween result x }
    ensures added { (x : ℕ) → x ≤ 4294967295 → in_span x span ≡ true → IsBetween result x }
{
    Ends {
        first: ends.first.min(clipped(span.first)),
        last: ends.last.max(clipped(span.last)),
    }
}

// The least and the greatest number of a set, in four bytes each.
fn ends_of(set: &Spans) -> Ends
    ensures { (x : ℕ) → x ≤ 4294967295 → has set.now.intervals x ≡ true → IsBetween result x }
{
    let mut ends = Ends {
        first: u32::MAX,
        last: 0,
    };
    for span in set.intervals() {
        ends = widened(ends, *span);
    }
    ends
}

// Those of a box on a field.
fn ends_on(sets: &[Spans], field: Field) -> Ends
    requires whole { IsBox sets.now }
    requires small { top field ≤ 4294967295 }
    ensures { (numbers : List ℕ) → IsPoint numbers → Has sets.now numbers → IsBetween result (number_on numbers field) }
{
    ends_of(&sets[field.index()])
}

impl Ends {
    // Whether no number is between both.
    fn are_apart(self, other: Ends) -> bool
        ensures { IsTrue result → (x : ℕ) → IsBetween self x → IsBetween other x → ⊥ }
    {
        self.last < other.first || other.last < self.first
    }
}

// The ends of a box.
#[derive(Clone, Copy)]
pub(crate) struct Outline {
    pub source: Ends,
    pub destination: Ends,
    pub protocol: Ends,
    pub source_port: Ends,
    pub destination_port: Ends,
}

// The outline of a box, by its sets.
pub(crate) fn outline_of(sets: &[Spans]) -> Outline
    requires { IsBox sets.now }
    ensures { IsOutlined sets.now result }
{
    Outline {
        source: ends_on(sets, Field::Source),
        destination: ends_on(sets, Field::Destination),
        protocol: ends_on(sets, Field::Protocol),
        source_port: ends_on(sets, Field::SourcePort),
        destination_port: ends_on(sets, Field::DestinationPort),
    }
}

impl Outline {
    // Whether boxes with these outlines have no packet in common, as far as the ends tell.
    pub(crate) fn is_apart(&self, other: &Outline) -> bool
        ensures { IsTrue result → (numbers : List ℕ) → IsWithin self.now numbers → IsWithin other.now numbers → ⊥ }
    {
        self.source.are_apart(other.source)
            || self.destination.are_apart(other.destination)
            || self.destination_port.are_apart(other.destination_port)
            || self.protocol.are_apart(other.protocol)
            || self.source_port.are_apart(other.source_port)
    }
}
