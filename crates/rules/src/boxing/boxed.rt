//! The box of a rule, made condition by condition.
ghost use Rattle.std.specs.Prelude.{◌≡◌, ◌+◌, ◌-◌, ◌^◌, ◌<◌, ◌&&◌, ℕ, min, nat_le, length, slice_index_or, IfOk, IsTrue, OnOk};
ghost use Rattle.std.specs.List.{list_all};
ghost use Rattle.fields.specs.numbers.Field.{top};
ghost use Rattle.fields.specs.numbers.Spans.{SpanSet, has};
ghost use Rattle.rules.specs.rule.Allows.{option_value_allows, match_allows, fragment_allows};
ghost use Rattle.rules.specs.Boxed.{IsBox, IsBoxOf, set_on};
ghost use Rattle.rules.specs.steps.Conditions.{HasAllNumbers, Narrows, condition_allows};
ghost use Rattle.rules.specs.steps.Views.{view_match, view_matches};

use crate::boxing::condition::Condition;
use crate::boxing::work::Work;
use crate::options::match_kind::MatchKind;
use crate::options::option_value::OptionValue;
use crate::rule::Rule;
use crate::rule::spec::Match;
use fields::{FIELDS, Field, Spans};
use std::alloc::{AllocError, Global};
use std::array;
use std::marker::Model;

/// The box of a rule: on each field the numbers that it allows, as intervals.
///
/// `Boxed::of` alone makes a box, and none is copied.
#[derive(Drop)]
pub struct Boxed {
    spans: [Spans; FIELDS],
}

impl Model for Boxed {
    ghost use Rattle.std.specs.Prelude.{List};
    ghost use Rattle.fields.specs.numbers.Spans.{SpanSet};
    ghost use Rattle.rules.specs.Boxed.{IsBox};

    ghost Value = { List SpanSet };

    ghost view = { λ b. b.spans };

    ghost invariant = { λ b. IsBox b.spans };
}

// Puts all numbers on each field.
fn open(alloc: Global, spans: &mut [Spans]) -> Result<(), AllocError>
    requires { length spans.old ≡ FIELDS }
    ensures { OnOk result ((k : ℕ) (s : SpanSet) → k < FIELDS → HasAllNumbers k (slice_index_or spans.new k s)) }
{
    for place in 0..FIELDS {
        spans[place] = Spans::whole(alloc, Field::ALL[place].top())?;
    }
    Ok(())
}

// Whether a set has all numbers up to its top.
fn has_all(set: &Spans) -> bool
    ensures { IsTrue result → (x : ℕ) → has set.now.intervals x ≡ nat_le x set.now.top }
{
    let intervals = set.intervals();
    intervals.len() == 1 && intervals[0].first == 0 && intervals[0].last == set.top()
}

// The numbers that are in both of two sets with one top. Where the first has all they are the second's, and no memory is
// taken.
fn met(alloc: Global, before: &Spans, asked: Spans) -> Result<Spans, AllocError>
    requires { before.now.top ≡ asked.top }
    ensures top { IfOk result (λ set. set.top ≡ before.now.top) }
    ensures members { IfOk result (λ set. (x : ℕ) → has set.intervals x ≡ (has before.now.intervals x && has asked.intervals x)) }
{
    let _within = asked.intervals();
    if has_all(before) {
        return Ok(asked);
    }
    before.meet(alloc, &asked)
}

// Leaves on the condition's field the numbers that the condition has too.
#[inline(always)]
fn keep(alloc: Global, spans: &mut [Spans], asked: Condition) -> Result<(), AllocError>
    requires boxed { IsBox spans.old }
    requires top { asked.set.top ≡ top asked.field }
    ensures boxed { IsBox spans.new }
    ensures narrows { OnOk result (Narrows (λ f x. condition_allows f x asked) spans.old spans.new) }
{
    let place = asked.field.index();
    let both = met(alloc, &spans[place], asked.set)?;
    spans[place] = both;
    Ok(())
}

// Leaves on each field the numbers that the option allows.
fn narrow(alloc: Global, spans: &mut [Spans], option_value: &OptionValue) -> Result<(), AllocError>
    requires { IsBox spans.old }
    ensures boxed { IsBox spans.new }
    ensures narrows { OnOk result (Narrows (λ f x. option_value_allows f x option_value.now) spans.old spans.new) }
{
    match option_value.condition(alloc)? {
        None => Ok(()),
        Some(asked) => keep(alloc, spans, asked),
    }
}

// Leaves on each field the numbers that all options allow.
fn narrow_all(
    alloc: Global,
    spans: &mut [Spans],
    option_values: &[OptionValue],
) -> Result<(), AllocError>
    requires { IsBox spans.old }
    ensures boxed { IsBox spans.new }
    ensures narrows { OnOk result (Narrows (λ f x. list_all (option_value_allows f x) option_values.now) spans.old spans.new) }
{
    for option_value in option_values {
        narrow(alloc, spans, option_value)?;
    }
    Ok(())
}

// Leaves the first fragments alone where the match asks for one.
fn narrow_fragment(alloc: Global, spans: &mut [Spans], kind: MatchKind) -> Result<(), AllocError>
    requires { IsBox spans.old }
    ensures boxed { IsBox spans.new }
    ensures narrows { OnOk result (Narrows (λ f x. fragment_allows f x kind) spans.old spans.new) }
{
    if !kind.row().asks_fragment {
        return Ok(());
    }
    let field = Field::Fragment;
    let set = Spans::one(alloc, field.top(), 0, 0)?;
    keep(alloc, spans, Condition { field, set })
}

// Leaves on each field the numbers that the match allows.
fn narrow_match(alloc: Global, spans: &mut [Spans], one: &Match) -> Result<(), AllocError>
    requires { IsBox spans.old }
    ensures boxed { IsBox spans.new }
    ensures narrows { OnOk result (Narrows (λ f x. match_allows f x (view_match one.now)) spans.old spans.new) }
{
    narrow_fragment(alloc, spans, one.kind)?;
    narrow_all(alloc, spans, one.option_values.as_slice())
}

// Leaves on each field the numbers that all matches allow.
fn narrow_matches(alloc: Global, spans: &mut [Spans], matches: &[Match]) -> Result<(), AllocError>
    requires { IsBox spans.old }
    ensures boxed { IsBox spans.new }
    ensures narrows { OnOk result (Narrows (λ f x. list_all (match_allows f x) (view_matches matches.now)) spans.old spans.new) }
{
    for one in matches {
        narrow_match(alloc, spans, one)?;
    }
    Ok(())
}

impl Boxed {
    /// The box of a rule: on each field exactly the numbers that the rule allows there. It counts as one in `work`,
    /// also when memory is refused.
    ///
    /// It takes memory where a condition's set, or what is left of several, has two intervals or more. The first condition on
    /// a field gives its set; each further one costs time linear in the intervals of its set, at most 32, and of the box's on
    /// its field. A list of ports makes its set port by port.
    ///
    /// # Errors
    ///
    /// `AllocError` where memory was refused.
    pub fn of(alloc: Global, rule: &Rule, work: &mut Work) -> Result<Boxed, AllocError>
        ensures boxed { IfOk result (λ boxed. IsBoxOf rule.now boxed) }
        ensures counted { work.new ≡ min (work.old + 1) (2 ^ 64 - 1) }
    {
        work.count();
        let mut spans: [Spans; FIELDS] = array::from_fn(|_| Spans::none(alloc, 0));
        open(alloc, &mut spans)?;
        let spec = rule.spec();
        narrow_all(alloc, &mut spans, spec.option_values.as_slice())?;
        narrow_matches(alloc, &mut spans, spec.matches.as_slice())?;
        Ok(Boxed { spans })
    }

    /// The numbers that the rule allows on a field; the set is lent.
    pub fn on(&self, field: Field) -> &Spans
        ensures set { result.now.intervals ≡ set_on field self.now }
        ensures top { result.now.top ≡ top field }
    {
        &self.spans[field.index()]
    }

    /// The sets in the order of `Field::ALL`; they are lent.
    pub fn spans(&self) -> &[Spans]
        ensures value { result.now ≡ self.now }
        ensures whole { IsBox self.now }
    {
        self.spans.as_slice()
    }
}
