//! Boxes of packets: a set of numbers on each field.
ghost use Rattle.std.specs.Prelude.{◌≡◌, ◌<◌, ◌≤◌, ◌&&◌, ◌||◌, ◌==◌, ℕ, [], ◌∷◌, false, List, All, Any, not, length, slice_index_or, IfOk, IfSome, IsTrue, OnOk};
ghost use Rattle.fields.specs.declared.numbers.field.Field.{Field};
ghost use Rattle.fields.specs.numbers.Field.{all_fields, top};
ghost use Rattle.fields.specs.numbers.Spans.{SpanSet, has, in_span};
ghost use Rattle.fields.specs.Packet.{PacketView, IsPacket};
ghost use Rattle.rules.specs.Boxed.{IsBox, set_on};
ghost use Rattle.questions.specs.boxes.Boxes.{Has, HasNumbers, HasOwnInterfaces, IsAtHook, IsBoth, IsIn, IsNarrowed, is_without};
ghost use Rattle.questions.specs.steps.Sides.{HasOne, IsBeginning, IsPart, IsSide};

use fields::{FIELDS, Field, Hook, Interval, Spans};
use std::alloc::{AllocError, Global};
use std::array;
use std::marker::Model;

/// A box of packets: on each field a set of numbers. A packet is in it if each of its numbers is in the set of its field. It
/// lies in memory of its own, so that it is moved at no cost.
#[derive(Drop)]
pub struct Area {
    sets: Box<[Spans; FIELDS]>,
}

impl Model for Area {
    ghost use Rattle.std.specs.Prelude.{List};
    ghost use Rattle.fields.specs.numbers.Spans.{SpanSet};
    ghost use Rattle.rules.specs.Boxed.{IsBox};

    ghost Value = { List SpanSet };

    ghost view = { λ a. a.sets.value };

    ghost invariant = { λ a. IsBox a.sets.value };
}

// The numbers of a set that another hasn't.
fn minus(alloc: Global, own: &Spans, other: &Spans) -> Result<Spans, AllocError>
    requires { own.now.top ≡ other.now.top }
    ensures top { IfOk result (λ set. set.top ≡ own.now.top) }
    ensures members { IfOk result (λ set. (x : ℕ) → x ≤ own.now.top
        → has set.intervals x ≡ (has own.now.intervals x && not (has other.now.intervals x))) }
{
    let others = other.except(alloc)?;
    own.meet(alloc, &others)
}

// The only interval of a set, if it has one.
fn only_of(set: &Spans) -> Option<Interval>
    ensures { IfSome result (λ only. (set.now.intervals ≡ only ∷ []) × (only.last ≤ set.now.top)) }
{
    let (only, others) = set.intervals().split_first()?;
    if others.is_empty() {
        return Some(*only);
    }
    None
}

// The numbers that two intervals share.
fn shared(alloc: Global, top: u128, own: Interval, other: Interval) -> Result<Spans, AllocError>
    requires { own.last ≤ top }
    ensures top { IfOk result (λ set. set.top ≡ top) }
    ensures members { IfOk result (λ set. (x : ℕ) → has set.intervals x ≡ (in_span x own && in_span x other)) }
{
    let first = own.first.max(other.first);
    let last = own.last.min(other.last);
    if last < first {
        return Ok(Spans::none(alloc, top));
    }
    Spans::one(alloc, top, first, last)
}

// The numbers that two sets share, at once where each has one interval. A set met with itself is its copy.
fn met(alloc: Global, own: &Spans, other: &Spans) -> Result<Spans, AllocError>
    requires { own.now.top ≡ other.now.top }
    ensures top { IfOk result (λ set. set.top ≡ own.now.top) }
    ensures members { IfOk result (λ set. (x : ℕ) → has set.intervals x ≡ (has own.now.intervals x && has other.now.intervals x)) }
{
    match (only_of(own), only_of(other)) {
        (Some(one), Some(two)) => shared(alloc, own.top(), one, two),
        _ => own.meet(alloc, other),
    }
}

// The set at a place of the part of a box that leaves another one at `at`.
fn side(
    alloc: Global,
    own: &Spans,
    other: &Spans,
    place: usize,
    at: usize,
) -> Result<Spans, AllocError>
    requires { own.now.top ≡ other.now.top }
    ensures { IfOk result (IsSide at place own.now other.now) }
{
    if place < at {
        met(alloc, own, other)
    } else if place == at {
        minus(alloc, own, other)
    } else {
        met(alloc, own, own)
    }
}

// Puts the sets of that part in their places.
fn put_sides(
    alloc: Global,
    own: &[Spans],
    other: &[Spans],
    at: usize,
    sets: &mut [Spans],
) -> Result<(), AllocError>
    requires own { IsBox own.now }
    requires other { IsBox other.now }
    requires long { length sets.old ≡ FIELDS }
    ensures { OnOk result (IsPart at own.now other.now sets.new) }
{
    for place in 0..FIELDS {
        sets[place] = side(alloc, &own[place], &other[place], place, at)?;
    }
    Ok(())
}

// Whether a set has no number.
fn is_bare(set: &Spans) -> bool
    ensures none { IsTrue result → set.now.intervals ≡ [] }
    ensures some { result ≡ false → HasOne set.now }
{
    set.intervals().is_empty()
}

// Whether some set has no number.
fn some_bare(sets: &[Spans]) -> bool
    ensures none { IsTrue result → Any (λ set. set.intervals ≡ []) sets.now }
    ensures some { result ≡ false → All HasOne sets.now }
{
    for set in sets {
        if is_bare(set) {
            return true;
        }
    }
    false
}

// Whether packets at a hook have no such interface.
fn is_without(hook: Hook, field: Field) -> bool
    ensures { result ≡ is_without hook field }
{
    match field {
        Field::InIface => matches!(hook, Hook::Output),
        Field::OutIface => matches!(hook, Hook::Input),
        Field::Source
        | Field::Destination
        | Field::Protocol
        | Field::Fragment
        | Field::SourcePort
        | Field::DestinationPort
        | Field::TcpFlags
        | Field::IcmpType
        | Field::ConnectionState
        | Field::TimeToLive => false,
    }
}

// All numbers of a field, or 0 alone.
pub(crate) fn all_or_zero(alloc: Global, field: Field, all: bool) -> Result<Spans, AllocError>
    ensures top { IfOk result (λ set. set.top ≡ top field) }
    ensures members { IfOk result (λ set. (x : ℕ) → x ≤ top field → has set.intervals x ≡ (all || x == 0)) }
{
    Spans::one(alloc, field.top(), 0, if all { field.top() } else { 0 })
}

// The numbers that packets at a hook may have on a field.
fn beginning(alloc: Global, hook: Hook, field: Field) -> Result<Spans, AllocError>
    ensures { IfOk result (IsBeginning hook field) }
{
    all_or_zero(alloc, field, !is_without(hook, field))
}

// Puts them on each field.
fn open(alloc: Global, hook: Hook, sets: &mut [Spans]) -> Result<(), AllocError>
    requires { length sets.old ≡ FIELDS }
    ensures { OnOk result ((place : ℕ) (f : Field) (d : SpanSet) → place < FIELDS
        → IsBeginning hook (slice_index_or all_fields place f) (slice_index_or sets.new place d)) }
{
    for place in 0..FIELDS {
        sets[place] = beginning(alloc, hook, Field::ALL[place])?;
    }
    Ok(())
}

impl Area {
    /// A box that has all packets that can be at a hook. At INPUT it has no interface that packets go out by, at
    /// OUTPUT none that they came in by. It has more than packets: that a packet's number is 0 on a field that it
    /// doesn't carry, no box can say of all protocols at once.
    ///
    /// # Errors
    ///
    /// `AllocError` where memory was refused.
    pub fn at_hook(alloc: Global, hook: Hook) -> Result<Area, AllocError>
        ensures all { IfOk result (λ area. (p : PacketView) → IsAtHook p → p.hook ≡ hook → IsIn area p) }
        ensures only { IfOk result (λ area. (p : PacketView) → IsPacket p → p.hook ≡ hook → IsIn area p → HasOwnInterfaces p) }
    {
        let mut sets: [Spans; FIELDS] = array::from_fn(|_| Spans::none(alloc, 0));
        open(alloc, hook, &mut sets)?;
        Ok(Area {
            sets: Box::new(alloc, sets)?,
        })
    }

    // The part of a box that leaves another one at a place.
    pub(crate) fn part(
        alloc: Global,
        own: &[Spans],
        other: &[Spans],
        at: usize,
    ) -> Result<Area, AllocError>
        requires own { IsBox own.now }
        requires other { IsBox other.now }
        ensures { IfOk result (IsPart at own.now other.now) }
    {
        let mut sets: [Spans; FIELDS] = array::from_fn(|_| Spans::none(alloc, 0));
        put_sides(alloc, own, other, at, &mut sets)?;
        Ok(Area {
            sets: Box::new(alloc, sets)?,
        })
    }

    /// The packets that are in two boxes, the second by its sets.
    ///
    /// # Errors
    ///
    /// `AllocError` where memory was refused.
    pub(crate) fn within(&self, alloc: Global, other: &[Spans]) -> Result<Area, AllocError>
        requires { IsBox other.now }
        ensures { IfOk result (IsBoth self.now other.now) }
    {
        Area::part(alloc, self.sets(), other, FIELDS)
    }

    /// An equal box.
    ///
    /// # Errors
    ///
    /// `AllocError` where memory was refused.
    pub fn copy(&self, alloc: Global) -> Result<Area, AllocError>
        ensures { IfOk result (IsBoth self.now self.now) }
    {
        self.within(alloc, self.sets())
    }

    /// Whether some field has no number, so that no packet is in the box.
    pub fn is_empty(&self) -> bool
        ensures none { IsTrue result → (numbers : List ℕ) → Has self.now numbers → ⊥ }
        ensures some { result ≡ false → HasNumbers self.now }
    {
        some_bare(self.sets())
    }

    /// The packets of the box whose number on a field is in a set.
    ///
    /// # Errors
    ///
    /// `AllocError` where memory was refused.
    pub fn narrow(mut self, alloc: Global, field: Field, wanted: &Spans) -> Result<Area, AllocError>
        requires { wanted.now.top ≡ top field }
        ensures { IfOk result (IsNarrowed field wanted.now self) }
    {
        let shared = self.on(field).meet(alloc, wanted)?;
        self.sets[field.index()] = shared;
        Ok(self)
    }

    /// The numbers on a field; they are lent.
    pub fn on(&self, field: Field) -> &Spans
        ensures set { result.now.intervals ≡ set_on field self.now }
        ensures top { result.now.top ≡ top field }
    {
        &self.sets[field.index()]
    }

    /// The sets in the order of `Field::ALL`; they are lent.
    pub fn sets(&self) -> &[Spans]
        ensures value { result.now ≡ self.now }
        ensures whole { IsBox self.now }
    {
        self.sets.as_slice()
    }
}
