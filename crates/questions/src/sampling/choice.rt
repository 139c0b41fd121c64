//! The numbers of a packet of a box that a line can write, if there is one.
ghost use Rattle.std.specs.Prelude.{◌≡◌, ◌≤◌, ◌↔◌, ℕ, [], false, true, IfSome, IsNone, IsTrue, MatchOption};
ghost use Rattle.fields.specs.declared.numbers.field.Field.{Field};
ghost use Rattle.fields.specs.numbers.Field.{fragment_top, protocol_top};
ghost use Rattle.fields.specs.numbers.Spans.{has};
ghost use Rattle.classify.specs.Classifier.{box_allows};
ghost use Rattle.questions.specs.steps.Sampled.{HasNoKindWith, IsKindAt, IsKindOf, IsNumberOn, carries_field, HasNone, IsChosen};

use crate::boxes::area::Area;
use crate::sampling::interface::interface_in;
use fields::{FIELDS, Field, Hook, Spans};

const ICMP: u128 = 1;

const TCP: u128 = 6;

// The protocols that are tried first.
const COMMON: [u128; 3] = [TCP, 17, ICMP];

// What decides which parts a packet carries.
#[derive(Clone, Copy)]
pub(crate) struct Kind {
    pub hook: Hook,
    pub protocol: u128,
    pub fragment: u128,
}

impl Kind {
    // Whether a packet of the kind carries the field.
    pub(crate) fn carries(self, field: Field) -> bool
        ensures { result ≡ carries_field self field }
    {
        match field {
            Field::InIface => !matches!(self.hook, Hook::Output),
            Field::OutIface => !matches!(self.hook, Hook::Input),
            Field::SourcePort | Field::DestinationPort => {
                matches!(self.protocol, 6 | 17 | 33 | 132 | 136) && self.fragment == 0
            }
            Field::TcpFlags => self.protocol == TCP && self.fragment == 0,
            Field::IcmpType => self.protocol == ICMP && self.fragment == 0,
            Field::Source
            | Field::Destination
            | Field::Protocol
            | Field::Fragment
            | Field::ConnectionState
            | Field::TimeToLive => true,
        }
    }

    // Whether the box has 0 on all that a packet of the kind doesn't carry.
    fn leaves_zeros(self, area: &Area) -> bool
        ensures { IsTrue result ↔ ((f : Field) → carries_field self f ≡ false → box_allows area.now f 0 ≡ true) }
    {
        for field in Field::ALL {
            if !self.carries(field) && !area.on(field).has(0) {
                return false;
            }
        }
        true
    }

    // Whether the box has a packet of the kind: what it doesn't carry is 0.
    fn is_in(self, area: &Area) -> bool
        requires protocol { self.protocol ≤ protocol_top }
        requires fragment { self.fragment ≤ fragment_top }
        ensures { IsTrue result ↔ IsKindOf area.now self }
    {
        area.on(Field::Protocol).has(self.protocol)
            && area.on(Field::Fragment).has(self.fragment)
            && self.leaves_zeros(area)
    }
}

// A kind of packets of the box with this protocol, first fragments before others.
fn kind_with(area: &Area, hook: Hook, protocol: u128) -> Option<Kind>
    requires { protocol ≤ protocol_top }
    ensures { MatchOption result (HasNoKindWith hook area.now protocol) (IsKindAt hook area.now) }
{
    let first = Kind {
        hook,
        protocol,
        fragment: 0,
    };
    let further = Kind {
        hook,
        protocol,
        fragment: 1,
    };
    if first.is_in(area) {
        Some(first)
    } else if further.is_in(area) {
        Some(further)
    } else {
        None
    }
}

// A kind of packets of the box with a common protocol.
fn common_kind(area: &Area, hook: Hook) -> Option<Kind>
    ensures { IfSome result (IsKindAt hook area.now) }
{
    for protocol in COMMON {
        if let Some(kind) = kind_with(area, hook, protocol) {
            return Some(kind);
        }
    }
    None
}

// A kind of packets of the box, common protocols before others.
fn kind_in(area: &Area, hook: Hook) -> Option<Kind>
    ensures { MatchOption result ((protocol : ℕ) → HasNoKindWith hook area.now protocol) (IsKindAt hook area.now) }
{
    if let Some(kind) = common_kind(area, hook) {
        return Some(kind);
    }
    for protocol in 0..256u16 {
        if let Some(kind) = kind_with(area, hook, u128::from(protocol)) {
            return Some(kind);
        }
    }
    None
}

// A number of a set: the one that is wanted if it is there, else the least.
fn pick(set: &Spans, wanted: u128) -> Option<u128>
    ensures none { IsNone result → set.now.intervals ≡ [] }
    ensures within { IfSome result (λ n. n ≤ set.now.top) }
    ensures there { IfSome result (λ n. has set.now.intervals n ≡ true) }
{
    let spans = set.intervals();
    if set.has(wanted) {
        return Some(wanted);
    }
    match spans.first() {
        Some(span) => Some(span.first),
        None => None,
    }
}

// The number that is wanted most on a field.
fn wanted(field: Field) -> u128 {
    match field {
        Field::Source => 0xc000_0201,
        Field::Destination => 0xc633_6401,
        Field::SourcePort => 40000,
        Field::DestinationPort => 80,
        Field::TcpFlags | Field::ConnectionState => 2,
        Field::IcmpType => 2048,
        Field::TimeToLive => 64,
        Field::InIface | Field::OutIface | Field::Protocol | Field::Fragment => 0,
    }
}

// The number on a field of a packet of the kind.
fn number_on(area: &Area, kind: Kind, field: Field) -> Option<u128>
    requires { IsKindOf area.now kind }
    ensures { MatchOption result (HasNone kind.hook area.now) (IsNumberOn area.now kind field) }
{
    if !kind.carries(field) {
        return Some(0);
    }
    match field {
        Field::Protocol => Some(kind.protocol),
        Field::Fragment => Some(kind.fragment),
        Field::InIface | Field::OutIface => interface_in(area.on(field)),
        _ => pick(area.on(field), wanted(field)),
    }
}

// The numbers of a packet of the kind, in the order of `Field::ALL`.
fn numbers_of(area: &Area, kind: Kind) -> Option<[u128; FIELDS]>
    requires { IsKindOf area.now kind }
    ensures { MatchOption result (HasNone kind.hook area.now) (IsChosen kind.hook area.now) }
{
    let mut numbers = [0; FIELDS];
    for place in 0..FIELDS {
        let Some(number) = number_on(area, kind, Field::ALL[place]) else {
            return None;
        };
        numbers[place] = number;
    }
    Some(numbers)
}

// The numbers of a packet of the box at the hook that a line can write, in the order of `Field::ALL`.
pub(crate) fn numbers_in(area: &Area, hook: Hook) -> Option<[u128; FIELDS]>
    ensures { MatchOption result (HasNone hook area.now) (λ numbers. IsChosen hook area.now numbers) }
{
    match kind_in(area, hook) {
        Some(kind) => numbers_of(area, kind),
        None => None,
    }
}
