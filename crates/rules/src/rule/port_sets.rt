//! What a rule tests on several fields at once, for all packets whose ports are in two sets.
ghost use Rattle.std.specs.Prelude.{◌≡◌, ℕ, List, Bool, true, false, not, Any, IfOk, IfSome, IsTrue};
ghost use Rattle.std.specs.List.{list_all};
ghost use Rattle.fields.specs.numbers.Field.{top};
ghost use Rattle.fields.specs.numbers.Spans.{SpanSet, has};
ghost use Rattle.fields.specs.declared.numbers.field.Field.TheVariants.{SourcePort, DestinationPort};
ghost use Rattle.rules.specs.rule.Crossing.{HasMember, HasPortsOf, IsListedBy, IsListedByRule, IsListedIn, SaysOf, asks_both, cross, has_either_port, match_crosses, option_value_crosses, parted_by};
ghost use Rattle.rules.specs.declared.rule.port_sets.Crossing.TheVariants.{Holds};
ghost use Rattle.rules.specs.steps.Conditions.{IsShareOf};
ghost use Rattle.rules.specs.steps.Views.{view_match};

use crate::options::option_value::OptionValue;
use crate::options::value::Value;
use crate::rule::Rule;
use crate::rule::spec::Match;
use fields::{PortList, Spans};
use std::alloc::{AllocError, Global};

/// What the conditions of a rule that test several fields at once say of the packets whose ports are in two sets.
#[derive(Drop)]
pub enum Crossing {
    /// They hold of each.
    Holds,
    /// They hold of none.
    Fails,
    /// Some of the source ports are listed in a condition, and some aren't: the ports that it lists.
    BySource(Spans),
    /// Some of the destination ports are listed in a condition, and some aren't: the ports that it lists.
    ByDestination(Spans),
}

impl Crossing {
    fn holds(&self) -> bool
        ensures yes { IsTrue result → self.now ≡ Holds }
        ensures no { result ≡ false → self.now ≡ Holds → ⊥ }
    {
        matches!(self, Crossing::Holds)
    }

    // What the opposite of the conditions says.
    fn turned(self) -> Crossing
        ensures says { (test : List ℕ → Bool) (source destination : SpanSet) → SaysOf test source destination self
            → SaysOf (λ numbers. not (test numbers)) source destination result }
        ensures listed { parted_by result ≡ parted_by self }
    {
        match self {
            Crossing::Holds => Crossing::Fails,
            Crossing::Fails => Crossing::Holds,
            other => other,
        }
    }
}

// What a set has of some ports.
#[derive(Clone, Copy)]
pub(crate) enum Share {
    All,
    Nothing,
    Part,
}

// Whether two sets have no number in common.
fn are_apart(alloc: Global, own: &Spans, other: &Spans) -> Result<bool, AllocError>
    requires { other.now.top ≡ own.now.top }
    ensures none { IfOk result (λ apart. IsTrue apart → (x : ℕ) → HasMember own.now x → has other.now.intervals x ≡ false) }
    ensures some { IfOk result (λ apart. apart ≡ false → (x : ℕ) × HasMember own.now x × (has other.now.intervals x ≡ true)) }
{
    let shared = own.meet(alloc, other)?;
    Ok(shared.intervals().is_empty())
}

fn share_of(alloc: Global, own: &Spans, listed: &Spans) -> Result<Share, AllocError>
    requires { listed.now.top ≡ own.now.top }
    ensures { IfOk result (IsShareOf own.now listed.now) }
{
    if are_apart(alloc, own, listed)? {
        return Ok(Share::Nothing);
    }
    let others = listed.except(alloc)?;
    if are_apart(alloc, own, &others)? {
        return Ok(Share::All);
    }
    Ok(Share::Part)
}

// Of a list of which the source port or the destination port has to be one.
fn list_says(
    alloc: Global,
    list: &PortList,
    source: &Spans,
    destination: &Spans,
) -> Result<Crossing, AllocError>
    requires source { source.now.top ≡ top SourcePort }
    requires destination { destination.now.top ≡ top DestinationPort }
    ensures says { IfOk result (SaysOf (has_either_port list.now) source.now destination.now) }
    ensures listed { IfOk result (λ said. IfSome (parted_by said) (λ set. HasPortsOf set (Some list.now))) }
{
    let listed = list.allowed(alloc)?;
    let sources = share_of(alloc, source, &listed)?;
    let destinations = share_of(alloc, destination, &listed)?;
    match (sources, destinations) {
        (Share::All, _) | (_, Share::All) => Ok(Crossing::Holds),
        (Share::Nothing, Share::Nothing) => Ok(Crossing::Fails),
        (Share::Part, Share::Nothing | Share::Part) => Ok(Crossing::BySource(listed)),
        (Share::Nothing, Share::Part) => Ok(Crossing::ByDestination(listed)),
    }
}

impl OptionValue {
    fn says(
        &self,
        alloc: Global,
        source: &Spans,
        destination: &Spans,
    ) -> Result<Crossing, AllocError>
        requires source { source.now.top ≡ top SourcePort }
        requires destination { destination.now.top ≡ top DestinationPort }
        ensures says { IfOk result (SaysOf (λ numbers. option_value_crosses numbers self.now) source.now destination.now) }
        ensures listed { IfOk result (λ said. IfSome (parted_by said) (λ set. IsListedBy set self.now)) }
    {
        let Value::Ports(list) = &self.value else {
            return Ok(Crossing::Holds);
        };
        let said = list_says(alloc, list, source, destination)?;
        if self.inverted {
            return Ok(said.turned());
        }
        Ok(said)
    }
}

fn match_says(
    alloc: Global,
    one: &Match,
    source: &Spans,
    destination: &Spans,
) -> Result<Crossing, AllocError>
    requires source { source.now.top ≡ top SourcePort }
    requires destination { destination.now.top ≡ top DestinationPort }
    ensures says { IfOk result (SaysOf (λ numbers. match_crosses numbers (view_match one.now)) source.now destination.now) }
    ensures listed { IfOk result (λ said. IfSome (parted_by said) (λ set. IsListedIn set (view_match one.now))) }
{
    for option_value in one.option_values.as_slice() {
        let said = option_value.says(alloc, source, destination)?;
        if !said.holds() {
            return Ok(said);
        }
    }
    Ok(Crossing::Holds)
}

fn matches_say(
    alloc: Global,
    matches: &[Match],
    source: &Spans,
    destination: &Spans,
) -> Result<Crossing, AllocError>
    requires source { source.now.top ≡ top SourcePort }
    requires destination { destination.now.top ≡ top DestinationPort }
    ensures says { IfOk result (SaysOf (λ numbers. list_all (λ m. match_crosses numbers (view_match m)) matches.now) source.now destination.now) }
    ensures listed { IfOk result (λ said. IfSome (parted_by said) (λ set. Any (λ m. IsListedIn set (view_match m)) matches.now)) }
{
    for one in matches {
        let said = match_says(alloc, one, source, destination)?;
        if !said.holds() {
            return Ok(said);
        }
    }
    Ok(Crossing::Holds)
}

/// What the conditions of a rule that test several fields at once, each `--ports` of its matches, say of all packets
/// whose source port is in one set, and whose destination port is in another. Both are sets of ports, up to 65535.
///
/// They hold of each such packet, or of none. Or the packets have to be parted first, by the ports that one of the
/// conditions lists: by their source ports, where some of these are listed and some aren't, else by their destination
/// ports. Where all ports of one of the sets are listed, the packets aren't parted by the other. A rule without such
/// conditions takes no memory.
///
/// # Errors
///
/// `AllocError` where memory was refused.
pub fn cross_ports(
    alloc: Global,
    rule: &Rule,
    source: &Spans,
    destination: &Spans,
) -> Result<Crossing, AllocError>
    requires source { source.now.top ≡ top SourcePort }
    requires destination { destination.now.top ≡ top DestinationPort }
    ensures says { IfOk result (SaysOf (λ numbers. cross numbers rule.now) source.now destination.now) }

    // The ports by which packets are parted are those that one of the rule's conditions lists.
    ensures listed { IfOk result (λ said. IfSome (parted_by said) (λ set. IsListedByRule set rule.now)) }
    ensures without { asks_both rule.now ≡ false → result ≡ Ok Holds }
{
    if !rule.asks_both() {
        return Ok(Crossing::Holds);
    }
    matches_say(alloc, rule.spec().matches.as_slice(), source, destination)
}
