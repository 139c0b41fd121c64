//! What a rule tests on several fields of a packet at once: each `--ports`.
ghost use Rattle.std.specs.Prelude.{◌≡◌};
ghost use Rattle.std.specs.List.{list_all, list_any};
ghost use Rattle.rules.specs.rule.Crossing.{cross, has_both, has_either_port, is_both, option_value_crosses, match_crosses};
ghost use Rattle.rules.specs.steps.Views.{view_match};

use crate::options::option_value::OptionValue;
use crate::options::value::Value;
use crate::rule::Rule;
use crate::rule::spec::Match;
use fields::{Field, Packet, PortList};

// Whether the source port of the packet is listed, or its destination port.
fn has_either_port(list: &PortList, packet: &Packet) -> bool
    ensures { result ≡ has_either_port list.now packet.now.values }
{
    list.holds(packet.point(Field::SourcePort) as u16)
        || list.holds(packet.point(Field::DestinationPort) as u16)
}

impl OptionValue {
    // Whether the option holds of the packet, where it asks several fields at once.
    fn crosses(&self, packet: &Packet) -> bool
        ensures { result ≡ option_value_crosses packet.now.values self.now }
    {
        match &self.value {
            Value::Ports(list) => has_either_port(list, packet) != self.inverted,
            _ => true,
        }
    }
}

// Whether all such options of the match do.
fn match_crosses(one: &Match, packet: &Packet) -> bool
    ensures { result ≡ match_crosses packet.now.values (view_match one.now) }
{
    one.option_values
        .iter()
        .all(|option_value| option_value.crosses(packet))
}

// Whether all such options of the matches do.
fn matches_cross(matches: &[Match], packet: &Packet) -> bool
    ensures { result ≡ list_all (λ m. match_crosses packet.now.values (view_match m)) matches.now }
{
    matches.iter().all(|one| match_crosses(one, packet))
}

// Whether the option asks several fields at once.
fn is_both(option_value: &OptionValue) -> bool
    ensures { result ≡ is_both option_value.now }
{
    matches!(option_value.value, Value::Ports(_))
}

// Whether one of the match's options does.
fn has_both(one: &Match) -> bool
    ensures { result ≡ has_both (view_match one.now) }
{
    one.option_values.iter().any(is_both)
}

// Whether one of the matches' options does.
pub(crate) fn ask_both(matches: &[Match]) -> bool
    ensures { result ≡ list_any (λ m. has_both (view_match m)) matches.now }
{
    matches.iter().any(has_both)
}

/// Whether the conditions of a rule that test several fields at once hold of the packet: each `--ports` of its
/// matches. The rule matches the packet where they hold and it allows each of the packet's numbers. It takes no
/// memory, and time linear in the options of the rule's matches.
pub fn cross(rule: &Rule, packet: &Packet) -> bool
    ensures { result ≡ cross packet.now.values rule.now }
{
    !rule.asks_both() || matches_cross(rule.spec().matches.as_slice(), packet)
}
