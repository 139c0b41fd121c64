//! An option with its value, and whether `!` stands before it.
ghost use Rattle.std.specs.Prelude.{◌≡◌};
ghost use Rattle.std.specs.List.{list_any};
ghost use Rattle.rules.specs.options.OptionValues.{is_protocol, has_protocol, is_condition};

use crate::options::value::Value;

// A value, or the opposite of it.
#[derive(PartialEq, Drop)]
pub(crate) struct OptionValue {
    pub(crate) inverted: bool,
    pub(crate) value: Value,
}

impl OptionValue {
    // Whether it is the protocol, as it stands.
    fn is_protocol(&self, protocol: u8) -> bool
        ensures { result ≡ is_protocol protocol self.now }
    {
        match &self.value {
            Value::Protocol(n) => !self.inverted && n.number() == protocol,
            _ => false,
        }
    }

    // Whether it is a condition.
    pub(crate) fn is_condition(&self) -> bool
        ensures { result ≡ is_condition self.now }
    {
        self.inverted || !self.value.is_trivial()
    }
}

// Whether it is the protocol of the rule.
pub(crate) fn has_protocol(option_values: &[OptionValue], protocol: u8) -> bool
    ensures { result ≡ has_protocol protocol option_values.now }
{
    option_values
        .iter()
        .any(|option_value| option_value.is_protocol(protocol))
}
