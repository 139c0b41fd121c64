//! The numbers that an option allows on the field of which it speaks: a case an option.
ghost use Rattle.std.specs.Prelude.{◌≡◌, Some, Ok, IfOk};
ghost use Rattle.rules.specs.rule.Allows.{field_of, holds_of, option_value_holds};
ghost use Rattle.rules.specs.steps.Conditions.{Asks};

use crate::options::option_value::OptionValue;
use crate::options::value::Value;
use fields::{Field, Spans};
use std::alloc::{AllocError, Global};

// A field, and numbers on it.
#[derive(Drop)]
pub(crate) struct Condition {
    pub(crate) field: Field,
    pub(crate) set: Spans,
}

fn on(field: Field, set: Spans) -> Result<Option<Condition>, AllocError>
    ensures { result ≡ Ok (Some (record { field = field; set = set })) }
{
    Ok(Some(Condition { field, set }))
}

// The number of further fragments, which are all but the first.
fn further_fragments(alloc: Global) -> Result<Spans, AllocError>
    ensures { IfOk result (λ set. let one : Condition = record { field = Field.Fragment; set = set } in
        Asks (field_of Value.Fragment) (holds_of Value.Fragment) (Some one)) }
{
    Spans::one(alloc, Field::Fragment.top(), 1, 1)
}

impl Value {
    // The numbers of which the value holds, on the field of which it speaks; a text, or what a target does, speaks of
    // none.
    fn condition(&self, alloc: Global) -> Result<Option<Condition>, AllocError>
        ensures { IfOk result (λ asked. Asks (field_of self.now) (holds_of self.now) asked) }
    {
        match self {
            Value::Source(prefix) => on(Field::Source, prefix.allowed(alloc)?),
            Value::Destination(prefix) => on(Field::Destination, prefix.allowed(alloc)?),
            Value::InInterface(pattern) => on(Field::InIface, pattern.allowed(alloc)?),
            Value::OutInterface(pattern) => on(Field::OutIface, pattern.allowed(alloc)?),
            Value::Protocol(protocol) => on(Field::Protocol, protocol.allowed(alloc)?),
            Value::Fragment => on(Field::Fragment, further_fragments(alloc)?),
            Value::SourcePort(ports) => on(Field::SourcePort, ports.allowed(alloc)?),
            Value::DestinationPort(ports) => on(Field::DestinationPort, ports.allowed(alloc)?),
            Value::TcpFlags(test) => on(Field::TcpFlags, test.allowed(alloc)?),
            Value::IcmpType(asked) => on(Field::IcmpType, asked.allowed(alloc)?),
            Value::SourcePorts(list) => on(Field::SourcePort, list.allowed(alloc)?),
            Value::DestinationPorts(list) => on(Field::DestinationPort, list.allowed(alloc)?),
            Value::SourceRange(range) => on(Field::Source, range.allowed(alloc)?),
            Value::DestinationRange(range) => on(Field::Destination, range.allowed(alloc)?),
            Value::Ctstate(states) => on(Field::ConnectionState, states.allowed(alloc)?),
            Value::State(states) => on(Field::ConnectionState, states.allowed(alloc)?),
            Value::TtlEqual(ttl) => on(Field::TimeToLive, ttl.same(alloc)?),
            Value::TtlGreater(ttl) => on(Field::TimeToLive, ttl.greater(alloc)?),
            Value::TtlLess(ttl) => on(Field::TimeToLive, ttl.smaller(alloc)?),
            _ => Ok(None),
        }
    }
}

impl OptionValue {
    // The numbers that the option allows, on the field of which it speaks: those of its value or, inverted, the others.
    pub(crate) fn condition(&self, alloc: Global) -> Result<Option<Condition>, AllocError>
        ensures { IfOk result (λ asked. Asks (field_of self.now.value) (option_value_holds self.now) asked) }
    {
        match self.value.condition(alloc)? {
            None => Ok(None),
            Some(asked) => {
                if self.inverted {
                    on(asked.field, asked.set.except(alloc)?)
                } else {
                    Ok(Some(asked))
                }
            }
        }
    }
}
