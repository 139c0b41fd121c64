//! Copies of what a rule holds.
ghost use Rattle.std.specs.Prelude.{◌≡◌, Option, Some, None, IfOk};
ghost use Rattle.rules.specs.steps.Views.{view_match, view_matches, view_spec};

use crate::options::option_value::OptionValue;
use crate::options::value::Value;
use crate::rule::action::Action;
use crate::rule::spec::{Match, RuleSpec};
use std::alloc::{AllocError, Global};

// A value again.
fn copy_value(alloc: Global, value: &Value) -> Result<Value, AllocError>
    ensures { IfOk result (λ copy. copy ≡ value.now) }
{
    match value {
        Value::Source(x) => Ok(Value::Source(*x)),
        Value::Destination(x) => Ok(Value::Destination(*x)),
        Value::InInterface(x) => Ok(Value::InInterface(x.copy())),
        Value::OutInterface(x) => Ok(Value::OutInterface(x.copy())),
        Value::Protocol(x) => Ok(Value::Protocol(*x)),
        Value::Fragment => Ok(Value::Fragment),
        Value::SourcePort(x) => Ok(Value::SourcePort(*x)),
        Value::DestinationPort(x) => Ok(Value::DestinationPort(*x)),
        Value::TcpFlags(x) => Ok(Value::TcpFlags(*x)),
        Value::IcmpType(x) => Ok(Value::IcmpType(*x)),
        Value::SourcePorts(x) => Ok(Value::SourcePorts(x.copy())),
        Value::DestinationPorts(x) => Ok(Value::DestinationPorts(x.copy())),
        Value::Ports(x) => Ok(Value::Ports(x.copy())),
        Value::SourceRange(x) => Ok(Value::SourceRange(*x)),
        Value::DestinationRange(x) => Ok(Value::DestinationRange(*x)),
        Value::Ctstate(x) => Ok(Value::Ctstate(*x)),
        Value::State(x) => Ok(Value::State(*x)),
        Value::Comment(comment) => Ok(Value::Comment(comment.copy(alloc)?)),
        Value::TtlEqual(x) => Ok(Value::TtlEqual(*x)),
        Value::TtlGreater(x) => Ok(Value::TtlGreater(*x)),
        Value::TtlLess(x) => Ok(Value::TtlLess(*x)),
        Value::RejectWith(x) => Ok(Value::RejectWith(*x)),
        Value::LogPrefix(x) => Ok(Value::LogPrefix(x.copy())),
        Value::LogLevel(x) => Ok(Value::LogLevel(*x)),
        Value::LogTcpSequence => Ok(Value::LogTcpSequence),
        Value::LogTcpOptions => Ok(Value::LogTcpOptions),
        Value::LogIpOptions => Ok(Value::LogIpOptions),
        Value::LogUid => Ok(Value::LogUid),
    }
}

// An option again.
fn copy_option_value(alloc: Global, option_value: &OptionValue) -> Result<OptionValue, AllocError>
    ensures { IfOk result (λ copy. copy ≡ option_value.now) }
{
    let inverted = option_value.inverted;
    let value = copy_value(alloc, &option_value.value)?;
    Ok(OptionValue { inverted, value })
}

// Options again.
fn copy_option_values(
    alloc: Global,
    option_values: &[OptionValue],
) -> Result<Vec<OptionValue>, AllocError>
    ensures { IfOk result (λ copy. copy.items ≡ option_values.now) }
{
    let mut copies = Vec::new(alloc);
    for option_value in option_values {
        let copy = copy_option_value(alloc, option_value)?;
        copies.push(copy)?;
    }
    Ok(copies)
}

// A match again.
fn copy_match(alloc: Global, one: &Match) -> Result<Match, AllocError>
    ensures { IfOk result (λ copy. view_match copy ≡ view_match one.now) }
{
    let kind = one.kind;
    let option_values = copy_option_values(alloc, one.option_values.as_slice())?;
    Ok(Match {
        kind,
        option_values,
    })
}

// Matches again.
fn copy_matches(alloc: Global, matches: &[Match]) -> Result<Vec<Match>, AllocError>
    ensures { IfOk result (λ copy. view_matches copy.items ≡ view_matches matches.now) }
{
    let mut copies = Vec::new(alloc);
    for one in matches {
        let copy = copy_match(alloc, one)?;
        copies.push(copy)?;
    }
    Ok(copies)
}

// An action again.
fn copy_action(action: &Option<Action>) -> Option<Action>
    ensures { result ≡ action.now }
{
    match action {
        None => None,
        Some(Action::Accept) => Some(Action::Accept),
        Some(Action::Drop) => Some(Action::Drop),
        Some(Action::Return) => Some(Action::Return),
        Some(Action::Reject) => Some(Action::Reject),
        Some(Action::Log) => Some(Action::Log),
        Some(Action::Jump(name)) => Some(Action::Jump(name.copy())),
        Some(Action::Goto(name)) => Some(Action::Goto(name.copy())),
    }
}

// What a rule holds again.
pub(crate) fn copy_spec(alloc: Global, spec: &RuleSpec) -> Result<RuleSpec, AllocError>
    ensures { IfOk result (λ copy. view_spec copy ≡ view_spec spec.now) }
{
    let option_values = copy_option_values(alloc, spec.option_values.as_slice())?;
    let matches = copy_matches(alloc, spec.matches.as_slice())?;
    let action = copy_action(&spec.action);
    let target_options = copy_option_values(alloc, spec.target_options.as_slice())?;
    Ok(RuleSpec {
        option_values,
        matches,
        action,
        target_options,
    })
}
