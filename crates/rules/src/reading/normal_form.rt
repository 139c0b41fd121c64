//! The form in which a rule is kept: what is no condition is taken out, and what is meant where nothing is said is
//! put in.
ghost use Rattle.std.specs.Prelude.{◌≡◌, ◌≤◌, Option, Some, None, Ok, List, filter, map, IfOk};
ghost use Rattle.rules.specs.Sequence.{Gives};
ghost use Rattle.rules.specs.options.OptionValues.{is_condition};
ghost use Rattle.rules.specs.rule.Rules.{match_default, action_default, or_default, normal_match, normal_form};
ghost use Rattle.rules.specs.steps.Views.{view_match, view_matches, view_spec};

use crate::options::match_kind::MatchKind;
use crate::options::option_value::OptionValue;
use crate::options::value::Value;
use crate::reading::fault::RuleFault;
use crate::rule::action::Action;
use crate::rule::spec::{Match, RuleSpec};
use fields::{IcmpType, RejectType};
use std::alloc::AllocError;

// What a match asks where its option isn't given.
fn match_default(kind: MatchKind) -> Option<Value>
    ensures { result ≡ match_default kind }
{
    match kind {
        MatchKind::Icmp => Some(Value::IcmpType(IcmpType::any())),
        _ => None,
    }
}

// What a target does where its option isn't given.
fn action_default(action: &Option<Action>) -> Option<Value>
    ensures { result ≡ action_default action.now }
{
    match action {
        Some(Action::Reject) => Some(Value::RejectWith(RejectType::default())),
        _ => None,
    }
}

// Puts in what is meant where nothing is said.
fn add_default(option_values: &mut Vec<OptionValue>, value: Value) -> Result<(), AllocError>
    ensures { IfOk result (λ _. option_values.new.items ≡ or_default (Some value) option_values.old.items) }
{
    if option_values.is_empty() {
        option_values.push(OptionValue {
            inverted: false,
            value,
        })?;
    }
    Ok(())
}

// Takes out what is no condition.
fn keep_conditions(option_values: &mut Vec<OptionValue>)
    ensures { option_values.new.items ≡ filter is_condition option_values.old.items }
{
    option_values.retain(|option_value| option_value.is_condition());
}

// Brings options to the form in which they are kept.
fn normalize_options(
    option_values: &mut Vec<OptionValue>,
    default: Option<Value>,
) -> Result<(), AllocError>
    ensures { IfOk result (λ _. option_values.new.items ≡ or_default default (filter is_condition option_values.old.items)) }
{
    keep_conditions(option_values);
    match default {
        None => return Ok(()),
        Some(value) => return add_default(option_values, value),
    }
}

// Brings a match to that form.
fn normalize_match(one: &mut Match) -> Result<(), AllocError>
    ensures { IfOk result (λ _. view_match one.new ≡ normal_match (view_match one.old)) }
{
    let default = match_default(one.kind);
    normalize_options(&mut one.option_values, default)
}

// Brings each match to that form.
fn normalize_matches(matches: &mut [Match]) -> Result<(), AllocError>
    ensures { IfOk result (λ _. view_matches matches.new ≡ map normal_match (view_matches matches.old)) }
{
    for one in matches.iter_mut() {
        normalize_match(one)?;
    }
    Ok(())
}

// Brings a rule to that form.
fn normalize(spec: &mut RuleSpec) -> Result<(), AllocError>
    ensures { IfOk result (λ _. view_spec spec.new ≡ normal_form (view_spec spec.old)) }
{
    normalize_options(&mut spec.option_values, None)?;
    normalize_matches(spec.matches.as_mut_slice())?;
    let default = action_default(&spec.action);
    normalize_options(&mut spec.target_options, default)
}

// The same, as a step of reading.
pub(crate) fn normalized(spec: &mut RuleSpec) -> Result<(), RuleFault>
    ensures { Gives (λ _. view_spec spec.new) result (Ok (normal_form (view_spec spec.old))) }
{
    match normalize(spec) {
        Ok(()) => return Ok(()),
        Err(_) => return Err(RuleFault::NoMemory),
    }
}
