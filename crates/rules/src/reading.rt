//! A rule read from words: a step an option, then its normal form, and then the check of what it needs.
ghost use Rattle.std.specs.Prelude.{◌≡◌, ◌≤◌, ◌<◌, ◌+◌, ◌-◌, ◌&&◌, ◌==◌, not, Option, Some, None, List, length, drop, IfOk};
ghost use Rattle.std.specs.List.{list_any};
ghost use Rattle.fields.specs.text.WordSlice.{words_in};
ghost use Rattle.rules.specs.Sequence.{Gives};
ghost use Rattle.rules.specs.options.Matches.{match_row};
ghost use Rattle.rules.specs.rule.Readable.{IsReadable};
ghost use Rattle.rules.specs.rule.Rules.{empty_rule};
ghost use Rattle.rules.specs.reading.Steps.{steps_from, unless_unmet, with_needs_met, rule_of};
ghost use Rattle.rules.specs.rule.Needs.{is_met_for, unmet_match, or_else, unmet_matches, is_reset, unmet_reset, unmet};
ghost use Rattle.rules.specs.steps.Views.{view_match, view_matches, view_spec};

pub(crate) mod fault;
pub(crate) mod grammar;
pub(crate) mod normal_form;
pub(crate) mod option_words;
pub(crate) mod steps;

use crate::options::option_value::{OptionValue, has_protocol};
use crate::options::value::Value;
use crate::reading::fault::{Refusal, RuleFault};
use crate::reading::normal_form::normalized;
use crate::reading::option_words::option_words_at;
use crate::reading::steps::{is_met_for, step};
use crate::rule::Rule;
use crate::rule::spec::{Match, RuleSpec};
use fields::{RejectType, WordSlice, Words};
use std::alloc::Global;

// A rule of which nothing was read yet.
fn empty(alloc: Global) -> RuleSpec
    ensures { view_spec result ≡ empty_rule }
{
    RuleSpec {
        option_values: Vec::new(alloc),
        matches: Vec::new(alloc),
        action: None,
        target_options: Vec::new(alloc),
    }
}

// The rule that the options of the words make, one after another.
fn read_options(alloc: Global, end: usize, words: WordSlice) -> Result<RuleSpec, RuleFault>
    requires { length (words_in words) ≤ end }
    ensures { Gives view_spec result (steps_from (length (words_in words.entry)) end empty_rule (words_in words.entry)) }
{
    let mut spec = empty(alloc);
    let mut rest = words;
    while !rest.is_empty() {
        let (given, after) = option_words_at(end, rest)?;
        step(alloc, &mut spec, &given)?;
        rest = after;
    }
    Ok(spec)
}

// What a match lacks.
fn unmet_match(option_values: &[OptionValue], one: &Match) -> Option<Refusal>
    ensures { result ≡ unmet_match option_values.now (view_match one.now) }
{
    if !is_met_for(one.kind, option_values) {
        return Some(Refusal::ProtocolNeeded);
    }
    if one.kind.row().needs_option && one.option_values.is_empty() {
        return Some(Refusal::MatchOptionMissing);
    }
    None
}

// What the first match lacks that lacks something.
fn unmet_matches(option_values: &[OptionValue], matches: &[Match]) -> Option<Refusal>
    ensures { result ≡ unmet_matches option_values.now (view_matches matches.now) }
{
    for one in matches {
        if let Some(refusal) = unmet_match(option_values, one) {
            return Some(refusal);
        }
    }
    None
}

// Whether the option asks for the reset of a connection.
fn is_reset(option_value: &OptionValue) -> bool
    ensures { result ≡ is_reset option_value.now }
{
    matches!(option_value.value, Value::RejectWith(RejectType::TcpReset))
}

// Whether one of the options does.
fn asks_reset(target_options: &[OptionValue]) -> bool
    ensures { result ≡ list_any is_reset target_options.now }
{
    target_options.iter().any(is_reset)
}

// What a reset lacks: it is of tcp alone.
fn unmet_reset(option_values: &[OptionValue], target_options: &[OptionValue]) -> Option<Refusal>
    ensures { result ≡ unmet_reset option_values.now target_options.now }
{
    if asks_reset(target_options) && !has_protocol(option_values, 6) {
        return Some(Refusal::ProtocolNeeded);
    }
    None
}

// What the rule lacks after its last word.
fn unmet(spec: &RuleSpec) -> Option<Refusal>
    ensures { result ≡ unmet (view_spec spec.now) }
{
    let option_values = spec.option_values.as_slice();
    match unmet_matches(option_values, spec.matches.as_slice()) {
        Some(refusal) => Some(refusal),
        None => unmet_reset(option_values, spec.target_options.as_slice()),
    }
}

// Brings the rule to its normal form, where its needs hold.
fn with_needs_met(spec: &mut RuleSpec) -> Result<(), RuleFault>
    ensures { Gives (λ _. view_spec spec.new) result (with_needs_met (view_spec spec.old)) }
{
    normalized(spec)?;
    match unmet(spec) {
        None => Ok(()),
        Some(refusal) => Err(RuleFault::Refused(refusal)),
    }
}

// The rule that the words read as; `end` is the place after the last word of the line.
#[tactic(auto, unfolding(crate::specs::reading::Steps::rule_of))]
fn rule_of(alloc: Global, end: usize, words: WordSlice) -> Result<RuleSpec, RuleFault>
    requires { length (words_in words) ≤ end }
    ensures { Gives view_spec result (rule_of end (words_in words.entry)) }
{
    let mut spec = read_options(alloc, end, words)?;
    with_needs_met(&mut spec)?;
    Ok(spec)
}

/// The rule that the words from a place on read as (iptables(8), iptables-extensions(8)). From beyond the last word
/// on there are no words, and they read as the rule without a condition or a target. Every rule that is read is
/// readable: its text reads back as it.
///
/// It takes memory for the rule's matches and options and for its comments, as `Rule` says, and time linear in the
/// words and their bytes.
///
/// # Errors
///
/// `RuleFault::Refused` with the first fault of the words, P1 to P12, and `RuleFault::NoMemory`, P0, where memory was
/// refused.
pub fn read_rule(alloc: Global, words: &Words, from: usize) -> Result<Rule, RuleFault>
    ensures reads { Gives (λ r. r) result (rule_of (length words.now) (drop from words.now)) }
    ensures readable { IfOk result IsReadable }
{
    let spec = rule_of(alloc, words.len(), words.after(from))?;
    match Rule::of(alloc, spec) {
        Ok(rule) => Ok(rule),
        Err(_) => Err(RuleFault::NoMemory),
    }
}
