//! A rule as the options read so far make it.
ghost use Rattle.std.specs.Prelude.{◌≡◌, ◌==◌, ◌||◌, ◌≤◌, ◌<◌, ◌+◌, Option, Some, None, Ok, List, length, IfSome, IfOk, vec_len};
ghost use Rattle.std.specs.List.{list_any};
ghost use Rattle.rules.specs.rule.Actions.{action_has};
ghost use Rattle.rules.specs.Sequence.{Gives, RefusesFirst, or_refused};
ghost use Rattle.rules.specs.options.Matches.{kind_of};
ghost use Rattle.rules.specs.steps.OptionRows.{rank};
ghost use Rattle.rules.specs.options.OptionValues.{has_protocol};
ghost use Rattle.rules.specs.reading.Steps.{is_given, insert_by_place, with_option, with_match, last_with, implied_match, is_implied_option, match_for, with_option_at, has_goto, has_jump, with_jump, with_goto, match_step, step};
ghost use Rattle.rules.specs.rule.Needs.{is_met, is_met_for};
ghost use Rattle.rules.specs.steps.Views.{view_matches, view_spec, view_option_words};

use crate::options::match_kind::MatchKind;
use crate::options::option::{Opt, Owner};
use crate::options::option_value::{OptionValue, has_protocol};
use crate::options::value::{first_of, or_bad_value, value_of};
use crate::reading::fault::{Refusal, RuleFault};
use crate::reading::option_words::OptionWords;
use crate::rule::action::{Action, action_has};
use crate::rule::spec::{Match, RuleSpec};
use fields::Name;
use std::alloc::Global;

// Whether an option of this place was given.
fn is_given(option_values: &[OptionValue], slot: u8) -> bool
    ensures { result ≡ is_given slot option_values.now }
{
    option_values
        .iter()
        .any(|s| s.value.option().row().slot == slot)
}

// How many options stand before the first one of a later place.
fn rank(option_values: &[OptionValue], slot: u8) -> usize
    ensures value { result ≡ rank slot option_values.now }
    ensures within { result ≤ length option_values.now }
{
    for (i, option_value) in option_values.iter().enumerate() {
        if slot < option_value.value.option().row().slot {
            return i;
        }
    }
    option_values.len()
}

// Puts an option where it belongs among the others.
#[tactic(auto, using(crate::proofs::laws::reading::StepLaws::inserted_by_place))]
fn place(
    option_values: &mut Vec<OptionValue>,
    slot: u8,
    option_value: OptionValue,
) -> Result<(), RuleFault>
    ensures { Gives (λ _. option_values.new.items) result (Ok (insert_by_place slot option_value option_values.old.items)) }
{
    let at = rank(option_values.as_slice(), slot);
    match option_values.insert(at, option_value) {
        Ok(()) => return Ok(()),
        Err(_) => return Err(RuleFault::NoMemory),
    }
}

// One more option, where none of its place was given.
#[tactic(auto, unfolding(crate::specs::reading::Steps::with_option))]
fn add(
    alloc: Global,
    option_values: &mut Vec<OptionValue>,
    given: &OptionWords,
) -> Result<(), RuleFault>
    ensures gives { Gives (λ _. option_values.new.items) result (with_option option_values.old.items (view_option_words given.now)) }
    ensures refuses { RefusesFirst result (with_option option_values.old.items (view_option_words given.now)) }
{
    let slot = given.option.row().slot;
    if is_given(option_values.as_slice(), slot) {
        return Err(RuleFault::Refused(Refusal::RepeatedOption));
    }
    let value = value_of(alloc, given.option, given.inverted, given.values)?;
    let inverted = given.inverted;
    place(option_values, slot, OptionValue { inverted, value })
}

// The rule with one more match, where it has fewer than 16.
#[tactic(auto, unfolding(crate::specs::reading::Steps::with_match))]
fn start(alloc: Global, spec: &mut RuleSpec, kind: MatchKind) -> Result<(), RuleFault>
    ensures gives { Gives (λ _. view_spec spec.new) result (with_match (view_spec spec.old) kind) }
    ensures refuses { RefusesFirst result (with_match (view_spec spec.old) kind) }
    ensures longer { IfOk result (λ _. vec_len spec.new.matches ≡ vec_len spec.old.matches + 1) }
{
    if spec.matches.len() >= 16 {
        return Err(RuleFault::Refused(Refusal::TooManyMatches));
    }
    let option_values = Vec::new(alloc);
    match spec.matches.push(Match {
        kind,
        option_values,
    }) {
        Ok(()) => Ok(()),
        Err(_) => Err(RuleFault::NoMemory),
    }
}

// The last match that has an option.
fn last_with(matches: &[Match], option: Opt) -> Option<usize>
    ensures value { result ≡ last_with option (view_matches matches.now) }
    ensures within { IfSome result (λ i. i < length matches.now) }
{
    let mut found = None;
    for (i, one) in matches.iter().enumerate() {
        if one.kind.has(option) {
            found = Some(i);
        }
    }
    found
}

// Whether one of these protocols is the rule's.
fn has_one(protocols: &[u8], option_values: &[OptionValue]) -> bool
    ensures { result ≡ list_any (λ n. has_protocol n option_values.now) protocols.now }
{
    protocols.iter().any(|n| has_protocol(option_values, *n))
}

// Whether one of these protocols is the rule's, or there are none.
fn is_met(protocols: &[u8], option_values: &[OptionValue]) -> bool
    ensures { result ≡ is_met protocols.now option_values.now }
{
    protocols.is_empty() || has_one(protocols, option_values)
}

// Whether the rule has a protocol that a match needs.
pub(crate) fn is_met_for(kind: MatchKind, option_values: &[OptionValue]) -> bool
    ensures { result ≡ is_met_for kind option_values.now }
{
    is_met(kind.row().protocols, option_values)
}

// The match that an option starts by itself.
fn implied_match(option_values: &[OptionValue], option: Opt) -> Option<MatchKind>
    ensures { result ≡ implied_match option_values.now option }
{
    MatchKind::IMPLIED.iter().copied().find(|kind| is_met_for(*kind, option_values)
        && kind.has(option))
}

// Whether an option may start a match by itself.
fn is_implied_option(option: Opt) -> bool
    ensures { result ≡ is_implied_option option }
{
    MatchKind::IMPLIED.iter().any(|kind| kind.has(option))
}

// The rule with the match that an option belongs to, and that match's place.
#[tactic(auto, unfolding(crate::specs::reading::Steps::match_for))]
fn match_for(alloc: Global, spec: &mut RuleSpec, given: &OptionWords) -> Result<usize, RuleFault>
    ensures gives { Gives (λ i. (view_spec spec.new, i)) result (match_for (view_spec spec.old) (view_option_words given.now)) }
    ensures within { IfOk result (λ i. i < vec_len spec.new.matches) }
{
    if let Some(i) = last_with(spec.matches.as_slice(), given.option) {
        return Ok(i);
    }
    match implied_match(spec.option_values.as_slice(), given.option) {
        Some(kind) => {
            let i = spec.matches.len();
            start(alloc, spec, kind)?;
            Ok(i)
        }
        None => {
            if is_implied_option(given.option) {
                Err(RuleFault::Refused(Refusal::ProtocolNeeded))
            } else {
                Err(RuleFault::Refused(Refusal::UnknownOption(given.place)))
            }
        }
    }
}

// One more option of the match at a place.
#[tactic(auto, unfolding(crate::specs::reading::Steps::with_option_at))]
fn add_at(
    alloc: Global,
    matches: &mut Vec<Match>,
    i: usize,
    given: &OptionWords,
) -> Result<(), RuleFault>
    requires { i < vec_len matches.old }
    ensures { Gives (λ _. view_matches matches.new.items) result
        (with_option_at (view_matches matches.old.items) i (view_option_words given.now)) }
{
    let one = &mut matches[i];
    add(alloc, &mut one.option_values, given)
}

// Whether `-g` was given.
fn has_goto(action: &Option<Action>) -> bool
    ensures { result ≡ has_goto action.now }
{
    matches!(action, Some(Action::Goto(_)))
}

// Whether `-j` was given.
fn has_jump(action: &Option<Action>) -> bool
    ensures { result ≡ has_jump action.now }
{
    match action {
        None | Some(Action::Goto(_)) => false,
        Some(_) => true,
    }
}

// The rule with the target that `-j` names, where none was given.
#[tactic(auto, unfolding(crate::specs::reading::Steps::with_jump))]
fn with_jump(spec: &mut RuleSpec, text: &[u8]) -> Result<(), RuleFault>
    ensures { Gives (λ _. view_spec spec.new) result (with_jump (view_spec spec.old) text.now) }
{
    if has_goto(&spec.action) {
        return Err(RuleFault::Refused(Refusal::JumpAndGoto));
    }
    if has_jump(&spec.action) {
        return Err(RuleFault::Refused(Refusal::RepeatedOption));
    }
    let action = or_bad_value(Action::read(text))?;
    spec.action = Some(action);
    Ok(())
}

// The rule with the chain that `-g` names, where no target was given.
#[tactic(auto, unfolding(crate::specs::reading::Steps::with_goto))]
fn with_goto(spec: &mut RuleSpec, text: &[u8]) -> Result<(), RuleFault>
    ensures { Gives (λ _. view_spec spec.new) result (with_goto (view_spec spec.old) text.now) }
{
    if has_jump(&spec.action) {
        return Err(RuleFault::Refused(Refusal::JumpAndGoto));
    }
    if has_goto(&spec.action) {
        return Err(RuleFault::Refused(Refusal::RepeatedOption));
    }
    let name = or_bad_value(Name::read(text))?;
    spec.action = Some(Action::Goto(name));
    Ok(())
}

// The match that a name starts.
fn named_match(name: &[u8]) -> Result<MatchKind, RuleFault>
    ensures { Gives (λ k. k) result (or_refused Refusal.UnknownMatch (kind_of name.now)) }
{
    match MatchKind::read(name) {
        Some(kind) => Ok(kind),
        None => Err(RuleFault::Refused(Refusal::UnknownMatch)),
    }
}

// An option of a match.
fn add_to_match(alloc: Global, spec: &mut RuleSpec, given: &OptionWords) -> Result<(), RuleFault>
    ensures { Gives (λ _. view_spec spec.new) result (match_step (view_spec spec.old) (view_option_words given.now)) }
{
    let i = match_for(alloc, spec, given)?;
    add_at(alloc, &mut spec.matches, i, given)?;
    Ok(())
}

// The rule so far with one more option.
#[tactic(auto, unfolding(crate::specs::reading::Steps::step))]
pub(crate) fn step(alloc: Global, spec: &mut RuleSpec, given: &OptionWords) -> Result<(), RuleFault>
    ensures { Gives (λ _. view_spec spec.new) result (step (view_spec spec.old) (view_option_words given.now)) }
{
    match given.option.row().owner {
        Owner::Rule => {
            add(alloc, &mut spec.option_values, given)?;
            Ok(())
        }
        Owner::Start => {
            let kind = named_match(first_of(given.values))?;
            start(alloc, spec, kind)
        }
        Owner::Jump => with_jump(spec, first_of(given.values)),
        Owner::Goto => with_goto(spec, first_of(given.values)),
        Owner::Match(_) => add_to_match(alloc, spec, given),
        Owner::Target(_) => {
            if !action_has(&spec.action, given.option) {
                return Err(RuleFault::Refused(Refusal::OtherTarget));
            }
            add(alloc, &mut spec.target_options, given)?;
            Ok(())
        }
    }
}
