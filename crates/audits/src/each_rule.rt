//! What is known of each rule, in the order of a listing: dead ones, a packet for each, those that no packet covers.
ghost use Rattle.std.specs.Prelude.{◌<◌, ◌≤◌, length};
ghost use Rattle.questions.specs.Scopes.{table_of};
ghost use Rattle.table.specs.chains.Table.{chain_at};

pub(crate) mod deciding;
pub(crate) mod known;
pub(crate) mod tally;

use crate::asking::Asking;
use crate::each_rule::known::{Form, Found, FoundRule, Inquiry, Known};
use crate::each_rule::tally::Tally;
use questions::{Answers, Life, Need, Reason, Subject};
use rulesets::{OpenConditions, contradict};
use std::alloc::{AllocError, Global};
use std::io::IsTerminal;
use std::rt::Clock;
use table::{Step, Table};

// The answers under which a packet that was given matches the rule, if one does; there are none where it does whichever are right.
fn covered(form: Form<'_>, at: Step) -> Option<&[Need]> {
    match form {
        Form::Cover(marks) => marks.given(at),
        Form::Dead | Form::Tests => None,
    }
}

// Whether a packet that was given may match the rule, and none is known to.
fn may_be_covered(form: Form<'_>, at: Step) -> bool {
    match form {
        Form::Cover(marks) => marks.is_unclear(at),
        Form::Dead | Form::Tests => false,
    }
}

// Whether it is asked why a rule is dead.
fn has_reasons(form: Form<'_>) -> bool {
    matches!(form, Form::Dead)
}

// Whether a rule of which this is known stands in the answer.
fn has(form: Form<'_>, known: &Known) -> bool {
    match form {
        Form::Dead => !matches!(known, Known::Live(_, _)),
        Form::Tests | Form::Cover(_) => true,
    }
}

// Takes in what is known of a rule.
fn add(found: &mut Found, inquiry: Inquiry<'_>, at: Step, known: Known) -> Result<(), AllocError> {
    found.tally.note(&known, known.standing(inquiry.dump, at));
    if has(inquiry.form, &known) {
        found.rules.push(FoundRule { at, known })?;
    }
    Ok(())
}

// Puts the rules of a reason into the order of a listing, but for those of the chain at a place, which come first.
fn put_in_order(reason: &mut Reason, place: usize) {
    let rules = match reason {
        Reason::Excluded(ways) => ways,
        Reason::Taken(takers) => &mut takers.rules,
        Reason::Impossible(_) | Reason::Unreached | Reason::NoPacket => return,
    };
    rules.sort_unstable_by_key(|rule| (rule.chain != place, rule.chain, rule.number));
}

/// What is shown of answers, in the order of their conditions.
///
/// # Errors
///
/// `AllocError` where memory was refused.
pub(crate) fn shown_in_order(
    alloc: Global,
    open: &OpenConditions,
    answers: &Answers,
) -> Result<Vec<Need>, AllocError> {
    let mut given = open.shown(alloc, answers)?;
    given.sort_unstable_by_key(|need| need.condition);
    Ok(given)
}

// The answers under which a rule is live. None are where it is asked which rules are dead: there it isn't shown.
fn shown_of(
    alloc: Global,
    inquiry: Inquiry<'_>,
    answers: &Answers,
) -> Result<Vec<Need>, AllocError> {
    if matches!(inquiry.form, Form::Dead) {
        return Ok(Vec::new(alloc));
    }
    shown_in_order(alloc, inquiry.open, answers)
}

// Asks of a rule. One that a packet matches that was given needn't be asked of.
fn ask_rule<R: Clock, E: Print + IsTerminal>(
    asking: &mut Asking<'_, R, E>,
    subject: &Subject<'_>,
    inquiry: Inquiry<'_>,
    at: Step,
) -> Result<Known, AllocError>
    requires place { at.chain < length (table_of subject.now).chains }
    requires first { 0 < at.number }
    requires last { at.number ≤ length (chain_at (table_of subject.now) at.chain).rules }
{
    asking.next();
    if let Some(given) = covered(inquiry.form, at) {
        return Ok(Known::Covered(given.to_vec(asking.alloc())?));
    }
    let life = match inquiry.form {
        Form::Dead => asking.life(subject, at)?,
        Form::Tests | Form::Cover(_) => asking.life_by_few(subject, at)?,
    };
    match life {
        Life::Live(_, _) if may_be_covered(inquiry.form, at) => Ok(Known::Unclear),
        Life::Live(words, answers) => {
            let given = shown_of(asking.alloc(), inquiry, &answers)?;
            Ok(Known::Live(words, given))
        }
        Life::Dead if !has_reasons(inquiry.form) => Ok(Known::Dead(None)),
        Life::Dead if contradict(inquiry.dump.needs_of(at)) => Ok(Known::Unmet),
        Life::Dead => {
            let mut reason = asking.reason(subject, at)?;
            if let Some(reason) = &mut reason {
                put_in_order(reason, at.chain);
            }
            Ok(Known::Dead(reason))
        }
        Life::Unclear => Ok(Known::Unclear),
    }
}

// Asks of a rule, where one stands there, whether a packet can match it, and counts it.
fn count_rule<R: Clock, E: Print + IsTerminal>(
    asking: &mut Asking<'_, R, E>,
    inquiry: Inquiry<'_>,
    at: Step,
    tally: &mut Tally,
) -> Result<(), AllocError> {
    let subject = inquiry.dump.subject();
    let table = &subject.boxed.table;
    if at.chain >= table.chain_count() || at.number == 0 || at.number > table.rule_count(at.chain) {
        return Ok(());
    }
    let known = ask_rule(asking, &subject, inquiry, at)?;
    tally.note(&known, None);
    Ok(())
}

/// Asks of each of some rules of a table whether a packet can match it, and counts it.
///
/// # Errors
///
/// `AllocError` where memory was refused.
pub(crate) fn count_rules<R: Clock, E: Print + IsTerminal>(
    asking: &mut Asking<'_, R, E>,
    inquiry: Inquiry<'_>,
    rules: &[Step],
    tally: &mut Tally,
) -> Result<(), AllocError> {
    for at in rules {
        count_rule(asking, inquiry, *at, tally)?;
    }
    Ok(())
}

// Asks of each rule of the chain at a place.
fn ask_chain<R: Clock, E: Print + IsTerminal>(
    asking: &mut Asking<'_, R, E>,
    subject: &Subject<'_>,
    inquiry: Inquiry<'_>,
    place: usize,
    found: &mut Found,
) -> Result<(), AllocError>
    requires { place < length (table_of subject.now).chains }
{
    let table = &subject.boxed.table;
    for before in 0..table.rule_count(place) {
        let at = Step {
            chain: place,
            number: before + 1,
        };
        let known = ask_rule(asking, subject, inquiry, at)?;
        add(found, inquiry, at, known)?;
    }
    Ok(())
}

// How many rules a table has.
fn rules_of(table: &Table) -> usize {
    let mut rules = 0usize;
    for place in 0..table.chain_count() {
        rules = rules.saturating_add(table.rule_count(place));
    }
    rules
}

/// Asks of each rule of a table, in the order of a listing.
///
/// # Errors
///
/// `AllocError` where memory was refused.
pub fn ask_rules<R: Clock, E: Print + IsTerminal>(
    asking: &mut Asking<'_, R, E>,
    inquiry: Inquiry<'_>,
) -> Result<Found, AllocError> {
    let subject = inquiry.dump.subject();
    let table = &subject.boxed.table;
    asking.begin(rules_of(table));
    let mut found = Found {
        rules: Vec::new(asking.alloc()),
        tally: Tally::new(),
    };
    for place in 0..table.chain_count() {
        ask_chain(asking, &subject, inquiry, place, &mut found)?;
    }
    Ok(found)
}
