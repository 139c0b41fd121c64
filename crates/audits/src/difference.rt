//! Asks whether two dumps give each packet the same verdict, and which of the rules that only one of them has can match.
pub(crate) mod found;

use crate::asking::Asking;
use crate::difference::found::{Difference, Differing, HookAnswer, HookLikeness, Pair};
use crate::each_rule::count_rules;
use crate::each_rule::known::{Form, Inquiry};
use crate::each_rule::tally::Tally;
use crate::walking::walk::Walk;
use crate::walking::walks_of;
use fields::{Hook, Words};
use questions::{Likeness, Need, WrittenPacket};
use rulesets::{Dump, OpenConditions};
use std::alloc::AllocError;
use std::io::IsTerminal;
use std::rt::Clock;

// What is asked of the changed rules of one of two dumps.
fn inquiry<'a>(pair: Pair<'a>, dump: &'a Dump) -> Inquiry<'a> {
    Inquiry {
        form: Form::Tests,
        dump,
        open: pair.open,
    }
}

// A walk of a packet in a table where these answers are right, if it is known.
fn walk_in<R: Clock, E: Print + IsTerminal>(
    asking: &Asking<'_, R, E>,
    dump: &Dump,
    open: &OpenConditions,
    packet: &WrittenPacket,
    given: &[Need],
) -> Result<Option<Walk>, AllocError> {
    match walks_of(asking, dump, open, packet, given)? {
        Some(mut walks) => Ok(walks.pop()),
        None => Ok(None),
    }
}

// Adds the walks of a packet that gets two verdicts where these answers are right, and the answers that the walks hang on besides.
fn add_walks<R: Clock, E: Print + IsTerminal>(
    asking: &Asking<'_, R, E>,
    pair: Pair<'_>,
    packet: &WrittenPacket,
    found: &mut Differing,
) -> Result<(), AllocError> {
    let Pair { old, new, open, .. } = pair;
    let Some(first) = walk_in(asking, old, open, packet, found.given.as_slice())? else {
        return Ok(());
    };
    let Some(second) = walk_in(asking, new, open, packet, first.given.as_slice())? else {
        return Ok(());
    };
    found.old = walk_in(asking, old, open, packet, second.given.as_slice())?;
    found.given.clear();
    found.given.extend_from_slice(second.given.as_slice())?;
    found.new = Some(second);
    Ok(())
}

// A packet that gets two verdicts, and its walks.
fn with_walks<R: Clock, E: Print + IsTerminal>(
    asking: &Asking<'_, R, E>,
    pair: Pair<'_>,
    words: Words,
    given: Vec<Need>,
) -> Result<Differing, AllocError> {
    let read = WrittenPacket::read(&words, 0);
    let mut found = Differing {
        words,
        given,
        old: None,
        new: None,
    };
    if let Ok(packet) = read {
        add_walks(asking, pair, &packet, &mut found)?;
    }
    Ok(found)
}

// Asks of a hook whether two tables give each packet there the same verdict where each verdict of its own drops, and then in each other reading of
// these. Of the answers the first is taken that says of a packet that it gets two verdicts, or else the first that isn't `Same`.
fn likeness<R: Clock, E: Print + IsTerminal>(
    asking: &Asking<'_, R, E>,
    pair: Pair<'_>,
    hook: Hook,
) -> Result<Likeness, AllocError> {
    let mut answer = asking.likeness(&pair.old.subject(), &pair.new.subject(), hook)?;
    for reading in pair.verdicts.readings() {
        if matches!(answer, Likeness::Differ(_, _)) {
            return Ok(answer);
        }
        let (old, new) = (
            pair.old.read_as(&reading.old),
            pair.new.read_as(&reading.new),
        );
        match asking.likeness(&old, &new, hook)? {
            Likeness::Same => {}
            other => answer = other,
        }
    }
    Ok(answer)
}

// Asks of a hook whether two tables give each packet there the same verdict.
fn ask_hook<R: Clock, E: Print + IsTerminal>(
    asking: &Asking<'_, R, E>,
    pair: Pair<'_>,
    hook: Hook,
) -> Result<HookAnswer, AllocError> {
    match likeness(asking, pair, hook)? {
        Likeness::Same => Ok(HookAnswer::Same),
        Likeness::Differ(words, answers) => {
            let given = pair.open.shown(asking.alloc(), &answers)?;
            Ok(HookAnswer::Differ(with_walks(asking, pair, words, given)?))
        }
        Likeness::Unclear => Ok(HookAnswer::Unclear),
    }
}

// Asks of each hook whether two tables give each packet there the same verdict.
fn ask_hooks<R: Clock, E: Print + IsTerminal>(
    asking: &mut Asking<'_, R, E>,
    pair: Pair<'_>,
) -> Result<Vec<HookLikeness>, AllocError> {
    let mut found = Vec::new(asking.alloc());
    for hook in Hook::ALL {
        asking.next();
        let answer = ask_hook(asking, pair, hook)?;
        found.push(HookLikeness { hook, answer })?;
    }
    Ok(found)
}

/// Asks of each hook whether two tables give each packet there the same verdict, and then of each rule that only one of them has
/// whether it can match in this one.
///
/// # Errors
///
/// `AllocError` where memory was refused.
pub fn ask_difference<R: Clock, E: Print + IsTerminal>(
    asking: &mut Asking<'_, R, E>,
    pair: Pair<'_>,
) -> Result<Difference, AllocError> {
    let (old, new) = pair.verdicts.told(pair.old, pair.new);
    let changes = asking.changes(&old, &new)?;
    let (went, came) = (changes.went.as_slice(), changes.came.as_slice());
    let rules = went.len().saturating_add(came.len());
    asking.begin(rules.saturating_add(Hook::ALL.len()));
    let hooks = ask_hooks(asking, pair)?;
    let mut tally = Tally::new();
    count_rules(asking, inquiry(pair, pair.old), went, &mut tally)?;
    count_rules(asking, inquiry(pair, pair.new), came, &mut tally)?;
    Ok(Difference { hooks, tally })
}
