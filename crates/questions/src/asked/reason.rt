//! Why a rule is dead.
ghost use Rattle.std.specs.Prelude.{◌≡◌, ◌<◌, ◌≤◌, [], false, length, IfOk, IsTrue, MatchOption};
ghost use Rattle.rules.specs.Boxed.{set_on};
ghost use Rattle.table.specs.chains.Table.{chain_at};
ghost use Rattle.questions.specs.Ends.{IsRule, rule_at};
ghost use Rattle.questions.specs.Scopes.{table_of};
ghost use Rattle.questions.specs.asked.Reason.{IsPossible, IsReached, ExplainsUnder, IsReasonUnder, IsTakenUnder};
ghost use Rattle.questions.specs.asked.Unknown.{IsUndecidedUnder};
ghost use Rattle.questions.specs.boxes.Boxes.{HasNumbers};

use crate::asked::leading::{leading_to, none_led};
use crate::asked::takers::{Takers, takers_of};
use crate::asked::ways::ways_into;
use crate::foreign::subject::Subject;
use fields::Field;
use rules::Boxed;
use std::alloc::{AllocError, Global};
use table::Step;

/// Why a rule is dead.
#[derive(Drop)]
pub enum Reason {
    /// No packet that can be at a hook has a number on this field that the rule allows.
    Impossible(Field),
    /// No jumps and gotos lead from a built-in chain to the rule's chain.
    Unreached,
    /// The rule matches no packet that can be at a hook from whose chain jumps and gotos lead to the rule's chain, or what the rule needs
    /// contradicts itself.
    NoPacket,
    /// The rule's chain is one of some chains in which no walk begins, and just these rules of other chains jump or
    /// go to one of them. No packet is matched by one of these rules and by the rule.
    Excluded(Vec<Step>),
    /// The rule matches some of these packets, and just these rules and policies decide those that may come to its chain, since
    /// it is the hook's or a rule that jumps or goes there allows each of the packet's numbers; where none may, all of them. Each
    /// such packet is decided by one of them, and each of them decides one.
    Taken(Takers),
}

// A field on which a rule allows no number.
fn bare_field(boxed: &Boxed) -> Option<Field>
    ensures { MatchOption result (HasNumbers boxed.now) (λ field. set_on field boxed.now ≡ []) }
{
    for field in Field::ALL {
        if boxed.on(field).intervals().is_empty() {
            return Some(field);
        }
    }
    None
}

// The reason that they are, if they decide anything and the rules that lead to the rule's chain let some of its packets through.
fn reason_by(
    alloc: Global,
    subject: &Subject<'_>,
    step: Step,
    takers: Takers,
) -> Result<Reason, AllocError>
    requires { IsRule (table_of subject.now) step }
    ensures { IfOk result (λ reason. IsPossible (rule_at (table_of subject.now) step) → IsReached (table_of subject.now) step
        → IsTakenUnder subject.now step takers → IsReasonUnder subject.now step reason) }
{
    if takers.are_none() {
        return Ok(Reason::NoPacket);
    }
    match ways_into(alloc, subject.boxed, step)? {
        Some(ways) => Ok(Reason::Excluded(ways)),
        None => Ok(Reason::Taken(takers)),
    }
}

/// Why rule `number` of the chain at a place, both of which have to be there, is dead, whatever holds: the first reason in the order of `Reason`, where
/// rules exclude packets of the rule if their boxes share none with its box. Rules count from 1. An answer also says that the rule is dead. It speaks of
/// the packets that the rule matches where all holds that it needs; if this contradicts itself, there are none. Each rule and policy that is named
/// decides one where some conditions hold.
///
/// The packets that the rule's box has walk from each hook that leads to its chain as a box, those of each rule that jumps or
/// goes there by themselves, with `budget` steps each time (`leaves_under`), under answers that are right just where all holds that the rule needs. A step
/// is also one box that parts by a condition. Leaves are cut by transport header.
///
/// There is no answer only where, at a hook from whose chain jumps and gotos lead to the rule's chain, the rule tests
/// both ports at once (`Rule::asks_both`), the steps don't suffice, a trail is full, or a walk comes to the rule.
///
/// # Errors
///
/// `AllocError` where memory was refused.
pub fn why_dead_under(
    alloc: Global,
    subject: &Subject<'_>,
    place: usize,
    number: usize,
    budget: usize,
) -> Result<Option<Reason>, AllocError>
    requires place { place < length (table_of subject.now).chains }
    requires first { 0 < number }
    requires last { number ≤ length (chain_at (table_of subject.now) place).rules }
    ensures { IfOk result (λ found. MatchOption found
        (IsUndecidedUnder subject.now (record { chain = place; number = number }) budget)
        (ExplainsUnder subject.now (record { chain = place; number = number }))) }
{
    subject.boxed.table.stands();
    let step = Step {
        chain: place,
        number,
    };
    let boxed = subject.boxed.at(place, number);
    if let Some(field) = bare_field(boxed) {
        return Ok(Some(Reason::Impossible(field)));
    }
    let marks = leading_to(alloc, subject.boxed, place)?;
    if none_led(marks.as_slice()) {
        return Ok(Some(Reason::Unreached));
    }
    match takers_of(alloc, subject, step, marks.as_slice(), budget)? {
        None => Ok(None),
        Some(takers) => Ok(Some(reason_by(alloc, subject, step, takers)?)),
    }
}
