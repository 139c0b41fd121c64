//! Ways to a rule: the jumps and gotos by which packets come to its chain.
ghost use Rattle.std.specs.Prelude.{◌≡◌, ◌≢◌, ◌<◌, [], true, length, IfOk, IfSome, IsTrue, MatchOption, OnOk};
ghost use Rattle.fields.specs.Packet.{PacketView};
ghost use Rattle.rules.specs.rule.Allows.{matches};
ghost use Rattle.table.specs.steps.Kept.{hook_index};
ghost use Rattle.questions.specs.Foreign.{Assignment, all_hold};
ghost use Rattle.questions.specs.Scopes.{table_of, whole_of};
ghost use Rattle.questions.specs.boxes.Boxes.{IsAtHook};
ghost use Rattle.questions.specs.boxes.Calls.{IsCall};
ghost use Rattle.questions.specs.steps.Seeking.{IsAheadOn, IsForOne, IsHere, TakesBy, TakesOver, TakesScopes, top_of, AddsWays, IsLetOn, IsLonger};

use crate::foreign::need::meeting;
use crate::foreign::subject::Subject;
use crate::seeking::calls::Call;
use crate::seeking::seen::Seen;
use crate::walking::scope::Scope;
use fields::Hook;
use std::alloc::{AllocError, Global};
use table::Step;

// A way to a rule: the rule, the packets that it and all places on the way may match, and the places, which jump or go on, the last one
// first.
#[derive(Drop)]
pub(crate) struct Way {
    pub wanted: Step,
    pub scope: Scope,
    pub places: Vec<Step>,
}

impl Way {
    // The first one to a rule: from the rule itself.
    pub(crate) fn first(alloc: Global, wanted: Step, scope: Scope) -> Way
        ensures wanted { result.wanted ≡ wanted }
        ensures scope { result.scope ≡ scope }
        ensures places { result.places.items ≡ [] }
    {
        let places = Vec::new(alloc);
        Way {
            wanted,
            scope,
            places,
        }
    }

    // The chain in which it begins.
    pub(crate) fn chain(&self) -> usize
        ensures { result ≡ (top_of self.now.wanted self.now.places.items).chain }
    {
        match self.places.last() {
            Some(place) => place.chain,
            None => self.wanted.chain,
        }
    }

    // The place after so many, or the rule.
    pub(crate) fn place_after(&self, taken: usize) -> Step {
        let count = self.places.len();
        if taken < count {
            return self.places[count - 1 - taken];
        }
        self.wanted
    }

    // Its own rule or one of its places that a rule stands ahead of.
    pub(crate) fn place_behind(&self, by: Step) -> Option<Step>
        ensures { IfSome result (IsAheadOn self.now by) }
    {
        for place in self.places.as_slice() {
            if place.chain == by.chain && by.number < place.number {
                return Some(*place);
            }
        }
        if self.wanted.chain == by.chain && by.number < self.wanted.number {
            return Some(self.wanted);
        }
        None
    }

    // The same way for the packets of another scope.
    pub(crate) fn with(&self, alloc: Global, scope: Scope) -> Result<Way, AllocError>
        ensures wanted { IfOk result (λ way. way.wanted ≡ self.now.wanted) }
        ensures scope { IfOk result (λ way. way.scope ≡ scope) }
        ensures places { IfOk result (λ way. way.places.items ≡ self.now.places.items) }
    {
        let mut places = Vec::new(alloc);
        places.extend_from_slice(self.places.as_slice())?;
        Ok(Way {
            wanted: self.wanted,
            scope,
            places,
        })
    }
}

// The packets of a scope that a rule may match too; none where its needs contradict the answers.
pub(crate) fn met_with(
    alloc: Global,
    seen: &Seen<'_>,
    scope: &Scope,
) -> Result<Option<Scope>, AllocError>
    ensures all { IfOk result (λ found. (a : Assignment) (p : PacketView) → IsAtHook p → IsHere a p scope.now
        → matches p.values seen.now.rule.now ≡ true → IsTrue (all_hold a seen.now.needs.now) → MatchOption found ⊥ (IsHere a p)) }
    ensures only { IfOk result (λ found. IfSome found (IsLetOn seen.now.rule.now seen.now.needs.now scope.now)) }
{
    let Some(answers) = meeting(seen.needs, scope.answers.copy(alloc)?)? else {
        return Ok(None);
    };
    let area = scope.area.within(alloc, seen.own.boxed().spans())?;
    if area.is_empty() {
        return Ok(None);
    }
    Ok(Some(Scope { area, answers }))
}

// Adds the way by one more jump or goto, if some packet may take it.
fn add_by(
    alloc: Global,
    subject: &Subject<'_>,
    way: &Way,
    by: Step,
    ways: &mut Vec<Way>,
) -> Result<(), AllocError>
    ensures takes { OnOk result (TakesBy subject.now way.now by ways.old.items ways.new.items) }
    ensures longer { IsCall (table_of subject.now) (record { to = (top_of way.now.wanted way.now.places.items).chain; by = by })
        → OnOk result (AddsWays (IsLonger (whole_of subject.now) way.now) ways.old.items ways.new.items) }
{
    subject.boxed.table.stands();
    let Some(seen) = Seen::at(*subject, by) else {
        return Ok(());
    };
    let Some(scope) = met_with(alloc, &seen, &way.scope)? else {
        return Ok(());
    };
    let mut more = way.with(alloc, scope)?;
    more.places.push(by)?;
    ways.push(more)?;
    Ok(())
}

// Takes the ways by each rule that leads to the chain in which a way begins; the first of these is the last.
pub(crate) fn add_longer(
    alloc: Global,
    subject: &Subject<'_>,
    hook: Hook,
    way: &Way,
    ways: &mut Vec<Way>,
) -> Result<(), AllocError>
    requires there { (top_of way.now.wanted way.now.places.items).chain < length (table_of subject.now).chains }
    requires other { (top_of way.now.wanted way.now.places.items).chain ≢ hook_index hook }
    ensures takes { OnOk result (TakesOver subject.now hook way.now ways.old.items ways.new.items) }
    ensures longer { OnOk result (AddsWays (IsLonger (whole_of subject.now) way.now) ways.old.items ways.new.items) }
{
    subject.boxed.table.stands();
    let chain = way.chain();
    let calls = subject.boxed.calls();
    for before in 0..calls.len() {
        let Call { to, by } = calls[calls.len() - 1 - before];
        if to == chain {
            add_by(alloc, subject, way, by, ways)?;
        }
    }
    Ok(())
}

// Takes a way for the packets of each of some scopes.
pub(crate) fn add_parts(
    alloc: Global,
    way: &Way,
    mut scopes: Vec<Scope>,
    ways: &mut Vec<Way>,
) -> Result<(), AllocError>
    ensures takes { OnOk result (TakesScopes way.now scopes.items ways.old.items ways.new.items) }
    ensures each { OnOk result (AddsWays (IsForOne way.now scopes.items) ways.old.items ways.new.items) }
{
    while let Some(scope) = scopes.pop() {
        ways.push(way.with(alloc, scope)?)?;
    }
    Ok(())
}
