//! The trail of a packet: the rules that match it, in turn.
ghost use Rattle.std.specs.Prelude.{◌≡◌, ◌<◌, ◌≤◌, length, false, true, IfNone, IfOk, IfSome, Some};
ghost use Rattle.table.specs.steps.Kept.{AreStored, IsIn, listed};
ghost use Rattle.table.specs.steps.Walking.{entry_before, walk_at};
ghost use Rattle.table.specs.walk.Walk.{Shows, shown};

use crate::parts::Parts;
use crate::verdict::Verdict;
use crate::walk::found::FoundChains;
use crate::walk::{LIMIT, Pending, SHORT, STACK, StepResult, follow};
use arrayvec::ArrayVec;
use fields::Packet;
use std::alloc::{AllocError, Global};

/// A rule that matched: the place of its chain in the order of a listing, from 0, and its number in the chain, from 1.
#[derive(Clone, Copy, Debug, PartialEq, Eq)]
pub struct Step {
    /// The chain's place.
    pub chain: usize,
    /// The rule's number.
    pub number: usize,
}

/// The rules that match a packet, and its verdict: what `Table::trail`, which alone makes one, answered.
#[derive(Drop)]
pub struct Trail {
    steps: Vec<Step>,
    verdict: Verdict,
    by_policy: bool,
}

impl Trail {
    /// The rules, in turn; they are lent. There are none where the walk is too long.
    pub fn steps(&self) -> &[Step]
        ensures { result.now ≡ self.now.steps.items }
    {
        &self.steps
    }

    /// The packet's verdict.
    pub fn verdict(&self) -> Verdict
        ensures { result ≡ self.now.verdict }
    {
        self.verdict
    }

    /// Whether the policy of the built-in chain gave the verdict.
    pub fn by_policy(&self) -> bool
        ensures { result ≡ self.now.by_policy }
    {
        self.by_policy
    }

    // Of a walk that no rule decided.
    fn undecided(steps: Vec<Step>, policy: Verdict) -> Trail
        ensures { result ≡ record { steps = steps; verdict = policy; by_policy = true } }
    {
        Trail {
            steps,
            verdict: policy,
            by_policy: true,
        }
    }

    // Of a walk that a rule decided, or that was too long.
    fn decided(steps: Vec<Step>, verdict: Verdict) -> Trail
        ensures { result ≡ record { steps = steps; verdict = verdict; by_policy = false } }
    {
        Trail {
            steps,
            verdict,
            by_policy: false,
        }
    }
}

impl Parts {
    // The rule just before a place, as a step of the trail. Where its chain is one of those at two places that are given, no name
    // is looked up.
    fn step_before(&self, hook: usize, last: usize, at: Pending) -> Step
        requires kept { AreStored self.now }
        requires hook { hook < length self.now.order.items }
        requires last { last < length self.now.order.items }
        requires present { IsIn self.now.order.items at.chain }
        ensures shown { shown (listed self.now.chains.slots self.now.order.items) (entry_before self.now.chains.slots at) ≡ Some result }
        ensures within { result.chain < length self.now.order.items }
    {
        if at.chain == self.order[hook] {
            return Step {
                chain: hook,
                number: at.passed,
            };
        }
        if at.chain == self.order[last] {
            return Step {
                chain: last,
                number: at.passed,
            };
        }
        let chain = &self.chains[at.chain];
        match self.index_of(chain.name().bytes()) {
            Some(place) => Step {
                chain: place,
                number: at.passed,
            },
            None => unreachable!(),
        }
    }

    // The trail of a packet, from the first rule of the chain at a place of the listing on, by a walk with room for so many
    // rests that wait. There is none where more would wait. It isn't inlined, so that a walk with few places pays for no more.
    #[inline(never)]
    fn trace_within<const DEPTH: usize>(
        &self,
        hook: usize,
        policy: Verdict,
        packet: &Packet,
    ) -> Result<Option<Trail>, AllocError>
        requires depth { DEPTH ≤ 1024 }
        requires kept { AreStored self.now }
        requires hook { hook < length self.now.order.items }
        ensures some { IfOk result (λ found. IfSome found (Shows (listed self.now.chains.slots self.now.order.items)
            (walk_at 65536 self.now.chains.slots self.now.order.items hook policy packet.now.values))) }
        ensures none { IfOk result (λ found. IfNone found (DEPTH < 1024)) }
    {
        let mut at = Pending::start(self.order[hook]);
        let mut stack: ArrayVec<Pending, DEPTH> = ArrayVec::new();
        let mut found = FoundChains {
            first: self.find(packet, at.chain),
            odd: None,
            even: None,
        };
        let mut left = LIMIT;
        let mut steps = Vec::new(self.alloc);
        let mut last = hook;
        'walk: loop {
            let Some(flow) = self.advance(packet, &mut at, &mut stack, &mut found) else {
                return Ok(Some(Trail::undecided(steps, policy)));
            };
            if left == 0 {
                return Ok(Some(Trail::decided(Vec::new(self.alloc), Verdict::TooLong)));
            }
            left -= 1;
            let step = self.step_before(hook, last, at);
            last = step.chain;
            steps.push(step)?;
            match follow(flow, &mut at, &mut stack) {
                StepResult::Decided(verdict) => return Ok(Some(Trail::decided(steps, verdict))),
                StepResult::ByPolicy => return Ok(Some(Trail::undecided(steps, policy))),
                StepResult::Continues => {}
                StepResult::StackFull => return Ok(None),
            }
        }
    }

    // The trail of a packet, from the first rule of the chain at a place of the listing on. A walk that needs more places than
    // the short stack has is walked again from its start, with a place for each user chain.
    pub(crate) fn trace(
        &self,
        hook: usize,
        policy: Verdict,
        packet: &Packet,
    ) -> Result<Trail, AllocError>
        requires kept { AreStored self.now }
        requires hook { hook < length self.now.order.items }
        ensures { IfOk result (Shows (listed self.now.chains.slots self.now.order.items)
            (walk_at 65536 self.now.chains.slots self.now.order.items hook policy packet.now.values)) }
    {
        if let Some(trail) = self.trace_within::<SHORT>(hook, policy, packet)? {
            return Ok(trail);
        }
        match self.trace_within::<STACK>(hook, policy, packet)? {
            Some(trail) => Ok(trail),
            None => unreachable!(),
        }
    }
}
