//! The walk of a packet, by the keys of chains, with a return stack of fixed size: a short one first, and the deep
//! one where that is full.
ghost use Rattle.std.specs.Prelude.{◌≡◌, ◌<◌, ◌≤◌, ℕ, List, length, IfSome, IfNone, Option, Some, None};
ghost use Rattle.table.specs.steps.Walking.{AreFound, Follows, IsHit, IsState, LeadsIn, NoRoom, next_by, start, state_of, walk_at};
ghost use Rattle.table.specs.steps.Kept.{AreStored, listed};
ghost use Rattle.table.specs.steps.StoredChains.{StoredChain};
ghost use Rattle.table.specs.walk.Walk.{first_hit};

pub(crate) mod depth;
pub(crate) mod found;
pub(crate) mod trail;

use crate::chain::entry::Flow;
use crate::parts::Parts;
use crate::verdict::Verdict;
use crate::walk::found::FoundChains;
use arrayvec::ArrayVec;
use fields::Packet;

// What is left of a chain: its key, and how many of its rules were passed.
#[derive(Clone, Copy, Default)]
pub(crate) struct Pending {
    pub(crate) chain: usize,
    pub(crate) passed: usize,
}

impl Pending {
    // All of a chain.
    pub(crate) fn start(chain: usize) -> Pending
        ensures { result ≡ start chain }
    {
        Pending { chain, passed: 0 }
    }
}

// Where a match leaves the walk.
#[derive(Clone, Copy)]
pub(crate) enum StepResult {
    // At a verdict.
    Decided(Verdict),
    // At the end of the built-in chain.
    ByPolicy,
    // At the rules to go on with.
    Continues,
    // At a jump, with no place on the stack for what is left of its chain.
    StackFull,
}

// The most rests that wait: there are no more user chains.
const STACK: usize = 1024;

// So many places does a walk have at first: in most walks few rests wait, and a new stack costs a write for each of its
// places.
const SHORT: usize = 16;

impl Parts {
    // Goes to the first rule that matches.
    pub(crate) fn advance<'a, const DEPTH: usize>(
        &'a self,
        packet: &Packet,
        at: &mut Pending,
        stack: &mut ArrayVec<Pending, DEPTH>,
        found: &mut FoundChains<'a>,
    ) -> Option<Flow>
        requires kept { AreStored self.now }
        requires state { IsState self.now.order.items at.old stack.old.items }
        requires found { AreFound self.now.chains.slots packet.now.values found.old }
        ensures none { IfNone result (first_hit (listed self.now.chains.slots self.now.order.items) packet.now.values
            (state_of self.now.chains.slots at.old stack.old.items) ≡ None) }
        ensures some { IfSome result (λ flow. IsHit self.now.chains.slots self.now.order.items
            (first_hit (listed self.now.chains.slots self.now.order.items) packet.now.values
            (state_of self.now.chains.slots at.old stack.old.items)) flow at.new stack.new.items) }
        ensures found { AreFound self.now.chains.slots packet.now.values found.new }
    {
        'rests: loop {
            match self.next_rule(packet, *at, stack.len(), found) {
                Some(place) => {
                    at.passed = place + 1;
                    return Some(self.chains[at.chain].entry(place).flow);
                }
                None => match stack.pop() {
                    Some(rest) => *at = rest,
                    None => return None,
                },
            }
        }
    }
}

// Does what the flow of a rule that matched says, but for a jump that finds no room.
pub(crate) fn follow<const DEPTH: usize>(
    flow: Flow,
    at: &mut Pending,
    stack: &mut ArrayVec<Pending, DEPTH>,
) -> StepResult
    ensures follows { (slots : List (Option StoredChain))
        → Follows slots (next_by slots flow at.old stack.old.items) result at.new stack.new.items }
    ensures state { (order : List ℕ) → IsState order at.old stack.old.items → LeadsIn order flow
        → result ≡ StepResult.Continues → IsState order at.new stack.new.items }
    ensures full { result ≡ StepResult.StackFull → NoRoom DEPTH flow stack.old.items }
{
    match flow {
        Flow::Decide(verdict) => StepResult::Decided(verdict),
        Flow::Continue => StepResult::Continues,
        Flow::Return => match stack.pop() {
            Some(rest) => {
                *at = rest;
                StepResult::Continues
            }
            None => StepResult::ByPolicy,
        },
        Flow::Jump(key) => {
            if stack.is_full() {
                return StepResult::StackFull;
            }
            stack.push(*at);
            *at = Pending::start(key);
            StepResult::Continues
        }
        Flow::Goto(key) => {
            *at = Pending::start(key);
            StepResult::Continues
        }
    }
}

// A walk may match so many rules.
const LIMIT: u32 = 65536;

impl Parts {
    // The verdict on a packet, from the first rule of the chain at a place of the listing on, by a walk with room for so
    // many rests that wait. There is none where more would wait. It isn't inlined, so that a walk with few places pays for
    // no more.
    #[inline(never)]
    fn decide_within<const DEPTH: usize>(
        &self,
        hook: usize,
        policy: Verdict,
        packet: &Packet,
    ) -> Option<Verdict>
        requires depth { DEPTH ≤ 1024 }
        requires kept { AreStored self.now }
        requires hook { hook < length self.now.order.items }
        ensures some { IfSome result (λ verdict. verdict
            ≡ (walk_at 65536 self.now.chains.slots self.now.order.items hook policy packet.now.values).verdict) }
        ensures none { IfNone result (DEPTH < 1024) }
    {
        let mut at = Pending::start(self.order[hook]);
        let mut stack: ArrayVec<Pending, DEPTH> = ArrayVec::new();
        let mut found = FoundChains {
            first: self.find(packet, at.chain),
            odd: None,
            even: None,
        };
        let mut left = LIMIT;
        'walk: loop {
            let Some(flow) = self.advance(packet, &mut at, &mut stack, &mut found) else {
                return Some(policy);
            };
            if left == 0 {
                return Some(Verdict::TooLong);
            }
            left -= 1;
            match follow(flow, &mut at, &mut stack) {
                StepResult::Decided(verdict) => return Some(verdict),
                StepResult::ByPolicy => return Some(policy),
                StepResult::Continues => {}
                StepResult::StackFull => return None,
            }
        }
    }

    // The verdict on a packet, from the first rule of the chain at a place of the listing on. A walk that needs more places
    // than the short stack has is walked again from its start, with a place for each user chain.
    pub(crate) fn decide(&self, hook: usize, policy: Verdict, packet: &Packet) -> Verdict
        requires kept { AreStored self.now }
        requires hook { hook < length self.now.order.items }
        ensures { result ≡ (walk_at 65536 self.now.chains.slots self.now.order.items hook policy packet.now.values).verdict }
    {
        if let Some(verdict) = self.decide_within::<SHORT>(hook, policy, packet) {
            return verdict;
        }
        match self.decide_within::<STACK>(hook, policy, packet) {
            Some(verdict) => verdict,
            None => unreachable!(),
        }
    }
}
