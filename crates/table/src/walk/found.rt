//! What the classifiers of chains say of a packet, kept for a whole walk: a packet doesn't change on its walk, so it is looked up
//! once for all rules that the walk goes on from in a chain. Most walks come back to the chain in which they begin, and from a
//! chain to the one that they came from.
ghost use Rattle.std.specs.Prelude.{◌≡◌, ◌<◌, ◌+◌, ◌^◌, length, IfSome, IsSome};
ghost use Rattle.classify.specs.NextMatch.{next_match};
ghost use Rattle.rules.specs.rule.Allows.{matches};
ghost use Rattle.table.specs.steps.Walking.{AreFound, IsFound};
ghost use Rattle.table.specs.steps.Kept.{slot_at, stored_at};
ghost use Rattle.table.specs.steps.StoredChains.{rules_in};

use crate::parts::Parts;
use crate::walk::Pending;
use classify::Candidates;
use fields::Packet;

// The candidates among the rules of the chain under a key.
#[derive(Drop)]
pub(crate) struct Found<'a> {
    chain: usize,
    candidates: Candidates<'a>,
}

// Those of the chain in which a walk begins, and of the chains that it looked up last where an odd and where an even number of rests
// waited: so those of a chain stay while the walk is in one that it leads to.
#[derive(Drop)]
pub(crate) struct FoundChains<'a> {
    pub(crate) first: Found<'a>,
    pub(crate) odd: Option<Found<'a>>,
    pub(crate) even: Option<Found<'a>>,
}

impl Parts {
    // Looks a packet up in the classifier of the chain under a key.
    #[inline(always)]
    pub(crate) fn find<'a>(&'a self, packet: &Packet, key: usize) -> Found<'a>
        requires present { IsSome (slot_at self.now.chains.slots key) }
        ensures chain { result.chain ≡ key }
        ensures found { IsFound self.now.chains.slots packet.now.values result }
    {
        Found {
            chain: key,
            candidates: self.chains[key].candidates(packet),
        }
    }

    // The least place, at or after those that were passed, of a rule of the present chain that matches the packet: by the candidates
    // that are kept, where they are those of the chain, and else it is looked up, and they are kept. It isn't inlined, so that who
    // has the candidates doesn't pay for their place.
    #[inline(never)]
    fn next_kept<'a>(
        &'a self,
        packet: &Packet,
        at: Pending,
        kept: &mut Option<Found<'a>>,
    ) -> Option<usize>
        requires present { IsSome (slot_at self.now.chains.slots at.chain) }
        requires kept { IfSome kept.old (IsFound self.now.chains.slots packet.now.values) }
        ensures next { result ≡ next_match (matches packet.now.values) (rules_in (stored_at self.now.chains.slots at.chain)) at.passed }
        ensures within { IfSome result (λ place. place < length (stored_at self.now.chains.slots at.chain).entries) }
        ensures small { IfSome result (λ place. place + 1 < 2 ^ 64) }
        ensures kept { IfSome kept.new (IsFound self.now.chains.slots packet.now.values) }
    {
        let chain = &self.chains[at.chain];
        if let Some(found) = &*kept {
            if found.chain == at.chain {
                return chain.next(&found.candidates, packet, at.passed);
            }
        }
        let found = self.find(packet, at.chain);
        let place = chain.next(&found.candidates, packet, at.passed);
        *kept = Some(found);
        place
    }

    // The same, where so many rests wait. Where no rule is left, nothing is looked up.
    pub(crate) fn next_rule<'a>(
        &'a self,
        packet: &Packet,
        at: Pending,
        waiting: usize,
        found: &mut FoundChains<'a>,
    ) -> Option<usize>
        requires present { IsSome (slot_at self.now.chains.slots at.chain) }
        requires found { AreFound self.now.chains.slots packet.now.values found.old }
        ensures next { result ≡ next_match (matches packet.now.values) (rules_in (stored_at self.now.chains.slots at.chain)) at.passed }
        ensures within { IfSome result (λ place. place < length (stored_at self.now.chains.slots at.chain).entries) }
        ensures small { IfSome result (λ place. place + 1 < 2 ^ 64) }
        ensures found { AreFound self.now.chains.slots packet.now.values found.new }
    {
        let chain = &self.chains[at.chain];
        if at.passed >= chain.len() {
            return None;
        }
        if at.chain == found.first.chain {
            return chain.next(&found.first.candidates, packet, at.passed);
        }
        if waiting % 2 == 1 {
            return self.next_kept(packet, at, &mut found.odd);
        }
        self.next_kept(packet, at, &mut found.even)
    }
}
