//! Chains under keys: where a chain stands in the index, found by halving, and how many rules it has.
ghost use Rattle.std.specs.Prelude.{◌≡◌, ◌≢◌, ◌<◌, ◌≤◌, ℕ, [], length, slice_index_or, IfSome, IsSome, MatchOption, MatchResult};
ghost use Rattle.std.specs.List.{position};
ghost use Rattle.fields.specs.Hook.{name};
ghost use Rattle.table.specs.chains.Table.{built_in_names, is_named};
ghost use Rattle.table.specs.edits.Edits.{out_of_range};
ghost use Rattle.table.specs.steps.StoredChains.{has_text};
ghost use Rattle.table.specs.steps.Kept.{AreStored, IsIndexFor, IsIndexOf, hook_index, listed, stored_in};

use crate::parts::Parts;
use fields::{Hook, Name};
use rules::Rule;
use std::cmp::Ordering;

// How many built-in chains there are: their keys stand first in the index.
pub(crate) const BUILT_IN: usize = 3;

// The place of a hook's chain.
pub(crate) fn hook_index(hook: Hook) -> usize
    ensures { result ≡ hook_index hook }
{
    match hook {
        Hook::Input => 0,
        Hook::Forward => 1,
        Hook::Output => 2,
    }
}

// The name of a hook's chain.
#[tactic(auto, unfolding(fields::specs::values::Name::name_of))]
pub(crate) fn built_in_name(hook: Hook) -> Name
    ensures { result ≡ name hook }
{
    match Name::read(hook.name()) {
        Some(name) => name,
        None => unreachable!(),
    }
}

// The place of a built-in chain's name.
fn built_in_index(name: &[u8]) -> Option<usize>
    ensures { MatchOption result ((k : ℕ) → k < 3 → slice_index_or built_in_names k [] ≢ name.now)
        (λ k. (k < 3) × (slice_index_or built_in_names k [] ≡ name.now)) }
{
    match Hook::read(name) {
        Some(Hook::Input) => Some(0),
        Some(Hook::Forward) => Some(1),
        Some(Hook::Output) => Some(2),
        None => None,
    }
}

impl Parts {
    // Where the chain of a name stands in the index, or else where it would stand. The names of the user chains rise,
    // so this halves what is left of them.
    fn search(&self, name: &[u8]) -> Result<usize, usize>
        requires { AreStored self.now }
        ensures { MatchResult result (IsIndexOf name.now self.now.chains.slots self.now.order.items)
            (IsIndexFor name.now self.now.chains.slots self.now.order.items) }
    {
        if let Some(place) = built_in_index(name) {
            return Ok(place);
        }
        let mut low = BUILT_IN;
        let mut high = self.order.len();
        while low < high {
            let middle = low + (high - low) / 2;
            let key = self.order[middle];
            let chain = &self.chains[key];
            match name.cmp(chain.name().bytes()) {
                Ordering::Less => high = middle,
                Ordering::Equal => return Ok(middle),
                Ordering::Greater => low = middle + 1,
            }
        }
        Err(low)
    }

    // Where the chain of a name stands in the index.
    pub(crate) fn index_of(&self, name: &[u8]) -> Option<usize>
        requires { AreStored self.now }
        ensures place { result ≡ position (is_named name.now) (listed self.now.chains.slots self.now.order.items) }
        ensures within { IfSome result (λ i. i < length self.now.order.items) }
    {
        match self.search(name) {
            Ok(place) => Some(place),
            Err(_) => None,
        }
    }

    // Where a new chain of a name is to stand in the index; nowhere if there is one.
    pub(crate) fn index_for(&self, name: &[u8]) -> Option<usize>
        requires { AreStored self.now }
        ensures { MatchOption result (IsSome (position (is_named name.now) (listed self.now.chains.slots self.now.order.items)))
            (IsIndexFor name.now self.now.chains.slots self.now.order.items) }
    {
        match self.search(name) {
            Ok(_) => None,
            Err(place) => Some(place),
        }
    }

    // How many rules the chain at a place of the index has.
    pub(crate) fn count_at(&self, place: usize) -> usize
        requires kept { AreStored self.now }
        requires place { place < length self.now.order.items }
        ensures value { result ≡ length (stored_in self.now place).entries }
        ensures few { result ≤ 8192 }
    {
        let key = self.order[place];
        self.chains[key].len()
    }

    // The place of the first rule with a rule's text, in the chain at a place of the index.
    pub(crate) fn rule_index(&self, place: usize, rule: &Rule) -> Option<usize>
        requires kept { AreStored self.now }
        requires place { place < length self.now.order.items }
        ensures value { result
            ≡ position (has_text rule.now) (stored_in self.now place).entries }
        ensures within { IfSome result (λ at. at
            < length (stored_in self.now place).entries) }
    {
        let key = self.order[place];
        self.chains[key].index_of(rule)
    }
}

// Whether a number is none of 1 to the last.
pub(crate) fn out_of_range(number: usize, last: usize) -> bool
    ensures { result ≡ (out_of_range number last).0 }
{
    number == 0 || last < number
}
