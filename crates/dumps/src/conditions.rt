//! The conditions of one or two dumps, by their numbers.
ghost use Rattle.std.specs.Prelude.{◌≡◌, ◌+◌, ℕ, ◌∷◌, [], ◌++◌, List, Some, IfOk, OnOk, option_map, if◌then◌else◌};
ghost use Rattle.std.specs.List.{flat_map};
ghost use Rattle.std.specs.Str.{bytes_eq};
ghost use Rattle.std.specs.Global.{Vec};
ghost use Rattle.dumps.specs.Foreign.{needed_in, kept_names, sets_in, is_named};
ghost use Rattle.dumps.specs.Numbers.{lasts_at_place, identity_of, place_identity};
ghost use Rattle.dumps.specs.Views.{place_in, kept_in, all_in, identity_in, key_place_in, asked_with, count_in};

use crate::options::row::Lasting;
use crate::reading::foreign::{Foreign, ForeignRule, NeededText, is_named};
use crate::reading::line::begins_with;
use std::alloc::{AllocError, Global};
use std::collections::BTreeMap;
use std::marker::Model;

/// What a rule needs of a condition, by its number: that it holds or, inverted, that it doesn't.
#[derive(Clone, Copy, Debug, PartialEq, Eq)]
pub struct ForeignNeed {
    /// The number of the condition.
    pub condition: usize,
    /// Whether the rule needs that the condition doesn't hold.
    pub inverted: bool,
}

/// The rule at which a condition of a place is asked.
#[derive(Debug, PartialEq, Eq, Drop)]
pub struct ConditionPlace {
    /// The name of the chain.
    pub chain: Vec<u8>,
    /// The number of the rule in it, from 1.
    pub rule: usize,
}

// A place, and how many conditions of a place with the same text the chain has before it.
#[derive(Drop)]
struct KeptPlace {
    at: ConditionPlace,
    count: usize,
}

// A condition, as it was asked first.
#[derive(Drop)]
struct Kept {
    name: Vec<u8>,
    asks: Vec<u8>,
    text: Vec<u8>,
    place: Option<KeptPlace>,
}

// What tells a condition: its text and, of one of a place, the chain and the count.
#[derive(PartialEq, Eq, PartialOrd, Ord, Drop)]
struct Key {
    text: Vec<u8>,
    place: Option<(Vec<u8>, usize)>,
}

// Where a need stands.
#[derive(Clone, Copy)]
struct Standing<'a> {
    chain: &'a [u8],
    // the number of the rule, from 1
    rule: usize,
}

/// The conditions of one or two dumps, numbered as they come: what the packet alone decides has one number a text; what depends
/// on the moment has one a place, which is told by the chain, the text and the how-many-eth condition of a place with that text in the
/// chain it is, so that a rule put into the chain moves no condition of another text. What a target of one of the dumps sets while a packet walks is
/// told by the place too.
#[derive(Drop)]
pub struct Conditions {
    alloc: Global,
    set: Vec<Vec<u8>>,
    numbers: BTreeMap<Key, usize>,
    kept: Vec<Kept>,
}

impl Model for Conditions {
    ghost use Rattle.dumps.specs.Foreign.{kept_names};
    ghost use Rattle.dumps.specs.Numbers.{Numbers};
    ghost use Rattle.dumps.specs.Views.{all_in, IsIndex};

    ghost Value = { Numbers };

    ghost view = { λ c. record { sets = kept_names c.set.items; all = all_in c.kept.items } };

    ghost invariant = { λ c. IsIndex c.numbers (all_in c.kept.items) };
}

// How many conditions of a text the chain had so far, of which one more is counted.
fn counted(counts: &mut BTreeMap<Vec<u8>, usize>, text: Vec<u8>) -> Result<usize, AllocError>
    ensures before { IfOk result (λ before. before ≡ count_in counts.old text) }
    ensures more { OnOk result ((other : Vec ℕ) → count_in counts.new other
        ≡ count_in counts.old other + (if bytes_eq text.items other.items then 1 else 0)) }
{
    let before = counts.get(&text).copied().unwrap_or(0);
    let Some(more) = before.checked_add(1) else {
        return Err(AllocError);
    };
    counts.insert(text, more)?;
    Ok(before)
}

// The place of a key.
fn key_place(
    alloc: Global,
    place: &Option<KeptPlace>,
) -> Result<Option<(Vec<u8>, usize)>, AllocError>
    ensures { IfOk result (λ made. key_place_in made ≡ option_map place_identity (option_map place_in place.now)) }
{
    match place {
        None => Ok(None),
        Some(place) => {
            let chain = place.at.chain.as_slice().to_vec(alloc)?;
            Ok(Some((chain, place.count)))
        }
    }
}

// The key of the condition of a need.
fn key_of(alloc: Global, need: &NeededText, place: &Option<KeptPlace>) -> Result<Key, AllocError>
    ensures { IfOk result (λ key. identity_in key ≡ identity_of (asked_with need.now place.now)) }
{
    let text = need.text.as_slice().to_vec(alloc)?;
    let place = key_place(alloc, place)?;
    Ok(Key { text, place })
}

// The condition of a need, which is asked first.
fn kept_of(alloc: Global, need: &NeededText, place: Option<KeptPlace>) -> Result<Kept, AllocError>
    ensures { IfOk result (λ kept. kept_in kept ≡ asked_with need.now place) }
{
    let name = need.name.as_slice().to_vec(alloc)?;
    let asks = need.asks.as_slice().to_vec(alloc)?;
    let text = need.text.as_slice().to_vec(alloc)?;
    Ok(Kept {
        name,
        asks,
        text,
        place,
    })
}

// What targets of some dumps set while a packet walks.
fn names_set(alloc: Global, dumps: &[&Foreign]) -> Result<Vec<Vec<u8>>, AllocError>
    ensures { IfOk result (λ set. kept_names set.items ≡ flat_map (λ dump. sets_in dump.now) dumps.now) }
{
    let mut set = Vec::new(alloc);
    for foreign in dumps {
        foreign.add_written(alloc, &mut set)?;
    }
    Ok(set)
}

// Whether a condition is told by its place, where a target sets what it asks or none does.
fn lasts_at_place(set: bool, lasting: Lasting) -> bool
    ensures { result ≡ lasts_at_place set lasting }
{
    match lasting {
        Lasting::Text => false,
        Lasting::Place => true,
        Lasting::Set => set,
    }
}

impl Conditions {
    ghost use Rattle.std.specs.Prelude.{◌≡◌, ◌==◌, ◌++◌, ◌∷◌, [], false, List, length, map, IfOk, OnOk, MatchOption, Some, option_map};
    ghost use Rattle.std.specs.List.{slice_get, flat_map};
    ghost use Rattle.dumps.specs.Foreign.{Needed, needed_in, needs_in, ReadRule, rule_in, rules_in, sets_in, inversions, inversions_of};
    ghost use Rattle.dumps.specs.Views.{inversions_in, all_inversions_in, at_in, place_in, kept_in, identity_in, asked_with, numbers_of, numbers_in, AreCounts, AreNeedsNumbered, AreNumberedSoFar};
    ghost use Rattle.dumps.specs.Numbers.{Numbers, has, identity_of, identity_at, told, added, is_of_place, is_of_thing, place_of, text_of, name_of, place_at, rule_of, is_set, AreNumbered, AreApart, NumbersTellConditions};

    /// No condition so far, of these dumps.
    ///
    /// # Errors
    ///
    /// `AllocError` where memory was refused.
    pub fn new(alloc: Global, dumps: &[&Foreign]) -> Result<Conditions, AllocError>
        ensures none { IfOk result (λ made. made.all ≡ []) }
        ensures sets { IfOk result (λ made. made.sets ≡ flat_map (λ dump. sets_in dump.now) dumps.now) }
    {
        let set = names_set(alloc, dumps)?;
        Ok(Conditions {
            alloc,
            set,
            numbers: BTreeMap::new(alloc),
            kept: Vec::new(alloc),
        })
    }

    // Whether a condition is told by its place.
    fn is_of_place(&self, need: &NeededText) -> bool
        ensures { result ≡ is_of_place self.now.sets (needed_in need.now) }
    {
        lasts_at_place(
            is_named(self.set.as_slice(), need.asks.as_slice()),
            need.lasting,
        )
    }

    // The place of a need, if its condition is one of a place, which is counted then.
    fn place_of(
        &self,
        need: &NeededText,
        standing: Standing<'_>,
        counts: &mut BTreeMap<Vec<u8>, usize>,
    ) -> Result<Option<KeptPlace>, AllocError>
        ensures place { IfOk result (λ place. (before : List Needed) → AreCounts self.now.sets before counts.old
            → option_map place_in place ≡ place_of self.now.sets standing.entry.chain.now standing.entry.rule before (needed_in need.now)) }
        ensures counts { OnOk result ((before : List Needed) → AreCounts self.now.sets before counts.old
            → AreCounts self.now.sets (before ++ needed_in need.now ∷ []) counts.new) }
    {
        if !self.is_of_place(need) {
            return Ok(None);
        }
        let text = need.text.as_slice().to_vec(self.alloc)?;
        let count = counted(counts, text)?;
        let chain = standing.chain.to_vec(self.alloc)?;
        let at = ConditionPlace {
            chain,
            rule: standing.rule,
        };
        return Ok(Some(KeptPlace { at, count }));
    }

    // The number of the condition of a key, if it has one.
    fn find(&self, key: &Key) -> Option<usize>
        ensures { MatchOption result (has self.now.all (identity_in key.now) ≡ false)
            (λ n. identity_at self.now.all n ≡ Some (identity_in key.now)) }
    {
        self.numbers.get(key).copied()
    }

    // Gives the next number to a condition that has none.
    fn add(&mut self, key: Key, kept: Kept) -> Result<usize, AllocError>
        requires new { has self.old.all (identity_in key) ≡ false }
        requires same { identity_in key ≡ identity_of (kept_in kept) }
        ensures after { OnOk result (self.new ≡ added self.old (kept_in kept ∷ [])) }
        ensures number { IfOk result (λ n. identity_at self.new.all n ≡ told (kept_in kept)) }
    {
        let number = self.kept.len();
        self.kept.push(kept)?;
        match self.numbers.insert(key, number) {
            Ok(_) => return Ok(number),
            Err(_) => {
                self.kept.truncate(number);
                return Err(AllocError);
            }
        }
    }

    // The number of the condition of a need, which is given where it has none.
    fn number_of(
        &mut self,
        need: &NeededText,
        place: Option<KeptPlace>,
    ) -> Result<usize, AllocError>
        ensures after { OnOk result (self.new ≡ added self.old (asked_with need.now place ∷ [])) }
        ensures number { IfOk result (λ n. identity_at self.new.all n ≡ told (asked_with need.now place)) }
    {
        let key = key_of(self.alloc, need, &place)?;
        if let Some(number) = self.find(&key) {
            return Ok(number);
        }
        let kept = kept_of(self.alloc, need, place)?;
        return self.add(key, kept);
    }

    // The need of a condition, of which the chain had others so far.
    fn need_of(
        &mut self,
        need: &NeededText,
        standing: Standing<'_>,
        counts: &mut BTreeMap<Vec<u8>, usize>,
    ) -> Result<ForeignNeed, AllocError>
        ensures inverted { IfOk result (λ made. made.inverted ≡ need.now.inverted) }
        ensures numbered { IfOk result (λ made. (before : List Needed) → AreCounts self.old.sets before counts.old
            → AreNeedsNumbered standing.entry.chain.now standing.entry.rule before (needed_in need.now ∷ []) self.old self.new (made.condition ∷ [])) }
        ensures counts { OnOk result ((before : List Needed) → AreCounts self.old.sets before counts.old
            → AreCounts self.old.sets (before ++ needed_in need.now ∷ []) counts.new) }
    {
        let place = self.place_of(need, standing, counts)?;
        let condition = self.number_of(need, place)?;
        Ok(ForeignNeed {
            condition,
            inverted: need.inverted,
        })
    }

    // The needs of a rule.
    fn needs_of_rule(
        &mut self,
        needs: &[NeededText],
        standing: Standing<'_>,
        counts: &mut BTreeMap<Vec<u8>, usize>,
    ) -> Result<Vec<ForeignNeed>, AllocError>
        ensures inversions { IfOk result (λ made. inversions_in made.items ≡ inversions (needs_in needs.now)) }
        ensures numbered { IfOk result (λ made. (before : List Needed) → AreCounts self.old.sets before counts.old
            → AreNeedsNumbered standing.entry.chain.now standing.entry.rule before (needs_in needs.now) self.old self.new (numbers_of made.items)) }
        ensures counts { OnOk result ((before : List Needed) → AreCounts self.old.sets before counts.old
            → AreCounts self.old.sets (before ++ needs_in needs.now) counts.new) }
    {
        let mut numbered = Vec::new(self.alloc);
        for need in needs {
            numbered.push(self.need_of(need, standing, counts)?)?;
        }
        Ok(numbered)
    }

    // Adds the needs of a rule, if it is in the chain.
    fn add_rule(
        &mut self,
        rule: &ForeignRule,
        chain: &[u8],
        counts: &mut BTreeMap<Vec<u8>, usize>,
        rules: &mut Vec<Vec<ForeignNeed>>,
    ) -> Result<(), AllocError>
        ensures inversions { IfOk result (λ _. all_inversions_in rules.new.items
            ≡ all_inversions_in rules.old.items ++ inversions_of chain.now (rule_in rule.now ∷ [])) }
        ensures numbered { OnOk result ((done : List ReadRule) (first : Numbers)
            → AreNumberedSoFar chain.now done first self.old rules.old.items counts.old
            → AreNumberedSoFar chain.now (done ++ rule_in rule.now ∷ []) first self.new rules.new.items counts.new) }
    {
        if rule.chain.as_slice() != chain {
            return Ok(());
        }
        let standing = Standing {
            chain,
            rule: rules.len() + 1,
        };
        let needs = self.needs_of_rule(rule.needs.as_slice(), standing, counts)?;
        rules.push(needs)?;
        Ok(())
    }

    // The needs of those of some rules that are in the chain.
    fn needs_among(
        &mut self,
        among: &[ForeignRule],
        chain: &[u8],
    ) -> Result<Vec<Vec<ForeignNeed>>, AllocError>
        ensures inversions { IfOk result (λ made. all_inversions_in made.items ≡ inversions_of chain.now (map rule_in among.now)) }
        ensures numbered { IfOk result (λ made. AreNumbered chain.now (map rule_in among.now) self.old self.new (numbers_in made.items)) }
    {
        let mut counts = BTreeMap::new(self.alloc);
        let mut rules = Vec::new(self.alloc);
        for rule in among {
            self.add_rule(rule, chain, &mut counts, &mut rules)?;
        }
        Ok(rules)
    }

    /// The needs of the rules of a chain of a dump, in their order, by the numbers of their conditions: a list for each `-A` line
    /// of the chain, with a need for each condition of it. New conditions get the next numbers.
    ///
    /// # Errors
    ///
    /// `AllocError` where memory was refused, or a chain has more conditions of a text than a number counts.
    ///
    /// # Cost
    ///
    /// For each condition of the chain a search among all, and for each rule of the dump a comparison with the chain's name.
    #[tactic(auto, using(crate::proofs::laws::NumberLaws::numbers_tell_conditions))]
    pub fn needs_of_chain(
        &mut self,
        foreign: &Foreign,
        chain: &[u8],
    ) -> Result<Vec<Vec<ForeignNeed>>, AllocError>
        ensures inversions { IfOk result (λ rules. all_inversions_in rules.items ≡ inversions_of chain.now (rules_in foreign.now)) }
        ensures numbered { IfOk result (λ rules. AreNumbered chain.now (rules_in foreign.now) self.old self.new (numbers_in rules.items)) }
        ensures told { NumbersTellConditions }
    {
        self.needs_among(foreign.rules.as_slice(), chain)
    }

    /// Whether a target of the dumps sets, while a packet walks, what a condition asks.
    pub fn is_set(&self, number: usize) -> bool
        ensures { result ≡ is_set self.now.sets (slice_get self.now.all number) }
    {
        match self.kept.get(number) {
            None => return false,
            Some(kept) => return is_named(self.set.as_slice(), kept.asks.as_slice()),
        }
    }

    /// How many conditions there are.
    pub fn len(&self) -> usize
        ensures count { result ≡ length self.now.all }
        ensures apart { AreApart self.now.all }
    {
        self.kept.len()
    }

    /// Whether there is none.
    pub fn is_empty(&self) -> bool
        ensures { result ≡ (length self.now.all == 0) }
    {
        self.kept.is_empty()
    }

    /// The words of a condition, as they are written: the name of its match and what it asks. It has none if there is no
    /// such number.
    pub fn text(&self, number: usize) -> &[u8]
        ensures { result.now ≡ text_of (slice_get self.now.all number) }
    {
        match self.kept.get(number) {
            None => return &[],
            Some(kept) => return kept.text.as_slice(),
        }
    }

    /// The name of the match of a condition, or `protocol`.
    pub fn name(&self, number: usize) -> &[u8]
        ensures { result.now ≡ name_of (slice_get self.now.all number) }
    {
        match self.kept.get(number) {
            None => return &[],
            Some(kept) => return kept.name.as_slice(),
        }
    }

    /// Whether a condition is of a thing that its words name, as a set of addresses is, and not of a place: all rules that ask it in the same words have
    /// one answer as long as nothing changes the thing.
    pub fn is_of_thing(&self, number: usize) -> bool
        ensures { result ≡ is_of_thing (slice_get self.now.all number) }
    {
        match self.kept.get(number) {
            None => return false,
            Some(kept) => {
                return begins_with(kept.asks.as_slice(), b' ') && kept.place.is_none();
            }
        }
    }

    /// The rule at which a condition was asked first, if it is one of a place.
    pub fn place(&self, number: usize) -> Option<&ConditionPlace>
        ensures { option_map (λ place. at_in place.now) result ≡ option_map rule_of (place_at (slice_get self.now.all number)) }
    {
        match self.kept.get(number) {
            None => return None,
            Some(kept) => return kept.place.as_ref().map(|place| &place.at),
        }
    }
}
