//! One chain: its name, its rules, the chains that they lead to, their classifier, and how many rules of the table name it.
ghost use Rattle.std.specs.Prelude.{◌≡◌, ◌<◌, ◌≤◌, ◌+◌, ◌-◌, ◌^◌, [], length, map, insert, remove, slice_set, slice_index_or, OnOk, OnErr, IfOk, IfSome};
ghost use Rattle.std.specs.List.{position};
ghost use Rattle.classify.specs.NextMatch.{next_match};
ghost use Rattle.rules.specs.rule.Allows.{allows_each, matches};
ghost use Rattle.table.specs.steps.StoredChains.{IsClassified, has_text, rules_in, AreEdges};
ghost use Rattle.table.specs.edits.Edits.{MakesOneBox, MakesOneBoxAtMost};
ghost use Rattle.table.specs.steps.Kept.{NameChains, retargeted};

mod copy;
mod edges;
pub(crate) mod entry;

use crate::chain::edges::Edge;
use crate::chain::entry::{Entry, retarget};
use classify::{Candidates, Classifier, targets_leave_the_classifier};
use fields::{Name, Packet};
use rules::{Boxed, Rule, Work, cross};
use std::alloc::{AllocError, Global};
use std::marker::Model;

// Whether a rule of a chain has the text of the rule.
#[tactic(auto, using(crate::proofs::laws::chains::StoreLaws::texts_decide))]
fn has_text(rule: &Rule, entry: &Entry) -> bool
    ensures { result ≡ has_text rule.now entry.now }
{
    rule.equals(&entry.rule)
}

// So many edges have their room from the start, so that a rule seldom takes memory for one.
const FIRST_EDGES: usize = 4;

#[derive(Drop)]
pub(crate) struct Chain {
    name: Name,
    entries: Vec<Entry>,
    edges: Vec<Edge>,
    classifier: Classifier,
    references: usize,
}

impl Model for Chain {
    ghost use Rattle.table.specs.steps.StoredChains.{StoredChain, IsClassified, AreEdges};

    ghost Value = { StoredChain };

    ghost view = { λ c. record {
      name = c.name;
      entries = c.entries.items;
      classifier = c.classifier.shown;
      references = c.references;
    } };

    ghost invariant = { λ c. IsClassified (record {
      name = c.name;
      entries = c.entries.items;
      classifier = c.classifier.shown;
      references = c.references;
    }) × AreEdges c.entries.items c.edges.items };
}

impl Chain {
    // A chain without rules.
    pub(crate) fn new(alloc: Global, name: Name) -> Result<Chain, AllocError>
        ensures name { IfOk result (λ chain. chain.name ≡ name) }
        ensures entries { IfOk result (λ chain. chain.entries ≡ []) }
        ensures classified { IfOk result IsClassified }
        ensures references { IfOk result (λ chain. chain.references ≡ 0) }
    {
        let edges = Vec::with_capacity(alloc, FIRST_EDGES)?;
        let classifier = Classifier::new(alloc)?;
        Ok(Chain {
            name,
            entries: Vec::new(alloc),
            edges,
            classifier,
            references: 0,
        })
    }

    // The name; it is lent.
    pub(crate) fn name(&self) -> &Name
        ensures { result.now ≡ self.now.name }
    {
        &self.name
    }

    // How many rules there are.
    pub(crate) fn len(&self) -> usize
        ensures { result ≡ length self.now.entries }
    {
        self.entries.len()
    }

    // The rule at a place, with what the walk does after it; it is lent.
    pub(crate) fn entry(&self, at: usize) -> &Entry
        requires { at < length self.now.entries }
        ensures { result.now ≡ slice_index_or self.now.entries at result.now }
    {
        &self.entries[at]
    }

    // The chains that the rules lead to, each once; they are lent.
    pub(crate) fn edges(&self) -> &[Edge]
        ensures { AreEdges self.now.entries result.now }
    {
        &self.edges
    }

    // The classifier of the rules; it is lent.
    pub(crate) fn classifier(&self) -> &Classifier
        ensures value { result.now.shown ≡ self.now.classifier }
        ensures classified { IsClassified self.now }
    {
        &self.classifier
    }

    // How many rules of the table name the chain.
    pub(crate) fn references(&self) -> usize
        ensures { result ≡ self.now.references }
    {
        self.references
    }

    // Counts one rule more that names the chain.
    pub(crate) fn count_in(&mut self)
        requires { self.old.references + 1 < 2 ^ 64 }
        ensures name { self.new.name ≡ self.old.name }
        ensures entries { self.new.entries ≡ self.old.entries }
        ensures classifier { self.new.classifier ≡ self.old.classifier }
        ensures references { self.new.references ≡ self.old.references + 1 }
    {
        self.references += 1;
    }

    // Counts one rule less that names the chain.
    pub(crate) fn count_out(&mut self)
        requires { 0 < self.old.references }
        ensures name { self.new.name ≡ self.old.name }
        ensures entries { self.new.entries ≡ self.old.entries }
        ensures classifier { self.new.classifier ≡ self.old.classifier }
        ensures references { self.new.references + 1 ≡ self.old.references }
    {
        self.references -= 1;
    }

    // Puts a rule in at a place. Its room is taken first, then its box is made, and then the classifier takes it.
    pub(crate) fn insert(
        &mut self,
        alloc: Global,
        at: usize,
        entry: Entry,
        work: &mut Work,
    ) -> Result<(), AllocError>
        requires { at ≤ length self.old.entries }
        ensures name { self.new.name ≡ self.old.name }
        ensures references { self.new.references ≡ self.old.references }
        ensures ok { OnOk result (self.new.entries ≡ insert self.old.entries at entry) }
        ensures err { OnErr result (self.new ≡ self.old) }
        ensures classified { IsClassified self.new }
        ensures work { MakesOneBoxAtMost work.old work.new }
        ensures boxed { OnOk result (MakesOneBox work.old work.new) }
    {
        let link = entry.flow.key();
        self.entries.reserve(1)?;
        edges::reserve(&mut self.edges, link)?;
        let boxed = Boxed::of(alloc, &entry.rule, work)?;
        self.classifier.insert(at, boxed)?;
        edges::add(&mut self.edges, link);
        match self.entries.insert(at, entry) {
            Ok(()) => return Ok(()),
            Err(_) => unreachable!(),
        }
    }

    // Puts a rule in the place of another.
    pub(crate) fn replace(
        &mut self,
        alloc: Global,
        at: usize,
        entry: Entry,
        work: &mut Work,
    ) -> Result<(), AllocError>
        requires { at < length self.old.entries }
        ensures name { self.new.name ≡ self.old.name }
        ensures references { self.new.references ≡ self.old.references }
        ensures ok { OnOk result (self.new.entries ≡ slice_set self.old.entries at entry) }
        ensures err { OnErr result (self.new ≡ self.old) }
        ensures classified { IsClassified self.new }
        ensures work { MakesOneBoxAtMost work.old work.new }
        ensures boxed { OnOk result (MakesOneBox work.old work.new) }
    {
        let link = entry.flow.key();
        let before = self.entries[at].flow.key();
        edges::reserve(&mut self.edges, link)?;
        let boxed = Boxed::of(alloc, &entry.rule, work)?;
        self.classifier.replace(at, boxed)?;
        edges::add(&mut self.edges, link);
        edges::take_off(&mut self.edges, before);
        self.entries[at] = entry;
        Ok(())
    }

    // Takes a rule out. It takes no memory.
    pub(crate) fn remove(&mut self, at: usize)
        requires { at < length self.old.entries }
        ensures name { self.new.name ≡ self.old.name }
        ensures references { self.new.references ≡ self.old.references }
        ensures entries { self.new.entries ≡ remove self.old.entries at }
        ensures classified { IsClassified self.new }
    {
        edges::take_off(&mut self.edges, self.entries[at].flow.key());
        self.classifier.remove(at);
        self.entries.remove(at);
    }

    // Takes all rules out. It takes no memory.
    pub(crate) fn clear(&mut self)
        ensures name { self.new.name ≡ self.old.name }
        ensures references { self.new.references ≡ self.old.references }
        ensures entries { self.new.entries ≡ [] }
        ensures classified { IsClassified self.new }
    {
        self.edges.clear();
        self.classifier.clear();
        self.entries.clear();
    }

    // Gives the chain another name. It takes no memory.
    pub(crate) fn set_name(&mut self, name: Name)
        ensures name { self.new.name ≡ name }
        ensures entries { self.new.entries ≡ self.old.entries }
        ensures references { self.new.references ≡ self.old.references }
        ensures classified { IsClassified self.new }
    {
        self.name = name;
    }

    // Puts the name into the rules that lead to the chain under a key. It takes no memory, and the classifier stays.
    pub(crate) fn retarget(&mut self, key: usize, name: &Name)
        requires { NameChains self.old.entries }
        ensures name { self.new.name ≡ self.old.name }
        ensures entries { self.new.entries ≡ map (retargeted key name.now) self.old.entries }
        ensures references { self.new.references ≡ self.old.references }
        ensures classified { IsClassified self.new }
    {
        retarget(&mut self.entries, key, name);
        targets_leave_the_classifier();
    }

    // Takes all rules out, and counts no rule any more that names the chain. It takes no memory.
    pub(crate) fn reset(&mut self)
        ensures name { self.new.name ≡ self.old.name }
        ensures references { self.new.references ≡ 0 }
        ensures entries { self.new.entries ≡ [] }
        ensures classified { IsClassified self.new }
    {
        self.clear();
        self.references = 0;
    }

    // Which rules allow the packet's numbers: the rows of the packet are looked up in the classifier. It takes no memory.
    #[inline(always)]
    pub(crate) fn candidates<'a>(&'a self, packet: &Packet) -> Candidates<'a>
        ensures { result ≡ map (allows_each packet.now.values) (rules_in self.now) }
    {
        self.classifier.at(packet.numbers())
    }

    // The least place, at or after `from`, of a rule that matches the packet: the first of its candidates whose conditions on
    // several fields at once hold. It takes no memory.
    pub(crate) fn next(
        &self,
        candidates: &Candidates<'_>,
        packet: &Packet,
        from: usize,
    ) -> Option<usize>
        requires { candidates.now ≡ map (allows_each packet.now.values) (rules_in self.now) }
        ensures next { result ≡ next_match (matches packet.now.values) (rules_in self.now) from }
        ensures within { IfSome result (λ place. place < length self.now.entries) }
        ensures small { IfSome result (λ place. place + 1 < 2 ^ 64) }
    {
        match candidates.next(from) {
            Some(place) => {
                if !cross(&self.entries[place].rule, packet) {
                    return self.next_among(candidates, packet, place + 1);
                }
                Some(place)
            }
            None => None,
        }
    }

    // The same where more than one candidate is asked: their rows are lent once for all. It isn't inlined, so that who finds a
    // rule at once doesn't pay for their place.
    #[inline(never)]
    fn next_among(&self, candidates: &Candidates<'_>, packet: &Packet, from: usize) -> Option<usize>
        requires { candidates.now ≡ map (allows_each packet.now.values) (rules_in self.now) }
        ensures next { result ≡ next_match (matches packet.now.values) (rules_in self.now) from }
        ensures within { IfSome result (λ place. place < length self.now.entries) }
        ensures small { IfSome result (λ place. place + 1 < 2 ^ 64) }
    {
        let rows = candidates.rows();
        let mut start = from;
        while let Some(place) = rows.next(start) {
            if cross(&self.entries[place].rule, packet) {
                return Some(place);
            }
            start = place + 1;
        }
        None
    }

    // The place of the first rule with the text of this one.
    pub(crate) fn index_of(&self, rule: &Rule) -> Option<usize>
        ensures value { result ≡ position (has_text rule.now) self.now.entries }
        ensures within { IfSome result (λ at. at < length self.now.entries) }
    {
        self.entries.iter().position(|entry| has_text(rule, entry))
    }
}
