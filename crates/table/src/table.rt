//! The table: its edits, what it shows, verdicts and trails.
ghost use Rattle.std.specs.Prelude.{◌≡◌, ◌<◌, ◌≤◌, ◌-◌, [], length, map, slice_index, slice_index_or, slice_get, Some, None, IfOk, OnOk};
ghost use Rattle.classify.specs.Classifier.{IsClassifierOfRules};
ghost use Rattle.table.specs.chains.Sound.{IsSound, LeadsByPaths};
ghost use Rattle.std.specs.List.{position};
ghost use Rattle.table.specs.chains.Table.{AreClassified, chain_at, empty_table, emptied, is_named};
ghost use Rattle.table.specs.walk.Cases.{Walks};
ghost use Rattle.table.specs.walk.Walk.{Walked, walk, Shows};
ghost use Rattle.table.specs.edits.Edits.{Append, DeleteAt, DeleteRule, Flush, FlushAll, Has, Insert, IsStep, DeleteChain, DeleteChains, IsStepIfRoom, NewChain, Rename, Replace, SetPolicy, MakesOneBox, MakesOneBoxAtMost};

use crate::chain::Chain;
use crate::fault::TableFault;
use crate::parts::Parts;
use crate::policy::Policy;
use crate::verdict::Verdict;
use crate::walk::trail::Trail;
use crate::{search, store};
use classify::Classifier;
use fields::{Hook, Name, Packet};
use rules::{Rule, Work};
use slab::Slab;
use std::alloc::{AllocError, Global};
use std::marker::Model;

// The most chains: 1,024 user chains and the built-in ones.
const CHAINS_MAX: usize = 1027;

/// The table `filter`: three built-in chains with a policy each, and the chains that users made, each with its
/// rules and their classifier (iptables(8), "TABLES").
///
/// Chains are in the order of a listing: INPUT, FORWARD and OUTPUT, then the user chains by the bytes of their names.
/// Rules count from 1.
#[derive(Drop)]
pub struct Table {
    parts: Parts,
    seen: Vec<bool>,
}

impl Model for Table {
    ghost use Rattle.table.specs.chains.Table.{TableView};
    ghost use Rattle.table.specs.steps.Kept.{IsWhole, view_of};

    ghost Value = { TableView };

    ghost view = { λ t. view_of t.parts };

    ghost invariant = { λ t. IsWhole t.parts t.seen.items };
}

impl Table {
    /// The law of every table. It is sound: each rule reads back; each chain that a rule names is there and is a user
    /// chain; no path of jumps and gotos comes back to where it began; no rule tests an interface that packets of its
    /// chain don't have; user chains are in the order of their names; and the limits hold. Each chain's classifier is
    /// that of its rules. And the loop check answers that a chain leads to another just where a path of jumps and
    /// gotos does. The call does nothing.
    pub fn stands(&self)
        ensures sound { IsSound self.now.table }
        ensures classified { AreClassified self.now.table.chains self.now.classifiers }
        ensures loops { LeadsByPaths self.now.table.chains }
    {
        let _count = self.parts.order.len();
    }

    /// A table of the three built-in chains, without rules, each with the policy ACCEPT.
    ///
    /// # Errors
    ///
    /// `AllocError` where memory was refused.
    pub fn new(alloc: Global) -> Result<Table, AllocError>
        ensures { IfOk result (λ made. made.table ≡ empty_table) }
    {
        Table::with_policies(alloc, [Policy::Accept; store::BUILT_IN])
    }

    /// A table of the three built-in chains, without rules, with the policies of this one.
    ///
    /// # Errors
    ///
    /// `AllocError` where memory was refused.
    pub fn emptied(&self) -> Result<Table, AllocError>
        ensures { IfOk result (λ made. made.table ≡ emptied self.now.table) }
    {
        Table::with_policies(self.parts.alloc, self.parts.policies)
    }

    // A table of the three built-in chains, without rules, with these policies.
    fn with_policies(
        alloc: Global,
        policies: [Policy; store::BUILT_IN],
    ) -> Result<Table, AllocError>
        requires { length policies ≡ 3 }
        ensures policies { IfOk result (λ made. made.table.policies ≡ policies) }
        ensures chains { IfOk result (λ made. made.table.chains ≡ empty_table.chains) }
    {
        let mut chains = Slab::new(alloc);
        chains.reserve(store::BUILT_IN)?;
        let input = chains.insert_reserved(Chain::new(alloc, store::built_in_name(Hook::Input))?);
        let forward = chains.insert_reserved(Chain::new(
            alloc,
            store::built_in_name(Hook::Forward),
        )?);
        let output = chains.insert_reserved(Chain::new(alloc, store::built_in_name(Hook::Output))?);
        let order = vec![in alloc; input, forward, output]?;
        let mut seen = Vec::new(alloc);
        search::reserve_mark(&mut seen, input)?;
        search::reserve_mark(&mut seen, forward)?;
        search::reserve_mark(&mut seen, output)?;
        let parts = Parts {
            alloc,
            policies,
            chains,
            order,
        };
        Ok(Table { parts, seen })
    }

    /// A table that shows the same, classifiers included. It copies rules and classifiers, and makes no box.
    ///
    /// # Errors
    ///
    /// `AllocError` where memory was refused.
    pub fn copy(&self) -> Result<Table, AllocError>
        ensures { IfOk result (λ copy. copy ≡ self.now) }
    {
        let chains = self.parts.chains.clone()?;
        let order = self.parts.order.clone()?;
        let seen = self.seen.clone()?;
        let parts = Parts {
            alloc: self.parts.alloc,
            policies: self.parts.policies,
            chains,
            order,
        };
        Ok(Table { parts, seen })
    }

    /// How many chains there are, the three built-in ones among them.
    pub fn chain_count(&self) -> usize
        ensures { result ≡ length self.now.table.chains }
    {
        self.parts.order.len()
    }

    /// The name of the chain at a place in the order of a listing, from 0 and below `chain_count`; it is lent.
    pub fn chain_name(&self, place: usize) -> &[u8]
        requires { place < length self.now.table.chains }
        ensures { result.now ≡ (chain_at self.now.table place).name }
    {
        let key = self.parts.order[place];
        self.parts.chains[key].name().bytes()
    }

    /// Where the chain of a name stands in the order of a listing, from 0; none where there is no such chain. It
    /// takes no memory. It costs a search by halving.
    pub fn index_of(&self, name: &[u8]) -> Option<usize>
        ensures { result ≡ position (is_named name.now) self.now.table.chains }
    {
        self.parts.index_of(name)
    }

    /// The policy of the chain at a place, if it is a built-in one.
    pub fn policy(&self, place: usize) -> Option<Policy>
        ensures { result ≡ slice_get self.now.table.policies place }
    {
        self.parts.policies.get(place).copied()
    }

    /// How many rules the chain at a place has.
    pub fn rule_count(&self, place: usize) -> usize
        requires { place < length self.now.table.chains }
        ensures { result ≡ length (chain_at self.now.table place).rules }
    {
        self.parts.count_at(place)
    }

    /// Rule `number` of the chain at a place, from 1 to `rule_count`; it is lent.
    pub fn rule(&self, place: usize, number: usize) -> &Rule
        requires place { place < length self.now.table.chains }
        requires first { 0 < number }
        requires last { number ≤ length (chain_at self.now.table place).rules }
        ensures { result.now
            ≡ slice_index_or (chain_at self.now.table place).rules (number - 1) result.now }
    {
        let key = self.parts.order[place];
        &self.parts.chains[key].entry(number - 1).rule
    }

    /// The classifier of the rules of the chain at a place; it is lent.
    pub fn classifier(&self, place: usize) -> &Classifier
        requires { place < length self.now.table.chains }
        ensures value { result.now.shown ≡ slice_index_or self.now.classifiers place result.now.shown }
        ensures rules { IsClassifierOfRules (chain_at self.now.table place).rules result.now.shown }
    {
        let key = self.parts.order[place];
        self.parts.chains[key].classifier()
    }

    /// The verdict of a packet's walk, by the classifiers of the chains. It is that of walking the rules in order,
    /// with jumps, gotos and returns, where a rule matches if it allows each of the packet's numbers and `cross`
    /// holds. It takes no memory.
    ///
    /// It costs a search of a classifier for each rule that matches and each chain that the walk leaves at its end,
    /// and a look at the matches of each candidate on the way. Where a jump would leave more than 16 rests waiting,
    /// the walk up to there is done twice.
    pub fn verdict(&self, packet: &Packet) -> Verdict
        ensures walk { result ≡ (walk self.now.table packet.now).verdict }
        ensures cases { (w : Walked) → Walks self.now.table packet.now w → result ≡ w.verdict }
    {
        let hook = store::hook_index(packet.hook());
        let policy = self.parts.policies[hook].verdict();
        self.parts.decide(hook, policy, packet)
    }

    /// The walk of a packet: the rules that matched, in turn, the verdict, and whether the policy gave it.
    ///
    /// # Errors
    ///
    /// `AllocError` where memory was refused.
    pub fn trail(&self, packet: &Packet) -> Result<Trail, AllocError>
        ensures walk { IfOk result (Shows self.now.table.chains (walk self.now.table packet.now)) }
        ensures cases { (w : Walked) → Walks self.now.table packet.now w
            → IfOk result (Shows self.now.table.chains w) }
    {
        let hook = store::hook_index(packet.hook());
        let policy = self.parts.policies[hook].verdict();
        self.parts.trace(hook, policy, packet)
    }

    /// Puts a rule last in a chain (`-A chain rule`). The rule is gone after a refusal too. It makes one box; where
    /// it is refused, one at most.
    ///
    /// It costs a box, the classifier's row work, and, where the rule names a chain, a search of the chains that it
    /// leads to.
    ///
    /// # Errors
    ///
    /// `NoSuchChain`, `InterfaceNotAllowed`, `TargetMissing`, `TargetBuiltIn`, `Loop` and `ChainFull`, in this order,
    /// and last `NoMemory` where memory was refused: the table is unchanged, classifiers included.
    pub fn append(&mut self, chain: &[u8], rule: Rule, work: &mut Work) -> Result<(), TableFault>
        ensures step { IsStepIfRoom (Append chain.now rule) self.old self.new result }
        ensures work { MakesOneBoxAtMost work.old work.new }
        ensures boxed { OnOk result (MakesOneBox work.old work.new) }
    {
        let Some(place) = self.parts.index_of(chain) else {
            return Err(TableFault::NoSuchChain);
        };
        let last = self.parts.count_at(place);
        self.parts
            .insert_rule(&mut self.seen, place, last, rule, work)
    }

    /// Puts a rule in as rule `number` of a chain, from 1 to one more than there are (`-I chain number rule`). The
    /// rule is gone after a refusal too. It makes as many boxes as `append`.
    ///
    /// # Errors
    ///
    /// `NoSuchChain`, `NumberOutOfRange`, and then those of `append`: the table is unchanged, classifiers included.
    pub fn insert(
        &mut self,
        chain: &[u8],
        number: usize,
        rule: Rule,
        work: &mut Work,
    ) -> Result<(), TableFault>
        ensures step { IsStepIfRoom (Insert chain.now number rule) self.old self.new result }
        ensures work { MakesOneBoxAtMost work.old work.new }
        ensures boxed { OnOk result (MakesOneBox work.old work.new) }
    {
        let Some(place) = self.parts.index_of(chain) else {
            return Err(TableFault::NoSuchChain);
        };
        let last = self.parts.count_at(place);
        if store::out_of_range(number, last + 1) {
            return Err(TableFault::NumberOutOfRange);
        }
        self.parts
            .insert_rule(&mut self.seen, place, number - 1, rule, work)
    }

    /// Puts a rule in the place of rule `number` of a chain (`-R chain number rule`). The rule is gone after a
    /// refusal too. It makes as many boxes as `append`.
    ///
    /// # Errors
    ///
    /// `NoSuchChain`, `NumberOutOfRange`, `InterfaceNotAllowed`, `TargetMissing`, `TargetBuiltIn` and `Loop`, in this
    /// order, and last `NoMemory` where memory was refused: the table is unchanged, classifiers included.
    pub fn replace(
        &mut self,
        chain: &[u8],
        number: usize,
        rule: Rule,
        work: &mut Work,
    ) -> Result<(), TableFault>
        ensures step { IsStepIfRoom (Replace chain.now number rule) self.old self.new result }
        ensures work { MakesOneBoxAtMost work.old work.new }
        ensures boxed { OnOk result (MakesOneBox work.old work.new) }
    {
        let Some(place) = self.parts.index_of(chain) else {
            return Err(TableFault::NoSuchChain);
        };
        let last = self.parts.count_at(place);
        if store::out_of_range(number, last) {
            return Err(TableFault::NumberOutOfRange);
        }
        self.parts
            .replace_rule(&mut self.seen, place, number - 1, rule, work)
    }

    /// Takes rule `number` of a chain out (`-D chain number`). It takes no memory.
    ///
    /// # Errors
    ///
    /// `NoSuchChain` and `NumberOutOfRange`, in this order: the table is unchanged.
    pub fn delete_at(&mut self, chain: &[u8], number: usize) -> Result<(), TableFault>
        ensures { IsStep (DeleteAt chain.now number) self.old self.new result }
    {
        let Some(place) = self.parts.index_of(chain) else {
            return Err(TableFault::NoSuchChain);
        };
        let last = self.parts.count_at(place);
        if store::out_of_range(number, last) {
            return Err(TableFault::NumberOutOfRange);
        }
        self.parts.remove_rule(place, number - 1);
        Ok(())
    }

    /// Takes the first rule of a chain out that has the text of this one (`-D chain rule`). It takes no memory.
    ///
    /// # Errors
    ///
    /// `NoSuchChain` and `NoSuchRule`, in this order: the table is unchanged.
    pub fn delete_rule(&mut self, chain: &[u8], rule: &Rule) -> Result<(), TableFault>
        ensures { IsStep (DeleteRule chain.now rule.now) self.old self.new result }
    {
        let Some(place) = self.parts.index_of(chain) else {
            return Err(TableFault::NoSuchChain);
        };
        let Some(at) = self.parts.rule_index(place, rule) else {
            return Err(TableFault::NoSuchRule);
        };
        self.parts.remove_rule(place, at);
        Ok(())
    }

    /// Whether a chain has a rule with the text of this one (`-C chain rule`). It takes no memory.
    ///
    /// # Errors
    ///
    /// `NoSuchChain` and `NoSuchRule`, in this order.
    pub fn has_rule(&self, chain: &[u8], rule: &Rule) -> Result<(), TableFault>
        ensures { IsStep (Has chain.now rule.now) self.now self.now result }
    {
        let Some(place) = self.parts.index_of(chain) else {
            return Err(TableFault::NoSuchChain);
        };
        match self.parts.rule_index(place, rule) {
            Some(_) => Ok(()),
            None => Err(TableFault::NoSuchRule),
        }
    }

    /// Takes all rules of a chain out (`-F chain`). It takes no memory.
    ///
    /// # Errors
    ///
    /// `NoSuchChain`: the table is unchanged.
    pub fn flush(&mut self, chain: &[u8]) -> Result<(), TableFault>
        ensures { IsStep (Flush chain.now) self.old self.new result }
    {
        let Some(place) = self.parts.index_of(chain) else {
            return Err(TableFault::NoSuchChain);
        };
        self.parts.empty(place);
        Ok(())
    }

    /// Takes all rules of all chains out (`-F`). It takes no memory, and is never refused.
    ///
    /// # Errors
    ///
    /// None.
    pub fn flush_all(&mut self) -> Result<(), TableFault>
        ensures { IsStep FlushAll self.old self.new result }
    {
        self.parts.empty_all();
        Ok(())
    }

    /// Sets the policy of a built-in chain: ACCEPT or DROP, in upper case (`-P chain policy`). It takes no memory.
    ///
    /// # Errors
    ///
    /// `NoSuchChain`, `NotBuiltInChain` and `BadPolicy`, in this order: the table is unchanged.
    pub fn set_policy(&mut self, chain: &[u8], policy: &[u8]) -> Result<(), TableFault>
        ensures { IsStep (SetPolicy chain.now policy.now) self.old self.new result }
    {
        let Some(place) = self.parts.index_of(chain) else {
            return Err(TableFault::NoSuchChain);
        };
        if place >= store::BUILT_IN {
            return Err(TableFault::NotBuiltInChain);
        }
        let Some(policy) = Policy::read(policy) else {
            return Err(TableFault::BadPolicy);
        };
        self.parts.policies[place] = policy;
        Ok(())
    }

    /// Makes a chain without rules (`-N name`).
    ///
    /// # Errors
    ///
    /// `BadChainName`, `ChainExists` and `TooManyChains`, in this order, and last `NoMemory` where memory was refused:
    /// the table is unchanged.
    pub fn new_chain(&mut self, name: &[u8]) -> Result<(), TableFault>
        ensures { IsStepIfRoom (NewChain name.now) self.old self.new result }
    {
        let Some(owned) = Name::read(name) else {
            return Err(TableFault::BadChainName);
        };
        let Some(place) = self.parts.index_for(name) else {
            return Err(TableFault::ChainExists);
        };
        if self.parts.order.len() >= CHAINS_MAX {
            return Err(TableFault::TooManyChains);
        }
        let key = self.parts.chains.vacant_key();
        let Ok(()) = search::reserve_mark(&mut self.seen, key) else {
            return Err(TableFault::NoMemory);
        };
        match self.parts.make(place, owned) {
            Ok(()) => Ok(()),
            Err(_) => return Err(TableFault::NoMemory),
        }
    }

    /// Takes a user chain away (`-X chain`). It takes no memory.
    ///
    /// # Errors
    ///
    /// `NoSuchChain`, `BuiltInChain`, `ChainNotEmpty` and `ChainReferenced`, in this order: the table is unchanged.
    pub fn delete_chain(&mut self, chain: &[u8]) -> Result<(), TableFault>
        ensures { IsStep (DeleteChain chain.now) self.old self.new result }
    {
        let Some(place) = self.parts.index_of(chain) else {
            return Err(TableFault::NoSuchChain);
        };
        if let Some(fault) = self.parts.refusal(place) {
            return Err(fault);
        }
        self.parts.remove_chain(place);
        Ok(())
    }

    /// Takes all user chains away (`-X`). It takes no memory.
    ///
    /// # Errors
    ///
    /// `ChainNotEmpty` where a user chain has rules, and else `ChainReferenced` where a rule names one: the table is
    /// unchanged.
    pub fn delete_chains(&mut self) -> Result<(), TableFault>
        ensures { IsStep DeleteChains self.old self.new result }
    {
        if let Some(fault) = self.parts.refusal_of_all() {
            return Err(fault);
        }
        self.parts.remove_user_chains();
        Ok(())
    }

    /// Changes the name of a user chain; the rules that name it follow (`-E old new`). It takes no memory.
    ///
    /// # Errors
    ///
    /// `NoSuchChain`, `BuiltInChain`, `BadChainName` and `ChainExists`, in this order: the table is unchanged.
    pub fn rename(&mut self, old: &[u8], new: &[u8]) -> Result<(), TableFault>
        ensures { IsStep (Rename old.now new.now) self.old self.new result }
    {
        let Some(place) = self.parts.index_of(old) else {
            return Err(TableFault::NoSuchChain);
        };
        if place < store::BUILT_IN {
            return Err(TableFault::BuiltInChain);
        }
        let Some(name) = Name::read(new) else {
            return Err(TableFault::BadChainName);
        };
        let Some(to) = self.parts.index_for(new) else {
            return Err(TableFault::ChainExists);
        };
        self.parts.rename(place, to, name);
        Ok(())
    }
}
