//! Edits of one chain's rules, with the counts of the chains that they lead to; all chains emptied; new chains.
ghost use Rattle.std.specs.Prelude.{◌≡◌, ◌<◌, ◌≤◌, ◌+◌, ℕ, [], length, insert, remove, slice_set, OnOk, OnErr, None};
ghost use Rattle.table.specs.chains.Sound.{IsSound};
ghost use Rattle.table.specs.edits.Edits.{FlushAll, NewChain, changed, edited, fault_of, MakesOneBox, MakesOneBoxAtMost};
ghost use Rattle.table.specs.steps.Kept.{AreKept, AreRecounted, IsIn, IsLinked, IsIndexFor, leading_in, name_in, stored_in, references_at, stored_at, table_of, view_of};

use crate::chain::Chain;
use crate::chain::entry::Entry;
use crate::parts::Parts;
use crate::references::{count_in, count_out};
use fields::Name;
use rules::Work;
use std::alloc::AllocError;

impl Parts {
    // Puts a rule in at a place of a chain's rules.
    pub(crate) fn insert(
        &mut self,
        place: usize,
        at: usize,
        entry: Entry,
        work: &mut Work,
    ) -> Result<(), AllocError>
        requires kept { AreKept self.old }
        requires place { place < length self.old.order.items }
        requires at { at ≤ length (stored_in self.old place).entries }
        requires linked { IsLinked self.old.chains.slots self.old.order.items entry }
        requires sound { IsSound (changed (λ rules. insert rules at entry.rule)
            (name_in self.old place) (table_of self.old)) }
        ensures kept { AreKept self.new }
        ensures ok { OnOk result (table_of self.new ≡ changed (λ rules. insert rules at entry.rule)
            (name_in self.old place) (table_of self.old)) }
        ensures order { self.new.order.items ≡ self.old.order.items }
        ensures err { OnErr result (view_of self.new ≡ view_of self.old) }
        ensures work { MakesOneBoxAtMost work.old work.new }
        ensures boxed { OnOk result (MakesOneBox work.old work.new) }
    {
        let key = self.order[place];
        let link = entry.flow.key();
        self.chains[key].insert(self.alloc, at, entry, work)?;
        count_in(&mut self.chains, link);
        Ok(())
    }

    // Puts a rule in the place of another of a chain's rules.
    pub(crate) fn replace(
        &mut self,
        place: usize,
        at: usize,
        entry: Entry,
        work: &mut Work,
    ) -> Result<(), AllocError>
        requires kept { AreKept self.old }
        requires place { place < length self.old.order.items }
        requires at { at < length (stored_in self.old place).entries }
        requires linked { IsLinked self.old.chains.slots self.old.order.items entry }
        requires sound { IsSound (changed (λ rules. slice_set rules at entry.rule)
            (name_in self.old place) (table_of self.old)) }
        ensures kept { AreKept self.new }
        ensures ok { OnOk result (table_of self.new ≡ changed (λ rules. slice_set rules at entry.rule)
            (name_in self.old place) (table_of self.old)) }
        ensures order { self.new.order.items ≡ self.old.order.items }
        ensures err { OnErr result (view_of self.new ≡ view_of self.old) }
        ensures work { MakesOneBoxAtMost work.old work.new }
        ensures boxed { OnOk result (MakesOneBox work.old work.new) }
    {
        let key = self.order[place];
        let link = entry.flow.key();
        let before = self.chains[key].entry(at).flow.key();
        self.chains[key].replace(self.alloc, at, entry, work)?;
        count_in(&mut self.chains, link);
        count_out(&mut self.chains, before);
        Ok(())
    }

    // Takes a rule out of a chain. It takes no memory.
    pub(crate) fn remove_rule(&mut self, place: usize, at: usize)
        requires kept { AreKept self.old }
        requires place { place < length self.old.order.items }
        requires at { at < length (stored_in self.old place).entries }
        ensures kept { AreKept self.new }
        ensures order { self.new.order.items ≡ self.old.order.items }
        ensures table { table_of self.new ≡ changed (λ rules. remove rules at)
            (name_in self.old place) (table_of self.old) }
    {
        let key = self.order[place];
        let link = self.chains[key].entry(at).flow.key();
        self.chains[key].remove(at);
        count_out(&mut self.chains, link);
    }

    // Counts all rules of the chain under a key out where they lead to.
    fn count_all_out(&mut self, key: usize)
        requires kept { AreKept self.old }
        requires key { IsIn self.old.order.items key }
        ensures policies { self.new.policies ≡ self.old.policies }
        ensures order { self.new.order.items ≡ self.old.order.items }
        ensures same { AreRecounted self.old.chains.slots self.new.chains.slots }
        ensures counted { (k : ℕ) → references_at self.new.chains.slots k + leading_in k (stored_at self.old.chains.slots key)
            ≡ references_at self.old.chains.slots k }
    {
        let chains = &mut self.chains;
        for at in 0..chains[key].len() {
            let link = chains[key].entry(at).flow.key();
            count_out(chains, link);
        }
    }

    // Takes all rules of a chain out. It takes no memory.
    pub(crate) fn empty(&mut self, place: usize)
        requires kept { AreKept self.old }
        requires place { place < length self.old.order.items }
        ensures kept { AreKept self.new }
        ensures order { self.new.order.items ≡ self.old.order.items }
        ensures table { table_of self.new ≡ changed (λ rules. [])
            (name_in self.old place) (table_of self.old) }
    {
        let key = self.order[place];
        self.count_all_out(key);
        self.chains[key].clear();
    }

    // Takes all rules of all chains out. It takes no memory.
    pub(crate) fn empty_all(&mut self)
        requires { AreKept self.old }
        ensures kept { AreKept self.new }
        ensures order { self.new.order.items ≡ self.old.order.items }
        ensures table { table_of self.new ≡ edited FlushAll (table_of self.old) }
    {
        let chains = &mut self.chains;
        for place in 0..self.order.len() {
            let key = self.order[place];
            chains[key].reset();
        }
    }

    // Makes a chain without rules, at a place of the index.
    pub(crate) fn make(&mut self, place: usize, name: Name) -> Result<(), AllocError>
        requires kept { AreKept self.old }
        requires place { IsIndexFor name self.old.chains.slots self.old.order.items place }
        requires accepted { fault_of (NewChain name) (table_of self.old) ≡ None }
        ensures kept { AreKept self.new }
        ensures ok { OnOk result (table_of self.new ≡ edited (NewChain name) (table_of self.old)) }
        ensures key { OnOk result (self.new.order.items ≡ insert self.old.order.items place self.old.chains.vacant_key) }
        ensures err { OnErr result (view_of self.new ≡ view_of self.old) }
        ensures err_order { OnErr result (self.new.order.items ≡ self.old.order.items) }
    {
        self.order.reserve(1)?;
        let chain = Chain::new(self.alloc, name)?;
        match self.chains.insert(chain) {
            Ok(key) => match self.order.insert(place, key) {
                Ok(()) => return Ok(()),
                Err(_) => unreachable!(),
            },
            Err(_) => return Err(AllocError),
        }
    }
}
