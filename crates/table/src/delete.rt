//! Why a chain may not be deleted, and chains taken out of the index.
ghost use Rattle.std.specs.Prelude.{◌≡◌, ◌<◌, ℕ, length, remove, None};
ghost use Rattle.std.specs.List.{list_any};
ghost use Rattle.table.specs.chains.Table.{is_referenced, user_chains};
ghost use Rattle.table.specs.edits.Edits.{DeleteChain, DeleteChains, edited, fault_of, has_rules};
ghost use Rattle.table.specs.steps.Kept.{AreKept, IsIn, listed, name_in, table_of};

use crate::fault::TableFault;
use crate::parts::Parts;
use crate::store::BUILT_IN;

impl Parts {
    // Why the chain at a place of the index may not be taken away, if it may not.
    pub(crate) fn refusal(&self, place: usize) -> Option<TableFault>
        requires kept { AreKept self.now }
        requires place { place < length self.now.order.items }
        ensures { result ≡ fault_of (DeleteChain (name_in self.now place))
            (table_of self.now) }
    {
        if place < BUILT_IN {
            return Some(TableFault::BuiltInChain);
        }
        let chain = &self.chains[self.order[place]];
        if chain.len() > 0 {
            return Some(TableFault::ChainNotEmpty);
        }
        if chain.references() > 0 {
            return Some(TableFault::ChainReferenced);
        }
        None
    }

    // Takes the chain at a place of the index away, which may be. It takes no memory.
    pub(crate) fn remove_chain(&mut self, place: usize)
        requires kept { AreKept self.old }
        requires place { place < length self.old.order.items }
        requires accepted { fault_of (DeleteChain (name_in self.old place))
            (table_of self.old) ≡ None }
        ensures kept { AreKept self.new }
        ensures table { table_of self.new ≡ edited (DeleteChain (name_in self.old place))
            (table_of self.old) }
        ensures order { self.new.order.items ≡ remove self.old.order.items place }
        ensures fewer { (key : ℕ) → IsIn self.new.order.items key → IsIn self.old.order.items key }
    {
        let key = self.order.remove(place);
        self.chains.remove(key);
    }

    // Whether a user chain has rules.
    fn some_has_rules(&self) -> bool
        requires { AreKept self.now }
        ensures { result ≡ list_any has_rules (user_chains (listed self.now.chains.slots self.now.order.items)) }
    {
        for place in BUILT_IN..self.order.len() {
            if self.chains[self.order[place]].len() > 0 {
                return true;
            }
        }
        false
    }

    // Whether a rule names a user chain.
    fn some_is_named(&self) -> bool
        requires { AreKept self.now }
        ensures { result ≡ list_any (λ c. is_referenced (listed self.now.chains.slots self.now.order.items) c.name)
            (user_chains (listed self.now.chains.slots self.now.order.items)) }
    {
        for place in BUILT_IN..self.order.len() {
            if self.chains[self.order[place]].references() > 0 {
                return true;
            }
        }
        false
    }

    // Why the user chains may not all be taken away, if they may not.
    pub(crate) fn refusal_of_all(&self) -> Option<TableFault>
        requires { AreKept self.now }
        ensures { result ≡ fault_of DeleteChains (table_of self.now) }
    {
        if self.some_has_rules() {
            return Some(TableFault::ChainNotEmpty);
        }
        if self.some_is_named() {
            return Some(TableFault::ChainReferenced);
        }
        None
    }

    // Takes all user chains away, which may be, from the end of the index on. It takes no memory.
    pub(crate) fn remove_user_chains(&mut self)
        requires kept { AreKept self.old }
        requires accepted { fault_of DeleteChains (table_of self.old) ≡ None }
        ensures kept { AreKept self.new }
        ensures table { table_of self.new ≡ edited DeleteChains (table_of self.old) }
        ensures fewer { (key : ℕ) → IsIn self.new.order.items key → IsIn self.old.order.items key }
    {
        while self.order.len() > BUILT_IN {
            let last = self.order.len() - 1;
            self.remove_chain(last);
        }
    }
}
