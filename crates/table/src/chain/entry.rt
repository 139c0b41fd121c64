//! Rules as a chain keeps them: beside each stands what the walk does after it, with the key of the chain that it
//! leads to.
ghost use Rattle.std.specs.Prelude.{◌≡◌, IsTrue, map};
ghost use Rattle.rules.specs.rule.Actions.{names_chain, target_of};
ghost use Rattle.table.specs.steps.Kept.{NameChains, retargeted};
ghost use Rattle.table.specs.steps.StoredChains.{leads_to};

use crate::verdict::Verdict;
use fields::Name;
use rules::Rule;

// What the walk does after a rule that matches.
#[derive(Clone, Copy, Debug, PartialEq, Eq)]
pub(crate) enum Flow {
    // It ends with the verdict.
    Decide(Verdict),
    // It goes on after the rule.
    Continue,
    // It goes on where the chain was jumped to.
    Return,
    // It goes on in the chain under this key, and comes back.
    Jump(usize),
    // It goes on in the chain under this key, and doesn't come back.
    Goto(usize),
}

impl Flow {
    ghost use Rattle.table.specs.steps.StoredChains.{key_in};

    // The key of the chain that the walk goes to, if it goes to one.
    pub(crate) fn key(self) -> Option<usize>
        ensures { result ≡ key_in self }
    {
        match self {
            Flow::Jump(key) => Some(key),
            Flow::Goto(key) => Some(key),
            Flow::Decide(_) => None,
            Flow::Continue => None,
            Flow::Return => None,
        }
    }

    // Whether the walk goes to the chain under a key.
    pub(crate) fn leads_to(self, key: usize) -> bool
        ensures { result ≡ leads_to key self }
    {
        match self.key() {
            Some(other) => other == key,
            None => false,
        }
    }
}

// A rule, and what the walk does after it.
#[derive(Drop)]
pub(crate) struct Entry {
    pub(crate) rule: Rule,
    pub(crate) flow: Flow,
}

impl Entry {
    // Puts the name into the rule if it leads to the chain under a key.
    fn retarget(&mut self, key: usize, name: &Name)
        requires { IsTrue (leads_to key self.old.flow) → IsTrue (names_chain (target_of self.old.rule)) }
        ensures { self.new ≡ retargeted key name.now self.old }
    {
        if self.flow.leads_to(key) {
            self.rule.rename_target(name);
        }
    }
}

// Puts the name into the rules that lead to the chain under a key.
pub(crate) fn retarget(entries: &mut Vec<Entry>, key: usize, name: &Name)
    requires { NameChains entries.old.items }
    ensures { entries.new.items ≡ map (retargeted key name.now) entries.old.items }
{
    for at in 0..entries.len() {
        entries[at].retarget(key, name);
    }
}
