//! What a rule holds, as it is kept: once for all its copies, but for a rule that leads to a chain, whose name may change.
ghost use Rattle.std.specs.Prelude.{◌≡◌, IfOk, IsTrue};
ghost use Rattle.rules.specs.rule.Actions.{action_with_chain_name, leads_to_chain, names_chain, target_of, with_chain_name};
ghost use Rattle.rules.specs.steps.Views.{view_spec};

use crate::rule::action::Action;
use crate::rule::copy::copy_spec;
use crate::rule::spec::RuleSpec;
use fields::Name;
use std::alloc::{AllocError, Global};
use std::marker::Model;
use std::rc::Rc;

// Whether the action is to go on in a chain.
fn leads_to_chain(action: &Option<Action>) -> bool
    ensures { result ≡ leads_to_chain action.now }
{
    matches!(action, Some(Action::Jump(_) | Action::Goto(_)))
}

// Changes the name of the action's chain.
fn rename(action: &mut Option<Action>, name: &Name)
    ensures { action.new ≡ action_with_chain_name name.now action.old }
{
    match action {
        Some(Action::Jump(_)) => *action = Some(Action::Jump(name.copy())),
        Some(Action::Goto(_)) => *action = Some(Action::Goto(name.copy())),
        _ => {}
    }
}

// Whose it is.
#[derive(Drop)]
enum Owner {
    Shared(Rc<RuleSpec, Global>),
    Own(Box<RuleSpec>),
}

/// What a rule holds. A copy shares it, and so takes no memory (tested); but a rule that leads to a chain has its own, so that the
/// chain's name can be changed without memory.
#[derive(Drop)]
pub(crate) struct Kept {
    owner: Owner,
}

impl Model for Kept {
    ghost use Rattle.rules.specs.rule.Actions.{leads_to_chain};
    ghost use Rattle.rules.specs.rule.Rules.{Rule};
    ghost use Rattle.rules.specs.steps.Views.{held, is_shared, view_spec};
    ghost use Rattle.std.specs.Prelude.{◌≡◌, false, IsTrue};

    ghost Value = { Rule };

    ghost view = { λ k. view_spec (held k.owner) };

    ghost invariant = { λ k. IsTrue (is_shared k.owner) → leads_to_chain (held k.owner).action ≡ false };
}

impl Kept {
    // What was read.
    pub(crate) fn of(alloc: Global, spec: RuleSpec) -> Result<Kept, AllocError>
        ensures { IfOk result (λ kept. kept ≡ view_spec spec) }
    {
        let owner = if leads_to_chain(&spec.action) {
            Owner::Own(Box::new(alloc, spec)?)
        } else {
            Owner::Shared(Rc::new(alloc, spec)?)
        };
        Ok(Kept { owner })
    }

    // It is lent.
    pub(crate) fn spec(&self) -> &RuleSpec
        ensures { view_spec result.now ≡ self.now }
    {
        match &self.owner {
            Owner::Shared(spec) => spec,
            Owner::Own(spec) => spec,
        }
    }

    // The same again.
    pub(crate) fn copy(&self, alloc: Global) -> Result<Kept, AllocError>
        ensures { IfOk result (λ copy. copy ≡ self.now) }
    {
        let owner = match &self.owner {
            Owner::Shared(spec) => Owner::Shared(spec.clone()?),
            Owner::Own(spec) => Owner::Own(Box::new(alloc, copy_spec(alloc, spec)?)?),
        };
        Ok(Kept { owner })
    }

    // Changes the name of the chain that it leads to.
    pub(crate) fn rename(&mut self, name: &Name)
        requires { IsTrue (names_chain (target_of self.old)) }
        ensures { self.new ≡ with_chain_name name.now self.old }
    {
        if let Owner::Own(spec) = &mut self.owner {
            rename(&mut spec.action, name);
        }
    }
}
