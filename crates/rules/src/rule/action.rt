//! What a rule does with a packet that it matches.
ghost use Rattle.std.specs.Prelude.{◌≡◌, Option, Some, None};
ghost use Rattle.rules.specs.rule.Actions.{action_of, is_owned_by, action_has};
ghost use Rattle.rules.specs.options.Options.{owner};

use crate::options::option::{Extended, Opt, Owner};
use fields::Name;

// The target of a rule; the type of REJECT stands among the options.
#[derive(PartialEq, Drop)]
pub(crate) enum Action {
    Accept,
    Drop,
    Return,
    Reject,
    Log,
    Jump(Name),
    Goto(Name),
}

impl Action {
    // The action that `-j` names.
    #[tactic(auto, unfolding(crate::specs::rule::Actions::action_of))]
    pub(crate) fn read(text: &[u8]) -> Option<Action>
        ensures { result ≡ action_of text.now }
    {
        if text == b"ACCEPT".as_slice() {
            return Some(Action::Accept);
        }
        if text == b"DROP".as_slice() {
            return Some(Action::Drop);
        }
        if text == b"RETURN".as_slice() {
            return Some(Action::Return);
        }
        if text == b"REJECT".as_slice() {
            return Some(Action::Reject);
        }
        if text == b"LOG".as_slice() {
            return Some(Action::Log);
        }
        let name = Name::read(text)?;
        Some(Action::Jump(name))
    }

    // Whether an option that belongs there is one of the action's.
    fn owns(&self, owner: Owner) -> bool
        ensures { result ≡ is_owned_by self.now owner }
    {
        match self {
            Action::Reject => matches!(owner, Owner::Target(Extended::Reject)),
            Action::Log => matches!(owner, Owner::Target(Extended::Log)),
            _ => false,
        }
    }
}

// Whether the option is one of the action that was given.
pub(crate) fn action_has(action: &Option<Action>, option: Opt) -> bool
    ensures { result ≡ action_has action.now option }
{
    match action {
        None => false,
        Some(action) => action.owns(option.row().owner),
    }
}
