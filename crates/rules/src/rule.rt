//! Rules, and their equality.
ghost use Rattle.std.specs.Prelude.{◌≡◌, ℕ, List, Option, Some, None, true, false};
ghost use Rattle.std.specs.List.{list_any};
ghost use Rattle.fields.specs.declared.numbers.field.Field.{Field};
ghost use Rattle.rules.specs.rule.Actions.{reject_in, target_with};
ghost use Rattle.rules.specs.rule.Allows.{asks};
ghost use Rattle.rules.specs.rule.Crossing.{asks_both, cross, has_both};
ghost use Rattle.rules.specs.steps.Views.{view_spec};

pub(crate) mod action;
pub(crate) mod copy;
pub(crate) mod crossing;
pub(crate) mod kept;
pub(crate) mod port_sets;
pub(crate) mod renamed;
pub(crate) mod spec;
pub(crate) mod target;

use crate::options::option_value::OptionValue;
use crate::options::value::Value;
use crate::rule::action::Action;
use crate::rule::crossing::ask_both;
use crate::rule::kept::Kept;
use crate::rule::spec::{Match, RuleSpec, same_spec};
use crate::rule::target::Target;
use fields::{Field, Name, RejectType};
use std::alloc::{AllocError, Global};
use std::marker::Model;
use std::mem::size_of;

/// A rule: what it tests of a packet, and its target, where the packets go that it matches.
///
/// Every rule was read from words, or is a copy or a renamed one of such a rule, and its text reads back as it. A
/// rule has 24 bytes and, in memory that its copies share unless it leads to a chain, 144 bytes, its options with 88 bytes
/// each and its matches with 32 bytes each beside their options. Only a comment has further memory, of at most 272 bytes.
#[derive(Drop)]
pub struct Rule {
    kept: Kept,
    asks_both: bool,
    ghost asked: { asks_both ≡ list_any has_both kept.matches },
}

const _: () = prove!(size_of::<Rule>() == 24);

const _: () = prove!(size_of::<RuleSpec>() == 128);

const _: () = prove!(size_of::<Match>() == 32);

const _: () = prove!(size_of::<OptionValue>() == 88);

impl Model for Rule {
    ghost use Rattle.rules.specs.rule.Rules.{Rule as Specified};
    ghost use Rattle.rules.specs.steps.Views.{view_spec};
    ghost use Rattle.rules.specs.Printing.{ReadsItself};

    ghost Value = { Specified };

    ghost view = { λ r. r.kept };

    ghost invariant = { λ r. ReadsItself r.kept };
}

// Rules are equal where they have one text (`Rule::equals` says more).
impl PartialEq for Rule {
    ghost use Rattle.std.specs.Prelude.{nat_eq};
    ghost use Rattle.std.specs.Ordering.{on};
    ghost use Rattle.std.specs.Cmp.{partial_equiv_from_equiv};
    ghost use Rattle.std.specs.Cmp.Lexicographic.{pointwise, on_texts_equal};
    ghost use Rattle.rules.specs.Printing.{rule_text};

    ghost eq = { on rule_text (pointwise nat_eq) };

    ghost laws = { partial_equiv_from_equiv (on_texts_equal rule_text) };

    fn eq(&self, other: &Rule) -> bool {
        self.equals(other)
    }
}

impl Eq for Rule {
    ghost use Rattle.std.specs.Cmp.Lexicographic.{on_texts_equal};
    ghost use Rattle.rules.specs.Printing.{rule_text};

    ghost laws = { on_texts_equal rule_text };
}

// The type of REJECT among the options of the target.
fn reject_in(target_options: &[OptionValue]) -> RejectType
    ensures { result ≡ reject_in target_options.now }
{
    for option_value in target_options {
        if let Value::RejectWith(answer) = &option_value.value {
            return *answer;
        }
    }
    RejectType::default()
}

// The action as a target, with the type of REJECT.
fn target_with(action: &Action, target_options: &[OptionValue]) -> Target
    ensures { result ≡ target_with action.now target_options.now }
{
    match action {
        Action::Accept => Target::Accept,
        Action::Drop => Target::Drop,
        Action::Return => Target::Return,
        Action::Reject => Target::Reject(reject_in(target_options)),
        Action::Log => Target::Log,
        Action::Jump(name) => Target::Jump(name.copy()),
        Action::Goto(name) => Target::Goto(name.copy()),
    }
}

// Whether the option asks for an incoming interface.
fn is_in(option_value: &OptionValue) -> bool
    ensures { result ≡ asks Field.InIface option_value.now }
{
    matches!(option_value.value, Value::InInterface(_))
}

// Whether the option asks for an outgoing interface.
fn is_out(option_value: &OptionValue) -> bool
    ensures { result ≡ asks Field.OutIface option_value.now }
{
    matches!(option_value.value, Value::OutInterface(_))
}

// Whether one of the options does.
fn asks_in(option_values: &[OptionValue]) -> bool
    ensures { result ≡ list_any (asks Field.InIface) option_values.now }
{
    option_values.iter().any(is_in)
}

// Whether one of the options does.
fn asks_out(option_values: &[OptionValue]) -> bool
    ensures { result ≡ list_any (asks Field.OutIface) option_values.now }
{
    option_values.iter().any(is_out)
}

impl Rule {
    ghost use Rattle.std.specs.Prelude.{◌≡◌, ◌↔◌, ℕ, true, false, IfOk, IsTrue};
    ghost use Rattle.fields.specs.declared.numbers.field.Field.{Field};
    ghost use Rattle.rules.specs.rule.Actions.{target_of, with_chain_name, names_chain};
    ghost use Rattle.rules.specs.rule.Allows.{asks_on, allows};
    ghost use Rattle.rules.specs.rule.Readable.{IsInOrder, IsReadable};
    ghost use Rattle.rules.specs.Printing.{rule_text, ReadsItself, TextReadsBack};
    ghost use Rattle.rules.specs.steps.Views.{view_spec};

    // The rule of what was read.
    pub(crate) fn of(alloc: Global, spec: RuleSpec) -> Result<Rule, AllocError>
        requires { ReadsItself (view_spec spec) }
        ensures { IfOk result (λ rule. rule ≡ view_spec spec) }
    {
        let asks_both = ask_both(spec.matches.as_slice());
        let kept = Kept::of(alloc, spec)?;
        Ok(Rule { kept, asks_both })
    }

    /// Whether a condition of the rule tests several fields at once, as `--ports` does. Where none does, `cross`
    /// holds of every packet: the rule matches just the packets whose numbers it allows, field by field.
    pub fn asks_both(&self) -> bool
        ensures value { result ≡ asks_both self.now }
        ensures alone { result ≡ false → (numbers : List ℕ) → cross numbers self.now ≡ true }
    {
        self.asks_both
    }

    // What the rule holds; it is lent.
    pub(crate) fn spec(&self) -> &RuleSpec
        ensures value { view_spec result.now ≡ self.now }
        ensures kept { ReadsItself self.now }
        ensures ordered { IsInOrder self.now }
        ensures readable { IsReadable self.now }
    {
        self.kept.spec()
    }

    /// The law that every rule is readable, and that its text reads back as it. The call does nothing.
    #[tactic(auto, using(crate::proofs::laws::printing::RoundTripLaws::listing_laws))]
    pub fn reads_back(&self)
        ensures readable { IsReadable self.now }
        ensures text { TextReadsBack self.now }
    {
        let _spec = self.spec();
    }

    /// An equal rule. It takes no memory, unless the rule leads to a chain: then it takes as much as the rule has. That is tested, since std's
    /// `Rc::clone` doesn't promise it.
    ///
    /// # Errors
    ///
    /// `AllocError` where memory was refused.
    pub fn copy(&self, alloc: Global) -> Result<Rule, AllocError>
        ensures { IfOk result (λ copy. copy ≡ self.now) }
    {
        Ok(Rule {
            kept: self.kept.copy(alloc)?,
            asks_both: self.asks_both,
        })
    }

    /// Whether the rules are equal: they have the same conditions and the same target, and one text.
    #[tactic(auto, using(crate::proofs::laws::printing::RoundTripLaws::same_text))]
    pub fn equals(&self, other: &Rule) -> bool
        ensures value { IsTrue result ↔ (self.now ≡ other.now) }
        ensures text { IsTrue result ↔ (rule_text self.now ≡ rule_text other.now) }
    {
        same_spec(self.spec(), other.spec())
    }

    /// The rule's target: `None` where it has none, so that the walk goes on. It takes no memory.
    pub fn target(&self) -> Option<Target>
        ensures { result ≡ target_of self.now }
    {
        let spec = self.spec();
        match &spec.action {
            None => None,
            Some(action) => Some(target_with(action, spec.target_options.as_slice())),
        }
    }

    /// Changes the name of the chain that the rule jumps or goes to, which it must do, and leaves all else. It takes
    /// no memory.
    pub fn rename_target(&mut self, name: &Name)
        requires { IsTrue (names_chain (target_of self.old)) }
        ensures { self.new ≡ with_chain_name name.now self.old }
    {
        let _name = name.bytes();
        self.kept.rename(name);
    }

    /// Whether the rule has a condition on the incoming interface (`-i`; no condition is `-i +`). Without one it allows
    /// every interface.
    #[tactic(auto, using(crate::proofs::laws::rule::AskLaws::in_is_own, crate::proofs::laws::rule::AskLaws::in_free))]
    pub fn on_in(&self) -> bool
        ensures value { result ≡ asks_on Field.InIface self.now }
        ensures free { result ≡ false → (n : ℕ) → allows self.now Field.InIface n ≡ true }
    {
        asks_in(self.spec().option_values.as_slice())
    }

    /// Whether the rule has a condition on the outgoing interface (`-o`; no condition is `-o +`). Without one it allows
    /// every interface.
    #[tactic(auto, using(crate::proofs::laws::rule::AskLaws::out_is_own, crate::proofs::laws::rule::AskLaws::out_free))]
    pub fn on_out(&self) -> bool
        ensures value { result ≡ asks_on Field.OutIface self.now }
        ensures free { result ≡ false → (n : ℕ) → allows self.now Field.OutIface n ≡ true }
    {
        asks_out(self.spec().option_values.as_slice())
    }
}
