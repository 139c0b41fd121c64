//! What a rule holds: its options, its matches, its action and the options of that.
ghost use Rattle.std.specs.Prelude.{◌≡◌, ◌↔◌, IsTrue};
ghost use Rattle.rules.specs.steps.Views.{view_spec};

use crate::options::match_kind::MatchKind;
use crate::options::option_value::OptionValue;
use crate::rule::action::Action;

// A match with its options.
#[derive(PartialEq, Drop)]
pub(crate) struct Match {
    pub(crate) kind: MatchKind,
    pub(crate) option_values: Vec<OptionValue>,
}

// A rule's options, matches and target. While it is read, options that are no condition stand here too.
#[derive(PartialEq, Drop)]
pub(crate) struct RuleSpec {
    pub(crate) option_values: Vec<OptionValue>,
    pub(crate) matches: Vec<Match>,
    pub(crate) action: Option<Action>,
    pub(crate) target_options: Vec<OptionValue>,
}

// Whether two rules hold the same.
pub(crate) fn same_spec(a: &RuleSpec, b: &RuleSpec) -> bool
    ensures { IsTrue result ↔ (view_spec a.now ≡ view_spec b.now) }
{
    a == b
}
