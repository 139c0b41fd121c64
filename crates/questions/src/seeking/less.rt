//! Whether parts of a scope are smaller, so that the search for a packet gets on.
ghost use Rattle.std.specs.Prelude.{All, IsTrue};
ghost use Rattle.questions.specs.steps.Seeking.{IsLess};

use crate::boxes::lying::lies_in;
use crate::walking::scope::Scope;

// Whether a part is seen to lie in a scope, field by field, and to have fewer numbers on some field, or more answers.
fn is_less(whole: &Scope, part: &Scope) -> bool
    ensures { IsTrue result → IsLess whole.now part.now }
{
    if !lies_in(part.area.sets(), whole.area.sets()) {
        return false;
    }
    if whole.answers.listed().len() < part.answers.listed().len() {
        return true;
    }
    !lies_in(whole.area.sets(), part.area.sets())
}

// The same of all parts.
pub(crate) fn are_less(whole: &Scope, parts: &[Scope]) -> bool
    ensures { IsTrue result → All (IsLess whole.now) parts.now }
{
    for part in parts {
        if !is_less(whole, part) {
            return false;
        }
    }
    true
}
