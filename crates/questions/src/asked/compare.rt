//! Whether two tables give each packet at a hook the same verdict.
ghost use Rattle.std.specs.Prelude.{◌≡◌, IfOk};
ghost use Rattle.questions.specs.Scopes.{whole_of};
ghost use Rattle.questions.specs.asked.Alike.{AreEqual, IsAlwaysSameAt, SaysIf};
ghost use Rattle.questions.specs.asked.Differing.{IsUnclearIf, MayDiffer};
ghost use Rattle.questions.specs.declared.asked.likeness.Likeness.TheVariants.{Same};

use crate::asked::changes::changes_under;
use crate::asked::equal::are_equal_with_needs;
use crate::asked::likeness::Likeness;
use crate::asked::verdicts::likeness_at;
use crate::foreign::subject::Subject;
use crate::walking::course::Course;
use fields::Hook;
use std::alloc::{AllocError, Global};

/// Whether two tables whose rules need something give each packet at one hook the same verdict, whichever rule gives it and whatever holds; or a packet
/// line and answers, such that they give this packet at the hook two verdicts where these are right, whatever else holds. A condition that both tables
/// need is told by one number. Equal tables whose rules need the same are the same before any step.
///
/// Otherwise the chains of one name are aligned: rules that both have, with the same needs and in one order, are set aside, and the others are the
/// changes. A packet that matches no changed rule gets the same verdict from both tables, if the hook has the same policy in both; so does one that
/// matches only changed rules that are dead in their own tables. So each changed rule is searched for first, as by `life_under`; and for each that
/// isn't dead, the packets of the rule's box walk the first table as boxes, under answers that meet what the rule needs, and each leaf then walks the
/// second one. Where these walks don't tell, the rule is searched for once more, and a packet that comes to it walks both tables alone, with what other
/// rules need answered so that it fails. Where the policies of the hook differ, all its packets walk as boxes. Each of these walks has `budget` steps
/// (`leaves_under`).
///
/// # Errors
///
/// `AllocError` where memory was refused.
pub fn compare_at_under<'a>(
    alloc: Global,
    old: &Subject<'a>,
    new: &Subject<'a>,
    hook: Hook,
    budget: usize,
) -> Result<Likeness, AllocError>
    ensures says { IfOk result (SaysIf (IsAlwaysSameAt old.now new.now hook) old.now new.now hook) }
    ensures equal { AreEqual old.now new.now → IfOk result (λ likeness. likeness ≡ Same) }
    ensures unclear { IfOk result (IsUnclearIf (MayDiffer (whole_of old.now) (whole_of new.now) hook budget)) }
{
    if are_equal_with_needs(old, new) {
        return Ok(Likeness::Same);
    }
    let changes = changes_under(alloc, old, new)?;
    likeness_at(
        old,
        new,
        &changes,
        Course {
            alloc,
            hook,
            budget,
        },
    )
}
