//! The packets at a hook that the box of a rule has.
ghost use Rattle.std.specs.Prelude.{[], IfOk, MatchOption};
ghost use Rattle.questions.specs.Ends.{IsRule};
ghost use Rattle.questions.specs.Scopes.{table_of};
ghost use Rattle.questions.specs.steps.Answered.{MeetsNever};
ghost use Rattle.questions.specs.steps.Takers.{IsScopeAt, needs_of};

use crate::boxes::area::Area;
use crate::foreign::answers::Answers;
use crate::foreign::need::meeting;
use crate::foreign::subject::Subject;
use crate::walking::scope::Scope;
use fields::Hook;
use std::alloc::{AllocError, Global};
use table::Step;

// The packets at a hook that the box of a rule has, under answers that meet what the rule needs; none where no assignment meets that.
pub(crate) fn scope_at(
    alloc: Global,
    subject: &Subject<'_>,
    hook: Hook,
    step: Step,
) -> Result<Option<Scope>, AllocError>
    requires { IsRule (table_of subject.now) step }
    ensures { IfOk result (λ found. MatchOption found
        (MeetsNever (needs_of subject.now.needs.now step) []) (IsScopeAt (table_of subject.now) subject.now.needs.now step hook)) }
{
    let needs = subject.needs.at(step.chain, step.number - 1);
    let Some(answers) = meeting(needs, Answers::none(alloc))? else {
        return Ok(None);
    };
    let boxed = subject.boxed.at(step.chain, step.number);
    let area = Area::at_hook(alloc, hook)?.within(alloc, boxed.spans())?;
    Ok(Some(Scope { area, answers }))
}
