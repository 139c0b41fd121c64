//! Whether two tables give each packet at a hook the same verdict, by the rules in which they differ.
ghost use Rattle.std.specs.Prelude.{All, Any, IfOk, IsFalse, IsTrue};
ghost use Rattle.questions.specs.Ends.{IsRule};
ghost use Rattle.questions.specs.Scopes.{table_of, whole_of};
ghost use Rattle.questions.specs.asked.Alike.{IsAlwaysSameAt, IsAlwaysSettled, SaysIf};
ghost use Rattle.questions.specs.asked.Always.{AreAlwaysShort, IsAlwaysDeadAt};
ghost use Rattle.questions.specs.asked.Changes.{AreChangesUnder};
ghost use Rattle.questions.specs.asked.Differing.{IsNotDead, IsUnclearIf, MayDiffer};
ghost use Rattle.questions.specs.steps.Compared.{MayDifferOf};

use crate::asked::alone::other_alone;
use crate::asked::changes::Changes;
use crate::asked::likeness::{Likeness, likeness_on};
use crate::asked::matching::scope_at;
use crate::asked::other::Shown;
use crate::asked::rule::{Life, life_at};
use crate::boxes::area::Area;
use crate::foreign::answers::Answers;
use crate::foreign::subject::Subject;
use crate::walking::course::Course;
use crate::walking::engine::policy_at;
use crate::walking::scope::Scope;
use std::alloc::AllocError;
use table::Step;

// Whether a rule is known to be dead, for the packets at one hook; and then no packet there that it matches has a walk that is too long.
fn is_dead_at(subject: &Subject<'_>, course: Course, step: Step) -> Result<bool, AllocError>
    requires { IsRule (table_of subject.now) step }
    ensures dead { IfOk result (λ is. IsTrue is
        → IsAlwaysDeadAt subject.now step course.hook × AreAlwaysShort subject.now step course.hook) }
    ensures other { IfOk result (λ is. IsFalse is → IsNotDead (whole_of subject.now) step course.hook course.budget) }
{
    match life_at(subject, course, step)? {
        Life::Dead => Ok(true),
        Life::Live(_, _) => Ok(false),
        Life::Unclear => Ok(false),
    }
}

// What is said of the packets that a rule of one of the tables matches. Where the rule is dead there, its packets are those of the other
// changed rules. Where the walks of all its packets don't tell, one of them may.
fn likeness_of<'a>(
    old: &Subject<'a>,
    new: &Subject<'a>,
    own: &Subject<'a>,
    course: Course,
    step: Step,
) -> Result<Likeness, AllocError>
    requires { IsRule (table_of own.now) step }
    ensures says { IfOk result (SaysIf (IsAlwaysSettled own.now old.now new.now course.hook step) old.now new.now course.hook) }
    ensures unclear { IfOk result (IsUnclearIf
        (MayDifferOf (whole_of own.now) (whole_of old.now) (whole_of new.now) course.hook course.budget step)) }
{
    let Some(start) = scope_at(course.alloc, own, course.hook, step)? else {
        return Ok(Likeness::Same);
    };
    if start.area.is_empty() {
        return Ok(Likeness::Same);
    }
    if is_dead_at(own, course, step)? {
        return Ok(Likeness::Same);
    }
    match likeness_on(old, new, course, start)? {
        Likeness::Same => return Ok(Likeness::Same),
        Likeness::Differ(words, answers) => return Ok(Likeness::Differ(words, answers)),
        Likeness::Unclear => {}
    }
    match other_alone(old, new, own, course, step)? {
        Some(Shown { words, answers }) => Ok(Likeness::Differ(words, answers)),
        None => Ok(Likeness::Unclear),
    }
}

// What is said of the packets that some of these rules match.
fn likeness_of_all<'a>(
    old: &Subject<'a>,
    new: &Subject<'a>,
    own: &Subject<'a>,
    course: Course,
    steps: &[Step],
) -> Result<Likeness, AllocError>
    requires { All (IsRule (table_of own.now)) steps.now }
    ensures says { IfOk result (SaysIf (All (IsAlwaysSettled own.now old.now new.now course.hook) steps.now) old.now new.now course.hook) }
    ensures unclear { IfOk result (IsUnclearIf
        (Any (MayDifferOf (whole_of own.now) (whole_of old.now) (whole_of new.now) course.hook course.budget) steps.now)) }
{
    let mut clear = true;
    for step in steps {
        match likeness_of(old, new, own, course, *step)? {
            Likeness::Same => {}
            Likeness::Differ(words, answers) => return Ok(Likeness::Differ(words, answers)),
            Likeness::Unclear => clear = false,
        }
    }
    if clear {
        return Ok(Likeness::Same);
    }
    Ok(Likeness::Unclear)
}

// What is said of the packets at one hook. Where both tables have one policy there, only packets that a changed rule matches can get
// two verdicts, and these walk the tables; else all packets of the hook do.
pub(crate) fn likeness_at<'a>(
    old: &Subject<'a>,
    new: &Subject<'a>,
    changes: &Changes,
    course: Course,
) -> Result<Likeness, AllocError>
    requires { AreChangesUnder (whole_of old.now) (whole_of new.now) changes.now }
    ensures says { IfOk result (SaysIf (IsAlwaysSameAt old.now new.now course.hook) old.now new.now course.hook) }
    ensures unclear { IfOk result (IsUnclearIf (MayDiffer (whole_of old.now) (whole_of new.now) course.hook course.budget)) }
{
    old.boxed.table.stands();
    new.boxed.table.stands();
    let policy = policy_at(&old.boxed.table, course.hook);
    if policy != policy_at(&new.boxed.table, course.hook) {
        let area = Area::at_hook(course.alloc, course.hook)?;
        let answers = Answers::none(course.alloc);
        return likeness_on(old, new, course, Scope { area, answers });
    }
    let clear = match likeness_of_all(old, new, old, course, changes.went.as_slice())? {
        Likeness::Differ(words, answers) => return Ok(Likeness::Differ(words, answers)),
        Likeness::Same => true,
        Likeness::Unclear => false,
    };
    match likeness_of_all(old, new, new, course, changes.came.as_slice())? {
        Likeness::Differ(words, answers) => Ok(Likeness::Differ(words, answers)),
        Likeness::Unclear => Ok(Likeness::Unclear),
        Likeness::Same => {
            if clear {
                return Ok(Likeness::Same);
            }
            Ok(Likeness::Unclear)
        }
    }
}
