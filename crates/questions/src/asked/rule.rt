//! Whether a rule can match at all.
ghost use Rattle.std.specs.Prelude.{◌≡◌, ◌<◌, ◌≤◌, ◌↔◌, false, All, Any, Contains, length, IfOk, IsTrue};
ghost use Rattle.table.specs.chains.Table.{chain_at};
ghost use Rattle.questions.specs.Ends.{IsRule};
ghost use Rattle.questions.specs.Scopes.{table_of, whole_of};
ghost use Rattle.questions.specs.asked.Always.{AreAllShort, AreAlwaysShort, IsUnclear, MayLive, Says, SaysAt, SaysIn};
ghost use Rattle.questions.specs.asked.Necessary.{IsByFew};
ghost use Rattle.questions.specs.asked.Reason.{AreNeverTooLongUnder};
ghost use Rattle.questions.specs.asked.Unclear.{IsUnclearAt, MayComeFrom};
ghost use Rattle.questions.specs.declared.asked.rule.Life.TheVariants.{Dead};

use crate::asked::leading::{is_led, leading_to};
use crate::asked::shortest::enough_of;
use crate::boxes::area::Area;
use crate::foreign::answers::Answers;
use crate::foreign::subject::Subject;
use crate::seeking::seek::seek;
use crate::walking::course::Course;
use crate::walking::lengths::are_short;
use crate::walking::scope::Scope;
use crate::walking::task::Leaf;
use fields::{Hook, Words};
use std::alloc::{AllocError, Global};
use table::Step;

/// What is known of a rule.
#[derive(Drop)]
pub enum Life {
    /// The rule is on the walk of no packet that can be at its hook; and no packet that might come to it and that it would match has a walk that is too long.
    Dead,
    /// These words write a packet, and the rule is on its walk where the answers are right.
    Live(Words, Answers),
    /// Neither is known. Each hook at which the rule isn't dead is one where as many packets were tried as may be, and others may be left; or where a
    /// box is left of which no line writes a packet, or the walks of a packet aren't known to end; or where walks may be too long. There is such a hook.
    Unclear,
}

// Whether the rule is on a trail.
pub(crate) fn is_on(trail: &[Step], step: Step) -> bool
    ensures { IsTrue result ↔ Contains trail.now step }
{
    trail.contains(&step)
}

// Whether no leaf has the rule on its trail.
pub(crate) fn none_on(found: &[Leaf], step: Step) -> bool
    ensures none { IsTrue result → All (λ leaf. Contains leaf.trail.items step → ⊥) found.now }
    ensures some { result ≡ false → Any (λ leaf. Contains leaf.trail.items step) found.now }
{
    for leaf in found {
        if is_on(leaf.trail.as_slice(), step) {
            return false;
        }
    }
    true
}

// What is said of a rule, for those packets at one hook that are in a scope. It is dead only where no walk is too long.
pub(crate) fn life_in(
    subject: &Subject<'_>,
    course: Course,
    start: &Scope,
    step: Step,
) -> Result<Life, AllocError>
    requires { IsRule (table_of subject.now) step }
    ensures says { IfOk result (SaysIn subject.now step course.hook start.now) }
    ensures unclear { IfOk result (IsUnclearAt (MayComeFrom (whole_of subject.now) start.now step course.hook course.budget)) }
    ensures short { IfOk result (λ life. life ≡ Dead → AreAllShort subject.now course.hook) }
{
    match seek(subject, course, start, step)? {
        Life::Dead if !are_short(subject, course.hook) => Ok(Life::Unclear),
        life => Ok(life),
    }
}

// The same for all packets at the hook.
pub(crate) fn life_at(subject: &Subject<'_>, course: Course, step: Step) -> Result<Life, AllocError>
    requires { IsRule (table_of subject.now) step }
    ensures says { IfOk result (SaysAt subject.now step course.hook) }
    ensures unclear { IfOk result (IsUnclearAt (MayLive subject.now step course.budget course.hook)) }
    ensures short { IfOk result (λ life. life ≡ Dead → AreAlwaysShort subject.now step course.hook) }
{
    let start = Scope {
        area: Area::at_hook(course.alloc, course.hook)?,
        answers: Answers::none(course.alloc),
    };
    life_in(subject, course, &start, step)
}

/// Whether rule `number` of the chain at a place, both of which have to be there, can match at all: whether it is dead whatever holds; or a packet line
/// and answers, such that the rule is on the packet's walk where they are right, whatever else holds. Rules count from 1.
///
/// At each hook from whose chain jumps and gotos lead to the rule's chain a packet is sought that comes to the rule: at most `budget` packets of its box
/// walk one after another, each on a way by rules that enter one chain after another. One that is led away parts the packets of its way, and where
/// none is left the rule is dead. Where it isn't seen what leads a packet away, its walks tell, with `budget` steps, and it is left out. It takes the
/// memory of the ways that are left: for each a box, answers, and the rules by which it leads.
///
/// A step of a packet's walks is also one box that parts by a condition (`leaves_under`). A packet is offered if it is seen to come to the rule
/// whatever else holds, or if its walks, for all assignments that give the answers, are known to have the rule and to end with `budget` steps.
///
/// # Errors
///
/// `AllocError` where memory was refused.
pub fn life_under(
    alloc: Global,
    subject: &Subject<'_>,
    place: usize,
    number: usize,
    budget: usize,
) -> Result<Life, AllocError>
    requires place { place < length (table_of subject.now).chains }
    requires first { 0 < number }
    requires last { number ≤ length (chain_at (table_of subject.now) place).rules }
    ensures says { IfOk result (Says subject.now (record { chain = (chain_at (table_of subject.now) place).name; number = number })) }
    ensures short { IfOk result (λ life. life ≡ Dead → AreNeverTooLongUnder subject.now (record { chain = place; number = number })) }
    ensures unclear { IfOk result (IsUnclear subject.now (record { chain = place; number = number }) budget) }
{
    let step = Step {
        chain: place,
        number,
    };
    subject.boxed.table.stands();
    let marks = leading_to(alloc, subject.boxed, place)?;
    let mut clear = true;
    for hook in Hook::ALL {
        if !is_led(marks.as_slice(), hook) {
            continue;
        }
        let course = Course {
            alloc,
            hook,
            budget,
        };
        match life_at(subject, course, step)? {
            Life::Dead => {}
            Life::Live(words, answers) => return Ok(Life::Live(words, answers)),
            Life::Unclear => clear = false,
        }
    }
    if clear {
        return Ok(Life::Dead);
    }
    Ok(Life::Unclear)
}

/// The same as `life_under`, with few answers: of up to eight each is necessary, since without it the rule may be off the packet's walk, or the walks
/// aren't known to end with `budget` steps. Of more some may be needless. For each of the eight that costs one more walk or, where this has the rule, all walks.
///
/// # Errors
///
/// `AllocError` where memory was refused.
pub fn dead_under(
    alloc: Global,
    subject: &Subject<'_>,
    place: usize,
    number: usize,
    budget: usize,
) -> Result<Life, AllocError>
    requires place { place < length (table_of subject.now).chains }
    requires first { 0 < number }
    requires last { number ≤ length (chain_at (table_of subject.now) place).rules }
    ensures says { IfOk result (Says subject.now (record { chain = (chain_at (table_of subject.now) place).name; number = number })) }
    ensures short { IfOk result (λ life. life ≡ Dead → AreNeverTooLongUnder subject.now (record { chain = place; number = number })) }
    ensures unclear { IfOk result (IsUnclear subject.now (record { chain = place; number = number }) budget) }
    ensures few { IfOk result (IsByFew subject.now (record { chain = place; number = number }) budget) }
{
    match life_under(alloc, subject, place, number, budget)? {
        Life::Live(words, answers) => {
            let step = Step {
                chain: place,
                number,
            };
            let enough = enough_of(alloc, subject, &words, answers, step, budget)?;
            Ok(Life::Live(words, enough))
        }
        Life::Dead => Ok(Life::Dead),
        Life::Unclear => Ok(Life::Unclear),
    }
}
