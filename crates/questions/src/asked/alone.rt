//! One packet that comes to a changed rule, alone in both tables: where the walks of all packets of the rule don't tell, it may still show a
//! difference.
ghost use Rattle.std.specs.Prelude.{◌<◌, length, IfOk, IfSome};
ghost use Rattle.questions.specs.Ends.{IsRule};
ghost use Rattle.questions.specs.Scopes.{answered, table_of};
ghost use Rattle.questions.specs.asked.Alike.{HoldsWith};
ghost use Rattle.questions.specs.asked.Verdicts.{IsOtherAt};
ghost use Rattle.questions.specs.boxes.Boxes.{IsAtHook};

use crate::asked::likeness::{Likeness, likeness_on};
use crate::asked::other::Shown;
use crate::asked::rule::{Life, life_at};
use crate::asked::walks::box_of;
use crate::boxes::area::Area;
use crate::foreign::answers::Answers;
use crate::foreign::need::Need;
use crate::foreign::subject::Subject;
use crate::seeking::seen::Seen;
use crate::walking::course::Course;
use crate::walking::scope::Scope;
use fields::Packet;
use std::alloc::AllocError;
use table::Step;

// Answers what is open of some needs, so that it fails.
fn close(needs: &[Need], answers: &mut Answers) -> Result<(), AllocError> {
    for need in needs {
        let _is_new = answers.give(need.condition, need.inverted)?;
    }
    Ok(())
}

// The same of what the rules of a chain need that match a packet.
fn close_chain(
    subject: &Subject<'_>,
    place: usize,
    packet: &Packet,
    answers: &mut Answers,
) -> Result<(), AllocError>
    requires can { IsAtHook packet.now }
    requires place { place < length (table_of subject.now).chains }
{
    for passed in 0..subject.boxed.table.rule_count(place) {
        let by = Step {
            chain: place,
            number: passed + 1,
        };
        if let Some(seen) = Seen::at(*subject, by)
            && seen.matches(packet)
        {
            close(seen.needs, answers)?;
        }
    }
    Ok(())
}

// The same of all chains.
fn close_all(
    subject: &Subject<'_>,
    packet: &Packet,
    answers: &mut Answers,
) -> Result<(), AllocError>
    requires { IsAtHook packet.now }
{
    for place in 0..subject.boxed.table.chain_count() {
        close_chain(subject, place, packet, answers)?;
    }
    Ok(())
}

// A packet that comes to a rule of one of the tables, and answers under which the two give it different verdicts. The first packet that is found walks
// both tables, with what the rules need that match it answered so that it fails, as far as it is open. It takes a look at each rule of both tables.
pub(crate) fn other_alone(
    old: &Subject<'_>,
    new: &Subject<'_>,
    own: &Subject<'_>,
    course: Course,
    step: Step,
) -> Result<Option<Shown>, AllocError>
    requires { IsRule (table_of own.now) step }
    ensures { IfOk result (λ found. IfSome found (λ shown. HoldsWith shown.answers
        (λ a. IsOtherAt (answered old.now a) (answered new.now a) course.hook shown.words))) }
{
    let life = life_at(own, course, step)?;
    let Life::Live(words, mut answers) = life else {
        return Ok(None);
    };
    let Ok(packet) = Packet::read(&words, 0) else {
        return Ok(None);
    };
    close_all(old, &packet, &mut answers)?;
    close_all(new, &packet, &mut answers)?;
    let whole = Area::at_hook(course.alloc, packet.hook())?;
    let area = box_of(course.alloc, &whole, &packet)?;
    match likeness_on(old, new, course, Scope { area, answers })? {
        Likeness::Differ(words, answers) => {
            answers.stand();
            Ok(Some(Shown { words, answers }))
        }
        Likeness::Same | Likeness::Unclear => Ok(None),
    }
}
