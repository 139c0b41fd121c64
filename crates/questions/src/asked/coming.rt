//! Whether one packet comes to a rule, whatever holds that rules need.
ghost use Rattle.std.specs.Prelude.{◌≡◌, ◌<◌, ◌≤◌, [], length, IfOk};
ghost use Rattle.table.specs.chains.Table.{chain_at};
ghost use Rattle.questions.specs.Scopes.{table_of};
ghost use Rattle.questions.specs.asked.Coming.{SaysComing};

use crate::asked::rule::{Life, life_in};
use crate::asked::shortest::enough_of;
use crate::asked::walks::box_of;
use crate::boxes::area::Area;
use crate::foreign::answers::Answers;
use crate::foreign::subject::Subject;
use crate::walking::course::Course;
use crate::walking::scope::Scope;
use crate::written::WrittenPacket;
use std::alloc::{AllocError, Global};
use table::Step;

/// Whether a packet comes to a rule.
#[derive(Drop)]
pub enum Coming {
    /// Whatever holds, the rule isn't on the packet's walk, and that isn't too long.
    Never,
    /// The rule is on the packet's walk where these answers are right, whatever else holds.
    Under(Answers),
    /// Neither is known. As many ways to the rule were tried as may be, and others are left; or on one the packet's walks aren't known to end; or
    /// where it isn't seen to come, its walk may be too long.
    Unclear,
}

/// Whether a packet that a line writes comes to rule `step.number` of the chain at a place, both of which have to be there, and under which answers:
/// few, as those of `dead_under`. Rules count from 1.
///
/// # Errors
///
/// `AllocError` where memory was refused.
pub fn comes(
    alloc: Global,
    subject: &Subject<'_>,
    written: &WrittenPacket,
    step: Step,
    budget: usize,
) -> Result<Coming, AllocError>
    requires place { step.chain < length (table_of subject.now).chains }
    requires first { 0 < step.number }
    requires last { step.number ≤ length (chain_at (table_of subject.now) step.chain).rules }
    ensures { IfOk result (SaysComing subject.now step budget written.now) }
{
    let packet = written.packet();
    let hook = packet.hook();
    let whole = Area::at_hook(alloc, hook)?;
    let start = Scope {
        area: box_of(alloc, &whole, packet)?,
        answers: Answers::none(alloc),
    };
    let course = Course {
        alloc,
        hook,
        budget,
    };
    match life_in(subject, course, &start, step)? {
        Life::Dead => Ok(Coming::Never),
        Life::Live(words, answers) => {
            let enough = enough_of(alloc, subject, &words, answers, step, budget)?;
            enough.stand();
            Ok(Coming::Under(enough))
        }
        Life::Unclear => Ok(Coming::Unclear),
    }
}
