//! The rules ahead of a box in a chain that are passed at once.
ghost use Rattle.std.specs.Prelude.{◌≡◌, ◌<◌, ◌≤◌, ◌⊎◌, ℕ, List, length, IfOk};
ghost use Rattle.fields.specs.numbers.Spans.{SpanSet};
ghost use Rattle.table.specs.chains.Table.{chain_at};
ghost use Rattle.questions.specs.Foreign.{Assignment};
ghost use Rattle.questions.specs.Scopes.{answered, known_by, table_of};
ghost use Rattle.questions.specs.boxes.Boxes.{HasNumbers};
ghost use Rattle.questions.specs.boxes.Cut.{IsAllowedIn};
ghost use Rattle.questions.specs.declared.walking.scope.Scope.{Scope};
ghost use Rattle.questions.specs.steps.Straying.{IsApartIn};
ghost use Rattle.questions.specs.steps.Candidates.{AreFor, AreKept};
ghost use Rattle.questions.specs.steps.Taken.{IsFurther};
ghost use Rattle.questions.specs.steps.Waiting.{AreThere, IsThere, StandsAtOne, rule_ahead};

use crate::boxes::area::Area;
use crate::boxes::boxed_table::BoxedTable;
use crate::boxes::candidates::Candidates;
use crate::boxes::ends::outline_of;
use crate::foreign::subject::Subject;
use crate::walking::task::{Pending, Task};
use std::alloc::AllocError;

// The place of the next rule whose box has packets in common with a box, or behind the last rule. Only candidates are looked at.
fn next_place(subject: &BoxedTable, candidates: &Candidates, area: &Area, at: Pending) -> usize
    requires { IsThere subject.now.table.table.chains at }
    ensures low { at.passed ≤ result }
    ensures high { (result ≡ at.passed) ⊎ (result ≤ length (chain_at subject.now.table.table at.chain).rules) }
    ensures none { (start : List SpanSet) → AreFor subject.now.table.table start candidates.now → (k : ℕ) → at.passed ≤ k → k < result
        → IsApartIn (rule_ahead subject.now.table.table (record { chain = at.chain; passed = k })) start area.now }
    ensures stops { HasNumbers area.now → result < length (chain_at subject.now.table.table at.chain).rules
        → IsAllowedIn (rule_ahead subject.now.table.table (record { chain = at.chain; passed = result })) area.now }
{
    let outline = outline_of(area.sets());
    let count = subject.table.rule_count(at.chain);
    let mut passed = candidates.next_of(at.chain, at.passed);
    while passed < count {
        if !subject.is_apart(area, &outline, at.chain, passed + 1) {
            return passed;
        }
        passed = candidates.next_of(at.chain, passed + 1);
    }
    count.max(at.passed)
}

// The task at the next rule that may match some of its packets.
pub(crate) fn advanced(
    subject: &Subject<'_>,
    candidates: &mut Candidates,
    task: Task,
) -> Result<Task, AllocError>
    requires { AreThere (table_of subject.now).chains task }
    ensures there { IfOk result (AreThere (table_of subject.now).chains) }
    ensures trail { IfOk result (λ next. next.trail ≡ task.trail) }
    ensures kept { IfOk result (λ next. AreKept (table_of subject.now) candidates.old candidates.new) }
    ensures further { IfOk result (λ next. (start : Scope) → AreFor (table_of subject.now) start.area candidates.old
        → (a : Assignment) → IsFurther (answered subject.now a) (known_by subject.now a) start task next) }
    ensures stops { IfOk result (λ next. HasNumbers next.scope.area → StandsAtOne (table_of subject.now) next) }
{
    let Task {
        scope,
        mut rests,
        trail,
    } = task;
    subject.boxed.table.stands();
    let Some(at) = rests.pop() else {
        return Ok(Task {
            scope,
            rests,
            trail,
        });
    };
    candidates.find(*trail.allocator(), subject.boxed)?;
    let passed = next_place(subject.boxed, candidates, &scope.area, at);
    candidates.count(passed.saturating_sub(at.passed));
    rests.push(Pending {
        chain: at.chain,
        passed,
    })?;
    Ok(Task {
        scope,
        rests,
        trail,
    })
}
