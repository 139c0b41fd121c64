//! The boxes that are left to walk, and the leaves so far.
ghost use Rattle.std.specs.Prelude.{◌≡◌, ◌≢◌, ◌<◌, false, length, OnOk};
ghost use Rattle.table.specs.chains.Table.{Table as Filter};
ghost use Rattle.table.specs.declared.verdict.Verdict.{Verdict};
ghost use Rattle.table.specs.declared.verdict.Verdict.TheVariants.{TooLong};
ghost use Rattle.table.specs.walk.Cases.{Over};
ghost use Rattle.questions.specs.Foreign.{Agrees};
ghost use Rattle.questions.specs.Scopes.{Known, entries_by};

use crate::walking::scope::Scope;
use crate::walking::task::{Leaf, Task};
use std::alloc::{AllocError, Global};
use table::Verdict;

// The tasks that are left, and the leaves so far.
#[derive(Drop)]
pub(crate) struct Front {
    pub alloc: Global,
    pub tasks: Vec<Task>,
    pub leaves: Vec<Leaf>,
}

impl Front {
    ghost use Rattle.std.specs.Prelude.{List};
    ghost use Rattle.questions.specs.declared.foreign.need.Need.{Need};
    ghost use Rattle.questions.specs.steps.Waiting.{KeepsAsked, AreThere, IsLastMet, Moves, stage_of};
    ghost use Rattle.questions.specs.steps.Taken.{AddsTasks, IsPut, AddsOne, AddsParts};

    // One task more.
    pub(crate) fn add_task(&mut self, task: Task) -> Result<(), AllocError>
        ensures moves { OnOk result ((t : Filter) (known : Known) (policy : Verdict) → AreThere t.chains task
            → Moves t known policy task.scope (stage_of known t.chains task) self.old self.new) }
        ensures asked { OnOk result ((needs : List (List (List Need))) → KeepsAsked needs task.scope.answers self.old self.new) }
        ensures on { OnOk result (AddsTasks (IsPut task.scope task.rests.items task.trail.items) self.old self.new) }
        ensures one { OnOk result (AddsOne task.scope self.old self.new) }
    {
        self.tasks.push(task)?;
        Ok(())
    }

    // One leaf more: the packets of a task, with what decides them.
    pub(crate) fn add_leaf(
        &mut self,
        task: Task,
        verdict: Verdict,
        by_policy: bool,
    ) -> Result<(), AllocError>
        requires short { verdict ≢ TooLong }
        requires decided { by_policy ≡ false → 0 < length task.trail.items }
        ensures moves { OnOk result ((t : Filter) (known : Known) (policy : Verdict)
            → (by_policy ≡ false → Agrees known.holds task.scope.answers → IsLastMet known task.trail.items)
            → Moves t known policy task.scope (Over (record { trail = entries_by known t.chains task.trail.items; verdict = verdict; by_policy = by_policy })) self.old self.new) }
        ensures asked { OnOk result ((needs : List (List (List Need))) → KeepsAsked needs task.scope.answers self.old self.new) }
        ensures on { OnOk result (self.new.tasks.items ≡ self.old.tasks.items) }
        ensures parts { OnOk result (AddsParts 1 task.scope self.old self.new) }
    {
        let Task {
            scope,
            rests: _,
            trail,
        } = task;
        let Scope { area, answers } = scope;
        let leaf = Leaf {
            area,
            answers,
            trail,
            verdict,
            by_policy,
        };
        self.leaves.push(leaf)?;
        Ok(())
    }
}
