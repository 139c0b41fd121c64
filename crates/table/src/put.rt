//! Rules put into chains where they may stand.
ghost use Rattle.std.specs.Prelude.{◌<◌, ◌≤◌, length, OnOk};
ghost use Rattle.table.specs.steps.Kept.{AreKept, IsUnmarked, stored_in, IsPutIn, IsPutOver};
ghost use Rattle.table.specs.edits.Edits.{MakesOneBox, MakesOneBoxAtMost};

use crate::chain::entry::Entry;
use crate::fault::TableFault;
use crate::parts::Parts;
use rules::{Rule, Work};

// The most rules of a chain.
const RULES_MAX: usize = 8192;

impl Parts {
    // Puts a rule in at a place of a chain's rules, if it may stand there and the chain isn't full.
    pub(crate) fn insert_rule(
        &mut self,
        seen: &mut Vec<bool>,
        place: usize,
        at: usize,
        rule: Rule,
        work: &mut Work,
    ) -> Result<(), TableFault>
        requires kept { AreKept self.old }
        requires unmarked { IsUnmarked self.old.order.items seen.old.items }
        requires place { place < length self.old.order.items }
        requires at { at ≤ length (stored_in self.old place).entries }
        ensures kept { AreKept self.new }
        ensures unmarked { IsUnmarked self.new.order.items seen.new.items }
        ensures answer { IsPutIn self.old self.new place at rule result }
        ensures work { MakesOneBoxAtMost work.old work.new }
        ensures boxed { OnOk result (MakesOneBox work.old work.new) }
    {
        let flow = match self.check_rule(seen, place, &rule) {
            Ok(flow) => flow,
            Err(fault) => return Err(fault),
        };
        if self.count_at(place) >= RULES_MAX {
            return Err(TableFault::ChainFull);
        }
        rule.reads_back();
        match self.insert(place, at, Entry { rule, flow }, work) {
            Ok(()) => return Ok(()),
            Err(_) => return Err(TableFault::NoMemory),
        }
    }

    // Puts a rule in the place of another of a chain's rules, if it may stand there.
    pub(crate) fn replace_rule(
        &mut self,
        seen: &mut Vec<bool>,
        place: usize,
        at: usize,
        rule: Rule,
        work: &mut Work,
    ) -> Result<(), TableFault>
        requires kept { AreKept self.old }
        requires unmarked { IsUnmarked self.old.order.items seen.old.items }
        requires place { place < length self.old.order.items }
        requires at { at < length (stored_in self.old place).entries }
        ensures kept { AreKept self.new }
        ensures unmarked { IsUnmarked self.new.order.items seen.new.items }
        ensures answer { IsPutOver self.old self.new place at rule result }
        ensures work { MakesOneBoxAtMost work.old work.new }
        ensures boxed { OnOk result (MakesOneBox work.old work.new) }
    {
        let flow = match self.check_rule(seen, place, &rule) {
            Ok(flow) => flow,
            Err(fault) => return Err(fault),
        };
        rule.reads_back();
        match self.replace(place, at, Entry { rule, flow }, work) {
            Ok(()) => return Ok(()),
            Err(_) => return Err(TableFault::NoMemory),
        }
    }
}
