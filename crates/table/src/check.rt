//! Whether a rule may stand in a chain, and what the walk does after it.
ghost use Rattle.std.specs.Prelude.{◌≡◌, ◌<◌, Some, None, length, IfOk, IfErr};
ghost use Rattle.table.specs.edits.Edits.{asks_absent_interface, first_fault, rule_causes, target_causes};
ghost use Rattle.table.specs.steps.Kept.{AreStored, IsLinked, LinksTo, name_in, table_of};
ghost use Rattle.table.specs.steps.Kept.{IsUnmarked};

use crate::chain::entry::Flow;
use crate::fault::TableFault;
use crate::parts::Parts;
use crate::store::BUILT_IN;
use crate::verdict::Verdict;
use fields::Hook;
use rules::{Rule, Target};

// Whether a rule asks for an interface that packets of the chain of a name don't have.
fn asks_absent_interface(chain: &[u8], rule: &Rule) -> bool
    ensures { result ≡ asks_absent_interface chain.now rule.now }
{
    chain == Hook::Input.name() && rule.on_out() || chain == Hook::Output.name() && rule.on_in()
}

impl Parts {
    // The key of the chain of a name, if a rule of the chain at a place of the index may lead there; else why not.
    fn resolve_target(
        &self,
        seen: &mut Vec<bool>,
        place: usize,
        name: &[u8],
    ) -> Result<usize, TableFault>
        requires kept { AreStored self.now }
        requires clear { IsUnmarked self.now.order.items seen.old.items }
        requires place { place < length self.now.order.items }
        ensures clear { IsUnmarked self.now.order.items seen.new.items }
        ensures links { IfOk result (λ key. LinksTo self.now.chains.slots self.now.order.items key (Some name.now)) }
        ensures ok { IfOk result (λ key. first_fault (target_causes (table_of self.now)
            (name_in self.now place) (Some name.now)) ≡ None) }
        ensures err { IfErr result (λ fault. first_fault (target_causes (table_of self.now)
            (name_in self.now place) (Some name.now)) ≡ Some fault) }
    {
        let Some(to) = self.index_of(name) else {
            return Err(TableFault::TargetMissing);
        };
        if to < BUILT_IN {
            return Err(TableFault::TargetBuiltIn);
        }
        let key = self.order[to];
        if self.reaches(seen, key, self.order[place]) {
            return Err(TableFault::Loop);
        }
        Ok(key)
    }

    // What the walk does after a rule, if it may stand in the chain at a place of the index; else why not. It takes no
    // memory, and a rule that names no chain costs no search.
    pub(crate) fn check_rule(
        &self,
        seen: &mut Vec<bool>,
        place: usize,
        rule: &Rule,
    ) -> Result<Flow, TableFault>
        requires kept { AreStored self.now }
        requires clear { IsUnmarked self.now.order.items seen.old.items }
        requires place { place < length self.now.order.items }
        ensures clear { IsUnmarked self.now.order.items seen.new.items }
        ensures links { IfOk result (λ flow. IsLinked self.now.chains.slots self.now.order.items
            (record { rule = rule.now; flow = flow })) }
        ensures ok { IfOk result (λ flow. first_fault (rule_causes (table_of self.now)
            (name_in self.now place) rule.now) ≡ None) }
        ensures err { IfErr result (λ fault. first_fault (rule_causes (table_of self.now)
            (name_in self.now place) rule.now) ≡ Some fault) }
    {
        let chain = &self.chains[self.order[place]];
        if asks_absent_interface(chain.name().bytes(), rule) {
            return Err(TableFault::InterfaceNotAllowed);
        }
        match rule.target() {
            None => Ok(Flow::Continue),
            Some(Target::Log) => Ok(Flow::Continue),
            Some(Target::Accept) => Ok(Flow::Decide(Verdict::Accept)),
            Some(Target::Drop) => Ok(Flow::Decide(Verdict::Drop)),
            Some(Target::Reject(kind)) => Ok(Flow::Decide(Verdict::Reject(kind))),
            Some(Target::Return) => Ok(Flow::Return),
            Some(Target::Jump(name)) => {
                let key = self.resolve_target(seen, place, name.bytes())?;
                Ok(Flow::Jump(key))
            }
            Some(Target::Goto(name)) => {
                let key = self.resolve_target(seen, place, name.bytes())?;
                Ok(Flow::Goto(key))
            }
        }
    }
}
