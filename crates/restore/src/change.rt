//! Commands done to a table.
ghost use Rattle.std.specs.Prelude.{IsTrue, OnOk};
ghost use Rattle.table.specs.edits.Edits.{MakesBoxes, MakesOneBox};
ghost use Rattle.restore.specs.commands.Command.{IsApplied, IsChange, command_puts, meaning};

use crate::command::Command;
use rules::Work;
use table::{Table, TableFault};

/// Does a command's edit to a table: any command but `-S`, which edits nothing.
///
/// It costs what the call of the table costs. A command that puts a rule into a chain makes one box, or where it is
/// refused one at most; others make none.
///
/// # Errors
///
/// The first refusal of the table (iptables(8), "COMMANDS"), and last `TableFault::NoMemory` where memory was
/// refused, which `-A`, `-I`, `-R` and `-N` alone may answer: the table is unchanged.
pub fn apply(table: &mut Table, command: Command, work: &mut Work) -> Result<(), TableFault>
    requires { IsChange (meaning command) }
    ensures step { IsApplied (meaning command.entry) table.old table.new result }
    ensures work { MakesBoxes (command_puts (meaning command.entry)) work.old work.new }
    ensures boxed { IsTrue (command_puts (meaning command.entry)) → OnOk result (MakesOneBox work.old work.new) }
{
    match command {
        Command::Append(chain, rule) => table.append(chain, rule, work),
        Command::Insert(chain, number, rule) => table.insert(chain, number, rule, work),
        Command::Replace(chain, number, rule) => table.replace(chain, number, rule, work),
        Command::DeleteAt(chain, number) => table.delete_at(chain, number),
        Command::DeleteRule(chain, rule) => table.delete_rule(chain, &rule),
        Command::Check(chain, rule) => table.has_rule(chain, &rule),
        Command::Flush(chain) => table.flush(chain),
        Command::FlushAll => table.flush_all(),
        Command::NewChain(name) => table.new_chain(name),
        Command::DeleteChain(chain) => table.delete_chain(chain),
        Command::DeleteChains => table.delete_chains(),
        Command::SetPolicy(chain, policy) => table.set_policy(chain, policy),
        Command::Rename(old, new) => table.rename(old, new),
        Command::ListRules(_) => unreachable!(),
    }
}
