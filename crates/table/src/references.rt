//! How many rules of the table name each chain.
ghost use Rattle.std.specs.Prelude.{◌<◌, ◌+◌, ◌^◌, IfSome, IsSome, None};
ghost use Rattle.table.specs.steps.Kept.{AreRecounted, CountsInAndOut, references_at, slot_at};

use crate::chain::Chain;
use slab::Slab;

// Counts one rule more that names the chain under the key, if there is one.
pub(crate) fn count_in(chains: &mut Slab<Chain>, key: Option<usize>)
    requires { IfSome key (λ k. IsSome (slot_at chains.old.slots k)
        × (references_at chains.old.slots k + 1 < 2 ^ 64)) }
    ensures same { AreRecounted chains.old.slots chains.new.slots }
    ensures counted { CountsInAndOut key None (references_at chains.old.slots) (references_at chains.new.slots) }
{
    if let Some(key) = key {
        chains[key].count_in();
    }
}

// Counts one rule less that names the chain under the key, if there is one.
pub(crate) fn count_out(chains: &mut Slab<Chain>, key: Option<usize>)
    requires { IfSome key (λ k. IsSome (slot_at chains.old.slots k) × (0 < references_at chains.old.slots k)) }
    ensures same { AreRecounted chains.old.slots chains.new.slots }
    ensures counted { CountsInAndOut None key (references_at chains.old.slots) (references_at chains.new.slots) }
{
    if let Some(key) = key {
        chains[key].count_out();
    }
}
