//! Copies of chains.
ghost use Rattle.std.specs.Prelude.{◌≡◌, IfOk};

use crate::chain::Chain;
use crate::chain::entry::Entry;
use std::alloc::{AllocError, Global};

// The same rules again, with what the walk does after each.
fn copy_entries(alloc: Global, entries: &[Entry]) -> Result<Vec<Entry>, AllocError>
    ensures { IfOk result (λ copy. copy.items ≡ entries.now) }
{
    let mut copy = Vec::with_capacity(alloc, entries.len())?;
    for entry in entries {
        let rule = entry.rule.copy(alloc)?;
        copy.push(Entry {
            rule,
            flow: entry.flow,
        })?;
    }
    Ok(copy)
}

impl Clone for Chain {
    ghost use Rattle.std.specs.Prelude.{◌≡◌};

    ghost is_clone = { λ chain copy. copy ≡ chain };

    fn clone(&self) -> Result<Chain, AllocError> {
        let alloc = *self.entries.allocator();
        let entries = copy_entries(alloc, &self.entries)?;
        let edges = self.edges.clone()?;
        let classifier = self.classifier.copy(alloc)?;
        Ok(Chain {
            name: self.name.copy(),
            entries,
            edges,
            classifier,
            references: self.references,
        })
    }
}
