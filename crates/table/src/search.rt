//! The loop check: a search for a path of jumps and gotos from one chain to another. It keeps a worklist of the
//! chains that are reached, and marks that the table has room for, so it takes no memory.
ghost use Rattle.std.specs.Prelude.{◌≡◌, ◌<◌, ◌≤◌, ◌+◌, ℕ, OnOk, length, false, slice_index, slice_index_or};
ghost use Rattle.std.specs.Prelude.{IsFalse};
ghost use Rattle.table.specs.edits.Edits.{leads};
ghost use Rattle.table.specs.steps.Kept.{AreStored, IsIn, listed, stored_at};
ghost use Rattle.table.specs.steps.Search.{IsMarked, IsSearch, Marks};
ghost use Rattle.table.specs.steps.Kept.{IsUnmarked};

use crate::parts::Parts;
use arrayvec::ArrayVec;
use std::alloc::AllocError;

// The most chains that a table has: three built-in ones and 1,024 user chains.
const CHAINS: usize = 1027;

// Marks the chain under a key, if it is new, and puts the key last among those reached.
fn mark(key: usize, seen: &mut Vec<bool>, reached: &mut ArrayVec<usize, CHAINS>)
    requires within { key < length seen.old.items }
    requires room { IsFalse (slice_index_or seen.old.items key false) → length reached.old.items < 1027 }
    ensures { Marks key seen.old.items reached.old.items seen.new.items reached.new.items }
{
    if !seen[key] {
        seen[key] = true;
        reached.push(key);
    }
}

impl Parts {
    // Visits the chain whose key stands at a place among those reached: marks each chain that it has an edge to.
    fn visit(&self, at: usize, seen: &mut Vec<bool>, reached: &mut ArrayVec<usize, CHAINS>)
        requires kept { AreStored self.now }
        requires at { at < length reached.old.items }
        requires search { IsSearch self.now.chains.slots self.now.order.items (slice_index reached.old.items 0)
            seen.old.items reached.old.items at }
        ensures { IsSearch self.now.chains.slots self.now.order.items (slice_index reached.old.items 0)
            seen.new.items reached.new.items (at + 1) }
    {
        let edges = self.chains[reached[at]].edges();
        for place in 0..edges.len() {
            mark(edges[place].to, seen, reached);
        }
    }
}

// Takes the marks of the chains reached back.
fn unmark(order: &Vec<usize>, seen: &mut Vec<bool>, reached: &ArrayVec<usize, CHAINS>)
    requires { IsMarked order.now.items seen.old.items reached.now.items }
    ensures { IsUnmarked order.now.items seen.new.items }
{
    for at in 0..reached.len() {
        seen[reached[at]] = false;
    }
}

impl Parts {
    // Whether a path of jumps and gotos leads from the chain under one key to that under another, also one of no step. It
    // takes no memory. Most rules lead to a chain that leads nowhere, which costs no search.
    pub(crate) fn reaches(&self, seen: &mut Vec<bool>, from: usize, goal: usize) -> bool
        requires kept { AreStored self.now }
        requires clear { IsUnmarked self.now.order.items seen.old.items }
        requires from { IsIn self.now.order.items from }
        requires goal { IsIn self.now.order.items goal }
        ensures clear { IsUnmarked self.now.order.items seen.new.items }
        ensures found { result ≡ leads (listed self.now.chains.slots self.now.order.items)
            (stored_at self.now.chains.slots from).name (stored_at self.now.chains.slots goal).name }
    {
        if from == goal {
            return true;
        }
        let edges = self.chains[from].edges();
        if edges.is_empty() {
            return false;
        }
        self.finds(seen, from, goal)
    }

    // The search for such a path: it visits each chain at most once, and there each chain that its rules lead to.
    fn finds(&self, seen: &mut Vec<bool>, from: usize, goal: usize) -> bool
        requires kept { AreStored self.now }
        requires clear { IsUnmarked self.now.order.items seen.old.items }
        requires from { IsIn self.now.order.items from }
        requires goal { IsIn self.now.order.items goal }
        ensures clear { IsUnmarked self.now.order.items seen.new.items }
        ensures found { result ≡ leads (listed self.now.chains.slots self.now.order.items)
            (stored_at self.now.chains.slots from).name (stored_at self.now.chains.slots goal).name }
    {
        let mut reached = ArrayVec::new();
        mark(from, seen, &mut reached);
        let mut at = 0;
        while at < reached.len() && !seen[goal] {
            self.visit(at, seen, &mut reached);
            at += 1;
        }
        let found = seen[goal];
        unmark(&self.order, seen, &reached);
        found
    }
}

// Makes a place for the mark of a key.
pub(crate) fn reserve_mark(seen: &mut Vec<bool>, key: usize) -> Result<(), AllocError>
    ensures marks { (k : ℕ) → slice_index_or seen.new.items k false ≡ slice_index_or seen.old.items k false }
    ensures longer { length seen.old.items ≤ length seen.new.items }
    ensures covered { OnOk result (key < length seen.new.items) }
{
    while seen.len() <= key {
        seen.push(false)?;
    }
    Ok(())
}
