//! Where the pieces of a line start.

ghost use Rattle.std.specs.Prelude.{ℕ, ◌≡◌, ◌<◌, ◌≤◌, ◌+◌, ◌-◌, ◌^◌, ◌∷◌, [], length, insert, remove, take, slice_index, IfOk, OnOk, OnErr};
ghost use Rattle.std.specs.List.Sorted.{IsNonDecreasingBy};

use bits::Blocks;
use std::alloc::{AllocError, Global};
use std::marker::Model;

/// Rising numbers. Those that fit 32 bits are kept so, and those after them, where there are any, as numbers of 128: so a
/// start needs 4 bytes on the fields whose numbers have no more than 32 bits.
#[derive(Drop)]
pub(crate) struct Starts {
    narrow: Blocks,
    wide: Vec<u128>,
}

impl Model for Starts {
    ghost use Rattle.std.specs.Prelude.{List, ℕ, ◌++◌};
    ghost use Rattle.classify.specs.steps.Kept.{AreParted};

    ghost Value = { List ℕ };

    ghost view = { λ s. s.narrow ++ s.wide.items };

    ghost invariant = { λ s. AreParted s.narrow s.wide.items };
}

impl Starts {
    // The number 0 alone.
    pub(crate) fn zero(alloc: Global) -> Result<Starts, AllocError>
        ensures { IfOk result (λ starts. starts ≡ 0 ∷ []) }
    {
        let narrow = Blocks::one(alloc, 0)?;
        Ok(Starts {
            narrow,
            wide: Vec::new(alloc),
        })
    }

    // The number at a place.
    pub(crate) fn get(&self, k: usize) -> u128
        requires { k < length self.now }
        ensures { result ≡ slice_index self.now k }
    {
        let narrow = self.narrow.len();
        if k < narrow {
            return u128::from(self.narrow.get(k));
        }
        self.wide[k - narrow]
    }

    // How many of the numbers are x or less: a search of each part.
    pub(crate) fn count_to(&self, x: u128) -> usize
        requires { IsNonDecreasingBy (λ (s : ℕ). s) self.now }
        ensures bound { result ≤ length self.now }
        ensures few { result ≤ 2 ^ 32 }
        ensures low { (k : ℕ) → k < result → slice_index self.now k ≤ x }
        ensures high { (k : ℕ) → result ≤ k → k < length self.now → x < slice_index self.now k }
    {
        let narrow = self.narrow.count_to(x);
        let wide = self.wide.partition_point(|start| *start <= x);
        narrow + wide
    }

    // Puts a number in at a place, after a lesser one, and before a greater one or at the end.
    pub(crate) fn insert(&mut self, k: usize, x: u128) -> Result<(), AllocError>
        requires place { k ≤ length self.old }
        requires above { 0 < k → slice_index self.old (k - 1) < x }
        requires below { k < length self.old → x < slice_index self.old k }
        requires few { length self.old < 2 ^ 32 }
        ensures ok { OnOk result (self.new ≡ insert self.old k x) }
        ensures err { OnErr result (self.new ≡ self.old) }
    {
        let narrow = self.narrow.len();
        if k < narrow {
            let _after = self.narrow.get(k);
            self.narrow.insert(k, x as u32)?;
            return Ok(());
        }
        if k == narrow && x <= u128::from(u32::MAX) {
            self.narrow.insert(k, x as u32)?;
            return Ok(());
        }
        self.wide.insert(k - narrow, x)?;
        Ok(())
    }

    // Puts two rising numbers in at a place, after a lesser one, and before a greater one or at the end: where both are narrow, at once.
    pub(crate) fn insert_pair(&mut self, k: usize, x: u128, y: u128) -> Result<(), AllocError>
        requires place { k ≤ length self.old }
        requires above { 0 < k → slice_index self.old (k - 1) < x }
        requires rising { x < y }
        requires below { k < length self.old → y < slice_index self.old k }
        requires few { length self.old + 1 < 2 ^ 32 }
        ensures ok { OnOk result (self.new ≡ insert (insert self.old k y) k x) }
        ensures err { OnErr result (self.new ≡ self.old) }
    {
        let narrow = self.narrow.len();
        if k < narrow {
            let _after = self.narrow.get(k);
            self.narrow.insert_pair(k, x as u32, y as u32)?;
            return Ok(());
        }
        if k == narrow && y <= u128::from(u32::MAX) {
            self.narrow.insert_pair(k, x as u32, y as u32)?;
            return Ok(());
        }
        self.insert_each(k, x, y)
    }

    // Puts two rising numbers in at a place, one by one.
    fn insert_each(&mut self, k: usize, x: u128, y: u128) -> Result<(), AllocError>
        requires place { k ≤ length self.old }
        requires above { 0 < k → slice_index self.old (k - 1) < x }
        requires rising { x < y }
        requires below { k < length self.old → y < slice_index self.old k }
        requires few { length self.old + 1 < 2 ^ 32 }
        ensures ok { OnOk result (self.new ≡ insert (insert self.old k y) k x) }
        ensures err { OnErr result (self.new ≡ self.old) }
    {
        self.insert(k, y)?;
        match self.insert(k, x) {
            Ok(()) => Ok(()),
            Err(refused) => {
                self.remove(k);
                Err(refused)
            }
        }
    }

    // Takes a number out.
    pub(crate) fn remove(&mut self, k: usize)
        requires { k < length self.old }
        ensures { self.new ≡ remove self.old k }
    {
        let narrow = self.narrow.len();
        if k < narrow {
            let _start = self.narrow.remove(k);
            return;
        }
        let _start = self.wide.remove(k - narrow);
    }

    // Leaves the first number alone.
    pub(crate) fn keep_first(&mut self)
        ensures { self.new ≡ take 1 self.old }
    {
        if self.narrow.len() == 0 {
            self.wide.truncate(1);
            return;
        }
        self.narrow.keep_first();
        self.wide.clear();
    }

    // Equal numbers.
    pub(crate) fn copy(&self, alloc: Global) -> Result<Starts, AllocError>
        ensures { IfOk result (λ starts. starts ≡ self.now) }
    {
        let narrow = self.narrow.copy(alloc)?;
        let wide = Vec::from_slice(alloc, &self.wide)?;
        Ok(Starts { narrow, wide })
    }
}
