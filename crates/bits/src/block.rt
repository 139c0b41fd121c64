//! A block of numbers: a part of a list that is kept in blocks.

ghost use Rattle.std.specs.Prelude.{ℕ, ◌≡◌, ◌<◌, ◌≤◌, ◌+◌, ◌∷◌, [], length, insert, remove, take, drop, map, slice_index, IfOk, OnOk, OnErr};
ghost use Rattle.std.specs.List.Sorted.{IsNonDecreasingBy};
ghost use Rattle.bits.specs.steps.Blocks.{AreAround};
ghost use Rattle.bits.specs.steps.Held.{redirected};

use crate::moves::{insert_at, insert_pair_at};
use crate::places;
use std::alloc::{AllocError, Global};
use std::marker::Model;

// A number, or another where it is `from`.
fn redirected(number: u32, from: u32, to: u32) -> u32
    ensures { result ≡ redirected from to number }
{
    if number == from {
        return to;
    }
    number
}

// Writes one number wherever another stands.
pub(crate) fn redirect(numbers: &mut [u32], from: u32, to: u32)
    ensures { numbers.new ≡ map (redirected from to) numbers.old }
{
    for k in 0..numbers.len() {
        numbers[k] = redirected(numbers[k], from, to);
    }
}

/// Numbers in one vector.
#[derive(Drop)]
pub(crate) struct Block {
    items: Vec<u32>,
}

impl Model for Block {
    ghost use Rattle.std.specs.Prelude.{List, ℕ};

    ghost Value = { List ℕ };

    ghost view = { λ b. b.items.items };
}

impl Block {
    // One number alone.
    pub(crate) fn one(alloc: Global, x: u32) -> Result<Block, AllocError>
        ensures { IfOk result (λ block. block ≡ x ∷ []) }
    {
        let mut items = Vec::new(alloc);
        items.push(x)?;
        Ok(Block { items })
    }

    // How many numbers there are.
    pub(crate) fn len(&self) -> usize
        ensures { result ≡ length self.now }
    {
        self.items.len()
    }

    // The number at a place.
    pub(crate) fn get(&self, k: usize) -> u32
        requires { k < length self.now }
        ensures { result ≡ slice_index self.now k }
    {
        self.items[k]
    }

    // The numbers from a place on; they are lent.
    pub(crate) fn run(&self, k: usize) -> &[u32]
        requires { k < length self.now }
        ensures { result.now ≡ drop k self.now }
    {
        &self.items[k..]
    }

    // The numbers up to a place and with it; they are lent.
    pub(crate) fn run_to(&self, k: usize) -> &[u32]
        requires { k < length self.now }
        ensures { result.now ≡ take (k + 1) self.now }
    {
        &self.items[..=k]
    }

    // How many of the numbers are x or less.
    pub(crate) fn count_to(&self, x: u128) -> usize
        requires { IsNonDecreasingBy (λ (s : ℕ). s) self.now }
        ensures { AreAround x result result self.now }
    {
        places::count_to(&self.items, x)
    }

    // Puts a number in at a place.
    pub(crate) fn insert(&mut self, k: usize, x: u32) -> Result<(), AllocError>
        requires { k ≤ length self.old }
        ensures ok { OnOk result (self.new ≡ insert self.old k x) }
        ensures err { OnErr result (self.new ≡ self.old) }
    {
        insert_at(&mut self.items, k, x)?;
        Ok(())
    }

    // Puts two numbers in at a place, by one move of those after them.
    pub(crate) fn insert_pair(&mut self, k: usize, x: u32, y: u32) -> Result<(), AllocError>
        requires { k ≤ length self.old }
        ensures ok { OnOk result (self.new ≡ insert (insert self.old k y) k x) }
        ensures err { OnErr result (self.new ≡ self.old) }
    {
        insert_pair_at(&mut self.items, k, x, y)?;
        Ok(())
    }

    // Takes a number out.
    pub(crate) fn remove(&mut self, k: usize) -> u32
        requires { k < length self.old }
        ensures value { result ≡ slice_index self.old k }
        ensures numbers { self.new ≡ remove self.old k }
    {
        self.items.remove(k)
    }

    // Writes one number wherever another stands.
    pub(crate) fn redirect(&mut self, from: u32, to: u32)
        ensures { self.new ≡ map (redirected from to) self.old }
    {
        redirect(self.items.as_mut_slice(), from, to);
    }

    // Leaves so many numbers at most.
    pub(crate) fn truncate(&mut self, count: usize)
        ensures { self.new ≡ take count self.old }
    {
        self.items.truncate(count);
    }

    // The numbers from a place on.
    pub(crate) fn from_place(&self, k: usize) -> Result<Block, AllocError>
        requires { k ≤ length self.now }
        ensures { IfOk result (λ block. block ≡ drop k self.now) }
    {
        let alloc = *self.items.allocator();
        let items = Vec::from_slice(alloc, &self.items[k..])?;
        Ok(Block { items })
    }

    // Equal numbers.
    pub(crate) fn copy(&self, alloc: Global) -> Result<Block, AllocError>
        ensures { IfOk result (λ block. block ≡ self.now) }
    {
        let items = Vec::from_slice(alloc, &self.items)?;
        Ok(Block { items })
    }
}
