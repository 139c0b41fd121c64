//! Numbers in a list that is kept in blocks: one more moves none but those after it in its block. Beside the later blocks stands
//! where each begins and its first number, so that a search reads one block.

ghost use Rattle.std.specs.Prelude.{ℕ, ◌≡◌, ◌<◌, ◌≤◌, ◌+◌, ◌-◌, ◌/◌, ◌^◌, ◌∷◌, [], ◌++◌, length, insert, remove, take, drop, map, slice_index, IfOk, OnOk, OnErr};
ghost use Rattle.std.specs.List.Sorted.{IsNonDecreasingBy};
ghost use Rattle.bits.specs.steps.Held.{redirected};

use crate::block::{Block, redirect};
use crate::moves::insert_at;
use crate::places;
use std::alloc::{AllocError, Global};
use std::marker::Model;

// A block with so many numbers is cut in halves before another goes in.
const MOST: usize = 256;

// So many numbers go into a list at most.
const MOST_NUMBERS: usize = 1 << 32;

// Counts so many more in each number from a place on.
fn more_from(numbers: &mut [u32], at: usize, by: u32)
    requires { (k : ℕ) → at ≤ k → k < length numbers.old → slice_index numbers.old k + by < 2 ^ 32 }
    ensures { numbers.new ≡ take at numbers.old ++ map (λ (n : ℕ). n + by) (drop at numbers.old) }
{
    for k in at..numbers.len() {
        numbers[k] += by;
    }
}

// Counts one fewer in each number from a place on.
fn fewer_from(numbers: &mut [u32], at: usize)
    requires { (k : ℕ) → at ≤ k → k < length numbers.old → 0 < slice_index numbers.old k }
    ensures { numbers.new ≡ take at numbers.old ++ map (λ (n : ℕ). n - 1) (drop at numbers.old) }
{
    for k in at..numbers.len() {
        numbers[k] -= 1;
    }
}

// Of blocks that begin at such places, the last that begins at this one or before.
fn holder(begins: &[u32], k: usize) -> usize
    requires rising { IsNonDecreasingBy (λ (s : ℕ). s) begins.now }
    requires some { 0 < length begins.now }
    requires after { slice_index begins.now 0 ≤ k }
    requires few { k < 2 ^ 32 }
    ensures there { result < length begins.now }
    ensures from { slice_index begins.now result ≤ k }
    ensures to { result + 1 < length begins.now → k < slice_index begins.now (result + 1) }
{
    places::count(begins, k as u32) - 1
}

// Writes one number wherever another stands in some blocks.
fn redirect_each(blocks: &mut [Block], from: u32, to: u32)
    ensures { blocks.new ≡ map (map (redirected from to)) blocks.old }
{
    for k in 0..blocks.len() {
        let block = &mut blocks[k];
        block.redirect(from, to);
    }
}

// Equal blocks.
fn copies(blocks: &[Block], alloc: Global) -> Result<Vec<Block>, AllocError>
    ensures { IfOk result (λ copies. copies.items ≡ blocks.now) }
{
    let mut copies = Vec::with_capacity(alloc, blocks.len())?;
    for k in 0..blocks.len() {
        let block = blocks[k].copy(alloc)?;
        copies.push(block)?;
    }
    Ok(copies)
}

/// A list of numbers, 2 to the 32 of them at most. Places count from 0.
#[derive(Drop)]
pub struct Blocks {
    first: Block,
    heads: Vec<u32>,
    begins: Vec<u32>,
    later: Vec<Block>,
}

impl Model for Blocks {
    ghost use Rattle.std.specs.Prelude.{List, ℕ, ◌++◌};
    ghost use Rattle.std.specs.List.{concat};
    ghost use Rattle.bits.specs.steps.Blocks.{AreBlocks};

    ghost Value = { List ℕ };

    ghost view = { λ b. b.first ++ concat b.later.items };

    ghost invariant = { λ b. AreBlocks b.first b.heads.items b.begins.items b.later.items };
}

impl Blocks {
    /// One number alone.
    ///
    /// # Errors
    ///
    /// `AllocError` where memory was refused.
    pub fn one(alloc: Global, x: u32) -> Result<Blocks, AllocError>
        ensures { IfOk result (λ numbers. numbers ≡ x ∷ []) }
    {
        let first = Block::one(alloc, x)?;
        Ok(Blocks {
            first,
            heads: Vec::new(alloc),
            begins: Vec::new(alloc),
            later: Vec::new(alloc),
        })
    }

    /// How many numbers there are.
    pub fn len(&self) -> usize
        ensures { result ≡ length self.now }
    {
        let count = self.later.len();
        if count == 0 {
            return self.first.len();
        }
        self.begins[count - 1] as usize + self.later[count - 1].len()
    }

    /// The number at a place.
    #[inline(always)]
    pub fn get(&self, k: usize) -> u32
        requires { k < length self.now }
        ensures { result ≡ slice_index self.now k }
    {
        if k < self.first.len() {
            return self.first.get(k);
        }
        self.get_in_any(k)
    }

    // The number at a place, whichever block has it. It isn't inlined, so that a short list pays for no more than one comparison.
    #[inline(never)]
    fn get_in_any(&self, k: usize) -> u32
        requires { k < length self.now }
        ensures { result ≡ slice_index self.now k }
    {
        if k < self.first.len() {
            return self.first.get(k);
        }
        let block = holder(&self.begins, k);
        self.later[block].get(k - self.begins[block] as usize)
    }

    /// The numbers from a place on, up to the end of its block; they are lent. So one search serves for all of them.
    pub fn run(&self, k: usize) -> &[u32]
        requires { k < length self.now }
        ensures some { 0 < length result.now }
        ensures part { result.now ≡ take (length result.now) (drop k self.now) }
    {
        if k < self.first.len() {
            return self.first.run(k);
        }
        let block = holder(&self.begins, k);
        self.later[block].run(k - self.begins[block] as usize)
    }

    /// The numbers from the start of a place's block up to that place and with it; they are lent.
    pub fn run_to(&self, k: usize) -> &[u32]
        requires { k < length self.now }
        ensures some { 0 < length result.now }
        ensures within { length result.now ≤ k + 1 }
        ensures part { result.now ≡ drop (k + 1 - length result.now) (take (k + 1) self.now) }
    {
        if k < self.first.len() {
            return self.first.run_to(k);
        }
        let block = holder(&self.begins, k);
        self.later[block].run_to(k - self.begins[block] as usize)
    }

    /// How many of rising numbers are x or less.
    #[inline(always)]
    pub fn count_to(&self, x: u128) -> usize
        requires { IsNonDecreasingBy (λ (s : ℕ). s) self.now }
        ensures bound { result ≤ length self.now }
        ensures low { (k : ℕ) → k < result → slice_index self.now k ≤ x }
        ensures high { (k : ℕ) → result ≤ k → k < length self.now → x < slice_index self.now k }
    {
        if self.later.is_empty() {
            return self.first.count_to(x);
        }
        self.count_in_all(x)
    }

    // How many of rising numbers are x or less in all blocks. It isn't inlined, so that a short list pays for one search alone.
    #[inline(never)]
    fn count_in_all(&self, x: u128) -> usize
        requires { IsNonDecreasingBy (λ (s : ℕ). s) self.now }
        ensures bound { result ≤ length self.now }
        ensures low { (k : ℕ) → k < result → slice_index self.now k ≤ x }
        ensures high { (k : ℕ) → result ≤ k → k < length self.now → x < slice_index self.now k }
    {
        let block = places::count_to(&self.heads, x);
        if block == 0 {
            return self.first.count_to(x);
        }
        self.begins[block - 1] as usize + self.later[block - 1].count_to(x)
    }

    /// Puts a number in at a place: the later ones move up by one.
    ///
    /// # Errors
    ///
    /// `AllocError` where memory was refused, or there are 2 to the 32 numbers: they are as before.
    pub fn insert(&mut self, k: usize, x: u32) -> Result<(), AllocError>
        requires { k ≤ length self.old }
        ensures ok { OnOk result (self.new ≡ insert self.old k x) }
        ensures err { OnErr result (self.new ≡ self.old) }
    {
        if self.later.is_empty() && self.first.len() < MOST {
            return self.first.insert(k, x);
        }
        self.insert_in_any(k, x)
    }

    // Puts a number in at a place, in whichever block has the number before it.
    fn insert_in_any(&mut self, k: usize, x: u32) -> Result<(), AllocError>
        requires { k ≤ length self.old }
        ensures ok { OnOk result (self.new ≡ insert self.old k x) }
        ensures err { OnErr result (self.new ≡ self.old) }
    {
        if self.len() >= MOST_NUMBERS {
            return Err(AllocError);
        }
        self.make_room(k, 1)?;
        self.put(k, x)
    }

    /// Puts two numbers in at a place, the first there and the other after it: the later ones move up by two.
    ///
    /// # Errors
    ///
    /// `AllocError` where memory was refused, or there would be more than 2 to the 32 numbers: they are as before.
    pub fn insert_pair(&mut self, k: usize, x: u32, y: u32) -> Result<(), AllocError>
        requires { k ≤ length self.old }
        ensures ok { OnOk result (self.new ≡ insert (insert self.old k y) k x) }
        ensures err { OnErr result (self.new ≡ self.old) }
    {
        if self.later.is_empty() && self.first.len() < MOST - 1 {
            return self.first.insert_pair(k, x, y);
        }
        self.insert_pair_in_any(k, x, y)
    }

    // Puts two numbers in at a place, in whichever block has the number before them.
    fn insert_pair_in_any(&mut self, k: usize, x: u32, y: u32) -> Result<(), AllocError>
        requires { k ≤ length self.old }
        ensures ok { OnOk result (self.new ≡ insert (insert self.old k y) k x) }
        ensures err { OnErr result (self.new ≡ self.old) }
    {
        if self.len() >= MOST_NUMBERS - 1 {
            return Err(AllocError);
        }
        self.make_room(k, 2)?;
        self.put_pair(k, x, y)
    }

    // Cuts the block into which numbers at a place go, if it has no room for so many.
    fn make_room(&mut self, k: usize, more: usize) -> Result<(), AllocError>
        requires place { k ≤ length self.old }
        requires few { more ≤ MOST / 2 }
        ensures { self.new ≡ self.old }
    {
        if k <= self.first.len() {
            return self.cut_first(MOST - more);
        }
        let block = holder(&self.begins, k - 1);
        self.cut_later(block, MOST - more)
    }

    // Cuts the first block in halves, if it has more than so many numbers.
    fn cut_first(&mut self, most: usize) -> Result<(), AllocError>
        requires { MOST / 2 ≤ most }
        ensures { self.new ≡ self.old }
    {
        if self.first.len() <= most {
            return Ok(());
        }
        self.heads.reserve(1)?;
        self.begins.reserve(1)?;
        self.later.reserve(1)?;
        let block = self.first.from_place(MOST / 2)?;
        self.first.truncate(MOST / 2);
        let _ = insert_at(&mut self.heads, 0, block.get(0));
        let _ = insert_at(&mut self.begins, 0, (MOST / 2) as u32);
        let _ = self.later.insert(0, block);
        Ok(())
    }

    // Cuts a later block in halves, if it is there and has more than so many numbers.
    fn cut_later(&mut self, k: usize, most: usize) -> Result<(), AllocError>
        requires { MOST / 2 ≤ most }
        ensures { self.new ≡ self.old }
    {
        if k >= self.later.len() || self.later[k].len() <= most {
            return Ok(());
        }
        self.heads.reserve(1)?;
        self.begins.reserve(1)?;
        self.later.reserve(1)?;
        let block = self.later[k].from_place(MOST / 2)?;
        let low = &mut self.later[k];
        low.truncate(MOST / 2);
        let begin = self.begins[k] + (MOST / 2) as u32;
        let _ = insert_at(&mut self.heads, k + 1, block.get(0));
        let _ = insert_at(&mut self.begins, k + 1, begin);
        let _ = self.later.insert(k + 1, block);
        Ok(())
    }

    // Puts a number in at a place, in the block that has the number before it.
    fn put(&mut self, k: usize, x: u32) -> Result<(), AllocError>
        requires place { k ≤ length self.old }
        requires few { length self.old < 2 ^ 32 }
        ensures ok { OnOk result (self.new ≡ insert self.old k x) }
        ensures err { OnErr result (self.new ≡ self.old) }
    {
        if k <= self.first.len() {
            self.first.insert(k, x)?;
            more_from(self.begins.as_mut_slice(), 0, 1);
            return Ok(());
        }
        let block = holder(&self.begins, k - 1);
        let at = k - self.begins[block] as usize;
        let held = &mut self.later[block];
        held.insert(at, x)?;
        more_from(self.begins.as_mut_slice(), block + 1, 1);
        Ok(())
    }

    // Puts two numbers in at a place, in the block that has the number before them.
    fn put_pair(&mut self, k: usize, x: u32, y: u32) -> Result<(), AllocError>
        requires place { k ≤ length self.old }
        requires few { length self.old + 1 < 2 ^ 32 }
        ensures ok { OnOk result (self.new ≡ insert (insert self.old k y) k x) }
        ensures err { OnErr result (self.new ≡ self.old) }
    {
        if k <= self.first.len() {
            self.first.insert_pair(k, x, y)?;
            more_from(self.begins.as_mut_slice(), 0, 2);
            return Ok(());
        }
        let block = holder(&self.begins, k - 1);
        let at = k - self.begins[block] as usize;
        let held = &mut self.later[block];
        held.insert_pair(at, x, y)?;
        more_from(self.begins.as_mut_slice(), block + 1, 2);
        Ok(())
    }

    /// Takes a number out: the later ones move down by one.
    pub fn remove(&mut self, k: usize) -> u32
        requires { k < length self.old }
        ensures value { result ≡ slice_index self.old k }
        ensures numbers { self.new ≡ remove self.old k }
    {
        if k < self.first.len() {
            fewer_from(self.begins.as_mut_slice(), 0);
            return self.first.remove(k);
        }
        let block = holder(&self.begins, k);
        let at = k - self.begins[block] as usize;
        fewer_from(self.begins.as_mut_slice(), block + 1);
        let held = &mut self.later[block];
        let x = held.remove(at);
        if self.later[block].len() > 0 {
            self.heads[block] = self.later[block].get(0);
            return x;
        }
        self.heads.remove(block);
        self.begins.remove(block);
        let _ = self.later.remove(block);
        x
    }

    // Writes one number wherever another stands.
    pub(crate) fn redirect(&mut self, from: u32, to: u32)
        ensures { self.new ≡ map (redirected from to) self.old }
    {
        self.first.redirect(from, to);
        redirect(self.heads.as_mut_slice(), from, to);
        redirect_each(self.later.as_mut_slice(), from, to);
    }

    /// Leaves the first number alone.
    pub fn keep_first(&mut self)
        ensures { self.new ≡ take 1 self.old }
    {
        if self.first.len() > 0 {
            self.first.truncate(1);
            self.heads.clear();
            self.begins.clear();
            self.later.clear();
            return;
        }
        self.heads.truncate(1);
        self.begins.truncate(1);
        self.later.truncate(1);
        if self.later.len() > 0 {
            let held = &mut self.later[0];
            held.truncate(1);
        }
    }

    /// Equal numbers.
    ///
    /// # Errors
    ///
    /// `AllocError` where memory was refused.
    pub fn copy(&self, alloc: Global) -> Result<Blocks, AllocError>
        ensures { IfOk result (λ numbers. numbers ≡ self.now) }
    {
        let first = self.first.copy(alloc)?;
        let heads = Vec::from_slice(alloc, &self.heads)?;
        let begins = Vec::from_slice(alloc, &self.begins)?;
        let later = copies(&self.later, alloc)?;
        Ok(Blocks {
            first,
            heads,
            begins,
            later,
        })
    }
}
