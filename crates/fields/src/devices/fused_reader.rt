//! A reader over memory that fails at one call, and would go on after it.
ghost use Rattle.std.specs.Prelude.{◌≡◌, ℕ, ◌-◌, ◌≤◌, min, max, [], None, Some, length, take, drop, IfOk, IsOkAnd};
ghost use Rattle.std.specs.Borrow.{sem};
ghost use mir.Syntax.{named};
ghost use Rattle.std.specs.Io.{ReadsAtMost, StartsWith};
ghost use Rattle.std.specs.Io.KnownBytes.{ReadConsumes};
ghost use Rattle.std.specs.Io.BufRead.{Rests, FillKeeps, DropsConsumable};
ghost use Rattle.fields.specs.contracts.devices.fused_reader.FusedReader.{the_row};
ghost use Rattle.fields.specs.devices.Fuse.{calls_of, failed_call, counted, GoesOn};
ghost use Rattle.fields.specs.devices.FusedReader.{fuse_of, left, step};

use crate::devices::fuse::Fuse;
use std::io::{BufRead, Read, Result};

/// A reader over memory. A call gives at most as many bytes as its fuse says, and at least one before the end; the call
/// that the fuse names fails, and takes nothing. Calls after it go on, so that a test sees whether there were any.
#[derive(Drop)]
pub struct FusedReader<'a> {
    rest: &'a [u8],
    fuse: Fuse,
}

impl<'a> FusedReader<'a> {
    /// A reader of these bytes.
    pub fn new(bytes: &'a [u8], fuse: Fuse) -> FusedReader<'a>
        ensures bytes { left result ≡ bytes.now }
        ensures fuse { fuse_of result ≡ fuse }
    {
        FusedReader { rest: bytes, fuse }
    }

    /// How often it was asked for bytes, up to 2 to the 64 less 1 times.
    pub fn calls(&self) -> u64
        ensures { result ≡ calls_of (fuse_of self.now) }
    {
        self.fuse.calls()
    }

    /// The call that failed, if it was made. The first call is call 0.
    pub fn failed_at(&self) -> Option<u32>
        ensures { result ≡ failed_call (fuse_of self.now) }
    {
        self.fuse.failed_at()
    }

    /// The bytes that are left.
    pub fn rest(&self) -> &'a [u8]
        ensures { result.now ≡ left self.now }
    {
        self.rest
    }
}

// The first bytes, at most so many, and at least one where there is one.
fn front(bytes: &[u8], most: usize) -> &[u8]
    ensures { result.now ≡ take (max most 1) bytes.now }
{
    &bytes[..bytes.len().min(most.max(1))]
}

impl Read for FusedReader<'_> {
    ghost remaining = { λ r. Some (left r) };

    fn read(&mut self, buf: &mut [u8]) -> Result<usize>
        ensures bound { ReadsAtMost result buf.new }
        ensures bytes { ReadConsumes (Some (left self.old)) (Some (left self.new)) result buf.new }
        ensures due { GoesOn (fuse_of self.old) result
            (λ n. n ≡ min (min (length (left self.old)) (step self.old)) (length buf.old)) }
        ensures counts { fuse_of self.new ≡ counted (fuse_of self.old) }
    {
        self.fuse.pass()?;
        let shown = front(self.rest, self.fuse.most());
        let n = shown.len().min(buf.len());
        buf[..n].copy_from_slice(&shown[..n]);
        self.rest = &self.rest[n..];
        Ok(n)
    }
}

impl BufRead for FusedReader<'_> {
    fn fill_buf(&mut self) -> Result<&[u8]>
        ensures front { IfOk result (λ s. StartsWith (left self.old) s.now) }
        ensures end { IfOk result (λ s. length s.now ≡ 0 → left self.old ≡ []) }
        ensures* after_borrow { sem 𝓛 (Rests (the_row (record { mir = named 1; lft = [] })) self.entry (λ new.
            FillKeeps (Some (left self.old)) (Some (left new)) None result
            × (fuse_of new ≡ counted (fuse_of self.old)))) }
        ensures due { GoesOn (fuse_of self.old) result (λ s. s.now ≡ take (step self.old) (left self.old)) }
    {
        self.fuse.pass()?;
        Ok(front(self.rest, self.fuse.most()))
    }

    // Past the end it stops there.
    fn consume(&mut self, amount: usize)
        ensures bytes { DropsConsumable (Some (left self.old)) (Some (left self.new)) None amount }
        ensures rest { left self.new ≡ drop amount (left self.old) }
        ensures unasked { fuse_of self.new ≡ fuse_of self.old }
    {
        self.rest = &self.rest[amount.min(self.rest.len())..];
    }
}
