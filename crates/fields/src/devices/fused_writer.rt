//! A writer over memory that fails at one call, and would go on after it.
ghost use Rattle.std.specs.Prelude.{◌≡◌, ◌+◌, ◌-◌, ◌≤◌, ⊤, Some, MatchResult, length, vec_capacity};
ghost use Rattle.std.specs.Io.{WritesAtMost};
ghost use Rattle.std.specs.Io.KnownBytes.{Keeps, WriteAppends};
ghost use Rattle.fields.specs.devices.Fuse.{calls_of, failed_call, counted, GoesOn, WritesOn};
ghost use Rattle.fields.specs.devices.FusedWriter.{fuse_of, held, flushes_of, room_left, taken, flushed};

use crate::devices::fuse::Fuse;
use std::io::{Result, Write};

/// A writer into memory that is there beforehand, so that a call takes none. A write takes at most as many bytes as its
/// fuse says, and as there is room for; the call that the fuse names, a write or a flush, fails, and takes nothing. Calls
/// after it go on, so that a test sees whether there were any.
#[derive(Drop)]
pub struct FusedWriter {
    held: Vec<u8>,
    fuse: Fuse,
    flushes: u64,
}

impl FusedWriter {
    /// A writer that puts bytes after those of `room`, up to its capacity.
    pub fn new(room: Vec<u8>, fuse: Fuse) -> FusedWriter
        ensures bytes { held result ≡ room.items }
        ensures room { room_left result ≡ vec_capacity room - length room.items }
        ensures fuse { fuse_of result ≡ fuse }
        ensures flushes { flushes_of result ≡ 0 }
    {
        FusedWriter {
            held: room,
            fuse,
            flushes: 0,
        }
    }

    /// How many calls there were, writes and flushes, up to 2 to the 64 less 1.
    pub fn calls(&self) -> u64
        ensures { result ≡ calls_of (fuse_of self.now) }
    {
        self.fuse.calls()
    }

    /// How many of the calls were flushes, up to 2 to the 64 less 1.
    pub fn flushes(&self) -> u64
        ensures { result ≡ flushes_of self.now }
    {
        self.flushes
    }

    /// The call that failed, if it was made. The first call is call 0.
    pub fn failed_at(&self) -> Option<u32>
        ensures { result ≡ failed_call (fuse_of self.now) }
    {
        self.fuse.failed_at()
    }

    /// The bytes that `room` had, and those that were written.
    pub fn written(&self) -> &[u8]
        ensures { result.now ≡ held self.now }
    {
        &self.held
    }
}

impl Write for FusedWriter {
    ghost contents = { λ w. Some (held w) };

    fn write(&mut self, buf: &[u8]) -> Result<usize>
        ensures bound { WritesAtMost result buf.now }
        ensures bytes { WriteAppends (Some (held self.old)) (Some (held self.new)) result buf.now }
        ensures due { WritesOn (fuse_of self.old) result (taken self.old buf.now) }
        ensures room { MatchResult result (λ n. room_left self.old ≤ room_left self.new + n)
            (λ _. room_left self.old ≤ room_left self.new) }
        ensures counts { fuse_of self.new ≡ counted (fuse_of self.old) }
        ensures flushes { flushes_of self.new ≡ flushes_of self.old }
    {
        if self.fuse.count() {
            return self.fuse.failure().of_write();
        }
        let room = self.held.capacity() - self.held.len();
        let count = buf.len().min(self.fuse.most()).min(room);
        self.held.extend_from_slice(&buf[..count]).unwrap();
        Ok(count)
    }

    fn flush(&mut self) -> Result<()>
        ensures bytes { Keeps (Some (held self.old)) (Some (held self.new)) }
        ensures due { GoesOn (fuse_of self.old) result (λ _. ⊤) }
        ensures counts { self.new ≡ flushed self.old }
    {
        self.flushes = self.flushes.saturating_add(1);
        self.fuse.pass()
    }
}
