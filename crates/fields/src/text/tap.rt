//! Taps: a reader or a writer that remembers whether a call of it failed, how many of the bytes it shows weren't
//! taken, whether it was asked for more while answers were withheld, and whether bytes were written since it was last
//! flushed.
ghost use Rattle.std.specs.Prelude.{◌≡◌, [], IfSome, ◌+◌, ◌-◌, ◌^◌, ◌<◌, ◌↔◌, ◌==◌, ◌||◌, ◌&&◌, true, false, length, IfOk, OnOk, IsOk, IsTrue, is_err, flat_map};
ghost use Rattle.fields.specs.text.Tap.{has_failed, device, is_late, is_late_after, is_unflushed, known, lent, shown_left, turns_left, Keeps, Puts};
ghost use Rattle.fields.specs.contracts.text.tap.Tap.{the_row};
ghost use Rattle.std.specs.Borrow.{sem};
ghost use Rattle.std.specs.Io.{StartsWith};
ghost use Rattle.std.specs.Io.BufRead.{Rests, FillKeeps, DropsConsumable};

use std::io::{BufRead, Write};
use thiserror::Error;

/// A read failed.
#[derive(Clone, Copy, Debug, PartialEq, Eq, Drop, Error)]
#[error("a read failed")]
pub struct ReadFailed;

/// A write failed, or took no byte.
#[derive(Clone, Copy, Debug, PartialEq, Eq, Drop, Error)]
#[error("a write failed")]
pub struct WriteFailed;

// What came of the calls of a device: whether one failed, how many of the bytes that `fill` last lent weren't taken, how
// many steps of reading are left, and whether it was asked for more while answers were withheld.
#[derive(Drop)]
struct Seen {
    failed: bool,
    shown: usize,
    turns: u64,
    late: bool,
}

impl Seen {
    // Takes a step of reading, before the device is asked for what it shows. A tap that has none left fails.
    fn step(&mut self, withheld: bool) -> Result<(), ReadFailed>
        ensures due { IsOk result ↔ ((self.old.failed ≡ false) × (0 < self.old.turns)) }
        ensures taken { self.new ≡ record {
          failed = is_err result;
          shown = 0;
          turns = self.old.turns - 1;
          late = self.old.late || (withheld && self.old.shown == 0);
        } }
    {
        if withheld && self.shown == 0 {
            self.late = true;
        }
        self.shown = 0;
        if self.turns == 0 {
            self.failed = true;
        } else {
            self.turns -= 1;
        }
        if self.failed {
            return Err(ReadFailed);
        }
        Ok(())
    }
}

/// A reader or a writer, whether it has failed, how many bytes it shows that weren't taken, whether it was asked for
/// more while answers were withheld, and whether bytes were written since it was last flushed. Once it has failed, no
/// further call reaches the device, which stays as it was.
///
/// A tap fails where a call of its device fails, where a write takes no byte, and where its steps of reading are used
/// up, and nowhere else. It has 2 to the 64 less 1 steps, so that every loop over a device that never ends has an
/// end. Only `fill`, `eat` and the calls that read lines change how many bytes it shows that weren't taken, and only
/// `fill` and the calls that read lines ask the device for bytes.
#[derive(Drop)]
pub struct Tap<T> {
    device: T,
    seen: Seen,
    unflushed: bool,
}

impl<T> Tap<T> {
    /// A tap over a device, which has not failed, has all its steps of reading, and has shown and written nothing.
    pub fn new(inner: T) -> Tap<T>
        ensures fresh { has_failed result ≡ false }
        ensures inner { device result ≡ inner }
        ensures turns { turns_left result ≡ 2 ^ 64 - 1 }
        ensures flushed { is_unflushed result ≡ false }
        ensures shown { shown_left result ≡ 0 }
        ensures prompt { is_late result ≡ false }
    {
        Tap {
            device: inner,
            seen: Seen {
                failed: false,
                shown: 0,
                turns: u64::MAX,
                late: false,
            },
            unflushed: false,
        }
    }

    /// The device.
    pub fn into_device(self) -> T
        ensures { result ≡ device self }
    {
        let Tap {
            device,
            seen: _,
            unflushed: _,
        } = self;
        device
    }

    /// Whether the tap has failed: a call of the device failed, a write took no byte, or the steps of reading are used
    /// up.
    pub fn failed(&self) -> bool
        ensures { result ≡ has_failed self.now }
    {
        self.seen.failed
    }

    /// How many steps of reading are left.
    pub fn turns(&self) -> u64
        ensures { result ≡ turns_left self.now }
    {
        self.seen.turns
    }

    /// Whether the device may hold bytes back: some were written since the tap was made or last flushed.
    pub fn unflushed(&self) -> bool
        ensures { result ≡ is_unflushed self.now }
    {
        self.unflushed
    }

    /// Whether the tap was ever asked for more bytes than it showed while answers were withheld.
    pub fn late(&self) -> bool
        ensures { result ≡ is_late self.now }
    {
        self.seen.late
    }
}

impl<R: BufRead> Tap<R> {
    /// The bytes that the device shows, at least one of them before its end. They stay until they are taken by `eat`. It
    /// takes a step of reading. `withheld` says whether answers to what was read are held back, or may be: where the
    /// tap shows no more bytes, so that the device may let it wait, it notes that it was asked `late`.
    ///
    /// # Errors
    ///
    /// `ReadFailed` where no step is left or the device's call fails, and from then on.
    pub fn fill(&mut self, withheld: bool) -> Result<&[u8], ReadFailed>
        ensures* after_borrow { sem 𝓛 (Rests (the_row R.row) self.entry (λ new.
            FillKeeps (known R.remaining self.old) (known R.remaining new) (known R.consumable_len new) result
            × (has_failed new ≡ is_err result)
            × (turns_left new ≡ turns_left self.old - 1)
            × (shown_left new ≡ lent result)
            × (is_late new ≡ is_late_after self.old withheld)
            × (has_failed self.old ≡ true → device new ≡ device self.old))) }
        ensures front { IfSome (known R.remaining self.old) (λ xs. IfOk result (λ s. StartsWith xs s.now)) }
        ensures end { IfSome (known R.remaining self.old) (λ xs. IfOk result (λ s. length s.now ≡ 0 → xs ≡ [])) }
        ensures ready { OnOk result ((has_failed self.old ≡ false) × (0 < turns_left self.old)) }
    {
        fill_from(&mut self.device, &mut self.seen, withheld)
    }

    /// Takes the first `amount` bytes of those that `fill` lent. A failed tap takes none.
    pub fn eat(&mut self, amount: usize)
        ensures bytes { has_failed self.old ≡ false → DropsConsumable (known R.remaining self.old)
            (known R.remaining self.new) (known R.consumable_len self.old) amount }
        ensures failed { has_failed self.new ≡ has_failed self.old }
        ensures turns { turns_left self.new ≡ turns_left self.old }
        ensures unmoved { has_failed self.old ≡ true → device self.new ≡ device self.old }
        ensures shown { shown_left self.new ≡ shown_left self.old - amount }
        ensures late { is_late self.new ≡ is_late self.old }
    {
        if !self.seen.failed {
            self.device.consume(amount);
        }
        self.seen.shown = self.seen.shown.saturating_sub(amount);
    }

    /// Whether bytes that `fill` lent are left, not taken by `eat`: the device shows them without being asked for more,
    /// as a `BufRead` does, and so the next `fill` waits for nothing.
    pub fn has_more(&self) -> bool
        ensures { IsTrue result ↔ 0 < shown_left self.now }
    {
        self.seen.shown > 0
    }
}

// What the device shows, where no call of it has failed and a step of reading is left.
fn fill_from<'a, 'b, R: BufRead>(
    device: &'a mut R,
    seen: &'b mut Seen,
    withheld: bool,
) -> Result<&'a [u8], ReadFailed>
    ensures* after_borrow { sem 𝓛 (Rests R.row device.entry (λ new.
        FillKeeps (R.remaining device.old) (R.remaining new) (R.consumable_len new) result
        × (seen.old.failed ≡ true → new ≡ device.old))) }
    ensures front { IfSome (R.remaining device.old) (λ xs. IfOk result (λ s. StartsWith xs s.now)) }
    ensures end { IfSome (R.remaining device.old) (λ xs. IfOk result (λ s. length s.now ≡ 0 → xs ≡ [])) }
    ensures ready { OnOk result ((seen.old.failed ≡ false) × (0 < seen.old.turns)) }
    ensures seen { seen.new ≡ record {
      failed = is_err result;
      shown = lent result;
      turns = seen.old.turns - 1;
      late = seen.old.late || (withheld && seen.old.shown == 0);
    } }
{
    seen.step(withheld)?;
    match device.fill_buf() {
        Ok(bytes) => {
            seen.shown = bytes.len();
            Ok(bytes)
        }
        Err(_) => {
            seen.failed = true;
            Err(ReadFailed)
        }
    }
}

impl<W: Write> Tap<W> {
    /// Writes all of the bytes, in as many calls of the device as it takes for them. For no bytes it makes no call,
    /// and succeeds on a tap that hasn't failed.
    ///
    /// # Errors
    ///
    /// `WriteFailed` where a call of the device fails or takes no byte, and from then on: a failed tap calls the
    /// device no more. A beginning of the bytes was written then.
    pub fn put(&mut self, bytes: &[u8]) -> Result<(), WriteFailed>
        ensures puts { Puts W.contents self.old self.new result bytes.now }
        ensures turns { turns_left self.new ≡ turns_left self.old }
        ensures nothing { bytes.now ≡ [] → has_failed self.old ≡ false → IsOk result }
        ensures unmoved { bytes.now ≡ [] → self.new ≡ self.old }
        ensures keeps { OnOk result (Keeps self.old self.new bytes.now) }
        ensures shown { shown_left self.new ≡ shown_left self.old }
        ensures late { is_late self.new ≡ is_late self.old }
    {
        if self.seen.failed {
            return Err(WriteFailed);
        }
        if bytes.is_empty() {
            return Ok(());
        }
        self.unflushed = true;
        let mut rest = bytes;
        while !rest.is_empty() {
            match self.device.write(rest) {
                Ok(n) if n > 0 => rest = &rest[n..],
                _ => {
                    self.seen.failed = true;
                    return Err(WriteFailed);
                }
            }
        }
        Ok(())
    }

    /// Writes some texts, one after another, as `put` writes each.
    ///
    /// # Errors
    ///
    /// `WriteFailed` as of `put`. A beginning of the texts was written then.
    pub fn put_all(&mut self, texts: &[&[u8]]) -> Result<(), WriteFailed>
        ensures puts { Puts W.contents self.old self.new result (flat_map (λ text. text.now) texts.now) }
        ensures turns { turns_left self.new ≡ turns_left self.old }
        ensures keeps { OnOk result (Keeps self.old self.new (flat_map (λ text. text.now) texts.now)) }
        ensures shown { shown_left self.new ≡ shown_left self.old }
        ensures late { is_late self.new ≡ is_late self.old }
    {
        if self.seen.failed {
            return Err(WriteFailed);
        }
        for text in texts {
            self.put(text)?;
        }
        Ok(())
    }

    /// Has the device hand on what it holds back: one that writes through a buffer writes the buffer out. It gives
    /// the device no byte. No clause sees that the device hands on what it holds.
    ///
    /// # Errors
    ///
    /// `WriteFailed` where the device's call fails, and from then on. What was written stays as it was.
    pub fn flush(&mut self) -> Result<(), WriteFailed>
        ensures puts { Puts W.contents self.old self.new result [] }
        ensures turns { turns_left self.new ≡ turns_left self.old }
        ensures flushed { OnOk result (is_unflushed self.new ≡ false) }
        ensures shown { shown_left self.new ≡ shown_left self.old }
        ensures late { is_late self.new ≡ is_late self.old }
    {
        if self.seen.failed {
            return Err(WriteFailed);
        }
        match self.device.flush() {
            Ok(()) => {
                self.unflushed = false;
                Ok(())
            }
            Err(_) => {
                self.seen.failed = true;
                Err(WriteFailed)
            }
        }
    }
}
