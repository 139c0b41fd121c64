//! Lines of bounded length, read from a tap.
ghost use Rattle.std.specs.Prelude.{◌≡◌, ◌≢◌, ◌+◌, ◌<◌, ◌≤◌, ℕ, List, [], ◌∷◌, ◌++◌, Option, None, Ok, true, false, length, take, drop, All, IfOk, OnOk, IsTrue, is_err, slice_index, vec_len, vec_capacity};
ghost use Rattle.std.specs.Io.KnownBytes.{Consumes, Keeps, IsAtEnd};
ghost use Rattle.fields.specs.text.Tap.{has_failed, device, is_late, is_late_after, known, shown_left, turns_left, ShowsWithin};
ghost use Rattle.fields.specs.text.Line.{IsHeld, ReadsLine, ReadsPart, ReadsOn};
ghost use Rattle.fields.specs.steps.Cutting.{TakesPart, HoldsMore, IsLast};

use crate::text::tap::{ReadFailed, Tap};
use memchr::memchr;
use std::io::BufRead;

/// How a line ended.
#[derive(Clone, Copy, Debug, PartialEq, Eq)]
pub enum LineEnd {
    /// By a newline.
    Newline,
    /// By the end of the input, after one byte or more.
    Input,
    /// There was no line: the input had ended.
    Nothing,
}

/// What was read of a line.
#[derive(Clone, Copy, Debug, PartialEq, Eq)]
pub struct LineRead {
    /// How the line ended.
    pub end: LineEnd,
    /// Whether the line has more bytes than were asked for at most.
    pub too_long: bool,
}

// What a step of reading met: more of the line, its newline, or the end of the input.
enum LineStep {
    More,
    Newline,
    End,
}

// Where the first newline stands, or the length.
fn newline_at(bytes: &[u8]) -> usize
    ensures within { result ≤ length bytes.now }
    ensures before { All (λ b. b ≢ 10) (take result bytes.now) }
    ensures found { result < length bytes.now → slice_index bytes.now result ≡ 10 }
{
    match memchr(b'\n', bytes) {
        Some(place) => place,
        None => bytes.len(),
    }
}

// Holds the bytes too, if they fit.
fn hold(part: &[u8], max: usize, line: &mut Vec<u8>, too_long: &mut bool)
    requires room { max ≤ vec_capacity line.old }
    requires within { vec_len line.old ≤ max }
    ensures within { vec_len line.new ≤ max }
    ensures capacity { vec_capacity line.old ≤ vec_capacity line.new }
    ensures holds { HoldsMore max part.now line.old.items too_long.old line.new.items too_long.new }
{
    if *too_long {
        return;
    }
    if part.len() > max - line.len() {
        *too_long = true;
        return;
    }
    line.extend_from_slice(part).unwrap();
}

// Takes what the reader shows, up to and including the first newline.
fn take_part<R: BufRead>(
    tap: &mut Tap<R>,
    max: usize,
    line: &mut Vec<u8>,
    too_long: &mut bool,
    withheld: bool,
) -> Result<LineStep, ReadFailed>
    requires room { max ≤ vec_capacity line.old }
    requires within { vec_len line.old ≤ max }
    ensures within { vec_len line.new ≤ max }
    ensures capacity { vec_capacity line.old ≤ vec_capacity line.new }
    ensures failed { has_failed tap.new ≡ is_err result }
    ensures ready { OnOk result (has_failed tap.old ≡ false) }
    ensures turns { OnOk result (turns_left tap.old ≡ turns_left tap.new + 1) }
    ensures late { is_late tap.new ≡ is_late_after tap.old withheld }
    ensures unmoved { has_failed tap.old ≡ true → device tap.new ≡ device tap.old }
    ensures shown { result ≡ Ok LineStep.More → shown_left tap.new ≡ 0 }
    ensures left { ShowsWithin (known R.remaining tap.old) (known R.remaining tap.new) (shown_left tap.new) }
    ensures takes { TakesPart (known R.remaining tap.old) (known R.remaining tap.new) result
        max line.old.items too_long.old line.new.items too_long.new }
{
    let shown = match tap.fill(withheld) {
        Ok(shown) => shown,
        Err(failed) => return Err(failed),
    };
    if shown.is_empty() {
        return Ok(LineStep::End);
    }
    let n = newline_at(shown);
    hold(&shown[..n], max, line, too_long);
    if n < shown.len() {
        tap.eat(n + 1);
        return Ok(LineStep::Newline);
    }
    tap.eat(n);
    Ok(LineStep::More)
}

// The line at the end of the input.
fn last_line(line: &Vec<u8>, too_long: bool) -> LineRead
    ensures { (text : List ℕ) → (max : ℕ) → IsHeld max text line.now.items too_long
        → IsLast text result.end × (result.too_long ≡ too_long) }
{
    let end = if too_long || !line.is_empty() {
        LineEnd::Input
    } else {
        LineEnd::Nothing
    };
    LineRead { end, too_long }
}

impl<R: BufRead> Tap<R> {
    /// Reads on in a line of which a part was read into `line`, by this call before: takes what the device shows, up
    /// to and including the first newline. `None` where the line goes on. Before the first part `line` is empty, and
    /// `too_long` is false. `line` has room for `max` bytes.
    ///
    /// It takes one step of reading, and so calls `fill` once, with `withheld`. So a caller who has something to do
    /// before the device is asked for more does it where `has_more` says that nothing is left. Where the line goes on,
    /// nothing is left.
    ///
    /// # Errors
    ///
    /// `ReadFailed` as of `read_line`.
    pub fn read_part(
        &mut self,
        max: usize,
        line: &mut Vec<u8>,
        too_long: &mut bool,
        withheld: bool,
    ) -> Result<Option<LineRead>, ReadFailed>
        requires room { max ≤ vec_capacity line.old }
        requires within { vec_len line.old ≤ max }
        ensures reads { (first : Option (List ℕ)) (turns : ℕ)
            → ReadsPart first (known R.remaining self.old) turns (turns_left self.old) max line.old.items too_long.old
            → ReadsOn first (known R.remaining self.new) turns (turns_left self.new) max line.new.items too_long.new result }
        ensures failed { has_failed self.new ≡ is_err result }
        ensures unmoved { has_failed self.old ≡ true → device self.new ≡ device self.old }
        ensures turns { OnOk result (turns_left self.old ≡ turns_left self.new + 1) }
        ensures late { is_late self.new ≡ is_late_after self.old withheld }
        ensures ready { OnOk result (has_failed self.old ≡ false) }
        ensures shown { result ≡ Ok None → shown_left self.new ≡ 0 }
        ensures left { OnOk result
            (ShowsWithin (known R.remaining self.old) (known R.remaining self.new) (shown_left self.new)) }
        ensures within { vec_len line.new ≤ max }
        ensures capacity { vec_capacity line.old ≤ vec_capacity line.new }
    {
        match take_part(self, max, line, too_long, withheld) {
            Ok(LineStep::More) => Ok(None),
            Ok(LineStep::Newline) => Ok(Some(LineRead {
                end: LineEnd::Newline,
                too_long: *too_long,
            })),
            Ok(LineStep::End) => Ok(Some(last_line(line, *too_long))),
            Err(failed) => Err(failed),
        }
    }

    /// Reads the next line into `line`, which has room for `max` bytes. The newline is none of them. A longer line is
    /// read to its end too, and `too_long` says so: what stands in `line` then isn't the line. Answers may be withheld
    /// meanwhile, for all it knows.
    ///
    /// # Errors
    ///
    /// `ReadFailed` where the tap has failed before, where a call of the device fails, and where the tap's steps of
    /// reading are used up. A line takes at most as many steps as it has bytes, and one more.
    pub fn read_line(&mut self, max: usize, line: &mut Vec<u8>) -> Result<LineRead, ReadFailed>
        requires room { max ≤ vec_capacity line.old }
        ensures reads { ReadsLine (known R.remaining self.old) (known R.remaining self.new)
            (turns_left self.old) (turns_left self.new) max line.new.items result }
        ensures failed { has_failed self.new ≡ is_err result }
        ensures unmoved { has_failed self.old ≡ true → device self.new ≡ device self.old }
        ensures turns { OnOk result (turns_left self.new < turns_left self.old) }
        ensures within { vec_len line.new ≤ max }
        ensures capacity { vec_capacity line.old ≤ vec_capacity line.new }
    {
        line.clear();
        let mut too_long = false;
        loop {
            match self.read_part(max, line, &mut too_long, true) {
                Ok(None) => {}
                Ok(Some(read)) => return Ok(read),
                Err(failed) => return Err(failed),
            }
        }
    }
}
