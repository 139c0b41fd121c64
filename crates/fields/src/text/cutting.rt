//! How a line is cut into words: an unquoted run of bytes, with the blank after it, at once, and every other byte by
//! itself.
ghost use Rattle.std.specs.Prelude.{◌≡◌, ◌≤◌, ◌+◌, true, not, nat_lt, length, take, All};
ghost use Rattle.std.specs.List.{prefix_len};
ghost use Rattle.std.specs.Simd.Lanes.{chunk};
ghost use Rattle.fields.specs.text.Words.{is_bare, do_rise};

use crate::text::words::WordFault;
use std::alloc::Global;
use std::simd::prelude::*;

// Where a byte of a line stands: between two words, in an unquoted word, between the quotes of a
// word, after a backslash there, or after the closing quote.
#[derive(Clone, Copy)]
enum State {
    Between,
    Bare,
    Quoted,
    Escaped,
    Closed,
}

// What a byte does: it is no part of a word, joins the word at hand, ends it, or breaks the quoting;
// and where the next byte stands.
enum Transition {
    Skips(State),
    Joins(State),
    Ends(State),
    Breaks,
}

// The bytes of the words so far and of the one at hand, and where each of those before it ends.
#[derive(Drop)]
pub(crate) struct Cutting {
    pub(crate) bytes: Vec<u8>,
    pub(crate) ends: Vec<usize>,
    state: State,
    ghost rise: { do_rise 0 ends.items (length bytes.items) ≡ true },
}

// Whether an unquoted word may have the byte.
fn is_bare(byte: u8) -> bool
    ensures { result ≡ is_bare byte }
{
    byte > b'"' || !matches!(byte, b' ' | b'\t' | b'"' | b'\n')
}

// How many bytes stand before the first that an unquoted word can't have.
fn bare_len(bytes: &[u8]) -> usize
    ensures within { result ≤ length bytes.now }
    ensures run { All (λ byte. is_bare byte ≡ true) (take result bytes.now) }
{
    for (i, byte) in bytes.iter().enumerate() {
        if !is_bare(*byte) {
            return i;
        }
    }
    bytes.len()
}

// How many of the 16 bytes from a place on stand before the first up to `"`. Each byte that an unquoted word can't have is one
// of those.
#[inline(always)]
fn len_in_16(bytes: &[u8], at: usize) -> usize
    requires { at + 16 ≤ length bytes.now }
    ensures { result ≡ prefix_len (λ byte. not (nat_lt byte 35)) (chunk at 16 bytes.now) }
{
    let stops = u8x16::from_slice(&bytes[at..])
        .simd_lt(u8x16::splat(35))
        .to_bitmask();
    if stops == 0 {
        16
    } else {
        stops.trailing_zeros() as usize
    }
}

// The same as `bare_len`, 16 bytes at a time while there are so many. A byte that an unquoted word can have ends it too, where
// it stands before `"` in ASCII.
fn run_len(bytes: &[u8]) -> usize
    ensures within { result ≤ length bytes.now }
    ensures run { All (λ byte. is_bare byte ≡ true) (take result bytes.now) }
{
    let mut at = 0;
    'runs: while bytes.len() - at >= 16 {
        let run = len_in_16(bytes, at);
        at += run;
        if run < 16 {
            return at;
        }
    }
    at + bare_len(&bytes[at..])
}

impl State {
    ghost use Rattle.std.specs.Prelude.{◌≡◌, ◌<◌, ◌≤◌, true, length, take};
    ghost use Rattle.fields.specs.text.Words.{transition_of};
    ghost use Rattle.fields.specs.steps.Cutting.{view_transition, view_state, is_unquoted, IsRun};

    // What a byte does that stands there.
    fn transition_of(self, byte: u8) -> Transition
        ensures { view_transition result ≡ transition_of (view_state self) byte }
    {
        match (self, byte) {
            (_, b'\n') => Transition::Breaks,
            (State::Between | State::Closed, b' ' | b'\t') => Transition::Skips(State::Between),
            (State::Between, b'"') => Transition::Skips(State::Quoted),
            (State::Bare, b' ' | b'\t') => Transition::Ends(State::Between),
            (State::Bare, b'"') | (State::Closed, _) => Transition::Breaks,
            (State::Between | State::Bare, _) => Transition::Joins(State::Bare),
            (State::Quoted, b'"') => Transition::Ends(State::Closed),
            (State::Quoted, b'\\') => Transition::Skips(State::Escaped),
            (State::Quoted | State::Escaped, _) => Transition::Joins(State::Quoted),
        }
    }

    // How many of the bytes that follow belong to one unquoted word, where they stand in none between quotes.
    fn run_len(self, bytes: &[u8]) -> usize
        ensures within { result ≤ length bytes.now }
        ensures run { IsRun (take result bytes.now) }
        ensures unquoted { 0 < result → is_unquoted (view_state self) ≡ true }
    {
        match self {
            State::Between | State::Bare => run_len(bytes),
            State::Quoted | State::Escaped | State::Closed => 0,
        }
    }
}

impl Cutting {
    ghost use Rattle.std.specs.Prelude.{◌≡◌, ◌+◌, ◌/◌, ◌<◌, ◌≤◌, [], ◌∷◌, true, length, take, vec_capacity, All, IsTrue, IsOk, IfOk, IsErr};
    ghost use Rattle.fields.specs.text.Words.{is_bare, words_of, Bare};
    ghost use Rattle.fields.specs.steps.Cutting.{view_cutting, view_state, after, at_line_end, start, joined, ended, Gives, UnlessNoMemory, Advances, Continues, IsRun, is_unquoted};

    // Before the first byte, with room for the bytes of a line and as many words as it may have.
    fn new(alloc: Global, len: usize) -> Result<Cutting, WordFault>
        ensures start { UnlessNoMemory result (IfOk result (λ cutting. view_cutting cutting ≡ start)) }
        ensures bytes_room { IfOk result (λ cutting. vec_capacity cutting.bytes ≡ len) }
        ensures ends_room { IfOk result (λ cutting. vec_capacity cutting.ends ≡ (len + 1) / 2) }
    {
        let bytes = match Vec::with_capacity(alloc, len) {
            Ok(bytes) => bytes,
            Err(_) => return Err(WordFault::NoMemory),
        };
        let ends = match Vec::with_capacity(alloc, len.div_ceil(2)) {
            Ok(ends) => ends,
            Err(_) => return Err(WordFault::NoMemory),
        };
        Ok(Cutting {
            bytes,
            ends,
            state: State::Between,
        })
    }

    // Joins a byte to the word at hand.
    fn join(&mut self, byte: u8) -> Result<(), WordFault>
        ensures joined { UnlessNoMemory result (view_cutting self.new ≡ joined (byte ∷ []) (view_cutting self.old)) }
        ensures there { length self.old.bytes.items < vec_capacity self.old.bytes → IsOk result }
        ensures room { vec_capacity self.old.bytes ≤ vec_capacity self.new.bytes }
    {
        self.bytes.push(byte).map_err(|_| WordFault::NoMemory)?;
        Ok(())
    }

    // Joins some bytes to it.
    fn join_all(&mut self, run: &[u8]) -> Result<(), WordFault>
        ensures joined { UnlessNoMemory result (view_cutting self.new ≡ joined run.now (view_cutting self.old)) }
        ensures there { length self.old.bytes.items + length run.now ≤ vec_capacity self.old.bytes → IsOk result }
        ensures room { vec_capacity self.old.bytes ≤ vec_capacity self.new.bytes }
    {
        self.bytes
            .extend_from_slice(run)
            .map_err(|_| WordFault::NoMemory)?;
        Ok(())
    }

    // Ends the word at hand.
    fn end_word(&mut self) -> Result<(), WordFault>
        ensures ended { UnlessNoMemory result (view_cutting self.new ≡ ended (view_cutting self.old)) }
        ensures there { length self.old.ends.items < vec_capacity self.old.ends → IsOk result }
        ensures room { vec_capacity self.old.ends ≤ vec_capacity self.new.ends }
    {
        self.ends
            .push(self.bytes.len())
            .map_err(|_| WordFault::NoMemory)?;
        Ok(())
    }

    // Takes the next byte.
    #[tactic(auto, unfolding(crate::specs::steps::Cutting::after))]
    fn take(&mut self, byte: u8) -> Result<(), WordFault>
        ensures { Gives (λ _. view_cutting self.new) result (after (view_cutting self.old) byte) }
    {
        match self.state.transition_of(byte) {
            Transition::Skips(next) => self.state = next,
            Transition::Joins(next) => {
                self.join(byte)?;
                self.state = next;
            }
            Transition::Ends(next) => {
                self.end_word()?;
                self.state = next;
            }
            Transition::Breaks => return Err(WordFault::Quoting),
        }
        Ok(())
    }

    // Ends an unquoted word at a blank, if one comes next. Gives the bytes after that.
    #[tactic(auto, unfolding(crate::specs::steps::Cutting::after))]
    fn end_at_blank<'a>(&mut self, bytes: &'a [u8]) -> Result<&'a [u8], WordFault>
        requires { view_state self.old.state ≡ Bare }
        ensures { Continues (view_cutting self.old) bytes.now (view_cutting self.new) result }
    {
        if bytes.is_empty() || bytes[0] != b' ' {
            return Ok(bytes);
        }
        self.end_word()?;
        self.state = State::Between;
        Ok(&bytes[1..])
    }

    // Takes a run of bytes of an unquoted word. Gives the bytes after it.
    fn take_run<'a>(&mut self, bytes: &'a [u8], run: usize) -> Result<&'a [u8], WordFault>
        requires some { 0 < run }
        requires within { run ≤ length bytes.now }
        requires run { IsRun (take run bytes.now) }
        requires unquoted { is_unquoted (view_state self.old.state) ≡ true }
        ensures state { IfOk result (λ _. view_state self.new.state ≡ Bare) }
        ensures advances { Advances (view_cutting self.old) bytes.now (view_cutting self.new) result }
    {
        self.join_all(&bytes[..run])?;
        self.state = State::Bare;
        Ok(&bytes[run..])
    }

    // Takes a run of bytes of an unquoted word with the blank after it, or else the next byte. Gives the bytes after that.
    fn advance<'a>(&mut self, bytes: &'a [u8]) -> Result<&'a [u8], WordFault>
        requires { 0 < length bytes.now }
        ensures { Advances (view_cutting self.old) bytes.now (view_cutting self.new) result }
    {
        let run = self.state.run_len(bytes);
        if run == 0 {
            self.take(bytes[0])?;
            return Ok(&bytes[1..]);
        }
        let rest = self.take_run(bytes, run)?;
        self.end_at_blank(rest)
    }

    // Ends the last word at the line's end.
    #[tactic(auto, unfolding(crate::specs::steps::Cutting::at_line_end))]
    fn finish(&mut self) -> Result<(), WordFault>
        ensures { Gives (λ _. (view_cutting self.new).words) result (at_line_end (view_cutting self.old)) }
    {
        match self.state {
            State::Between | State::Closed => Ok(()),
            State::Bare => self.end_word(),
            State::Quoted | State::Escaped => Err(WordFault::Quoting),
        }
    }

    // The words of a line.
    pub(crate) fn of(alloc: Global, line: &[u8]) -> Result<Cutting, WordFault>
        ensures { Gives (λ cutting. (view_cutting cutting).words) result (words_of line.now) }
    {
        let mut cutting = Cutting::new(alloc, line.len())?;
        let mut bytes = line;
        while !bytes.is_empty() {
            bytes = cutting.advance(bytes)?;
        }
        cutting.finish()?;
        Ok(cutting)
    }
}
