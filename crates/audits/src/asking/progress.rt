//! How many questions are asked so far, for whoever waits at a terminal.
use std::io::IsTerminal;
use std::rt::Clock;
use std::time::{Duration, Instant};

/// How many questions are asked so far, of how many, and when a terminal was last told.
#[derive(Drop)]
pub(crate) struct Progress<'a, R, E> {
    clock: &'a R,
    errors: &'a E,
    // When the terminal was last told, or the first question began. There is none where standard error is no terminal.
    told: Option<Instant>,
    has_line: bool,
    asked: usize,
    all: usize,
}

impl<'a, R: Clock, E: Print + IsTerminal> Progress<'a, R, E> {
    /// Before any question.
    pub(crate) fn new(clock: &'a R, errors: &'a E) -> Progress<'a, R, E> {
        let told = if errors.is_terminal() {
            now(clock)
        } else {
            None
        };
        Progress {
            clock,
            errors,
            told,
            has_line: false,
            asked: 0,
            all: 0,
        }
    }

    /// So many questions are to be asked.
    pub(crate) fn begin(&mut self, all: usize) {
        self.all = all;
    }

    /// Counts the next question, and tells the terminal where it wasn't told for a second. What cannot be written
    /// is given up.
    pub(crate) fn note(&mut self) {
        self.asked = self.asked.saturating_add(1);
        let Some(told) = self.told else {
            return;
        };
        let Some(now) = now(self.clock) else {
            return;
        };
        if now.duration_since(told) >= Duration::from_secs(1) {
            self.told = Some(now);
            self.has_line = true;
            let (asked, all) = (self.asked, self.all);
            let _ = print!(self.errors; "\riptaudit: question {asked} of {all}");
        }
    }

    /// Clears the terminal's line, where it was told anything.
    pub(crate) fn end(&mut self) {
        if self.has_line {
            self.has_line = false;
            let _ = print!(self.errors; "\r\x1b[K");
        }
    }
}

// What the clock shows, where it can be read.
fn now<R: Clock>(clock: &R) -> Option<Instant> {
    match Instant::now(clock) {
        Ok(now) => Some(now),
        Err(_) => None,
    }
}
