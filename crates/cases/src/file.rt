//! A file of cases, read line by line.
use crate::case::{Case, Cases};
use crate::fault::{Fault, Misread};
use crate::line::{Line, Text};
use crate::rounds::Rounds;
use crate::side::Side;
use crate::written::push_written;
use std::alloc::Global;

// How many lines a file may stand for, those that are repeated counted each time.
const MOST: u64 = 10_000_000;

// The lines of a file, where the next one stands, and what was read so far.
#[derive(Drop)]
struct Reader<'a> {
    lines: Vec<&'a str>,
    next: usize,
    rounds: Rounds<'a>,
    cases: Cases,
}

/// The cases of a file: at least one, each with a name of its own and a run, each run with its input, its output and its
/// status.
pub(crate) fn read_cases(alloc: Global, text: &str) -> Result<Vec<Case>, Misread> {
    let mut reader = match Reader::new(alloc, text) {
        Ok(reader) => reader,
        Err(fault) => {
            let line = text.split('\n').count();
            return Err(Misread { line, fault });
        }
    };
    match reader.read_lines() {
        Ok(()) => reader.end(),
        Err(fault) => Err(Misread {
            line: reader.next,
            fault,
        }),
    }
}

impl<'a> Reader<'a> {
    fn new(alloc: Global, text: &'a str) -> Result<Reader<'a>, Fault> {
        let mut lines = Vec::new(alloc);
        if let Some(text) = text.strip_suffix('\n') {
            for line in text.split('\n') {
                lines.push(line)?;
            }
        } else if !text.is_empty() {
            return Err(Fault::OpenLine);
        }
        Ok(Reader {
            lines,
            next: 0,
            rounds: Rounds::new(alloc),
            cases: Cases::new(alloc),
        })
    }

    // Reads all lines, those that are repeated again and again.
    fn read_lines(&mut self) -> Result<(), Fault> {
        for _ in 0..MOST {
            let Some(line) = self.lines.get(self.next) else {
                return Ok(());
            };
            let line = *line;
            self.next = self.next.saturating_add(1);
            self.take(Line::read(line)?)?;
        }
        Err(Fault::TooLong)
    }

    // Does what a line says. In a repeat there are only lines of input and output.
    fn take(&mut self, line: Line<'a>) -> Result<(), Fault> {
        match line {
            Line::Nothing => Ok(()),
            Line::Input(text) => {
                let run = self.cases.run()?;
                push_line(&mut run.input, &self.rounds, text)
            }
            Line::Output(text) => {
                let run = self.cases.run()?;
                push_line(&mut run.output, &self.rounds, text)
            }
            Line::Repeat(repeat) => self.rounds.open(repeat, self.next),
            Line::End => self.end_round(),
            line if self.rounds.is_none() => self.take_alone(line),
            _ => Err(Fault::OpenRepeat),
        }
    }

    // Ends a round of the innermost repeat.
    fn end_round(&mut self) -> Result<(), Fault> {
        if let Some(begin) = self.rounds.end_round()? {
            self.next = begin;
        }
        Ok(())
    }

    // Does what a line says that is not repeated.
    fn take_alone(&mut self, line: Line<'a>) -> Result<(), Fault> {
        match line {
            Line::Case(name) => self.cases.begin_case(name),
            Line::Begin(call) => self.cases.begin_run(call),
            Line::NoInput => self.cases.run()?.input.be_empty(),
            Line::NoOutput => self.cases.run()?.output.be_empty(),
            Line::NoNewline => self.cases.run()?.input.drop_newline(),
            Line::Status(status) => self.cases.end_run(status),
            _ => Err(Fault::UnknownLine),
        }
    }

    // All cases, at the end of the file.
    fn end(self) -> Result<Vec<Case>, Misread> {
        let line = self.next.max(1);
        let is_open = !self.rounds.is_none();
        let ended = if is_open {
            Err(Fault::OpenRepeat)
        } else {
            self.cases.end()
        };
        match ended {
            Ok(cases) => Ok(cases),
            Err(fault) => Err(Misread { line, fault }),
        }
    }
}

// Puts a line to an input or an output.
fn push_line(side: &mut Side, rounds: &Rounds<'_>, text: Text<'_>) -> Result<(), Fault> {
    let bytes = side.begin_line()?;
    match text {
        Text::Plain(text) => bytes.extend_from_slice(text.as_bytes())?,
        Text::Written(text) => push_written(bytes, rounds, text)?,
    }
    side.end_line()
}
