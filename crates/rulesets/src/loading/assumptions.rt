//! A reader that repeats the lines `# iptsim-fit: ..` of a file on standard error as they go by: they say what was
//! assumed when the file was made to load.
use fields::Tap;
use std::io::{Read, Result, Write};

// How such a line begins.
const BEGINNING: &[u8] = b"# iptsim-fit:";

// Where in a line a reader is.
#[derive(Clone, Copy)]
enum Place {
    // The line has begun as such a line does, and these bytes of its beginning are to come.
    Beginning(&'static [u8]),
    // Within such a line.
    Within,
    // Within another one.
    Elsewhere,
}

/// A reader that repeats each line `# iptsim-fit: ..` on a writer, as it goes by. What cannot be written is given up.
#[derive(Drop)]
pub(crate) struct Repeating<I, W> {
    input: I,
    output: Tap<W>,
    place: Place,
}

impl<I: Read, W: Write> Repeating<I, W> {
    /// At the beginning of an input.
    pub(crate) fn new(input: I, output: W) -> Repeating<I, W> {
        Repeating {
            input,
            output: Tap::new(output),
            place: Place::Beginning(BEGINNING),
        }
    }

    // Looks whether a line, which these bytes go on with, begins as such a line does; these are to come.
    fn compare(&mut self, due: &'static [u8], part: &[u8]) {
        if let Some(rest) = part.strip_prefix(due) {
            let _ = self.output.put_all(&[BEGINNING, rest]);
            self.place = Place::Within;
        } else if let Some(rest) = due.strip_prefix(part) {
            self.place = Place::Beginning(rest);
        } else {
            self.place = Place::Elsewhere;
        }
    }

    // Looks at the next bytes of a line, with its newline or without.
    fn look_at(&mut self, part: &[u8]) {
        match self.place {
            Place::Beginning(due) => self.compare(due, part),
            Place::Within => {
                let _ = self.output.put(part);
            }
            Place::Elsewhere => {}
        }
        if part.ends_with(b"\n") {
            self.place = Place::Beginning(BEGINNING);
        }
    }

    // The input has ended. A line that it ends within gets a newline.
    fn end(&mut self) {
        if matches!(self.place, Place::Within) {
            self.look_at(b"\n");
        }
    }
}

impl<I: Read, W: Write> Read for Repeating<I, W> {
    fn read(&mut self, buf: &mut [u8]) -> Result<usize> {
        let count = self.input.read(buf)?;
        if count == 0 {
            self.end();
        }
        for part in buf[..count].split_inclusive(|byte| *byte == b'\n') {
            self.look_at(part);
        }
        Ok(count)
    }
}
