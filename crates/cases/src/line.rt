//! What a line of a file says.
use crate::case::{Call, Mode};
use crate::fault::Fault;

/// The text after a mark.
#[derive(Clone, Copy, Drop)]
pub(crate) enum Text<'a> {
    /// The bytes that stand there.
    Plain(&'a str),
    /// Bytes that are written with backslashes.
    Written(&'a str),
}

impl<'a> Text<'a> {
    // The text after the sign of a mark.
    fn read(text: &'a str) -> Result<Text<'a>, Fault> {
        if let Some(text) = text.strip_prefix(' ') {
            return Ok(Text::Plain(text));
        }
        if let Some(text) = text.strip_prefix("\\ ") {
            return Ok(Text::Written(text));
        }
        if text.is_empty() {
            return Ok(Text::Plain(text));
        }
        Err(Fault::BadMark)
    }
}

/// How often lines are repeated.
#[derive(Clone, Copy, Drop)]
pub(crate) enum Repeat<'a> {
    Times(u64),
    /// With a number that has a name, from the first to the last, of so many digits at least.
    Numbers {
        name: &'a str,
        first: u64,
        last: u64,
        width: usize,
    },
}

impl<'a> Repeat<'a> {
    // What stands after `repeat`.
    fn read(words: &'a str) -> Option<Repeat<'a>> {
        if let Some(times) = words.strip_suffix(" times") {
            return Some(Repeat::Times(number_of(times)?));
        }
        let (name, numbers) = words.split_once(" from ")?;
        let (first, last) = numbers.split_once(" to ")?;
        if name.is_empty() || name.bytes().any(|byte| !byte.is_ascii_lowercase()) {
            return None;
        }
        Some(Repeat::Numbers {
            name,
            first: number_of(first)?,
            last: number_of(last)?,
            width: first.len(),
        })
    }
}

/// The number of decimal digits, without a sign.
pub(crate) fn number_of(digits: &str) -> Option<u64> {
    if digits.bytes().any(|byte| !byte.is_ascii_digit()) {
        return None;
    }
    digits.parse::<u64>().ok()
}

/// What a line says.
#[derive(Clone, Copy, Drop)]
pub(crate) enum Line<'a> {
    /// Nothing: it is blank, or a comment.
    Nothing,
    Case(&'a str),
    Begin(Call),
    Input(Text<'a>),
    Output(Text<'a>),
    NoInput,
    NoOutput,
    NoNewline,
    Repeat(Repeat<'a>),
    End,
    Status(u8),
}

impl<'a> Line<'a> {
    /// Reads a line.
    pub(crate) fn read(line: &'a str) -> Result<Line<'a>, Fault> {
        if line.is_empty() || line.starts_with('#') {
            return Ok(Line::Nothing);
        }
        if let Some(text) = line.strip_prefix('>') {
            return Ok(Line::Input(Text::read(text)?));
        }
        if let Some(text) = line.strip_prefix('<') {
            return Ok(Line::Output(Text::read(text)?));
        }
        match line {
            "session" => Ok(Line::Begin(Call::Session)),
            "no input" => Ok(Line::NoInput),
            "no output" => Ok(Line::NoOutput),
            "no newline" => Ok(Line::NoNewline),
            "end" => Ok(Line::End),
            line => Line::read_words(line),
        }
    }

    // Reads a line of several words.
    fn read_words(line: &'a str) -> Result<Line<'a>, Fault> {
        if let Some(name) = line.strip_prefix("case ") {
            return Ok(Line::Case(name));
        }
        if let Some(status) = line.strip_prefix("status ") {
            return Ok(Line::Status(status_of(status)?));
        }
        if let Some(words) = line.strip_prefix("repeat ") {
            return Ok(Line::Repeat(Repeat::read(words).ok_or(Fault::BadRepeat)?));
        }
        if let Some(options) = line.strip_prefix("restore") {
            return Ok(Line::Begin(Call::Restore(mode_of(options)?)));
        }
        Err(Fault::UnknownLine)
    }
}

// The status of a word.
fn status_of(word: &str) -> Result<u8, Fault> {
    let number = number_of(word).ok_or(Fault::BadStatus)?;
    match u8::try_from(number) {
        Ok(status) => Ok(status),
        Err(_) => Err(Fault::BadStatus),
    }
}

// How a restore with these options is done, each of which has a blank before it and stands once at most.
fn mode_of(options: &str) -> Result<Mode, Fault> {
    let mut mode = Mode {
        noflush: false,
        test: false,
        list: false,
    };
    if options.is_empty() {
        return Ok(mode);
    }
    let options = options.strip_prefix(' ').ok_or(Fault::UnknownLine)?;
    for option in options.split(' ') {
        let is_set = match option {
            "--noflush" => &mut mode.noflush,
            "--test" => &mut mode.test,
            "--list" => &mut mode.list,
            _ => return Err(Fault::BadOption),
        };
        if *is_set {
            return Err(Fault::BadOption);
        }
        *is_set = true;
    }
    Ok(mode)
}
