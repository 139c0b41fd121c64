//! The claims of a file, and its answers about conditions.
mod claim_line;
mod claimed_packets;
mod verdict_list;

use crate::claims::claim_line::{cut_name, read_claim};
use crate::fault::Fault;
use audits::Claim;
use fields::LineEnd;
use programs::{ProgramFault, buffered_input, open_file};
use rulesets::{FileAnswer, FileAnswers, Line};
use std::alloc::{AllocError, Global};
use std::rt::Files;
use std::str;

/// What a file of claims says.
#[derive(Drop)]
pub(crate) struct ClaimsFile<'a> {
    /// Its claims, in their order.
    pub(crate) claims: Vec<Claim>,
    /// Its lines `when`.
    pub(crate) given: FileAnswers<'a>,
}

/// A fault on a line of a file.
pub(crate) fn fault_at<'a>(
    alloc: Global,
    file: &'a str,
    line: u64,
    fault: &Fault<'_>,
) -> Fault<'a> {
    if matches!(fault, Fault::Program(_)) {
        return Fault::from(AllocError);
    }
    match format!(in alloc; "{fault}") {
        Ok(text) => Fault::AtLine(file, line, text),
        Err(_) => Fault::from(AllocError),
    }
}

// What stands on a line before a comment, without blanks around it.
fn without_comment(line: &[u8]) -> &[u8] {
    let mut before = b' ';
    for (place, byte) in line.iter().enumerate() {
        if *byte == b'#' && before.is_ascii_whitespace() {
            return line[..place].trim_ascii();
        }
        before = *byte;
    }
    line.trim_ascii()
}

// The condition behind `when`, where a text begins with it.
fn cut_when(text: &str) -> Option<&str> {
    let rest = text.strip_prefix("when")?;
    let condition = rest.trim_ascii_start();
    if condition.len() < rest.len() {
        return Some(condition);
    }
    None
}

impl<'a> ClaimsFile<'a> {
    // Whether a claim has a name.
    fn has_name(&self, name: &str) -> bool {
        for claim in self.claims.as_slice() {
            if let Some(other) = &claim.name {
                if other.as_str() == name {
                    return true;
                }
            }
        }
        false
    }

    // Takes in a claim.
    fn add_claim(&mut self, claim: Claim) -> Result<(), AllocError> {
        self.claims.push(claim)?;
        Ok(())
    }

    // Takes in what stands on a line of a number, before a comment.
    fn take<'t>(&mut self, alloc: Global, line: u64, text: &'t [u8]) -> Result<(), Fault<'t>> {
        if text.is_empty() {
            return Ok(());
        }
        let Ok(text) = str::from_utf8(text) else {
            return Err(Fault::NotText);
        };
        if let Some(condition) = cut_when(text) {
            let text = String::from_utf8_lossy(alloc, condition.as_bytes())?;
            add_answer(&mut self.given.answers, FileAnswer { line, text })?;
            return Ok(());
        }
        match cut_name(text).0 {
            Some(name) if self.has_name(name) => Err(Fault::NamedTwice(name)),
            _ => Ok(self.add_claim(read_claim(alloc, line, text)?)?),
        }
    }
}

// Adds an answer.
fn add_answer(answers: &mut Vec<FileAnswer>, answer: FileAnswer) -> Result<(), AllocError> {
    answers.push(answer)?;
    Ok(())
}

// Takes in the line of a number.
fn take_line<'a>(
    alloc: Global,
    number: u64,
    line: &[u8],
    is_cut: bool,
    found: &mut ClaimsFile<'a>,
) -> Result<(), Fault<'a>> {
    let taken = if is_cut {
        Err(Fault::TooLong)
    } else {
        found.take(alloc, number, without_comment(line))
    };
    match taken {
        Ok(()) => Ok(()),
        Err(fault) => Err(fault_at(alloc, found.given.file, number, &fault)),
    }
}

/// The claims of a file, a line each, and lines `when CONDITION`. Blank lines, and comments from a `#` at the beginning of a word on, are passed over.
///
/// # Errors
///
/// `AtLine` with the first fault on a line; `NoClaims` where it has none; or where the file cannot be opened or read, or memory was refused.
pub(crate) fn read_claims<'a, R>(rt: &R, file: &'a str) -> Result<ClaimsFile<'a>, Fault<'a>>
where
    R: Files + AllocGlobal,
{
    let alloc = rt.alloc();
    let mut input = buffered_input(alloc, open_file(rt, file)?)?;
    let mut line = Line::new(alloc)?;
    let mut found = ClaimsFile {
        claims: Vec::new(alloc),
        given: FileAnswers {
            file,
            answers: Vec::new(alloc),
        },
    };
    for number in 1..u64::MAX {
        let read = match line.read_from(&mut input) {
            Ok(read) => read,
            Err(_) => return Err(Fault::Program(ProgramFault::CannotRead(file))),
        };
        if read.end == LineEnd::Nothing {
            break;
        }
        take_line(alloc, number, line.bytes(), read.too_long, &mut found)?;
    }
    if found.claims.is_empty() {
        return Err(Fault::NoClaims(file));
    }
    Ok(found)
}
