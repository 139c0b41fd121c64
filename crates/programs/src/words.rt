//! The words of a program's command line, and the reply to a line that gives no task.
ghost use Rattle.std.specs.Prelude.{◌≡◌, IfErr, IfOk, drop, map, string_bytes};
ghost use Rattle.programs.specs.Line.{IsAnswered, IsReplied};
ghost use Rattle.programs.specs.Loaded.{AreNoWords};

use crate::fault::ProgramFault;
use crate::line::LineFault;
use clap::Error;
use clap::error::ErrorKind;
use std::alloc::{AllocError, Global};
use std::rt::Env;
use std::{env, io};

/// The words of the command line, of which the program's name is the first.
///
/// # Errors
///
/// `NotText` where a word isn't UTF-8; `NoMemory` where memory was refused.
pub fn words_given<R: Env + AllocGlobal>(rt: &R) -> Result<Vec<String>, ProgramFault<'static>>
    ensures { IfErr result AreNoWords }
{
    match env::args(rt) {
        Ok(words) => Ok(words.collect(rt.alloc())?),
        Err(error) if error.kind() == io::ErrorKind::OutOfMemory => Err(ProgramFault::NoMemory),
        Err(_) => Err(ProgramFault::NotText),
    }
}

/// The texts of the words after the program's name.
///
/// # Errors
///
/// `AllocError` where memory was refused.
pub fn texts_after_name(alloc: Global, words: &[String]) -> Result<Vec<&str>, AllocError>
    ensures { IfOk result (λ texts. map (λ text. text.now) texts.items ≡ drop 1 (map string_bytes words.now)) }
{
    let mut texts = Vec::new(alloc);
    if let Some((_name, rest)) = words.split_first() {
        for word in rest {
            texts.push(word.as_str())?;
        }
    }
    Ok(texts)
}

// Writes the message of `clap` for a line that gives no task: the version to standard output, anything else to `errors`. The status is 0 or 2.
fn answer_refused<'a, R: Print, E: Print>(
    rt: &R,
    errors: &E,
    error: Error,
) -> Result<u8, ProgramFault<'a>>
    ensures { IsReplied error result }
{
    if error.kind() == ErrorKind::DisplayVersion {
        return match print!(rt; "{error}") {
            Ok(()) => Ok(0),
            Err(_) => Err(ProgramFault::OutputFailed),
        };
    }
    let _ = print!(errors; "{error}");
    Ok(2)
}

/// Replies to a line that gives no task. The version goes to standard output, with status 0. Any other message of `clap` goes to `errors`,
/// with status 2; where it can't be written it is dropped.
///
/// # Errors
///
/// `NoMemory`, `NoSubcommand` and `NoFile`, as the fault of the line says; `OutputFailed` where the version can't be written.
pub fn answer_line<'a, R: Print, E: Print>(
    rt: &R,
    errors: &E,
    fault: LineFault,
) -> Result<u8, ProgramFault<'a>>
    ensures { IsAnswered fault result }
{
    match fault {
        LineFault::NoMemory => Err(ProgramFault::NoMemory),
        LineFault::NoSubcommand => Err(ProgramFault::NoSubcommand),
        LineFault::NoFile => Err(ProgramFault::NoFile),
        LineFault::Refused(error) => answer_refused(rt, errors, error),
    }
}
