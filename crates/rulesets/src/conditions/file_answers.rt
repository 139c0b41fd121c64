//! Answers about conditions that stand in a file.
use crate::conditions::open_conditions::{OpenConditions, Taken};
use crate::fault::RulesetFault;
use std::alloc::Global;

/// An answer that stands on a line.
#[derive(Drop)]
pub struct FileAnswer {
    /// The number of the line, from 1.
    pub line: u64,
    /// What a word of `--when` would be.
    pub text: String,
}

/// The answers of a file.
#[derive(Drop)]
pub struct FileAnswers<'a> {
    /// The file.
    pub file: &'a str,
    /// Its answers, in their order.
    pub answers: Vec<FileAnswer>,
}

/// Takes in the answers of a file.
///
/// # Errors
///
/// `FileNoCondition` and `FileAnsweredTwice`, by the first answer at fault; or where memory was refused.
pub(crate) fn answer_from<'a>(
    alloc: Global,
    open: &mut OpenConditions,
    given: &FileAnswers<'a>,
) -> Result<(), RulesetFault<'a>> {
    for answer in given.answers.as_slice() {
        let text = answer.text.as_str();
        let taken = open.answer(alloc, text)?;
        if matches!(taken, Taken::Answered) {
            continue;
        }
        let told = String::from_utf8_lossy(alloc, text.as_bytes())?;
        return Err(match taken {
            Taken::Contradiction => RulesetFault::FileAnsweredTwice(given.file, answer.line, told),
            _ => RulesetFault::FileNoCondition(given.file, answer.line, told),
        });
    }
    Ok(())
}
