//! What the program does: it reads its line, answers what is asked, and ends with the status.
use crate::fault::Fault;
use crate::source::Source;
use audits::Asking;
use programs::{Audit, answer_line, buffered_output, let_go, texts_after_name, words_given};
use std::io::{self, IsTerminal};
use std::rt::{Clock, Env, Files};

// How many steps are taken at most for each question, where no number is given.
const STEPS: usize = 20_000;

/// Answers what the words after the program's name ask, writes a message to `errors` where it cannot, and answers the
/// program's status.
pub(crate) fn run<R, E>(rt: &R, errors: &E) -> u8
where
    R: Clock + Env + Files + Input + Print + AllocGlobal,
    E: Print + IsTerminal,
{
    match words_given(rt) {
        Ok(words) => run_words(rt, errors, words.as_slice()),
        Err(fault) => report(errors, Fault::from(fault)),
    }
}

// The same, of the words that were given, the program's name first.
fn run_words<R, E>(rt: &R, errors: &E, words: &[String]) -> u8
where
    R: Clock + Files + Input + Print + AllocGlobal,
    E: Print + IsTerminal,
{
    let texts = match texts_after_name(rt.alloc(), words) {
        Ok(texts) => texts,
        Err(error) => return report(errors, Fault::from(error)),
    };
    match run_line(rt, errors, texts.as_slice()) {
        Ok(status) => status,
        Err(fault) => report(errors, fault),
    }
}

// Writes the message of a fault, and answers its status. A message that cannot be written is given up.
fn report<E: Print>(errors: &E, fault: Fault<'_>) -> u8 {
    let _ = println!(errors; "iptaudit: {fault}");
    fault.status()
}

// The number of steps that a word gives.
fn steps_of(word: Option<&str>) -> Result<usize, Fault<'_>> {
    let Some(word) = word else {
        return Ok(STEPS);
    };
    match word.parse::<usize>() {
        Ok(steps) => Ok(steps),
        Err(_) => Err(Fault::NoNumber(word)),
    }
}

// Answers what the words ask, and answers the status.
fn run_line<'a, R, E>(rt: &R, errors: &E, words: &'a [&'a str]) -> Result<u8, Fault<'a>>
where
    R: Clock + Files + Input + Print + AllocGlobal,
    E: Print + IsTerminal,
{
    let audit = match Audit::read(rt.alloc(), words) {
        Ok(audit) => audit,
        Err(fault) => return Ok(answer_line(rt, errors, fault)?),
    };
    let steps = steps_of(audit.steps)?;
    let mut output = buffered_output(rt.alloc(), io::writer(rt))?;
    let mut asking = Asking::new(rt.alloc(), steps, rt, errors);
    let source = Source {
        rt,
        errors,
        audit: &audit,
    };
    let answered = source.answer(&mut asking, &mut output);
    asking.end();
    let flushed = output.flush();
    let_go(output);
    let status = answered?;
    flushed?;
    Ok(status)
}
