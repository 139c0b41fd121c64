//! What the program does: it reads its line, restores a file where it is asked to, and does its task.
use crate::fault::status_of;
use programs::{
    Job, ProgramFault, Task, answer_line, buffered_input, buffered_output, let_go, load,
    texts_after_name, words_given,
};
use sessions::{Console, Session};
use std::alloc::Global;
use std::io::{self, Read, Write};
use std::rt::{Env, Files};

/// Does what the words after the program's name ask for, writes a message to `errors` where it cannot, and answers the
/// program's status.
pub(crate) fn run<R, E>(rt: &R, errors: &E) -> u8
where
    R: Env + Files + Input + Print + AllocGlobal,
    E: Print,
{
    match words_given(rt) {
        Ok(words) => run_words(rt, errors, words.as_slice()),
        Err(fault) => report(errors, fault),
    }
}

// The same, of the words that were given, the program's name first.
fn run_words<R, E>(rt: &R, errors: &E, words: &[String]) -> u8
where
    R: Files + Input + Print + AllocGlobal,
    E: Print,
{
    let texts = match texts_after_name(rt.alloc(), words) {
        Ok(texts) => texts,
        Err(error) => return report(errors, ProgramFault::from(error)),
    };
    match run_line(rt, errors, texts.as_slice()) {
        Ok(status) => status,
        Err(fault) => report(errors, fault),
    }
}

// Writes the message of a fault, and answers its status. A message that cannot be written is given up.
fn report<E: Print>(errors: &E, fault: ProgramFault<'_>) -> u8 {
    let _ = println!(errors; "iptsim: {fault}");
    status_of(&fault)
}

// Does the job of the words, and answers the status of its first part that has a fault.
fn run_line<'a, R, E>(rt: &R, errors: &E, words: &'a [&'a str]) -> Result<u8, ProgramFault<'a>>
where
    R: Files + Input + Print + AllocGlobal,
    E: Print,
{
    let job = match Job::read(rt.alloc(), words) {
        Ok(job) => job,
        Err(fault) => return answer_line(rt, errors, fault),
    };
    let mut session = Session::new(rt.alloc())?;
    if let Some(file) = job.load {
        let status = load(rt, errors, &mut session, file)?;
        if status != 0 {
            return Ok(status);
        }
    }
    serve(
        rt.alloc(),
        &mut session,
        job.task,
        rt.reader(),
        io::writer(rt),
    )
}

// Does a task from a reader to a writer, each through a buffer. A restore writes the listing where it is no test. Replies
// were flushed before the reader was asked for more, and at the end.
fn serve<'a, R: Read + Drop, W: Write + Drop>(
    alloc: Global,
    session: &mut Session,
    task: Task,
    reader: R,
    writer: W,
) -> Result<u8, ProgramFault<'a>> {
    let mut input = buffered_input(alloc, reader)?;
    let mut output = buffered_output(alloc, writer)?;
    let mut console = Console::new(&mut input, &mut output);
    let served = match task {
        Task::Session => session.run_on(&mut console),
        Task::Restore { noflush, test } => session.restore_on(noflush, test, !test, &mut console),
    };
    let_go(output);
    Ok(served?)
}
