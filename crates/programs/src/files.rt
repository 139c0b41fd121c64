//! Files that a program restores into a session before its task.
ghost use Rattle.std.specs.Prelude.{IfErr};
ghost use Rattle.programs.specs.Loaded.{IsUnopened, IsLoaded, IsOpenedAndLoaded};

use crate::buffers::{buffered_input, buffered_output, let_go};
use crate::fault::ProgramFault;
use sessions::{RunFault, Session};
use std::fs;
use std::io::{self, ErrorKind, Read};
use std::rt::Files;

/// Opens a file.
///
/// # Errors
///
/// `CannotOpen` where it fails; `NoMemory` where memory was refused.
pub fn open_file<'a, R: Files>(rt: &R, file: &'a str) -> Result<R::File, ProgramFault<'a>>
    ensures { IfErr result (IsUnopened file.entry) }
{
    match fs::open(rt, file) {
        Ok(opened) => Ok(opened),
        Err(error) if error.kind() == ErrorKind::OutOfMemory => Err(ProgramFault::NoMemory),
        Err(_) => Err(ProgramFault::CannotOpen(file)),
    }
}

/// Restores a file from its reader into a session, in place and without `--noflush`, and returns the status of the restore. A fault goes to
/// `errors`.
///
/// # Errors
///
/// `CannotRead` where the reader fails; `OutputFailed` where the fault can't be written; `NoMemory` where the memory of a buffer
/// was refused.
pub fn load_from<'a, R, E, I>(
    rt: &R,
    errors: &E,
    session: &mut Session,
    file: &'a str,
    reader: I,
) -> Result<u8, ProgramFault<'a>>
where
    R: AllocGlobal,
    E: Print,
    I: Read + Drop,
    ensures { IsLoaded (I.remaining reader) file.entry session.old result session.new }
{
    let mut input = buffered_input(rt.alloc(), reader)?;
    let mut output = buffered_output(rt.alloc(), io::writer(errors))?;
    let restored = session.restore(false, false, false, &mut input, &mut output);
    let_go(output);
    match restored {
        Ok(status) => Ok(status),
        Err(RunFault::ReadFailed) => Err(ProgramFault::CannotRead(file)),
        Err(RunFault::WriteFailed) => Err(ProgramFault::OutputFailed),
    }
}

/// Opens a file and restores it into a session, as `load_from` does.
///
/// # Errors
///
/// Those of `open_file` and `load_from`.
pub fn load<'a, R, E>(
    rt: &R,
    errors: &E,
    session: &mut Session,
    file: &'a str,
) -> Result<u8, ProgramFault<'a>>
where
    R: Files + AllocGlobal,
    E: Print,
    ensures { IsOpenedAndLoaded R.File.remaining file.entry session.old result session.new }
{
    let opened = open_file(rt, file)?;
    load_from(rt, errors, session, file, opened)
}
