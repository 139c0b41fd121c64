//! Cases, and how one is put together line by line.
use crate::fault::Fault;
use crate::side::Side;
use std::alloc::Global;
use std::mem;

/// How a restore is done, and whether the listing is written after it.
#[derive(Clone, Copy, PartialEq, Eq, Drop)]
pub(crate) struct Mode {
    pub(crate) noflush: bool,
    pub(crate) test: bool,
    pub(crate) list: bool,
}

/// How a session is called.
#[derive(Clone, Copy, PartialEq, Eq, Drop)]
pub(crate) enum Call {
    Session,
    Restore(Mode),
}

/// One call of a session: its input, and the output and the status that are expected.
#[derive(Drop)]
pub(crate) struct Run {
    pub(crate) call: Call,
    pub(crate) input: Vec<u8>,
    pub(crate) output: Vec<u8>,
    pub(crate) status: u8,
}

/// Calls of one session, one after another, under a name.
#[derive(Drop)]
pub(crate) struct Case {
    pub(crate) name: String,
    pub(crate) runs: Vec<Run>,
}

impl Case {
    /// A case without a run.
    pub(crate) fn new(alloc: Global, name: &str) -> Result<Case, Fault> {
        if name.is_empty() {
            return Err(Fault::NoName);
        }
        Ok(Case {
            name: String::from_str(alloc, name)?,
            runs: Vec::new(alloc),
        })
    }
}

/// A call whose status isn't read yet.
#[derive(Drop)]
pub(crate) struct OpenRun {
    call: Call,
    pub(crate) input: Side,
    pub(crate) output: Side,
}

impl OpenRun {
    /// A call of which neither input nor output was said.
    pub(crate) fn new(alloc: Global, call: Call) -> OpenRun {
        OpenRun {
            call,
            input: Side::new(alloc),
            output: Side::new(alloc),
        }
    }

    /// The whole call, where its input and its output were said.
    pub(crate) fn end(self, status: u8) -> Result<Run, Fault> {
        let OpenRun {
            call,
            input,
            output,
        } = self;
        Ok(Run {
            call,
            input: input.into_bytes().ok_or(Fault::NoInput)?,
            output: output.into_bytes().ok_or(Fault::NoOutput)?,
            status,
        })
    }
}

/// The cases that were read so far, of which the last may be open.
#[derive(Drop)]
pub(crate) struct Cases {
    alloc: Global,
    whole: Vec<Case>,
    case: Option<Case>,
    run: Option<OpenRun>,
}

impl Cases {
    /// None yet.
    pub(crate) fn new(alloc: Global) -> Cases {
        Cases {
            alloc,
            whole: Vec::new(alloc),
            case: None,
            run: None,
        }
    }

    /// Ends the case before, and begins one of a name that none has.
    pub(crate) fn begin_case(&mut self, name: &str) -> Result<(), Fault> {
        self.end_case()?;
        if self.whole.iter().any(|case| case.name.as_str() == name) {
            return Err(Fault::SameName);
        }
        self.case = Some(Case::new(self.alloc, name)?);
        Ok(())
    }

    // Puts the open case to the others.
    fn end_case(&mut self) -> Result<(), Fault> {
        if self.run.is_some() {
            return Err(Fault::NoStatus);
        }
        match mem::replace(&mut self.case, None) {
            None => Ok(()),
            Some(case) if case.runs.is_empty() => Err(Fault::NoRun),
            Some(case) => Ok(self.whole.push(case)?),
        }
    }

    /// Begins a call in the open case.
    pub(crate) fn begin_run(&mut self, call: Call) -> Result<(), Fault> {
        if self.case.is_none() {
            return Err(Fault::OutsideOfCase);
        }
        if self.run.is_some() {
            return Err(Fault::NoStatus);
        }
        self.run = Some(OpenRun::new(self.alloc, call));
        Ok(())
    }

    /// The open call.
    pub(crate) fn run(&mut self) -> Result<&mut OpenRun, Fault> {
        self.run.as_mut().ok_or(Fault::OutsideOfRun)
    }

    /// Ends the open call.
    pub(crate) fn end_run(&mut self, status: u8) -> Result<(), Fault> {
        let Some(run) = mem::replace(&mut self.run, None) else {
            return Err(Fault::OutsideOfRun);
        };
        let Some(case) = self.case.as_mut() else {
            return Err(Fault::OutsideOfCase);
        };
        case.runs.push(run.end(status)?)?;
        Ok(())
    }

    /// All cases, where there is one.
    pub(crate) fn end(mut self) -> Result<Vec<Case>, Fault> {
        self.end_case()?;
        if self.whole.is_empty() {
            return Err(Fault::NoCase);
        }
        Ok(self.whole)
    }
}
