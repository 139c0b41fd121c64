//! Why a file is no file of cases, and why the program stops.
use std::alloc::{AllocError, AllocFailed};
use std::io;
use thiserror::Error;

/// Why a line of a file, or its end, is refused.
#[derive(Clone, Copy, Debug, PartialEq, Eq, Drop, Error)]
pub(crate) enum Fault {
    #[error("no memory")]
    NoMemory,
    #[error("a line of no kind")]
    UnknownLine,
    #[error("the last line has no newline")]
    OpenLine,
    #[error("the file has no case")]
    NoCase,
    #[error("a line that stands in no case")]
    OutsideOfCase,
    #[error("a case without a name")]
    NoName,
    #[error("a name that another case of the file has")]
    SameName,
    #[error("a case without a session or a restore")]
    NoRun,
    #[error("a line that stands in no session or restore")]
    OutsideOfRun,
    #[error("a session or restore without its status")]
    NoStatus,
    #[error("a session or restore without input: write `no input` where it has none")]
    NoInput,
    #[error("a session or restore without output: write `no output` where it has none")]
    NoOutput,
    #[error("lines, where there are to be none or no more")]
    Closed,
    #[error("an option of a restore that there is not, or that stands twice")]
    BadOption,
    #[error("a status that is no number up to 255")]
    BadStatus,
    #[error("after `>` and `<` there is a blank or a backslash with a blank, or nothing")]
    BadMark,
    #[error("after a backslash there is a backslash, xNN or {{..}}")]
    BadEscape,
    #[error("in braces there is the name of a number, with + or - a number, or `N of TEXT`")]
    BadFilling,
    #[error("`repeat N times` or `repeat NAME from N to N`, the first no greater than the last")]
    BadRepeat,
    #[error("an end without its repeat")]
    NoRepeat,
    #[error("a repeat without its end")]
    OpenRepeat,
    #[error("more lines than a file may stand for")]
    TooLong,
}

impl From<AllocError> for Fault {
    fn from(_error: AllocError) -> Self {
        Fault::NoMemory
    }
}

impl<T: Drop> From<AllocFailed<T>> for Fault {
    fn from(_error: AllocFailed<T>) -> Self {
        Fault::NoMemory
    }
}

/// The line at which a file is refused, counted from 1, and why.
#[derive(Clone, Copy, Debug, PartialEq, Eq, Drop)]
pub(crate) struct Misread {
    pub(crate) line: usize,
    pub(crate) fault: Fault,
}

/// Why the program stops before its end.
#[derive(Clone, Copy, Debug, PartialEq, Eq, Drop, Error)]
pub(crate) enum Trouble {
    #[error("no memory")]
    NoMemory,
    #[error("the folder cannot be listed")]
    NoFolder,
    #[error("there is no file of cases")]
    NoFile,
    #[error("the words of the program's line cannot be read")]
    NoWords,
    #[error("the output cannot be written")]
    NoOutput,
}

impl From<AllocError> for Trouble {
    fn from(_error: AllocError) -> Self {
        Trouble::NoMemory
    }
}

impl<T: Drop> From<AllocFailed<T>> for Trouble {
    fn from(_error: AllocFailed<T>) -> Self {
        Trouble::NoMemory
    }
}

impl From<io::Error> for Trouble {
    fn from(_error: io::Error) -> Self {
        Trouble::NoOutput
    }
}
