//! The files of a run, played one after another.
use crate::case::Case;
use crate::fault::{Misread, Trouble};
use crate::file::read_cases;
use crate::play::play;
use crate::report::{Count, tell_misread, tell_other};
use std::alloc::Global;
use std::rt::{Env, Files};
use std::{env, fs};

// How the name of a file of cases ends.
const ENDING: &str = ".cases";

/// Plays the files that the words name, or all of the folder, and prints what came of them: whether all is as written.
pub(crate) fn play_all<R>(rt: &R) -> Result<bool, Trouble>
where
    R: Env + Files + Print + AllocGlobal + Clone + Drop,
{
    let files = files_named(rt)?;
    if files.is_empty() {
        return Err(Trouble::NoFile);
    }
    let mut is_due = true;
    for file in files.iter() {
        is_due = play_file(rt, file.as_str())? && is_due;
    }
    Ok(is_due)
}

// The files that the words after the program's name name, or all of the folder, in their order.
fn files_named<R>(rt: &R) -> Result<Vec<String>, Trouble>
where
    R: Env + Files + AllocGlobal + Clone + Drop,
{
    let mut files = Vec::new(rt.alloc());
    let Ok(words) = env::args(rt) else {
        return Err(Trouble::NoWords);
    };
    for word in words.skip(1) {
        files.push(word)?;
    }
    if files.is_empty() {
        return files_of_folder(rt);
    }
    Ok(files)
}

// All files of the folder, in the order of their names.
fn files_of_folder<R>(rt: &R) -> Result<Vec<String>, Trouble>
where
    R: Files + AllocGlobal + Clone + Drop,
{
    let mut files = Vec::new(rt.alloc());
    let Ok(entries) = fs::read_dir(rt, ".") else {
        return Err(Trouble::NoFolder);
    };
    for entry in entries {
        let Ok(entry) = entry else {
            return Err(Trouble::NoFolder);
        };
        files.push(String::from_str(rt.alloc(), entry.file_name())?)?;
    }
    files.sort()?;
    Ok(files)
}

// Plays a file, and prints what came of it: whether all is as written.
fn play_file<R>(rt: &R, file: &str) -> Result<bool, Trouble>
where
    R: Files + Print + AllocGlobal,
{
    if !file.ends_with(ENDING) {
        println!(rt; "{file}: its name does not end in {ENDING}")?;
        return Ok(false);
    }
    let Ok(text) = fs::read_to_string(rt, file) else {
        println!(rt; "{file}: it cannot be read as text")?;
        return Ok(false);
    };
    match read_cases(rt.alloc(), text.as_str()) {
        Ok(cases) => play_cases(rt, rt.alloc(), file, &cases),
        Err(misread) => refuse(rt, file, misread),
    }
}

// Prints why a file is no file of cases.
fn refuse(rt: &impl Print, file: &str, misread: Misread) -> Result<bool, Trouble> {
    tell_misread(rt, file, misread)?;
    Ok(false)
}

// Plays cases, and prints those that came out otherwise, and how many did not.
fn play_cases(rt: &impl Print, alloc: Global, file: &str, cases: &[Case]) -> Result<bool, Trouble> {
    let mut count = Count::new();
    for case in cases {
        let other = play(alloc, case)?;
        if let Some(other) = &other {
            tell_other(rt, alloc, file, case, other)?;
        }
        count.note(other.is_none());
    }
    count.tell(rt, file)?;
    Ok(count.failed == 0)
}
