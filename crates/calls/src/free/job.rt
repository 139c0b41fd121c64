//! What an input asks for: a case and how often. After its calls the program counts how often memory can be taken.
ghost use Rattle.std.specs.Prelude.{◌≤◌};

use crate::free::case::Case;
use fields::read_number;
use std::alloc::Global;
use std::io::Read;

/// How often memory is asked for at most, after the calls.
const MOST: u32 = 1_000_000;

/// How often memory can be taken before it is refused: none where it isn't.
fn left(alloc: Global) -> Option<u32> {
    for count in 0..MOST {
        let mut taken = Vec::new(alloc);
        if taken.push(0u8).is_err() {
            return Some(count);
        }
    }
    None
}

/// The bytes of a reader, as many as there is room for: how many there are.
fn read_all<R: Read>(input: &mut R, bytes: &mut [u8; 64]) -> usize
    ensures { result ≤ 64 }
{
    for place in 0..64usize {
        let mut byte = [0u8];
        match input.read(&mut byte) {
            Ok(1) => bytes[place] = byte[0],
            _ => return place,
        }
    }
    64
}

/// What a line asks for: a case and how often.
fn job_of(line: &[u8]) -> Option<(Case, u32)> {
    let blank = line.iter().position(|byte| *byte == b' ')?;
    let (name, times) = (&line[..blank], &line[blank + 1..]);
    for case in Case::ALL {
        if case.name().as_bytes() == name {
            return Some((case, read_number(times)?));
        }
    }
    None
}

/// Makes the calls of a case, and prints how often memory could be taken afterwards.
fn print_run<R: Print + AllocGlobal>(rt: &R, case: Case, times: u32) {
    let name = case.name();
    let _ = match case.run(rt.alloc(), times) {
        Err(trouble) => println!(rt; "{name}: {trouble}"),
        Ok(()) => match left(rt.alloc()) {
            Some(count) => println!(rt; "{name}: {count} left"),
            None => println!(rt; "{name}: none refused"),
        },
    };
}

/// Prints the names of the cases.
fn print_cases<R: Print>(rt: &R) {
    for case in Case::ALL {
        let name = case.name();
        let _ = println!(rt; "{name}");
    }
}

/// Does what the input asks for: prints the cases where it is empty.
pub fn done<R: Print + AllocGlobal, I: Read>(rt: &R, input: &mut I) {
    let mut bytes = [0; 64];
    let length = read_all(input, &mut bytes);
    if length == 0 {
        print_cases(rt);
        return;
    }
    match job_of(&bytes[..length]) {
        Some((case, times)) => print_run(rt, case, times),
        None => {
            let _ = println!(rt; "no such case");
        }
    }
}
