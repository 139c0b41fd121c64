//! Text that is written with backslashes: `\\`, `\xNN`, and in braces a number of a repeat or a text many times.
use crate::fault::Fault;
use crate::line::number_of;
use crate::rounds::Rounds;

// How often a text may stand.
const MOST: u64 = 1_000_000;

/// Puts the bytes that a text stands for.
pub(crate) fn push_written(
    bytes: &mut Vec<u8>,
    rounds: &Rounds<'_>,
    text: &str,
) -> Result<(), Fault> {
    let mut rest = text;
    for _ in 0..u64::MAX {
        let Some((before, after)) = rest.split_once('\\') else {
            break;
        };
        bytes.extend_from_slice(before.as_bytes())?;
        rest = match after.strip_prefix('{') {
            Some(filling) => push_filling(bytes, rounds, filling)?,
            None => push_escape(bytes, after)?,
        };
    }
    bytes.extend_from_slice(rest.as_bytes())?;
    Ok(())
}

// Puts the byte that stands after a backslash, and answers what stands after it.
fn push_escape<'a>(bytes: &mut Vec<u8>, after: &'a str) -> Result<&'a str, Fault> {
    if let Some(rest) = after.strip_prefix('\\') {
        bytes.push(b'\\')?;
        return Ok(rest);
    }
    let digits = after.strip_prefix('x').ok_or(Fault::BadEscape)?;
    let (digits, rest) = digits.split_at_checked(2).ok_or(Fault::BadEscape)?;
    bytes.push(byte_of(digits).ok_or(Fault::BadEscape)?)?;
    Ok(rest)
}

// The byte of two digits to the base 16.
fn byte_of(digits: &str) -> Option<u8> {
    if digits.bytes().any(|byte| !byte.is_ascii_hexdigit()) {
        return None;
    }
    u8::from_str_radix(digits, 16).ok()
}

// Puts what stands in braces, and answers what stands after them.
fn push_filling<'a>(
    bytes: &mut Vec<u8>,
    rounds: &Rounds<'_>,
    text: &'a str,
) -> Result<&'a str, Fault> {
    let (filling, rest) = text.split_once('}').ok_or(Fault::BadFilling)?;
    match filling.split_once(" of ") {
        Some((count, part)) => push_times(bytes, count, part)?,
        None => push_number(bytes, rounds, filling)?,
    }
    Ok(rest)
}

// Puts a text, in which a byte may be written as `\xNN`, so many times.
fn push_times(bytes: &mut Vec<u8>, count: &str, part: &str) -> Result<(), Fault> {
    let count = number_of(count).ok_or(Fault::BadFilling)?;
    if count > MOST {
        return Err(Fault::TooLong);
    }
    for _ in 0..count {
        push_part(bytes, part)?;
    }
    Ok(())
}

// Puts a text in which a byte may be written as `\xNN`.
fn push_part(bytes: &mut Vec<u8>, part: &str) -> Result<(), Fault> {
    let mut rest = part;
    for _ in 0..u64::MAX {
        let Some((before, after)) = rest.split_once('\\') else {
            break;
        };
        bytes.extend_from_slice(before.as_bytes())?;
        rest = push_escape(bytes, after)?;
    }
    bytes.extend_from_slice(rest.as_bytes())?;
    Ok(())
}

// Puts the number of a repeat, or one that is so much greater or less.
fn push_number(bytes: &mut Vec<u8>, rounds: &Rounds<'_>, filling: &str) -> Result<(), Fault> {
    let (number, width) = filled(rounds, filling).ok_or(Fault::BadFilling)?;
    let digits = format!(in *bytes.allocator(); "{number}")?;
    for _ in digits.len()..width {
        bytes.push(b'0')?;
    }
    bytes.extend_from_slice(digits.as_bytes())?;
    Ok(())
}

// The number that is meant, and how many digits it is to have at least.
fn filled(rounds: &Rounds<'_>, filling: &str) -> Option<(u64, usize)> {
    if let Some((name, step)) = filling.split_once('+') {
        let (number, width) = rounds.number(name)?;
        return Some((number.checked_add(number_of(step)?)?, width));
    }
    if let Some((name, step)) = filling.split_once('-') {
        let (number, width) = rounds.number(name)?;
        return Some((number.checked_sub(number_of(step)?)?, width));
    }
    rounds.number(filling)
}
