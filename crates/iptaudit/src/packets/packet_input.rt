//! Packets on the lines of an input. A line is refused with the codes and texts of a session.
use crate::fault::Fault;
use fields::{LineEnd, PacketFault, Tap, WordFault, Words};
use programs::ProgramFault;
use questions::WrittenPacket;
use restore::is_quiet;
use rulesets::Line;
use std::alloc::{AllocError, Global};
use std::io::BufRead;

/// What is done with the packets of an input, one after another.
pub(crate) trait TakesPackets {
    /// Takes the packet of the line of a number, which has these bytes.
    ///
    /// # Errors
    ///
    /// `AllocError` where memory was refused.
    fn take(&mut self, number: u64, line: &[u8], packet: WrittenPacket) -> Result<(), AllocError>;
}

// Why a line has no packet.
#[derive(Clone, Copy)]
enum Refusal {
    UnknownLine,
    Quoting,
    TooLong,
    Packet(PacketFault),
}

impl Refusal {
    // The code and the text that a session has for it.
    fn text(self) -> &'static str {
        match self {
            Refusal::UnknownLine => "S1 unknown line",
            Refusal::Quoting => "R5 bad quoting",
            Refusal::TooLong => "R6 line too long",
            Refusal::Packet(PacketFault::UnknownKey) => "F1 unknown key",
            Refusal::Packet(PacketFault::KeyMissing) => "F2 key missing",
            Refusal::Packet(PacketFault::BadValue) => "F3 bad packet value",
            Refusal::Packet(PacketFault::NotCarried) => "F4 field not carried",
        }
    }
}

// What stands on a line.
#[derive(Drop)]
enum Content {
    // Nothing, or a comment.
    Quiet,
    Packet(WrittenPacket),
    Refused(Refusal),
}

// What the words of a line say.
fn content_of(words: &Words) -> Content {
    if words.is_empty() || words.get(0) != b"packet".as_slice() {
        return Content::Refused(Refusal::UnknownLine);
    }
    match WrittenPacket::read(words, 1) {
        Ok(packet) => Content::Packet(packet),
        Err(fault) => Content::Refused(Refusal::Packet(fault)),
    }
}

// What stands on a line, of which no more than its beginning is held where it is too long.
fn read_content(alloc: Global, line: &[u8], too_long: bool) -> Result<Content, AllocError> {
    if too_long {
        return Ok(Content::Refused(Refusal::TooLong));
    }
    if is_quiet(line) {
        return Ok(Content::Quiet);
    }
    match Words::split(alloc, line) {
        Ok(words) => Ok(content_of(&words)),
        Err(WordFault::Quoting) => Ok(Content::Refused(Refusal::Quoting)),
        Err(WordFault::NoMemory) => Err(AllocError),
    }
}

// Takes what stands on a line. Tells whether it is what may stand there; else its fault goes to `errors`. A fault that cannot be written
// is given up.
fn take_line<E: Print, T: TakesPackets>(
    number: u64,
    line: &[u8],
    content: Content,
    errors: &E,
    taker: &mut T,
) -> Result<bool, AllocError> {
    match content {
        Content::Quiet => Ok(true),
        Content::Packet(packet) => {
            taker.take(number, line, packet)?;
            Ok(true)
        }
        Content::Refused(refusal) => {
            let text = refusal.text();
            let _ = println!(errors; "line {number}: {text}");
            Ok(false)
        }
    }
}

/// Takes the packets on the lines of an input, to its end. Blank lines and comments may stand between them. Answers whether
/// nothing else does; each other line is a fault, `line N: CODE text`, which goes to `errors`.
///
/// # Errors
///
/// Where memory was refused, or the input failed.
pub(crate) fn take_packets<'a, R: BufRead, E: Print, T: TakesPackets>(
    alloc: Global,
    input: &mut Tap<R>,
    errors: &E,
    taker: &mut T,
) -> Result<bool, Fault<'a>> {
    let mut line = Line::new(alloc)?;
    let mut all_taken = true;
    for number in 1..u64::MAX {
        let read = match line.read_from(input) {
            Ok(read) => read,
            Err(_) => return Err(Fault::Program(ProgramFault::InputFailed)),
        };
        if read.end == LineEnd::Nothing {
            break;
        }
        let content = read_content(alloc, line.bytes(), read.too_long)?;
        if !take_line(number, line.bytes(), content, errors, taker)? {
            all_taken = false;
        }
    }
    Ok(all_taken)
}
