//! The packets that a claim is about.
use crate::fault::Fault;
use crate::packets::packet_words::{Saying, add_word, has_packets};
use fields::Hook;
use notation::PacketWord;
use questions::{Area, GivenPackets, said};
use std::alloc::{AllocError, Global};

// What words say of packets at a hook.
fn all_said<'a>(
    alloc: Global,
    hook: Hook,
    words: &[&'a str],
) -> Result<Vec<PacketWord>, Fault<'a>> {
    let mut saying = Saying::at(alloc, hook);
    for word in words {
        saying.take(word)?;
    }
    Ok(saying.into_words())
}

/// The packets at a hook of which all words hold.
///
/// # Errors
///
/// Those of `Saying::take`.
pub(crate) fn packets_of<'a>(
    alloc: Global,
    hook: Hook,
    words: &[&'a str],
) -> Result<GivenPackets, Fault<'a>> {
    let words = all_said(alloc, hook, words)?;
    let boxes = said(alloc, hook, words.as_slice())?;
    Ok(GivenPackets { hook, boxes })
}

// The word that denies what another one says.
fn opposite(word: PacketWord) -> PacketWord {
    let mut word = word;
    word.denies = !word.denies;
    word
}

// Adds boxes to others.
fn add_boxes(boxes: &mut Vec<Area>, more: Vec<Area>) -> Result<(), AllocError> {
    for area in more {
        boxes.push(area)?;
    }
    Ok(())
}

// The packets at a hook of which some words hold, and of those that are excepted not all: for each of these words, the packets of which those before
// it hold, and it doesn't. So no packet is in two boxes.
fn parted(
    alloc: Global,
    hook: Hook,
    words: Vec<PacketWord>,
    excepted: Vec<PacketWord>,
) -> Result<Vec<Area>, AllocError> {
    let mut held = words;
    let mut boxes = Vec::new(alloc);
    for word in excepted {
        add_word(&mut held, opposite(word))?;
        add_boxes(&mut boxes, said(alloc, hook, held.as_slice())?)?;
        if let Some(denied) = held.pop() {
            add_word(&mut held, opposite(denied))?;
        }
    }
    Ok(boxes)
}

/// The packets at a hook of which all words hold, but for those of which all that are excepted hold; the last of these stands there.
///
/// # Errors
///
/// Those of `Saying::take`, of the words and of those that are excepted; `NoPackets` where none is left; or where memory was refused.
pub(crate) fn packets_but<'a>(
    alloc: Global,
    hook: Hook,
    words: &[&'a str],
    excepted: &[&'a str],
    last: &'a str,
) -> Result<GivenPackets, Fault<'a>> {
    let words = all_said(alloc, hook, words)?;
    let excepted = all_said(alloc, hook, excepted)?;
    let boxes = parted(alloc, hook, words, excepted)?;
    if has_packets(boxes.as_slice()) {
        return Ok(GivenPackets { hook, boxes });
    }
    Err(Fault::NoPackets(last))
}
