//! What words say of packets at a hook.
use crate::fault::Fault;
use fields::{FIELDS, Hook};
use notation::{PacketWord, PacketWordFault};
use questions::{Area, said};
use std::alloc::{AllocError, Global};

// Which keys words give: with `=`, and with `!=`.
#[derive(Drop)]
struct Seen {
    given: [bool; FIELDS],
    denied: [bool; FIELDS],
}

impl Seen {
    // Notes the key of a word. Whether no word gave it so before.
    fn note(&mut self, word: &PacketWord) -> bool {
        let place = word.field.index();
        if word.denies {
            let is_new = !self.denied[place];
            self.denied[place] = true;
            return is_new;
        }
        let is_new = !self.given[place];
        self.given[place] = true;
        is_new
    }
}

// What a word says.
fn said_by<'a>(alloc: Global, word: &'a str) -> Result<PacketWord, Fault<'a>> {
    match PacketWord::read(alloc, word.as_bytes()) {
        Ok(said) => Ok(said),
        Err(PacketWordFault::NoMemory) => Err(Fault::from(AllocError)),
        Err(_) => Err(Fault::BadWord(word)),
    }
}

/// Adds a word.
///
/// # Errors
///
/// `AllocError` where memory was refused.
pub(crate) fn add_word(words: &mut Vec<PacketWord>, word: PacketWord) -> Result<(), AllocError> {
    words.push(word)?;
    Ok(())
}

/// Whether some packet at a hook is in one of some boxes.
pub(crate) fn has_packets(boxes: &[Area]) -> bool {
    boxes.iter().any(|area| !area.is_empty())
}

/// Sees that some packets at a hook are as the words say; the last of these stands there.
///
/// # Errors
///
/// `NoPackets` where none is; or where memory was refused.
pub(crate) fn expect_packets<'a>(
    alloc: Global,
    hook: Hook,
    words: &[PacketWord],
    last: &'a str,
) -> Result<(), Fault<'a>> {
    if has_packets(said(alloc, hook, words)?.as_slice()) {
        return Ok(());
    }
    Err(Fault::NoPackets(last))
}

/// What words say of packets at a hook, each of a key once with `=` and once with `!=`. Some packets there are so.
#[derive(Drop)]
pub(crate) struct Saying {
    alloc: Global,
    hook: Hook,
    said: Vec<PacketWord>,
    seen: Seen,
}

impl Saying {
    /// Nothing yet.
    pub(crate) fn at(alloc: Global, hook: Hook) -> Saying {
        Saying {
            alloc,
            hook,
            said: Vec::new(alloc),
            seen: Seen {
                given: [false; FIELDS],
                denied: [false; FIELDS],
            },
        }
    }

    /// What another word says besides.
    ///
    /// # Errors
    ///
    /// `BadWord` where it says nothing, or its key was given so before; `NoPackets` where those before it leave none with it; or where memory was
    /// refused.
    pub(crate) fn take<'a>(&mut self, word: &'a str) -> Result<(), Fault<'a>> {
        let one = said_by(self.alloc, word)?;
        if !self.seen.note(&one) {
            return Err(Fault::BadWord(word));
        }
        add_word(&mut self.said, one)?;
        expect_packets(self.alloc, self.hook, self.said.as_slice(), word)
    }

    /// The words.
    pub(crate) fn into_words(self) -> Vec<PacketWord> {
        self.said
    }
}
