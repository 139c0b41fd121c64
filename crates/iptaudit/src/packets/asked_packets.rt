//! The packets that the words of `reach` say, and the field by which their numbers are grouped.
ghost use Rattle.std.specs.Prelude.{◌≡◌};

use crate::fault::Fault;
use crate::packets::packet_words::{Saying, add_word, expect_packets};
use fields::{Field, Hook, Spans, cut_at};
use notation::PacketWord;
use questions::{GivenPackets, said};
use std::alloc::Global;

/// Some packets, and a field.
#[derive(Drop)]
pub(crate) struct Asked {
    /// The packets.
    pub(crate) given: GivenPackets,
    /// The field.
    pub(crate) field: Field,
}

// The field of a key.
fn field_named(name: &[u8]) -> Option<Field> {
    for field in Field::ALL {
        if field.name() == name {
            return Some(field);
        }
    }
    None
}

// The field after `by=`, where a word has it.
fn field_by<'a>(word: &'a str) -> Result<Option<Field>, Fault<'a>> {
    match cut_at(word.as_bytes(), b'=') {
        Some((b"by", name)) => match field_named(name) {
            Some(field) => Ok(Some(field)),
            None => Err(Fault::BadWord(word)),
        },
        _ => Ok(None),
    }
}

// The field that the one word `by=FIELD` names, and that word.
fn asked_field<'a>(words: &[&'a str]) -> Result<(Field, &'a str), Fault<'a>> {
    let mut asked = None;
    for word in words {
        if let Some(field) = field_by(word)? {
            if asked.is_some() {
                return Err(Fault::BadWord(word));
            }
            asked = Some((field, *word));
        }
    }
    match asked {
        Some(asked) => Ok(asked),
        None => Err(Fault::NoField),
    }
}

// What all words but `by=FIELD` say, each of a key once with `=` and once with `!=`. Some packets at a hook are so.
fn all_said<'a>(
    alloc: Global,
    hook: Hook,
    words: &[&'a str],
) -> Result<Vec<PacketWord>, Fault<'a>> {
    let mut saying = Saying::at(alloc, hook);
    for word in words {
        if field_by(word)?.is_none() {
            saying.take(word)?;
        }
    }
    Ok(saying.into_words())
}

// The word that a packet carries a key.
fn carries<'a>(alloc: Global, field: Field) -> Result<PacketWord, Fault<'a>> {
    Ok(PacketWord {
        field,
        denies: false,
        numbers: Spans::whole(alloc, field.top())?,
    })
}

impl Asked {
    /// The question that words ask: a hook, then words of packets (`PacketWord`) and `by=FIELD` in any order.
    ///
    /// # Errors
    ///
    /// `NoHook`, `BadWord` and `NoField` by the first word at fault, or where `by=FIELD` is missing; `NoPackets` for the first word with which
    /// those before it leave no packet at the hook, or for `by=FIELD` where none of them carries the field; or where memory was refused.
    pub(crate) fn read<'a>(alloc: Global, words: &[&'a str]) -> Result<Asked, Fault<'a>> {
        let Some((first, words)) = words.split_first() else {
            return Err(Fault::NoField);
        };
        let Some(hook) = Hook::read(first.as_bytes()) else {
            return Err(Fault::NoHook(first));
        };
        let (field, by) = asked_field(words)?;
        let mut wanted = all_said(alloc, hook, words)?;
        let boxes = said(alloc, hook, wanted.as_slice())?;
        add_word(&mut wanted, carries(alloc, field)?)?;
        expect_packets(alloc, hook, wanted.as_slice(), by)?;
        Ok(Asked {
            given: GivenPackets { hook, boxes },
            field,
        })
    }
}
