//! The rows of the table as they are kept, with their words in one place.
ghost use Rattle.std.specs.Prelude.{length};
ghost use Rattle.dumps.specs.Kept.{AreWithin};

use crate::options::row::{Kind, Role};
use std::alloc::Global;

// Some of the words of all rows: the places of the first and of the one after the last.
#[derive(Clone, Copy)]
pub(crate) struct Span {
    pub(crate) from: usize,
    pub(crate) to: usize,
}

pub(crate) const NO_WORDS: Span = Span { from: 0, to: 0 };

// An option, with its spellings.
#[derive(Clone, Copy)]
pub(crate) struct KeptOption<'a> {
    pub(crate) owner: &'a [u8],
    pub(crate) names: Span,
    pub(crate) values: usize,
    pub(crate) role: Role,
}

// A match or a target.
#[derive(Clone, Copy)]
pub(crate) struct KeptExtension<'a> {
    pub(crate) name: &'a [u8],
    pub(crate) kind: Kind,
    pub(crate) protocols: Span,
    pub(crate) sets: Span,
}

/// Options, matches and targets: those of iptables, and others that were added.
#[derive(Drop)]
pub struct KnownOptions<'a> {
    pub(crate) alloc: Global,
    pub(crate) words: Vec<&'a [u8]>,
    pub(crate) options: Vec<KeptOption<'a>>,
    pub(crate) extensions: Vec<KeptExtension<'a>>,
    ghost within: { AreWithin (length words.items) options.items extensions.items },
}
