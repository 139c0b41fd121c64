//! Verdicts of their own: those of targets that the program doesn't read, as NFQUEUE (iptables-extensions(8)). In the table such a rule drops.
pub(crate) mod accepted;
pub(crate) mod replaced;
pub(crate) mod stand_ins;

use crate::dump::rule_at;
use crate::text::bytes_of;
use dumps::Foreign;
use fields::Tap;
use rules::{Rule, write_rule};
use std::alloc::{AllocError, Global};
use table::{Step, Table, Verdict};

/// A rule with a verdict of its own.
#[derive(Drop)]
pub struct OwnVerdict {
    /// The words of its target: `NFQUEUE --queue-num 0`.
    pub words: Vec<u8>,
    /// What stands before its target in a listing: ` -p tcp`.
    pub before: Vec<u8>,
}

/// What becomes of a packet.
#[derive(Clone, Copy, PartialEq, Eq)]
pub enum GivenVerdict<'a> {
    /// A verdict that the program reads.
    Read(Verdict),
    /// A target's own, by its words.
    Own(&'a [u8]),
}

/// The verdicts of their own of a table's rules, chain by chain.
#[derive(Drop)]
pub(crate) struct OwnVerdicts {
    chains: Vec<Vec<Option<OwnVerdict>>>,
}

// What stands before the target of a rule that drops.
fn before_target(alloc: Global, rule: &Rule) -> Result<Vec<u8>, AllocError> {
    let mut line = Tap::new(Vec::new(alloc));
    let _ = write_rule(rule, &mut line);
    let text = bytes_of(line)?;
    match text.as_slice().strip_suffix(b" -j DROP".as_slice()) {
        Some(before) => before.to_vec(alloc),
        None => Ok(text),
    }
}

// The rule that stands there with this verdict of its own, if it has one.
fn own_verdict(
    alloc: Global,
    table: &Table,
    at: Step,
    words: Option<&[u8]>,
) -> Result<Option<OwnVerdict>, AllocError> {
    let (Some(words), Some(rule)) = (words, rule_at(table, at)) else {
        return Ok(None);
    };
    Ok(Some(OwnVerdict {
        words: words.to_vec(alloc)?,
        before: before_target(alloc, rule)?,
    }))
}

// The verdicts of their own of the rules of a chain, which are those that were read; none where no rule has one.
fn own_verdicts_of(
    alloc: Global,
    table: &Table,
    chain: usize,
    read: &[Option<&[u8]>],
) -> Result<Vec<Option<OwnVerdict>>, AllocError> {
    let mut rules = Vec::new(alloc);
    if read.iter().all(|words| words.is_none()) {
        return Ok(rules);
    }
    for (passed, words) in read.iter().enumerate() {
        let number = passed.saturating_add(1);
        rules.push(own_verdict(alloc, table, Step { chain, number }, *words)?)?;
    }
    Ok(rules)
}

impl OwnVerdicts {
    /// Those of a table, whose rules are those that were read.
    ///
    /// # Errors
    ///
    /// `AllocError` where memory was refused.
    pub(crate) fn of(
        alloc: Global,
        table: &Table,
        foreign: &Foreign,
    ) -> Result<OwnVerdicts, AllocError> {
        let mut chains = Vec::new(alloc);
        if foreign.is_empty() {
            return Ok(OwnVerdicts { chains });
        }
        for place in 0..table.chain_count() {
            let read = foreign.verdicts_of_chain(alloc, table.chain_name(place))?;
            chains.push(own_verdicts_of(alloc, table, place, read.as_slice())?)?;
        }
        Ok(OwnVerdicts { chains })
    }

    /// Whether no rule has one.
    pub(crate) fn is_empty(&self) -> bool {
        self.chains.iter().all(|rules| rules.is_empty())
    }

    /// The rule, if its verdict is its own.
    pub(crate) fn at(&self, at: Step) -> Option<&OwnVerdict> {
        let rules = self.chains.get(at.chain)?;
        rules.get(at.number.checked_sub(1)?)?.as_ref()
    }
}
