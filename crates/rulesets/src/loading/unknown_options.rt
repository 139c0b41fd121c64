//! The options that words of `--unknown` add.
use crate::fault::RulesetFault;
use dumps::{KnownOptions, OptionFault, OptionRefusal};
use programs::ProgramFault;
use std::alloc::Global;

// Why a word of `--unknown` adds nothing.
fn not_added<'a>(word: &'a str, fault: OptionFault) -> RulesetFault<'a> {
    match fault {
        OptionFault::NoMemory => RulesetFault::Program(ProgramFault::NoMemory),
        OptionFault::Refused(OptionRefusal::NotAnOption, _) => RulesetFault::NoMatch(word),
        OptionFault::Refused(why, _) => RulesetFault::CannotAdd(word, why),
    }
}

// Adds what a word of `--unknown` says: an option of a match, or a match alone.
fn add_unknown<'a>(known: &mut KnownOptions<'a>, word: &'a str) -> Result<(), OptionFault> {
    if word.contains(' ') {
        known.add(word.as_bytes())
    } else {
        known.add_match(word.as_bytes())
    }
}

/// The options of iptables, and those that words of `--unknown` add.
///
/// # Errors
///
/// `NoMatch` or `CannotAdd` where a word adds nothing, or where memory was refused.
pub(crate) fn known_options<'a>(
    alloc: Global,
    unknown: &[&'a str],
) -> Result<KnownOptions<'a>, RulesetFault<'a>> {
    let mut known = match KnownOptions::new(alloc) {
        Ok(known) => known,
        Err(fault) => return Err(not_added("", fault)),
    };
    for word in unknown {
        if let Err(fault) = add_unknown(&mut known, word) {
            return Err(not_added(word, fault));
        }
    }
    Ok(known)
}
