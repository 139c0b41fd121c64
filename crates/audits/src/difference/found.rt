//! What was found of two dumps: at each hook, and of the rules that only one of them has.
use crate::each_rule::tally::{Tally, status};
use crate::walking::walk::Walk;
use fields::{Hook, Words};
use questions::Need;
use rulesets::{Dump, OpenConditions, TwoVerdicts};

/// Two dumps.
#[derive(Clone, Copy)]
pub struct Pair<'a> {
    /// The old one.
    pub old: &'a Dump,
    /// The new one.
    pub new: &'a Dump,
    /// The conditions of both.
    pub open: &'a OpenConditions,
    /// The verdicts of their own in both.
    pub verdicts: &'a TwoVerdicts,
}

/// A packet that gets two verdicts where some answers are right, and its walk in each table, if that is known.
#[derive(Drop)]
pub struct Differing {
    /// The words of the packet.
    pub words: Words,
    /// The answers.
    pub given: Vec<Need>,
    /// Its walk in the old table.
    pub old: Option<Walk>,
    /// Its walk in the new table.
    pub new: Option<Walk>,
}

/// What is known of two tables at a hook.
#[derive(Drop)]
pub enum HookAnswer {
    /// Each packet gets the same verdict in both.
    Same,
    /// This packet gets two.
    Differ(Differing),
    /// It isn't known.
    Unclear,
}

/// What is known of the packets at a hook.
#[derive(Drop)]
pub struct HookLikeness {
    /// The hook.
    pub hook: Hook,
    /// What is known.
    pub answer: HookAnswer,
}

/// What is known of the packets at each hook, and how many changed rules there are of each kind.
#[derive(Drop)]
pub struct Difference {
    /// What is known at each hook.
    pub hooks: Vec<HookLikeness>,
    /// How many rules of each kind only one of the dumps has.
    pub tally: Tally,
}

impl Difference {
    /// The status: 1 where some packet gets two verdicts, else 3 where it isn't known at some hook, else 0.
    pub fn status(&self) -> u8 {
        let (mut differ, mut unclear) = (false, false);
        for entry in self.hooks.as_slice() {
            match entry.answer {
                HookAnswer::Same => {}
                HookAnswer::Differ(_) => differ = true,
                HookAnswer::Unclear => unclear = true,
            }
        }
        status(differ, unclear)
    }

    /// Whether an answer `same` hangs on the premise that a condition of a place answers the same each time that one packet asks it, and in
    /// both files.
    pub fn has_premise(&self, open: &OpenConditions) -> bool {
        for entry in self.hooks.as_slice() {
            if matches!(entry.answer, HookAnswer::Same) {
                return open.has_places();
            }
        }
        false
    }
}
