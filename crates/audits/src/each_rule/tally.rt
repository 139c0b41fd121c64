//! How many rules there are of each kind, and the statuses.
use crate::each_rule::deciding::Standing;
use crate::each_rule::known::Known;
use questions::Need;

/// How many rules there are of each kind.
#[derive(Drop)]
pub struct Tally {
    /// Those that match a packet that was given.
    pub covered: usize,
    /// Those of these that do so under some answers alone.
    pub covered_if: usize,
    /// Those of the others that can match.
    pub live: usize,
    /// Those that can't.
    pub dead: usize,
    /// Those of which it isn't known.
    pub unclear: usize,
    /// Those of the dead ones that are redundant.
    pub redundant: usize,
    /// Those of the dead ones that are shadowed.
    pub shadowed: usize,
}

impl Tally {
    /// Before the first rule.
    pub(crate) fn new() -> Tally {
        Tally {
            covered: 0,
            covered_if: 0,
            live: 0,
            dead: 0,
            unclear: 0,
            redundant: 0,
            shadowed: 0,
        }
    }

    /// Counts a rule by what is known of it, and by what it is beside those who decide its packets, if that is known.
    pub(crate) fn note(&mut self, known: &Known, standing: Option<Standing>) {
        match known {
            Known::Covered(given) => self.note_covered(given.as_slice()),
            Known::Live(_, _) => self.live = self.live.saturating_add(1),
            Known::Dead(_) | Known::Unmet => self.dead = self.dead.saturating_add(1),
            Known::Unclear => self.unclear = self.unclear.saturating_add(1),
        }
        match standing {
            Some(Standing::Redundant) => self.redundant = self.redundant.saturating_add(1),
            Some(Standing::Shadowed) => self.shadowed = self.shadowed.saturating_add(1),
            None => {}
        }
    }

    // Counts a rule that matches a packet that was given, where these answers are right.
    fn note_covered(&mut self, given: &[Need]) {
        self.covered = self.covered.saturating_add(1);
        if !given.is_empty() {
            self.covered_if = self.covered_if.saturating_add(1);
        }
    }

    /// How many rules there are.
    pub fn rules(&self) -> usize {
        self.covered
            .saturating_add(self.live)
            .saturating_add(self.dead)
            .saturating_add(self.unclear)
    }

    /// 1 where a rule is dead, else 3 where it isn't known of some, else 0.
    pub(crate) fn status(&self) -> u8 {
        status(self.dead > 0, self.unclear > 0)
    }

    /// 1 where a rule can match and no packet that was given shows it, else 3 where it isn't known of some, or where the walks of these packets
    /// aren't known, else 0.
    pub(crate) fn coverage_status(&self, are_known: bool) -> u8 {
        status(self.live > 0, self.unclear > 0 || !are_known)
    }
}

/// The status of an answer: something was found, or it isn't known whether there is more.
pub(crate) fn status(is_found: bool, is_unclear: bool) -> u8 {
    if is_found {
        1
    } else if is_unclear {
        3
    } else {
        0
    }
}
