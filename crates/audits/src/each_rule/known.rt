//! What is known of the rules of a dump.
use crate::each_rule::deciding::{Standing, standing_of};
use crate::each_rule::tally::Tally;
use crate::marking::marks::Marks;
use fields::Words;
use questions::{Need, Reason};
use rulesets::{Dump, OpenConditions};
use table::Step;

/// What is asked of the rules.
#[derive(Clone, Copy)]
pub enum Form<'a> {
    /// Which no packet can match, and why.
    Dead,
    /// A packet for each.
    Tests,
    /// Which match none of some packets, by the marks that these left.
    Cover(&'a Marks),
}

impl Form<'_> {
    /// The status of an answer: 0, 1 or 3.
    pub fn status(self, tally: &Tally) -> u8 {
        match self {
            Form::Dead | Form::Tests => tally.status(),
            Form::Cover(marks) => tally.coverage_status(marks.unclear_lines().is_empty()),
        }
    }
}

/// What is asked, and by which conditions answers are shown.
#[derive(Clone, Copy)]
pub struct Inquiry<'a> {
    /// What is asked.
    pub form: Form<'a>,
    /// Of whose rules.
    pub dump: &'a Dump,
    /// The conditions of the dump.
    pub open: &'a OpenConditions,
}

/// What is known of a rule.
#[derive(Drop)]
pub enum Known {
    /// It matches a packet that was given, where these answers are right; there are none where it does whichever are.
    Covered(Vec<Need>),
    /// It matches the packet that these words write, where these answers are right.
    Live(Words, Vec<Need>),
    /// It matches none; and why, if that is known and was asked.
    Dead(Option<Reason>),
    /// It matches none, since no answers meet what it needs.
    Unmet,
    /// Whether it matches any isn't known.
    Unclear,
}

impl Known {
    /// What the rule is beside those who decide its packets, where these are known.
    pub fn standing(&self, dump: &Dump, at: Step) -> Option<Standing> {
        match self {
            Known::Dead(Some(Reason::Taken(takers))) => standing_of(dump, at, takers),
            _ => None,
        }
    }
}

/// A rule, and what is known of it.
#[derive(Drop)]
pub struct FoundRule {
    /// The rule.
    pub at: Step,
    /// What is known of it.
    pub known: Known,
}

/// The rules that stand in an answer, and how many there are of each kind.
#[derive(Drop)]
pub struct Found {
    /// The rules, in the order of a listing.
    pub rules: Vec<FoundRule>,
    /// How many there are of each kind, of all.
    pub tally: Tally,
}
