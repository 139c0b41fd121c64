//! The questions that are asked of tables, how many steps they may take, and how far they are.
ghost use Rattle.std.specs.Prelude.{◌≡◌, ◌<◌, ◌≤◌, All, IfOk, IfSome, length};
ghost use Rattle.fields.specs.numbers.Field.{top};
ghost use Rattle.questions.specs.Scopes.{table_of};
ghost use Rattle.table.specs.chains.Table.{chain_at};

pub(crate) mod progress;

use crate::asking::progress::Progress;
use fields::{Field, Hook};
use questions::{
    Answers, BoxedTable, Changes, Claimed, Coming, End, GivenPackets, Leaf, Life, Likeness,
    Reached, Reason, Subject, WrittenPacket, changes_under, check_claim, comes, compare_at_under,
    dead_under, ends, life_under, reach, walks, why_dead_under,
};
use std::alloc::{AllocError, Global};
use std::io::IsTerminal;
use std::rt::Clock;
use table::{Step, Verdict};

/// How many steps each question takes at most, and how many were asked.
#[derive(Drop)]
pub struct Asking<'a, R, E> {
    alloc: Global,
    steps: usize,
    progress: Progress<'a, R, E>,
}

// The place of a decider in the order of a listing; that of a policy is behind all rules.
fn place_of(by: Option<Step>) -> (bool, usize, usize) {
    match by {
        Some(step) => (false, step.chain, step.number),
        None => (true, 0, 0),
    }
}

impl<'a, R: Clock, E: Print + IsTerminal> Asking<'a, R, E> {
    /// Before any question. How far the questions are goes to `errors` once a second, where that is a terminal.
    pub fn new(alloc: Global, steps: usize, clock: &'a R, errors: &'a E) -> Asking<'a, R, E> {
        Asking {
            alloc,
            steps,
            progress: Progress::new(clock, errors),
        }
    }

    /// What memory comes from.
    pub fn alloc(&self) -> Global {
        self.alloc
    }

    /// So many questions are to be asked.
    pub(crate) fn begin(&mut self, all: usize) {
        self.progress.begin(all);
    }

    /// The next question is asked, or it needn't be.
    pub(crate) fn next(&mut self) {
        self.progress.note();
    }

    /// No more questions are asked: the terminal's line is cleared.
    pub fn end(&mut self) {
        self.progress.end();
    }

    /// Whether a rule can match (`life_under`).
    ///
    /// # Errors
    ///
    /// `AllocError` where memory was refused.
    pub(crate) fn life(&self, subject: &Subject<'_>, at: Step) -> Result<Life, AllocError>
        requires place { at.chain < length (table_of subject.now).chains }
        requires first { 0 < at.number }
        requires last { at.number ≤ length (chain_at (table_of subject.now) at.chain).rules }
    {
        life_under(self.alloc, subject, at.chain, at.number, self.steps)
    }

    /// Whether a rule can match, by few answers that are to be shown (`dead_under`).
    ///
    /// # Errors
    ///
    /// `AllocError` where memory was refused.
    pub(crate) fn life_by_few(&self, subject: &Subject<'_>, at: Step) -> Result<Life, AllocError>
        requires place { at.chain < length (table_of subject.now).chains }
        requires first { 0 < at.number }
        requires last { at.number ≤ length (chain_at (table_of subject.now) at.chain).rules }
    {
        dead_under(self.alloc, subject, at.chain, at.number, self.steps)
    }

    /// Whether a packet comes to a rule (`comes`).
    ///
    /// # Errors
    ///
    /// `AllocError` where memory was refused.
    pub(crate) fn coming(
        &self,
        subject: &Subject<'_>,
        packet: &WrittenPacket,
        at: Step,
    ) -> Result<Coming, AllocError>
        requires place { at.chain < length (table_of subject.now).chains }
        requires first { 0 < at.number }
        requires last { at.number ≤ length (chain_at (table_of subject.now) at.chain).rules }
    {
        comes(self.alloc, subject, packet, at, self.steps)
    }

    /// Why a rule is dead, if that is known (`why_dead_under`).
    ///
    /// # Errors
    ///
    /// `AllocError` where memory was refused.
    pub(crate) fn reason(
        &self,
        subject: &Subject<'_>,
        at: Step,
    ) -> Result<Option<Reason>, AllocError>
        requires place { at.chain < length (table_of subject.now).chains }
        requires first { 0 < at.number }
        requires last { at.number ≤ length (chain_at (table_of subject.now) at.chain).rules }
    {
        why_dead_under(self.alloc, subject, at.chain, at.number, self.steps)
    }

    /// Whether two tables give each packet at a hook the same verdict (`compare_at_under`).
    ///
    /// # Errors
    ///
    /// `AllocError` where memory was refused.
    pub(crate) fn likeness(
        &self,
        old: &Subject<'_>,
        new: &Subject<'_>,
        hook: Hook,
    ) -> Result<Likeness, AllocError> {
        compare_at_under(self.alloc, old, new, hook, self.steps)
    }

    /// The rules by which two tables differ (`changes_under`).
    ///
    /// # Errors
    ///
    /// `AllocError` where memory was refused.
    pub(crate) fn changes(
        &self,
        old: &Subject<'_>,
        new: &Subject<'_>,
    ) -> Result<Changes, AllocError> {
        changes_under(self.alloc, old, new)
    }

    /// The walks of a packet where these answers are right (`walks`), if they are known.
    ///
    /// # Errors
    ///
    /// `AllocError` where memory was refused.
    pub(crate) fn walks(
        &self,
        subject: &Subject<'_>,
        packet: &WrittenPacket,
        answers: &Answers,
    ) -> Result<Option<Vec<Leaf>>, AllocError> {
        walks(self.alloc, subject, packet, answers, self.steps)
    }

    /// How the walk of a packet ends where these answers are right (`ends`), if that is known.
    ///
    /// # Errors
    ///
    /// `AllocError` where memory was refused.
    pub(crate) fn ends(
        &self,
        subject: &Subject<'_>,
        packet: &WrittenPacket,
        answers: &Answers,
    ) -> Result<Option<Vec<End>>, AllocError> {
        ends(self.alloc, subject, packet, answers, self.steps)
    }

    /// Whether no packet of a set gets one of some verdicts (`check_claim`).
    ///
    /// # Errors
    ///
    /// `AllocError` where memory was refused.
    pub(crate) fn claimed(
        &self,
        subject: &Subject<'_>,
        given: &GivenPackets,
        forbidden: &[Verdict],
    ) -> Result<Claimed, AllocError> {
        check_claim(self.alloc, subject, given, forbidden, self.steps)
    }

    /// The verdicts of a set of packets, grouped by a field (`reach`), by their deciders in the order of a listing; those that a policy
    /// gives come last. There are none where they aren't known.
    ///
    /// # Errors
    ///
    /// `AllocError` where memory was refused.
    pub fn reach(
        &mut self,
        subject: &BoxedTable,
        given: &GivenPackets,
        field: Field,
    ) -> Result<Option<Vec<Reached>>, AllocError>
        ensures { IfOk result (λ found. IfSome found (λ reached. All (λ entry. entry.numbers.top ≡ top field) reached.items)) }
    {
        self.begin(1);
        self.next();
        let Some(mut found) = reach(self.alloc, subject, given, field, self.steps)? else {
            return Ok(None);
        };
        found.sort_unstable_by_key(|reached| place_of(reached.by));
        Ok(Some(found))
    }
}
