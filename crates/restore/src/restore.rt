//! Restores: sections one after another, each put in place by its `COMMIT`.
ghost use Rattle.std.specs.Prelude.{◌≡◌, Ok, OnOk, IsTrue, IsFalse};
ghost use Rattle.table.specs.edits.Edits.{MakesBoxes, MakesOneBox};
ghost use Rattle.restore.specs.Sequence.{Gives};
ghost use Rattle.restore.specs.sections.Lines.{line_puts, IsLine};
ghost use Rattle.restore.specs.sections.Restore.{begun_restore, between, committed, ended_at, is_commit, opened, opening, skipped};
ghost use Rattle.restore.specs.sections.Section.{is_out_of_memory, is_quiet, ran_out};

use crate::fault::RestoreFault;
use crate::section::quiet::{is_commit, is_quiet, is_too_long};
use crate::section::{Transaction, begins_with, split};
use fields::Words;
use rules::Work;
use std::alloc::Global;
use std::marker::Model;
use table::Table;

// Where the next line of a restore stands: between sections, in a section that is skipped, or in one that is built.
#[derive(Drop)]
enum SectionState {
    Between,
    Skipping,
    Building(Transaction),
}

/// A restore: sections one after another (iptables-restore(8)). A section of the table `filter` is built, and put in
/// place by its line `COMMIT`; one of another table is skipped.
#[derive(Drop)]
pub struct Restore {
    alloc: Global,
    noflush: bool,
    test: bool,
    state: SectionState,
}

impl Model for Restore {
    ghost use Rattle.restore.specs.contracts.restore.SectionState as of_state;
    ghost use Rattle.restore.specs.sections.Restore.{Restore as Restored, restore_code};

    ghost Value = { Restored };

    ghost coded = { restore_code of_state.the_row.coded };

    ghost view = { λ r. record { noflush = r.noflush; test = r.test; state = r.state } };
}

// The state after a line that opens a section by a word.
fn opened(
    alloc: Global,
    noflush: bool,
    table: &Table,
    word: &[u8],
) -> Result<SectionState, RestoreFault>
    ensures { Gives is_out_of_memory (λ state. state) result (Ok (opened noflush table.now.table word.now)) }
{
    if word != b"*filter".as_slice() {
        return Ok(SectionState::Skipping);
    }
    match Transaction::begin(alloc, table, noflush) {
        Ok(section) => Ok(SectionState::Building(section)),
        Err(_) => Err(RestoreFault::NoMemory),
    }
}

// The state after the words of a line between sections.
fn opening(
    alloc: Global,
    noflush: bool,
    table: &Table,
    words: &Words,
) -> Result<SectionState, RestoreFault>
    ensures { Gives is_out_of_memory (λ state. state) result (opening noflush table.now.table words.now) }
{
    if words.len() != 1 || !begins_with(words.get(0), b'*') {
        return Err(RestoreFault::NotAllowed);
    }
    opened(alloc, noflush, table, words.get(0))
}

// The state after a line between sections.
fn between(
    alloc: Global,
    noflush: bool,
    table: &Table,
    line: &[u8],
) -> Result<SectionState, RestoreFault>
    ensures step { Gives is_out_of_memory (λ state. state) result (between noflush table.now.table line.now) }
    ensures quiet { IsTrue (is_quiet line.now) → IsFalse (ran_out result) }
    ensures commit { IsTrue (is_commit line.now) → IsFalse (ran_out result) }
{
    if is_quiet(line) {
        return Ok(SectionState::Between);
    }
    if is_commit(line) {
        return Err(RestoreFault::NotAllowed);
    }
    let words = split(alloc, line)?;
    opening(alloc, noflush, table, &words)
}

// The state after a line of a section that is skipped.
fn skipped(line: &[u8]) -> SectionState
    ensures { result ≡ skipped line.now }
{
    if is_commit(line) {
        return SectionState::Between;
    }
    SectionState::Skipping
}

// Puts the table of a section in place, unless this is a test.
fn commit(section: Transaction, test: bool, table: &mut Table)
    ensures table { table.new.table ≡ committed test table.old.table section }
    ensures tested { IsTrue test → table.new ≡ table.old }
{
    if !test {
        *table = section.commit();
    }
}

impl Restore {
    /// A restore of no line so far. With `noflush` a section begins from the table in place, and else from its policies
    /// alone; with `test` no table is put in place. It takes no memory.
    pub fn new(alloc: Global, noflush: bool, test: bool) -> Restore
        ensures { result ≡ begun_restore noflush test }
    {
        Restore {
            alloc,
            noflush,
            test,
            state: SectionState::Between,
        }
    }

    /// Does a line of the restore, of the bytes between two newlines. `table` is the one in place: a section is begun
    /// from it, and `COMMIT` puts the section's table in its place, unless this is a test. Sections of other tables
    /// are skipped.
    ///
    /// A line that opens a section costs a copy of the table with `noflush`; another line what its command costs. A
    /// line that puts a rule into a chain makes one box, or where it is refused one at most; others make none. No
    /// memory is taken for a line that is too long, blank, a comment, of a skipped section,
    /// or `COMMIT`.
    ///
    /// # Errors
    ///
    /// The first refusal of the line, which ends the restore; a fault that says that memory ran out is answered where
    /// memory was refused. `table` is unchanged, classifiers included.
    pub fn line(
        self,
        table: &mut Table,
        line: &[u8],
        work: &mut Work,
    ) -> Result<Restore, RestoreFault>
        ensures step { IsLine self line.now table.old table.new result }
        ensures work { MakesBoxes (line_puts self.state line.now) work.old work.new }
        ensures boxed { IsTrue (line_puts self.state line.now) → OnOk result (MakesOneBox work.old work.new) }
    {
        if is_too_long(line) {
            return Err(RestoreFault::LineTooLong);
        }
        let Restore {
            alloc,
            noflush,
            test,
            state,
        } = self;
        let next = match state {
            SectionState::Between => between(alloc, noflush, table, line)?,
            SectionState::Skipping => skipped(line),
            SectionState::Building(section) => {
                if is_commit(line) {
                    commit(section, test, table);
                    SectionState::Between
                } else {
                    SectionState::Building(section.line(line, work)?)
                }
            }
        };
        Ok(Restore {
            alloc,
            noflush,
            test,
            state: next,
        })
    }

    /// The end of the lines, which stands between sections. It takes no memory.
    ///
    /// # Errors
    ///
    /// `RestoreFault::EndBeforeCommit` inside a section.
    pub fn finish(self) -> Result<(), RestoreFault>
        ensures { result ≡ ended_at self.state }
    {
        match self.state {
            SectionState::Between => Ok(()),
            _ => Err(RestoreFault::EndBeforeCommit),
        }
    }
}
