//! The lines of one section of a restore, done to a table of its own.
ghost use Rattle.std.specs.Prelude.{◌≡◌, ◌||◌, ◌≢◌, [], IfOk, OnOk, IsTrue, IsFalse};
ghost use Rattle.fields.specs.text.Words.{words_of};
ghost use Rattle.fields.specs.text.WordSlice.{words_in};
ghost use Rattle.table.specs.chains.Table.{has_chain};
ghost use Rattle.table.specs.edits.Edits.{MakesBoxes, MakesOneBox};
ghost use Rattle.restore.specs.Sequence.{Gives, or_refused, refused_as};
ghost use Rattle.restore.specs.sections.Section.{OfTable, Quoting, asked_by, begins_with, asked_of_chain, asked_of_command, begun, chain_edit, asked, done, edited_by, is_out_of_memory, is_quiet, is_too_long, line_in, ran_out};
ghost use Rattle.restore.specs.sections.Lines.{asks_put};

pub(crate) mod chain_line;
pub(crate) mod names;
pub(crate) mod quiet;

use crate::change::apply;
use crate::command::Command;
use crate::fault::RestoreFault;
use crate::section::chain_line::{is_built_in, is_counters, may_be_policy, policy_word};
use crate::section::names::Names;
use crate::section::quiet::{is_quiet, is_too_long};
use fields::{WordFault, WordSlice, Words};
use rules::Work;
use std::alloc::{AllocError, Global};
use std::marker::Model;
use table::{Table, TableFault};

/// The lines of one section of a restore, between `*filter` and `COMMIT`, applied to a table of its own
/// (iptables-restore(8)).
///
/// A table is put in place by `commit` alone; a line that is refused ends the transaction, and nothing comes of it.
#[derive(Drop)]
pub struct Transaction {
    alloc: Global,
    table: Table,
    named: Names,
}

impl Model for Transaction {
    ghost use Rattle.restore.specs.sections.Section.{Section, section_code};
    ghost use Rattle.restore.specs.contracts.section.names.Names as of_names;
    ghost use Rattle.table.specs.contracts.table.Table as of_table;

    ghost Value = { Section };

    ghost coded = { section_code of_table.the_row.coded of_names.the_row.coded };

    ghost view = { λ t. record { table = t.table.table; named = t.named } };
}

// The answer of the table, as that of a restore.
fn as_restore(answer: Result<(), TableFault>) -> Result<(), RestoreFault>
    ensures { result ≡ refused_as OfTable answer }
{
    match answer {
        Ok(()) => Ok(()),
        Err(fault) => Err(RestoreFault::Table(fault)),
    }
}

// The words of a line.
pub(crate) fn split(alloc: Global, line: &[u8]) -> Result<Words, RestoreFault>
    ensures { Gives is_out_of_memory (λ words. words) result (or_refused Quoting (words_of line.now)) }
{
    match Words::split(alloc, line) {
        Ok(words) => Ok(words),
        Err(WordFault::Quoting) => Err(RestoreFault::Quoting),
        Err(WordFault::NoMemory) => Err(RestoreFault::NoMemory),
    }
}

// Whether a word begins with a byte.
pub(crate) fn begins_with(word: &[u8], byte: u8) -> bool
    ensures { result ≡ begins_with byte word.now }
{
    match word.first() {
        Some(first) => *first == byte,
        None => false,
    }
}

// Whether a chain of the name is there.
fn has_chain(table: &Table, name: &[u8]) -> bool
    ensures { result ≡ has_chain table.now.table name.now }
{
    table.index_of(name).is_some()
}

// Does what a chain line asks of the table.
fn change_chain(table: &mut Table, name: &[u8], policy: &[u8]) -> Result<(), RestoreFault>
    ensures { Gives is_out_of_memory (λ _. table.new.table) result
        (edited_by (chain_edit table.old.table name.now policy.now) table.old.table) }
{
    if is_built_in(name) {
        if policy == b"-".as_slice() {
            return Ok(());
        }
        return as_restore(table.set_policy(name, policy));
    }
    if has_chain(table, name) {
        return as_restore(table.flush(name));
    }
    as_restore(table.new_chain(name))
}

impl Transaction {
    /// The transaction of a section: from a copy of the table, or, without `noflush`, from a table of its policies
    /// without rules and user chains.
    ///
    /// With `noflush` it costs a copy of the table.
    ///
    /// # Errors
    ///
    /// `AllocError` where memory was refused.
    pub fn begin(alloc: Global, table: &Table, noflush: bool) -> Result<Transaction, AllocError>
        ensures { IfOk result (λ begun_one. begun_one ≡ begun noflush table.now.table) }
    {
        let own = if noflush {
            table.copy()?
        } else {
            table.emptied()?
        };
        Ok(Transaction {
            alloc,
            table: own,
            named: Names::new(alloc),
        })
    }

    // Does a chain line of a name, with the words after it.
    fn chain_line(&mut self, name: &[u8], words: WordSlice) -> Result<(), RestoreFault>
        ensures { Gives is_out_of_memory (λ _. self.new) result
            (done self.old (asked_of_chain self.old name.now (words_in words.entry))) }
    {
        let Some(policy) = policy_word(words) else {
            return Err(RestoreFault::BadChainLine);
        };
        if !may_be_policy(name, policy) {
            return Err(RestoreFault::BadChainLine);
        }
        if self.named.contains(name) {
            return Err(RestoreFault::DuplicateChainLine);
        }
        change_chain(&mut self.table, name, policy)?;
        match self.named.insert(name) {
            Ok(()) => Ok(()),
            Err(_) => Err(RestoreFault::NoMemory),
        }
    }

    // Does a command, without its counters.
    fn command(&mut self, words: &Words, work: &mut Work) -> Result<(), RestoreFault>
        requires { words.now ≢ [] }
        ensures step { Gives is_out_of_memory (λ _. self.new) result (done self.old (asked_of_command words.now)) }
        ensures work { MakesBoxes (asks_put (asked_of_command words.now)) work.old work.new }
        ensures boxed { IsTrue (asks_put (asked_of_command words.now)) → OnOk result (MakesOneBox work.old work.new) }
    {
        let from = if is_counters(words.get(0)) { 1 } else { 0 };
        match Command::read_edit(self.alloc, words, from) {
            Ok(command) => as_restore(apply(&mut self.table, command, work)),
            Err(fault) => Err(RestoreFault::Command(fault)),
        }
    }

    // Does what the words of a line ask.
    fn take_words(&mut self, words: &Words, work: &mut Work) -> Result<(), RestoreFault>
        ensures step { Gives is_out_of_memory (λ _. self.new) result (done self.old (asked_by self.old words.now)) }
        ensures work { MakesBoxes (asks_put (asked_by self.old words.now)) work.old work.new }
        ensures boxed { IsTrue (asks_put (asked_by self.old words.now)) → OnOk result (MakesOneBox work.old work.new) }
    {
        if words.is_empty() {
            return Ok(());
        }
        let first = words.get(0);
        if begins_with(first, b'*') {
            return Err(RestoreFault::NotAllowed);
        }
        if begins_with(first, b':') {
            return self.chain_line(&first[1..], words.after(1));
        }
        self.command(words, work)
    }

    // Does what a line asks.
    #[tactic(auto, unfolding(crate::specs::sections::Section::asked))]
    fn take(&mut self, line: &[u8], work: &mut Work) -> Result<(), RestoreFault>
        ensures step { Gives is_out_of_memory (λ _. self.new) result (line_in self.old line.now) }
        ensures quiet { IsTrue (is_too_long line.now || is_quiet line.now) → IsFalse (ran_out result) }
        ensures work { MakesBoxes (asks_put (asked self.old line.now)) work.old work.new }
        ensures boxed { IsTrue (asks_put (asked self.old line.now)) → OnOk result (MakesOneBox work.old work.new) }
    {
        if is_too_long(line) {
            return Err(RestoreFault::LineTooLong);
        }
        if is_quiet(line) {
            return Ok(());
        }
        let words = split(self.alloc, line)?;
        self.take_words(&words, work)
    }

    /// Does a line of the section: a command, after counters or without, or a chain line. A blank line or a comment
    /// does nothing, and takes no memory. The line `COMMIT` is no command.
    ///
    /// It costs what its command costs; of a chain line, that and a search among the names of chain lines before. A
    /// line that puts a rule into a chain makes one box, or where it is refused one at most; others make none.
    ///
    /// # Errors
    ///
    /// The first refusal of the line, which ends the transaction. A fault that says that memory ran out is answered
    /// where memory was refused.
    pub fn line(self, line: &[u8], work: &mut Work) -> Result<Transaction, RestoreFault>
        ensures step { Gives is_out_of_memory (λ next. next) result (line_in self line.now) }
        ensures quiet { IsTrue (is_too_long line.now || is_quiet line.now) → IsFalse (ran_out result) }
        ensures work { MakesBoxes (asks_put (asked self line.now)) work.old work.new }
        ensures boxed { IsTrue (asks_put (asked self line.now)) → OnOk result (MakesOneBox work.old work.new) }
    {
        let mut next = self;
        next.take(line, work)?;
        Ok(next)
    }

    /// The table that the lines gave. It takes no memory.
    pub fn commit(self) -> Table
        ensures { result.table ≡ self.table }
    {
        let Transaction {
            alloc: _,
            table,
            named: _,
        } = self;
        table
    }
}
