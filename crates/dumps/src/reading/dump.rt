//! The lines of a dump, read one after another.
ghost use Rattle.std.specs.Prelude.{◌≡◌, ◌++◌, ◌∷◌, [], option_map, IfOk};
ghost use Rattle.dumps.specs.Reading.{counters_text, head_text, hides_target, is_too_long};
ghost use Rattle.dumps.specs.Views.{table_in, rule_line_in};

use crate::apart::own_line::{append_spelled, append_word};
use crate::apart::taking::take_apart;
use crate::options::row::Kind;
use crate::options::table::{OptionTable, extension_in};
use crate::reading::fault::{DumpFault, LineWord, Refusal, refused, refused_apart};
use crate::reading::foreign::{Foreign, all_needed, append_known, keep_unknown};
use crate::reading::line::{OtherLine, RuleLine, begins_with, is_commit, other_line, rule_line};
use fields::{WordFault, WordSlice, Words};
use std::alloc::{AllocError, Global};

// The most bytes of a line.
const LINE_MAX: usize = 10240;

// Where a line stands.
#[derive(Clone, Copy, PartialEq, Eq)]
enum Section {
    Between,
    // in the section of another table
    Other,
    Filter,
}

/// A dump that was read: what the program reads of it, line for line, and what its rules need beyond that.
#[derive(Drop)]
pub struct Whole {
    /// The lines, each with a newline: each rule of the section `filter` by its own words, and any other line as it stands.
    pub text: Vec<u8>,
    /// The needs of the rules.
    pub foreign: Foreign,
}

/// A reading of the lines of a dump, one after another (iptables-save(8)).
///
/// Sections are told as a restore tells them: one reaches from a line between sections whose only word begins with `*` to the
/// next line `COMMIT`. The rules of a section `*filter` take the place of those of the one before, and so does what their targets set.
#[derive(Drop)]
pub struct Reading<'a> {
    alloc: Global,
    table: OptionTable<'a>,
    section: Section,
    text: Vec<u8>,
    foreign: Foreign,
    moved: Option<LineWord>,
}

// Whether a line has more bytes than a restore takes.
fn is_too_long(line: &[u8]) -> bool
    ensures { result ≡ is_too_long line.now }
{
    line.len() > LINE_MAX
}

// Appends a newline.
fn end_line(text: &mut Vec<u8>) -> Result<(), AllocError>
    ensures { IfOk result (λ _. text.new.items ≡ text.old.items ++ 10 ∷ []) }
{
    text.push(b'\n')?;
    Ok(())
}

// Appends counters, if there are some, with a blank behind them.
fn append_counters(text: &mut Vec<u8>, counters: Option<&[u8]>) -> Result<(), AllocError>
    ensures { IfOk result (λ _. text.new.items ≡ text.old.items ++ counters_text (option_map (λ counters. counters.now) counters.entry)) }
{
    match counters {
        None => Ok(()),
        Some(counters) => {
            append_spelled(text, counters)?;
            text.push(b' ')?;
            Ok(())
        }
    }
}

// Appends the beginning of a rule's text: counters, the command and the chain.
fn append_head(text: &mut Vec<u8>, line: RuleLine<'_>) -> Result<(), AllocError>
    ensures { IfOk result (λ _. text.new.items ≡ text.old.items ++ head_text (rule_line_in line.entry)) }
{
    append_counters(text, line.counters)?;
    append_spelled(text, line.command)?;
    append_word(text, line.chain)
}

// Whether a chain of this name would be taken for a target that gives no verdict, or that the program doesn't read.
fn hides_target(table: &OptionTable<'_>, name: &[u8]) -> bool
    ensures { result ≡ hides_target (table_in table.now) name.now }
{
    match extension_in(table.extensions, name) {
        None => false,
        Some(row) => matches!(row.kind, Kind::Passes | Kind::Decides { .. }),
    }
}

impl<'a> Reading<'a> {
    ghost use Rattle.std.specs.Prelude.{◌≡◌, true, Some, None, OnOk, IfErr, IfSome};
    ghost use Rattle.std.specs.List.{list_any};
    ghost use Rattle.fields.specs.text.WordSlice.{words_in};
    ghost use Rattle.dumps.specs.Foreign.{needs_some, rules_in};
    ghost use Rattle.dumps.specs.SectionLines.{rule_line, other_line};
    ghost use Rattle.dumps.specs.Views.{rule_line_in, other_line_in, read_in, refused_in, table_in};
    ghost use Rattle.dumps.specs.Reading.{nothing_read, kept, noted, opened, opened_by, refused_name, refused_move, moved_by, other_refusal, IsMovedWith, IsRuleTaken, IsRuleRead, IsOtherRead, IsFilterRead, IsReadAt, IsLineRead, IsRuleRefused, IsFilterRefused, IsRefusedAt, IsLineRefused};
    ghost use Rattle.dumps.specs.Beside.{LinesComeWithRules, NeededRulesStandStill, StandsBeside};

    /// The reading of a dump of which no line was read, by a table of options.
    pub fn new(alloc: Global, table: OptionTable<'a>) -> Reading<'a>
        ensures nothing { read_in result ≡ nothing_read }
        ensures table { result.table ≡ table.entry }
    {
        Reading {
            alloc,
            table,
            section: Section::Between,
            text: Vec::new(alloc),
            foreign: Foreign::new(alloc),
            moved: None,
        }
    }

    // Appends a line as it stands, and a newline.
    fn keep(&mut self, line: &[u8]) -> Result<(), DumpFault>
        ensures kept { OnOk result (read_in self.new ≡ kept line.now (read_in self.old)) }
        ensures memory { IfErr result (λ fault. refused_in fault ≡ None) }
        ensures table { self.new.table ≡ self.old.table }
    {
        self.text.extend_from_slice(line)?;
        end_line(&mut self.text)?;
        Ok(())
    }

    // Refuses a chain of the name of a target.
    fn check_name(&self, name: &[u8]) -> Result<(), DumpFault>
        ensures ok { OnOk result (refused_name (table_in self.now.table) (Some name.now) ≡ None) }
        ensures refused { IfErr result (λ fault. IfSome (refused_in fault)
            (λ why. refused_name (table_in self.now.table) (Some name.now) ≡ Some why)) }
    {
        if hides_target(&self.table, name) {
            return Err(refused(self.alloc, Refusal::ChainIsTarget, name));
        }
        Ok(())
    }

    // Notes that rules may move by a word, or refuses that.
    fn note_moved(&mut self, word: &[u8]) -> Result<(), DumpFault>
        ensures ok { OnOk result (refused_move (rules_in self.old.foreign) (Some word.now) ≡ None) }
        ensures refused { IfErr result (λ fault. IfSome (refused_in fault)
            (λ why. refused_move (rules_in self.old.foreign) (Some word.now) ≡ Some why)) }
        ensures noted { OnOk result (read_in self.new ≡ moved_by (Some word.now) (read_in self.old)) }
        ensures table { self.new.table ≡ self.old.table }
    {
        if !self.foreign.is_empty() {
            return Err(refused(self.alloc, Refusal::RulesMoved, word));
        }
        if self.moved.is_none() {
            self.moved = Some(LineWord::of(self.alloc, word)?);
        }
        Ok(())
    }

    // Refuses needs of a rule behind a line that may move rules.
    fn check_moved(&self) -> Result<(), DumpFault>
        ensures ok { OnOk result (list_any needs_some (rules_in self.now.foreign) ≡ true → (read_in self.now).moved ≡ None) }
        ensures refused { IfErr result (λ fault. IfSome (refused_in fault) (IsMovedWith (read_in self.now))) }
    {
        match &self.moved {
            None => Ok(()),
            Some(word) => {
                if self.foreign.is_empty() {
                    return Ok(());
                }
                Err(refused(self.alloc, Refusal::RulesMoved, word.bytes()))
            }
        }
    }

    // Takes a rule.
    fn take(&mut self, line: RuleLine<'_>) -> Result<(), DumpFault>
        ensures taken { OnOk result (IsRuleTaken (table_in self.old.table) (rule_line_in line.entry) (read_in self.old) (read_in self.new)) }
        ensures refused { IfErr result (λ fault. IfSome (refused_in fault)
            (IsRuleRefused (table_in self.old.table) (rule_line_in line.entry) (read_in self.old))) }
        ensures table { self.new.table ≡ self.old.table }
    {
        let apart = match take_apart(self.alloc, &self.table, line.words) {
            Ok(apart) => apart,
            Err(fault) => return Err(refused_apart(self.alloc, fault)),
        };
        let conditions = apart.conditions(self.alloc, &self.table)?;
        let mut needs = all_needed(self.alloc, conditions.as_slice())?;
        append_head(&mut self.text, line)?;
        apart.append_own(&self.table, &mut self.text)?;
        append_known(&mut self.text, self.table.known, needs.as_slice())?;
        end_line(&mut self.text)?;
        keep_unknown(&mut needs, self.table.known);
        self.foreign.add(line.chain, needs, &apart, &self.table)?;
        Ok(())
    }

    // Reads a rule.
    fn rule(&mut self, line: RuleLine<'_>) -> Result<(), DumpFault>
        ensures read { OnOk result (IsRuleRead (table_in self.old.table) (rule_line_in line.entry) (read_in self.old) (read_in self.new)) }
        ensures refused { IfErr result (λ fault. IfSome (refused_in fault)
            (IsRuleRefused (table_in self.old.table) (rule_line_in line.entry) (read_in self.old))) }
        ensures table { self.new.table ≡ self.old.table }
    {
        self.take(line)?;
        self.check_moved()
    }

    // Refuses what a line without a rule may not do, and notes whether it may move rules.
    fn note(&mut self, line: OtherLine<'_>) -> Result<(), DumpFault>
        ensures ok { OnOk result (other_refusal (table_in self.old.table) (rules_in self.old.foreign) (other_line_in line.entry) ≡ None) }
        ensures refused { IfErr result (λ fault. IfSome (refused_in fault)
            (λ why. other_refusal (table_in self.old.table) (rules_in self.old.foreign) (other_line_in line.entry) ≡ Some why)) }
        ensures noted { OnOk result (read_in self.new ≡ noted (other_line_in line.entry) (read_in self.old)) }
        ensures table { self.new.table ≡ self.old.table }
    {
        match line {
            OtherLine::Quiet => return Ok(()),
            OtherLine::NewChain(name) => return self.check_name(name),
            OtherLine::ChainLine(name) => {
                self.check_name(name)?;
                if self.foreign.has_rule(name) {
                    return self.note_moved(name);
                }
                return Ok(());
            }
            OtherLine::Renames(name, command) => {
                self.check_name(name)?;
                return self.note_moved(command);
            }
            OtherLine::Moves(command) => return self.note_moved(command),
        }
    }

    // Reads a line of the section `filter` without a rule.
    fn other(&mut self, line: &[u8], words: WordSlice<'_>) -> Result<(), DumpFault>
        ensures read { OnOk result (IsOtherRead (table_in self.old.table) line.now (words_in words.entry) (read_in self.old) (read_in self.new)) }
        ensures refused { IfErr result (λ fault. IfSome (refused_in fault)
            (λ why. other_refusal (table_in self.old.table) (rules_in self.old.foreign) (other_line (words_in words.entry)) ≡ Some why)) }
        ensures table { self.new.table ≡ self.old.table }
    {
        self.note(other_line(words))?;
        self.keep(line)
    }

    // Reads a line of the section `filter`.
    fn section_line(&mut self, line: &[u8], words: WordSlice<'_>) -> Result<(), DumpFault>
        ensures read { OnOk result (IsFilterRead (table_in self.old.table) line.now (words_in words.entry)
            (rule_line (words_in words.entry)) (read_in self.old) (read_in self.new)) }
        ensures refused { IfErr result (λ fault. IfSome (refused_in fault)
            (IsFilterRefused (table_in self.old.table) (words_in words.entry) (rule_line (words_in words.entry)) (read_in self.old))) }
        ensures table { self.new.table ≡ self.old.table }
    {
        match rule_line(words) {
            Some(rule) => self.rule(rule),
            None => self.other(line, words),
        }
    }

    // Begins a section of a table.
    fn open(&mut self, word: &[u8])
        ensures opened { read_in self.new ≡ opened word.now (read_in self.old) }
        ensures table { self.new.table ≡ self.old.table }
    {
        if word == b"*filter".as_slice() {
            self.section = Section::Filter;
            self.foreign = Foreign::new(self.alloc);
            self.moved = None;
        } else {
            self.section = Section::Other;
        }
    }

    // Begins the section that a line between sections opens, if it opens one.
    fn open_by(&mut self, words: WordSlice<'_>)
        ensures opened { read_in self.new ≡ opened_by (words_in words.entry) (read_in self.old) }
        ensures table { self.new.table ≡ self.old.table }
    {
        if let Some((word, rest)) = words.split_first() {
            if rest.is_empty() && begins_with(word, b'*') {
                self.open(word);
            }
        }
    }

    // Reads the words of a line.
    fn words(&mut self, line: &[u8], words: WordSlice<'_>) -> Result<(), DumpFault>
        ensures read { OnOk result (IsReadAt self.old.section (table_in self.old.table) line.now (words_in words.entry)
            (read_in self.old) (read_in self.new)) }
        ensures refused { IfErr result (λ fault. IfSome (refused_in fault)
            (IsRefusedAt self.old.section (table_in self.old.table) (words_in words.entry) (read_in self.old))) }
        ensures table { self.new.table ≡ self.old.table }
    {
        match self.section {
            Section::Between => {
                self.open_by(words);
                self.keep(line)
            }
            Section::Other => {
                if is_commit(line, words) {
                    self.section = Section::Between;
                }
                self.keep(line)
            }
            Section::Filter => {
                if is_commit(line, words) {
                    self.section = Section::Between;
                    return self.keep(line);
                }
                self.section_line(line, words)
            }
        }
    }

    /// Reads the next line, without its newline.
    ///
    /// A line `-A` of the section `filter`, with counters before it or not, is taken apart. Any other line stays as it
    /// stands, and so does one that has no words or more than 10,240 bytes: a restore judges them.
    ///
    /// # Errors
    ///
    /// Why the reading ends at the line. It may not go on then.
    ///
    /// # Cost
    ///
    /// That of `take_apart`; for a chain line a search among the rules so far.
    pub fn line(&mut self, line: &[u8]) -> Result<(), DumpFault>
        ensures read { OnOk result (IsLineRead (table_in self.old.table) line.now (read_in self.old) (read_in self.new)) }
        ensures beside { OnOk result (StandsBeside (table_in self.old.table) line.now (read_in self.old) (read_in self.new)) }
        ensures refused { IfErr result (λ fault. IfSome (refused_in fault) (IsLineRefused (table_in self.old.table) line.now (read_in self.old))) }
        ensures table { self.new.table ≡ self.old.table }
    {
        if is_too_long(line) {
            return self.keep(line);
        }
        match Words::split(self.alloc, line) {
            Ok(words) => self.words(line, words.after(0)),
            Err(WordFault::Quoting) => self.keep(line),
            Err(WordFault::NoMemory) => Err(DumpFault::NoMemory),
        }
    }

    /// What was read.
    #[tactic(auto, using(crate::proofs::laws::ReadingLaws::lines_come_with_rules, crate::proofs::laws::ReadingLaws::needed_rules_stand_still))]
    pub fn finish(self) -> Whole
        ensures together { LinesComeWithRules }
        ensures still { NeededRulesStandStill }
        ensures text { result.text.items ≡ (read_in self.entry).text }
        ensures rules { rules_in result.foreign ≡ (read_in self.entry).rules }
    {
        Whole {
            text: self.text,
            foreign: self.foreign,
        }
    }
}
