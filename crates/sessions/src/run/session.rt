//! Sessions and their runs: one loop over the lines, and what is printed at the end.
ghost use Rattle.std.specs.Prelude.{◌≡◌, ◌⊎◌, ◌+◌, ◌^◌, ◌<◌, ◌≤◌, ◌↔◌, ℕ, Option, List, [], false, true, IfOk, OnOk, MatchResult, is_err, length, vec_len, vec_capacity};
ghost use Rattle.std.specs.Io.KnownBytes.{Appends};
ghost use Rattle.fields.specs.text.Tap.{has_failed, is_late, is_unflushed, known, shown_left, turns_left, Puts};
ghost use Rattle.fields.specs.text.Line.{IsHeld, EndsAt, ReadsLine};
ghost use Rattle.table.specs.chains.Table.{Table as TableOf};
ghost use Rattle.table.specs.edits.Headline.{ChainsHaveOneListOfClassifiers};
ghost use Rattle.table.specs.edits.Edits.{MakesBoxes};
ghost use Rattle.sessions.specs.line.Boxes.{may_box};
ghost use Rattle.sessions.specs.line.Outcome.{Reply, has_ended, reply_text, status_after};
ghost use Rattle.sessions.specs.line.Executed.{HasChain, IsReply};
ghost use Rattle.sessions.specs.run.Console.{HasSameTaps, reader, writer};

use crate::line::fault::Fault;
use crate::line::mode::Mode;
use crate::line::outcome::{Outcome, take_line};
use crate::reply::answer::{Answer, write_reply};
use crate::reply::end::{last_reply, restore_reply};
use crate::run::console::Console;
use fields::{LineEnd, LineRead, Tap, WriteFailed};
use restore::{Restore, listings_restore, restores_leave_what_they_accept};
use rules::Work;
use std::alloc::{AllocError, Global};
use std::io::{BufRead, Write};
use std::mem;
use table::{Table, calls_leave_what_they_accept};
use thiserror::Error;

/// Why a run stopped before it had a status.
#[derive(Clone, Copy, Debug, PartialEq, Eq, Drop, Error)]
pub enum RunFault {
    /// A read failed.
    #[error("a read failed")]
    ReadFailed,
    /// A write failed, or took no byte.
    #[error("a write failed")]
    WriteFailed,
}

// The longest line, in bytes without its newline.
const LINE_MAX: usize = 10240;

// Has the writer hand on what it holds back.
fn hand_on<W: Write>(output: &mut Tap<W>) -> Result<(), WriteFailed>
    ensures puts { has_failed output.old ≡ false → Puts W.contents output.old output.new result [] }
    ensures handed { OnOk result (is_unflushed output.new ≡ false) }
{
    if output.unflushed() {
        return output.flush();
    }
    Ok(())
}

// Has the writer hand on what it holds back, unless the reader shows bytes still: those are read before any others.
fn hand_on_in_time<R: BufRead, W: Write>(console: &mut Console<'_, R, W>) -> Result<(), RunFault>
    requires { has_failed (writer console.old) ≡ false }
    ensures same { HasSameTaps console.old console.new }
    ensures reader { reader console.new ≡ reader console.old }
    ensures still { 0 < shown_left (reader console.old) → writer console.new ≡ writer console.old }
    ensures handed { OnOk result ((0 < shown_left (reader console.new)) ⊎ (is_unflushed (writer console.new) ≡ false)) }
    ensures given { Appends (known W.contents (writer console.old)) (known W.contents (writer console.new)) [] }
    ensures fault { MatchResult result (λ _. has_failed (writer console.new) ≡ false)
        (λ fault. (fault ≡ RunFault.WriteFailed) × (has_failed (writer console.new) ≡ true)) }
{
    if console.shows() {
        return Ok(());
    }
    match hand_on(console.output) {
        Ok(()) => Ok(()),
        Err(_) => Err(RunFault::WriteFailed),
    }
}

// Reads the next line. Before the reader is asked for more of it than it shows, the replies so far are handed on; where
// it shows bytes and the line takes one step of reading, they are left where they are.
fn next_line<R: BufRead, W: Write>(
    console: &mut Console<'_, R, W>,
    line: &mut Vec<u8>,
) -> Result<LineRead, RunFault>
    requires input { has_failed (reader console.old) ≡ false }
    requires output { has_failed (writer console.old) ≡ false }
    requires room { 10240 ≤ vec_capacity line.old }
    ensures same { HasSameTaps console.old console.new }
    ensures prompt { is_late (reader console.new) ≡ is_late (reader console.old) }
    ensures reads { ReadsLine (known R.remaining (reader console.old)) (known R.remaining (reader console.new))
        (turns_left (reader console.old)) (turns_left (reader console.new)) 10240 line.new.items result }
    ensures given { Appends (known W.contents (writer console.old)) (known W.contents (writer console.new)) [] }
    ensures still { 0 < shown_left (reader console.old) → OnOk result
        (turns_left (reader console.old) ≡ turns_left (reader console.new) + 1 → writer console.new ≡ writer console.old) }
    ensures fresh { OnOk result ((has_failed (reader console.new) ≡ false) × (has_failed (writer console.new) ≡ false)) }
    ensures read_failed { result ≡ Err RunFault.ReadFailed ↔ has_failed (reader console.new) ≡ true }
    ensures write_failed { result ≡ Err RunFault.WriteFailed ↔ has_failed (writer console.new) ≡ true }
    ensures turns { OnOk result (turns_left (reader console.new) < turns_left (reader console.old)) }
    ensures within { vec_len line.new ≤ 10240 }
    ensures capacity { vec_capacity line.old ≤ vec_capacity line.new }
{
    line.clear();
    let mut too_long = false;
    'parts: loop {
        hand_on_in_time(console)?;
        match console.read_part(LINE_MAX, line, &mut too_long) {
            Ok(None) => {}
            Ok(Some(read)) => return Ok(read),
            Err(_) => return Err(RunFault::ReadFailed),
        }
    }
}

// How far a run is: where its next line stands, how many lines there were, and the status of the first fault.
#[derive(Drop)]
struct Progress {
    mode: Mode,
    number: u64,
    status: u8,
}

impl Progress {
    // Before the first line.
    fn begin(mode: Mode) -> Progress
        ensures { result ≡ record { mode = mode; number = 0; status = 0 } }
    {
        Progress {
            mode,
            number: 0,
            status: 0,
        }
    }

    // The status is that of the first fault.
    fn note(&mut self, reply: &Result<Answer, Fault>)
        ensures mode { self.new.mode ≡ self.old.mode }
        ensures number { self.new.number ≡ self.old.number }
        ensures status { (t : TableOf) (said : Reply) → IsReply t reply.now said → self.new.status ≡ status_after self.old.status said }
    {
        if let Err(fault) = reply {
            if self.status == 0 {
                self.status = fault.status();
            }
        }
    }

    // Writes what came of the line at hand.
    fn report<W: Write>(
        &mut self,
        table: &Table,
        reply: Result<Answer, Fault>,
        output: &mut Tap<W>,
    ) -> Result<(), WriteFailed>
        requires { HasChain table.now.table reply }
        ensures mode { self.new.mode ≡ self.old.mode }
        ensures number { self.new.number ≡ self.old.number }
        ensures status { (said : Reply) → IsReply table.now.table reply said → self.new.status ≡ status_after self.old.status said }
        ensures puts { (said : Reply) → IsReply table.now.table reply said → Puts W.contents output.old output.new result (reply_text self.old.number said) }
    {
        self.note(&reply);
        write_reply(table, self.number, reply, output)
    }

    // The same, and has the writer hand on all that it holds back.
    fn report_last<W: Write>(
        &mut self,
        table: &Table,
        reply: Result<Answer, Fault>,
        output: &mut Tap<W>,
    ) -> Result<(), WriteFailed>
        requires { HasChain table.now.table reply }
        ensures status { (said : Reply) → IsReply table.now.table reply said → self.new.status ≡ status_after self.old.status said }
        ensures puts { (said : Reply) → IsReply table.now.table reply said → Puts W.contents output.old output.new result (reply_text self.old.number said) }
        ensures handed { OnOk result (is_unflushed output.new ≡ false) }
    {
        self.report(table, reply, output)?;
        hand_on(output)
    }
}

impl Progress {
    ghost use Rattle.sessions.specs.run.Session.{restore_finish, session_finish};
    ghost use Rattle.sessions.specs.steps.Lines.{Ends, Finishes};

    // Writes what is printed at the end of the input, has the writer hand on all that it holds back, and answers the status.
    fn end<W: Write>(
        mut self,
        table: &Table,
        reply: Result<Answer, Fault>,
        output: &mut Tap<W>,
    ) -> Result<u8, RunFault>
        requires ready { has_failed output.old ≡ false }
        requires place { HasChain table.now.table reply }
        ensures finishes { (said : Reply) → IsReply table.now.table reply said
            → Finishes W.contents (status_after self.status said) (reply_text self.number said) output.old output.new result }
        ensures handed { OnOk result (is_unflushed output.new ≡ false) }
    {
        match self.report_last(table, reply, output) {
            Ok(()) => Ok(self.status),
            Err(_) => Err(RunFault::WriteFailed),
        }
    }

    // The end of a session's input.
    fn finish_session<W: Write>(
        mut self,
        table: &Table,
        output: &mut Tap<W>,
    ) -> Result<u8, RunFault>
        requires { has_failed output.old ≡ false }
        ensures ends { Ends W.contents session_finish table.now.table self output.old output.new result }
        ensures handed { OnOk result (is_unflushed output.new ≡ false) }
    {
        let mode = mem::replace(&mut self.mode, Mode::Outside);
        self.end(table, last_reply(mode), output)
    }

    // The end of the input of a restore from the command line.
    fn finish_restore<W: Write>(
        mut self,
        list: bool,
        table: &Table,
        output: &mut Tap<W>,
    ) -> Result<u8, RunFault>
        requires { has_failed output.old ≡ false }
        ensures ends { Ends W.contents (restore_finish list) table.now.table self output.old output.new result }
        ensures handed { OnOk result (is_unflushed output.new ≡ false) }
    {
        let mode = mem::replace(&mut self.mode, Mode::Outside);
        self.end(table, restore_reply(list, mode), output)
    }
}

/// A table, and the lines that edit it, list it, restore it and give it packets.
#[derive(Drop)]
pub struct Session {
    alloc: Global,
    table: Table,
    work: Work,
    line: Vec<u8>,
    ghost room: { 10240 ≤ vec_capacity line },
}

impl Session {
    ghost use Rattle.table.specs.chains.Table.{empty_table};
    ghost use Rattle.sessions.specs.run.Session.{OfRestore, OfSession};
    ghost use Rattle.sessions.specs.run.Headline.{RunsTo, Stands};
    ghost use Rattle.sessions.specs.steps.Lines.{ExecutesLine, ExecutesLines, state_of};
    ghost use Rattle.sessions.specs.run.Views.{boxes_of, moment, moment_on, table_of};

    /// A session over a table of the built-in chains without rules, with the policy ACCEPT. It takes the memory of
    /// the table and of the longest line, 10,240 bytes.
    ///
    /// # Errors
    ///
    /// `AllocError` where memory was refused.
    pub fn new(alloc: Global) -> Result<Session, AllocError>
        ensures table { IfOk result (λ s. (table_of s).table ≡ empty_table) }
        ensures work { IfOk result (λ s. boxes_of s ≡ 0) }
    {
        let table = Table::new(alloc)?;
        let line = Vec::with_capacity(alloc, LINE_MAX)?;
        Ok(Session {
            alloc,
            table,
            work: Work::new(),
            line,
        })
    }

    /// The table as the lines so far left it; it is lent. It is sound, its classifiers are those of its chains, and
    /// its listing restores both.
    pub fn table(&self) -> &Table
        ensures table { result.now ≡ table_of self.now }
        ensures stands { Stands (table_of self.now) }
    {
        self.stands();
        &self.table
    }

    /// How many boxes of rules the lines so far had made.
    pub fn work(&self) -> &Work
        ensures { result.now ≡ boxes_of self.now }
    {
        &self.work
    }

    /// Ends the session, and hands over its table and the count of the boxes that its lines had made.
    pub fn into_parts(self) -> (Table, Work)
        ensures table { result.0 ≡ table_of self }
        ensures work { result.1 ≡ boxes_of self }
        ensures stands { Stands (table_of self) }
    {
        self.stands();
        let Session { table, work, .. } = self;
        (table, work)
    }

    // What holds of the table; and no chains have two lists of classifiers.
    fn stands(&self)
        ensures stands { Stands (table_of self.now) }
        ensures one { ChainsHaveOneListOfClassifiers }
    {
        self.table.stands();
        listings_restore();
        restores_leave_what_they_accept();
        calls_leave_what_they_accept();
    }

    // The line that was read.
    fn execute<W: Write>(
        &mut self,
        progress: &mut Progress,
        too_long: bool,
        output: &mut Tap<W>,
    ) -> Result<(), WriteFailed>
        requires number { progress.old.number + 1 < 2 ^ 64 }
        requires fresh { has_failed output.old ≡ false }
        requires within { vec_len self.old.line ≤ 10240 }
        ensures executes { (text : List ℕ) → IsHeld 10240 text self.old.line.items too_long →
            ExecutesLine W.contents (table_of self.old).table progress.old (boxes_of self.old) (table_of self.new).table progress.new (boxes_of self.new)
            output.old output.new result text }
        ensures number { progress.new.number ≡ progress.old.number + 1 }
        ensures work { (text : List ℕ) → IsHeld 10240 text self.old.line.items too_long →
            MakesBoxes (may_box progress.old.mode text) (boxes_of self.old) (boxes_of self.new) }
    {
        progress.number += 1;
        let mode = mem::replace(&mut progress.mode, Mode::Outside);
        let Outcome { mode, reply } = take_line(
            self.alloc,
            &mut self.table,
            &mut self.work,
            mode,
            self.line.as_slice(),
            too_long,
        );
        progress.mode = mode;
        progress.report(&self.table, reply, output)
    }

    // Executes the lines of the input, each before the next is read: up to the end of the input, or up to the fault of a
    // restore that no line ends.
    fn execute_lines<R: BufRead, W: Write>(
        &mut self,
        progress: &mut Progress,
        console: &mut Console<'_, R, W>,
    ) -> Result<(), RunFault>
        requires input { has_failed (reader console.old) ≡ false }
        requires output { has_failed (writer console.old) ≡ false }
        requires number { progress.old.number ≡ 0 }
        requires going { has_ended progress.old.mode ≡ false }
        ensures executes { ExecutesLines (state_of (table_of self.old).table progress.old []) (moment_on R.remaining W.contents self.old console.old) result
            (moment_on R.remaining W.contents self.new console.new) progress.new }
        ensures same { HasSameTaps console.old console.new }
        ensures prompt { is_late (reader console.new) ≡ is_late (reader console.old) }
        ensures ready { OnOk result (has_failed (writer console.new) ≡ false) }
        ensures read_failed { result ≡ Err RunFault.ReadFailed ↔ has_failed (reader console.new) ≡ true }
        ensures write_failed { result ≡ Err RunFault.WriteFailed ↔ has_failed (writer console.new) ≡ true }
    {
        let _limit = console.turns();
        'lines: loop {
            let read = match next_line(console, &mut self.line) {
                Ok(read) => read,
                Err(fault) => return Err(fault),
            };
            match read.end {
                LineEnd::Nothing => return Ok(()),
                LineEnd::Newline => match self.execute(progress, read.too_long, console.output) {
                    Ok(()) => {
                        if progress.mode.has_ended() {
                            return Ok(());
                        }
                    }
                    Err(_) => return Err(RunFault::WriteFailed),
                },
                LineEnd::Input => {
                    return match self.execute(progress, read.too_long, console.output) {
                        Ok(()) => Ok(()),
                        Err(_) => Err(RunFault::WriteFailed),
                    };
                }
            }
        }
    }

    // The same, and what holds of the table afterwards.
    fn execute_all<R: BufRead, W: Write>(
        &mut self,
        progress: &mut Progress,
        console: &mut Console<'_, R, W>,
    ) -> Result<(), RunFault>
        requires input { has_failed (reader console.old) ≡ false }
        requires output { has_failed (writer console.old) ≡ false }
        requires number { progress.old.number ≡ 0 }
        requires going { has_ended progress.old.mode ≡ false }
        ensures executes { ExecutesLines (state_of (table_of self.old).table progress.old []) (moment_on R.remaining W.contents self.old console.old) result
            (moment_on R.remaining W.contents self.new console.new) progress.new }
        ensures same { HasSameTaps console.old console.new }
        ensures prompt { is_late (reader console.new) ≡ is_late (reader console.old) }
        ensures ready { OnOk result (has_failed (writer console.new) ≡ false) }
        ensures read_failed { result ≡ Err RunFault.ReadFailed ↔ has_failed (reader console.new) ≡ true }
        ensures write_failed { result ≡ Err RunFault.WriteFailed ↔ has_failed (writer console.new) ≡ true }
        ensures stands { Stands (table_of self.new) }
        ensures one { ChainsHaveOneListOfClassifiers }
    {
        let executed = self.execute_lines(progress, console);
        self.stands();
        executed
    }

    /// Runs the lines of the input from the table as it is, and answers the status: that of the first fault, 0
    /// without one. Lines count from 1. The taps haven't failed yet. It is `run_on` of both taps.
    ///
    /// Each line is executed before the next is read. The replies are handed on, by a flush of the writer, before the
    /// reader's device is asked for more bytes, and at the end of the run. So whoever waits for a reply before the
    /// next line gets it, and the replies to lines that come at once are handed on at once.
    ///
    /// Whatever the answer, what was read and written is what some lines give, one after another; the table is
    /// theirs, and the headline holds of them. With a status the run did what the session of all bytes of the input
    /// gives: output, status and table. Which allocations were refused is part of that: each line has a mark, which
    /// says whether memory was refused to it.
    ///
    /// After a `RunFault` it may be called again, with new taps; a restore that was open is given up.
    ///
    /// A line that puts a rule into a chain, outside of restores or in one, makes one box, or where it is refused one
    /// at most; others make none. A line costs what its command costs, and time linear in its length and its reply.
    ///
    /// # Errors
    ///
    /// `ReadFailed` exactly where the reader's tap has failed, `WriteFailed` exactly where the writer's has.
    pub fn run<R: BufRead, W: Write>(
        &mut self,
        input: &mut Tap<R>,
        output: &mut Tap<W>,
    ) -> Result<u8, RunFault>
        requires input { has_failed input.old ≡ false }
        requires output { has_failed output.old ≡ false }
        ensures runs { RunsTo OfSession (moment R.remaining W.contents self.old input.old output.old) result
            (moment R.remaining W.contents self.new input.new output.new) }
        ensures ended { OnOk result (EndsAt (known R.remaining input.old) (known R.remaining input.new)) }
        ensures prompt { is_late input.new ≡ is_late input.old }
        ensures handed { OnOk result (is_unflushed output.new ≡ false) }
        ensures read_failed { result ≡ Err RunFault.ReadFailed ↔ has_failed input.new ≡ true }
        ensures write_failed { result ≡ Err RunFault.WriteFailed ↔ has_failed output.new ≡ true }
    {
        let mut console = Console::new(input, output);
        self.run_on(&mut console)
    }

    /// Runs the lines of a console's reader, and writes their replies to its writer, as `run` does.
    ///
    /// # Errors
    ///
    /// Those of `run`.
    pub fn run_on<R: BufRead, W: Write>(
        &mut self,
        console: &mut Console<'_, R, W>,
    ) -> Result<u8, RunFault>
        requires input { has_failed (reader console.old) ≡ false }
        requires output { has_failed (writer console.old) ≡ false }
        ensures runs { RunsTo OfSession (moment_on R.remaining W.contents self.old console.old) result
            (moment_on R.remaining W.contents self.new console.new) }
        ensures same { HasSameTaps console.old console.new }
        ensures prompt { is_late (reader console.new) ≡ is_late (reader console.old) }
        ensures ended { OnOk result (EndsAt (known R.remaining (reader console.old)) (known R.remaining (reader console.new))) }
        ensures handed { OnOk result (is_unflushed (writer console.new) ≡ false) }
        ensures read_failed { result ≡ Err RunFault.ReadFailed ↔ has_failed (reader console.new) ≡ true }
        ensures write_failed { result ≡ Err RunFault.WriteFailed ↔ has_failed (writer console.new) ≡ true }
    {
        let mut progress = Progress::begin(Mode::Outside);
        match self.execute_all(&mut progress, console) {
            Ok(()) => progress.finish_session(&self.table, console.output),
            Err(fault) => Err(fault),
        }
    }

    /// Reads the whole input as one restore, whose lines count from 1, and answers the status: that of the first
    /// fault, after which no line is read, or 0. Without a fault the listing is written, if `list` says so. The taps
    /// haven't failed yet. It is `restore_on` of both taps, and says the same of what was read and written as `run`.
    ///
    /// With `noflush` each section begins from the table in place, and else from its policies alone; with `test` no
    /// table is put in place.
    ///
    /// # Errors
    ///
    /// Those of `run`.
    pub fn restore<R: BufRead, W: Write>(
        &mut self,
        noflush: bool,
        test: bool,
        list: bool,
        input: &mut Tap<R>,
        output: &mut Tap<W>,
    ) -> Result<u8, RunFault>
        requires input { has_failed input.old ≡ false }
        requires output { has_failed output.old ≡ false }
        ensures runs { RunsTo (OfRestore noflush test list) (moment R.remaining W.contents self.old input.old output.old) result
            (moment R.remaining W.contents self.new input.new output.new) }
        ensures prompt { is_late input.new ≡ is_late input.old }
        ensures handed { OnOk result (is_unflushed output.new ≡ false) }
        ensures read_failed { result ≡ Err RunFault.ReadFailed ↔ has_failed input.new ≡ true }
        ensures write_failed { result ≡ Err RunFault.WriteFailed ↔ has_failed output.new ≡ true }
    {
        let mut console = Console::new(input, output);
        self.restore_on(noflush, test, list, &mut console)
    }

    /// Reads a console's whole input as one restore, as `restore` does.
    ///
    /// # Errors
    ///
    /// Those of `run`.
    pub fn restore_on<R: BufRead, W: Write>(
        &mut self,
        noflush: bool,
        test: bool,
        list: bool,
        console: &mut Console<'_, R, W>,
    ) -> Result<u8, RunFault>
        requires input { has_failed (reader console.old) ≡ false }
        requires output { has_failed (writer console.old) ≡ false }
        ensures runs { RunsTo (OfRestore noflush test list) (moment_on R.remaining W.contents self.old console.old) result
            (moment_on R.remaining W.contents self.new console.new) }
        ensures same { HasSameTaps console.old console.new }
        ensures prompt { is_late (reader console.new) ≡ is_late (reader console.old) }
        ensures handed { OnOk result (is_unflushed (writer console.new) ≡ false) }
        ensures read_failed { result ≡ Err RunFault.ReadFailed ↔ has_failed (reader console.new) ≡ true }
        ensures write_failed { result ≡ Err RunFault.WriteFailed ↔ has_failed (writer console.new) ≡ true }
    {
        let restore = Restore::new(self.alloc, noflush, test);
        let mut progress = Progress::begin(Mode::InRestore(None, restore));
        match self.execute_all(&mut progress, console) {
            Ok(()) => progress.finish_restore(list, &self.table, console.output),
            Err(fault) => Err(fault),
        }
    }
}
