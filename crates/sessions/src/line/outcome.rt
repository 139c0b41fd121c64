//! What a line of a session does, by where it stands: the table after it, where the next line stands, and the answer.
ghost use Rattle.std.specs.Prelude.{◌≡◌, ◌≤◌, ℕ, List, Ok, Err, OnOk, IsTrue, length, option_map};
ghost use Rattle.fields.specs.text.Line.{IsHeld};
ghost use Rattle.table.specs.edits.Edits.{MakesBoxes, MakesOneBox};
ghost use Rattle.restore.specs.commands.Command.{IsChange, command_puts, meaning as command_meaning, ListRules};
ghost use Rattle.table.specs.chains.Table.{TableView};
ghost use Rattle.sessions.specs.line.Boxes.{asks_put, may_box};
ghost use Rattle.sessions.specs.line.Fault.{of_line};
ghost use Rattle.sessions.specs.line.Request.{Ask, Run, Show, request_of};
ghost use Rattle.sessions.specs.line.Outcome.{Outside, AfterFault, InRestore, after_fault, is_end, opened, execute};
ghost use Rattle.sessions.specs.line.Executed.{IsOutcomeOf};
ghost use Rattle.sessions.specs.steps.Lines.{Comes, meaning};

use crate::line::fault::Fault;
use crate::line::mode::Mode;
use crate::line::opening::{EndWord, Opening};
use crate::line::request::Request;
use crate::reply::answer::Answer;
use fields::{Packet, WordFault, Words};
use restore::{Command, Restore, RestoreFault, apply, is_quiet};
use rules::Work;
use std::alloc::Global;
use table::{Table, TableFault};

/// What came of a line: where the next line stands, and what is to be printed.
pub(crate) struct Outcome {
    /// Where the next line stands.
    pub(crate) mode: Mode,
    /// What is to be printed, or why the line is refused.
    pub(crate) reply: Result<Answer, Fault>,
}

impl Outcome {
    fn answers(mode: Mode, answer: Answer) -> Outcome
        ensures mode { result.mode ≡ mode }
        ensures reply { result.reply ≡ Ok answer }
    {
        Outcome {
            mode,
            reply: Ok(answer),
        }
    }

    // A refusal, which ends a restore.
    fn fails(mode: Mode, fault: Fault) -> Outcome
        ensures mode { result.mode ≡ after_fault mode }
        ensures reply { result.reply ≡ Err fault }
    {
        Outcome {
            mode: mode.after_fault(),
            reply: Err(fault),
        }
    }
}

// Does a command that edits the table.
fn edit(table: &mut Table, work: &mut Work, command: Command<'_>) -> Outcome
    requires { IsChange (command_meaning command) }
    ensures comes { Comes (execute table.old.table (Ok (Run (command_meaning command.entry)))) Outside table.old table.new result }
    ensures work { MakesBoxes (command_puts (command_meaning command.entry)) work.old work.new }
    ensures boxed { IsTrue (command_puts (command_meaning command.entry)) → OnOk result.reply (MakesOneBox work.old work.new) }
{
    match apply(table, command, work) {
        Ok(()) => Outcome::answers(Mode::Outside, Answer::Nothing),
        Err(fault) => Outcome::fails(Mode::Outside, Fault::of_line(RestoreFault::Table(fault))),
    }
}

// A chain isn't there.
fn no_such_chain() -> Outcome
    ensures mode { result.mode ≡ Outside }
    ensures reply { result.reply ≡ Err (of_line (RestoreFault.Table TableFault.NoSuchChain)) }
{
    Outcome::fails(
        Mode::Outside,
        Fault::Line(RestoreFault::Table(TableFault::NoSuchChain)),
    )
}

// Lists the rules of the chain of a name, or of all.
fn list_rules(table: &Table, name: Option<&[u8]>) -> Outcome
    ensures { Comes (execute table.now.table (Ok (Run (ListRules (option_map (λ c. c.now) name.entry))))) Outside table.now table.now result }
{
    let Some(name) = name else {
        return Outcome::answers(Mode::Outside, Answer::Rules(None));
    };
    match table.index_of(name) {
        Some(place) => Outcome::answers(Mode::Outside, Answer::Rules(Some(place))),
        None => no_such_chain(),
    }
}

// Shows the classifier of the chain of a name.
fn show(table: &Table, name: &[u8]) -> Outcome
    ensures { Comes (execute table.now.table (Ok (Show name.now))) Outside table.now table.now result }
{
    match table.index_of(name) {
        Some(place) => Outcome::answers(Mode::Outside, Answer::Lines(place)),
        None => no_such_chain(),
    }
}

// Opens a restore that the next lines hold.
fn open(alloc: Global, opening: Opening) -> Outcome
    ensures mode { result.mode ≡ opened opening }
    ensures reply { result.reply ≡ Ok Answer.Nothing }
{
    let Opening { options, word } = opening;
    let restore = Restore::new(alloc, options.noflush, options.test);
    Outcome::answers(Mode::InRestore(Some(word), restore), Answer::Nothing)
}

// Walks a packet through the table.
fn ask(table: &Table, packet: Packet) -> Outcome
    ensures { Comes (execute table.now.table (Ok (Ask packet))) Outside table.now table.now result }
{
    match table.trail(&packet) {
        Ok(trail) => Outcome::answers(Mode::Outside, Answer::Walk(trail)),
        Err(_) => Outcome::fails(Mode::Outside, Fault::NoMemory),
    }
}

// Does a command.
fn run(table: &mut Table, work: &mut Work, command: Command<'_>) -> Outcome
    ensures comes { Comes (execute table.old.table (Ok (Run (command_meaning command.entry)))) Outside table.old table.new result }
    ensures work { MakesBoxes (command_puts (command_meaning command.entry)) work.old work.new }
    ensures boxed { IsTrue (command_puts (command_meaning command.entry)) → OnOk result.reply (MakesOneBox work.old work.new) }
{
    match command {
        Command::ListRules(name) => list_rules(table, name),
        command => edit(table, work, command),
    }
}

// Does what a line outside of restores asks for.
fn execute(alloc: Global, table: &mut Table, work: &mut Work, request: Request<'_>) -> Outcome
    ensures comes { Comes (execute table.old.table (Ok (meaning request.entry))) Outside table.old table.new result }
    ensures work { MakesBoxes (asks_put (Ok (meaning request.entry))) work.old work.new }
    ensures boxed { IsTrue (asks_put (Ok (meaning request.entry))) → OnOk result.reply (MakesOneBox work.old work.new) }
{
    match request {
        Request::Run(command) => run(table, work, command),
        Request::Save => Outcome::answers(Mode::Outside, Answer::Listing),
        Request::Open(opening) => open(alloc, opening),
        Request::Ask(packet) => ask(table, packet),
        Request::Show(name) => show(table, name),
    }
}

// Does the words of a line outside of restores.
fn execute_words(alloc: Global, table: &mut Table, work: &mut Work, words: &Words) -> Outcome
    ensures comes { Comes (execute table.old.table (request_of words.now)) Outside table.old table.new result }
    ensures work { MakesBoxes (asks_put (request_of words.now)) work.old work.new }
    ensures boxed { IsTrue (asks_put (request_of words.now)) → OnOk result.reply (MakesOneBox work.old work.new) }
{
    match Request::read(alloc, words) {
        Ok(request) => execute(alloc, table, work, request),
        Err(fault) => Outcome::fails(Mode::Outside, fault),
    }
}

// A line outside of restores.
#[tactic(auto, unfolding(crate::specs::line::Request::request_on))]
fn outside(
    alloc: Global,
    table: &mut Table,
    work: &mut Work,
    line: &[u8],
    too_long: bool,
) -> Outcome
    requires { length line.now ≤ 10240 }
    ensures outcome { (text : List ℕ) → IsHeld 10240 text line.now too_long → IsOutcomeOf text Outside table.old table.new result }
    ensures work { (text : List ℕ) → IsHeld 10240 text line.now too_long → MakesBoxes (may_box Outside text) work.old work.new }
    ensures boxed { (text : List ℕ) → IsHeld 10240 text line.now too_long → IsTrue (may_box Outside text) → OnOk result.reply (MakesOneBox work.old work.new) }
{
    if too_long {
        return Outcome::fails(Mode::Outside, Fault::Line(RestoreFault::LineTooLong));
    }
    if is_quiet(line) {
        return Outcome::answers(Mode::Outside, Answer::Nothing);
    }
    match Words::split(alloc, line) {
        Ok(words) => execute_words(alloc, table, work, &words),
        Err(WordFault::Quoting) => {
            Outcome::fails(Mode::Outside, Fault::Line(RestoreFault::Quoting))
        }
        Err(WordFault::NoMemory) => Outcome::fails(Mode::Outside, Fault::NoMemory),
    }
}

// Whether a line ends a restore. The word of its end line is shorter than any line that is too long.
fn is_end(word: &Option<EndWord>, line: &[u8], too_long: bool) -> bool
    ensures { (text : List ℕ) → IsHeld 10240 text line.now too_long → result ≡ is_end word.now text }
{
    match word {
        Some(word) => {
            let bytes = word.bytes();
            !too_long && line == bytes
        }
        None => false,
    }
}

// A line in a restore.
fn within(
    table: &mut Table,
    work: &mut Work,
    word: Option<EndWord>,
    restore: Restore,
    line: &[u8],
    too_long: bool,
) -> Outcome
    requires { length line.now ≤ 10240 }
    ensures outcome { (text : List ℕ) → IsHeld 10240 text line.now too_long → IsOutcomeOf text (InRestore word restore) table.old table.new result }
    ensures work { (text : List ℕ) → IsHeld 10240 text line.now too_long → MakesBoxes (may_box (InRestore word restore) text) work.old work.new }
    ensures boxed { (text : List ℕ) → IsHeld 10240 text line.now too_long → IsTrue (may_box (InRestore word restore) text) → OnOk result.reply (MakesOneBox work.old work.new) }
{
    if is_end(&word, line, too_long) {
        return match restore.finish() {
            Ok(()) => Outcome::answers(Mode::Outside, Answer::Nothing),
            Err(fault) => Outcome::fails(Mode::Outside, Fault::of_line(fault)),
        };
    }
    if too_long {
        return Outcome::fails(
            Mode::AfterFault(word),
            Fault::Line(RestoreFault::LineTooLong),
        );
    }
    match restore.line(table, line, work) {
        Ok(next) => Outcome::answers(Mode::InRestore(word, next), Answer::Nothing),
        Err(fault) => Outcome::fails(Mode::AfterFault(word), Fault::of_line(fault)),
    }
}

// A line after the fault of a restore.
fn passing(word: Option<EndWord>, line: &[u8], too_long: bool) -> Outcome
    ensures { (text : List ℕ) → IsHeld 10240 text line.now too_long → (table : TableView) → IsOutcomeOf text (AfterFault word) table table result }
{
    if is_end(&word, line, too_long) {
        return Outcome::answers(Mode::Outside, Answer::Nothing);
    }
    Outcome::answers(Mode::AfterFault(word), Answer::Nothing)
}

/// Does a line that stands at `mode`: `line` without its newline, or the first 10,240 bytes of one that is `too_long`. A
/// line that is refused leaves the table; in a restore it ends the restore.
///
/// It costs what the command of the line costs, and time linear in its length.
pub(crate) fn take_line(
    alloc: Global,
    table: &mut Table,
    work: &mut Work,
    mode: Mode,
    line: &[u8],
    too_long: bool,
) -> Outcome
    requires { length line.now ≤ 10240 }
    ensures outcome { (text : List ℕ) → IsHeld 10240 text line.now too_long → IsOutcomeOf text mode table.old table.new result }
    ensures work { (text : List ℕ) → IsHeld 10240 text line.now too_long → MakesBoxes (may_box mode text) work.old work.new }
    ensures boxed { (text : List ℕ) → IsHeld 10240 text line.now too_long → IsTrue (may_box mode text) → OnOk result.reply (MakesOneBox work.old work.new) }
{
    match mode {
        Mode::Outside => outside(alloc, table, work, line, too_long),
        Mode::InRestore(word, restore) => within(table, work, word, restore, line, too_long),
        Mode::AfterFault(word) => passing(word, line, too_long),
    }
}
