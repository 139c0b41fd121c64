//! Rules that need conditions which no match of the profile has: which of them are dead, whatever holds.
//!
//! The input is a dump of iptables-save. A line `# needs CHAIN NUMBER CONDITION..` of it says what a rule of that number needs: that a
//! condition, told by a number, holds, or after `!` that it doesn't. For each rule a line is printed: `unclear CHAIN NUMBER`; `live CHAIN
//! NUMBER CONDITION..: WORDS`, with the answers under which a packet line shows the rule, and the words of that line; or `dead CHAIN NUMBER`
//! and why: `unknown`, `impossible`, `unreached`, `unmatched`, or `excluded` or `taken` with rules, each by its chain and its number, and with
//! policies, each by `policy` and its hook.
//!
//! Or two dumps are read, of which the second begins with a line `# next`. Then one line says whether they give each packet at INPUT the
//! same verdict, whatever holds: `same`, `unclear`, or `differs CONDITION..: WORDS`, with a packet and the answers under which it shows that.
ghost use Rattle.std.specs.Prelude.{◌<◌, ◌≤◌, length};
ghost use Rattle.table.specs.chains.Table.{chain_at};

use crate::trouble::Trouble;
use crate::written::words_of;
use fields::{Hook, Tap, Words, read_number};
use questions::{
    Answers, BoxedTable, Life, Likeness, Need, Needs, Reason, Subject, Takers, compare_at_under,
    dead_under, why_dead_under,
};
use rules::Work;
use sessions::Session;
use std::alloc::{AllocError, Global};
use std::io::{Read, Write};
use table::{Step, Table};

/// How many steps each question has.
const STEPS: usize = 20_000;

/// What begins a second dump.
const NEXT: &[u8] = b"\n# next\n";

/// What the rules of a table need, chain by chain.
type Listed = Vec<Vec<Vec<Need>>>;

/// The bytes of a reader.
fn read_all<R: Read>(alloc: Global, input: &mut R) -> Result<Vec<u8>, Trouble> {
    let mut bytes = Vec::new(alloc);
    for _turn in 0..u64::MAX {
        let mut some = [0u8; 4096];
        match input.read(&mut some) {
            Ok(0) => return Ok(bytes),
            Ok(count) => bytes.extend_from_slice(&some[..count])?,
            Err(_) => return Err(Trouble::OtherAnswer),
        }
    }
    Err(Trouble::OtherAnswer)
}

/// The table that a dump leaves.
fn restored(alloc: Global, dump: &[u8]) -> Result<Table, Trouble> {
    let mut session = Session::new(alloc)?;
    let mut input = Tap::new(dump);
    let mut output = Tap::new(Vec::new(alloc));
    match session.restore(false, false, false, &mut input, &mut output) {
        Ok(0) => Ok(session.into_parts().0),
        _ => Err(Trouble::OtherAnswer),
    }
}

/// Nothing for any rule of a table.
fn nothing_needed(alloc: Global, table: &Table) -> Result<Listed, AllocError> {
    let mut chains = Vec::new(alloc);
    for place in 0..table.chain_count() {
        let mut rules = Vec::new(alloc);
        for _passed in 0..table.rule_count(place) {
            rules.push(Vec::new(alloc))?;
        }
        chains.push(rules)?;
    }
    Ok(chains)
}

/// What a word says that a rule needs.
fn need_of(word: &[u8]) -> Option<Need> {
    let (inverted, digits) = match word.split_first() {
        Some((b'!', digits)) => (true, digits),
        _ => (false, word),
    };
    Some(Need {
        condition: read_number(digits)? as usize,
        inverted,
    })
}

/// Adds a need.
fn push(needs: &mut Vec<Need>, need: Need) -> Result<(), AllocError> {
    needs.push(need)?;
    Ok(())
}

/// Adds what a line says that a rule needs.
fn add_needs(table: &Table, words: &Words, listed: &mut Listed) -> Result<(), Trouble> {
    if words.len() < 4 {
        return Err(Trouble::OtherAnswer);
    }
    let (Some(place), Some(number)) = (table.index_of(words.get(2)), read_number(words.get(3)))
    else {
        return Err(Trouble::OtherAnswer);
    };
    let Some(rules) = listed.get_mut(place) else {
        return Err(Trouble::OtherAnswer);
    };
    let Some(needs) = rules.get_mut((number as usize).saturating_sub(1)) else {
        return Err(Trouble::OtherAnswer);
    };
    for at in 4..words.len() {
        match need_of(words.get(at)) {
            Some(need) => push(needs, need)?,
            None => return Err(Trouble::OtherAnswer),
        }
    }
    Ok(())
}

/// What a dump says that the rules of its table need.
fn needs_of(alloc: Global, table: &Table, dump: &[u8]) -> Result<Needs, Trouble> {
    let mut listed = nothing_needed(alloc, table)?;
    for line in dump.split(|byte| *byte == b'\n') {
        if line.starts_with(b"# needs ") {
            add_needs(table, &words_of(alloc, line)?, &mut listed)?;
        }
    }
    Ok(Needs::of(listed))
}

/// Puts some bytes.
fn put<W: Write>(output: &mut Tap<W>, bytes: &[u8]) -> Result<(), Trouble> {
    output.put(bytes).or(Err(Trouble::OtherAnswer))
}

/// Puts the answers, each after a blank.
fn put_answers<W: Write>(
    alloc: Global,
    output: &mut Tap<W>,
    answers: &Answers,
) -> Result<(), Trouble> {
    for answer in answers.listed() {
        put(output, if answer.holds { b" " } else { b" !" })?;
        let number = format!(in alloc; "{}", answer.condition)?;
        put(output, number.as_bytes())?;
    }
    Ok(())
}

/// Puts the words of a packet line, each after a blank.
fn put_words<W: Write>(output: &mut Tap<W>, words: &Words) -> Result<(), Trouble> {
    for place in 0..words.len() {
        put(output, b" ")?;
        put(output, words.get(place))?;
    }
    Ok(())
}

/// Puts rules, each by its chain and its number.
fn put_steps<W: Write>(
    alloc: Global,
    output: &mut Tap<W>,
    table: &Table,
    steps: &[Step],
) -> Result<(), Trouble> {
    for step in steps {
        if step.chain >= table.chain_count() {
            return Err(Trouble::OtherAnswer);
        }
        put(output, b" ")?;
        put(output, table.chain_name(step.chain))?;
        let number = format!(in alloc; " {}", step.number)?;
        put(output, number.as_bytes())?;
    }
    Ok(())
}

/// Puts rules and policies.
fn put_takers<W: Write>(
    alloc: Global,
    output: &mut Tap<W>,
    table: &Table,
    takers: &Takers,
) -> Result<(), Trouble> {
    put(output, b" taken")?;
    put_steps(alloc, output, table, takers.rules.as_slice())?;
    for hook in takers.policies.as_slice() {
        put(output, b" policy ")?;
        put(output, hook.name())?;
    }
    Ok(())
}

/// Puts why a rule is dead.
fn put_reason<W: Write>(
    alloc: Global,
    output: &mut Tap<W>,
    table: &Table,
    reason: Option<&Reason>,
) -> Result<(), Trouble> {
    match reason {
        None => put(output, b" unknown"),
        Some(Reason::Impossible(_)) => put(output, b" impossible"),
        Some(Reason::Unreached) => put(output, b" unreached"),
        Some(Reason::NoPacket) => put(output, b" unmatched"),
        Some(Reason::Excluded(ways)) => {
            put(output, b" excluded")?;
            put_steps(alloc, output, table, ways.as_slice())
        }
        Some(Reason::Taken(takers)) => put_takers(alloc, output, table, takers),
    }
}

/// Puts a rule by its chain and its number, after what is known of it.
fn put_rule<W: Write>(
    alloc: Global,
    output: &mut Tap<W>,
    said: &[u8],
    chain: &[u8],
    number: usize,
) -> Result<(), Trouble> {
    put(output, said)?;
    put(output, chain)?;
    let number = format!(in alloc; " {number}")?;
    put(output, number.as_bytes())
}

/// Asks about a rule, and puts what is known of it.
fn put_life<W: Write>(
    alloc: Global,
    output: &mut Tap<W>,
    subject: &Subject<'_>,
    place: usize,
    number: usize,
) -> Result<(), Trouble>
    requires place { place < length subject.now.boxed.now.table.table.chains }
    requires first { 0 < number }
    requires last { number ≤ length (chain_at subject.now.boxed.now.table.table place).rules }
{
    let table = &subject.boxed.table;
    let chain = table.chain_name(place);
    match dead_under(alloc, subject, place, number, STEPS)? {
        Life::Unclear => put_rule(alloc, output, b"unclear ", chain, number)?,
        Life::Dead => {
            put_rule(alloc, output, b"dead ", chain, number)?;
            let reason = why_dead_under(alloc, subject, place, number, STEPS)?;
            put_reason(alloc, output, table, reason.as_ref())?;
        }
        Life::Live(words, answers) => {
            put_rule(alloc, output, b"live ", chain, number)?;
            put_answers(alloc, output, &answers)?;
            put(output, b":")?;
            put_words(output, &words)?;
        }
    }
    put(output, b"\n")
}

/// Asks about each rule of a chain.
fn put_chain<W: Write>(
    alloc: Global,
    output: &mut Tap<W>,
    subject: &Subject<'_>,
    place: usize,
) -> Result<(), Trouble>
    requires { place < length subject.now.boxed.now.table.table.chains }
{
    let count = subject.boxed.table.rule_count(place);
    for passed in 0..count {
        put_life(alloc, output, subject, place, passed + 1)?;
    }
    Ok(())
}

/// A table that is asked about, and what its rules need.
fn subject_of(alloc: Global, dump: &[u8]) -> Result<(BoxedTable, Needs), Trouble> {
    let table = restored(alloc, dump)?;
    let needs = needs_of(alloc, &table, dump)?;
    Ok((BoxedTable::of(alloc, table, &mut Work::new())?, needs))
}

/// Prints what is known of each rule of a dump.
fn put_lives<W: Write>(alloc: Global, output: &mut Tap<W>, dump: &[u8]) -> Result<(), Trouble> {
    let (boxed, needs) = subject_of(alloc, dump)?;
    let subject = Subject {
        boxed: &boxed,
        needs: &needs,
    };
    for place in 0..boxed.table.chain_count() {
        put_chain(alloc, output, &subject, place)?;
    }
    Ok(())
}

/// Prints what is known of two dumps, for the packets at INPUT.
fn put_likeness<W: Write>(
    alloc: Global,
    output: &mut Tap<W>,
    old: &[u8],
    new: &[u8],
) -> Result<(), Trouble> {
    let (old, old_needs) = subject_of(alloc, old)?;
    let (new, new_needs) = subject_of(alloc, new)?;
    let first = Subject {
        boxed: &old,
        needs: &old_needs,
    };
    let second = Subject {
        boxed: &new,
        needs: &new_needs,
    };
    match compare_at_under(alloc, &first, &second, Hook::Input, STEPS)? {
        Likeness::Same => put(output, b"same\n"),
        Likeness::Unclear => put(output, b"unclear\n"),
        Likeness::Differ(words, answers) => {
            put(output, b"differs")?;
            put_answers(alloc, output, &answers)?;
            put(output, b":")?;
            put_words(output, &words)?;
            put(output, b"\n")
        }
    }
}

/// Reads a dump and prints what is known of each of its rules; or two, and whether they give each packet the same verdict.
pub fn answer<R: Read, W: Write + Drop>(
    alloc: Global,
    input: &mut R,
    writer: W,
) -> Result<(), Trouble> {
    let bytes = read_all(alloc, input)?;
    let bytes = bytes.as_slice();
    let mut output = Tap::new(writer);
    match bytes.windows(NEXT.len()).position(|window| window == NEXT) {
        None => put_lives(alloc, &mut output, bytes)?,
        Some(at) => put_likeness(alloc, &mut output, &bytes[..at], &bytes[at..])?,
    }
    output.flush().or(Err(Trouble::OtherAnswer))
}
