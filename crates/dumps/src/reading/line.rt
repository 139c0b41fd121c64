//! What a line of a section is to the rules before it.
ghost use Rattle.std.specs.Prelude.{◌≡◌, ◌==◌, ◌∷◌, drop, option_map};
ghost use Rattle.std.specs.List.{list_any};
ghost use Rattle.fields.specs.text.WordSlice.{words_in};
ghost use Rattle.dumps.specs.Parts.{first_of};
ghost use Rattle.dumps.specs.SectionLines.{begins_with, is_either, is_commit_word, is_commit, rule_after, rule_line, command_line, behind_table, any_command_line, counted_line, line_of_first, other_line};
ghost use Rattle.dumps.specs.Views.{rule_line_in, other_line_in};

use fields::{WordSlice, Words};

/// A line that puts a rule last in a chain.
#[derive(Clone, Copy)]
pub(crate) struct RuleLine<'a> {
    // Counters before the command, as they stand.
    pub(crate) counters: Option<&'a [u8]>,
    // `-A` or `--append`.
    pub(crate) command: &'a [u8],
    pub(crate) chain: &'a [u8],
    // The words of the rule.
    pub(crate) words: WordSlice<'a>,
}

/// What another line of the section `filter` does.
#[derive(Clone, Copy)]
pub(crate) enum OtherLine<'a> {
    // Nothing, or it sets a policy.
    Quiet,
    // It makes a chain of this name.
    NewChain(&'a [u8]),
    // It is a chain line of this name, which takes away the rules of the chain.
    ChainLine(&'a [u8]),
    // Its command gives a chain this name, and rules may move.
    Renames(&'a [u8], &'a [u8]),
    // Its command may move rules.
    Moves(&'a [u8]),
}

// Whether a word begins with a byte.
pub(crate) fn begins_with(word: &[u8], byte: u8) -> bool
    ensures { result ≡ begins_with byte word.now }
{
    match word.first() {
        Some(first) => *first == byte,
        None => false,
    }
}

// Whether a word is one of two spellings.
fn is_either(word: &[u8], short: &[u8], long: &[u8]) -> bool
    ensures { result ≡ is_either short.now long.now word.now }
{
    word == short || word == long
}

// Whether the only word is `COMMIT`.
fn is_commit_word(words: WordSlice<'_>) -> bool
    ensures { result ≡ is_commit_word (words_in words.entry) }
{
    match words.split_first() {
        None => false,
        Some((word, rest)) => rest.is_empty() && word == b"COMMIT".as_slice(),
    }
}

// Whether a line has a `"`.
fn has_quote(line: &[u8]) -> bool
    ensures { result ≡ list_any (λ byte. byte == 34) line.now }
{
    line.iter().any(|byte| *byte == b'"')
}

// Whether a line is `COMMIT`, with blanks and tabs round it or not.
pub(crate) fn is_commit(line: &[u8], words: WordSlice<'_>) -> bool
    ensures { result ≡ is_commit line.now (words_in words.entry) }
{
    is_commit_word(words) && !has_quote(line)
}

// The line with a rule that these words write, after counters.
fn rule_after<'a>(counters: Option<&'a [u8]>, words: WordSlice<'a>) -> Option<RuleLine<'a>>
    ensures { option_map rule_line_in result
        ≡ rule_after (option_map (λ counters. counters.now) counters.entry) (words_in words.entry) }
{
    let (command, after) = words.split_first()?;
    let (chain, words) = after.split_first()?;
    if !is_either(command, b"-A", b"--append") {
        return None;
    }
    Some(RuleLine {
        counters,
        command,
        chain,
        words,
    })
}

// The line with a rule that these words write.
pub(crate) fn rule_line(words: WordSlice<'_>) -> Option<RuleLine<'_>>
    ensures { option_map rule_line_in result ≡ rule_line (words_in words.entry) }
{
    let (first, after) = words.split_first()?;
    if begins_with(first, b'[') {
        return rule_after(Some(first), after);
    }
    rule_after(None, words)
}

// The first word, or the empty word.
fn first_of<'a>(words: WordSlice<'a>) -> &'a [u8]
    ensures { result.now ≡ first_of (words_in words.entry) }
{
    match words.split_first() {
        None => return b"".as_slice(),
        Some((word, _)) => return word,
    }
}

// The words after the first so many, or none.
fn words_after<'a>(count: usize, words: WordSlice<'a>) -> WordSlice<'a>
    ensures { words_in result ≡ drop count (words_in words.entry) }
{
    words.split_at(words.len().min(count)).1
}

// What a command does that no table is named before, with the words after it.
fn command_line<'a>(command: &'a [u8], words: WordSlice<'a>) -> OtherLine<'a>
    ensures { other_line_in result ≡ command_line command.now (words_in words.entry) }
{
    if is_either(command, b"-N", b"--new-chain") {
        return OtherLine::NewChain(first_of(words));
    }
    if is_either(command, b"-P", b"--policy") {
        return OtherLine::Quiet;
    }
    if is_either(command, b"-E", b"--rename-chain") {
        return OtherLine::Renames(first_of(words_after(1, words)), command);
    }
    OtherLine::Moves(command)
}

// What a command does behind the option that names a table.
fn behind_table<'a>(option: &'a [u8], line: OtherLine<'a>) -> OtherLine<'a>
    ensures { other_line_in result ≡ behind_table option.now (other_line_in line.entry) }
{
    match line {
        OtherLine::NewChain(name) => return OtherLine::Renames(name, option),
        OtherLine::Renames(name, _) => return OtherLine::Renames(name, option),
        _ => return OtherLine::Moves(option),
    }
}

// What a command does, with the words after it.
fn any_command_line<'a>(command: &'a [u8], words: WordSlice<'a>) -> OtherLine<'a>
    ensures { other_line_in result ≡ any_command_line command.now (words_in words.entry) }
{
    if is_either(command, b"-t", b"--table") {
        let line = command_line(first_of(words_after(1, words)), words_after(2, words));
        return behind_table(command, line);
    }
    command_line(command, words)
}

// What the words do, after counters.
fn counted_line(words: WordSlice<'_>) -> OtherLine<'_>
    ensures { other_line_in result ≡ counted_line (words_in words.entry) }
{
    match words.split_first() {
        None => return OtherLine::Quiet,
        Some((command, after)) => return any_command_line(command, after),
    }
}

// What the words of a line without a rule do, of which this is the first.
fn line_of_first<'a>(first: &'a [u8], words: WordSlice<'a>, after: WordSlice<'a>) -> OtherLine<'a>
    requires { words_in words ≡ first.now ∷ words_in after }
    ensures { other_line_in result ≡ line_of_first first.now (words_in after.entry) }
{
    match first.split_first() {
        None => return OtherLine::Moves(first),
        Some((b'#', _)) => return OtherLine::Quiet,
        Some((b':', name)) => return OtherLine::ChainLine(name),
        Some((b'[', _)) => return counted_line(after),
        Some(_) => return counted_line(words),
    }
}

// What the words of a line without a rule do.
pub(crate) fn other_line(words: WordSlice<'_>) -> OtherLine<'_>
    ensures { other_line_in result ≡ other_line (words_in words.entry) }
{
    match words.split_first() {
        None => return OtherLine::Quiet,
        Some((first, after)) => return line_of_first(first, words, after),
    }
}
