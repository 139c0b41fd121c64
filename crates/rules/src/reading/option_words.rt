//! An option as words give it: an optional `!`, a spelling of the option, its values.
ghost use Rattle.std.specs.Prelude.{◌≡◌, ◌≤◌, ◌<◌, ◌+◌, ◌-◌, Option, Some, None, List, length, IfOk};
ghost use Rattle.fields.specs.text.WordSlice.{words_in};
ghost use Rattle.rules.specs.reading.Steps.{with_values, inverted_words, after_bang, plain_words, option_words_at};
ghost use Rattle.rules.specs.steps.Views.{OptionWordsGive};

use crate::options::option::Opt;
use crate::reading::fault::{Refusal, RuleFault};
use fields::WordSlice;

// An option with the words of its values, which are lent, and the place of the option's word.
#[derive(Drop)]
pub(crate) struct OptionWords<'a> {
    pub(crate) inverted: bool,
    pub(crate) option: Opt,
    pub(crate) values: WordSlice<'a>,
    pub(crate) place: usize,
}

// The answer that refuses.
fn refused<T>(refusal: Refusal) -> Result<T, RuleFault>
    ensures { result ≡ Err (RuleFault.Refused refusal) }
{
    Err(RuleFault::Refused(refusal))
}

// An option takes the words of its values, whatever they look like.
fn with_values<'a>(
    inverted: bool,
    option: Opt,
    place: usize,
    words: WordSlice<'a>,
) -> Result<(OptionWords<'a>, WordSlice<'a>), RuleFault>
    ensures gives { OptionWordsGive result (with_values inverted option place (words_in words.entry)) }
    ensures shorter { IfOk result (λ r. length (words_in r.1) ≤ length (words_in words.entry)) }
{
    let count = option.row().values;
    if words.len() < count {
        return refused(Refusal::ValueMissing);
    }
    let (values, rest) = words.split_at(count);
    let given = OptionWords {
        inverted,
        option,
        values,
        place,
    };
    Ok((given, rest))
}

// An option after `!`, where it may be inverted.
fn inverted_words<'a>(
    option: Option<Opt>,
    place: usize,
    words: WordSlice<'a>,
) -> Result<(OptionWords<'a>, WordSlice<'a>), RuleFault>
    ensures gives { OptionWordsGive result (inverted_words option place (words_in words.entry)) }
    ensures shorter { IfOk result (λ r. length (words_in r.1) ≤ length (words_in words.entry)) }
{
    let option = match option {
        Some(option) => option,
        None => return refused(Refusal::InversionNotAllowed),
    };
    if !option.row().inverts {
        return refused(Refusal::InversionNotAllowed);
    }
    with_values(true, option, place, words)
}

// What stands after `!`.
fn after_bang<'a>(
    place: usize,
    words: WordSlice<'a>,
) -> Result<(OptionWords<'a>, WordSlice<'a>), RuleFault>
    ensures gives { OptionWordsGive result (after_bang place (words_in words.entry)) }
    ensures shorter { IfOk result (λ r. length (words_in r.1) ≤ length (words_in words.entry)) }
{
    match words.split_first() {
        None => return refused(Refusal::ValueMissing),
        Some((word, rest)) => return inverted_words(Opt::read(word), place, rest),
    }
}

// An option without `!`.
fn plain_words<'a>(
    option: Option<Opt>,
    place: usize,
    words: WordSlice<'a>,
) -> Result<(OptionWords<'a>, WordSlice<'a>), RuleFault>
    ensures gives { OptionWordsGive result (plain_words option place (words_in words.entry)) }
    ensures shorter { IfOk result (λ r. length (words_in r.1) ≤ length (words_in words.entry)) }
{
    match option {
        Some(option) => return with_values(false, option, place, words),
        None => return refused(Refusal::UnknownOption(place)),
    }
}

// The option at the front of the words, and the words after it; `end` is the place after the last word of the line.
#[tactic(auto, unfolding(crate::specs::reading::Steps::option_words_at))]
pub(crate) fn option_words_at<'a>(
    end: usize,
    words: WordSlice<'a>,
) -> Result<(OptionWords<'a>, WordSlice<'a>), RuleFault>
    requires { length (words_in words) ≤ end }
    ensures gives { OptionWordsGive result (option_words_at end (words_in words.entry)) }
    ensures shorter { IfOk result (λ r. length (words_in r.1) < length (words_in words.entry)) }
{
    match words.split_first() {
        None => return refused(Refusal::ValueMissing),
        Some((word, rest)) => {
            if word == b"!".as_slice() {
                return after_bang(end - rest.len(), rest);
            }
            return plain_words(Opt::read(word), end - words.len(), rest);
        }
    }
}
