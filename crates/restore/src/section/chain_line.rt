//! The parts of a chain line: its name, its policy and its counters.
ghost use Rattle.std.specs.Prelude.{◌≡◌, Option, option_map, drop};
ghost use Rattle.fields.specs.text.WordSlice.{words_in};
ghost use Rattle.table.specs.chains.Table.{is_built_in};
ghost use Rattle.restore.specs.sections.Section.{in_brackets, is_counters, is_policy, may_be_policy, policy_word};

use crate::command::digits::is_digits;
use fields::{Hook, WordSlice, cut_at};

// What stands between `[` and `]`.
fn in_brackets(text: &[u8]) -> Option<&[u8]>
    ensures { option_map (λ inside. inside.now) result ≡ in_brackets text.now }
{
    if text.len() < 2 || text[0] != b'[' || text[text.len() - 1] != b']' {
        return None;
    }
    Some(&text[1..text.len() - 1])
}

// `[p:b]`, each one or more digits.
pub(crate) fn is_counters(text: &[u8]) -> bool
    ensures { result ≡ is_counters text.now }
{
    let Some(inside) = in_brackets(text) else {
        return false;
    };
    let Some((packets, bytes)) = cut_at(inside, b':') else {
        return false;
    };
    is_digits(packets) && is_digits(bytes)
}

// The policy after the name in a chain line, and perhaps counters.
pub(crate) fn policy_word(words: WordSlice<'_>) -> Option<&[u8]>
    ensures { option_map (λ policy. policy.now) result ≡ policy_word (words_in words.entry) }
{
    let (policy, counters) = words.split_first()?;
    match counters.split_first() {
        None => Some(policy),
        Some((counters, rest)) => {
            if rest.is_empty() && is_counters(counters) {
                return Some(policy);
            }
            None
        }
    }
}

// Whether the chain is a built-in one.
pub(crate) fn is_built_in(name: &[u8]) -> bool
    ensures { result ≡ is_built_in name.now }
{
    Hook::read(name).is_some()
}

// The word of a policy.
fn is_policy(text: &[u8]) -> bool
    ensures { result ≡ is_policy text.now }
{
    text == b"ACCEPT".as_slice() || text == b"DROP".as_slice()
}

// Whether the chain of a name may have the policy: a built-in chain ACCEPT, DROP or `-`, any other name `-`.
pub(crate) fn may_be_policy(name: &[u8], policy: &[u8]) -> bool
    ensures { result ≡ may_be_policy name.now policy.now }
{
    policy == b"-".as_slice() || is_built_in(name) && is_policy(policy)
}
