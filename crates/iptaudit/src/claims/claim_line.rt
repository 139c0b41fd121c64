//! A claim on a line: `[NAME:] never ACCEPT at INPUT key=value ..`.
use crate::claims::claimed_packets::{packets_but, packets_of};
use crate::claims::verdict_list::{all_but, verdicts_of};
use crate::fault::Fault;
use audits::Claim;
use fields::Hook;
use questions::GivenPackets;
use std::alloc::{AllocError, Global};
use table::Verdict;

// What is claimed of some packets.
#[derive(Clone, Copy, PartialEq, Eq)]
enum Form {
    // None gets one of the verdicts.
    Never,
    // Each gets one.
    Always,
    // None but those of other words gets one.
    Only,
}

// The words of a claim, taken apart.
#[derive(Clone, Copy)]
struct Parts<'s, 'a> {
    form: Form,
    // The words behind `only`.
    excepted: &'s [&'a str],
    verdicts: &'a str,
    hook: &'a str,
    words: &'s [&'a str],
}

// What the first word claims.
fn form_named(word: &str) -> Option<Form> {
    match word {
        "never" => Some(Form::Never),
        "always" => Some(Form::Always),
        "only" => Some(Form::Only),
        _ => None,
    }
}

// Words before the first `at`, and the hook and the words behind it.
fn cut_at_hook<'s, 'a>(
    words: &'s [&'a str],
) -> Result<(&'s [&'a str], &'a str, &'s [&'a str]), Fault<'a>> {
    let Some(place) = words.iter().position(|word| *word == "at") else {
        return Err(Fault::NoPlace);
    };
    if place >= words.len() {
        return Err(Fault::NoPlace);
    }
    let (before, behind) = words.split_at(place);
    match behind {
        [_, hook, rest @ ..] => Ok((before, *hook, rest)),
        _ => Err(Fault::NoPlace),
    }
}

// Takes the words of a claim apart, behind its name.
fn parts_of<'s, 'a>(text: &'a str, words: &'s [&'a str]) -> Result<Parts<'s, 'a>, Fault<'a>> {
    let Some((first, rest)) = words.split_first() else {
        return Err(Fault::NoClaim(text));
    };
    let Some(form) = form_named(first) else {
        return Err(Fault::NoClaim(first));
    };
    let (before, hook, words) = cut_at_hook(rest)?;
    let Some((verdicts, excepted)) = before.split_last() else {
        return Err(Fault::NoVerdict("at"));
    };
    let verdicts = *verdicts;
    match (form, excepted.first()) {
        (Form::Only, None) => Err(Fault::NoException),
        (Form::Never | Form::Always, Some(word)) => Err(Fault::BadWord(word)),
        _ => Ok(Parts {
            form,
            excepted,
            verdicts,
            hook,
            words,
        }),
    }
}

// The packets that a claim is about.
fn given_by<'a>(alloc: Global, parts: Parts<'_, 'a>) -> Result<GivenPackets, Fault<'a>> {
    let Some(hook) = Hook::read(parts.hook.as_bytes()) else {
        return Err(Fault::NoHook(parts.hook));
    };
    match parts.excepted.last() {
        None => packets_of(alloc, hook, parts.words),
        Some(last) => packets_but(alloc, hook, parts.words, parts.excepted, last),
    }
}

// The verdicts that a claim forbids.
fn forbidden_by<'a>(alloc: Global, parts: Parts<'_, 'a>) -> Result<Vec<Verdict>, Fault<'a>> {
    let verdicts = verdicts_of(alloc, parts.verdicts)?;
    match parts.form {
        Form::Never | Form::Only => Ok(verdicts),
        Form::Always => Ok(all_but(alloc, verdicts.as_slice())?),
    }
}

// A copy of a text.
fn copied(alloc: Global, text: &str) -> Result<String, AllocError> {
    String::from_utf8_lossy(alloc, text.as_bytes())
}

// The words of a text.
fn words_in<'a>(alloc: Global, text: &'a str) -> Result<Vec<&'a str>, AllocError> {
    let mut words = Vec::new(alloc);
    for word in text.split_whitespace() {
        words.push(word)?;
    }
    Ok(words)
}

/// The name that a text begins with, where it has one, and the claim behind it.
pub(crate) fn cut_name(text: &str) -> (Option<&str>, &str) {
    if let Some((name, rest)) = text.split_once(':') {
        if !name.is_empty() && !name.bytes().any(|byte| byte.is_ascii_whitespace()) {
            return (Some(name), rest.trim_ascii_start());
        }
    }
    (None, text)
}

/// The claim of a text without blanks around it, which stands on the line of this number.
///
/// # Errors
///
/// `NoClaim`, `NoPlace`, `NoVerdict`, `NoException`, `NoHook` and `BadWord`, where something of it is missing or isn't what stands there; `NoPackets` where
/// it is about none; or where memory was refused.
pub(crate) fn read_claim<'a>(alloc: Global, line: u64, text: &'a str) -> Result<Claim, Fault<'a>> {
    let (name, claimed) = cut_name(text);
    let words = words_in(alloc, claimed)?;
    let parts = parts_of(text, words.as_slice())?;
    let forbidden = forbidden_by(alloc, parts)?;
    let given = given_by(alloc, parts)?;
    Ok(Claim {
        line,
        name: match name {
            Some(name) => Some(copied(alloc, name)?),
            None => None,
        },
        text: copied(alloc, claimed)?,
        given,
        forbidden,
        forbids_own: parts.form == Form::Always,
    })
}
