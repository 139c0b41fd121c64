//! Reading words that say a set of packets: `key=value,..`, `key!=value,..` and `key=any`.
ghost use Rattle.std.specs.Prelude.{◌≡◌, ℕ, Bool, List, false, None, IfOk, IfErr, MatchOption};
ghost use Rattle.fields.specs.declared.numbers.field.Field.{Field};
ghost use Rattle.fields.specs.declared.numbers.field.Field.TheVariants as field;
ghost use Rattle.fields.specs.numbers.Field.{top};
ghost use Rattle.fields.specs.text.Cut.{cut_at};
ghost use Rattle.notation.specs.Words.{are_known, ends_within, flags_tested, is_any, is_list, meaning, meaning_beside, states_taken, values_of, IsList, IsRead, IsRefused, IsWritten};
ghost use Rattle.notation.specs.steps.Meaning.{HasMeant, HasOneMeant};

use crate::joined::with_commas;
use crate::packet_word::{PacketWord, PacketWordFault};
use crate::range::read_range;
use fields::{CtSet, Field, FlagTest, Spans, cut_at};
use std::alloc::{AllocError, Global};

// The numbers between two ends, if they rise and the field has them.
fn span_set(
    alloc: Global,
    field: Field,
    ends: Option<(u128, u128)>,
) -> Result<Option<Spans>, AllocError>
    ensures { IfOk result (λ found. MatchOption found (ends_within field ends ≡ None) (HasMeant field (ends_within field ends))) }
{
    let Some((first, last)) = ends else {
        return Ok(None);
    };
    if first > last || last > field.top() {
        return Ok(None);
    }
    Ok(Some(Spans::one(alloc, field.top(), first, last)?))
}

// The sets of flags that pass the test of a set, a slash and a mask.
fn flags_tested(alloc: Global, text: &[u8]) -> Result<Option<Spans>, AllocError>
    ensures { IfOk result (λ found. MatchOption found (flags_tested (cut_at 47 text.now) ≡ None) (HasMeant field.TcpFlags (flags_tested (cut_at 47 text.now)))) }
{
    let Some((comp, mask)) = cut_at(text, b'/') else {
        return Ok(None);
    };
    let comp = with_commas(alloc, comp)?;
    let mask = with_commas(alloc, mask)?;
    match FlagTest::read(mask.as_slice(), comp.as_slice()) {
        None => Ok(None),
        Some(test) => Ok(Some(test.allowed(alloc)?)),
    }
}

// The states that `--ctstate` takes by a name.
fn states_taken(alloc: Global, text: &[u8]) -> Result<Option<Spans>, AllocError>
    ensures { IfOk result (λ found. MatchOption found (states_taken text.now ≡ None) (HasMeant field.ConnectionState (states_taken text.now))) }
{
    match CtSet::read(text) {
        None => Ok(None),
        Some(set) => Ok(Some(set.allowed(alloc)?)),
    }
}

// The numbers of which a value holds that isn't a range.
fn meant_beside(alloc: Global, field: Field, text: &[u8]) -> Result<Option<Spans>, AllocError>
    ensures { IfOk result (λ found. MatchOption found (meaning_beside field text.now ≡ None) (HasMeant field (meaning_beside field text.now))) }
{
    match field {
        Field::TcpFlags => flags_tested(alloc, text),
        Field::ConnectionState => states_taken(alloc, text),
        _ => Ok(None),
    }
}

// The numbers of which a value holds, if it is one of the field.
fn meant(alloc: Global, field: Field, text: &[u8]) -> Result<Option<Spans>, AllocError>
    ensures { IfOk result (λ found. MatchOption found (meaning field text.now ≡ None) (HasMeant field (meaning field text.now))) }
{
    let ends = read_range(alloc, field, text)?;
    match span_set(alloc, field, ends)? {
        Some(numbers) => Ok(Some(numbers)),
        None => meant_beside(alloc, field, text),
    }
}

// The numbers of which one of the values of a list holds, if each is one of the field.
fn one_meant(alloc: Global, field: Field, list: &[u8]) -> Result<Option<Spans>, AllocError>
    ensures { IfOk result (λ found. MatchOption found (are_known field (values_of list.now) ≡ false) (HasOneMeant field (values_of list.now))) }
{
    let mut set = Spans::none(alloc, field.top());
    for text in list.split(|byte| *byte == b',') {
        let Some(numbers) = meant(alloc, field, text)? else {
            return Ok(None);
        };
        set = set.join(alloc, &numbers)?;
    }
    Ok(Some(set))
}

/// Whether a list is `any`.
pub(crate) fn is_any(list: &[u8]) -> bool
    ensures { result ≡ is_any list.now }
{
    list == b"any".as_slice()
}

// The numbers of a list, if it is one of the field.
fn numbers_of(alloc: Global, field: Field, list: &[u8]) -> Result<Option<Spans>, AllocError>
    ensures { IfOk result (λ found. MatchOption found (is_list field list.now ≡ false) (IsList field list.now)) }
{
    if is_any(list) {
        return Ok(Some(Spans::whole(alloc, field.top())?));
    }
    one_meant(alloc, field, list)
}

// What stands behind the key of a field: whether `!=` denies it, and the list.
fn behind<'a>(word: &'a [u8], field: Field) -> Option<(bool, &'a [u8])>
    ensures { MatchOption result ((denies : Bool) (list : List ℕ) → ¬ (IsWritten word.now field denies list))
        (λ found. IsWritten word.now field found.0 found.1.now) }
{
    let rest = word.strip_prefix(field.name())?;
    if let Some(list) = rest.strip_prefix(b"!=".as_slice()) {
        return Some((true, list));
    }
    match rest.strip_prefix(b"=".as_slice()) {
        Some(list) => Some((false, list)),
        None => None,
    }
}

// The field whose key a word begins with, whether `!=` stands behind it, and the list.
fn parts(word: &[u8]) -> Option<(Field, bool, &[u8])>
    ensures { MatchOption result ((f : Field) (denies : Bool) (list : List ℕ) → ¬ (IsWritten word.now f denies list))
        (λ found. IsWritten word.now found.0 found.1 found.2.now) }
{
    for field in Field::ALL {
        if let Some((denies, list)) = behind(word, field) {
            return Some((field, denies, list));
        }
    }
    None
}

impl PacketWord {
    /// What a word says: `key=value,..`, `key!=value,..` or `key=any`. A value is that of a packet line or a range; of flags `SYN+ACK` or
    /// `SYN/SYN+ACK`; of states `NEW`, `DNAT`, `NEW+DNAT` or `NEW+PLAIN`.
    ///
    /// # Errors
    ///
    /// `UnknownKey` where it begins with no key, and `=` or `!=`; `BadValue` where a value isn't one of the field; or where memory was refused.
    pub fn read(alloc: Global, word: &[u8]) -> Result<PacketWord, PacketWordFault>
        ensures read { IfOk result (IsRead word.now) }
        ensures refused { IfErr result (IsRefused word.now) }
    {
        let Some((field, denies, list)) = parts(word) else {
            return Err(PacketWordFault::UnknownKey);
        };
        match numbers_of(alloc, field, list)? {
            Some(numbers) => Ok(PacketWord {
                field,
                denies,
                numbers,
            }),
            None => Err(PacketWordFault::BadValue),
        }
    }
}
