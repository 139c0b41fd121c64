//! Boxes of rules that are given as text.

use classify::Classifier;
use fields::Words;
use rules::{Boxed, Work, read_rule};
use std::alloc::Global;
use std::process::Abort;
use std::test::Fail;

// The box of a rule's text.
pub(crate) fn boxed(alloc: Global, text: &str) -> Result<Boxed, Fail> {
    let words = Words::split(alloc, text.as_bytes())?;
    let rule = read_rule(alloc, &words, 0)?;
    Ok(Boxed::of(alloc, &rule, &mut Work::new())?)
}

// Puts the box of a rule's text in last.
pub(crate) fn append(
    rt: &impl Abort,
    alloc: Global,
    classifier: &mut Classifier,
    text: &str,
) -> Result<(), Fail> {
    let boxed = boxed(alloc, text)?;
    let at = classifier.len();
    assert!(rt; classifier.insert(at, boxed).is_ok());
    Ok(())
}
