//! Classifiers that lose all rules, at once or one by one, and are filled again.

use crate::classifiers::dice::Dice;
use crate::classifiers::drawn::Kind;
use crate::classifiers::edits::{edit_towards, is_right};
use crate::classifiers::pair::Pair;
use std::alloc::Global;
use std::process::Abort;
use std::test::Fail;

// Takes the first rule out until there is none.
fn remove_from_the_front(rt: &impl Abort, pair: &mut Pair, dice: &mut Dice) {
    for _ in 0..pair.len() {
        pair.remove(rt, 0);
        assert!(rt; is_right(pair, dice), "at {} rules", pair.len());
    }
}

// Fills a classifier, takes every rule out at once, fills it again, and takes them out one by one.
fn fill_twice(
    rt: &impl Abort,
    alloc: Global,
    pair: &mut Pair,
    kind: Kind,
    count: usize,
    dice: &mut Dice,
) -> Result<(), Fail> {
    edit_towards(rt, alloc, pair, kind, count, dice)?;
    pair.clear();
    assert!(rt;
        pair.has_lines() && is_right(pair, dice),
        "cleared of {count}"
    );
    edit_towards(rt, alloc, pair, kind, count, dice)?;
    assert!(rt; pair.has_lines(), "filled with {count} again");
    remove_from_the_front(rt, pair, dice);
    assert!(rt;
        pair.has_lines() && is_right(pair, dice),
        "emptied of {count}"
    );
    Ok(())
}

// Fills one classifier with more and with fewer rules in turn.
fn fill_and_empty(rt: &impl Abort, alloc: Global, kind: Kind, seed: u64) -> Result<(), Fail> {
    let mut dice = Dice::new(seed);
    let mut pair = Pair::new(alloc)?;
    for count in [1, 64, 65, 200, 3] {
        fill_twice(rt, alloc, &mut pair, kind, count, &mut dice)?;
    }
    Ok(())
}

#[test]
fn cleared_or_emptied_and_filled_again(rt: HostRuntime) -> Result<(), Fail> {
    fill_and_empty(&rt, rt.alloc(), Kind::Narrow(100), 6)?;
    fill_and_empty(&rt, rt.alloc(), Kind::Mixed, 7)
}
