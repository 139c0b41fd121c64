//! Edits before all other rules, which leave blank places there and take them, and a few elsewhere.

use crate::classifiers::dice::Dice;
use crate::classifiers::drawn::Kind;
use crate::classifiers::edits::{edit_towards, is_right};
use crate::classifiers::pair::Pair;
use std::alloc::Global;
use std::process::Abort;
use std::test::Fail;

// The first place, and now and then one up to the last.
fn mostly_first(dice: &mut Dice, last: usize) -> usize {
    if dice.once_in(8) {
        return dice.place(last);
    }
    0
}

// Takes so many rules out, mostly the first.
fn remove_some(rt: &impl Abort, pair: &mut Pair, count: usize, dice: &mut Dice) {
    for _ in 0..count {
        let rules = pair.len();
        pair.remove(rt, mostly_first(dice, rules.saturating_sub(1)));
        assert!(rt; is_right(pair, dice), "at {rules} rules");
    }
}

// Puts so many rules in, mostly before all others.
fn insert_some(
    rt: &impl Abort,
    alloc: Global,
    pair: &mut Pair,
    kind: Kind,
    count: usize,
    dice: &mut Dice,
) -> Result<(), Fail> {
    for _ in 0..count {
        let rules = pair.len();
        let at = mostly_first(dice, rules);
        pair.insert(rt, alloc, at, kind.draw(dice))?;
        assert!(rt; is_right(pair, dice), "at {rules} rules");
    }
    Ok(())
}

// Rules in and out at the front, by fewer and by more than a word has bits, and of a copy.
fn edit_at_the_front(rt: &impl Abort, alloc: Global, kind: Kind, seed: u64) -> Result<(), Fail> {
    let mut dice = Dice::new(seed);
    let mut pair = Pair::new(alloc)?;
    edit_towards(rt, alloc, &mut pair, kind, 70, &mut dice)?;
    for (out, into) in [(1, 1), (3, 66), (129, 5), (2, 70)] {
        remove_some(rt, &mut pair, out, &mut dice);
        assert!(rt; pair.has_lines(), "after {out} went");
        insert_some(rt, alloc, &mut pair, kind, into, &mut dice)?;
        assert!(rt; pair.has_lines(), "after {into} came");
        pair.change_to_copy(alloc)?;
    }
    Ok(())
}

// The first rule out and one in as the last, over and over, in a copy, which has no room to spare.
fn pass_through(rt: &impl Abort, alloc: Global, kind: Kind, count: usize) -> Result<(), Fail> {
    let mut dice = Dice::new(9);
    let mut pair = Pair::new(alloc)?;
    insert_some(rt, alloc, &mut pair, kind, count, &mut dice)?;
    pair.change_to_copy(alloc)?;
    for _ in 0..80u32 {
        pair.remove(rt, 0);
        pair.insert(rt, alloc, pair.len(), kind.draw(&mut dice))?;
        assert!(rt; is_right(&pair, &mut dice), "of {count} rules");
    }
    assert!(rt; pair.has_lines(), "of {count} rules");
    Ok(())
}

#[test]
fn edits_before_all_others(rt: HostRuntime) -> Result<(), Fail> {
    edit_at_the_front(&rt, rt.alloc(), Kind::Narrow(100), 10)?;
    edit_at_the_front(&rt, rt.alloc(), Kind::Mixed, 11)
}

#[test]
fn first_out_and_last_in(rt: HostRuntime) -> Result<(), Fail> {
    for count in [64, 127] {
        pass_through(&rt, rt.alloc(), Kind::Narrow(100), count)?;
    }
    Ok(())
}
