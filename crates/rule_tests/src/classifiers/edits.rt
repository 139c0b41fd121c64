//! Edits drawn by lot, against what the rules say of each number.

use crate::classifiers::dice::Dice;
use crate::classifiers::drafts::numbers;
use crate::classifiers::drawn::{Kind, some_field};
use crate::classifiers::pair::Pair;
use std::alloc::Global;
use std::process::Abort;
use std::test::Fail;

// An edit: mostly one towards so many rules, else a replacement or one the other way.
fn edit(
    rt: &impl Abort,
    alloc: Global,
    pair: &mut Pair,
    kind: Kind,
    target: usize,
    dice: &mut Dice,
) -> Result<(), Fail> {
    let count = pair.len();
    let draft = kind.draw(dice);
    let choice = dice.below(8);
    let grows = (count < target) == (choice > 1);
    if count == 0 || choice > 0 && grows {
        return pair.insert(rt, alloc, dice.place(count), draft);
    }
    let at = dice.place(count - 1);
    if choice == 0 {
        return pair.replace(rt, alloc, at, draft);
    }
    pair.remove(rt, at);
    Ok(())
}

// Whether three searches and the row of a number, drawn by lot, are what the rules say; and now and then the whole line of
// a field: always where there are few rules, and where a word is full or has one bit.
pub(crate) fn is_right(pair: &Pair, dice: &mut Dice) -> bool {
    let count = pair.len();
    let field = some_field(dice);
    let is_whole = count < 66 || count % 64 < 2 || dice.once_in(8);
    if is_whole && !pair.has_line(field) {
        return false;
    }
    let x = dice.below(numbers(field));
    for _ in 0..3u32 {
        if !pair.finds_one(dice) {
            return false;
        }
    }
    pair.has_row(field, x)
}

// Edits until there are so many rules.
pub(crate) fn edit_towards(
    rt: &impl Abort,
    alloc: Global,
    pair: &mut Pair,
    kind: Kind,
    target: usize,
    dice: &mut Dice,
) -> Result<(), Fail> {
    for _ in 0..8000u32 {
        if pair.len() == target {
            break;
        }
        edit(rt, alloc, pair, kind, target, dice)?;
        assert!(rt; is_right(pair, dice), "at {} rules", pair.len());
    }
    assert_eq!(rt; pair.len(), target);
    Ok(())
}

// Edits until there are as many rules as each count in turn says, and goes on with a copy.
fn edit_through(
    rt: &impl Abort,
    alloc: Global,
    kind: Kind,
    seed: u64,
    counts: &[usize],
) -> Result<(), Fail> {
    let mut dice = Dice::new(seed);
    let mut pair = Pair::new(alloc)?;
    for count in counts {
        edit_towards(rt, alloc, &mut pair, kind, *count, &mut dice)?;
        assert!(rt; pair.has_lines(), "at {count} rules");
        pair.change_to_copy(alloc)?;
    }
    Ok(())
}

#[test]
fn random_edits(rt: HostRuntime) -> Result<(), Fail> {
    let counts = [70, 0, 130, 60, 70, 3, 90, 1, 66];
    edit_through(&rt, rt.alloc(), Kind::Mixed, 1, counts.as_slice())
}

#[test]
fn edits_where_rows_have_few_rules(rt: HostRuntime) -> Result<(), Fail> {
    let counts = [
        70, 60, 135, 120, 260, 250, 520, 500, 1080, 1000, 1030, 505, 515, 120, 62, 70,
    ];
    edit_through(&rt, rt.alloc(), Kind::Narrow(1000), 2, counts.as_slice())
}

#[test]
fn edits_where_rows_have_rules_in_most_words(rt: HostRuntime) -> Result<(), Fail> {
    let counts = [520, 250, 1030, 760, 1080, 500];
    edit_through(&rt, rt.alloc(), Kind::Narrow(200), 3, counts.as_slice())
}

#[test]
fn edits_where_rows_have_most_rules(rt: HostRuntime) -> Result<(), Fail> {
    let counts = [135, 120, 520, 380, 1450, 1380, 600];
    edit_through(&rt, rt.alloc(), Kind::Narrow(2), 4, counts.as_slice())
}

#[test]
fn edits_that_cut_every_row(rt: HostRuntime) -> Result<(), Fail> {
    let counts = [3, 0, 5, 1, 66, 2, 8, 0, 135, 60, 70, 0];
    edit_through(&rt, rt.alloc(), Kind::Combs, 5, counts.as_slice())
}
